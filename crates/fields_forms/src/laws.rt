//! Theorems on locations, gateways, relays and host identities, and their words. Each contract is a
//! theorem.
ghost use Rattle.std.specs.Prelude.{◌≡◌};
ghost use Rattle.fields_forms.specs.Laws.{GatewaysReadBack, GatewaysSplit, IdentitiesReadBack, IdentitiesSplit, LocationsReadBack, RelaysReadBack, RelaysSplit};
ghost use Rattle.fields_forms.specs.GatewayWords.{IsGateway, IsRelay};
ghost use Rattle.fields_forms.specs.IdentityWords.{IsHostIdentity};
ghost use Rattle.fields_forms.specs.LocationWords.{IsLocation};
ghost use Rattle.fields_forms.specs.LocationLaws.{LocationOctetsAreRead, LocationsSplit, ReadLocationsHaveOctets};
ghost use Rattle.fields_text.specs.Laws.{RepresentsOne};

use crate::location::Location;
use fields_text::laws::printed_values_read_back;

/// What is printed of a value represents that value.
pub fn printed_forms_read_back()
    ensures locations { LocationsReadBack }
    ensures gateways { GatewaysReadBack }
    ensures relays { RelaysReadBack }
    ensures identities { IdentitiesReadBack }
{
    printed_values_read_back();
}

/// What is printed of a value is these words.
pub fn printed_forms_are_words()
    ensures gateways { GatewaysSplit }
    ensures relays { RelaysSplit }
    ensures identities { IdentitiesSplit }
    ensures locations { LocationsSplit }
{}

/// Words represent at most one value.
pub fn words_represent_one()
    ensures gateways { RepresentsOne IsGateway }
    ensures relays { RepresentsOne IsRelay }
    ensures identities { RepresentsOne IsHostIdentity }
    ensures locations { RepresentsOne IsLocation }
{}

/// A location is read of its octets, and of no others.
pub fn location_octets_read_back()
    ensures made { LocationOctetsAreRead }
    ensures read { ReadLocationsHaveOctets }
{}

/// A clone is the same value.
pub fn location_clones()
    ensures locations { (a b : _) → ⟦<Location as Clone>⟧.is_clone a b → b ≡ a }
{}

/// A clone never fails.
pub fn location_clones_never_fail()
    ensures locations { (a : _) → ⟦<Location as Clone>⟧.is_infallible a }
{}
