//! The octets that a field accepts if it takes all remaining octets.
ghost use Rattle.std.specs.Prelude.{◌≡◌};
ghost use Rattle.fields_table.specs.Accepts.{accepts};

use crate::kind::Kind;
use fields_forms::{is_gateway_and_key, is_host_identity, is_relay};
use fields_lists::{are_prefixes, are_strings, is_type_map};
use fields_parameters::are_parameters;

impl Kind {
    /// Whether the octets can be a field of this kind, if it takes all remaining octets.
    pub fn accepts(self, octets: &[u8]) -> bool
        ensures { result ≡ accepts self octets.now }
    {
        match self {
            Kind::Strings => are_strings(octets),
            Kind::TypeBitMap => is_type_map(octets),
            Kind::ServiceParameters => are_parameters(octets),
            Kind::AddressPrefixes => are_prefixes(octets),
            Kind::GatewayAndKey => is_gateway_and_key(octets),
            Kind::Relay => is_relay(octets),
            Kind::HostIdentity => is_host_identity(octets),
            _ => true,
        }
    }
}
