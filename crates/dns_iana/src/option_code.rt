ghost use Rattle.std.specs.Prelude.{◌≡◌, ◌↔◌, ℕ, Some};
ghost use Rattle.std.specs.Option.{option_copied};
ghost use Rattle.dns_iana.specs.Mnemonics.{mnemonic};
ghost use Rattle.dns_iana.specs.RegisteredTexts.{SpellsOption};
ghost use Rattle.dns_iana.specs.Registry.{registered_options};

use crate::mnemonic::{self, Entry};
use crate::registry;
use std::marker::Model;

/// The code of an EDNS option in an OPT record, a 16-bit number (RFC 6891 section 6.1.2).
#[derive(Clone, Copy, Debug, PartialEq, Eq, PartialOrd, Ord, Hash)]
pub struct OptionCode(u16);

impl Model for OptionCode {
    ghost Value = { ℕ };

    ghost view = { λ code. code.0 };

    ghost inverse = { λ n. record { 0 = n } };
}

/// The registered option codes and their names.
const OPTIONS: [Entry; 20] = [
    (OptionCode::LLQ.0, "LLQ"),
    (OptionCode::UL.0, "Update Lease"),
    (OptionCode::NSID.0, "NSID"),
    (OptionCode::DAU.0, "DAU"),
    (OptionCode::DHU.0, "DHU"),
    (OptionCode::N3U.0, "N3U"),
    (OptionCode::CLIENT_SUBNET.0, "edns-client-subnet"),
    (OptionCode::EXPIRE.0, "EDNS EXPIRE"),
    (OptionCode::COOKIE.0, "COOKIE"),
    (OptionCode::TCP_KEEPALIVE.0, "edns-tcp-keepalive"),
    (OptionCode::PADDING.0, "Padding"),
    (OptionCode::CHAIN.0, "CHAIN"),
    (OptionCode::KEY_TAG.0, "edns-key-tag"),
    (OptionCode::EXTENDED_ERROR.0, "Extended DNS Error"),
    (OptionCode::CLIENT_TAG.0, "EDNS-Client-Tag"),
    (OptionCode::SERVER_TAG.0, "EDNS-Server-Tag"),
    (OptionCode::REPORT_CHANNEL.0, "Report-Channel"),
    (OptionCode::ZONEVERSION.0, "ZONEVERSION"),
    (OptionCode::UMBRELLA_IDENT.0, "Umbrella Ident"),
    (OptionCode::DEVICE_ID.0, "DeviceID"),
];

impl OptionCode {
    /// A long-lived query, 1 (RFC 8764).
    pub const LLQ: OptionCode = OptionCode(1);

    /// How long an update lasts, 2 (RFC 9664).
    pub const UL: OptionCode = OptionCode(2);

    /// The identifier of a name server, 3 (RFC 5001).
    pub const NSID: OptionCode = OptionCode(3);

    /// The DNSSEC algorithms that are understood, 5 (RFC 6975).
    pub const DAU: OptionCode = OptionCode(5);

    /// The DS hashes that are understood, 6 (RFC 6975).
    pub const DHU: OptionCode = OptionCode(6);

    /// The NSEC3 hashes that are understood, 7 (RFC 6975).
    pub const N3U: OptionCode = OptionCode(7);

    /// The network of the client, 8 (RFC 7871).
    pub const CLIENT_SUBNET: OptionCode = OptionCode(8);

    /// When a zone expires, 9 (RFC 7314).
    pub const EXPIRE: OptionCode = OptionCode(9);

    /// Cookies of client and server, 10 (RFC 7873).
    pub const COOKIE: OptionCode = OptionCode(10);

    /// How long to keep a TCP connection, 11 (RFC 7828).
    pub const TCP_KEEPALIVE: OptionCode = OptionCode(11);

    /// Octets that hide the size of a message, 12 (RFC 7830).
    pub const PADDING: OptionCode = OptionCode(12);

    /// A request for a chain of DNSSEC records, 13 (RFC 7901).
    pub const CHAIN: OptionCode = OptionCode(13);

    /// The tags of the trust anchors, 14 (RFC 8145).
    pub const KEY_TAG: OptionCode = OptionCode(14);

    /// More about an error, 15 (RFC 8914).
    pub const EXTENDED_ERROR: OptionCode = OptionCode(15);

    /// A tag of the client, 16 (no RFC).
    pub const CLIENT_TAG: OptionCode = OptionCode(16);

    /// A tag of the server, 17 (no RFC).
    pub const SERVER_TAG: OptionCode = OptionCode(17);

    /// Where to report errors, 18 (RFC 9567).
    pub const REPORT_CHANNEL: OptionCode = OptionCode(18);

    /// The version of a zone, 19 (RFC 9660).
    pub const ZONEVERSION: OptionCode = OptionCode(19);

    /// Identity of a network at Cisco Umbrella, 20,292 (no RFC).
    pub const UMBRELLA_IDENT: OptionCode = OptionCode(20292);

    /// A device at Cisco Umbrella, 26,946 (no RFC).
    pub const DEVICE_ID: OptionCode = OptionCode(26946);

    /// The option code with this number.
    pub fn from_int(number: u16) -> Self
        ensures { result ≡ number }
    {
        OptionCode(number)
    }

    /// The number of the option code.
    pub fn to_int(self) -> u16
        ensures { result ≡ self }
    {
        self.0
    }

    /// The name that IANA has registered for the option code, such as `edns-client-subnet`.
    #[tactic(auto, unfolding(crate::specs::Registry::registered_options))]
    pub fn registered_name(self) -> Option<&'static str>
        ensures { option_copied result ≡ mnemonic registered_options self }
    {
        registry::name_of(&OPTIONS, self.0)
    }

    /// The option code with this registered name, ignoring ASCII case. `OPTION` and a decimal number
    /// up to 65,535 is read, too.
    #[tactic(auto, unfolding(crate::specs::Registry::registered_options))]
    pub fn from_registered_name(text: &str) -> Option<Self>
        ensures { (n : ℕ) → SpellsOption text.now n ↔ (result ≡ Some n) }
    {
        let number = mnemonic::read(&OPTIONS, "OPTION", text)?;
        Some(OptionCode(number))
    }
}
