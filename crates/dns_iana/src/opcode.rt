ghost use Rattle.std.specs.Prelude.{◌≡◌, ◌↔◌, ℕ, Some};
ghost use Rattle.std.specs.Option.{option_copied};
ghost use Rattle.dns_iana.specs.Mnemonics.{mnemonic};
ghost use Rattle.dns_iana.specs.RegisteredTexts.{SpellsOpcode};
ghost use Rattle.dns_iana.specs.Registry.{registered_opcodes};

use crate::mnemonic::{self, Entry};
use crate::registry;
use std::marker::Model;

/// The kind of a query, an 8-bit number. A header stores its low four bits (RFC 1035 section
/// 4.1.1).
#[derive(Clone, Copy, Debug, PartialEq, Eq, PartialOrd, Ord, Hash)]
pub struct Opcode(u8);

impl Model for Opcode {
    ghost Value = { ℕ };

    ghost view = { λ opcode. opcode.0 };

    ghost inverse = { λ n. record { 0 = n } };
}

/// The registered opcodes and their names.
const OPCODES: [Entry; 6] = [
    (Opcode::QUERY.0 as u16, "Query"),
    (Opcode::IQUERY.0 as u16, "IQuery"),
    (Opcode::STATUS.0 as u16, "Status"),
    (Opcode::NOTIFY.0 as u16, "Notify"),
    (Opcode::UPDATE.0 as u16, "Update"),
    (Opcode::DSO.0 as u16, "DSO"),
];

impl Opcode {
    /// A standard query, 0 (RFC 1035 section 4.1.1).
    pub const QUERY: Opcode = Opcode(0);

    /// An inverse query, 1, obsolete (RFC 1035 section 4.1.1, RFC 3425).
    pub const IQUERY: Opcode = Opcode(1);

    /// A request for a server's status, 2 (RFC 1035 section 4.1.1).
    pub const STATUS: Opcode = Opcode(2);

    /// A notification that a zone changed, 4 (RFC 1996).
    pub const NOTIFY: Opcode = Opcode(4);

    /// An update of a zone, 5 (RFC 2136 section 2.2).
    pub const UPDATE: Opcode = Opcode(5);

    /// A message of a stateful session, 6 (RFC 8490).
    pub const DSO: Opcode = Opcode(6);

    /// The opcode with this number.
    pub fn from_int(number: u8) -> Self
        ensures { result ≡ number }
    {
        Opcode(number)
    }

    /// The number of the opcode.
    pub fn to_int(self) -> u8
        ensures { result ≡ self }
    {
        self.0
    }

    /// The name that IANA has registered for the opcode, such as `Query`.
    #[tactic(auto, unfolding(crate::specs::Registry::registered_opcodes))]
    pub fn registered_name(self) -> Option<&'static str>
        ensures { option_copied result ≡ mnemonic registered_opcodes self }
    {
        registry::name_of(&OPCODES, u16::from(self.0))
    }

    /// The opcode with this registered name, ignoring ASCII case. `OPCODE` and a decimal number up to
    /// 255 is read, too.
    #[tactic(auto, unfolding(crate::specs::Registry::registered_opcodes))]
    pub fn from_registered_name(text: &str) -> Option<Self>
        ensures { (n : ℕ) → SpellsOpcode text.now n ↔ (result ≡ Some n) }
    {
        let number = mnemonic::read(&OPCODES, "OPCODE", text)?;
        if number < 256 {
            Some(Opcode(number as u8))
        } else {
            None
        }
    }
}
