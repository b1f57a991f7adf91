//! The classes that IANA has registered.
ghost use Rattle.std.specs.Prelude.{◌≡◌, ◌↔◌, ℕ, Some};
ghost use Rattle.std.specs.Option.{option_copied};
ghost use Rattle.dns_iana.specs.Mnemonics.{mnemonic};
ghost use Rattle.dns_iana.specs.RegisteredTexts.{SpellsRegisteredClass};
ghost use Rattle.dns_iana.specs.Registry.{registered_classes};

use crate::class::Class;
use crate::mnemonic::{self, Entry};
use crate::registry;

/// The registered classes and their names.
const CLASSES: [Entry; 5] = [
    (Class::IN.0, "IN"),
    (Class::CH.0, "CH"),
    (Class::HS.0, "HS"),
    (Class::NONE.0, "NONE"),
    (Class::ANY.0, "ANY"),
];

impl Class {
    /// The Internet, 1 (RFC 1035 section 3.2.4).
    pub const IN: Class = Class(1);

    /// Chaos, 3 (RFC 1035 section 3.2.4).
    pub const CH: Class = Class(3);

    /// Hesiod, 4 (RFC 1035 section 3.2.4).
    pub const HS: Class = Class(4);

    /// No class, 254, in updates (RFC 2136 section 2.4).
    pub const NONE: Class = Class(254);

    /// A request for every class, 255 (RFC 1035 section 3.2.5).
    pub const ANY: Class = Class(255);

    /// The name that IANA has registered for the class, such as `IN`.
    #[tactic(auto, unfolding(crate::specs::Registry::registered_classes))]
    pub fn registered_name(self) -> Option<&'static str>
        ensures { option_copied result ≡ mnemonic registered_classes self }
    {
        registry::name_of(&CLASSES, self.0)
    }

    /// The class with this registered name, ignoring ASCII case. `CLASS` and a decimal number up to
    /// 65,535 is read, too (RFC 3597 section 5); the registry's `*` isn't.
    #[tactic(auto, unfolding(crate::specs::Registry::registered_classes))]
    pub fn from_registered_name(text: &str) -> Option<Self>
        ensures { (n : ℕ) → SpellsRegisteredClass text.now n ↔ (result ≡ Some n) }
    {
        let number = mnemonic::read(&CLASSES, "CLASS", text)?;
        Some(Class(number))
    }
}
