//! The name of the last item.
ghost use Rattle.std.specs.Prelude.{◌≡◌, OnOk, IfErr};
ghost use Rattle.dns_name.specs.NameReading.{name_labels};
ghost use Rattle.dns_name.specs.NameTexts.{SpellsName};
ghost use Rattle.dnsm_text.specs.Texts.{SpellsNoName};

use dnsm_read::octets::same;
use dnsm_status::CallError;
use dnsm_text::names::{Text, name_of};
use std::marker::Model;

/// A name, and the text that it was read from. A text that is the same as the last one isn't read
/// again: records of a set have the same owner.
#[derive(Drop)]
pub(crate) struct LastName<'a> {
    text: &'a [u8],
    name: Text,
}

impl<'a> Model for LastName<'a> {
    ghost use Rattle.dns_name.specs.Names.{Labels};
    ghost use Rattle.dns_name.specs.NameReading.{name_labels};
    ghost use Rattle.dns_name.specs.NameTexts.{SpellsName};

    ghost Value = { Labels };

    ghost view = { λ l. name_labels l.name };

    ghost invariant = { λ l. SpellsName l.text.now (name_labels l.name) };
}

impl<'a> LastName<'a> {
    /// The root, whose text is a dot.
    pub(crate) fn root() -> Self {
        let text = b".";
        LastName {
            text,
            name: name_of(text).unwrap(),
        }
    }

    /// Reads a text, unless it is the last one again.
    pub(crate) fn read(&mut self, text: &'a [u8]) -> Result<(), CallError>
        ensures name { OnOk result (SpellsName text.now self.new) }
        ensures none { IfErr result (λ fault. (fault ≡ CallError.BadText)
            × SpellsNoName text.now) }
    {
        if same(self.text, text) {
            return Ok(());
        }
        self.name = name_of(text)?;
        self.text = text;
        Ok(())
    }

    /// The name.
    pub(crate) fn name(&self) -> &Text
        ensures { name_labels result.now ≡ self.now }
    {
        &self.name
    }
}
