//! Tables of registered numbers with their names, sorted by number.
ghost use Rattle.std.specs.Prelude.{◌≡◌, IsTrue};
ghost use Rattle.std.specs.Option.{option_copied};
ghost use Rattle.dns_iana.specs.Mnemonics.{mnemonic};
ghost use Rattle.dns_iana.specs.Registry.{is_rising};
ghost use Rattle.dns_iana.specs.Tables.{table};

use crate::mnemonic::Entry;

/// The registered name of the number, by binary search.
pub(crate) fn name_of(entries: &[Entry], number: u16) -> Option<&'static str>
    requires { IsTrue (is_rising (table entries.now)) }
    ensures { option_copied result ≡ mnemonic (table entries.now) number }
{
    match entries.binary_search_by_key(&number, |entry| entry.0) {
        Ok(index) => Some(entries[index].1),
        Err(_) => None,
    }
}
