//! Numbers as the words that IANA has registered, else as a word and the number: of record types and
//! classes those of RFC 3597 section 5.
ghost use Rattle.std.specs.Prelude.{◌≡◌, ◌<◌};
ghost use Rattle.std.specs.Option.{option_copied};
ghost use Rattle.dns_iana.specs.Mnemonics.{mnemonic};
ghost use Rattle.dns_iana.specs.Registry.{registered_opt_rcodes};
ghost use Rattle.dnsm_status.specs.CallerBuffers.{Holds};
ghost use Rattle.dnsm_text.specs.Texts.{class_text, extended_error_text, opcode_text, option_text, rcode_text, type_text};

use dns_iana::{Class, ExtendedErrorCode, Opcode, OptRcode, OptionCode, Rtype};
use dnsm_status::sink::End;
use dnsm_status::words::write_word;

/// Writes a record type: its registered name, or `TYPE` and its number.
pub fn rtype(number: u16, out: &mut [u8]) -> End
    ensures text { Holds out.new (type_text number) result }
    ensures short { result < 16 }
{
    let word = Rtype::from_int(number).registered_name();
    write_word(word, "TYPE", u32::from(number), out)
}

/// Writes a class: its registered name, or `CLASS` and its number.
pub fn class(number: u16, out: &mut [u8]) -> End
    ensures text { Holds out.new (class_text number) result }
    ensures short { result < 16 }
{
    let word = Class::from_int(number).registered_name();
    write_word(word, "CLASS", u32::from(number), out)
}

/// Writes an opcode: its registered name, or `OPCODE` and its number.
pub fn opcode(number: u8, out: &mut [u8]) -> End
    ensures text { Holds out.new (opcode_text number) result }
    ensures short { result < 16 }
{
    let word = Opcode::from_int(number).registered_name();
    write_word(word, "OPCODE", u32::from(number), out)
}

/// Writes an extended rcode: its registered name, or `RCODE` and its number, also above 4,095. 16 is
/// `BADVERS`.
pub fn rcode(number: u16, out: &mut [u8]) -> End
    ensures text { Holds out.new (rcode_text number) result }
    ensures short { result < 16 }
{
    write_word(rcode_name(number), "RCODE", u32::from(number), out)
}

/// The registered name of an extended rcode. No number above 4,095 has one.
#[tactic(auto, using(crate::proofs::NumberLemmas::no_rcode))]
fn rcode_name(number: u16) -> Option<&'static str>
    ensures { option_copied result ≡ mnemonic registered_opt_rcodes number }
{
    match OptRcode::checked_from_int(number) {
        Some(rcode) => rcode.registered_name(),
        None => None,
    }
}

/// Writes the code of an option: its registered name, or `OPTION` and its number.
pub fn option(number: u16, out: &mut [u8]) -> End
    ensures text { Holds out.new (option_text number) result }
    ensures short { result < 32 }
{
    let word = OptionCode::from_int(number).registered_name();
    write_word(word, "OPTION", u32::from(number), out)
}

/// Writes the code of an extended error: its registered name, or `EDE` and its number (RFC 8914).
pub fn extended_error(number: u16, out: &mut [u8]) -> End
    ensures text { Holds out.new (extended_error_text number) result }
    ensures short { result < 64 }
{
    let word = ExtendedErrorCode::from_int(number).registered_name();
    write_word(word, "EDE", u32::from(number), out)
}
