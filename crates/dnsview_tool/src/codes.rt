//! Record types, classes, opcodes, RCODEs and options by the names that IANA has registered, or by
//! their numbers.
use dns_iana::{Class, Opcode, OptRcode, OptionCode, Rtype};
use std::fmt;

/// A record type, a class, an opcode or an RCODE. It prints as its registered name, in upper case
/// as in `NXDOMAIN`; if it has none, as a word and its number, as in `TYPE65280`.
#[derive(Clone, Copy)]
pub(crate) struct Mnemonic {
    name: Option<&'static str>,
    word: &'static str,
    number: u16,
}

impl Mnemonic {
    pub(crate) fn of_type(rtype: Rtype) -> Self {
        Mnemonic {
            name: rtype.registered_name(),
            word: "TYPE",
            number: rtype.to_int(),
        }
    }

    pub(crate) fn of_class(class: Class) -> Self {
        Mnemonic {
            name: class.registered_name(),
            word: "CLASS",
            number: class.to_int(),
        }
    }

    pub(crate) fn of_opcode(opcode: Opcode) -> Self {
        Mnemonic {
            name: opcode.registered_name(),
            word: "OPCODE",
            number: u16::from(opcode.to_int()),
        }
    }

    pub(crate) fn of_rcode(rcode: OptRcode) -> Self {
        Mnemonic {
            name: rcode.registered_name(),
            word: "RCODE",
            number: rcode.to_int(),
        }
    }
}

impl fmt::Display for Mnemonic {
    fn fmt<W: fmt::Write>(&self, f: &mut fmt::Formatter<W>) -> fmt::Result {
        if let Some(name) = self.name {
            return write_upper(f, name);
        }
        let word = self.word;
        let number = self.number;
        write!(f, "{word}{number}")
    }
}

/// Prints a text in upper case.
fn write_upper<W: fmt::Write>(f: &mut fmt::Formatter<W>, text: &str) -> fmt::Result {
    for letter in text.chars() {
        f.write_char(letter.to_ascii_uppercase())?;
    }
    Ok(())
}

/// The code of an option. It prints as its registered name, as in `edns-tcp-keepalive`; if it has
/// none, as in `OPTION65001`.
#[derive(Clone, Copy)]
pub(crate) struct OptionName(pub(crate) u16);

impl fmt::Display for OptionName {
    fn fmt<W: fmt::Write>(&self, f: &mut fmt::Formatter<W>) -> fmt::Result {
        let number = self.0;
        match OptionCode::from_int(number).registered_name() {
            Some(name) => f.write_str(name),
            None => write!(f, "OPTION{number}"),
        }
    }
}
