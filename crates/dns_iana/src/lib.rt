//! Numbers of DNS messages that IANA registers: record types, classes, opcodes, rcodes, option codes
//! and codes of extended errors. Serial numbers of zones.
//!
//! Types and classes have texts. The printed text of a type or a class reads back as that number,
//! and mnemonics are read ignoring ASCII case (RFC 3597 section 5). Serial numbers wrap at 2^32: one
//! is less than those up to 2^31 - 1 ahead of it (RFC 1982), which is no order.
#![tactic(auto)]

pub mod class;
mod extended_error;
pub mod laws;
mod mnemonic;
mod opcode;
mod option_code;
mod rcode;
mod registry;
pub mod rtype;
mod serial;
pub mod serial_laws;

pub use class::{Class, write_class};
pub use extended_error::ExtendedErrorCode;
pub use opcode::Opcode;
pub use option_code::OptionCode;
pub use rcode::{OptRcode, Rcode};
pub use rtype::{Rtype, write_rtype};
pub use serial::{Serial, write_serial};
