//! Headers of DNS messages, with their flags and counts, TTLs, and the numbers of `dns_iana`: record
//! types, classes and codes.
//!
//! The contracts follow the diagram of RFC 1035 section 4.1.1: each field is its bits, and each
//! setter changes its field alone. The printed text of flags reads back as the same value. A TTL is
//! four octets, a number of seconds (RFC 1035 section 4.1.3), and each arithmetic call returns the
//! exact number, or what it documents for a result that is out of range.
#![tactic(auto)]

mod bits;
mod counts;
mod error;
mod flags;
pub mod header;
pub mod laws;
mod section;
mod ttl;
pub mod ttl_laws;

pub use counts::HeaderCounts;
pub use dns_iana::{
    Class, ExtendedErrorCode, Opcode, OptRcode, OptionCode, Rcode, Rtype, class, rtype,
};
pub use error::{CountOverflow, FlagsFromStrError};
pub use flags::{Flags, write_flags};
pub use header::Header;
pub use section::HeaderSection;
pub use ttl::Ttl;
