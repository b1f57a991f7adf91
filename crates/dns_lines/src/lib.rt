//! Messages as text, and their records as lines of a zone file.
//!
//! `print_message` prints a line for the header of a message, one for its counts, and one for each
//! item of each section. It has the line of each item that reading the sections gives, in order (RFC
//! 1035 sections 4.1 and 5.1, RFC 3597 section 5).
//!
//! `print_zone_lines` prints a line of a zone file (RFC 1035 section 5.1) for each record that is
//! data of a zone, as `dig +noall +answer +authority +additional` has them. OPT, TKEY, TSIG and
//! SIG(0) are not. RDATA prints as the fields of its record type. If it is malformed, it prints as
//! octets (RFC 3597 section 5), perhaps with a compression pointer.
//!
//! Both texts are functions of the message's octets. `unspaced` removes the white space between
//! the hexadecimal digits of a message.
#![tactic(auto)]

mod digits;
mod known_data;
mod print;
mod record_lines;
mod zone_lines;

pub use digits::unspaced;
pub use known_data::KnownData;
pub use print::print_message;
pub use record_lines::{RecordLines, print_records, section_word};
pub use zone_lines::print_zone_lines;
