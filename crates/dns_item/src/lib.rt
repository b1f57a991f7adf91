//! Questions and records of DNS messages, OPT records, and texts of questions.
//!
//! Reading returns a question or record if and only if one is encoded there (RFC 1035 sections
//! 4.1.2 and 4.1.3). Items that are written read back, under every compression rule. RDATA is read
//! by the layout of its record type, up to its end. One table says which texts are questions.
//! Questions and records have a canonical order (RFC 4034 section 6). An item whose names and RDATA
//! are converted keeps its type, class and TTL.
#![tactic(auto)]

mod canonical;
mod canonical_order;
mod conversions;
pub mod laws;
mod opt_record;
mod parsed_record;
mod parsed_record_order;
pub mod question;
mod question_conversions;
mod question_error;
pub mod question_laws;
mod question_order;
mod question_print;
mod question_text;
pub mod record;
mod record_error;
mod record_header;
mod record_order;
mod record_print;
mod record_reading;

pub use dns_code::Ttl;
pub use opt_record::OptRecord;
pub use parsed_record::{ParsedRecord, parse_record_cached};
pub use question::{ComposeQuestion, Question};
pub use record::{ComposeRecord, Record};
pub use record_header::RecordHeader;
