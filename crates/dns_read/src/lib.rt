//! Messages, read lazily: their headers, and cursors over their questions and records.
//!
//! A `Message` is at least 12 octets; creating one checks nothing else. A cursor yields consecutive
//! readable entries, at most as many as the header's count, and then the error of the first entry
//! that can't be read (RFC 1035 section 4.1). Each section starts after the entries before it, which
//! are skipped, or has one error. For all octets there is exactly one such reading, and exactly one
//! such start or error.
#![tactic(auto)]

mod any_record_iter;
mod buffers;
mod error;
pub mod laws;
pub mod message;
mod message_iter;
mod opt_searches;
mod question_section;
mod record_iter;
mod record_searches;
mod record_section;
mod same_questions;
pub mod search_laws;
mod searches;
mod section;
mod starts;

pub use any_record_iter::AnyRecordIter;
pub use error::ShortMessage;
pub use message::Message;
pub use message_iter::MessageIter;
pub use question_section::QuestionSection;
pub use record_iter::RecordIter;
pub use record_section::RecordSection;
pub use section::Section;
pub use starts::{first_section, following};
