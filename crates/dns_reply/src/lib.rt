//! What a reply says of the question that it answers (RFC 1034 section 5.3.3).
//!
//! `reply_to` first decides whether a message is a reply to a query at all, and then what it says:
//! the records, that there are none or no such name, where to ask on, or why it says nothing. For
//! each message there is exactly one such case. Only records whose owners are within the zone that
//! the server was asked about count, but for those that make a reply unusable.
#![tactic(auto)]

mod chain;
mod checks;
mod dname;
mod find;
pub mod laws;
pub mod matching;
mod opts;
mod owners;
pub mod reply;
mod rrset;
mod saying;
mod substitution;

pub use matching::{LetterCase, check_reply};
pub use opts::has_many_opts;
pub use reply::{Alias, Answer, Denial, NotReply, Redirection, Referral, Reply, Unusable};
pub use rrset::Rrset;
pub use saying::{reply_to, reply_to_exact};
pub use substitution::substitute;
