//! Zone transfers: the messages of a response, read as steps that change a zone (RFC 5936 for AXFR,
//! RFC 1995 for IXFR).
//!
//! A [`Transfer`] knows what its query asked for. [`Transfer::take`] checks a message's header and
//! question and returns its [`Steps`], an iterator; [`Steps::finish`] returns the transfer for the
//! next message. After an error nothing is yielded. Nothing is allocated. TSIG isn't checked.
//!
//! [`answers_of`] and [`act_at`] do the same one step at a time, for a caller that keeps the
//! [`State`].
#![tactic(auto)]

mod error;
mod grammar;
mod kind;
pub mod laws;
mod message;
mod query;
mod record;
mod steps;
mod transfer;

pub use error::TransferError;
pub use grammar::{Act, Request, State, is_ended};
pub use message::answers_of;
pub use query::Query;
pub use record::{Acted, act_at};
pub use steps::{Step, Steps};
pub use transfer::Transfer;
