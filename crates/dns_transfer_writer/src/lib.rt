//! Writes zone transfers: a zone's records, or the differences between its versions, as the
//! messages of a response (RFC 5936 for AXFR, RFC 1995 for IXFR).
//!
//! A [`TransferWriter`] is made from a query. [`TransferWriter::next_message`] writes one message
//! over any target, with as many of the next records as fit. The writer puts the SOA records where
//! they belong. Nothing is allocated but by targets. TSIG isn't added.
#![tactic(auto)]

mod begin;
mod fill;
mod queue;
mod writer;
pub mod writer_laws;

pub use queue::Difference;
pub use writer::TransferWriter;
