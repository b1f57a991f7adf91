//! Messages on a stream, such as a TCP connection. Each follows its length in two octets; both are
//! its frame (RFC 1035 section 4.2.2).
//!
//! [`StreamReader`] takes octets in pieces of any size, and yields the messages. However the octets
//! are cut into pieces, the messages are the same. [`first_message`] reads a buffer of the caller.
//! Neither reads from a connection itself. Frames are written by `StreamTarget` of `dns_wire`.
//!
//! `laws` has the theorems.
#![tactic(auto)]

mod error;
mod frames;
pub mod laws;
mod reader;

pub use error::FrameError;
pub use frames::{MAX_FRAME, first_message, missing_octets};
pub use reader::StreamReader;
