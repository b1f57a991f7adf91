//! The numbers by which C sees errors, and what a call leaves in its caller's buffer.
//!
//! A call that writes counts what doesn't fit, too. So a caller learns how many octets are needed.
#![tactic(auto)]

pub mod buffers;
pub mod code;
pub mod laws;
pub mod sink;
pub mod words;

pub use code::CallError;
