//! Types that hold octets, and the errors of reading and storing octets.
//!
//! A conversion between such types keeps the octets, and an overwrite changes no other octets.
#![tactic(auto)]

mod error;
mod join;
pub mod laws;
mod octets;
pub mod value_laws;

pub use error::{AppendError, FormError, ParseError, ShortBuf};
pub use join::join_conversions;
pub use octets::{BufferFrom, Octets, OctetsFrom, OctetsMut};
