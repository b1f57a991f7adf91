//! What messages are written to: [`Composer`], the trait of all targets, and those that don't
//! compress names: vectors, arrays and [`StreamTarget`]. What is written to a target reads back
//! unchanged, under every rule of compression (RFC 1035 section 4.1.4): [`target_laws`].
//!
//! [`ToNameExt`] compares names, and writes their canonical form. [`CanonicalOrd`] is the
//! canonical order of record data, records and questions (RFC 4034 section 6). What reads octets
//! and names is exported from `dns_octets` and `dns_name`.
#![tactic(auto)]

mod canonical_ord;
mod composer;
mod stream_target;
pub mod target_laws;
mod to_name;

pub use canonical_ord::CanonicalOrd;
pub use composer::{CloneTarget, Composer, FreezeBuilder};
pub use dns_name::{
    DisplayWithDot, FlattenInto, Label, LabelIter, Name, ParsedName, Parser, SuffixIter, ToName,
    laws, name,
};
pub use dns_octets::{
    AppendError, BufferFrom, FormError, Octets, OctetsFrom, OctetsMut, ParseError, ShortBuf,
    laws as error_laws, value_laws,
};
pub use stream_target::{MAX_OCTETS, StreamTarget};
pub use to_name::ToNameExt;
