//! Prints the rows of a message, as text of at most 80 columns and as a page of HTML. The rows are
//! those of `dnsview_rows`.
//!
//! Each row is printed once and in order, with its offset and all of its octets in digits. A page
//! also has a cell for each octet at its offset, and an arrow from each pointer to its target.
//! Consecutive labels or character strings of at most one octet are one row there, with a bar
//! between their cells. A page is brief if it would otherwise have more than 64 KiB and more than
//! forty times the octets of its message: then most fields of an item are one row, too, and long
//! words are cut off. A row's cells and its line in the list link to each other, and `laws` says
//! that their `id`s are unique.
//!
//! The program prints all rows of the message in its input. The words for what a row means are only
//! tested.
#![tactic(auto)]

mod brief;
mod codes;
mod counts;
mod failure;
mod html;
mod joined;
pub mod laws;
mod meaning;
mod option;
mod printable;
mod program;
mod rdata;
mod request;
mod summary;
mod text;
mod words;

pub use dnsview_rows::{NameOf, Part, Row, RowFault, RowField, RowKind, rows};
pub use failure::{print_failure, print_unopened};
pub use html::print_page;
pub use program::{USAGE, tool};
pub use request::file_of;
pub use text::print_text;
