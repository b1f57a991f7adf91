//! The octets of a message as rows, one for each field.
//!
//! The rows of any octets cover them, each octet exactly once and in order. Fewer than 12 octets
//! are one row. Otherwise the first six rows are the fields of the header section. The rows of the
//! four sections follow: of each question and record that the cursors of `dns_read` yield, field
//! by field and in order, up to the first item that can't be read, or whose RDATA can't. Of that
//! item, the rows of the fields before the fault are shown: the labels up to where the name can't
//! be read, or all fields before the first that is incomplete. Then come the row of the fault,
//! which says what is wrong, and the row of the remaining octets.
//!
//! The fields of RDATA are those that `fields_table::fields_of` returns for the record type, and the
//! options of OPT. A type that isn't in the table has one field, `data`. RDATA of no octets in class
//! NONE or ANY has no fields, as an update deletes or asks by it (RFC 2136 section 2.4).
//!
//! A name is shown with its pointer also where its type allows none. A field that takes all
//! remaining octets is one row whatever they are, unless it has character strings, which are a row
//! each. It has no row if no octets remain.
#![tactic(auto)]

mod form;
pub mod laws;
mod octets;
mod row;
mod shown;
mod tile;
mod walk;

pub use octets::{octets_of, target_of};
pub use row::{NameOf, Part, Row, RowFault, RowField, RowKind};
pub use shown::rows;
