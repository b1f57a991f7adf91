//! Record types as a table: each type is a list of named fields, and one RDATA type reads and
//! writes all of them. `DataOf` does so for a type of one's own.
#![tactic(auto)]

mod accepts;
mod compose;
mod data_order;
mod encoded;
mod field_data;
mod field_order;
mod fields;
mod kind;
pub mod laws;
mod layout;
mod made_data;
mod own;
mod own_order;
mod owned;
mod range;
mod rows;
mod shape;
mod skip;
mod table;
mod uncompressed;
mod value;

pub use encoded::Encoded;
pub use field_data::FieldData;
pub use fields::{Field, Fields};
pub use kind::Kind;
pub use layout::layout_type;
pub use made_data::owned_data;
pub use own::{DataOf, RecordFields};
pub use owned::OwnedFieldData;
pub use rows::{RecordTypes, record_types};
pub use shape::Shape;
pub use table::{OPAQUE, Row, fields_of};
pub use value::Value;
