//! Service parameters, from their octets to text and back (RFC 9460).
#![tactic(auto)]

mod base64_value;
mod key_marks;
pub mod laws;
mod mandatory;
mod parameter;
mod parameter_key;
mod parameter_value;
mod parameter_words;
mod parameters;
mod protocols;
mod value_octets;

pub use parameter::{ParameterText, write_parameter, write_parameters};
pub use parameter_words::read_parameters;
pub use parameters::{Parameter, Parameters, are_parameters};
