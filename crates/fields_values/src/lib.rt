//! Record data (RDATA) of any record type from native values.
#![tactic(auto)]

mod form;
mod forms;
pub mod laws;
mod lists;
mod made;
mod named;
mod new_forms;
mod new_value;
mod push;
mod security;
mod services;
mod value_error;

pub use made::from_values;
pub use named::{a, aaaa, caa, cname, mx, ns, ptr, soa, srv, text, txt};
pub use new_forms::{NewGateway, NewGatewayAndKey, NewHostIdentity, NewRelay};
pub use new_value::NewValue;
pub use security::{dnskey, ds, nsec, rrsig, sshfp, tlsa};
pub use services::{https, naptr, svcb};
pub use value_error::ValueError;
