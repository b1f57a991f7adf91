//! Values with a form of their own, each from its octets to text and back: locations, gateways,
//! relays and host identities.
#![tactic(auto)]

mod gateway;
mod gateway_words;
mod host_identity;
mod host_identity_words;
pub mod laws;
mod location;
mod location_words;
mod plain_names;

pub use gateway::{GatewayAndKey, Relay, is_gateway_and_key, is_relay};
pub use gateway_words::{read_gateway, read_relay};
pub use host_identity::{HostIdentity, is_host_identity};
pub use host_identity_words::{push_identity, read_host_identity};
pub use location::Location;
pub use location_words::read_location;
