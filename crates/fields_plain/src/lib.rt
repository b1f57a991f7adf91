//! Plain values of fields, each from its octets to text and back: addresses, names, record types,
//! times, salts and hashes.
#![tactic(auto)]

mod address;
mod class_name;
mod eui;
pub mod laws;
mod locator;
mod name;
mod salt;
mod sized;
mod time;
mod type_name;
mod zone_name;

pub use address::{push_ipv4, push_ipv6, read_ipv4, read_ipv6, write_ipv6};
pub use class_name::{ClassName, write_class_name};
pub use eui::{Eui, push_eui48, push_eui64, read_eui48, read_eui64, write_eui};
pub use locator::{Locator64, push_locator, read_locator, write_locator};
pub use name::{push_name, read_name};
pub use salt::{push_hash, push_salt, read_counted_hex, read_hash, read_salt, write_salt};
pub use sized::{read_counted_base64, read_sized, write_sized};
pub use time::{Timestamp, push_time, read_time, write_timestamp, write_two_digits};
pub use type_name::{TypeName, push_type, read_type, write_type_name};
pub use zone_name::{ZoneName, write_zone_name};
