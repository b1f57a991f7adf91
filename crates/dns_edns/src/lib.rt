//! Values of OPT records: the header, which is in the class and the TTL, and the options (RFC 6891
//! section 6.1).
//!
//! Each field of the header is its bits, and a setter changes its field alone. Octets encode at
//! most one list of options, and an iterator yields these in order. An option of a known kind is
//! read as the one value that its octets encode.
#![tactic(auto)]

mod error;
mod header;
mod kinds;
mod known;
mod known_data;
pub mod laws;
mod option;
mod options;
mod split;
mod subnet;

pub use error::{BadOptData, LongOptData};
pub use header::OptHeader;
pub use kinds::{Cookie, Expire, ExtendedError, TcpKeepalive};
pub use known::known_options;
pub use known_data::KnownOptData;
pub use option::{ComposeOptData, SubnetAddr, UnknownOptData};
pub use options::{OptionIter, are_options};
pub use subnet::{ClientSubnet, address_prefix};
