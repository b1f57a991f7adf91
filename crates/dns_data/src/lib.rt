//! The RDATA of DNS records: its traits, the types A, NS, CNAME, SOA and OPT, opaque data, and
//! RDATA with its RDLENGTH.
//!
//! An RDATA value is a list of parts, octets and names, of at most 65,535 octets without
//! compression. It appends these parts under every compression rule of a target, and with
//! lowercased, uncompressed names in canonical form. Reading returns the value whose parts are
//! encoded in the octets, or the first error in them (RFC 1035 sections 3.3 and 4.1.3). The
//! canonical order is that of RFC 4034 section 6.3. A conversion keeps the value.
//!
//! The contracts of the traits require the same of RDATA types of your own. The module `laws` has
//! the theorems for their proofs.
#![tactic(auto)]

mod a;
mod canonical_order;
mod conversions;
mod error;
pub mod laws;
mod length;
mod name_data;
mod octets;
mod octets_order;
mod opt;
mod print;
pub mod record_data;
mod soa;
mod unknown;

pub use a::A;
pub use dns_edns::{
    BadOptData, ClientSubnet, ComposeOptData, Cookie, Expire, ExtendedError, KnownOptData,
    LongOptData, OptHeader, OptionIter, SubnetAddr, TcpKeepalive, UnknownOptData,
};
pub use error::LongRecordData;
pub use length::{compose_canonical_len_rdata, compose_len_rdata};
pub use name_data::{Cname, Ns};
pub use opt::Opt;
pub use record_data::{ComposeRecordData, ParseAnyRecordData, ParseRecordData, RecordData};
pub use soa::Soa;
pub use unknown::UnknownRecordData;
