//! What holds before a line.

use dns_code::Ttl;
use dns_iana::Class;
use dns_name::ParsedName;

/// What the lines before a line say (RFC 1035 section 5.1, RFC 2308 section 4).
#[derive(Clone, Copy, Debug)]
pub struct Defaults<'a> {
    /// The origin, which is appended to names without a final dot.
    pub origin: Option<ParsedName<'a>>,
    /// The owner of the last record.
    pub owner: Option<ParsedName<'a>>,
    /// The TTL of records that have none: that of `$TTL`, or that of the last record.
    pub ttl: Option<Ttl>,
    /// The class of records that have none.
    pub class: Class,
}
