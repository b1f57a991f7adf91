//! The kinds of fields.

/// The kind of a field: how it is encoded, and how it is printed.
#[derive(Clone, Copy, Debug, PartialEq, Eq)]
pub enum Kind {
    /// A number of 8 bits.
    Number8,
    /// A number of 16 bits.
    Number16,
    /// A number of 32 bits.
    Number32,
    /// A number of 48 bits (RFC 8945 section 4.2).
    Number48,
    /// A number of 64 bits.
    Number64,
    /// A scheme of notifications, of 8 bits: NOTIFY for 1, else a number (RFC 9859 section 2.2).
    SyncScheme,
    /// A number of seconds, of 32 bits.
    Seconds,
    /// A time: seconds since 1970 of 32 bits, printed as date and time (RFC 4034 section 3.2).
    Time,
    /// An IPv4 address.
    Ipv4,
    /// An IPv6 address, printed as RFC 5952 recommends.
    Ipv6,
    /// A 48-bit address, printed as hexadecimal pairs (RFC 7043 section 3.2).
    Eui48,
    /// A 64-bit address, printed as hexadecimal pairs (RFC 7043 section 4.2).
    Eui64,
    /// A locator of 64 bits, printed as four hexadecimal numbers (RFC 6742 section 2.1.2).
    Locator64,
    /// A record type, printed as its mnemonic or as `TYPE` and its number (RFC 3597 section 5).
    RecordType,
    /// A name that may be compressed (RFC 1035 section 3.3).
    CompressibleName,
    /// A name that is never compressed, but may have a pointer when it is read (RFC 3597 section 4).
    /// Its canonical form is lowercased (RFC 4034 section 6.2).
    PointedName,
    /// A name that is never compressed. Its canonical form is lowercased (RFC 4034 section 6.2).
    LowercasedName,
    /// A name that is never compressed. Its canonical form keeps the letter case (RFC 3597 section 7;
    /// of NSEC RFC 6840 section 5.1).
    PlainName,
    /// A character string, printed in quotes (RFC 1035 sections 3.3 and 5.1).
    CharacterString,
    /// A character string, printed without quotes (RFC 8659 section 4.1.1). That it has letters and
    /// digits alone isn't tested.
    Tag,
    /// A length octet and that number of octets, printed in hexadecimal, or as `-` if there are none
    /// (RFC 5155 section 3.3).
    Salt,
    /// A length octet and that number of octets, printed in base32 (RFC 5155 section 3.3).
    Hash,
    /// A length of 16 bits and that number of octets, printed as the length and in base64 (RFC 8945
    /// section 4.2).
    SizedOctets,
    /// Character strings up to the end, one at least (RFC 1035 section 3.3.14).
    Strings,
    /// Text up to the end, printed in quotes (RFC 7553 section 4.4, RFC 8659 section 4.1.1).
    Text,
    /// Octets up to the end, printed in hexadecimal.
    Hexadecimal,
    /// Octets up to the end, printed in base64.
    Base64,
    /// Octets up to the end, printed in base64, or as `-` if there are none.
    Base64OrHyphen,
    /// The record types at a name, in blocks up to the end (RFC 4034 section 4.1.2).
    TypeBitMap,
    /// The record types at a name, a bit for each from 0 on, up to the end (RFC 2535 section 5.2).
    SmallTypeBitMap,
    /// Service parameters up to the end, by increasing keys (RFC 9460 section 2.2).
    ServiceParameters,
    /// Address prefixes up to the end (RFC 3123 section 4).
    AddressPrefixes,
    /// A location: version, size, precisions, latitude, longitude and altitude (RFC 1876 section 2).
    Location,
    /// A gateway type, an algorithm, a gateway of that type and a public key (RFC 4025 section 2.1).
    /// The gateway is nothing, an address, or a name that is never compressed and keeps its letter
    /// case.
    GatewayAndKey,
    /// A bit, a relay type of seven bits, and a relay of that type (RFC 8777 section 4.2). The relay
    /// is what a gateway is.
    Relay,
    /// A host identity tag, a public key and rendezvous servers, after their lengths (RFC 8005
    /// section 5). The servers are names that are never compressed and keep their letter case.
    HostIdentity,
    /// Octets up to the end without a presentation format. RDATA with such a field is printed as
    /// unknown RDATA (RFC 3597 section 5).
    Opaque,
}
