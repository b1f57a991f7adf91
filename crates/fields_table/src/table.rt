//! The table of record types.
ghost use Rattle.std.specs.Prelude.{◌≡◌, true};
ghost use Rattle.fields_table.specs.Table.{are_above, definitions, definitions_of, fields_in, types_in};

use crate::kind::Kind::{self, *};
use crate::laws::table_is_specified;
use crate::range::TypeRange;

/// A record type of the table: its number, its mnemonic, and its fields in order.
pub type Row = (u16, &'static str, &'static [(&'static str, Kind)]);

/// The fields of a type that isn't in the table: its RDATA as octets.
pub const OPAQUE: &[(&str, Kind)] = &[("data", Opaque)];

/// The record types with the numbers 1 to 23.
pub(crate) const TYPES_FROM_1: &[Row] = &[
    // RFC 1035 section 3.4.1
    (1, "A", &[("address", Ipv4)]),
    // RFC 1035 section 3.3.11
    (2, "NS", &[("nsdname", CompressibleName)]),
    // RFC 1035 section 3.3.4
    (3, "MD", &[("madname", CompressibleName)]),
    // RFC 1035 section 3.3.5
    (4, "MF", &[("madname", CompressibleName)]),
    // RFC 1035 section 3.3.1
    (5, "CNAME", &[("cname", CompressibleName)]),
    // RFC 1035 section 3.3.13
    (
        6,
        "SOA",
        &[
            ("mname", CompressibleName),
            ("rname", CompressibleName),
            ("serial", Number32),
            ("refresh", Seconds),
            ("retry", Seconds),
            ("expire", Seconds),
            ("minimum", Seconds),
        ],
    ),
    // RFC 1035 section 3.3.3
    (7, "MB", &[("madname", CompressibleName)]),
    // RFC 1035 section 3.3.6
    (8, "MG", &[("mgmname", CompressibleName)]),
    // RFC 1035 section 3.3.8
    (9, "MR", &[("newname", CompressibleName)]),
    // RFC 1035 section 3.3.10
    (10, "NULL", &[("data", Opaque)]),
    // RFC 1035 section 3.3.12
    (12, "PTR", &[("ptrdname", CompressibleName)]),
    // RFC 1035 section 3.3.2
    (
        13,
        "HINFO",
        &[("cpu", CharacterString), ("os", CharacterString)],
    ),
    // RFC 1035 section 3.3.7
    (
        14,
        "MINFO",
        &[("rmailbx", CompressibleName), ("emailbx", CompressibleName)],
    ),
    // RFC 1035 section 3.3.9
    (
        15,
        "MX",
        &[("preference", Number16), ("exchange", CompressibleName)],
    ),
    // RFC 1035 section 3.3.14
    (16, "TXT", &[("txt-data", Strings)]),
    // RFC 1183 section 2.2
    (
        17,
        "RP",
        &[("mbox-dname", PointedName), ("txt-dname", PointedName)],
    ),
    // RFC 1183 section 1
    (
        18,
        "AFSDB",
        &[("subtype", Number16), ("hostname", PointedName)],
    ),
    // RFC 1183 section 3.1
    (19, "X25", &[("psdn-address", CharacterString)]),
    // RFC 1183 section 3.3
    (
        21,
        "RT",
        &[("preference", Number16), ("intermediate-host", PointedName)],
    ),
    // RFC 1348
    (23, "NSAP-PTR", &[("owner", PlainName)]),
];

/// The record types with the numbers 24 to 47.
pub(crate) const TYPES_FROM_24: &[Row] = &[
    // RFC 2535 section 4.1
    (
        24,
        "SIG",
        &[
            ("type-covered", RecordType),
            ("algorithm", Number8),
            ("labels", Number8),
            ("original-ttl", Seconds),
            ("expiration", Time),
            ("inception", Time),
            ("key-tag", Number16),
            ("signer", PointedName),
            ("signature", Base64),
        ],
    ),
    // RFC 2535 section 3.1
    (
        25,
        "KEY",
        &[
            ("flags", Number16),
            ("protocol", Number8),
            ("algorithm", Number8),
            ("public-key", Base64),
        ],
    ),
    // RFC 2163 section 4
    (
        26,
        "PX",
        &[
            ("preference", Number16),
            ("map822", PointedName),
            ("mapx400", PointedName),
        ],
    ),
    // RFC 1712 section 3
    (
        27,
        "GPOS",
        &[
            ("longitude", CharacterString),
            ("latitude", CharacterString),
            ("altitude", CharacterString),
        ],
    ),
    // RFC 3596 section 2.2
    (28, "AAAA", &[("address", Ipv6)]),
    // RFC 1876 section 2
    (29, "LOC", &[("location", Location)]),
    // RFC 2535 section 5.2
    (
        30,
        "NXT",
        &[("next", PointedName), ("types", SmallTypeBitMap)],
    ),
    // the Nimrod proposal that the IANA registry names
    (31, "EID", &[("identifier", Hexadecimal)]),
    // the Nimrod proposal that the IANA registry names
    (32, "NIMLOC", &[("locator", Hexadecimal)]),
    // RFC 2782
    (
        33,
        "SRV",
        &[
            ("priority", Number16),
            ("weight", Number16),
            ("port", Number16),
            ("target", PointedName),
        ],
    ),
    // RFC 3403 section 4.1
    (
        35,
        "NAPTR",
        &[
            ("order", Number16),
            ("preference", Number16),
            ("flags", CharacterString),
            ("services", CharacterString),
            ("regexp", CharacterString),
            ("replacement", PointedName),
        ],
    ),
    // RFC 2230 section 3.1
    (
        36,
        "KX",
        &[("preference", Number16), ("exchanger", LowercasedName)],
    ),
    // RFC 4398 section 2
    (
        37,
        "CERT",
        &[
            ("certificate-type", Number16),
            ("key-tag", Number16),
            ("algorithm", Number8),
            ("certificate", Base64),
        ],
    ),
    // RFC 6672 section 2.1
    (39, "DNAME", &[("target", LowercasedName)]),
    // RFC 3123 section 4
    (42, "APL", &[("prefixes", AddressPrefixes)]),
    // RFC 4034 section 5.1
    (
        43,
        "DS",
        &[
            ("key-tag", Number16),
            ("algorithm", Number8),
            ("digest-type", Number8),
            ("digest", Hexadecimal),
        ],
    ),
    // RFC 4255 section 3.1
    (
        44,
        "SSHFP",
        &[
            ("algorithm", Number8),
            ("fp-type", Number8),
            ("fingerprint", Hexadecimal),
        ],
    ),
    // RFC 4025 section 2.1
    (
        45,
        "IPSECKEY",
        &[("precedence", Number8), ("gateway-and-key", GatewayAndKey)],
    ),
    // RFC 4034 section 3.1
    (
        46,
        "RRSIG",
        &[
            ("type-covered", RecordType),
            ("algorithm", Number8),
            ("labels", Number8),
            ("original-ttl", Seconds),
            ("expiration", Time),
            ("inception", Time),
            ("key-tag", Number16),
            ("signer", LowercasedName),
            ("signature", Base64),
        ],
    ),
    // RFC 4034 section 4.1
    (47, "NSEC", &[("next", PlainName), ("types", TypeBitMap)]),
];

/// The record types with the numbers 48 to 98.
pub(crate) const TYPES_FROM_48: &[Row] = &[
    // RFC 4034 section 2.1
    (
        48,
        "DNSKEY",
        &[
            ("flags", Number16),
            ("protocol", Number8),
            ("algorithm", Number8),
            ("public-key", Base64),
        ],
    ),
    // RFC 4701 section 3.1
    (49, "DHCID", &[("identifier", Base64)]),
    // RFC 5155 section 3.2
    (
        50,
        "NSEC3",
        &[
            ("hash-algorithm", Number8),
            ("flags", Number8),
            ("iterations", Number16),
            ("salt", Salt),
            ("next-hashed-owner", Hash),
            ("types", TypeBitMap),
        ],
    ),
    // RFC 5155 section 4.2
    (
        51,
        "NSEC3PARAM",
        &[
            ("hash-algorithm", Number8),
            ("flags", Number8),
            ("iterations", Number16),
            ("salt", Salt),
        ],
    ),
    // RFC 6698 section 2.1
    (
        52,
        "TLSA",
        &[
            ("usage", Number8),
            ("selector", Number8),
            ("matching-type", Number8),
            ("data", Hexadecimal),
        ],
    ),
    // RFC 8162 section 2
    (
        53,
        "SMIMEA",
        &[
            ("usage", Number8),
            ("selector", Number8),
            ("matching-type", Number8),
            ("data", Hexadecimal),
        ],
    ),
    // RFC 8005 section 5
    (55, "HIP", &[("identity", HostIdentity)]),
    // the template of the IANA registry
    (56, "NINFO", &[("zs-data", Strings)]),
    // the template of the IANA registry
    (
        57,
        "RKEY",
        &[
            ("flags", Number16),
            ("protocol", Number8),
            ("algorithm", Number8),
            ("public-key", Base64),
        ],
    ),
    // the template of the IANA registry
    (
        58,
        "TALINK",
        &[("previous", PlainName), ("next", PlainName)],
    ),
    // RFC 7344 section 3.1
    (
        59,
        "CDS",
        &[
            ("key-tag", Number16),
            ("algorithm", Number8),
            ("digest-type", Number8),
            ("digest", Hexadecimal),
        ],
    ),
    // RFC 7344 section 3.2
    (
        60,
        "CDNSKEY",
        &[
            ("flags", Number16),
            ("protocol", Number8),
            ("algorithm", Number8),
            ("public-key", Base64),
        ],
    ),
    // RFC 7929 section 2.1
    (61, "OPENPGPKEY", &[("public-key", Base64)]),
    // RFC 7477 section 2.1
    (
        62,
        "CSYNC",
        &[
            ("serial", Number32),
            ("flags", Number16),
            ("types", TypeBitMap),
        ],
    ),
    // RFC 8976 section 2.2
    (
        63,
        "ZONEMD",
        &[
            ("serial", Number32),
            ("scheme", Number8),
            ("hash-algorithm", Number8),
            ("digest", Hexadecimal),
        ],
    ),
    // RFC 9460 section 2.2
    (
        64,
        "SVCB",
        &[
            ("priority", Number16),
            ("target", PlainName),
            ("parameters", ServiceParameters),
        ],
    ),
    // RFC 9460 section 9
    (
        65,
        "HTTPS",
        &[
            ("priority", Number16),
            ("target", PlainName),
            ("parameters", ServiceParameters),
        ],
    ),
    // RFC 9859 section 2.1
    (
        66,
        "DSYNC",
        &[
            ("rrtype", RecordType),
            ("scheme", SyncScheme),
            ("port", Number16),
            ("target", PlainName),
        ],
    ),
    // RFC 9886 section 5.1
    (67, "HHIT", &[("data", Base64)]),
    // RFC 9886 section 5.2
    (68, "BRID", &[("data", Base64)]),
];

/// The record types with the numbers 99 and greater.
pub(crate) const TYPES_FROM_99: &[Row] = &[
    // RFC 4408 section 3.1.1
    (99, "SPF", &[("txt-data", Strings)]),
    // RFC 6742 section 2.1
    (
        104,
        "NID",
        &[("preference", Number16), ("node-id", Locator64)],
    ),
    // RFC 6742 section 2.2
    (105, "L32", &[("preference", Number16), ("locator", Ipv4)]),
    // RFC 6742 section 2.3
    (
        106,
        "L64",
        &[("preference", Number16), ("locator", Locator64)],
    ),
    // RFC 6742 section 2.4
    (107, "LP", &[("preference", Number16), ("fqdn", PlainName)]),
    // RFC 7043 section 3.1
    (108, "EUI48", &[("address", Eui48)]),
    // RFC 7043 section 4.1
    (109, "EUI64", &[("address", Eui64)]),
    // RFC 2930 section 2
    (
        249,
        "TKEY",
        &[
            ("algorithm", PlainName),
            ("inception", Time),
            ("expiration", Time),
            ("mode", Number16),
            ("error", Number16),
            ("key", SizedOctets),
            ("other", SizedOctets),
        ],
    ),
    // RFC 8945 section 4.2
    (
        250,
        "TSIG",
        &[
            ("algorithm", PlainName),
            ("time-signed", Number48),
            ("fudge", Number16),
            ("mac", SizedOctets),
            ("original-id", Number16),
            ("error", Number16),
            ("other", SizedOctets),
        ],
    ),
    // RFC 7553 section 4.5
    (
        256,
        "URI",
        &[
            ("priority", Number16),
            ("weight", Number16),
            ("target", Text),
        ],
    ),
    // RFC 8659 section 4.1
    (
        257,
        "CAA",
        &[("flags", Number8), ("tag", Tag), ("value", Text)],
    ),
    // the template of the IANA registry
    (258, "AVC", &[("txt-data", Strings)]),
    // the draft that the IANA registry names
    (
        259,
        "DOA",
        &[
            ("enterprise", Number32),
            ("type", Number32),
            ("location", Number8),
            ("media-type", CharacterString),
            ("data", Base64OrHyphen),
        ],
    ),
    // RFC 8777 section 4.2
    (
        260,
        "AMTRELAY",
        &[("precedence", Number8), ("relay", Relay)],
    ),
    // RFC 9606 section 4
    (261, "RESINFO", &[("txt-data", Strings)]),
    // the template of the IANA registry
    (262, "WALLET", &[("txt-data", Strings)]),
    // the draft that the IANA registry names
    (263, "CLA", &[("cla-data", Strings)]),
    // the draft that the IANA registry names
    (264, "IPN", &[("node", Number64)]),
    // the template of the IANA registry
    (
        32768,
        "TA",
        &[
            ("key-tag", Number16),
            ("algorithm", Number8),
            ("digest-type", Number8),
            ("digest", Hexadecimal),
        ],
    ),
    // RFC 4431 section 2
    (
        32769,
        "DLV",
        &[
            ("key-tag", Number16),
            ("algorithm", Number8),
            ("digest-type", Number8),
            ("digest", Hexadecimal),
        ],
    ),
];

/// The fields of this record type, in order.
pub fn fields_of(rtype: u16) -> &'static [(&'static str, Kind)]
    ensures { definitions result.now ≡ definitions_of rtype }
{
    table_is_specified();
    fields_in(TypeRange::of(rtype).rows(), rtype)
}

/// The fields of this record type by these rows of the table: a binary search.
fn fields_in(rows: &'static [Row], rtype: u16) -> &'static [(&'static str, Kind)]
    requires { are_above 0 rows.now ≡ true }
    ensures { definitions result.now ≡ fields_in (types_in rows.now) rtype }
{
    let mut left = rows;
    'rows: while !left.is_empty() {
        let middle = left.len() / 2;
        let row = &left[middle];
        if row.0 == rtype {
            return row.2;
        }
        if rtype < row.0 {
            left = &left[..middle];
        } else {
            left = &left[middle + 1..];
        }
    }
    OPAQUE
}
