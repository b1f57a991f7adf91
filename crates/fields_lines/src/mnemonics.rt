//! Names of numbers in RDATA.
ghost use Rattle.std.specs.Prelude.{◌≡◌};
ghost use Rattle.dns_iana.specs.Tables.{table};
ghost use Rattle.fields_lines.specs.Mnemonics.{flags_of, key_flags, named};

/// A number and its name.
type Entry = (u32, &'static str);

/// Algorithms (RFC 4034 appendix A.1, and the registry of DNSSEC algorithms), also by the names that
/// BIND and dnspython read.
pub(crate) const ALGORITHMS: [Entry; 27] = [
    (0, "DELETE"),
    (1, "RSAMD5"),
    (2, "DH"),
    (3, "DSA"),
    (4, "ECC"),
    (5, "RSASHA1"),
    (6, "DSA-NSEC3-SHA1"),
    (6, "DSANSEC3SHA1"),
    (6, "NSEC3DSA"),
    (7, "RSASHA1-NSEC3-SHA1"),
    (7, "RSASHA1NSEC3SHA1"),
    (7, "NSEC3RSASHA1"),
    (8, "RSASHA256"),
    (10, "RSASHA512"),
    (12, "ECC-GOST"),
    (12, "ECCGOST"),
    (13, "ECDSAP256SHA256"),
    (13, "ECDSA256"),
    (14, "ECDSAP384SHA384"),
    (14, "ECDSA384"),
    (15, "ED25519"),
    (16, "ED448"),
    (17, "SM2SM3"),
    (23, "ECC-GOST12"),
    (252, "INDIRECT"),
    (253, "PRIVATEDNS"),
    (254, "PRIVATEOID"),
];

/// Types of certificates (RFC 4398 section 2.1).
pub(crate) const CERTIFICATE_TYPES: [Entry; 10] = [
    (1, "PKIX"),
    (2, "SPKI"),
    (3, "PGP"),
    (4, "IPKIX"),
    (5, "ISPKI"),
    (6, "IPGP"),
    (7, "ACPKIX"),
    (8, "IACPKIX"),
    (253, "URI"),
    (254, "OID"),
];

/// Errors of TSIG and TKEY records (RFC 8945 section 3, RFC 2930 section 2.6, RFC 1035 section 4.1.1,
/// RFC 2136 section 2.2, RFC 7873 section 8).
pub(crate) const ERRORS: [Entry; 19] = [
    (0, "NOERROR"),
    (1, "FORMERR"),
    (2, "SERVFAIL"),
    (3, "NXDOMAIN"),
    (4, "NOTIMP"),
    (5, "REFUSED"),
    (6, "YXDOMAIN"),
    (7, "YXRRSET"),
    (8, "NXRRSET"),
    (9, "NOTAUTH"),
    (10, "NOTZONE"),
    (16, "BADSIG"),
    (17, "BADKEY"),
    (18, "BADTIME"),
    (19, "BADMODE"),
    (20, "BADNAME"),
    (21, "BADALG"),
    (22, "BADTRUNC"),
    (23, "BADCOOKIE"),
];

/// Flags of KEY, DNSKEY and CDNSKEY records (RFC 2535 section 7.1), and the name that BIND reads for
/// the flag SEP (RFC 4034 section 2.1.1).
pub(crate) const KEY_FLAGS: [Entry; 32] = [
    (0x4000, "NOCONF"),
    (0x8000, "NOAUTH"),
    (0xc000, "NOKEY"),
    (0x2000, "FLAG2"),
    (0x1000, "EXTEND"),
    (0x0800, "FLAG4"),
    (0x0400, "FLAG5"),
    (0x0000, "USER"),
    (0x0100, "ZONE"),
    (0x0200, "HOST"),
    (0x0300, "NTYP3"),
    (0x0080, "FLAG8"),
    (0x0040, "FLAG9"),
    (0x0020, "FLAG10"),
    (0x0010, "FLAG11"),
    (0, "SIG0"),
    (1, "SIG1"),
    (2, "SIG2"),
    (3, "SIG3"),
    (4, "SIG4"),
    (5, "SIG5"),
    (6, "SIG6"),
    (7, "SIG7"),
    (8, "SIG8"),
    (9, "SIG9"),
    (10, "SIG10"),
    (11, "SIG11"),
    (12, "SIG12"),
    (13, "SIG13"),
    (14, "SIG14"),
    (15, "SIG15"),
    (1, "KSK"),
];

/// The number of the first entry that has this name, ignoring ASCII case.
pub(crate) fn number_of(entries: &[Entry], name: &str) -> Option<u32>
    ensures { result ≡ named (table entries.now) name.now }
{
    for (number, known) in entries {
        if known.eq_ignore_ascii_case(name) {
            return Some(*number);
        }
    }
    None
}

/// The flag of keys that has this name.
#[tactic(auto, unfolding(crate::specs::Mnemonics::key_flags))]
fn flag_of(name: &str) -> Option<u32>
    ensures { result ≡ named key_flags name.now }
{
    number_of(&KEY_FLAGS, name)
}

/// The flags of a key by their names, with `|` between them.
pub(crate) fn flags_of(text: &str) -> Option<u32>
    ensures { result ≡ flags_of text.now }
{
    let mut flags = 0;
    let mut left = text;
    'flags: while let Some((name, others)) = left.split_once('|') {
        let Some(flag) = flag_of(name) else {
            return None;
        };
        flags |= flag;
        left = others;
    }
    let Some(flag) = flag_of(left) else {
        return None;
    };
    Some(flags | flag)
}
