ghost use Rattle.std.specs.Prelude.{◌≡◌, ◌≤◌, ◌<◌, ◌+◌, ◌^◌, length};
ghost use Rattle.dns_edit.specs.Rdata.{octets_before, name_count, names_start, string_end};

/// The number of octets before the names in RDATA of this type.
fn octets_before_names(rtype: u16) -> usize
    ensures value { result ≡ octets_before rtype }
    ensures bound { result ≤ 18 }
{
    match rtype {
        // MX, AFSDB, RT, PX, KX, SVCB, HTTPS and LP
        15 | 18 | 21 | 26 | 36 | 64 | 65 | 107 => 2,
        // SIG and RRSIG
        24 | 46 => 18,
        // SRV
        33 => 6,
        // DSYNC
        66 => 5,
        _ => 0,
    }
}

/// The number of consecutive names in RDATA of this type.
pub(crate) fn names_in(rtype: u16) -> u8
    ensures { result ≡ name_count rtype }
{
    match rtype {
        // NS, MD, MF, CNAME, MB, MG, MR, PTR, MX, AFSDB, RT, NSAP-PTR, SIG, NXT, SRV, NAPTR, KX and
        // DNAME
        2 | 3 | 4 | 5 | 7 | 8 | 9 | 12 | 15 | 18 | 21 | 23 | 24 | 30 | 33 | 35 | 36 | 39 => 1,
        // RRSIG, NSEC, SVCB, HTTPS, DSYNC, LP, TKEY and TSIG
        46 | 47 | 64 | 65 | 66 | 107 | 249 | 250 => 1,
        // SOA, MINFO, RP, PX and TALINK
        6 | 14 | 17 | 26 | 58 => 2,
        _ => 0,
    }
}

/// The end of the character string at offset `at`.
fn end_of_string(octets: &[u8], at: usize) -> usize
    requires { at + 256 < 2 ^ 64 }
    ensures end { result ≡ string_end octets.now at }
    ensures low { at ≤ result }
    ensures high { result ≤ at + 256 }
{
    match octets.get(at) {
        Some(len) => at + 1 + usize::from(*len),
        None => at + 1,
    }
}

/// Where the names begin in RDATA of this type that begins at `start`.
pub(crate) fn names_offset(octets: &[u8], rtype: u16, start: usize) -> usize
    requires { start ≤ length octets.now }
    ensures value { result ≡ names_start octets.now rtype start }
    ensures low { start ≤ result }
{
    // NAPTR
    if rtype == 35 {
        let flags = end_of_string(octets, start + 4);
        let services = end_of_string(octets, flags);
        return end_of_string(octets, services);
    }
    start + octets_before_names(rtype)
}
