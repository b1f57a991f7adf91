//! Theorems on numbers, on their names and texts, and on how they compare. Each contract is a
//! theorem.
ghost use Rattle.std.specs.Prelude.{◌≡◌, ◌↔◌, ◌∷◌, [], ◌++◌, IsTrue, Some, codes};
ghost use Rattle.std.specs.Hash as fed;
ghost use Rattle.std.specs.List.{range_with_len};
ghost use Rattle.std.specs.Ordering.{nat_cmp};
ghost use Rattle.dns_iana.specs.Laws.{TypesReadBack, ClassesReadBack};
ghost use Rattle.dns_iana.specs.Mnemonics.{type_mnemonics, class_mnemonics};
ghost use Rattle.dns_iana.specs.RegisteredTexts.{TextsReadBack};
ghost use Rattle.dns_iana.specs.Registry.{numbers, type_numbers, registered_types, registered_classes, registered_opcodes, registered_rcodes, registered_opt_rcodes, registered_options, registered_extended_errors};
ghost use Rattle.dns_iana.specs.Tables.{table, is_distinct};

use crate::class::{Class, FromStrError as ClassError};
use crate::extended_error::ExtendedErrorCode;
use crate::opcode::Opcode;
use crate::option_code::OptionCode;
use crate::rcode::{OptRcode, Rcode};
use crate::rtype::{FromStrError as TypeError, Rtype};
use std::hash::Hash;

/// The printed text of each record type and each class, named or not, reads back as that number.
pub fn printed_numbers_read_back()
    ensures types { TypesReadBack }
    ensures classes { ClassesReadBack }
{}

/// The registered name of each number, or a word and the number where it has none, reads back as that
/// number: of types and classes `TYPE` and `CLASS` (RFC 3597 section 5).
pub fn registered_texts_read_back()
    ensures types { TextsReadBack registered_types (codes "TYPE") }
    ensures classes { TextsReadBack registered_classes (codes "CLASS") }
    ensures opcodes { TextsReadBack registered_opcodes (codes "OPCODE") }
    ensures rcodes { TextsReadBack registered_rcodes (codes "RCODE") }
    ensures opt_rcodes { TextsReadBack registered_opt_rcodes (codes "RCODE") }
    ensures options { TextsReadBack registered_options (codes "OPTION") }
    ensures extended_errors { TextsReadBack registered_extended_errors (codes "EDE") }
{}

/// The numbers of `QUERY` and `NOTIFY`, then of `NOERROR`, `SERVFAIL`, `NXDOMAIN` and `REFUSED`
/// (RFC 1035 section 4.1.1, RFC 1996 section 3).
pub fn code_numbers() -> ([u8; 2], [u8; 4])
    ensures opcodes { result.0 ≡ 0 ∷ 4 ∷ [] }
    ensures rcodes { result.1 ≡ 0 ∷ 2 ∷ 3 ∷ 5 ∷ [] }
{
    let opcodes = [Opcode::QUERY.to_int(), Opcode::NOTIFY.to_int()];
    let rcodes = [
        Rcode::NOERROR.to_int(),
        Rcode::SERVFAIL.to_int(),
        Rcode::NXDOMAIN.to_int(),
        Rcode::REFUSED.to_int(),
    ];
    (opcodes, rcodes)
}

/// The named record types, each with its mnemonic. Their numbers are those of the table of
/// mnemonics (RFC 1035 section 3.2.2).
#[tactic(auto, unfolding(crate::specs::Mnemonics::type_mnemonics))]
pub fn named_types() -> [(Rtype, &'static str); 12]
    ensures { table result ≡ type_mnemonics }
{
    [
        (Rtype::A, "A"),
        (Rtype::NS, "NS"),
        (Rtype::CNAME, "CNAME"),
        (Rtype::SOA, "SOA"),
        (Rtype::PTR, "PTR"),
        (Rtype::MX, "MX"),
        (Rtype::TXT, "TXT"),
        (Rtype::AAAA, "AAAA"),
        (Rtype::OPT, "OPT"),
        (Rtype::IXFR, "IXFR"),
        (Rtype::AXFR, "AXFR"),
        (Rtype::ANY, "ANY"),
    ]
}

/// The named classes, each with its mnemonic (RFC 1035 section 3.2.4).
#[tactic(auto, unfolding(crate::specs::Mnemonics::class_mnemonics))]
pub fn named_classes() -> [(Class, &'static str); 3]
    ensures { table result ≡ class_mnemonics }
{
    [(Class::IN, "IN"), (Class::CH, "CH"), (Class::HS, "HS")]
}

/// The constants of record types, in the order of IANA's list: each has the number that IANA has
/// registered for its name.
pub fn type_constants() -> [Rtype; 97]
    ensures { result ≡ numbers registered_types }
{
    [
        Rtype::A,
        Rtype::NS,
        Rtype::MD,
        Rtype::MF,
        Rtype::CNAME,
        Rtype::SOA,
        Rtype::MB,
        Rtype::MG,
        Rtype::MR,
        Rtype::NULL,
        Rtype::WKS,
        Rtype::PTR,
        Rtype::HINFO,
        Rtype::MINFO,
        Rtype::MX,
        Rtype::TXT,
        Rtype::RP,
        Rtype::AFSDB,
        Rtype::X25,
        Rtype::ISDN,
        Rtype::RT,
        Rtype::NSAP,
        Rtype::NSAPPTR,
        Rtype::SIG,
        Rtype::KEY,
        Rtype::PX,
        Rtype::GPOS,
        Rtype::AAAA,
        Rtype::LOC,
        Rtype::NXT,
        Rtype::EID,
        Rtype::NIMLOC,
        Rtype::SRV,
        Rtype::ATMA,
        Rtype::NAPTR,
        Rtype::KX,
        Rtype::CERT,
        Rtype::A6,
        Rtype::DNAME,
        Rtype::SINK,
        Rtype::OPT,
        Rtype::APL,
        Rtype::DS,
        Rtype::SSHFP,
        Rtype::IPSECKEY,
        Rtype::RRSIG,
        Rtype::NSEC,
        Rtype::DNSKEY,
        Rtype::DHCID,
        Rtype::NSEC3,
        Rtype::NSEC3PARAM,
        Rtype::TLSA,
        Rtype::SMIMEA,
        Rtype::HIP,
        Rtype::NINFO,
        Rtype::RKEY,
        Rtype::TALINK,
        Rtype::CDS,
        Rtype::CDNSKEY,
        Rtype::OPENPGPKEY,
        Rtype::CSYNC,
        Rtype::ZONEMD,
        Rtype::SVCB,
        Rtype::HTTPS,
        Rtype::DSYNC,
        Rtype::HHIT,
        Rtype::BRID,
        Rtype::SPF,
        Rtype::UINFO,
        Rtype::UID,
        Rtype::GID,
        Rtype::UNSPEC,
        Rtype::NID,
        Rtype::L32,
        Rtype::L64,
        Rtype::LP,
        Rtype::EUI48,
        Rtype::EUI64,
        Rtype::NXNAME,
        Rtype::TKEY,
        Rtype::TSIG,
        Rtype::IXFR,
        Rtype::AXFR,
        Rtype::MAILB,
        Rtype::MAILA,
        Rtype::ANY,
        Rtype::URI,
        Rtype::CAA,
        Rtype::AVC,
        Rtype::DOA,
        Rtype::AMTRELAY,
        Rtype::RESINFO,
        Rtype::WALLET,
        Rtype::CLA,
        Rtype::IPN,
        Rtype::TA,
        Rtype::DLV,
    ]
}

/// The constants of classes, each with the name that IANA has registered for its number.
#[tactic(auto, unfolding(crate::specs::Registry::registered_classes))]
pub fn class_constants() -> [(Class, &'static str); 5]
    ensures { table result ≡ registered_classes }
{
    [
        (Class::IN, "IN"),
        (Class::CH, "CH"),
        (Class::HS, "HS"),
        (Class::NONE, "NONE"),
        (Class::ANY, "ANY"),
    ]
}

/// The constants of opcodes, each with the name that IANA has registered for its number.
#[tactic(auto, unfolding(crate::specs::Registry::registered_opcodes))]
pub fn opcode_constants() -> [(Opcode, &'static str); 6]
    ensures { table result ≡ registered_opcodes }
{
    [
        (Opcode::QUERY, "Query"),
        (Opcode::IQUERY, "IQuery"),
        (Opcode::STATUS, "Status"),
        (Opcode::NOTIFY, "Notify"),
        (Opcode::UPDATE, "Update"),
        (Opcode::DSO, "DSO"),
    ]
}

/// The constants of rcodes, each with the name that IANA has registered for its number.
#[tactic(auto, unfolding(crate::specs::Registry::registered_rcodes))]
pub fn rcode_constants() -> [(Rcode, &'static str); 12]
    ensures { table result ≡ registered_rcodes }
{
    [
        (Rcode::NOERROR, "NoError"),
        (Rcode::FORMERR, "FormErr"),
        (Rcode::SERVFAIL, "ServFail"),
        (Rcode::NXDOMAIN, "NXDomain"),
        (Rcode::NOTIMP, "NotImp"),
        (Rcode::REFUSED, "Refused"),
        (Rcode::YXDOMAIN, "YXDomain"),
        (Rcode::YXRRSET, "YXRRSet"),
        (Rcode::NXRRSET, "NXRRSet"),
        (Rcode::NOTAUTH, "NotAuth"),
        (Rcode::NOTZONE, "NotZone"),
        (Rcode::DSOTYPENI, "DSOTYPENI"),
    ]
}

/// The constants of extended rcodes, each with the name that IANA has registered for its number.
#[tactic(auto, unfolding(crate::specs::Registry::registered_opt_rcodes))]
pub fn opt_rcode_constants() -> [(OptRcode, &'static str); 20]
    ensures { table result ≡ registered_opt_rcodes }
{
    [
        (OptRcode::NOERROR, "NoError"),
        (OptRcode::FORMERR, "FormErr"),
        (OptRcode::SERVFAIL, "ServFail"),
        (OptRcode::NXDOMAIN, "NXDomain"),
        (OptRcode::NOTIMP, "NotImp"),
        (OptRcode::REFUSED, "Refused"),
        (OptRcode::YXDOMAIN, "YXDomain"),
        (OptRcode::YXRRSET, "YXRRSet"),
        (OptRcode::NXRRSET, "NXRRSet"),
        (OptRcode::NOTAUTH, "NotAuth"),
        (OptRcode::NOTZONE, "NotZone"),
        (OptRcode::DSOTYPENI, "DSOTYPENI"),
        (OptRcode::BADVERS, "BADVERS"),
        (OptRcode::BADKEY, "BADKEY"),
        (OptRcode::BADTIME, "BADTIME"),
        (OptRcode::BADMODE, "BADMODE"),
        (OptRcode::BADNAME, "BADNAME"),
        (OptRcode::BADALG, "BADALG"),
        (OptRcode::BADTRUNC, "BADTRUNC"),
        (OptRcode::BADCOOKIE, "BADCOOKIE"),
    ]
}

/// The constants of option codes, each with the name that IANA has registered for its number.
#[tactic(auto, unfolding(crate::specs::Registry::registered_options))]
pub fn option_constants() -> [(OptionCode, &'static str); 20]
    ensures { table result ≡ registered_options }
{
    [
        (OptionCode::LLQ, "LLQ"),
        (OptionCode::UL, "Update Lease"),
        (OptionCode::NSID, "NSID"),
        (OptionCode::DAU, "DAU"),
        (OptionCode::DHU, "DHU"),
        (OptionCode::N3U, "N3U"),
        (OptionCode::CLIENT_SUBNET, "edns-client-subnet"),
        (OptionCode::EXPIRE, "EDNS EXPIRE"),
        (OptionCode::COOKIE, "COOKIE"),
        (OptionCode::TCP_KEEPALIVE, "edns-tcp-keepalive"),
        (OptionCode::PADDING, "Padding"),
        (OptionCode::CHAIN, "CHAIN"),
        (OptionCode::KEY_TAG, "edns-key-tag"),
        (OptionCode::EXTENDED_ERROR, "Extended DNS Error"),
        (OptionCode::CLIENT_TAG, "EDNS-Client-Tag"),
        (OptionCode::SERVER_TAG, "EDNS-Server-Tag"),
        (OptionCode::REPORT_CHANNEL, "Report-Channel"),
        (OptionCode::ZONEVERSION, "ZONEVERSION"),
        (OptionCode::UMBRELLA_IDENT, "Umbrella Ident"),
        (OptionCode::DEVICE_ID, "DeviceID"),
    ]
}

/// The constants of codes of extended errors, each with the name that IANA has registered for its
/// number.
#[tactic(auto, unfolding(crate::specs::Registry::registered_extended_errors))]
pub fn extended_error_constants() -> [(ExtendedErrorCode, &'static str); 31]
    ensures { table result ≡ registered_extended_errors }
{
    [
        (ExtendedErrorCode::OTHER, "Other Error"),
        (
            ExtendedErrorCode::UNSUPPORTED_DNSKEY_ALGORITHM,
            "Unsupported DNSKEY Algorithm",
        ),
        (
            ExtendedErrorCode::UNSUPPORTED_DS_DIGEST_TYPE,
            "Unsupported DS Digest Type",
        ),
        (ExtendedErrorCode::STALE_ANSWER, "Stale Answer"),
        (ExtendedErrorCode::FORGED_ANSWER, "Forged Answer"),
        (
            ExtendedErrorCode::DNSSEC_INDETERMINATE,
            "DNSSEC Indeterminate",
        ),
        (ExtendedErrorCode::DNSSEC_BOGUS, "DNSSEC Bogus"),
        (ExtendedErrorCode::SIGNATURE_EXPIRED, "Signature Expired"),
        (
            ExtendedErrorCode::SIGNATURE_NOT_YET_VALID,
            "Signature Not Yet Valid",
        ),
        (ExtendedErrorCode::DNSKEY_MISSING, "DNSKEY Missing"),
        (ExtendedErrorCode::RRSIGS_MISSING, "RRSIGs Missing"),
        (
            ExtendedErrorCode::NO_ZONE_KEY_BIT_SET,
            "No Zone Key Bit Set",
        ),
        (ExtendedErrorCode::NSEC_MISSING, "NSEC Missing"),
        (ExtendedErrorCode::CACHED_ERROR, "Cached Error"),
        (ExtendedErrorCode::NOT_READY, "Not Ready"),
        (ExtendedErrorCode::BLOCKED, "Blocked"),
        (ExtendedErrorCode::CENSORED, "Censored"),
        (ExtendedErrorCode::FILTERED, "Filtered"),
        (ExtendedErrorCode::PROHIBITED, "Prohibited"),
        (
            ExtendedErrorCode::STALE_NXDOMAIN_ANSWER,
            "Stale NXDomain Answer",
        ),
        (ExtendedErrorCode::NOT_AUTHORITATIVE, "Not Authoritative"),
        (ExtendedErrorCode::NOT_SUPPORTED, "Not Supported"),
        (
            ExtendedErrorCode::NO_REACHABLE_AUTHORITY,
            "No Reachable Authority",
        ),
        (ExtendedErrorCode::NETWORK_ERROR, "Network Error"),
        (ExtendedErrorCode::INVALID_DATA, "Invalid Data"),
        (
            ExtendedErrorCode::SIGNATURE_EXPIRED_BEFORE_VALID,
            "Signature Expired before Valid",
        ),
        (ExtendedErrorCode::TOO_EARLY, "Too Early"),
        (
            ExtendedErrorCode::UNSUPPORTED_NSEC3_ITERATIONS_VALUE,
            "Unsupported NSEC3 Iterations Value",
        ),
        (
            ExtendedErrorCode::UNABLE_TO_CONFORM_TO_POLICY,
            "Unable to conform to policy",
        ),
        (ExtendedErrorCode::SYNTHESIZED, "Synthesized"),
        (ExtendedErrorCode::INVALID_QUERY_TYPE, "Invalid Query Type"),
    ]
}

/// The numbers of the registered types, classes, opcodes, rcodes, options and extended errors, in
/// the order of their tables. As they rise, each occurs once.
#[tactic(auto, unfolding(crate::specs::Registry::registered_types, crate::specs::Registry::registered_classes, crate::specs::Registry::registered_opcodes, crate::specs::Registry::registered_rcodes, crate::specs::Registry::registered_opt_rcodes, crate::specs::Registry::registered_options, crate::specs::Registry::registered_extended_errors))]
pub fn registered_numbers()
    ensures types { numbers registered_types ≡ type_numbers }
    ensures classes { numbers registered_classes ≡ 1 ∷ 3 ∷ 4 ∷ 254 ∷ 255 ∷ [] }
    ensures opcodes { numbers registered_opcodes ≡ 0 ∷ 1 ∷ 2 ∷ 4 ∷ 5 ∷ 6 ∷ [] }
    ensures rcodes { numbers registered_rcodes ≡ range_with_len 0 12 }
    ensures opt_rcodes { numbers registered_opt_rcodes ≡
        range_with_len 0 12 ++ range_with_len 16 8 }
    ensures options { numbers registered_options ≡
        (1 ∷ 2 ∷ 3 ∷ []) ++ range_with_len 5 15 ++ (20292 ∷ 26946 ∷ []) }
    ensures extended_errors { numbers registered_extended_errors ≡ range_with_len 0 31 }
{}

/// No two registered names of a table are equal, ignoring ASCII case.
#[tactic(auto, unfolding(crate::specs::Registry::registered_types, crate::specs::Registry::registered_classes, crate::specs::Registry::registered_opcodes, crate::specs::Registry::registered_rcodes, crate::specs::Registry::registered_opt_rcodes, crate::specs::Registry::registered_options, crate::specs::Registry::registered_extended_errors))]
pub fn registered_names_differ()
    ensures types { IsTrue (is_distinct registered_types) }
    ensures classes { IsTrue (is_distinct registered_classes) }
    ensures opcodes { IsTrue (is_distinct registered_opcodes) }
    ensures rcodes { IsTrue (is_distinct registered_rcodes) }
    ensures opt_rcodes { IsTrue (is_distinct registered_opt_rcodes) }
    ensures options { IsTrue (is_distinct registered_options) }
    ensures extended_errors { IsTrue (is_distinct registered_extended_errors) }
{}

/// Two types, classes or codes are equal if and only if their numbers are. Two errors of reading a
/// type are equal, and so are two of reading a class.
pub fn number_equality()
    ensures types { (a b : _) → IsTrue (⟦<Rtype as PartialEq>⟧.eq a b) ↔ (a ≡ b) }
    ensures classes { (a b : _) → IsTrue (⟦<Class as PartialEq>⟧.eq a b) ↔ (a ≡ b) }
    ensures opcodes { (a b : _) → IsTrue (⟦<Opcode as PartialEq>⟧.eq a b) ↔ (a ≡ b) }
    ensures rcodes { (a b : _) → IsTrue (⟦<Rcode as PartialEq>⟧.eq a b) ↔ (a ≡ b) }
    ensures opt_rcodes { (a b : _) → IsTrue (⟦<OptRcode as PartialEq>⟧.eq a b) ↔ (a ≡ b) }
    ensures options { (a b : _) → IsTrue (⟦<OptionCode as PartialEq>⟧.eq a b) ↔ (a ≡ b) }
    ensures extended_errors { (a b : _) →
        IsTrue (⟦<ExtendedErrorCode as PartialEq>⟧.eq a b) ↔ (a ≡ b) }
    ensures type_errors { (a b : _) → IsTrue (⟦<TypeError as PartialEq>⟧.eq a b) ↔ (a ≡ b) }
    ensures class_errors { (a b : _) → IsTrue (⟦<ClassError as PartialEq>⟧.eq a b) ↔ (a ≡ b) }
{}

/// Types, classes and codes are ordered by their numbers.
pub fn number_orders()
    ensures types { ⟦<Rtype as Ord>⟧.cmp ≡ nat_cmp }
    ensures classes { ⟦<Class as Ord>⟧.cmp ≡ nat_cmp }
    ensures opcodes { ⟦<Opcode as Ord>⟧.cmp ≡ nat_cmp }
    ensures rcodes { ⟦<Rcode as Ord>⟧.cmp ≡ nat_cmp }
    ensures opt_rcodes { ⟦<OptRcode as Ord>⟧.cmp ≡ nat_cmp }
    ensures options { ⟦<OptionCode as Ord>⟧.cmp ≡ nat_cmp }
    ensures extended_errors { ⟦<ExtendedErrorCode as Ord>⟧.cmp ≡ nat_cmp }
{}

/// `<` and its kin follow the same order.
pub fn number_partial_orders()
    ensures types { (a b : _) → ⟦<Rtype as PartialOrd>⟧.partial_cmp a b ≡ Some (nat_cmp a b) }
    ensures classes { (a b : _) → ⟦<Class as PartialOrd>⟧.partial_cmp a b ≡ Some (nat_cmp a b) }
    ensures opcodes { (a b : _) → ⟦<Opcode as PartialOrd>⟧.partial_cmp a b ≡ Some (nat_cmp a b) }
    ensures rcodes { (a b : _) → ⟦<Rcode as PartialOrd>⟧.partial_cmp a b ≡ Some (nat_cmp a b) }
    ensures opt_rcodes { (a b : _) →
        ⟦<OptRcode as PartialOrd>⟧.partial_cmp a b ≡ Some (nat_cmp a b) }
    ensures options { (a b : _) →
        ⟦<OptionCode as PartialOrd>⟧.partial_cmp a b ≡ Some (nat_cmp a b) }
    ensures extended_errors { (a b : _) →
        ⟦<ExtendedErrorCode as PartialOrd>⟧.partial_cmp a b ≡ Some (nat_cmp a b) }
{}

/// Hashing feeds the hasher the number, and nothing else.
pub fn number_hashes()
    ensures types { ⟦<Rtype as Hash>⟧.hash_input ≡ fed.u16 }
    ensures classes { ⟦<Class as Hash>⟧.hash_input ≡ fed.u16 }
    ensures opcodes { ⟦<Opcode as Hash>⟧.hash_input ≡ fed.u8 }
    ensures rcodes { ⟦<Rcode as Hash>⟧.hash_input ≡ fed.u8 }
    ensures opt_rcodes { ⟦<OptRcode as Hash>⟧.hash_input ≡ fed.u16 }
    ensures options { ⟦<OptionCode as Hash>⟧.hash_input ≡ fed.u16 }
    ensures extended_errors { ⟦<ExtendedErrorCode as Hash>⟧.hash_input ≡ fed.u16 }
{}

/// A clone has the same number, or is the same error.
pub fn number_clones()
    ensures types { (a b : _) → ⟦<Rtype as Clone>⟧.is_clone a b → b ≡ a }
    ensures classes { (a b : _) → ⟦<Class as Clone>⟧.is_clone a b → b ≡ a }
    ensures opcodes { (a b : _) → ⟦<Opcode as Clone>⟧.is_clone a b → b ≡ a }
    ensures rcodes { (a b : _) → ⟦<Rcode as Clone>⟧.is_clone a b → b ≡ a }
    ensures opt_rcodes { (a b : _) → ⟦<OptRcode as Clone>⟧.is_clone a b → b ≡ a }
    ensures options { (a b : _) → ⟦<OptionCode as Clone>⟧.is_clone a b → b ≡ a }
    ensures extended_errors { (a b : _) → ⟦<ExtendedErrorCode as Clone>⟧.is_clone a b → b ≡ a }
    ensures type_errors { (a b : _) → ⟦<TypeError as Clone>⟧.is_clone a b → b ≡ a }
    ensures class_errors { (a b : _) → ⟦<ClassError as Clone>⟧.is_clone a b → b ≡ a }
{}

/// A clone never fails.
pub fn number_clones_never_fail()
    ensures types { (a : _) → ⟦<Rtype as Clone>⟧.is_infallible a }
    ensures classes { (a : _) → ⟦<Class as Clone>⟧.is_infallible a }
    ensures opcodes { (a : _) → ⟦<Opcode as Clone>⟧.is_infallible a }
    ensures rcodes { (a : _) → ⟦<Rcode as Clone>⟧.is_infallible a }
    ensures opt_rcodes { (a : _) → ⟦<OptRcode as Clone>⟧.is_infallible a }
    ensures options { (a : _) → ⟦<OptionCode as Clone>⟧.is_infallible a }
    ensures extended_errors { (a : _) → ⟦<ExtendedErrorCode as Clone>⟧.is_infallible a }
    ensures type_errors { (a : _) → ⟦<TypeError as Clone>⟧.is_infallible a }
    ensures class_errors { (a : _) → ⟦<ClassError as Clone>⟧.is_infallible a }
{}
