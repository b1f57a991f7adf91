ghost use Rattle.std.specs.Prelude.{◌≡◌, ◌↔◌, ℕ, Some};
ghost use Rattle.std.specs.Option.{option_copied};
ghost use Rattle.dns_iana.specs.Mnemonics.{mnemonic};
ghost use Rattle.dns_iana.specs.RegisteredTexts.{SpellsExtendedError};
ghost use Rattle.dns_iana.specs.Registry.{registered_extended_errors};

use crate::mnemonic::{self, Entry};
use crate::registry;
use std::marker::Model;

/// The code of an extended error, a 16-bit number that says more about why a query failed (RFC 8914
/// section 2).
#[derive(Clone, Copy, Debug, PartialEq, Eq, PartialOrd, Ord, Hash)]
pub struct ExtendedErrorCode(u16);

impl Model for ExtendedErrorCode {
    ghost Value = { ℕ };

    ghost view = { λ code. code.0 };

    ghost inverse = { λ n. record { 0 = n } };
}

/// The registered codes of extended errors and their names.
const EXTENDED_ERRORS: [Entry; 31] = [
    (ExtendedErrorCode::OTHER.0, "Other Error"),
    (
        ExtendedErrorCode::UNSUPPORTED_DNSKEY_ALGORITHM.0,
        "Unsupported DNSKEY Algorithm",
    ),
    (
        ExtendedErrorCode::UNSUPPORTED_DS_DIGEST_TYPE.0,
        "Unsupported DS Digest Type",
    ),
    (ExtendedErrorCode::STALE_ANSWER.0, "Stale Answer"),
    (ExtendedErrorCode::FORGED_ANSWER.0, "Forged Answer"),
    (
        ExtendedErrorCode::DNSSEC_INDETERMINATE.0,
        "DNSSEC Indeterminate",
    ),
    (ExtendedErrorCode::DNSSEC_BOGUS.0, "DNSSEC Bogus"),
    (ExtendedErrorCode::SIGNATURE_EXPIRED.0, "Signature Expired"),
    (
        ExtendedErrorCode::SIGNATURE_NOT_YET_VALID.0,
        "Signature Not Yet Valid",
    ),
    (ExtendedErrorCode::DNSKEY_MISSING.0, "DNSKEY Missing"),
    (ExtendedErrorCode::RRSIGS_MISSING.0, "RRSIGs Missing"),
    (
        ExtendedErrorCode::NO_ZONE_KEY_BIT_SET.0,
        "No Zone Key Bit Set",
    ),
    (ExtendedErrorCode::NSEC_MISSING.0, "NSEC Missing"),
    (ExtendedErrorCode::CACHED_ERROR.0, "Cached Error"),
    (ExtendedErrorCode::NOT_READY.0, "Not Ready"),
    (ExtendedErrorCode::BLOCKED.0, "Blocked"),
    (ExtendedErrorCode::CENSORED.0, "Censored"),
    (ExtendedErrorCode::FILTERED.0, "Filtered"),
    (ExtendedErrorCode::PROHIBITED.0, "Prohibited"),
    (
        ExtendedErrorCode::STALE_NXDOMAIN_ANSWER.0,
        "Stale NXDomain Answer",
    ),
    (ExtendedErrorCode::NOT_AUTHORITATIVE.0, "Not Authoritative"),
    (ExtendedErrorCode::NOT_SUPPORTED.0, "Not Supported"),
    (
        ExtendedErrorCode::NO_REACHABLE_AUTHORITY.0,
        "No Reachable Authority",
    ),
    (ExtendedErrorCode::NETWORK_ERROR.0, "Network Error"),
    (ExtendedErrorCode::INVALID_DATA.0, "Invalid Data"),
    (
        ExtendedErrorCode::SIGNATURE_EXPIRED_BEFORE_VALID.0,
        "Signature Expired before Valid",
    ),
    (ExtendedErrorCode::TOO_EARLY.0, "Too Early"),
    (
        ExtendedErrorCode::UNSUPPORTED_NSEC3_ITERATIONS_VALUE.0,
        "Unsupported NSEC3 Iterations Value",
    ),
    (
        ExtendedErrorCode::UNABLE_TO_CONFORM_TO_POLICY.0,
        "Unable to conform to policy",
    ),
    (ExtendedErrorCode::SYNTHESIZED.0, "Synthesized"),
    (
        ExtendedErrorCode::INVALID_QUERY_TYPE.0,
        "Invalid Query Type",
    ),
];

impl ExtendedErrorCode {
    /// Another error, 0 (RFC 8914 section 4.1).
    pub const OTHER: ExtendedErrorCode = ExtendedErrorCode(0);

    /// All DNSKEY records have unsupported algorithms, 1 (RFC 8914 section 4.2).
    pub const UNSUPPORTED_DNSKEY_ALGORITHM: ExtendedErrorCode = ExtendedErrorCode(1);

    /// All DS records have unsupported digests, 2 (RFC 8914 section 4.3).
    pub const UNSUPPORTED_DS_DIGEST_TYPE: ExtendedErrorCode = ExtendedErrorCode(2);

    /// The answer is from a cache and has expired, 3 (RFC 8914 section 4.4).
    pub const STALE_ANSWER: ExtendedErrorCode = ExtendedErrorCode(3);

    /// A policy made the answer, 4 (RFC 8914 section 4.5).
    pub const FORGED_ANSWER: ExtendedErrorCode = ExtendedErrorCode(4);

    /// Validation ended in the state indeterminate, 5 (RFC 8914 section 4.6).
    pub const DNSSEC_INDETERMINATE: ExtendedErrorCode = ExtendedErrorCode(5);

    /// Validation ended in the state bogus, 6 (RFC 8914 section 4.7).
    pub const DNSSEC_BOGUS: ExtendedErrorCode = ExtendedErrorCode(6);

    /// All signatures have expired, 7 (RFC 8914 section 4.8).
    pub const SIGNATURE_EXPIRED: ExtendedErrorCode = ExtendedErrorCode(7);

    /// No signature is valid yet, 8 (RFC 8914 section 4.9).
    pub const SIGNATURE_NOT_YET_VALID: ExtendedErrorCode = ExtendedErrorCode(8);

    /// No DNSKEY record matches a DS record, 9 (RFC 8914 section 4.10).
    pub const DNSKEY_MISSING: ExtendedErrorCode = ExtendedErrorCode(9);

    /// Signatures are missing, 10 (RFC 8914 section 4.11).
    pub const RRSIGS_MISSING: ExtendedErrorCode = ExtendedErrorCode(10);

    /// No DNSKEY record has the zone key bit, 11 (RFC 8914 section 4.12).
    pub const NO_ZONE_KEY_BIT_SET: ExtendedErrorCode = ExtendedErrorCode(11);

    /// NSEC or NSEC3 records are missing, 12 (RFC 8914 section 4.13).
    pub const NSEC_MISSING: ExtendedErrorCode = ExtendedErrorCode(12);

    /// The error is from a cache, 13 (RFC 8914 section 4.14).
    pub const CACHED_ERROR: ExtendedErrorCode = ExtendedErrorCode(13);

    /// The server isn't ready yet, 14 (RFC 8914 section 4.15).
    pub const NOT_READY: ExtendedErrorCode = ExtendedErrorCode(14);

    /// The operator blocks the domain, 15 (RFC 8914 section 4.16).
    pub const BLOCKED: ExtendedErrorCode = ExtendedErrorCode(15);

    /// Others had the operator block the domain, 16 (RFC 8914 section 4.17).
    pub const CENSORED: ExtendedErrorCode = ExtendedErrorCode(16);

    /// The client asked for a filter, which blocks the domain, 17 (RFC 8914 section 4.18).
    pub const FILTERED: ExtendedErrorCode = ExtendedErrorCode(17);

    /// The client isn't authorized, 18 (RFC 8914 section 4.19).
    pub const PROHIBITED: ExtendedErrorCode = ExtendedErrorCode(18);

    /// The answer NXDOMAIN is from a cache and has expired, 19 (RFC 8914 section 4.20).
    pub const STALE_NXDOMAIN_ANSWER: ExtendedErrorCode = ExtendedErrorCode(19);

    /// The server isn't authoritative for the domain, 20 (RFC 8914 section 4.21).
    pub const NOT_AUTHORITATIVE: ExtendedErrorCode = ExtendedErrorCode(20);

    /// The operation isn't supported, 21 (RFC 8914 section 4.22).
    pub const NOT_SUPPORTED: ExtendedErrorCode = ExtendedErrorCode(21);

    /// No authoritative server could be reached, 22 (RFC 8914 section 4.23).
    pub const NO_REACHABLE_AUTHORITY: ExtendedErrorCode = ExtendedErrorCode(22);

    /// An error occurred on the way to another server, 23 (RFC 8914 section 4.24).
    pub const NETWORK_ERROR: ExtendedErrorCode = ExtendedErrorCode(23);

    /// The data of the zone is invalid, 24 (RFC 8914 section 4.25).
    pub const INVALID_DATA: ExtendedErrorCode = ExtendedErrorCode(24);

    /// A signature expires before it is valid, 25 (no RFC).
    pub const SIGNATURE_EXPIRED_BEFORE_VALID: ExtendedErrorCode = ExtendedErrorCode(25);

    /// The query is in early data that might be replayed, 26 (RFC 9250).
    pub const TOO_EARLY: ExtendedErrorCode = ExtendedErrorCode(26);

    /// An NSEC3 record has too many iterations, 27 (RFC 9276).
    pub const UNSUPPORTED_NSEC3_ITERATIONS_VALUE: ExtendedErrorCode = ExtendedErrorCode(27);

    /// The connection can't be as a policy asks, 28 (no RFC).
    pub const UNABLE_TO_CONFORM_TO_POLICY: ExtendedErrorCode = ExtendedErrorCode(28);

    /// The answer was made of other cached answers, 29 (no RFC).
    pub const SYNTHESIZED: ExtendedErrorCode = ExtendedErrorCode(29);

    /// The type that was asked for is never asked for, 30 (RFC 9824).
    pub const INVALID_QUERY_TYPE: ExtendedErrorCode = ExtendedErrorCode(30);

    /// The code with this number.
    pub fn from_int(number: u16) -> Self
        ensures { result ≡ number }
    {
        ExtendedErrorCode(number)
    }

    /// The number of the code.
    pub fn to_int(self) -> u16
        ensures { result ≡ self }
    {
        self.0
    }

    /// The name that IANA has registered for the code, such as `Stale Answer`.
    #[tactic(auto, unfolding(crate::specs::Registry::registered_extended_errors))]
    pub fn registered_name(self) -> Option<&'static str>
        ensures { option_copied result ≡ mnemonic registered_extended_errors self }
    {
        registry::name_of(&EXTENDED_ERRORS, self.0)
    }

    /// The code with this registered name, ignoring ASCII case. `EDE` and a decimal number up to
    /// 65,535 is read, too.
    #[tactic(auto, unfolding(crate::specs::Registry::registered_extended_errors))]
    pub fn from_registered_name(text: &str) -> Option<Self>
        ensures { (n : ℕ) → SpellsExtendedError text.now n ↔ (result ≡ Some n) }
    {
        let number = mnemonic::read(&EXTENDED_ERRORS, "EDE", text)?;
        Some(ExtendedErrorCode(number))
    }
}
