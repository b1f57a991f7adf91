//! Keys and hashes of names. The functions do nothing: the contract of each is a theorem over all
//! names.
ghost use Rattle.dnsm_text.specs.NameHashes.{EqualNamesHashAlike};
ghost use Rattle.dnsm_text.specs.NameKeys.{KeysAgree, KeysAreOrdered, KeysAreShort, KeysOfSubdomains};

/// Keys compare octet by octet, a prefix first, as the names do in the canonical order (RFC 4034
/// section 6.1): all names, also those with zero octets in a label.
pub fn keys_are_ordered()
    ensures { KeysAreOrdered }
{}

/// Two names have the same key if and only if they are equal ignoring ASCII case.
pub fn keys_agree()
    ensures { KeysAgree }
{}

/// The key of a name begins with that of another if and only if it is that name or a subdomain of it
/// (RFC 1034 section 3.1).
pub fn keys_of_subdomains()
    ensures { KeysOfSubdomains }
{}

/// A key has at most 504 octets.
pub fn keys_are_short()
    ensures { KeysAreShort }
{}

/// Names that are equal ignoring ASCII case have the same hash.
pub fn equal_names_hash_alike()
    ensures { EqualNamesHashAlike }
{}
