//! Address prefixes in presentation format (RFC 3123 section 5).
ghost use Rattle.std.specs.Prelude.{OnErr, OnSome, IfNone, IfSome, IsErr, ◌≡◌, ◌≤◌, ◌++◌, codes, decimal, length, true, is_some};
ghost use Rattle.dns_print.specs.Printing.{PrintsOnOk};
ghost use Rattle.fields_lists.specs.Prefixes.{address_text, fits, has_word, is_trimmed, padded, prefix_text, prefix_word, sign, prefixes_text};
ghost use Rattle.fields_lists.specs.ItemsLeft.{prefix_item};

use crate::prefixes::{AddressPrefix, AddressPrefixes};
use dns_print::{TextWriter, write_ipv4, write_number};
use fields_plain::write_ipv6;
use std::fmt;
use std::net::Ipv6Addr;

/// The address family of IPv4.
const IPV4: u16 = 1;

/// The address family of IPv6.
const IPV6: u16 = 2;

/// An address prefix that prints as an exclamation mark if it is negated, the family, a colon, the
/// address, a slash and the size. Another family than IPv4 and IPv6, or an address or a size that
/// doesn't fit, has no text: see `is_printable`.
#[derive(Clone, Copy, Debug)]
pub struct PrefixText<'a>(pub AddressPrefix<'a>);

/// Whether the octets are none, or the last one isn't zero.
fn is_trimmed(octets: &[u8]) -> bool
    ensures { result ≡ is_trimmed octets.now }
{
    match octets {
        [] => true,
        [.., octet] => *octet != 0,
    }
}

/// Whether the address fits into `width` octets, and the prefix into their bits.
fn fits(prefix: &AddressPrefix<'_>, width: usize) -> bool
    requires { width ≤ 16 }
    ensures { result ≡ fits width (prefix_item prefix.now) }
{
    prefix.address.len() <= width
        && usize::from(prefix.size) <= width * 8
        && is_trimmed(prefix.address)
}

/// Whether the prefix has a presentation format.
fn has_word(prefix: &AddressPrefix<'_>) -> bool
    ensures { result ≡ has_word (prefix_item prefix.now) }
{
    match prefix.family {
        IPV4 => fits(prefix, 4),
        IPV6 => fits(prefix, 16),
        _ => false,
    }
}

/// Octets, and zeros after them.
fn padded<const N: usize>(octets: &[u8]) -> [u8; N]
    requires { length octets.now ≤ N }
    ensures { result ≡ padded N octets.now }
{
    let mut address = [0; N];
    address[..octets.len()].copy_from_slice(octets);
    address
}

/// Prints the address.
#[tactic(auto, using(dns_print::proofs::theory::Prints::prints, std::proofs::lemmas::Grind::common_steps))]
fn write_address<W: TextWriter>(f: &mut W, prefix: &AddressPrefix<'_>) -> fmt::Result
    requires { has_word (prefix_item prefix.now) ≡ true }
    ensures text { PrintsOnOk W.takes f.old result (address_text (prefix_item prefix.now)) f.new }
    ensures err { OnErr result W.MayFail }
{
    if prefix.family == IPV4 {
        write_ipv4(f, padded::<4>(prefix.address))
    } else {
        write_ipv6(f, Ipv6Addr::from(padded::<16>(prefix.address)))
    }
}

/// An exclamation mark if the prefix is negated.
fn sign(prefix: &AddressPrefix<'_>) -> &'static str
    ensures { result.now ≡ sign (prefix_item prefix.now) }
{
    if prefix.negated { "!" } else { "" }
}

/// Prints the family and a colon.
#[tactic(auto, using(dns_print::proofs::theory::Prints::prints, std::proofs::lemmas::Grind::common_steps))]
fn write_family<W: TextWriter>(f: &mut W, family: u16) -> fmt::Result
    ensures text { PrintsOnOk W.takes f.old result (decimal family ++ codes ":") f.new }
    ensures err { OnErr result W.MayFail }
{
    write_number(f, u64::from(family))?;
    f.write_text(":")
}

/// Prints a slash and the size.
#[tactic(auto, using(dns_print::proofs::theory::Prints::prints, std::proofs::lemmas::Grind::common_steps))]
fn write_size<W: TextWriter>(f: &mut W, size: u8) -> fmt::Result
    ensures text { PrintsOnOk W.takes f.old result (codes "/" ++ decimal size) f.new }
    ensures err { OnErr result W.MayFail }
{
    f.write_text("/")?;
    write_number(f, u64::from(size))
}

/// Prints a prefix that has a presentation format.
fn write_known<W: TextWriter>(f: &mut W, prefix: &AddressPrefix<'_>) -> fmt::Result
    requires { has_word (prefix_item prefix.now) ≡ true }
    ensures text { PrintsOnOk W.takes f.old result (prefix_text (prefix_item prefix.now)) f.new }
    ensures err { OnErr result W.MayFail }
{
    f.write_text(sign(prefix))?;
    write_family(f, prefix.family)?;
    write_address(f, prefix)?;
    write_size(f, prefix.size)
}

/// Prints an address prefix: an exclamation mark if it is negated, the family, a colon, the address, a
/// slash and the size (RFC 3123 section 5). Fails without printing if the prefix has no presentation
/// format.
pub fn write_prefix<W: TextWriter>(f: &mut W, prefix: &AddressPrefix<'_>) -> fmt::Result
    ensures text { IfSome (prefix_word (prefix_item prefix.now))
        (λ text. PrintsOnOk W.takes f.old result text f.new) }
    ensures err { OnSome (prefix_word (prefix_item prefix.now)) (OnErr result W.MayFail) }
    ensures none { IfNone (prefix_word (prefix_item prefix.now)) (IsErr result) }
    ensures same { IfNone (prefix_word (prefix_item prefix.now)) (f.new ≡ f.old) }
{
    if has_word(prefix) {
        write_known(f, prefix)
    } else {
        Err(fmt::Error)
    }
}

impl PrefixText<'_> {
    ghost use Rattle.std.specs.Prelude.{is_some};

    /// Whether the prefix has a presentation format.
    pub fn is_printable(&self) -> bool
        ensures { result ≡ is_some (prefix_word (prefix_item self.now.0)) }
    {
        has_word(&self.0)
    }
}

impl fmt::Display for PrefixText<'_> {
    ghost output = { λ text. prefix_word (prefix_item text.0) };

    ghost styled_output = { λ text _. prefix_word (prefix_item text.0) };

    fn fmt<W: fmt::Write>(&self, f: &mut fmt::Formatter<W>) -> fmt::Result {
        write_prefix(f, &self.0)
    }
}

/// Whether all address prefixes have a presentation format.
pub fn are_printable(octets: &[u8]) -> bool
    ensures { result ≡ is_some (prefixes_text octets.now) }
{
    for prefix in AddressPrefixes::new(octets) {
        if !PrefixText(prefix).is_printable() {
            return false;
        }
    }
    true
}

/// Prints address prefixes, separated by spaces.
pub fn write_prefixes<W: TextWriter>(f: &mut W, octets: &[u8]) -> fmt::Result
    ensures text { IfSome (prefixes_text octets.now)
        (λ text. PrintsOnOk W.takes f.old result text f.new) }
    ensures err { OnSome (prefixes_text octets.now) (OnErr result W.MayFail) }
{
    let mut separator = "";
    for prefix in AddressPrefixes::new(octets) {
        f.write_text(separator)?;
        write_prefix(f, &prefix)?;
        separator = " ";
    }
    Ok(())
}
