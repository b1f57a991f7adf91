//! The octets of a client subnet as text (RFC 7871 section 6).
ghost use Rattle.std.specs.Prelude.{◌≡◌, ◌≤◌, OnErr, length};
ghost use Rattle.dns_print.specs.Printing.{PrintsOnOk};
ghost use Rattle.dns_dig.specs.OptionTexts.{ipv4_subnet_text, ipv6_subnet_text, padded, prefix_lengths, subnet_text};

use crate::value::{number_16, number_32, write_octets};
use dns_print::{TextWriter, write_ipv4, write_number};
use fields_plain::write_ipv6;
use std::fmt;
use std::net::Ipv6Addr;

/// Prints the octets of a client subnet: the address, and the lengths of its prefixes.
#[tactic(auto, using(dns_print::proofs::theory::Prints::prints, dns_print::proofs::theory::Prints::print_none, std::proofs::lemmas::Grind::common_steps, crate::proofs::Choices::subnet_short, crate::proofs::Choices::subnet_none, crate::proofs::Choices::subnet_ipv4, crate::proofs::Choices::subnet_ipv6))]
pub(crate) fn write_subnet<T: TextWriter>(writer: &mut T, octets: &[u8]) -> fmt::Result
    ensures text { PrintsOnOk T.takes writer.old result (subnet_text octets.now) writer.new }
    ensures err { OnErr result T.MayFail }
{
    if octets.len() < 4 {
        return write_octets(writer, octets);
    }
    if octets.len() == 4 && number_32(octets) == 0 {
        return writer.write_text(" 0/0/0");
    }
    let family = number_16(octets);
    if family == 1 && octets.len() <= 8 {
        return write_ipv4_subnet(writer, octets);
    }
    if family == 2 && octets.len() <= 20 {
        return write_ipv6_subnet(writer, octets);
    }
    write_octets(writer, octets)
}

/// Prints a subnet of IPv4.
fn write_ipv4_subnet<T: TextWriter>(writer: &mut T, octets: &[u8]) -> fmt::Result
    requires long { 4 ≤ length octets.now }
    requires short { length octets.now ≤ 8 }
    ensures text { PrintsOnOk T.takes writer.old result (ipv4_subnet_text octets.now) writer.new }
    ensures err { OnErr result T.MayFail }
{
    writer.write_text(" ")?;
    write_ipv4(writer, padded(&octets[4..]))?;
    write_prefix_lengths(writer, octets)
}

/// Prints a subnet of IPv6.
fn write_ipv6_subnet<T: TextWriter>(writer: &mut T, octets: &[u8]) -> fmt::Result
    requires long { 4 ≤ length octets.now }
    requires short { length octets.now ≤ 20 }
    ensures text { PrintsOnOk T.takes writer.old result (ipv6_subnet_text octets.now) writer.new }
    ensures err { OnErr result T.MayFail }
{
    writer.write_text(" ")?;
    write_ipv6(writer, Ipv6Addr::from(padded(&octets[4..])))?;
    write_prefix_lengths(writer, octets)
}

/// An address of which the first octets are given. The others are zero.
fn padded<const N: usize>(octets: &[u8]) -> [u8; N]
    requires { length octets.now ≤ N }
    ensures { result ≡ padded N octets.now }
{
    let mut address = [0; N];
    address[..octets.len()].copy_from_slice(octets);
    address
}

/// Prints the lengths of the source and the scope prefix, each after a slash.
#[tactic(auto, using(dns_print::proofs::theory::Prints::prints, std::proofs::lemmas::Grind::common_steps))]
fn write_prefix_lengths<T: TextWriter>(writer: &mut T, octets: &[u8]) -> fmt::Result
    requires { 4 ≤ length octets.now }
    ensures text { PrintsOnOk T.takes writer.old result (prefix_lengths octets.now) writer.new }
    ensures err { OnErr result T.MayFail }
{
    writer.write_text("/")?;
    write_number(writer, u64::from(octets[2]))?;
    writer.write_text("/")?;
    write_number(writer, u64::from(octets[3]))
}
