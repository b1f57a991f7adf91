//! RDATA in presentation format (RFC 1035 section 5.1; opaque data: RFC 3597 section 5).
ghost use Rattle.std.specs.Prelude.{IfSome, OnErr, Some};
ghost use Rattle.dns_print.specs.Printing.{PrintsOnOk};
ghost use Rattle.dns_data.specs.NameData.{nsdname_of, cname_of};
ghost use Rattle.dns_data.specs.Printing.{address_text, absolute_text, soa_text, opaque_text};
ghost use Rattle.dns_data.specs.UnknownData.{unknown_octets};

use crate::a::A;
use crate::name_data::{Cname, Ns};
use crate::soa::Soa;
use crate::unknown::UnknownRecordData;
use dns_octets::Octets;
use dns_print::{TextWriter, write_hex, write_ipv4, write_number, write_value};
use std::fmt;

/// Prints four decimal numbers separated by dots.
fn write_address<W: TextWriter>(f: &mut W, address: A) -> fmt::Result
    ensures text { PrintsOnOk W.takes f.old result (address_text address) f.new }
    ensures err { OnErr result W.MayFail }
{
    write_ipv4(f, address.octets())
}

/// Four decimal numbers separated by dots.
impl fmt::Display for A {
    ghost output = { λ a. Some (address_text a) };

    ghost styled_output = { λ a _. Some (address_text a) };

    fn fmt<W: fmt::Write>(&self, f: &mut fmt::Formatter<W>) -> fmt::Result {
        write_address(f, *self)
    }
}

/// Prints a name and a dot.
fn write_absolute<W: TextWriter, N: fmt::Display>(f: &mut W, name: &N) -> fmt::Result
    ensures { IfSome (absolute_text (N.output name.now)) (λ text.
        PrintsOnOk W.takes f.old result text f.new) }
{
    write_value(f, format_args!("{name}."))
}

/// The name and a dot.
impl<N: fmt::Display> fmt::Display for Ns<N> {
    ghost output = { λ ns. absolute_text (N.output (nsdname_of ns)) };

    ghost styled_output = { λ ns _. absolute_text (N.output (nsdname_of ns)) };

    fn fmt<W: fmt::Write>(&self, f: &mut fmt::Formatter<W>) -> fmt::Result {
        write_absolute(f, self.nsdname())
    }
}

/// The name and a dot.
impl<N: fmt::Display> fmt::Display for Cname<N> {
    ghost output = { λ cname. absolute_text (N.output (cname_of cname)) };

    ghost styled_output = { λ cname _. absolute_text (N.output (cname_of cname)) };

    fn fmt<W: fmt::Write>(&self, f: &mut fmt::Formatter<W>) -> fmt::Result {
        write_absolute(f, self.cname())
    }
}

/// The two names, each with a dot, and the five numbers, separated by one space.
impl<N: fmt::Display> fmt::Display for Soa<N> {
    ghost output = { soa_text N.output };

    ghost styled_output = { λ soa _. soa_text N.output soa };

    fn fmt<W: fmt::Write>(&self, f: &mut fmt::Formatter<W>) -> fmt::Result {
        write_value(
            f,
            format_args!(
                "{}. {}. {} {} {} {} {}",
                self.mname(),
                self.rname(),
                self.serial(),
                self.refresh(),
                self.retry(),
                self.expire(),
                self.minimum()
            ),
        )
    }
}

/// Prints opaque data. Fails only if the writer does.
#[tactic(auto, using(dns_print::proofs::theory::Prints::prints, std::proofs::lemmas::Grind::common_steps))]
fn write_opaque<W: TextWriter>(f: &mut W, octets: &[u8]) -> fmt::Result
    ensures text { PrintsOnOk W.takes f.old result (opaque_text octets.now) f.new }
    ensures err { OnErr result W.MayFail }
{
    f.write_text("\\# ")?;
    write_number(f, octets.len() as u64)?;
    if octets.is_empty() {
        return Ok(());
    }
    f.write_text(" ")?;
    write_hex(f, false, octets)
}

/// `\#`, the number of octets and, if there are any, the octets in hexadecimal digits, separated by
/// one space.
impl<Octs: Octets> fmt::Display for UnknownRecordData<Octs> {
    ghost output = { λ unknown. Some (opaque_text (unknown_octets unknown)) };

    ghost styled_output = { λ unknown _. Some (opaque_text (unknown_octets unknown)) };

    fn fmt<W: fmt::Write>(&self, f: &mut fmt::Formatter<W>) -> fmt::Result {
        write_opaque(f, self.data().octets())
    }
}
