ghost use Rattle.std.specs.Prelude.{◌≡◌, OnErr, Some, MatchOption, IsErr, Ok, false};
ghost use Rattle.std.specs.List.{list_all};
ghost use Rattle.dns_print.specs.Printing.{PrintsOnOk};
ghost use Rattle.dns_code.specs.Flags.{flags_read, flags_text, is_flags_token, is_named, joined, names_shown, tokens};

use crate::error::FlagsFromStrError;
use dns_print::TextWriter;
use std::fmt;
use std::str::FromStr;

/// The flags of a header, without Z (RFC 1035 section 4.1.1; AD and CD: RFC 4035 section 3).
///
/// The text of flags is the names of those that are set, each two letters, separated by one space.
#[derive(Clone, Copy, Debug, Default, PartialEq, Eq, Hash)]
pub struct Flags {
    /// QR: the message is a response, not a query.
    pub qr: bool,

    /// AA: the responding server is an authority for the queried name.
    pub aa: bool,

    /// TC: the message was truncated.
    pub tc: bool,

    /// RD: the client asks for recursion.
    pub rd: bool,

    /// RA: the server offers recursion.
    pub ra: bool,

    /// AD: the server considers all data authentic.
    pub ad: bool,

    /// CD: the client accepts data whose signatures the server hasn't checked.
    pub cd: bool,
}

impl Flags {
    /// No flag is set.
    pub fn new() -> Self
        ensures { result ≡ record {
          qr = false;
          aa = false;
          tc = false;
          rd = false;
          ra = false;
          ad = false;
          cd = false;
        } }
    {
        Flags::default()
    }
}

/// The names of the flags that are set, in the order of the fields.
impl fmt::Display for Flags {
    ghost output = { λ flags. Some (flags_text flags) };

    ghost styled_output = { λ flags _. Some (flags_text flags) };

    fn fmt<W: fmt::Write>(&self, f: &mut fmt::Formatter<W>) -> fmt::Result {
        write_flags(f, *self)
    }
}

/// Prints the text of flags, as `{}` does: the names of those that are set, separated by one space.
pub fn write_flags<W: TextWriter>(writer: &mut W, flags: Flags) -> fmt::Result
    ensures text { PrintsOnOk W.takes writer.old result (flags_text flags) writer.new }
    ensures err { OnErr result W.MayFail }
{
    write_names(
        writer,
        &[
            (flags.qr, "QR"),
            (flags.aa, "AA"),
            (flags.tc, "TC"),
            (flags.rd, "RD"),
            (flags.ra, "RA"),
            (flags.ad, "AD"),
            (flags.cd, "CD"),
        ],
    )
}

/// Prints the names whose flag is set, separated by one space.
fn write_names<W: TextWriter>(f: &mut W, names: &[(bool, &str)]) -> fmt::Result
    ensures text { PrintsOnOk W.takes f.old result (joined (names_shown names.now)) f.new }
    ensures err { OnErr result W.MayFail }
{
    let mut separator = "";
    for (is_set, name) in names {
        if *is_set {
            f.write_text(separator)?;
            f.write_text(name)?;
            separator = " ";
        }
    }
    Ok(())
}

/// Reads names of flags, ignoring ASCII case. Each space ends a token. Empty tokens are skipped.
impl FromStr for Flags {
    type Err = FlagsFromStrError;

    ghost from_str_gives = { λ text result.
        MatchOption (flags_read text) (IsErr result) (λ flags. result ≡ Ok flags) };

    fn from_str(text: &str) -> Result<Self, FlagsFromStrError> {
        if !is_flags_text(text) {
            return Err(FlagsFromStrError::new());
        }
        Ok(Flags {
            qr: names(text, "QR"),
            aa: names(text, "AA"),
            tc: names(text, "TC"),
            rd: names(text, "RD"),
            ra: names(text, "RA"),
            ad: names(text, "AD"),
            cd: names(text, "CD"),
        })
    }
}

/// Whether a token is allowed in a text of flags: it is empty or the name of a flag.
fn is_token(token: &str) -> bool
    ensures { result ≡ is_flags_token token.now }
{
    token.is_empty()
        || token.eq_ignore_ascii_case("QR")
        || token.eq_ignore_ascii_case("AA")
        || token.eq_ignore_ascii_case("TC")
        || token.eq_ignore_ascii_case("RD")
        || token.eq_ignore_ascii_case("RA")
        || token.eq_ignore_ascii_case("AD")
        || token.eq_ignore_ascii_case("CD")
}

/// Whether each token of the text is allowed in a text of flags.
fn is_flags_text(text: &str) -> bool
    ensures { result ≡ list_all is_flags_token (tokens text.now) }
{
    text.split(' ').all(is_token)
}

/// Whether a token of the text is `name`, ignoring ASCII case.
fn names(text: &str, name: &str) -> bool
    ensures { result ≡ is_named (tokens text.now) name.now }
{
    text.split(' ')
        .any(|token| token.eq_ignore_ascii_case(name))
}
