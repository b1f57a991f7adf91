//! Octets in base64 (RFC 4648 section 4).
ghost use Rattle.std.specs.Prelude.{OnErr, ◌≤◌, length};
ghost use Rattle.base64.specs.Engines.{standard};
ghost use Rattle.base64.specs.GeneralPurpose.{encode_of};
ghost use Rattle.dns_print.specs.Printing.{PrintsOnOk};
ghost use Rattle.fields_text.specs.Keys.{key_text};

use base64::engine::general_purpose::STANDARD;
use dns_print::TextWriter;
use std::{fmt, str};

/// The octets of a piece. They are a multiple of three, so only the last piece may need padding.
const PIECE: usize = 768;

/// The characters of a piece.
const TEXT: usize = 1024;

/// Prints the octets of a piece in base64, with padding.
fn write_piece<W: TextWriter>(f: &mut W, octets: &[u8]) -> fmt::Result
    requires { length octets.now ≤ 768 }
    ensures text { PrintsOnOk W.takes f.old result (encode_of standard octets.now) f.new }
    ensures err { OnErr result W.MayFail }
{
    let mut buffer = [0u8; TEXT];
    let Ok(size) = STANDARD.encode_slice(octets, &mut buffer) else {
        unreachable!();
    };
    let Ok(text) = str::from_utf8(&buffer[..size]) else {
        unreachable!();
    };
    f.write_text(text)
}

/// Prints octets in base64, with padding.
pub fn write_base64<W: TextWriter>(f: &mut W, octets: &[u8]) -> fmt::Result
    ensures text { PrintsOnOk W.takes f.old result (encode_of standard octets.now) f.new }
    ensures err { OnErr result W.MayFail }
{
    for piece in octets.chunks(PIECE) {
        write_piece(f, piece)?;
    }
    Ok(())
}

/// Prints a public key in base64 after a space; nothing if there are no octets.
#[tactic(auto, using(dns_print::proofs::theory::Prints::prints, std::proofs::lemmas::Grind::common_steps))]
pub fn write_key<W: TextWriter>(f: &mut W, key: &[u8]) -> fmt::Result
    ensures text { PrintsOnOk W.takes f.old result (key_text key.now) f.new }
    ensures err { OnErr result W.MayFail }
{
    if key.is_empty() {
        return Ok(());
    }
    f.write_text(" ")?;
    write_base64(f, key)
}
