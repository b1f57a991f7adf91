//! Consecutive character strings (RFC 1035 sections 3.3 and 3.3.14).
ghost use Rattle.std.specs.Prelude.{◌≡◌, OnErr};
ghost use Rattle.fields_lists.specs.Strings.{are_strings, strings_text};
ghost use Rattle.dns_print.specs.Printing.{PrintsOnOk};

use dns_print::TextWriter;
use fields_text::write_quoted;
use std::fmt;

/// An iterator over consecutive character strings. If the last one is cut off, it ends with the
/// octets.
#[derive(Clone, Copy, Debug)]
pub struct Strings<'a> {
    left: &'a [u8],
}

impl<'a> Strings<'a> {
    ghost use Rattle.fields_lists.specs.Strings.{strings_of};
    ghost use Rattle.fields_lists.specs.ItemsLeft.{strings_left};

    /// The character strings of these octets.
    pub fn new(octets: &'a [u8]) -> Self
        ensures { strings_left result ≡ strings_of octets.now }
    {
        Strings { left: octets }
    }
}

impl<'a> Iterator for Strings<'a> {
    ghost use Rattle.std.specs.Iterator.{YieldsFirstRef, item_count};
    ghost use Rattle.fields_lists.specs.ItemsLeft.{strings_left};

    type Item = &'a [u8];

    ghost next_gives = { YieldsFirstRef strings_left };

    ghost remaining = { item_count strings_left };

    fn next(&mut self) -> Option<&'a [u8]> {
        let [size, after @ ..] = self.left else {
            return None;
        };
        let (string, left) = after.split_at(usize::from(*size).min(after.len()));
        self.left = left;
        Some(string)
    }
}

/// Whether the octets are consecutive character strings, one at least.
pub fn are_strings(octets: &[u8]) -> bool
    ensures { result ≡ are_strings octets.now }
{
    let mut left = octets;
    'strings: while let [size, rest @ ..] = left {
        let size = usize::from(*size);
        if size > rest.len() {
            return false;
        }
        left = &rest[size..];
    }
    !octets.is_empty()
}

/// Prints character strings in quotes, separated by spaces.
pub fn write_strings<W: TextWriter>(f: &mut W, octets: &[u8]) -> fmt::Result
    ensures text { PrintsOnOk W.takes f.old result (strings_text octets.now) f.new }
    ensures err { OnErr result W.MayFail }
{
    let mut separator = "";
    for string in Strings::new(octets) {
        f.write_text(separator)?;
        write_quoted(f, string)?;
        separator = " ";
    }
    Ok(())
}
