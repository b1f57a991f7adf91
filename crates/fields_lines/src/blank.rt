//! Lines that begin with a blank (RFC 1035 section 5.1).
ghost use Rattle.std.specs.Prelude.{◌≡◌};
ghost use Rattle.fields_lines.specs.Heads.{begins_with_owner};

/// Whether a line begins with its owner. One that begins with a blank, a space or a tab, has the owner
/// of the last record (RFC 1035 section 5.1).
pub fn begins_with_owner(line: &str) -> bool
    ensures { result ≡ begins_with_owner line.now }
{
    match line.as_bytes() {
        [b' ' | b'\t', ..] => false,
        _ => true,
    }
}
