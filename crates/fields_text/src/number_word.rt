//! Decimal numbers (RFC 1035 section 5.1).
ghost use Rattle.std.specs.Prelude.{◌≤◌, ◌<◌, ◌^◌};
ghost use Rattle.std.specs.Option.{SomeIff};
ghost use Rattle.std.specs.Str.Parse.{IsNumeral, digits_value};

/// The number of decimal digits, `None` for any other word, and from 2 to the 64th power on.
fn read_digits(word: &str) -> Option<u64>
    ensures { let value = digits_value 10 word.now in
        SomeIff result (IsNumeral 10 word.now × (value < 2 ^ 64)) value }
{
    if word.starts_with('+') {
        return None;
    }
    word.parse().ok()
}

/// The number of decimal digits, if it is at most `most`. `None` for any other word.
pub fn read_number(word: &str, most: u64) -> Option<u64>
    ensures { let value = digits_value 10 word.now in
        SomeIff result (IsNumeral 10 word.now × (value ≤ most)) value }
{
    let number = read_digits(word)?;
    if number > most {
        return None;
    }
    Some(number)
}
