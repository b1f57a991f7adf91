//! How many words a field has.
ghost use Rattle.std.specs.Prelude.{◌≡◌};
ghost use Rattle.fields_records.specs.Extents.{extent_of};
ghost use Rattle.fields_records.specs.WordCounts.{IsSizedCount, IsWordCount};

use fields_table::Kind;
use fields_text::read_number;

/// How many words a field has.
#[derive(Clone, Copy, Debug)]
pub(crate) enum Extent {
    /// One word.
    One,
    /// One word, or two.
    OneOrTwo,
    /// All words that are left.
    All,
}

/// How many words a field of this kind has.
pub(crate) fn extent_of(kind: Kind) -> Extent
    ensures { result ≡ extent_of kind }
{
    match kind {
        Kind::SizedOctets => Extent::OneOrTwo,
        Kind::Strings
        | Kind::Hexadecimal
        | Kind::Base64
        | Kind::Base64OrHyphen
        | Kind::TypeBitMap
        | Kind::SmallTypeBitMap
        | Kind::ServiceParameters
        | Kind::AddressPrefixes
        | Kind::Location
        | Kind::GatewayAndKey
        | Kind::Relay
        | Kind::HostIdentity
        | Kind::Opaque => Extent::All,
        _ => Extent::One,
    }
}

/// The number of words of sized octets, of these words: one if it is zero, else two.
fn sized_count(words: &[&str]) -> usize
    ensures { IsSizedCount words.now result }
{
    let [number, _, ..] = words else {
        return words.len();
    };
    match read_number(number, 0) {
        Some(_) => 1,
        None => 2,
    }
}

/// The number of words that a field of this kind has, if these words are left.
pub(crate) fn word_count(kind: Kind, words: &[&str]) -> usize
    ensures { IsWordCount kind words.now result }
{
    match extent_of(kind) {
        Extent::One => words.len().min(1),
        Extent::OneOrTwo => sized_count(words),
        Extent::All => words.len(),
    }
}
