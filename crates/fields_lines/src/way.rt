//! How the words of a field are completed.
ghost use Rattle.std.specs.Prelude.{◌≡◌};
ghost use Rattle.fields_lines.specs.FieldWays.{number_way, way_of};

use fields_table::Kind;

/// How the words of a field are completed before they are read.
#[derive(Clone, Copy, Debug, PartialEq, Eq)]
pub(crate) enum Way {
    /// They stay as they are.
    Same,
    /// The word is a name, perhaps relative to the origin.
    Name,
    /// The word is a time, perhaps in units.
    Duration,
    /// The word is a record type, perhaps by its number alone.
    RecordType,
    /// The words are record types, perhaps by their numbers alone.
    RecordTypes,
    /// The word is a tag, perhaps in quotes.
    Tag,
    /// The word is base32, perhaps padded.
    Hash,
    /// The word is an algorithm, perhaps by its name.
    Algorithm,
    /// The word is a type of certificates, perhaps by its name.
    CertificateType,
    /// The word is an error of TSIG, perhaps by its name.
    ErrorCode,
    /// The word is the flags of a key, perhaps by their names.
    KeyFlags,
    /// The third word is a name if the first is 3.
    Gateway,
    /// The third word is a name if the second is 3.
    Relay,
    /// The words after the third are names.
    HostIdentity,
}

/// How a number is completed, in this field of this type.
fn number_way(rtype: u16, index: usize) -> Way
    ensures { result ≡ number_way rtype index }
{
    match (index, rtype) {
        (0, 25 | 48 | 60) => Way::KeyFlags,
        (0, 37) => Way::CertificateType,
        (1, 24 | 43 | 46 | 59 | 32768 | 32769) => Way::Algorithm,
        (2, 25 | 37 | 48 | 57 | 60) => Way::Algorithm,
        (4, 249) => Way::ErrorCode,
        (5, 250) => Way::ErrorCode,
        _ => Way::Same,
    }
}

/// How the words of a field of this kind are completed, in this field of this type.
pub(crate) fn way_of(rtype: u16, index: usize, kind: Kind) -> Way
    ensures { result ≡ way_of rtype index kind }
{
    match kind {
        Kind::Number8 | Kind::Number16 => number_way(rtype, index),
        Kind::Seconds => Way::Duration,
        Kind::RecordType => Way::RecordType,
        Kind::CompressibleName | Kind::PointedName | Kind::LowercasedName | Kind::PlainName => {
            Way::Name
        }
        Kind::Tag => Way::Tag,
        Kind::Hash => Way::Hash,
        Kind::SmallTypeBitMap => Way::RecordTypes,
        Kind::GatewayAndKey => Way::Gateway,
        Kind::Relay => Way::Relay,
        Kind::HostIdentity => Way::HostIdentity,
        _ => Way::Same,
    }
}
