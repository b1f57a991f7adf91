//! How fields are encoded.
ghost use Rattle.std.specs.Prelude.{◌≡◌};
ghost use Rattle.fields_table.specs.Shapes.{shape_of};

use crate::kind::Kind;

/// How a field is encoded.
#[derive(Clone, Copy, Debug, PartialEq, Eq)]
pub enum Shape {
    /// This number of octets.
    Octets(usize),
    /// A length octet and that number of octets.
    Counted,
    /// A length of 16 bits and that number of octets.
    Sized,
    /// A name that may be compressed.
    Name,
    /// A name that is never compressed: whether it may have a pointer when it is read, and whether
    /// its canonical form is lowercased.
    UncompressedName(bool, bool),
    /// All remaining octets.
    Rest,
}

impl Kind {
    /// How a field of this kind is encoded.
    pub fn shape(self) -> Shape
        ensures { result ≡ shape_of self }
    {
        match self {
            Kind::Number8 | Kind::SyncScheme => Shape::Octets(1),
            Kind::Number16 | Kind::RecordType => Shape::Octets(2),
            Kind::Number32 | Kind::Seconds | Kind::Time | Kind::Ipv4 => Shape::Octets(4),
            Kind::Number48 | Kind::Eui48 => Shape::Octets(6),
            Kind::Number64 | Kind::Eui64 | Kind::Locator64 => Shape::Octets(8),
            Kind::Ipv6 | Kind::Location => Shape::Octets(16),
            Kind::CompressibleName => Shape::Name,
            Kind::PointedName => Shape::UncompressedName(true, true),
            Kind::LowercasedName => Shape::UncompressedName(false, true),
            Kind::PlainName => Shape::UncompressedName(false, false),
            Kind::CharacterString | Kind::Tag | Kind::Salt | Kind::Hash => Shape::Counted,
            Kind::SizedOctets => Shape::Sized,
            _ => Shape::Rest,
        }
    }
}
