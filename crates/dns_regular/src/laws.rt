//! Theorems on messages that builders write. The functions do nothing: each contract is a theorem.
ghost use Rattle.dns_regular.specs.Built.{BuiltIsRegular, LaidOutHasItsNames};

/// The octets that a builder writes are a regular message, under each rule of compression, if each
/// record has the names of its type: as many as the type has, where the type has them, and no
/// others that may be compressed.
///
/// Records of which no type is known have no names. Octets that a caller pushes as the RDATA of a
/// type with names, such as MX, may have a pointer that leads elsewhere.
pub fn built_is_regular()
    ensures { BuiltIsRegular }
{}

/// A record has the names of its type if its RDATA has the layout of the type. So does each value
/// that is read or made of fields.
pub fn laid_out_has_its_names()
    ensures { LaidOutHasItsNames }
{}
