//! The traits of RDATA types.
ghost use Rattle.std.specs.Prelude.{◌≡◌, ℕ, List, [], ◌∷◌, Option, IsSomeAnd, IfSome};
ghost use Rattle.dns_wire.specs.Parts.{Part, Octets, encode_parts};
ghost use Rattle.dns_wire.specs.Targets.{Composes};
ghost use Rattle.dns_data.specs.Layout.{Layout, IsLaidOut};
ghost use Rattle.dns_data.specs.RecordData.{IsData, canonical, ParsesLaidOut, ParsesTaken};

use dns_iana::Rtype;
use dns_name::Parser;
use dns_octets::{AppendError, ParseError};
use dns_wire::Composer;

/// The RDATA of a record: a record type and a list of parts, each octets or a name.
pub trait RecordData {
    /// The record type.
    ghost rtype_of: { Self → ℕ };

    /// The parts.
    ghost parts: { Self → List Part };

    /// The record type.
    fn rtype(&self) -> Rtype
        ensures { result ≡ rtype_of self.now };
}

/// RDATA that can be appended to a message.
pub trait ComposeRecordData: RecordData {
    /// All octets of the RDATA, if the value can lend them as one slice. `None` says nothing about
    /// the RDATA.
    ///
    /// If the slice has at most 16 octets, a record is appended at once, without a call of
    /// `compose_rdata`.
    fn flat_rdata(&self) -> Option<&[u8]>
        ensures { IfSome result (λ octets. Self.parts self.now ≡ Octets octets.now ∷ []) }
    {
        None
    }

    /// Appends the parts, each name that may be compressed by the target's compression rule.
    ///
    /// On error the content still begins with the old content. A `truncate` to the old length
    /// restores the old target.
    fn compose_rdata<T: Composer>(&self, target: &mut T) -> Result<(), AppendError>
        ensures composes { Composes T.capacity T.grows (encode_parts T.rule (Self.parts self.now))
            (T.written target.old) (T.written target.new) result }
        ensures is_data { IsData (Self.parts self.now) };

    /// Appends the parts in canonical form (RFC 4034 section 6.2): names are uncompressed and
    /// lowercased, other octets as they are. Some names keep their letter case, as that of NSEC
    /// does. Errors are as for `compose_rdata`.
    fn compose_canonical_rdata<T: Composer>(&self, target: &mut T) -> Result<(), AppendError>
        ensures { Composes T.capacity T.grows
            (encode_parts T.rule (canonical (Self.parts self.now)))
            (T.written target.old) (T.written target.new) result };
}

/// RDATA that can be read from a message, for some record types.
pub trait ParseRecordData<'a>: RecordData + Sized {
    /// The layout of the RDATA of a record type, if the type is accepted.
    ghost layout: { ℕ → Option Layout };

    /// Reads the RDATA of a record of this type, from the parser's offset to at most the parser's
    /// end.
    /// Returns `None` if the type isn't accepted.
    ///
    /// Octets may be left over. If the octets aren't such RDATA, it returns the first error in
    /// them, and the parser doesn't move.
    fn parse_rdata(rtype: Rtype, parser: &mut Parser<'a>) -> Result<Option<Self>, ParseError>
        ensures { ParsesTaken Self.rtype_of Self.parts (layout rtype) rtype parser.old parser.new
            result };

    /// Each value has an accepted type, and its parts have that type's layout.
    ghost laid_out: { (d : Self) → IsSomeAnd (layout (Self.rtype_of d))
        (λ l. IsLaidOut l (Self.parts d)) };
}

/// RDATA that can be read from a message for every record type.
pub trait ParseAnyRecordData<'a>: RecordData + Sized {
    /// The layout of the RDATA of a record type.
    ghost any_layout: { ℕ → Layout };

    /// Reads the RDATA of a record of this type, as `ParseRecordData::parse_rdata` does.
    fn parse_any_rdata(rtype: Rtype, parser: &mut Parser<'a>) -> Result<Self, ParseError>
        ensures { ParsesLaidOut Self.rtype_of Self.parts (any_layout rtype) rtype parser.old
            parser.new result };

    /// The parts of each value have the layout of its type.
    ghost any_laid_out: { (d : Self) → IsLaidOut (any_layout (Self.rtype_of d)) (Self.parts d) };
}

impl<D: RecordData> RecordData for &D {
    ghost rtype_of = { λ d. D.rtype_of d.now };

    ghost parts = { λ d. D.parts d.now };

    fn rtype(&self) -> Rtype {
        (**self).rtype()
    }
}

impl<D: ComposeRecordData> ComposeRecordData for &D {
    #[inline(always)]
    fn flat_rdata(&self) -> Option<&[u8]> {
        (**self).flat_rdata()
    }

    fn compose_rdata<T: Composer>(&self, target: &mut T) -> Result<(), AppendError> {
        (**self).compose_rdata(target)
    }

    fn compose_canonical_rdata<T: Composer>(&self, target: &mut T) -> Result<(), AppendError> {
        (**self).compose_canonical_rdata(target)
    }
}
