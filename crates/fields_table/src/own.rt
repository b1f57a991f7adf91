//! RDATA of a record type that is a list of fields of one's own.
ghost use Rattle.std.specs.Prelude.{◌≡◌, ◌≤◌, ℕ, List, true};
ghost use Rattle.dns_wire.specs.Parts.{parts_size};
ghost use Rattle.fields_table.specs.FieldData.{AreAt, parts_at};
ghost use Rattle.fields_table.specs.Layouts.{most, rest_is_last};
ghost use Rattle.fields_table.specs.Table.{Definition, definitions, kinds_in};

use crate::compose::compose;
use crate::fields::Fields;
use crate::kind::Kind;
use crate::skip::skip;
use dns_data::{ComposeRecordData, ParseRecordData, RecordData};
use dns_iana::Rtype;
use dns_name::Parser;
use dns_octets::{AppendError, ParseError};
use dns_wire::{Composer, MAX_OCTETS};
use std::alloc::AllocError;
use std::fmt::{self, Write};
use std::marker::PhantomData;

/// A record type of one's own: its number and its fields. `DataOf` reads and writes its RDATA.
pub trait RecordFields {
    /// The number of the record type.
    ghost number: { ℕ };

    /// The names and kinds of the fields, in order.
    ghost defined: { List Definition };

    /// The number of the record type.
    fn number() -> Rtype
        ensures { result ≡ number };

    /// The names and kinds of the fields, in order. If one takes all remaining octets, it is the
    /// last.
    fn fields() -> &'static [(&'static str, Kind)]
        ensures defined { definitions result.now ≡ defined }
        ensures last { rest_is_last (kinds_in defined) ≡ true };
}

/// RDATA of the record type `T`, as a view of the message. Nothing is copied.
pub struct DataOf<'a, T: RecordFields> {
    parser: Parser<'a>,
    of: PhantomData<T>,
    ghost encoded: { AreAt (kinds_in T.defined) parser },
    ghost short: { parts_size (parts_at (kinds_in T.defined) parser) ≤ most },
}

impl<'a, T: RecordFields> DataOf<'a, T> {
    ghost use Rattle.fields_table.specs.FieldParts.{named_parts, fields_left};
    ghost use Rattle.fields_table.specs.OwnTypes.{own_parts_of};

    /// The fields, in order, with the names and kinds of the record type.
    pub fn fields(&self) -> Fields<'a>
        ensures { fields_left result ≡ named_parts T.defined (own_parts_of self.now) }
    {
        Fields::new(T::fields(), self.parser)
    }
}

impl<T: RecordFields> RecordData for DataOf<'_, T> {
    ghost use Rattle.fields_table.specs.OwnTypes.{own_parts_of};

    ghost rtype_of = { λ _. T.number };

    ghost parts = { own_parts_of };

    fn rtype(&self) -> Rtype {
        T::number()
    }
}

impl<T: RecordFields> ComposeRecordData for DataOf<'_, T> {
    fn compose_rdata<C: Composer>(&self, target: &mut C) -> Result<(), AppendError> {
        compose(T::fields(), self.parser, false, target)
    }

    fn compose_canonical_rdata<C: Composer>(&self, target: &mut C) -> Result<(), AppendError> {
        compose(T::fields(), self.parser, true, target)
    }
}

impl<'a, T: RecordFields> ParseRecordData<'a> for DataOf<'a, T> {
    ghost use Rattle.dns_data.specs.RecordData.{only};
    ghost use Rattle.fields_table.specs.Layouts.{rdata_layout};
    ghost use Rattle.fields_table.specs.OwnTypes.{own_laid_out};

    ghost layout = { only T.number (rdata_layout (kinds_in T.defined)) };

    /// If the fields take more than 65,535 octets uncompressed, the error is `ShortInput`.
    fn parse_rdata(rtype: Rtype, parser: &mut Parser<'a>) -> Result<Option<Self>, ParseError> {
        if rtype != T::number() {
            return Ok(None);
        }
        let skipped = skip(T::fields(), *parser)?;
        if skipped.size > MAX_OCTETS {
            return Err(ParseError::ShortInput);
        }
        let data = DataOf {
            parser: *parser,
            of: PhantomData,
        };
        *parser = skipped.parser;
        Ok(Some(data))
    }

    ghost laid_out = { own_laid_out };
}

impl<T: RecordFields> Copy for DataOf<'_, T> {}

impl<T: RecordFields> Clone for DataOf<'_, T> {
    ghost use Rattle.std.specs.Bool.{⊤};

    ghost is_clone = { λ «data» clone. clone ≡ «data» };

    ghost is_infallible = { λ _. ⊤ };

    fn clone(&self) -> Result<Self, AllocError> {
        Ok(*self)
    }
}

impl<T: RecordFields> fmt::Debug for DataOf<'_, T> {
    fn fmt<W: Write>(&self, f: &mut fmt::Formatter<W>) -> fmt::Result {
        f.debug_struct("DataOf")
            .field("parser", &self.parser)
            .finish()
    }
}
