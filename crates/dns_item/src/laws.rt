//! Theorems on questions and records in octets, as written, and as texts, and on how record headers
//! compare and records clone. The functions do nothing: each contract is a theorem over all octets,
//! offsets, items, texts or values.
ghost use Rattle.std.specs.Prelude.{◌≡◌};
ghost use Rattle.std.specs.Ordering.{as_partial_cmp};
ghost use Rattle.dns_item.specs.Questions.{QuestionOrFault, QuestionEndOrFault, QuestionSkipAgrees, QuestionsGrow, QuestionsReadBack};
ghost use Rattle.dns_item.specs.Items.{HeaderOrFault, RecordOrFault, RecordEndOrFault, RecordSkipAgrees, RecordsGrow, RecordsReadBack};
ghost use Rattle.dns_octets.specs.Octets.{ClonesSurely};
ghost use Rattle.dns_data.specs.Opt.{opt_buffer};
ghost use Rattle.dns_item.specs.Clones.{IsHeaderClone, IsRecordClone, IsOptRecordClone};
ghost use Rattle.dns_item.specs.Clones.{parse_errors_equal, IsParseErrorClone, ParseErrorClones};
ghost use Rattle.dns_item.specs.OptRecord.{opt_data};
ghost use Rattle.dns_item.specs.Record.{owner_of, data_of};
ghost use Rattle.dns_item.specs.RecordHeader as header;
ghost use Rattle.dns_item.specs.HeaderOrders.{headers_equal, header_order, header_hash_input};
ghost use Rattle.dns_item.specs.TypedRecords.{DataIsParsed};
ghost use Rattle.dns_item.specs.QuestionTexts.{EachTextRead, OneTextResult, EachWordsRead, OneWordsResult};

use crate::opt_record::OptRecord;
use crate::parsed_record::ParsedRecord;
pub use crate::question_laws::{
    question_clones, question_equality, question_hash, question_orders, text_error_clones,
    text_error_equality,
};
use crate::record::Record;
use crate::record_error::RecordParseError;
use crate::record_header::RecordHeader;
pub use dns_code::ttl_laws::{
    ttl_clone, ttl_default, ttl_equality, ttl_hash, ttl_order, ttl_units,
};
use dns_octets::Octets;
use std::hash::Hash;

/// At each offset either exactly one question can be read, or there is exactly one fault. The same
/// holds of records and of their headers.
pub fn one_entry_or_fault()
    ensures questions { QuestionOrFault }
    ensures headers { HeaderOrFault }
    ensures records { RecordOrFault }
{}

/// At each offset either a question can be skipped to exactly one end, or there is exactly one
/// fault. The same holds of records.
pub fn one_end_or_fault()
    ensures questions { QuestionEndOrFault }
    ensures records { RecordEndOrFault }
{}

/// If a question or a record can be read, skipping it ends at the same offset. If it can't be
/// skipped, it can't be read.
pub fn skipping_agrees()
    ensures questions { QuestionSkipAgrees }
    ensures records { RecordSkipAgrees }
{}

/// A question or record that is written reads back at its offset, under every compression rule. It
/// adds only suffixes of its own names to the compression table.
pub fn items_read_back()
    ensures questions_grow { QuestionsGrow }
    ensures records_grow { RecordsGrow }
    ensures questions { QuestionsReadBack }
    ensures records { RecordsReadBack }
{}

/// Reading the RDATA of a record by a layout has exactly one result: the parts that fill the RDATA,
/// or its fault. It is what `data_in` says.
pub fn one_parsed_data()
    ensures { DataIsParsed }
{}

/// Every text, and every list of words, is read as exactly one question or exactly one error.
pub fn questions_as_texts()
    ensures each_text { EachTextRead }
    ensures one_answer { OneTextResult }
    ensures each_words { EachWordsRead }
    ensures one_result_of_words { OneWordsResult }
{}

/// Two record headers are equal if and only if all their fields are.
pub fn header_equality<N: PartialEq>()
    ensures { ⟦<RecordHeader<N> as PartialEq>⟧.eq ≡ headers_equal N.eq }
{}

/// Record headers compare by owner, type, class and TTL, then by RDLENGTH.
pub fn header_orders<N: Ord>()
    ensures total { ⟦<RecordHeader<N> as Ord>⟧.cmp ≡ header_order N.cmp }
    ensures partial { (a : _) (b : _) → ⟦<RecordHeader<N> as PartialOrd>⟧.partial_cmp a b
        ≡ as_partial_cmp (header_order N.cmp) a b }
{}

/// Hashing a record header feeds the hasher the fields in this order.
pub fn header_hash<N: Hash>()
    ensures { ⟦<RecordHeader<N> as Hash>⟧.hash_input ≡ header_hash_input N.hash_input }
{}

/// A clone of a header has a clone of its owner, and its numbers.
pub fn header_clones<N: Clone>()
    ensures clone { (a b : _) → ⟦<RecordHeader<N> as Clone>⟧.is_clone a b
        → IsHeaderClone N.is_clone a b }
    ensures succeeds { (a : _) → N.is_infallible (header.owner_of a)
        → ⟦<RecordHeader<N> as Clone>⟧.is_infallible a }
{}

/// A clone of a record has clones of its owner and RDATA, and its class and TTL.
pub fn record_clones<N: Clone, D: Clone>()
    ensures clone { (a b : _) → ⟦<Record<N, D> as Clone>⟧.is_clone a b
        → IsRecordClone N.is_clone D.is_clone a b }
    ensures succeeds { (a : _) → N.is_infallible (owner_of a) → D.is_infallible (data_of a)
        → ⟦<Record<N, D> as Clone>⟧.is_infallible a }
{}

/// A clone of an OPT record has its class, TTL and octets.
pub fn opt_record_clones<Octs: Octets + Clone>()
    ensures clone { (a b : _) → ⟦<OptRecord<Octs> as Clone>⟧.is_clone a b → IsOptRecordClone a b }
    ensures succeeds { (a : _) → ClonesSurely Octs.is_infallible Octs.is_clone Octs.octets
        (opt_buffer (opt_data a)) → ⟦<OptRecord<Octs> as Clone>⟧.is_infallible a }
{}

/// A clone of a record whose RDATA isn't parsed is the same, and cloning it never fails.
pub fn parsed_record_clones()
    ensures clone { (a b : _) → ⟦<ParsedRecord<'static> as Clone>⟧.is_clone a b → b ≡ a }
    ensures succeeds { (a : _) → ⟦<ParsedRecord<'static> as Clone>⟧.is_infallible a }
{}

/// Errors of parsing a record are equal if and only if they are of one kind, with equal errors.
pub fn parse_error_equality<N: PartialEq, D: PartialEq>()
    ensures { ⟦<RecordParseError<N, D> as PartialEq>⟧.eq ≡ parse_errors_equal N.eq D.eq }
{}

/// A clone of such an error is of the same kind, with a clone of the error in it.
pub fn parse_error_clones<N: Clone, D: Clone>()
    ensures clone { (a b : _) → ⟦<RecordParseError<N, D> as Clone>⟧.is_clone a b
        → IsParseErrorClone N.is_clone D.is_clone a b }
    ensures succeeds { (a : _) → ParseErrorClones N.is_infallible D.is_infallible a
        → ⟦<RecordParseError<N, D> as Clone>⟧.is_infallible a }
{}
