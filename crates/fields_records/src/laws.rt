//! Theorems on RDATA and records as text and as words. Each contract is a theorem.
ghost use Rattle.std.specs.Prelude.{ℕ, ◌≡◌};
ghost use Rattle.fields_records.specs.Laws.{DataReadsBack, PrintedDataIsRead, PrintedRecordsAreRead, ReadNamesHaveOctets, ReadPartsHaveOctets, RecordsReadBack};
ghost use Rattle.fields_records.specs.FieldLaws.{DataSplits, FieldsSplit};
ghost use Rattle.fields_records.specs.TextLaws.{FieldsAreAll};
ghost use Rattle.fields_records.specs.DataWords.{IsDataText};
ghost use Rattle.fields_records.specs.RecordWords.{IsRecordText};
ghost use Rattle.fields_records.specs.ListLaws.{OpaqueSplits, RecordsSplit};
ghost use Rattle.fields_text.specs.Laws.{RepresentsOne};

use crate::data_text::DataText;
use crate::record_text::RecordText;
use fields_forms::laws::{printed_forms_are_words, printed_forms_read_back};
use fields_lists::laws::{printed_lists_are_words, printed_lists_read_back};
use fields_parameters::laws::{printed_parameters_are_words, printed_parameters_read_back};
use fields_plain::laws::{printed_plain_values_are_words, printed_plain_values_read_back};
use fields_text::laws::{printed_values_are_words, printed_values_read_back};

/// The octets that are printed of record data without a presentation format are all its octets.
pub fn fields_are_all()
    ensures { FieldsAreAll }
{}

/// What is printed of data of an unknown type, and of a record, is these words.
pub fn printed_records_are_words()
    ensures opaque { OpaqueSplits }
    ensures records { RecordsSplit }
{}

/// What is printed of fields is the words of the fields, and what is printed of RDATA is these, or
/// those of an unknown type if a field has no presentation format.
pub fn printed_fields_split()
    ensures fields { FieldsSplit }
    ensures rdata { DataSplits }
{
    fields_are_all();
}

/// The octets of RDATA, and of a name, that is read of octets are octets.
pub fn read_parts_have_octets()
    ensures rdata { ReadPartsHaveOctets }
    ensures names { ReadNamesHaveOctets }
{}

/// The words of what is printed of RDATA, or of a record, represent it. If `split_words` splits the
/// line and `from_text` or `read_record` reads the words, the result is the same RDATA or record,
/// unless an allocation fails.
pub fn printed_data_reads_back()
    ensures rdata { DataReadsBack }
    ensures records { RecordsReadBack }
    ensures rdata_again { PrintedDataIsRead }
    ensures records_again { PrintedRecordsAreRead }
{
    printed_values_are_words();
    printed_plain_values_are_words();
    printed_forms_are_words();
    printed_lists_are_words();
    printed_parameters_are_words();
    printed_records_are_words();
    printed_fields_split();
    printed_values_read_back();
    printed_plain_values_read_back();
    printed_forms_read_back();
    printed_lists_read_back();
    printed_parameters_read_back();
    fields_are_all();
}

/// Words represent at most one list of parts of RDATA of a type, and at most one record.
pub fn words_represent_one()
    ensures rdata { (rtype : ℕ) → RepresentsOne (IsDataText rtype) }
    ensures records { RepresentsOne IsRecordText }
{}

/// A clone is the same value.
pub fn text_clones<N: Copy + 'static>()
    ensures data_text { (a b : _) → ⟦<DataText<'static, 'static> as Clone>⟧.is_clone a b → b ≡ a }
    ensures record_text { (a b : _) → ⟦<RecordText<'static, 'static, N> as Clone>⟧.is_clone a b
        → b ≡ a }
{}

/// A clone never fails.
pub fn text_clones_never_fail<N: Copy + 'static>()
    ensures data_text { (a : _) → ⟦<DataText<'static, 'static> as Clone>⟧.is_infallible a }
    ensures record_text { (a : _)
        → ⟦<RecordText<'static, 'static, N> as Clone>⟧.is_infallible a }
{}
