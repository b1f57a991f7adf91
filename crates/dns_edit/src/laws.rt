//! Theorems on messages that are changed in place, and on changes and errors. The functions do
//! nothing: each contract is a theorem.
ghost use Rattle.std.specs.Prelude.{◌≡◌, ◌↔◌, IsTrue};
ghost use Rattle.dns_edit.specs.Acceptance.{NeverBoth};
ghost use Rattle.dns_edit.specs.Alike.{CaseReadsAlike, CaseStaysRegular, HeaderReadsAlike, HeaderStaysRegular, TtlsStayRegular};
ghost use Rattle.dns_edit.specs.Case.{AsksForNames};
ghost use Rattle.dns_edit.specs.Fields.{NamesAreFields, NamesAreOfFields, NamesBeginAfterFields};
ghost use Rattle.dns_edit.specs.Following.{NamesFollowFew};
ghost use Rattle.dns_edit.specs.Opt.{RemovedRcode, RemovedReadsAlike, RemovedStaysRegular};
ghost use Rattle.dns_edit.specs.Options.{ReplacedReadsAlike, ReplacedReadsBack, ReplacedStaysRegular};
ghost use Rattle.dns_edit.specs.Readings.{ChangedReadsAlike, NamesReadAlike, RdataLaidOutAlike, RdataReadsAlike};

use crate::change::TtlChange;
use crate::error::EditError;
use crate::question::OtherName;

/// A name that uses no octet of the TTL fields reads the same after the TTLs are changed.
pub fn names_read_alike()
    ensures { NamesReadAlike }
{}

/// A message whose TTLs were changed in place reads as before but for the TTLs.
pub fn changed_reads_alike()
    ensures { ChangedReadsAlike }
{}

/// The RDATA of each record of such a message has the same octets as before, and its names read the
/// same.
pub fn rdata_reads_alike()
    ensures { RdataReadsAlike }
{}

/// The RDATA of each record of such a message is that of its type's fields (`fields_table`) after
/// the change exactly if it was before, with the same names, strings and numbers.
pub fn rdata_laid_out_alike()
    ensures { RdataLaidOutAlike }
{}

/// If a regular message and another differ in the header alone, as after [`crate::set_id`], their
/// questions and records read the same. So do names in RDATA, to a parser that ends with it: those
/// of the types that [`crate::change_ttls`] knows.
pub fn header_reads_alike()
    ensures { HeaderReadsAlike }
{}

/// After [`crate::set_question_case`] a regular message reads as before, ignoring ASCII case: its
/// questions and records, with their names lowercased, and names in RDATA as above.
pub fn case_reads_alike()
    ensures { CaseReadsAlike }
{}

/// After [`crate::remove_opt`] a regular message reads as before, without its last record. Its rcode
/// is that of the header.
pub fn removed_reads_alike()
    ensures alike { RemovedReadsAlike }
    ensures rcode { RemovedRcode }
{}

/// After [`crate::replace_option`] the questions and records of a regular message read as before,
/// and so do names in RDATA as above.
pub fn replaced_reads_alike()
    ensures { ReplacedReadsAlike }
{}

/// After [`crate::replace_option`] the OPT record is where it was, and its options read as before,
/// but for the data of the first option with the code.
pub fn option_reads_back()
    ensures { ReplacedReadsBack }
{}

/// [`crate::set_question_case`] succeeds exactly if the message has a question, and its name has no
/// pointer and is equal to the given one, ignoring ASCII case.
pub fn asks_for_names()
    ensures { AsksForNames }
{}

/// A regular message stays regular after [`crate::set_id`] and [`crate::set_rcode`], after
/// [`crate::set_question_case`], [`crate::change_ttls`], [`crate::remove_opt`] and
/// [`crate::replace_option`]. So these can come in any order.
pub fn stays_regular()
    ensures header { HeaderStaysRegular }
    ensures case { CaseStaysRegular }
    ensures ttls { TtlsStayRegular }
    ensures opt { RemovedStaysRegular }
    ensures option { ReplacedStaysRegular }
{}

/// No message is both accepted and refused. So [`crate::change_ttls`] succeeds exactly where the
/// message is accepted, and returns an error exactly where it is refused.
pub fn never_both()
    ensures { NeverBoth }
{}

/// To read a name of a regular message, at most 127 pointers are followed, since each leads to a
/// label and a name has at most 127. If reading fails, at most 128 are.
pub fn names_follow_few()
    ensures { NamesFollowFew }
{}

/// The names in RDATA of each record type of `fields_table` are those among its fields, and begin
/// where these do. This crate knows of names in RDATA of no other type.
#[tactic(auto, unfolding(fields_table::specs::RecordTypes::record_types))]
pub fn names_are_fields()
    ensures types { NamesAreFields }
    ensures starts { NamesBeginAfterFields }
    ensures others { NamesAreOfFields }
{}

/// Two changes or two errors are equal if and only if they are the same.
pub fn change_equality()
    ensures change { (a b : _) → IsTrue (⟦<TtlChange as PartialEq>⟧.eq a b) ↔ (a ≡ b) }
    ensures error { (a b : _) → IsTrue (⟦<EditError as PartialEq>⟧.eq a b) ↔ (a ≡ b) }
    ensures name { (a b : _) → IsTrue (⟦<OtherName as PartialEq>⟧.eq a b) ↔ (a ≡ b) }
{}

/// A clone of a change or of an error is the same.
pub fn change_clones()
    ensures change { (a b : _) → ⟦<TtlChange as Clone>⟧.is_clone a b → b ≡ a }
    ensures error { (a b : _) → ⟦<EditError as Clone>⟧.is_clone a b → b ≡ a }
    ensures name { (a b : _) → ⟦<OtherName as Clone>⟧.is_clone a b → b ≡ a }
{}

/// Cloning a change or an error never fails.
pub fn change_clones_never_fail()
    ensures change { (a : _) → ⟦<TtlChange as Clone>⟧.is_infallible a }
    ensures error { (a : _) → ⟦<EditError as Clone>⟧.is_infallible a }
    ensures name { (a : _) → ⟦<OtherName as Clone>⟧.is_infallible a }
{}
