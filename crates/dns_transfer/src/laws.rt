//! Theorems on transfers. The functions do nothing: each contract is a theorem.
ghost use Rattle.std.specs.Prelude.{◌≡◌, ◌↔◌, ℕ, IsTrue};
ghost use Rattle.dns_iana.specs.Serials.{IsGreater};
ghost use Rattle.dns_name.specs.Names.{Labels};
ghost use Rattle.dns_name.specs.Suffixes.{NameEndsWith};
ghost use Rattle.dns_transfer.specs.Forms.{FormsAreRead, OnlyFormsAreRead, RunsJoin, ZonesAreWhole};
ghost use Rattle.dns_transfer.specs.Kinds.{is_within};
ghost use Rattle.dns_transfer.specs.Serials.{is_greater};
ghost use Rattle.dns_transfer.specs.Transfers.{NothingFollows, OneTransfer};
ghost use Rattle.dns_transfer.specs.Transfers.{SomeTransfer, TakenOrRefused};
ghost use Rattle.dns_transfer.specs.Zones.{ChangesLead, WholeIsMade, WholeReplaces};

use crate::error::TransferError;
use crate::steps::Step;

/// The records that are read to the end are exactly those of the forms of RFC 5936 section 2.2 and
/// RFC 1995 sections 2, 4 and 6, with the steps of these forms.
pub fn forms_are_read()
    ensures read { FormsAreRead }
    ensures only { OnlyFormsAreRead }
{}

/// The records of several messages are read as if they were in one.
pub fn runs_join()
    ensures { RunsJoin }
{}

/// The steps of a transfer by AXFR hand out each of its records once, but for the last, which is
/// the zone's SOA record again.
pub fn zones_are_whole()
    ensures { ZonesAreWhole }
{}

/// The steps of the differences between a zone's versions, applied to the first version, give the
/// last one.
pub fn changes_lead()
    ensures { ChangesLead }
{}

/// The steps of a zone that is sent whole give this zone: by AXFR from the record of `Begin`, in
/// place of changes from any version.
pub fn whole_replaces()
    ensures axfr { WholeIsMade }
    ensures ixfr { WholeReplaces }
{}

/// A message is taken or refused with one error. Messages give exactly one list of steps and one
/// end: a finished transfer, one that waits for more, or one error. After the end no message is
/// taken.
pub fn one_transfer()
    ensures messages { TakenOrRefused }
    ensures some { SomeTransfer }
    ensures one { OneTransfer }
    ensures last { NothingFollows }
{}

/// The tests of serials and owners are the relations of `dns_iana` and `dns_name`.
pub fn tests_are_relations()
    ensures serials { (s t : ℕ) → IsTrue (is_greater s t) ↔ IsGreater s t }
    ensures owners { (name zone : Labels)
        → IsTrue (is_within name zone) ↔ NameEndsWith name zone }
{}

/// Two errors are equal if and only if they are the same.
pub fn error_equality()
    ensures { (a b : _) → IsTrue (⟦<TransferError as PartialEq>⟧.eq a b) ↔ (a ≡ b) }
{}

/// A clone of an error is the same, and cloning never fails.
pub fn error_clones()
    ensures same { (a b : _) → ⟦<TransferError as Clone>⟧.is_clone a b → b ≡ a }
    ensures always { (a : _) → ⟦<TransferError as Clone>⟧.is_infallible a }
{}

/// A clone of a step is the same, and cloning never fails.
pub fn step_clones()
    ensures same { (a b : _) → ⟦<Step<'static> as Clone>⟧.is_clone a b → b ≡ a }
    ensures always { (a : _) → ⟦<Step<'static> as Clone>⟧.is_infallible a }
{}
