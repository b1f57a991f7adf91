//! Theorems on targets and what is written to them. The functions do nothing: each contract is a
//! theorem over all contents, names and parts.
ghost use Rattle.std.specs.Prelude.{◌≡◌};
ghost use Rattle.dns_wire.specs.Choice.{NamesByChoice, MayEnterUnlessKeptOut, HashAddsAllOrNone};
ghost use Rattle.dns_wire.specs.Compression.{PartsAreShortest, PartsPointToLabels, ShortPartsAreInPointerRange};
ghost use Rattle.dns_wire.specs.TargetLaws.{NamesAreWhereAgreed, NamesStayWithMore, NamesAreWithinAll, NamesOfWithin, NamesStayWhenOverwritten};
ghost use Rattle.dns_wire.specs.TargetLaws.{EntriesAreNames, NamesAreAtOrAfter, NothingIsTarget, NameKeeps, OctetsKeep, CutKeeps, OverwriteKeeps};
ghost use Rattle.dns_wire.specs.TargetLaws.{CutUndoes, NamesGrow, OctetsGrow, PartsGrow, BothGrow, EncodersStayAtOrAfter, NamesStayAtOrAfter};
ghost use Rattle.dns_wire.specs.TargetLaws.{NamesReadBack, PartsReadBack, NamesAreShort, AppendsCompose, ComposesBoth, ComposesFirst};
ghost use Rattle.dns_wire.specs.Stream.{most_octets};

use crate::stream_target::MAX_OCTETS;

/// A name encoded in a content is encoded in every longer one, and in one with octets overwritten
/// that the name doesn't use.
pub fn encoded_names_are_stable()
    ensures agreed { NamesAreWhereAgreed }
    ensures more { NamesStayWithMore }
    ensures all { NamesAreWithinAll }
    ensures back { NamesOfWithin }
    ensures overwritten { NamesStayWhenOverwritten }
{}

/// Each suffix in the compression table is encoded where the table says. Appends, truncations and
/// overwrites preserve this. Truncating to the old length undoes an append.
pub fn table_is_sound()
    ensures encoded { EntriesAreNames }
    ensures names_are_at_or_after { NamesAreAtOrAfter }
    ensures nothing { NothingIsTarget }
    ensures name { NameKeeps }
    ensures octets { OctetsKeep }
    ensures cut { CutKeeps }
    ensures overwritten { OverwriteKeeps }
    ensures undone { CutUndoes }
    ensures names_grow { NamesGrow }
    ensures octets_grow { OctetsGrow }
    ensures parts_grow { PartsGrow }
    ensures both_grow { BothGrow }
    ensures after { EncodersStayAtOrAfter }
    ensures names_after { NamesStayAtOrAfter }
{}

/// Names and parts read back unchanged from where they were written, under every rule.
pub fn names_and_parts_read_back()
    ensures names { NamesReadBack }
    ensures parts { PartsReadBack }
{}

/// How each compressor writes a name: by its longest suffix in the table, and the first of its
/// suffixes that may not enter the table. Under static and tree these are suffixes at or after
/// offset 16,384. Under static no suffix may enter a table of 24 entries. Hash adds all suffixes of
/// a name, or none if one is at or after that offset.
pub fn names_by_choice()
    ensures names { NamesByChoice }
    ensures far { MayEnterUnlessKeptOut }
    ensures hash { HashAddsAllOrNone }
{}

/// A name takes at most as many octets as it does uncompressed, under every rule.
pub fn names_are_short()
    ensures { NamesAreShort }
{}

/// How appends compose: one append of an encoding composes it, encodings in order compose both, and
/// an error in the first is an error of both.
pub fn encoders_compose()
    ensures one { AppendsCompose }
    ensures both { ComposesBoth }
    ensures first { ComposesFirst }
{}

/// Each pointer in written parts leads to an earlier label below offset 16,384, under every rule
/// (RFC 1035 section 4.1.4).
pub fn parts_point_to_labels()
    ensures { PartsPointToLabels }
{}

/// If the table was empty, written parts take the octets of a shortest compression of their names,
/// while all labels begin below offset 16,384. This holds for the tree and hash rules, and for the
/// static rule while its table has fewer than 24 suffixes.
pub fn parts_are_shortest()
    ensures shortest { PartsAreShortest }
    ensures in_range { ShortPartsAreInPointerRange }
{}

/// The constant is the maximum length that the definition of a message over a stream has.
pub fn stream_length()
    ensures { MAX_OCTETS ≡ most_octets }
{}
