ghost use Rattle.std.specs.Prelude.{◌≡◌, ◌≤◌, ◌<◌, ◌↔◌, ℕ, List, ◌∷◌, IfErr, IfOk, IsTrue, length};
ghost use Rattle.std.specs.Int.{bit_at};
ghost use Rattle.dns_name.specs.Names.{NameEndsAt};
ghost use Rattle.dns_edit.specs.Marks.{IsMarked, MarksLabels, SetsMark};
ghost use Rattle.dns_edit.specs.Pointers.{AcceptsName, RefusesName};

use crate::error::EditError;
use dns_name::Head;

/// Marks offset `at`, if there is a mark for it.
fn mark(marks: &mut [u8], at: usize)
    ensures { SetsMark marks.old marks.new at }
{
    if at / 8 < marks.len() {
        let octet = marks[at / 8];
        marks[at / 8] = octet | 1 << (at % 8);
    }
}

/// Whether this bit of the octet is set.
fn has_bit(octet: u8, offset: usize) -> bool
    requires { offset < 8 }
    ensures { IsTrue result ↔ (bit_at octet offset ≡ 1) }
{
    octet >> offset & 1 == 1
}

/// Whether offset `target` is before `start`, and marked.
fn is_marked_before(marks: &[u8], target: usize, start: usize) -> bool
    ensures { IsTrue result ↔ ((target < start) × IsMarked marks.now target) }
{
    target < start && target / 8 < marks.len() && has_bit(marks[target / 8], target % 8)
}

/// Walks over the encoding of the name at offset `start`, and returns its end.
///
/// `marks` are set at the offsets of the labels of earlier names. Those of this name are added. A
/// pointer must lead to a label of an earlier name.
pub(crate) fn walk_name(octets: &[u8], start: usize, marks: &mut [u8]) -> Result<usize, EditError>
    ensures ends { IfOk result (λ end. NameEndsAt octets.now start end) }
    ensures within { IfOk result (λ end. end ≤ length octets.now) }
    ensures accepts { IfOk result (λ end. (names : List ℕ)
        → MarksLabels octets.now names marks.old
        → AcceptsName octets.now names start end (start ∷ names)
        × MarksLabels octets.now (start ∷ names) marks.new) }
    ensures refuses { IfErr result (λ e. (names : List ℕ)
        → MarksLabels octets.now names marks.old → RefusesName octets.now names start e) }
{
    let mut pos = start;
    let mut size = 0;
    'walk: loop {
        match Head::after(octets, pos, size)? {
            Head::Root => return Ok(pos + 1),
            Head::Label(len) => {
                mark(marks, pos);
                let taken = usize::from(len) + 1;
                size += taken;
                pos += taken;
            }
            Head::Pointer(target) => {
                if is_marked_before(marks, usize::from(target), start) {
                    return Ok(pos + 2);
                }
                return Err(EditError::Pointer);
            }
        }
    }
}
