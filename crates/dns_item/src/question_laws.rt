//! Theorems on how questions compare, hash and clone, and on errors of their texts. The functions do
//! nothing: each contract is a theorem over all questions or errors.
ghost use Rattle.std.specs.Prelude.{◌≡◌, ◌↔◌, IsTrue};
ghost use Rattle.std.specs.Ordering.{as_partial_cmp};
ghost use Rattle.dns_item.specs.QuestionOrders.{questions_equal, question_order, question_hash_input, IsQuestionClone};
ghost use Rattle.dns_item.specs.Question.{qname_of};

use crate::question::Question;
use crate::question_error::{FromStrError, PresentationError, PresentationErrorEnum};
use std::hash::Hash;

/// Two questions are equal if and only if their names, types and classes are.
pub fn question_equality<N: PartialEq>()
    ensures { ⟦<Question<N> as PartialEq>⟧.eq ≡ questions_equal N.eq }
{}

/// Questions compare by name, then by type, then by class.
pub fn question_orders<N: Ord>()
    ensures total { ⟦<Question<N> as Ord>⟧.cmp ≡ question_order N.cmp }
    ensures partial { (a : _) (b : _) → ⟦<Question<N> as PartialOrd>⟧.partial_cmp a b
        ≡ as_partial_cmp (question_order N.cmp) a b }
{}

/// Hashing a question feeds the hasher the name, then the type, then the class.
pub fn question_hash<N: Hash>()
    ensures { ⟦<Question<N> as Hash>⟧.hash_input ≡ question_hash_input N.hash_input }
{}

/// A clone of a question has a clone of its name, and its type and class.
pub fn question_clones<N: Clone>()
    ensures clone { (a b : _) → ⟦<Question<N> as Clone>⟧.is_clone a b
        → IsQuestionClone N.is_clone a b }
    ensures succeeds { (a : _) → N.is_infallible (qname_of a)
        → ⟦<Question<N> as Clone>⟧.is_infallible a }
{}

/// Two errors of a question's text are equal if and only if they are the same.
pub fn text_error_equality()
    ensures kind { (a b : _) → IsTrue (⟦<PresentationErrorEnum as PartialEq>⟧.eq a b) ↔ (a ≡ b) }
    ensures text { (a b : _) → IsTrue (⟦<PresentationError as PartialEq>⟧.eq a b) ↔ (a ≡ b) }
    ensures error { (a b : _) → IsTrue (⟦<FromStrError as PartialEq>⟧.eq a b) ↔ (a ≡ b) }
{}

/// A clone of an error is the same error, and cloning never fails.
pub fn text_error_clones()
    ensures kind { (a b : _) → ⟦<PresentationErrorEnum as Clone>⟧.is_clone a b → b ≡ a }
    ensures text { (a b : _) → ⟦<PresentationError as Clone>⟧.is_clone a b → b ≡ a }
    ensures error { (a b : _) → ⟦<FromStrError as Clone>⟧.is_clone a b → b ≡ a }
    ensures kind_succeeds { (a : _) → ⟦<PresentationErrorEnum as Clone>⟧.is_infallible a }
    ensures text_succeeds { (a : _) → ⟦<PresentationError as Clone>⟧.is_infallible a }
    ensures error_succeeds { (a : _) → ⟦<FromStrError as Clone>⟧.is_infallible a }
{}
