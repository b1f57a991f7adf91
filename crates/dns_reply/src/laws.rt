//! Theorems on what replies say. The functions do nothing: each contract is a theorem.
ghost use Rattle.std.specs.Prelude.{◌≡◌, ◌↔◌, IsTrue};
ghost use Rattle.dns_reply.specs.Laws.{OneSaying, AllWithin, NamesAreLed, AnswersAreAnswers, AnswersAreRead, OneEnd, ReplyOrReason, RepliesAnswer, WithinIsSuffix};

use crate::matching::LetterCase;
use crate::reply::{Alias, Answer, Denial, NotReply, Redirection, Referral, Reply, Unusable};
use crate::rrset::Rrset;

/// A reply says exactly one thing: `reply_to` returns for each, and no other case applies.
pub fn one_saying()
    ensures { OneSaying }
{}

/// A reply speaks only of names within the zone, by records whose owners are within it. An alias
/// that leads out of the zone is only named.
pub fn all_within()
    ensures { AllWithin }
{}

/// Something is said only of the name that CNAME records of the answer section lead to from the
/// question's name, each with an owner within the zone.
pub fn names_are_led()
    ensures { NamesAreLed }
{}

/// What is said to be an answer is one: CNAME records of the answer section lead from the
/// question's name to a name that owns a record of it that the question asks for.
pub fn answers_are_answers()
    ensures { AnswersAreAnswers }
{}

/// Each record of the answer section of an answer can be read: an `Rrset` over it yields no error.
pub fn answers_are_read()
    ensures { AnswersAreRead }
{}

/// A chain of aliases has at most one end.
pub fn one_end()
    ensures { OneEnd }
{}

/// A message is a reply to a query, or there is exactly one reason why it isn't; never both.
pub fn reply_or_reason()
    ensures { ReplyOrReason }
{}

/// A reply with questions is one that `Message::is_answer` accepts.
pub fn replies_answer()
    ensures { RepliesAnswer }
{}

/// A name is within a zone exactly if it ends with the zone's name, as `ends_with` says.
pub fn within_is_suffix()
    ensures { WithinIsSuffix }
{}

/// Two reasons, or two ways to compare letter case, are equal if and only if they are the same.
pub fn reason_equality()
    ensures not_reply { (a b : _) → IsTrue (⟦<NotReply as PartialEq>⟧.eq a b) ↔ (a ≡ b) }
    ensures unusable { (a b : _) → IsTrue (⟦<Unusable as PartialEq>⟧.eq a b) ↔ (a ≡ b) }
    ensures case { (a b : _) → IsTrue (⟦<LetterCase as PartialEq>⟧.eq a b) ↔ (a ≡ b) }
{}

/// A clone of what a reply says, of a reason, or of a set of records is the same.
pub fn reply_clones()
    ensures reply { (a b : _) → ⟦<Reply<'static> as Clone>⟧.is_clone a b → b ≡ a }
    ensures answer { (a b : _) → ⟦<Answer<'static> as Clone>⟧.is_clone a b → b ≡ a }
    ensures denial { (a b : _) → ⟦<Denial<'static> as Clone>⟧.is_clone a b → b ≡ a }
    ensures referral { (a b : _) → ⟦<Referral<'static> as Clone>⟧.is_clone a b → b ≡ a }
    ensures alias { (a b : _) → ⟦<Alias<'static> as Clone>⟧.is_clone a b → b ≡ a }
    ensures redirection { (a b : _) → ⟦<Redirection<'static> as Clone>⟧.is_clone a b → b ≡ a }
    ensures not_reply { (a b : _) → ⟦<NotReply as Clone>⟧.is_clone a b → b ≡ a }
    ensures unusable { (a b : _) → ⟦<Unusable as Clone>⟧.is_clone a b → b ≡ a }
    ensures case { (a b : _) → ⟦<LetterCase as Clone>⟧.is_clone a b → b ≡ a }
    ensures set { (a b : _) → ⟦<Rrset<'static> as Clone>⟧.is_clone a b → b ≡ a }
{}

/// Cloning them never fails.
pub fn reply_clones_never_fail()
    ensures reply { (a : _) → ⟦<Reply<'static> as Clone>⟧.is_infallible a }
    ensures answer { (a : _) → ⟦<Answer<'static> as Clone>⟧.is_infallible a }
    ensures denial { (a : _) → ⟦<Denial<'static> as Clone>⟧.is_infallible a }
    ensures referral { (a : _) → ⟦<Referral<'static> as Clone>⟧.is_infallible a }
    ensures alias { (a : _) → ⟦<Alias<'static> as Clone>⟧.is_infallible a }
    ensures redirection { (a : _) → ⟦<Redirection<'static> as Clone>⟧.is_infallible a }
    ensures not_reply { (a : _) → ⟦<NotReply as Clone>⟧.is_infallible a }
    ensures unusable { (a : _) → ⟦<Unusable as Clone>⟧.is_infallible a }
    ensures case { (a : _) → ⟦<LetterCase as Clone>⟧.is_infallible a }
    ensures set { (a : _) → ⟦<Rrset<'static> as Clone>⟧.is_infallible a }
{}
