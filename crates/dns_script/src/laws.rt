//! Theorems on scripts and on clones of replies. The functions do nothing: each contract is a
//! theorem over all states or replies.
ghost use Rattle.std.specs.Prelude.{◌≡◌};
ghost use Rattle.dns_script.specs.Script.{SetsAreScripts};

use crate::script::Reply;
use dns_item::{ComposeQuestion, ComposeRecord};

/// A set of records leads to the state after its records, pushed in order. Reserving octets and
/// releasing them leads to the state after `SetLimit`. So a script needs no calls for them.
pub fn sets_are_scripts<Q: ComposeQuestion, R: ComposeRecord>()
    ensures { SetsAreScripts Q.question R.item }
{}

/// A clone of a reply is the same reply.
pub fn reply_clones()
    ensures { (a b : _) → ⟦<Reply as Clone>⟧.is_clone a b → b ≡ a }
{}

/// Cloning a reply never fails.
pub fn reply_clones_never_fail()
    ensures { (a : _) → ⟦<Reply as Clone>⟧.is_infallible a }
{}
