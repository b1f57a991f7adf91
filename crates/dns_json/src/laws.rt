//! Theorems on the JSON of all messages. The functions do nothing: the contract of each is a
//! theorem.
ghost use Rattle.std.specs.Prelude.{◌≡◌};
ghost use Rattle.dns_json.specs.Laws.{MembersReadBack, NamesAreUnique, OctetsAreJson, OctetsAreLines};
ghost use Rattle.dns_json.specs.Laws.{OctetsReadBack, QuestionMembersReadBack, RecordMembersReadBack};
ghost use Rattle.dns_json.specs.Laws.{TextsAreJson, TextsAreLines};

use crate::message::MessageJson;

/// The text of each message is a JSON text (RFC 8259), and reading it gives the value of the
/// message. It is one line, whatever octets the message has. The same is true of the text of octets
/// that are too few for a message.
pub fn texts_are_json()
    ensures json { TextsAreJson }
    ensures octets { OctetsAreJson }
    ensures lines { TextsAreLines }
    ensures octet_lines { OctetsAreLines }
{}

/// No object has a name twice (RFC 7493 section 2.3).
pub fn names_are_unique()
    ensures { NamesAreUnique }
{}

/// The members of a message's object, of a question's and of a record's are its fields.
pub fn members_read_back()
    ensures message { MembersReadBack }
    ensures questions { QuestionMembersReadBack }
    ensures records { RecordMembersReadBack }
    ensures octets { OctetsReadBack }
{}

/// A clone of a message that prints as JSON is the same, and cloning never fails.
pub fn json_clones()
    ensures same { (a b : _) → ⟦<MessageJson<'static, 'static> as Clone>⟧.is_clone a b → b ≡ a }
    ensures always { (a : _) → ⟦<MessageJson<'static, 'static> as Clone>⟧.is_infallible a }
{}
