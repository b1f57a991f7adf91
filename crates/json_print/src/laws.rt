//! Theorems on JSON texts. The functions do nothing: the contract of each is a theorem.
ghost use Rattle.json_print.specs.Laws.{TextsReadBack};

/// The text of a value is a JSON text (RFC 8259), and reading it gives the value back.
pub fn texts_read_back()
    ensures { TextsReadBack }
{}
