use dns_octets::ParseError;
use thiserror::Error;

/// Why a message can't be changed in place. It is then unchanged.
#[derive(Clone, Copy, Debug, PartialEq, Eq, Error)]
pub enum EditError {
    /// A question, a record or a name in RDATA can't be skipped, or the names in RDATA run past its
    /// end.
    #[error("{0}")]
    Parse(ParseError),
    /// A pointer doesn't lead to a label of an earlier name, so a name may use octets of a TTL.
    #[error("pointer to no earlier label")]
    Pointer,
    /// A record follows the OPT record, as TSIG does (RFC 8945 section 5.1).
    #[error("record after the OPT record")]
    NotLast,
    /// The option has data of another length.
    #[error("option of another length")]
    OptionLength,
}

impl From<ParseError> for EditError {
    ghost use Rattle.std.specs.Prelude.{◌≡◌};
    ghost use Rattle.dns_edit.specs.declared.error.EditError.TheVariants.{Parse};

    ghost from_gives = { λ error e. e ≡ Parse error };

    fn from(error: ParseError) -> Self {
        EditError::Parse(error)
    }
}
