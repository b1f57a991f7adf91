use dns_octets::ParseError;
use thiserror::Error;

/// Why a message isn't the next one of a transfer. Nothing more is yielded after it.
#[derive(Clone, Copy, Debug, PartialEq, Eq, Error)]
pub enum TransferError {
    /// A question, a record, or the RDATA of an SOA record can't be read.
    #[error("{0}")]
    Parse(ParseError),
    /// The message's ID isn't the query's.
    #[error("wrong ID")]
    WrongId,
    /// The message isn't a response, or its opcode isn't QUERY.
    #[error("no response to a query")]
    NoResponse,
    /// The RCODE isn't `NOERROR`. This is its number, with the higher bits of the OPT record (RFC
    /// 6891 section 6.1.3).
    #[error("rcode {0}")]
    Rcode(u16),
    /// The TC flag is set.
    #[error("truncated message")]
    Truncated,
    /// The question isn't the query's, or there are several. Only the first message must have it.
    #[error("wrong question")]
    WrongQuestion,
    /// A record has another class than the zone.
    #[error("wrong class")]
    WrongClass,
    /// The owner of a record is outside of the zone.
    #[error("owner outside of the zone")]
    OutsideZone,
    /// The first record isn't an SOA record.
    #[error("no SOA record first")]
    NoSoa,
    /// An SOA record isn't the one that may come next: its owner isn't the zone's name, or its
    /// serial is another.
    #[error("wrong SOA record")]
    WrongSoa,
    /// A record or a message follows the end of the transfer.
    #[error("data after the end")]
    AfterEnd,
    /// The messages end before the transfer does.
    #[error("incomplete transfer")]
    Incomplete,
}
