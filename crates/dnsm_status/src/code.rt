//! What can go wrong, and the number that C sees for it.
ghost use Rattle.std.specs.Prelude.{◌≡◌};
ghost use Rattle.dns_name.specs.Names.{fault_of};
ghost use Rattle.dnsm_status.specs.Codes.{code_of, number_of, IsReported, ReportsFault};

use dns_build::PushError;
use dns_octets::{AppendError, FormError, ParseError};
use dns_read::ShortMessage;

/// Why a call fails.
#[derive(Clone, Copy, PartialEq, Eq)]
pub enum CallError {
    /// An octet that is needed lies past the end.
    ShortInput,
    /// A length octet has the high bits 01 or 10 (RFC 1035 section 4.1.4).
    BadLabel,
    /// A compression pointer doesn't lead to an offset before its own.
    BadPointer,
    /// A name has more than 255 octets (RFC 1035 section 2.3.4).
    LongName,
    /// Octets after the RDATA of an SOA record, in a transfer.
    Form,
    /// The caller's buffer, or the limit of a draft, is too short.
    NoRoom,
    /// The text can't be read, or the name of an item to put can't.
    BadText,
    /// The query doesn't have exactly one question.
    NoQuestion,
    /// The section number exceeds 3 or is before that of the last item, or RDATA of a question is
    /// asked for.
    BadSection,
    /// An allocation failed.
    NoMemory,
    /// RDATA of more than 65,535 octets.
    LongData,
    /// A section would have more than 65,535 items.
    TooMany,
    /// QR is set, so this is a response.
    IsResponse,
    /// The opcode isn't QUERY.
    OtherOpcode,
    /// The class isn't IN.
    OtherClass,
    /// The type is neither A nor ANY.
    OtherType,
    /// The item isn't an OPT record.
    NotOpt,
    /// An option isn't whole within the RDATA.
    BadOption,
    /// The RDATA has no such name.
    NoName,
    /// The octets aren't RDATA of the record type.
    BadData,
    /// The additional section has no OPT record.
    NoOpt,
    /// The additional section has more than one OPT record (RFC 6891 section 6.1.1).
    TwoOpts,
    /// The owner of the OPT record isn't the root (RFC 6891 section 6.1.2).
    BadOwner,
    /// QR is clear, so this is no response.
    NoResponse,
    /// The ID, the opcode or the questions aren't those of the query.
    OtherQuery,
    /// The rcode isn't NOERROR.
    BadRcode,
    /// TC is set.
    Truncated,
    /// A record has another class than the zone.
    WrongClass,
    /// The owner of a record is outside of the zone.
    OutsideZone,
    /// The first record of a transfer isn't an SOA record.
    NoSoa,
    /// An SOA record isn't the one that may come next in a transfer.
    WrongSoa,
    /// A record or a message follows the end of a transfer.
    AfterEnd,
    /// A transfer hasn't ended.
    Incomplete,
}

impl From<ShortMessage> for CallError {
    ghost use Rattle.dnsm_status.specs.declared.code.CallError.TheVariants as faults;

    ghost from_gives = { λ _ fault. fault ≡ faults.ShortInput };

    fn from(_error: ShortMessage) -> Self {
        CallError::ShortInput
    }
}

impl From<AppendError> for CallError {
    ghost use Rattle.dnsm_status.specs.Codes.{append_fault};

    ghost from_gives = { λ error fault. fault ≡ append_fault error };

    fn from(error: AppendError) -> Self {
        match error {
            AppendError::ShortBuf => CallError::NoRoom,
            AppendError::OutOfMemory => CallError::NoMemory,
        }
    }
}

/// The builders here keep the default limit of `usize::MAX` octets, so exceeding it means out of
/// memory.
impl From<PushError> for CallError {
    ghost use Rattle.dnsm_status.specs.Codes.{push_fault};

    ghost from_gives = { λ error fault. fault ≡ push_fault error };

    fn from(error: PushError) -> Self {
        match error {
            PushError::ShortBuf => CallError::NoRoom,
            PushError::OutOfMemory | PushError::LimitExceeded => CallError::NoMemory,
            PushError::CountOverflow => CallError::TooMany,
        }
    }
}

/// The number of a fault.
pub fn of_fault(fault: CallError) -> u32
    ensures number { result ≡ number_of fault }
    ensures own { (other : CallError) → number_of other ≡ result → other ≡ fault }
{
    match fault {
        CallError::ShortInput => 2,
        CallError::BadLabel => 3,
        CallError::BadPointer => 4,
        CallError::LongName => 5,
        CallError::Form => 6,
        CallError::NoRoom => 7,
        CallError::BadText => 8,
        CallError::NoQuestion => 9,
        CallError::BadSection => 10,
        CallError::NoMemory => 11,
        CallError::LongData => 12,
        CallError::TooMany => 13,
        CallError::IsResponse => 14,
        CallError::OtherOpcode => 15,
        CallError::OtherClass => 16,
        CallError::OtherType => 17,
        CallError::NotOpt => 18,
        CallError::BadOption => 19,
        CallError::NoName => 20,
        CallError::BadData => 21,
        CallError::NoOpt => 22,
        CallError::TwoOpts => 23,
        CallError::BadOwner => 24,
        CallError::NoResponse => 25,
        CallError::OtherQuery => 26,
        CallError::BadRcode => 27,
        CallError::Truncated => 28,
        CallError::WrongClass => 29,
        CallError::OutsideZone => 30,
        CallError::NoSoa => 31,
        CallError::WrongSoa => 32,
        CallError::AfterEnd => 33,
        CallError::Incomplete => 34,
    }
}

/// The fault that reports an error of reading a name or an entry.
pub fn of_error(error: ParseError) -> CallError
    ensures { IsReported (fault_of error) → ReportsFault (fault_of error) (number_of result) }
{
    let ParseError::Form(cause) = error else {
        return CallError::ShortInput;
    };
    if cause == FormError::BAD_LABEL {
        CallError::BadLabel
    } else if cause == FormError::BAD_POINTER {
        CallError::BadPointer
    } else if cause == FormError::LONG_NAME {
        CallError::LongName
    } else {
        CallError::Form
    }
}

/// The status of a call: 0 if there is an item, 1 at the end, otherwise the number of the fault.
pub fn of(answer: Result<bool, CallError>) -> u32
    ensures { result ≡ code_of answer }
{
    match answer {
        Ok(true) => 0,
        Ok(false) => 1,
        Err(fault) => of_fault(fault),
    }
}
