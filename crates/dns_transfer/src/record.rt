//! What the record at an offset does to a transfer.
ghost use Rattle.std.specs.Prelude.{◌≡◌, IfErr, IfOk};
ghost use Rattle.dns_item.specs.Items.{ReadsRecord, RecordFaultAt};
ghost use Rattle.dns_item.specs.ParsedData.{HasSpan};
ghost use Rattle.dns_item.specs.ParsedRecord.{encoded_record, octets_of, parsed_entry};
ghost use Rattle.dns_name.specs.Names.{fault_of};
ghost use Rattle.dns_transfer.specs.Acts.{ActsAt, StopsAt};
ghost use Rattle.dns_transfer.specs.Asked.{asked_by};

use crate::error::TransferError;
use crate::grammar::{Act, State, advance, falls_back};
use crate::query::Query;
use dns_item::ParsedRecord;
use dns_name::Parser;
use dns_octets::ParseError;

/// A record, and what it does.
#[derive(Clone, Copy)]
pub struct Acted<'a> {
    pub shown: ParsedRecord<'a>,
    /// The offset after the record.
    pub after: usize,
    pub act: Act,
    /// The state after it.
    pub state: State,
    /// Whether the record is then taken again, as it only shows that the whole zone follows.
    pub again: bool,
}

/// What the record at offset `place` does, or why it can't come next.
pub fn act_at<'a>(
    query: &Query,
    state: State,
    octets: &'a [u8],
    place: usize,
) -> Result<Acted<'a>, TransferError>
    ensures acts { IfOk result (ActsAt (asked_by query.now) octets.now place state) }
    ensures stops { IfErr result (StopsAt (asked_by query.now) octets.now place state) }
{
    let (shown, after) = match read_record(octets, place) {
        Ok(found) => found,
        Err(error) => return Err(TransferError::Parse(error)),
    };
    let kind = match query.kind_of(&shown) {
        Ok(kind) => kind,
        Err(error) => return Err(error),
    };
    match advance(query.request, state, kind) {
        Ok((act, state)) => Ok(Acted {
            shown,
            after,
            act,
            state,
            again: falls_back(act),
        }),
        Err(error) => Err(error),
    }
}

/// Reads the record at offset `place`. Also returns the offset after it.
#[tactic(auto, using(crate::proofs::ActLemmas::past_end))]
fn read_record(octets: &[u8], place: usize) -> Result<(ParsedRecord<'_>, usize), ParseError>
    ensures reads { IfOk result (λ found.
        ReadsRecord octets.now place found.1 (parsed_entry found.0)) }
    ensures octets { IfOk result (λ found. octets_of found.0 ≡ octets.now) }
    ensures span { IfOk result (λ found. HasSpan (encoded_record found.0)) }
    ensures none { IfErr result (λ error. RecordFaultAt octets.now place (fault_of error)) }
{
    let mut parser = Parser::new(octets);
    parser.seek(place)?;
    let shown = ParsedRecord::parse(&mut parser)?;
    Ok((shown, parser.pos()))
}
