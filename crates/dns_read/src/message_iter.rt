ghost use Rattle.std.specs.Prelude.{◌≡◌, ◌≤◌, ◌+◌, length, Some, Err, IfSome};

use crate::message::Message;
use crate::record_section::RecordSection;
use crate::section::Section;
use dns_item::ParsedRecord;
use dns_octets::{Octets, ParseError};

/// An iterator over the records of a message, each with its section (RFC 1035 section 4.1).
///
/// It yields consecutive records of the answer, authority and additional sections. For the first
/// record that can't be read it yields an error, twice unless the record is in the additional
/// section, and then ends.
#[derive(Clone, Copy, Debug)]
pub struct MessageIter<'a> {
    /// The section that is being read, or `None` at the end.
    cursor: Option<RecordSection<'a>>,
}

impl<'a> MessageIter<'a> {
    ghost use Rattle.std.specs.Iterator.{YieldsFirstBy};
    ghost use Rattle.dns_read.specs.MessageIter.{item_result, items_left, kept_error, position_in, GivesErrorAgain, MovesPastItem};

    /// The offset after the record that was yielded last, in octets from the start of the message.
    /// Before the first record it is the start of the answer section. Returns `None` at the end.
    ///
    /// After an error it is where the record that can't be read begins, and `None` once the error
    /// was yielded again.
    pub fn pos(&self) -> Option<usize>
        ensures { result ≡ position_in self.now }
    {
        match &self.cursor {
            Some(cursor) => Some(cursor.pos()),
            None => None,
        }
    }

    /// The next record with its section, or the error of the first that can't be read.
    pub fn next(&mut self) -> Option<Result<(ParsedRecord<'a>, Section), ParseError>>
        ensures steps { YieldsFirstBy item_result items_left self.old result self.new }
        ensures again { IfSome (kept_error self.old) (λ e. result ≡ Some (Err e)) }
        ensures kept { GivesErrorAgain self.new result }
        ensures moves { MovesPastItem self.old self.new result }
    {
        while let Some(mut cursor) = self.cursor {
            match cursor.next() {
                Some(Ok(record)) => {
                    self.cursor = Some(cursor);
                    return Some(Ok((record, cursor.section())));
                }
                Some(Err(error)) => {
                    self.cursor = Some(cursor);
                    return Some(Err(error));
                }
                None => {}
            }
            match cursor.next_section() {
                Ok(next) => self.cursor = next,
                Err(error) => {
                    self.cursor = None;
                    return Some(Err(error));
                }
            }
        }
        None
    }
}

/// The same as the method `next`.
impl<'a> Iterator for MessageIter<'a> {
    ghost use Rattle.std.specs.Iterator.{item_count};
    ghost use Rattle.dns_read.specs.MessageIter.{items_left, GivesNext};

    type Item = Result<(ParsedRecord<'a>, Section), ParseError>;

    ghost next_gives = { GivesNext };

    ghost remaining = { item_count items_left };

    fn next(&mut self) -> Option<Self::Item> {
        MessageIter::next(self)
    }
}

impl<Octs: Octets> Message<Octs> {
    ghost use Rattle.dns_read.specs.Message.{message_octets};
    ghost use Rattle.dns_read.specs.MessageIter.{items_left, message_items, position_in};
    ghost use Rattle.dns_read.specs.SectionStarts.{start_of};
    ghost use Rattle.dns_read.specs.Sections.{answer_count, authority_count, additional_count};
    ghost use Rattle.dns_read.specs.declared.section.Section.TheVariants.{Answer};

    /// Iterates over the records of the answer, authority and additional sections.
    ///
    /// The iterator is empty if a question can't be skipped.
    pub fn iter(&self) -> MessageIter<'_>
        ensures items { items_left result ≡ message_items (message_octets self.now) }
        ensures count { length (items_left result) ≤ answer_count (message_octets self.now)
            + authority_count (message_octets self.now)
            + additional_count (message_octets self.now) + 1 }
        ensures starts { position_in result ≡ start_of Answer (message_octets self.now) }
    {
        MessageIter {
            cursor: self.answer().ok(),
        }
    }
}

/// The same as the method `iter`.
impl<'a, Octs: Octets> IntoIterator for &'a Message<Octs> {
    ghost use Rattle.dns_read.specs.Message.{message_octets};
    ghost use Rattle.dns_read.specs.MessageIter.{BeginsMessage};

    type Item = Result<(ParsedRecord<'a>, Section), ParseError>;

    type IntoIter = MessageIter<'a>;

    ghost into_iter_gives = { λ message it. BeginsMessage (message_octets message.now) it };

    fn into_iter(self) -> MessageIter<'a> {
        self.iter()
    }
}
