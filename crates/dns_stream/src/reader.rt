//! A reader of the messages on a stream.
ghost use Rattle.std.specs.Prelude.{◌≡◌, ◌+◌, ◌-◌, ◌<◌, ◌≤◌, ◌↔◌, ◌++◌, [], length, take, true, Some, IfOk, IfErr, IfNone, IsTrue, OnOk, OnErr, slice_range, vec_len, vec_capacity};
ghost use Rattle.dns_octets.specs.Octets.{overwritten};
ghost use Rattle.dns_code.specs.HeaderSection.{header_size};
ghost use Rattle.dns_read.specs.Message.{message_octets};
ghost use Rattle.dns_wire.specs.Targets.{AppendReturns};
ghost use Rattle.dns_stream.specs.Frames.{Accepts, AreMissing, IsPartial, Refuses};

use crate::error::FrameError;
use crate::frames::{Beginning, PREFIX_LEN, beginning_of, long_message, missing_octets};
use dns_octets::AppendError;
use dns_read::Message;
use std::alloc::{AllocError, Global};

/// A reader of the messages on a stream, which come in pieces of any size.
///
/// [`push`](Self::push) takes octets that were received, and [`next`](Self::next) hands out the
/// messages in order. Taking a message moves no octets; a push moves those that are left to the
/// start if at least as many were handed out, or if the octets don't fit otherwise. So an octet is
/// moved at most once if all messages are taken before each push.
#[derive(Debug, Drop)]
pub struct StreamReader {
    /// The octets that are left are those from `start` to `end`.
    buffer: Vec<u8>,
    start: usize,
    end: usize,
    most: usize,
    ghost ordered: { start ≤ end },
    ghost within: { end ≤ length buffer.items },
    ghost bounded: { vec_capacity buffer ≤ most },
}

impl StreamReader {
    ghost use Rattle.std.specs.Borrow.{sem};
    ghost use Rattle.dns_octets.specs.declared.error.AppendError.TheVariants.{OutOfMemory};
    ghost use Rattle.dns_stream.specs.Readers.{allocated, left, limit, Advances, EndsAs};

    /// Creates a reader at the start of a stream. It allocates only when octets are pushed.
    ///
    /// `most` is the maximum number of octets that it allocates, and so of a frame: the two octets
    /// of a length, and a message. With [`MAX_FRAME`](crate::MAX_FRAME) no message is too long. It
    /// must be at least 14 for any message to be read.
    pub fn new(alloc: Global, most: usize) -> Self
        ensures empty { left result ≡ [] }
        ensures most { limit result ≡ most }
        ensures allocated { allocated result ≡ 0 }
    {
        StreamReader {
            buffer: Vec::new(alloc),
            start: 0,
            end: 0,
            most,
        }
    }

    /// Appends octets that were received.
    ///
    /// Errors: `ShortBuf` exactly if they exceed the [`spare_capacity`](Self::spare_capacity);
    /// `OutOfMemory` if an allocation fails, never while all octets fit in the
    /// [`capacity`](Self::capacity). On error none of them is appended.
    pub fn push(&mut self, octets: &[u8]) -> Result<(), AppendError>
        ensures ok { OnOk result (left self.new ≡ left self.old ++ octets.now) }
        ensures err { OnErr result (left self.new ≡ left self.old) }
        ensures outcome { AppendReturns (Some (limit self.old)) true
            (length (left self.old) + length octets.now) result }
        ensures memory { IfErr result (λ error. error ≡ OutOfMemory
            → allocated self.old < length (left self.old) + length octets.now) }
        ensures same_limit { limit self.new ≡ limit self.old }
        ensures never_less { allocated self.old ≤ allocated self.new }
    {
        if octets.len() > self.spare_capacity() {
            return Err(AppendError::ShortBuf);
        }
        self.lengthen(octets.len())?;
        let end = self.end + octets.len();
        overwrite(&mut self.buffer, self.end, octets);
        self.end = end;
        Ok(())
    }

    /// Takes the next message, or returns `None` if octets of its frame are missing.
    ///
    /// Errors come as soon as the length is there: `Short` if it is less than 12, `Long` if the
    /// frame has more octets than the reader stores. The octets stay, so each later call returns
    /// the same error.
    pub fn next(&mut self) -> Result<Option<Message<&[u8]>>, FrameError>
        ensures none { IfOk result (λ found. IfNone found (IsPartial (left self.old))) }
        ensures accepted { OnOk result (Accepts (limit self.old) (left self.old)) }
        ensures refused { IfErr result (Refuses (limit self.old) (left self.old)) }

        // What is left once the message isn't used any more: the octets after its frame, or the
        // same as before.
        ensures* after { sem 𝓛 (EndsAs self.entry result) }
    {
        match self.advance() {
            Beginning::Frame(len) => Ok(Some(self.message_before(len))),
            Beginning::Partial => Ok(None),
            Beginning::Refused(error) => Err(error),
        }
    }

    /// The number of octets that are missing from the next frame: from its length or, once that is
    /// there, from its message. It is 0 exactly if the frame is complete.
    pub fn missing_octets(&self) -> usize
        ensures { AreMissing (left self.now) result }
    {
        missing_octets(self.as_slice())
    }

    /// The number of octets that can be pushed now. It isn't 0 after [`next`](Self::next) returned
    /// `None`, if the reader stores at least two octets.
    pub fn spare_capacity(&self) -> usize
        ensures { result + length (left self.now) ≡ limit self.now }
    {
        self.most - self.as_slice().len()
    }

    /// The octets that were pushed and aren't handed out. At the end of a stream, they are a
    /// message that was cut off.
    pub fn as_slice(&self) -> &[u8]
        ensures octets { result.now ≡ left self.now }
        ensures within { length result.now ≤ limit self.now }
    {
        &self.buffer[self.start..self.end]
    }

    /// Whether all octets that were pushed are handed out.
    pub fn is_empty(&self) -> bool
        ensures { IsTrue result ↔ (length (left self.now) ≡ 0) }
    {
        self.as_slice().is_empty()
    }

    /// The number of octets that are allocated.
    pub fn capacity(&self) -> usize
        ensures value { result ≡ allocated self.now }
        ensures within { result ≤ limit self.now }
        ensures enough { length (left self.now) ≤ result }
    {
        self.buffer.capacity()
    }

    /// Removes all octets, so that another stream can be read. What was allocated stays so.
    pub fn clear(&mut self)
        ensures empty { left self.new ≡ [] }
        ensures same_limit { limit self.new ≡ limit self.old }
        ensures allocated { allocated self.new ≡ allocated self.old }
    {
        self.start = 0;
        self.end = 0;
    }

    /// Moves past the first frame, if it is complete and accepted. Returns what the octets began
    /// with.
    fn advance(&mut self) -> Beginning
        ensures { Advances self.old self.new result }
    {
        match beginning_of(self.as_slice(), self.most) {
            Beginning::Frame(len) => {
                self.start += PREFIX_LEN + len;
                Beginning::Frame(len)
            }
            Beginning::Partial => Beginning::Partial,
            Beginning::Refused(error) => Beginning::Refused(error),
        }
    }

    /// The message in the last `len` octets that were handed out.
    fn message_before(&self, len: usize) -> Message<&[u8]>
        requires long { header_size ≤ len }
        requires there { len ≤ self.now.start }
        ensures { message_octets result
            ≡ slice_range self.now.buffer.items (self.now.start - len) self.now.start }
    {
        long_message(&self.buffer[self.start - len..self.start])
    }

    /// Makes the buffer long enough for `more` octets after those that are left. If an allocation
    /// fails, it moves these to the start.
    fn lengthen(&mut self, more: usize) -> Result<(), AllocError>
        requires { length (left self.old) + more ≤ limit self.old }
        ensures same_left { left self.new ≡ left self.old }
        ensures same_limit { limit self.new ≡ limit self.old }
        ensures long { OnOk result (self.new.end + more ≤ length self.new.buffer.items) }
        ensures memory { OnErr result (allocated self.old < length (left self.old) + more) }
        ensures never_less { allocated self.old ≤ allocated self.new }
    {
        self.discard(more);
        if self.grow(more).is_ok() {
            return Ok(());
        }
        self.move_to_start();
        self.grow(more)
    }

    /// Moves the octets that are left to the start, if at least as many were handed out, or `more`
    /// octets don't fit after them.
    fn discard(&mut self, more: usize)
        requires { length (left self.old) + more ≤ limit self.old }
        ensures same_left { left self.new ≡ left self.old }
        ensures same_limit { limit self.new ≡ limit self.old }
        ensures same_capacity { allocated self.new ≡ allocated self.old }
        ensures fits { self.new.end + more ≤ limit self.new }
    {
        let len = self.as_slice().len();
        if self.start < len && more <= self.most - self.end {
            return;
        }
        self.move_to_start();
    }

    /// Moves the octets that are left to the start.
    fn move_to_start(&mut self)
        ensures same_left { left self.new ≡ left self.old }
        ensures same_limit { limit self.new ≡ limit self.old }
        ensures same_capacity { allocated self.new ≡ allocated self.old }
        ensures end { self.new.end ≡ length (left self.old) }
    {
        let len = self.as_slice().len();
        self.buffer.copy_within(self.start..self.end, 0);
        self.start = 0;
        self.end = len;
    }

    /// Lengthens the buffer for `more` octets after those that are left.
    fn grow(&mut self, more: usize) -> Result<(), AllocError>
        requires { self.old.end + more ≤ limit self.old }
        ensures same_left { left self.new ≡ left self.old }
        ensures same_limit { limit self.new ≡ limit self.old }
        ensures same_end { self.new.end ≡ self.old.end }
        ensures long { OnOk result (self.new.end + more ≤ length self.new.buffer.items) }
        ensures memory { OnErr result (allocated self.old < self.old.end + more) }
        ensures same_capacity { OnErr result (allocated self.new ≡ allocated self.old) }
        ensures never_less { allocated self.old ≤ allocated self.new }
    {
        let end = self.end + more;
        grow(&mut self.buffer, end, self.most)
    }
}

/// Appends zeros until there are at least `len` octets. If these exceed the capacity, it becomes at
/// least twice the old one, but not more than `most`.
fn grow(buffer: &mut Vec<u8>, len: usize, most: usize) -> Result<(), AllocError>
    requires fits { len ≤ most }
    requires old { vec_capacity buffer.old ≤ most }
    ensures long { OnOk result (len ≤ length buffer.new.items) }
    ensures kept { take (length buffer.old.items) buffer.new.items ≡ buffer.old.items }
    ensures bounded { vec_capacity buffer.new ≤ most }
    ensures memory { OnErr result (vec_capacity buffer.old < len) }
    ensures same_capacity { OnErr result (vec_capacity buffer.new ≡ vec_capacity buffer.old) }
    ensures never_less { vec_capacity buffer.old ≤ vec_capacity buffer.new }
{
    reserve(buffer, len, most)?;
    while buffer.len() < len {
        buffer.push_reserved(0);
    }
    Ok(())
}

/// Raises the capacity to at least `len` octets: to at least twice the old one, but not more than
/// `most`.
fn reserve(buffer: &mut Vec<u8>, len: usize, most: usize) -> Result<(), AllocError>
    requires fits { len ≤ most }
    requires old { vec_capacity buffer.old ≤ most }
    ensures items { buffer.new.items ≡ buffer.old.items }
    ensures long { OnOk result (len ≤ vec_capacity buffer.new) }
    ensures bounded { vec_capacity buffer.new ≤ most }
    ensures memory { OnErr result (vec_capacity buffer.old < len) }
    ensures same_capacity { OnErr result (vec_capacity buffer.new ≡ vec_capacity buffer.old) }
    ensures never_less { vec_capacity buffer.old ≤ vec_capacity buffer.new }
{
    let old = buffer.capacity();
    if len <= old {
        return Ok(());
    }
    let wanted = old.saturating_mul(2).min(most).max(len);
    buffer.reserve_exact(wanted - buffer.len())
}

/// Overwrites octets of the buffer from offset `offset` on.
fn overwrite(buffer: &mut Vec<u8>, offset: usize, octets: &[u8])
    requires { offset + length octets.now ≤ length buffer.old.items }
    ensures items { buffer.new.items ≡ overwritten buffer.old.items offset octets.now }
    ensures same_capacity { vec_capacity buffer.new ≡ vec_capacity buffer.old }
{
    buffer.as_mut_slice()[offset..offset + octets.len()].copy_from_slice(octets);
}
