//! Conversions of messages between types of octets.
ghost use Rattle.std.specs.Prelude.{◌≡◌, ◌<◌, length, ⊤};
ghost use Rattle.dns_octets.specs.Converts.{Converts};
ghost use Rattle.dns_read.specs.Message.{message_octets};

use crate::message::Message;
use arrayvec::ArrayVec;
use dns_octets::{AppendError, Octets, OctetsFrom};
use std::alloc::Global;

fn vec_message<S: Octets>(
    alloc: Global,
    source: &Message<S>,
) -> Result<Message<Vec<u8>>, AppendError>
    ensures { Converts result (λ message. message_octets message ≡ message_octets source.now) ⊥ ⊤ }
{
    let octets = Vec::from_slice(alloc, source.as_slice())?;
    Ok(Message::from_octets_unchecked(octets))
}

fn array_message<S: Octets, const N: usize>(
    source: &Message<S>,
) -> Result<Message<ArrayVec<u8, N>>, AppendError>
    ensures { Converts result (λ message. message_octets message ≡ message_octets source.now)
        (N < length (message_octets source.now)) ⊥ }
{
    let Ok(octets) = ArrayVec::try_from(source.as_slice()) else {
        return Err(AppendError::ShortBuf);
    };
    Ok(Message::from_octets_unchecked(octets))
}

impl<S: Octets> OctetsFrom<Message<S>> for Message<Vec<u8>> {
    ghost keeps = { λ source message. message_octets message ≡ message_octets source };

    ghost too_long = { λ _. ⊥ };

    ghost takes_memory = { ⊤ };

    fn try_octets_from(alloc: Global, source: Message<S>) -> Result<Self, AppendError> {
        vec_message(alloc, &source)
    }
}

impl<S: Octets> OctetsFrom<&Message<S>> for Message<Vec<u8>> {
    ghost keeps = { λ source message. message_octets message ≡ message_octets source.now };

    ghost too_long = { λ _. ⊥ };

    ghost takes_memory = { ⊤ };

    fn try_octets_from(alloc: Global, source: &Message<S>) -> Result<Self, AppendError> {
        vec_message(alloc, source)
    }
}

impl<S: Octets, const N: usize> OctetsFrom<Message<S>> for Message<ArrayVec<u8, N>> {
    ghost keeps = { λ source message. message_octets message ≡ message_octets source };

    ghost too_long = { λ source. N < length (message_octets source) };

    ghost takes_memory = { ⊥ };

    fn try_octets_from(_alloc: Global, source: Message<S>) -> Result<Self, AppendError> {
        array_message(&source)
    }
}

impl<S: Octets, const N: usize> OctetsFrom<&Message<S>> for Message<ArrayVec<u8, N>> {
    ghost keeps = { λ source message. message_octets message ≡ message_octets source.now };

    ghost too_long = { λ source. N < length (message_octets source.now) };

    ghost takes_memory = { ⊥ };

    fn try_octets_from(_alloc: Global, source: &Message<S>) -> Result<Self, AppendError> {
        array_message(source)
    }
}

impl<'a, S: Octets> OctetsFrom<&'a Message<S>> for Message<&'a [u8]> {
    ghost keeps = { λ source message. message_octets message ≡ message_octets source.now };

    ghost too_long = { λ _. ⊥ };

    ghost takes_memory = { ⊥ };

    fn try_octets_from(_alloc: Global, source: &'a Message<S>) -> Result<Self, AppendError> {
        Ok(source.for_slice_ref())
    }
}

impl<'a> OctetsFrom<Message<&'a [u8]>> for Message<&'a [u8]> {
    ghost keeps = { λ source message. message_octets message ≡ message_octets source };

    ghost too_long = { λ _. ⊥ };

    ghost takes_memory = { ⊥ };

    fn try_octets_from(_alloc: Global, source: Message<&'a [u8]>) -> Result<Self, AppendError> {
        Ok(source)
    }
}
