//! Theorems on the frames of a stream, and on errors. The functions do nothing: each contract is a
//! theorem.
ghost use Rattle.std.specs.Prelude.{◌≡◌, ◌+◌, ◌↔◌, IsTrue};
ghost use Rattle.dns_wire.specs.Stream.{most_octets};
ghost use Rattle.dns_stream.specs.Laws.{CallsGiveFrames, CallsTakeFrames, FramesAreRead, NeverBoth, NoneLeavesCapacity, OneFrame, OneFraming, PartialLacksOctets, PiecesDontMatter, SomeFraming, TargetsHoldFrames, TargetsHoldMessages};

use crate::error::FrameError;
use crate::frames::MAX_FRAME;

/// Any octets are the frames of some messages, followed by less than a frame, and of no other
/// messages.
pub fn frames_are_one()
    ensures some { SomeFraming }
    ensures one { OneFraming }
{}

/// After any calls of `push` and `next`, the messages that were handed out, followed by those of
/// the octets that are left, are the messages of all octets that were pushed. So it doesn't matter
/// how the octets were cut into pieces, nor when messages were taken, nor whether an error ends the
/// messages.
pub fn calls_give_frames()
    ensures taken { CallsTakeFrames }
    ensures frames { CallsGiveFrames }
    ensures pieces { PiecesDontMatter }
{}

/// A complete frame is read: octets that begin with the frame of a message are accepted if the
/// message has at least 12 octets and the frame isn't longer than the reader stores, and they begin
/// with no other frame. So `next` and `first_message` then return this message.
pub fn frames_are_read()
    ensures read { FramesAreRead }
    ensures one { OneFrame }
{}

/// What a stream target holds is the frame of its content. What several hold, one after the other,
/// are the frames of their contents.
pub fn targets_hold_frames()
    ensures one { TargetsHoldFrames }
    ensures all { TargetsHoldMessages }
{}

/// Octets are less than a frame exactly if octets of the frame are missing. If `next` returned
/// `None`, a further octet can be pushed.
pub fn partial_frames_can_grow()
    ensures missing { PartialLacksOctets }
    ensures capacity { NoneLeavesCapacity }
{}

/// No length is both accepted and refused. So `next` and `first_message` succeed exactly where it
/// is accepted, and return an error exactly where it is refused, with that error.
pub fn never_both()
    ensures { NeverBoth }
{}

/// The constant is the length of a frame with the longest message.
pub fn frame_length()
    ensures { MAX_FRAME ≡ 2 + most_octets }
{}

/// Two errors are equal if and only if they are the same.
pub fn error_equality()
    ensures { (a b : _) → IsTrue (⟦<FrameError as PartialEq>⟧.eq a b) ↔ (a ≡ b) }
{}

/// A clone of an error is the same, and cloning never fails.
pub fn error_clone()
    ensures same { (a b : _) → ⟦<FrameError as Clone>⟧.is_clone a b → b ≡ a }
    ensures always { (a : _) → ⟦<FrameError as Clone>⟧.is_infallible a }
{}
