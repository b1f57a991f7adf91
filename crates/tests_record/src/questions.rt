//! Questions: composed of tuples, and errors. Their texts are in the cases of `cases_rdata`.
use crate::asserts::{assert_holds, assert_prints, assert_question};
use dns_code::{Class, Rtype};
use dns_item::Question;
use dns_item::question::{FromStrError, PresentationError};
use dns_wire::{Name, ToName, name};
use std::process::Abort;

#[test]
fn converts_errors(rt: HostRuntime) {
    let fault = name::PresentationError::LongName;
    let error = PresentationError::from(fault);
    let presentation = FromStrError::from(name::FromStrError::Presentation(fault));
    let is_same = presentation == FromStrError::Presentation(error);
    assert_holds(&rt, "an error of a name, in a text", is_same);
    let short = FromStrError::from(name::FromStrError::ShortBuf);
    assert_prints(&rt, rt.alloc(), "capacity", &short, "buffer size exceeded");
    let memory = FromStrError::from(name::FromStrError::OutOfMemory);
    assert_prints(&rt, rt.alloc(), "memory", &memory, "out of memory");
}

/// Fails unless tuples of the root, and questions made of tuples, have the octets of questions.
fn assert_tuples<N: ToName + Copy>(rt: &impl Abort, root: N) {
    let triple = (root, Rtype::NS, Class::CH);
    assert_question(rt, "triple", &triple, b"\x00\x00\x02\x00\x03");
    assert_question(rt, "pair", &(root, Rtype::SOA), b"\x00\x00\x06\x00\x01");
    let question = Question::from((root, Rtype::MX, Class::HS));
    assert_question(rt, "of a triple", &question, b"\x00\x00\x0f\x00\x04");
    let question = Question::from((root, Rtype::TXT));
    assert_question(rt, "of a pair", &&question, b"\x00\x00\x10\x00\x01");
}

#[test]
fn composes_tuples(rt: HostRuntime) {
    assert_tuples(&rt, Name::root_slice());
}
