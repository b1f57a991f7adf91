//! OPT records that are pushed (RFC 6891 section 6.1).
use crate::asserts::{assert_holds, assert_octets, message_of};
use crate::building::asserts::over;
use dns_build::{AdditionalBuilder, OptBuilder, PushError};
use dns_code::{OptRcode, OptionCode, Rcode};
use dns_data::UnknownOptData;
use dns_target::StreamTarget;
use dns_wire::{AppendError, Composer};
use std::alloc::Global;
use std::process::Abort;

/// A builder at the additional section of an empty message.
fn additional<T: Composer>(rt: &impl Abort, target: T) -> AdditionalBuilder<T> {
    over(rt, target).additional()
}

/// Pushes the record that a closure gathers. From offset `first` on, the message has these octets
/// then.
fn assert_pushed<F: FnOnce(&mut OptBuilder) -> Result<(), AppendError>>(
    rt: &impl Abort,
    alloc: Global,
    row: &str,
    gather: F,
    first: usize,
    expected: &[u8],
)
    requires { F.IsAlwaysCallable gather }
{
    let mut builder = additional(rt, Vec::new(alloc));
    builder.opt(alloc, gather).expect(rt, row);
    let octets = builder.as_slice().get(first..).unwrap_or(b"");
    assert_octets(rt, row, octets, expected);
}

/// One record: the root, type 41, class 4096, TTL 0, and one option of code 3.
static ONE_OPTION: [u8; 34] =
    *b"\x00\x00\x00\x00\x00\x00\x00\x00\x00\x00\x00\x01\x00\x00\x29\x10\x00\x00\x00\x00\x00\x00\x0b\x00\x03\x00\x07example";

/// The options NSID, DAU with the algorithms 8 and 13, EXPIRE and a keepalive timeout of 30
/// seconds.
static KNOWN: [u8; 20] =
    *b"\x00\x03\x00\x00\x00\x05\x00\x02\x08\x0d\x00\x09\x00\x00\x00\x0b\x00\x02\x01\x2c";

#[test]
fn pushes_options(rt: HostRuntime) {
    let alloc = rt.alloc();
    let option = UnknownOptData::new(OptionCode::from_int(3), b"example".as_slice());
    let option = option.expect(&rt, "an option");
    let gather = |opt: &mut OptBuilder| {
        opt.set_udp_payload_size(4096);
        opt.push(&option)
    };
    let row = "OPT with one option, typed";
    assert_pushed(&rt, alloc, row, gather, 0, &ONE_OPTION);
    let gather = |opt: &mut OptBuilder| {
        opt.client_nsid()?;
        opt.dau(&[8, 13])?;
        opt.expire(None)?;
        opt.tcp_keepalive(Some(300))
    };
    assert_pushed(&rt, alloc, "Several known options", gather, 23, &KNOWN);
}

/// Adds an option, with which there are 65,535 octets of options, and ignores that one more is
/// refused.
fn fill(opt: &mut OptBuilder, octets: &[u8]) -> Result<(), AppendError> {
    opt.push_raw_option(OptionCode::from_int(65_001), octets)?;
    match opt.push_raw_option(OptionCode::from_int(65_001), b"") {
        Err(AppendError::ShortBuf) => Ok(()),
        _ => Err(AppendError::OutOfMemory),
    }
}

/// The first octets of a message with one OPT record, whose only option has 65,531 octets, the most
/// after its code and length.
static MOST_OPTIONS: [u8; 27] =
    *b"\x00\x00\x00\x00\x00\x00\x00\x00\x00\x00\x00\x01\x00\x00\x29\x00\x00\x00\x00\x00\x00\xFF\xFF\xFD\xE9\xFF\xFB";

/// Most options: one of 65,531 octets, and none after it. Most options on a stream: that is too long
/// there, and nothing changes.
#[test]
fn pushes_the_most_options(rt: HostRuntime) {
    let octets = [0; 65_531];
    let mut builder = additional(&rt, Vec::new(rt.alloc()));
    let pushed = builder.opt(rt.alloc(), |opt| fill(opt, &octets));
    pushed.expect(&rt, "memory");
    let message = builder.as_slice();
    let is_it = message.len() == 65_558 && message.starts_with(&MOST_OPTIONS);
    assert_holds(&rt, "Most options", is_it);
    let target = StreamTarget::new_vec(rt.alloc()).expect(&rt, "memory");
    let mut builder = additional(&rt, target);
    let refused = builder.opt(rt.alloc(), |opt| fill(opt, &octets)).err();
    let row = "Most options on a stream";
    assert_holds(&rt, row, matches!(refused, Some(PushError::ShortBuf)));
    let empty = b"\x00\x0c\x00\x00\x00\x00\x00\x00\x00\x00\x00\x00\x00\x00";
    assert_octets(&rt, row, builder.as_target().as_stream_slice(), empty);
}

/// A message with one OPT record: a UDP payload size of 512 octets, DO, one bit of Z and one option.
static SOURCE: [u8; 28] =
    *b"\x00\x00\x00\x00\x00\x00\x00\x00\x00\x00\x00\x01\x00\x00\x29\x02\x00\x00\x00\x80\x01\x00\x05\x00\x03\x00\x01a";

/// The same with the rcode 3, the lower bits of the rcode 19, in the header.
static CLONED: [u8; 28] =
    *b"\x00\x00\x00\x03\x00\x00\x00\x00\x00\x00\x00\x01\x00\x00\x29\x02\x00\x00\x00\x80\x01\x00\x05\x00\x03\x00\x01a";

#[test]
fn takes_the_fields_of_a_record(rt: HostRuntime) {
    let source = message_of(&rt, &SOURCE);
    let record = source.opt().expect(&rt, "an OPT record");
    let gather = |opt: &mut OptBuilder| {
        opt.set_rcode(OptRcode::from_parts(Rcode::NXDOMAIN, 1));
        opt.push_raw_option(OptionCode::from_int(10), b"dropped")?;
        opt.clone_from(&record)
    };
    assert_pushed(&rt, rt.alloc(), "Clone from a record", gather, 0, &CLONED);
}
