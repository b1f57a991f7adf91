//! OPT records whose closure pushes an option, or returns an error.
use crate::asserts::{assert_holds, assert_octets};
use crate::memory::again::{is_refused, octets_before};
use crate::memory::fresh::{Fresh, started};
use dns_message::builder::{AdditionalBuilder, PushError};
use dns_message::code::{OptRcode, OptionCode, Rcode};
use dns_message::target::Composer;
use dns_message::wire::AppendError;
use std::alloc::Global;
use std::process::Abort;

/// An OPT record with one option.
const ONE_OPTION: &[u8] =
    b"\x00\x00\x00\x00\x00\x00\x00\x00\x00\x00\x00\x01\x00\x00\x29\x10\x00\x00\x00\x00\x00\x00\x0B\x00\x03\x00\x07example";

fn push_option<T: Composer>(
    alloc: Global,
    builder: &mut AdditionalBuilder<T>,
) -> Result<(), PushError> {
    builder.opt(alloc, |opt| {
        opt.set_udp_payload_size(4096);
        opt.push_raw_option(OptionCode::from_int(3), b"example")
    })
}

/// Fails unless the message with this option is `ONE_OPTION`.
pub(crate) fn assert_option<R: Abort, T: Fresh>(rt: &R, alloc: Global) {
    let mut builder: AdditionalBuilder<T> = started(rt, alloc).additional();
    let before = octets_before(rt, &builder);
    if is_refused(push_option(alloc, &mut builder)) {
        assert_octets(rt, "refused call", builder.as_slice(), &before);
        push_option(alloc, &mut builder).expect(rt, "option");
    }
    assert_octets(rt, "OPT with one option", builder.as_slice(), ONE_OPTION);
}

/// Checks that nothing changes if the closure returns an error, and that this error is returned.
pub(crate) fn assert_error<R: Abort, T: Fresh>(rt: &R, alloc: Global) {
    let mut builder: AdditionalBuilder<T> = started(rt, alloc).additional();
    let answer = builder.opt(alloc, |opt| {
        opt.set_rcode(OptRcode::from(Rcode::NXDOMAIN));
        Err(AppendError::ShortBuf)
    });
    let is_reported = matches!(answer, Err(PushError::ShortBuf));
    assert_holds(rt, "Closure that errs: its error", is_reported);
    assert_octets(rt, "Closure that errs", builder.as_slice(), &[0; 12]);
}
