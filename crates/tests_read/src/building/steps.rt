//! Steps on a builder, each with its result and the octets that it has to write. They work over any
//! target.
use crate::asserts::assert_holds;
use crate::building::asserts::{name_of, over};
use dns_build::{Builder, MessageBuilder, PushError, QuestionBuilder, RecordStage};
use dns_code::{Header, Rtype};
use dns_data::{A, Ns, UnknownRecordData};
use dns_wire::{Composer, ToName};
use std::process::Abort;

/// The result of a call: `Done`, or the error.
pub(crate) enum Answer {
    Done,
    ShortBuf,
    LimitExceeded,
}

/// The result of a push.
pub(crate) type Pushed = Result<(), PushError>;

/// A call at a section of records.
pub(crate) enum Call {
    /// Pushes an address of a name with a TTL in seconds.
    Address(&'static [u8], u32, [u8; 4]),
    /// Pushes an NS record of a name with a TTL in seconds.
    Server(&'static [u8], u32, &'static [u8]),
    /// Pushes a record of a name with this number of octets of opaque data.
    Opaque(&'static [u8], usize),
    /// Sets the limit.
    Limit(usize),
    /// Removes the limit.
    NoLimit,
}

/// A call, its result, the length of the message after it, and the first octets that it appends.
pub(crate) type Step<C> = (C, Answer, usize, &'static [u8]);

/// A header, and the calls at each section. At the question section they push questions for the A
/// records of a name.
#[derive(Drop)]
pub(crate) struct Case {
    pub(crate) name: &'static str,
    pub(crate) header: [u8; 4],
    pub(crate) questions: &'static [Step<&'static [u8]>],
    pub(crate) answers: &'static [Step<Call>],
    pub(crate) authorities: &'static [Step<Call>],
    pub(crate) additionals: &'static [Step<Call>],
    /// The first octets of the message after the calls: at least its header and counts.
    pub(crate) start: &'static [u8],
}

/// No call.
pub(crate) const EMPTY: Case = Case {
    name: "Empty message",
    header: [0; 4],
    questions: &[],
    answers: &[],
    authorities: &[],
    additionals: &[],
    start: &[0; 12],
};

/// Whether a push had this result.
fn gave(pushed: Pushed, answer: &Answer) -> bool {
    match answer {
        Answer::Done => pushed.is_ok(),
        Answer::ShortBuf => matches!(pushed, Err(PushError::ShortBuf)),
        Answer::LimitExceeded => matches!(pushed, Err(PushError::LimitExceeded)),
    }
}

/// Pushes a question.
pub(crate) fn push_question<T: Composer, N: ToName + Drop>(
    builder: &mut QuestionBuilder<T>,
    qname: N,
    qtype: Rtype,
) -> Pushed {
    builder.push((qname, qtype))
}

/// Pushes a record with `count` octets of opaque data, at most 65,513.
fn push_opaque<T: Composer, S: RecordStage>(
    rt: &impl Abort,
    builder: &mut Builder<T, S>,
    owner: &[u8],
    count: usize,
) -> Pushed {
    let zeros = [0; 65_513];
    let octets = zeros.get(..count).expect(rt, "octets");
    let data = UnknownRecordData::from_octets(Rtype::TXT, octets).expect(rt, "data");
    builder.push((name_of(rt, owner), 3600, data))
}

/// Makes a call at a section of records.
fn make_one<T: Composer, S: RecordStage>(
    rt: &impl Abort,
    builder: &mut Builder<T, S>,
    call: &Call,
) -> Pushed {
    match call {
        Call::Address(owner, seconds, [first, second, third, last]) => {
            let address = A::from_octets(*first, *second, *third, *last);
            return builder.push((name_of(rt, owner), *seconds, address));
        }
        Call::Server(owner, seconds, server) => {
            let server = Ns::new(name_of(rt, server));
            return builder.push((name_of(rt, owner), *seconds, server));
        }
        Call::Opaque(owner, count) => return push_opaque(rt, builder, owner, *count),
        Call::Limit(limit) => builder.set_push_limit(*limit),
        Call::NoLimit => builder.clear_push_limit(),
    }
    Ok(())
}

/// Checks a call of a case on a message of `old` octets: its result, and the octets after it.
fn assert_step<C>(
    rt: &impl Abort,
    row: &str,
    (_, answer, len, start): &Step<C>,
    given: Pushed,
    old: usize,
    octets: &[u8],
) {
    let appended = octets.get(old..).unwrap_or(b"");
    let holds = gave(given, answer) && octets.len() == *len && appended.starts_with(start);
    assert!(rt; holds, "{row}, at the length {len}");
}

/// Makes the calls of a case at the question section.
fn ask_all<T: Composer>(rt: &impl Abort, builder: &mut QuestionBuilder<T>, case: &Case) {
    for step in case.questions {
        let old = builder.as_slice().len();
        let given = push_question(builder, name_of(rt, step.0), Rtype::A);
        assert_step(rt, case.name, step, given, old, builder.as_slice());
    }
}

/// Makes the calls of a case at a section of records.
fn make_all<T: Composer, S: RecordStage>(
    rt: &impl Abort,
    row: &str,
    builder: &mut Builder<T, S>,
    steps: &[Step<Call>],
) {
    for step in steps {
        let old = builder.as_slice().len();
        let given = make_one(rt, builder, &step.0);
        assert_step(rt, row, step, given, old, builder.as_slice());
    }
}

/// Makes the calls of a case on a builder without items. Returns the target.
pub(crate) fn run_on<T: Composer>(rt: &impl Abort, builder: MessageBuilder<T>, case: &Case) -> T {
    let row = case.name;
    let mut builder = builder.question();
    builder.set_header(Header::for_message_slice(&case.header));
    ask_all(rt, &mut builder, case);
    let mut builder = builder.answer();
    make_all(rt, row, &mut builder, case.answers);
    let mut builder = builder.authority();
    make_all(rt, row, &mut builder, case.authorities);
    let mut builder = builder.additional();
    make_all(rt, row, &mut builder, case.additionals);
    assert_holds(rt, row, builder.as_slice().starts_with(case.start));
    builder.finish()
}

/// Makes the calls of a case on a target.
pub(crate) fn run<T: Composer>(rt: &impl Abort, target: T, case: &Case) {
    run_on(rt, over(rt, target), case);
}
