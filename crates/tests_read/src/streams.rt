//! Messages on a stream that comes in pieces, as over TCP (RFC 1035 section 4.2.2).
use crate::asserts::{assert_holds, assert_octets};
use dns_stream::{FrameError, MAX_FRAME, StreamReader, first_message, missing_octets};
use dns_wire::AppendError;
use std::process::Abort;

/// A query for the address of example.com, a header section alone, and a query for the name servers
/// of the root.
const MESSAGES: [&[u8]; 3] = [
    b"\x12\x34\x01\x00\x00\x01\x00\x00\x00\x00\x00\x00\x07example\x03com\x00\x00\x01\x00\x01",
    b"\x12\x35\x80\x02\x00\x00\x00\x00\x00\x00\x00\x00",
    b"\x12\x36\x00\x00\x00\x01\x00\x00\x00\x00\x00\x00\x00\x00\x02\x00\x01",
];

/// These, each after its length: 29, 12 and 17 octets.
const STREAM: &[u8; 64] =
    b"\x00\x1D\x12\x34\x01\x00\x00\x01\x00\x00\x00\x00\x00\x00\x07example\x03com\x00\x00\x01\x00\x01\x00\x0C\x12\x35\x80\x02\x00\x00\x00\x00\x00\x00\x00\x00\x00\x11\x12\x36\x00\x00\x00\x01\x00\x00\x00\x00\x00\x00\x00\x00\x02\x00\x01";

/// Pushes a piece and takes the messages that are complete then: those of `MESSAGES` from index
/// `from` on. Returns the index of the next one.
fn push_piece(
    rt: &impl Abort,
    row: &str,
    reader: &mut StreamReader,
    piece: &[u8],
    from: usize,
) -> usize {
    reader.push(piece).expect(rt, row);
    for index in from..MESSAGES.len() {
        match reader.next().expect(rt, row) {
            Some(message) => assert_octets(rt, row, message.as_slice(), MESSAGES[index]),
            None => return index,
        }
    }
    MESSAGES.len()
}

/// Every way to cut the stream into three pieces, of which some may be empty.
#[test]
fn reads_any_three_pieces(rt: HostRuntime) {
    let row = "three pieces";
    for end in 0..=STREAM.len() {
        let (before, last) = STREAM.split_at(end);
        for middle in 0..=before.len() {
            let (first, second) = before.split_at(middle);
            let mut reader = StreamReader::new(rt.alloc(), MAX_FRAME);
            let taken = push_piece(&rt, row, &mut reader, first, 0);
            let taken = push_piece(&rt, row, &mut reader, second, taken);
            let taken = push_piece(&rt, row, &mut reader, last, taken);
            assert_holds(&rt, row, taken == 3 && reader.is_empty());
        }
    }
}

/// A name, the number of octets that a reader stores, octets that are less than an accepted frame,
/// the error, and the number of octets that are missing.
type Row = (
    &'static str,
    usize,
    &'static [u8],
    Option<FrameError>,
    usize,
);

const ROWS: [Row; 11] = [
    ("no octet", MAX_FRAME, b"", None, 2),
    ("half a length", MAX_FRAME, b"\x00", None, 1),
    ("the length 12", MAX_FRAME, b"\x00\x0C", None, 12),
    ("the length 3,072", MAX_FRAME, b"\x0C\x00", None, 3_072),
    ("the length 65,535", MAX_FRAME, b"\xFF\xFF", None, 65_535),
    (
        "one octet less",
        MAX_FRAME,
        b"\x00\x0C\x12\x35\x80\x02\x00\x00\x00\x00\x00\x00\x00",
        None,
        1,
    ),
    (
        "the length 11",
        MAX_FRAME,
        b"\x00\x0B",
        Some(FrameError::Short),
        11,
    ),
    (
        "the length 0",
        MAX_FRAME,
        b"\x00\x00\x00\x0C",
        Some(FrameError::Short),
        0,
    ),
    ("a frame as long as accepted", 14, b"\x00\x0C", None, 12),
    (
        "one octet longer",
        14,
        b"\x00\x0D",
        Some(FrameError::Long),
        13,
    ),
    (
        "short and long",
        12,
        b"\x00\x0B",
        Some(FrameError::Short),
        11,
    ),
];

/// The length of what a reader has pushed, twice since an error stays, and of octets of the caller.
#[test]
fn reports_lengths(rt: HostRuntime) {
    for (row, most, octets, error, missing) in ROWS {
        let mut reader = StreamReader::new(rt.alloc(), most);
        reader.push(octets).expect(&rt, row);
        let errors = [
            reader.next().err(),
            reader.next().err(),
            first_message(octets, most).err(),
        ];
        let lengths = [reader.missing_octets(), missing_octets(octets)];
        let is_reported = errors == [error; 3] && lengths == [missing; 2];
        assert_holds(&rt, row, is_reported && reader.as_slice() == octets);
    }
    let (short, long) = (FrameError::Short, FrameError::Long);
    let texts = format!(in rt.alloc(); "{short}, {long}").expect(&rt, "memory");
    assert_holds(
        &rt,
        "texts",
        texts.as_str() == "short message, long message",
    );
}

/// A push that exceeds what the reader stores appends nothing, and loses nothing.
#[test]
fn refuses_what_exceeds_it(rt: HostRuntime) {
    let (frame, after) = STREAM.split_at(31);
    let mut reader = StreamReader::new(rt.alloc(), 40);
    reader.push(frame).expect(&rt, "a frame");
    let refused = reader.push(&after[..10]).err();
    let is_same = refused == Some(AppendError::ShortBuf) && reader.as_slice() == frame;
    assert_holds(&rt, "ten octets more", is_same);
    let taken = push_piece(&rt, "nine octets more", &mut reader, &after[..9], 0);
    let taken = push_piece(&rt, "the other octets", &mut reader, &after[9..], taken);
    reader.push(frame).expect(&rt, "a further frame");
    reader.clear();
    let is_clear = reader.is_empty() && reader.spare_capacity() == 40 && reader.capacity() == 40;
    assert_holds(&rt, "all messages", taken == 3 && is_clear);
}

/// The messages of a buffer of the caller, one after the other.
#[test]
fn takes_messages_of_a_buffer(rt: HostRuntime) {
    let mut rest = STREAM.as_slice();
    for message in MESSAGES {
        let first = first_message(rest, MAX_FRAME).expect(&rt, "a length");
        let (found, after) = first.expect(&rt, "a frame");
        assert_octets(&rt, "a message", found.as_slice(), message);
        rest = after;
    }
    assert_holds(&rt, "no octet after the messages", rest.is_empty());
}
