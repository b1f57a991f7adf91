//! What `dnsview` prints to standard error if something fails: printable ASCII, whatever the reason
//! is.
use dnsview_tool::{print_unopened, tool};
use std::alloc::Global;
use std::io;
use std::io::{Read, Write};
use std::process::Abort;

/// Why something fails, with an octet outside ASCII, an escape and a line feed.
const REASON: &str = "no \u{e9}\x1b\n";

/// Input that can't be read, and output that can't be written.
#[derive(Drop)]
struct Broken;

impl Read for Broken {
    fn read(&mut self, _buf: &mut [u8]) -> io::Result<usize> {
        Err(io::Error::other(REASON))
    }
}

impl Write for Broken {
    fn write(&mut self, _buf: &[u8]) -> io::Result<usize> {
        Err(io::Error::other(REASON))
    }

    fn flush(&mut self) -> io::Result<()> {
        Err(io::Error::other(REASON))
    }
}

#[test]
fn says_which_file_cannot_be_opened(rt: HostRuntime) {
    let mut errors = Vec::new(rt.alloc());
    print_unopened(
        rt.alloc(),
        &mut errors,
        "a \"b\"\n",
        &io::Error::other(REASON),
    )
    .expect(&rt, "memory");
    let expected = b"dnsview: can't open \"a \\\"b\\\"\\010\": no \\195\\169\\027\\010\n";
    assert_eq!(rt; errors.as_slice(), expected.as_slice());
}

/// Fails unless `dnsview` with these arguments ends with status 3, and says this.
fn assert_fails<R: Read, W: Write>(
    rt: &impl Abort,
    alloc: Global,
    words: &[String],
    input: &mut R,
    output: &mut W,
    expected: &[u8],
) {
    let mut errors = Vec::new(alloc);
    let status = tool(alloc, words, input, output, &mut errors).expect(rt, "memory");
    assert_eq!(rt; (status, errors.as_slice()), (3, expected));
}

#[test]
fn says_that_reading_failed(rt: HostRuntime) {
    let alloc = rt.alloc();
    let mut output = Vec::new(alloc);
    let expected = b"dnsview: reading failed: no \\195\\169\\027\\010\n";
    assert_fails(&rt, alloc, &[], &mut Broken, &mut output, expected);
    assert!(rt; output.is_empty());
}

/// By the view without arguments, and by each other one.
#[test]
fn says_that_printing_failed(rt: HostRuntime) {
    let alloc = rt.alloc();
    let expected = b"dnsview: printing failed: no \\195\\169\\027\\010\n";
    let digits = b"000000000000000100000000";
    assert_fails(
        &rt,
        alloc,
        &[],
        &mut digits.as_slice(),
        &mut Broken,
        expected,
    );
    for view in ["--short", "--html", "--json", "--dig"] {
        let word = [String::from_str(alloc, view).expect(&rt, "memory")];
        assert_fails(
            &rt,
            alloc,
            &word,
            &mut digits.as_slice(),
            &mut Broken,
            expected,
        );
    }
}

/// A failure of standard error itself is the caller's.
#[test]
fn fails_if_standard_error_does(rt: HostRuntime) {
    let mut input = b"0".as_slice();
    let mut output = Vec::new(rt.alloc());
    let ended = tool(rt.alloc(), &[], &mut input, &mut output, &mut Broken);
    assert!(rt; ended.is_err());
}
