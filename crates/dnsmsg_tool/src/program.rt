//! The work of the program `dnsmsg`.
ghost use Rattle.std.specs.Prelude.{◌≤◌, OnOk, IfErr};
ghost use Rattle.dnsmsg_tool.specs.ShowDigits.{Shows, IsShowError};

use crate::line::ScriptCall;
use crate::tool_error::ToolError;
use crate::{line, octet_digits, output};
use arrayvec::ArrayVec;
use dns_build::MessageBuilder;
use dns_lines::{print_message, unspaced};
use dns_read::Message;
use dns_script::{Reply, Stage, run};
use dns_target::{HashCompressor, StaticCompressor, TreeCompressor};
use dns_wire::{Composer, StreamTarget};
use std::alloc::{AllocError, Global};
use std::io;
use std::io::{Read, Write};

/// The target that a message is built on.
#[derive(Clone, Copy)]
enum Target {
    /// A vector.
    Plain,
    /// An array of 512 octets.
    Fixed,
    /// A vector that holds the message after its length, as in a stream.
    Stream,
    /// A vector, with names compressed by a `StaticCompressor`.
    Static,
    /// A vector, with names compressed by a `TreeCompressor`.
    Tree,
    /// A vector, with names compressed by a `HashCompressor`.
    Hash,
}

impl Target {
    fn of_word(word: &str) -> Option<Self> {
        match word {
            "plain" => Some(Target::Plain),
            "fixed" => Some(Target::Fixed),
            "stream" => Some(Target::Stream),
            "static" => Some(Target::Static),
            "tree" => Some(Target::Tree),
            "hash" => Some(Target::Hash),
            _ => None,
        }
    }
}

/// What the arguments ask for.
#[derive(Clone, Copy)]
enum Command {
    /// Builds a message on a target.
    Build(Target),
    /// Prints a message.
    Show,
}

impl Command {
    fn of_arguments(args: &[String]) -> Option<Self> {
        match args {
            [verb] if verb.as_str() == "show" => Some(Command::Show),
            [verb, target] if verb.as_str() == "build" => {
                Some(Command::Build(Target::of_word(target.as_str())?))
            }
            _ => None,
        }
    }
}

/// Runs the program `dnsmsg` with these arguments, without the program's name, and returns its exit
/// status.
///
/// `build TARGET` reads a script, builds a message on the target, and prints the replies and the
/// octets. `show` reads a message in hexadecimal digits, and prints its header, counts and items.
///
/// The exit status is 0; 1 if a line of a script can't be read or its call can't be made there, or
/// if the digits are malformed or fewer than 12 octets; 2 for any other arguments; and 3 if reading,
/// writing or an allocation fails. The reply to a push that fails is the reason, and the status is
/// 0.
pub fn tool<R: Read + Drop, W: Write + Drop>(
    alloc: Global,
    args: &[String],
    reader: R,
    writer: W,
) -> u8
    ensures { result ≤ 3 }
{
    let mut reader = reader;
    let mut writer = writer;
    let Err(error) = perform(alloc, args, &mut reader, &mut writer) else {
        return 0;
    };
    if report(error, &mut writer).is_ok() {
        return error.status();
    }
    let _ = report(ToolError::Failed, &mut writer);
    ToolError::Failed.status()
}

/// Prints the line that reports an error.
fn report<W: Write>(error: ToolError, writer: &mut W) -> io::Result<()> {
    error.print(writer)?;
    writer.flush()
}

fn perform<R: Read, W: Write>(
    alloc: Global,
    args: &[String],
    reader: &mut R,
    writer: &mut W,
) -> Result<(), ToolError> {
    let Some(command) = Command::of_arguments(args) else {
        return Err(ToolError::Usage);
    };
    let mut input = Vec::new(alloc);
    reader.read_to_end(&mut input)?;
    match command {
        Command::Build(target) => build_over(alloc, target, &input, writer)?,
        Command::Show => show_digits(alloc, &input, writer)?,
    }
    writer.flush()?;
    Ok(())
}

/// Prints the message that is given in hexadecimal digits.
fn show_digits<W: Write>(alloc: Global, digits: &[u8], writer: &mut W) -> Result<(), ToolError>
    ensures shows { OnOk result (Shows digits.now (W.contents writer.old)
        (W.contents writer.new)) }
    ensures error { IfErr result (IsShowError digits.now) }
{
    let digits = unspaced(alloc, digits)?;
    let Some(octets) = octet_digits::octets(alloc, &digits)? else {
        return Err(ToolError::BadHex);
    };
    let Ok(message) = Message::from_slice(&octets) else {
        return Err(ToolError::ShortMessage);
    };
    print_message(writer, &message)?;
    Ok(())
}

/// Builds a message as a script says, on a target of this kind, and prints the replies and the
/// octets.
fn build_over<W: Write>(
    alloc: Global,
    target: Target,
    script: &[u8],
    writer: &mut W,
) -> Result<(), ToolError> {
    match target {
        Target::Plain => print_build(alloc, Vec::new(alloc), script, writer),
        Target::Fixed => print_build(alloc, ArrayVec::<u8, 512>::new(), script, writer),
        Target::Stream => {
            let built = build(alloc, StreamTarget::new_vec(alloc)?, script, writer)?;
            output::print_octets(alloc, writer, built.as_stream_slice())?;
            Ok(())
        }
        Target::Static => {
            let target = StaticCompressor::new(Vec::new(alloc));
            print_build(alloc, target, script, writer)
        }
        Target::Tree => {
            let target = TreeCompressor::new(alloc, Vec::new(alloc));
            print_build(alloc, target, script, writer)
        }
        Target::Hash => {
            let target = HashCompressor::new(alloc, Vec::new(alloc));
            print_build(alloc, target, script, writer)
        }
    }
}

/// Builds a message as a script says, and prints the replies and the octets.
fn print_build<T: Composer, W: Write>(
    alloc: Global,
    target: T,
    script: &[u8],
    writer: &mut W,
) -> Result<(), ToolError> {
    let built = build(alloc, target, script, writer)?;
    output::print_octets(alloc, writer, built.as_slice())?;
    Ok(())
}

/// Builds a message as a script says, prints the replies, and returns the target that holds the
/// message.
fn build<T: Composer, W: Write>(
    alloc: Global,
    target: T,
    script: &[u8],
    writer: &mut W,
) -> Result<T, ToolError> {
    let mut stage = Stage::Builder(MessageBuilder::from_target(target)?);
    let mut replies = Vec::new(alloc);
    let lines = script.split_inclusive(|octet| *octet == b'\n');
    for (number, line) in (1..=usize::MAX).zip(lines) {
        let line = line.strip_suffix(b"\n").unwrap_or(line);
        if !line::is_skipped_line(line) {
            stage = follow(alloc, stage, number, line, &mut replies, writer)?;
        }
    }
    Ok(stage.finish())
}

/// Makes the call of a line, and prints the reply. `replies` is a buffer for it.
fn follow<T: Composer, W: Write>(
    alloc: Global,
    stage: Stage<T>,
    number: usize,
    line: &[u8],
    replies: &mut Vec<Reply>,
    writer: &mut W,
) -> Result<Stage<T>, ToolError> {
    let Some(call) = line::call_of(alloc, &stage, line)? else {
        return Err(ToolError::BadLine(number));
    };
    let (stage, reply) = make(alloc, stage, call, replies)?;
    print_reply(writer, reply, number, stage.as_slice().len())?;
    Ok(stage)
}

/// Prints the reply to the call of a line, after which the message has `len` octets. A misplaced
/// call is a bad line.
fn print_reply<W: Write>(
    writer: &mut W,
    reply: Reply,
    number: usize,
    len: usize,
) -> Result<(), ToolError> {
    match reply {
        Reply::Done => output::print_done(writer, len)?,
        Reply::Refused(error) => output::print_refused(writer, error, len)?,
        Reply::Misplaced => return Err(ToolError::BadLine(number)),
    }
    Ok(())
}

/// Makes one call and returns the reply, which is then the only one in `replies`.
fn make<T: Composer>(
    alloc: Global,
    stage: Stage<T>,
    call: ScriptCall,
    replies: &mut Vec<Reply>,
) -> Result<(Stage<T>, Reply), AllocError> {
    replies.clear();
    match run(alloc, stage, &[call], replies) {
        Ok(stage) => Ok((stage, replies[0])),
        Err(_) => Err(AllocError),
    }
}
