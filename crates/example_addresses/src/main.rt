//! The program `example_addresses` prints the addresses in the answer section of a message:
//!
//!     example_addresses < DIGITS
//!
//! It reads the message from standard input as hexadecimal digits, and refuses one that isn't
//! regular: its names may be dear to read. The contract of `print_addresses` says what it prints.
#![tactic(auto)]

ghost use Rattle.std.specs.Io.KnownBytes.{Appends};
ghost use Rattle.std.specs.Prelude.{OnOk};
ghost use Rattle.dns_message.specs.Messages.{message_octets};
ghost use Rattle.example_addresses.specs.Addresses.{addresses_text};

use anyhow::{Result, ensure};
use dns_message::data::A;
use dns_message::edit::is_regular;
use dns_message::message::Message;
use std::io;
use std::io::Write;

fn main(rt: HostRuntime) -> Result<()> {
    let digits = io::read_to_string(rt.alloc(), rt.stdin())?;
    let message = Message::from_octets(hex::decode(rt.alloc(), digits.trim_ascii())?)?;
    ensure!(is_regular(&message), "the message isn't regular");
    print_addresses(&mut rt.stdout(), &message)?;
    Ok(())
}

/// Prints a line for each A record of the answer section: its owner and its address, or that it is
/// malformed. If a record can't be read at all, the next line says so, and is the last.
fn print_addresses<W: Write>(output: &mut W, message: &Message<Vec<u8>>) -> io::Result<()>
    ensures { OnOk result (Appends (W.contents output.old) (W.contents output.new)
        (addresses_text (message_octets message.now))) }
{
    let Ok(answers) = message.answer() else {
        return writeln!(output, "malformed question");
    };
    for item in answers.limit_to::<A>() {
        match item {
            Ok(record) => writeln!(output, "{} {}", record.owner(), record.data())?,
            Err(_) => writeln!(output, "malformed record")?,
        }
    }
    Ok(())
}
