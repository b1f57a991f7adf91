//! The lines that `dnsmsg show` prints of a message, from what `tests_plain` reads. The mnemonics of
//! types and classes are the library's. If an allocation fails, a line lacks something.
use crate::hostile::plain::{Entry, Located, Plain, count};
use crate::hostile::plain_data::typed_of;
use dns_code::{Class, Rtype};
use std::alloc::Global;

/// The octets of a label (RFC 1035 section 5.1).
fn push_label(text: &mut String, label: &[u8]) {
    for octet in label {
        let _ = match octet {
            b'.' | b'\\' => write!(text, "\\{}", char::from(*octet)),
            0x21..=0x7e => write!(text, "{}", char::from(*octet)),
            _ => write!(text, "\\{octet:03}"),
        };
    }
}

/// The labels of the uncompressed name that the octets begin with, with a dot after each; the root
/// is a dot. Returns the octets after the name.
fn push_name<'a>(text: &mut String, octets: &'a [u8]) -> &'a [u8] {
    if let [0, after @ ..] = octets {
        let _ = write!(text, ".");
        return after;
    }
    let mut left = octets;
    for _ in 0..=128 {
        let [len, after @ ..] = left else {
            break;
        };
        let len = usize::from(*len);
        left = after.get(len..).unwrap_or(b"");
        if len == 0 {
            break;
        }
        push_label(text, after.get(..len).unwrap_or(b""));
        let _ = write!(text, ".");
    }
    left
}

/// The number of octets, and the octets in hexadecimal (RFC 3597 section 5).
fn push_opaque(text: &mut String, octets: &[u8]) {
    let _ = write!(text, "\\# {}", octets.len());
    let mut space = " ";
    for octet in octets {
        let _ = write!(text, "{space}{octet:02x}");
        space = "";
    }
}

/// The names and the five numbers of SOA, its names uncompressed.
fn push_start(text: &mut String, data: &[u8]) {
    let after = push_name(text, data);
    let _ = write!(text, " ");
    let numbers = push_name(text, after);
    for number in numbers.chunks_exact(4) {
        if let [first, second, third, fourth] = number {
            let number = u32::from_be_bytes([*first, *second, *third, *fourth]);
            let _ = write!(text, " {number}");
        }
    }
}

/// The RDATA of a record that ends at this offset: as its type has it, or else opaque.
fn push_data(text: &mut String, octets: &[u8], (entry, end): (Entry, usize)) {
    let value = match entry.rtype {
        1 | 2 | 5 | 6 => typed_of(octets, Ok((entry, end)), entry.rtype),
        _ => Ok(None),
    };
    let Ok(Some(value)) = value else {
        return push_opaque(text, entry.data.as_slice());
    };
    match (entry.rtype, value.data.as_slice()) {
        (1, [first, second, third, fourth]) => {
            let _ = write!(text, "{first}.{second}.{third}.{fourth}");
        }
        (6, data) => push_start(text, data),
        (_, data) => {
            push_name(text, data);
        }
    }
}

/// The line of an entry, or of the error of one that can't be read.
fn push_entry(text: &mut String, octets: &[u8], section: &str, item: Located<Entry>) {
    let Ok((entry, end)) = item else {
        let _ = writeln!(text, "{section} error");
        return;
    };
    let _ = write!(text, "{section} ");
    push_name(text, entry.name.as_slice());
    let (rtype, class) = (Rtype::from_int(entry.rtype), Class::from_int(entry.class));
    if section == "question" {
        let _ = writeln!(text, "\t{rtype}\t{class}");
        return;
    }
    let _ = write!(text, " {} {class} {rtype} ", entry.ttl);
    push_data(text, octets, (entry, end));
    let _ = writeln!(text);
}

/// The lines of the header and the counts.
fn push_head(text: &mut String, octets: &[u8]) {
    let [id_high, id_low, high, low, ..] = octets else {
        return;
    };
    let id = u16::from_be_bytes([*id_high, *id_low]);
    let (opcode, rcode, z) = (high >> 3 & 0x0F, low & 0x0F, low >> 6 & 1);
    let _ = write!(
        text,
        "header id={id} opcode={opcode} rcode={rcode} z={z} flags="
    );
    let flags = [
        high & 0x80,
        high & 4,
        high & 2,
        high & 1,
        low & 0x80,
        low & 0x20,
        low & 0x10,
    ];
    let mut is_first = true;
    for (flag, name) in flags.iter().zip("QR AA TC RD RA AD CD".split(' ')) {
        if *flag > 0 {
            if !is_first {
                let _ = write!(text, " ");
            }
            let _ = write!(text, "{name}");
            is_first = false;
        }
    }
    let _ = write!(text, "\ncounts");
    for section in 0..=3 {
        let _ = write!(text, " {}", count(octets, section));
    }
    let _ = writeln!(text);
}

/// All lines of a message, up to that of the first section without a start.
pub(crate) fn lines_of(alloc: Global, message: &Plain<'_>) -> String {
    let mut text = String::new(alloc);
    push_head(&mut text, message.octets);
    let sections = [
        ("question", &message.questions),
        ("answer", &message.answers),
        ("authority", &message.authorities),
        ("additional", &message.additionals),
    ];
    for (section, part) in sections {
        if part.start.is_err() {
            let _ = writeln!(text, "{section} missing");
            break;
        }
        for item in &part.items {
            push_entry(&mut text, message.octets, section, *item);
        }
    }
    text
}
