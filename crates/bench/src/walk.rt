//! Reads all of a message: each field, the labels of each name, and the RDATA of each record, also
//! as fields.
use dns_data::{A, Cname, Ns};
use dns_iana::Rtype;
use dns_item::{ParsedRecord, Question};
use dns_name::ParsedName;
use dns_read::{Message, RecordSection};
use fields_table::{Field, FieldData, Value};

/// The number of labels without the root, plus the octets of the uncompressed name.
fn name_sum(name: &ParsedName<'_>) -> u64 {
    let labels = name.label_count() as u64;
    (name.compose_len() as u64)
        .wrapping_add(labels)
        .wrapping_sub(1)
}

fn question_sum(question: &Question<ParsedName<'_>>) -> u64 {
    name_sum(question.qname())
        .wrapping_add(u64::from(question.qtype().to_int()))
        .wrapping_add(u64::from(question.qclass().to_int()))
}

/// What RDATA adds to the sum. `None` if it is malformed.
fn data_sum(record: &ParsedRecord<'_>) -> Option<u64> {
    match record.rtype() {
        Rtype::A => {
            let read = record.to_record::<A>().ok()??;
            Some(u64::from(u32::from_be_bytes(read.data().octets())))
        }
        Rtype::NS => {
            let read = record.to_record::<Ns<ParsedName<'_>>>().ok()??;
            Some(name_sum(read.data().nsdname()))
        }
        Rtype::CNAME => {
            let read = record.to_record::<Cname<ParsedName<'_>>>().ok()??;
            Some(name_sum(read.data().cname()))
        }
        _ => Some(u64::from(record.rdlen())),
    }
}

/// A number is itself, a name its labels and octets, and any other field its number of octets.
fn field_sum(field: &Field<'_>) -> u64 {
    match field.value() {
        Value::Number(number) => number,
        Value::RecordType(rtype) => u64::from(rtype.to_int()),
        Value::Name(name) => name_sum(&name),
        Value::Ipv4(octets)
        | Value::Ipv6(octets)
        | Value::String(octets)
        | Value::Sized(octets)
        | Value::Octets(octets) => octets.len() as u64,
    }
}

/// What the fields of RDATA add to the sum. `None` if it is malformed.
#[inline(never)]
fn fields_sum(record: ParsedRecord<'_>) -> Option<u64> {
    let read = record.to_any_record::<FieldData<'_>>().ok()?;
    let mut sum = 0u64;
    for field in read.data().fields() {
        sum = sum.wrapping_add(field_sum(&field));
    }
    Some(sum)
}

fn record_sum(record: &ParsedRecord<'_>, fields: bool) -> Option<u64> {
    let header = name_sum(&record.owner())
        .wrapping_add(u64::from(record.rtype().to_int()))
        .wrapping_add(u64::from(record.class().to_int()))
        .wrapping_add(u64::from(record.ttl().as_secs()));
    let data = if fields {
        fields_sum(*record)?
    } else {
        data_sum(record)?
    };
    Some(header.wrapping_add(data))
}

fn section_sum(section: &mut RecordSection<'_>, fields: bool) -> Option<u64> {
    let mut sum = 0u64;
    for record in section {
        sum = sum.wrapping_add(record_sum(&record.ok()?, fields)?);
    }
    Some(sum)
}

/// The sum of the header fields and the counts.
fn header_sum(message: &Message<&[u8]>) -> u64 {
    let header = message.header();
    let octets = header.as_slice();
    let counts = message.header_counts();
    u64::from(header.id())
        .wrapping_add(u64::from(u16::from_be_bytes([octets[2], octets[3]])))
        .wrapping_add(u64::from(counts.qdcount()))
        .wrapping_add(u64::from(counts.ancount()))
        .wrapping_add(u64::from(counts.nscount()))
        .wrapping_add(u64::from(counts.arcount()))
}

/// The sum of all fields of a message, also of those of RDATA if `fields`. `None` if something can't
/// be read.
pub(crate) fn walk(octets: &[u8], fields: bool) -> Option<u64> {
    let message = Message::from_slice(octets).ok()?;
    let mut sum = header_sum(&message);
    let mut questions = message.question();
    for question in &mut questions {
        sum = sum.wrapping_add(question_sum(&question.ok()?));
    }
    let mut section = questions.answer().ok()?;
    for _ in 0..3 {
        sum = sum.wrapping_add(section_sum(&mut section, fields)?);
        let Some(next) = section.next_section().ok()? else {
            break;
        };
        section = next;
    }
    Some(sum)
}
