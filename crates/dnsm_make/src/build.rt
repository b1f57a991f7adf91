//! Builds a message from the items that a caller passes.
ghost use Rattle.std.specs.Prelude.{◌≡◌, ◌≤◌, ◌↔◌, IsTrue, List, None, true, IfOk, IfErr, OnOk};
ghost use Rattle.std.specs.List.{All};
ghost use Rattle.dns_name.specs.NameReading.{name_labels};
ghost use Rattle.dns_wire.specs.Encoders.{Tree};
ghost use Rattle.dns_build.specs.State.{InQuestion, with_questions, with_records};
ghost use Rattle.dns_code.specs.Header.{fields};
ghost use Rattle.dns_build.specs.BuilderStates.{InEach, MovesState};
ghost use Rattle.dnsm_status.specs.Codes.{number_of};
ghost use Rattle.dns_name.specs.NameTexts.{SpellsName};
ghost use Rattle.dnsm_make.specs.NewData.{new_rtype, new_parts};
ghost use Rattle.dnsm_make.specs.Built.{NewEntry, Means, AllMean, AreQuestions, AreRecords, IsQuestionOf, IsRecordOf, IsBuilt, LacksFields, IsRefused, FirstRefused, RefusesEntries, RefusesQuestion, RefusesRecord, IsUnbuilt, questions_among, records_among, header_of};

use crate::last_name::LastName;
use crate::new_data::{NewData, data_of};
use crate::target::Target;
use dns_build::{Builder, MessageBuilder, QuestionBuilder, RecordStage};
use dns_code::{Header, Ttl};
use dns_iana::{Class, Rtype};
use dns_wire::{Composer, MAX_OCTETS};
use dnsm_read::sections::{ADDITIONAL, QUESTION};
use dnsm_status::CallError;
use dnsm_text::names::{Text, name_of};
use std::alloc::Global;

/// A question or a record to write.
#[repr(C)]
#[derive(Clone, Copy)]
pub struct NewItem<'a> {
    /// The name in presentation format.
    pub name: &'a [u8],
    /// The RDATA, with any names in it uncompressed. It is that of the record type, or empty if the
    /// class is NONE or ANY.
    pub rdata: &'a [u8],
    pub ttl: u32,
    pub rtype: u16,
    pub class: u16,
    /// 0 is the question section; 1, 2 and 3 are answer, authority and additional.
    pub section: u8,
}

type NewQuestion<'n> = (&'n Text, Rtype, Class);

type NewRecord<'n, 'a> = (&'n Text, Class, Ttl, NewData<'a>);

/// Converts an item to a question. `name` is the name that its text spells.
fn question_of<'n>(name: &'n Text, item: &NewItem<'_>) -> NewQuestion<'n>
    requires { SpellsName item.now.name.now (name_labels name.now) }
    ensures { IsQuestionOf item.now (record {
      name = name_labels result.0.now;
      rtype = result.1;
      class = result.2;
    }) }
{
    (
        name,
        Rtype::from_int(item.rtype),
        Class::from_int(item.class),
    )
}

/// Converts an item to a record. `name` is the name that its text spells.
fn record_of<'n, 'a>(name: &'n Text, item: &NewItem<'a>) -> Result<NewRecord<'n, 'a>, CallError>
    requires { SpellsName item.now.name.now (name_labels name.now) }
    ensures made { IfOk result (λ made. IsRecordOf item.now (record {
      owner = name_labels made.0.now;
      rtype = new_rtype made.3;
      class = made.1;
      ttl = made.2;
      parts = new_parts made.3;
    })) }
    ensures none { IfErr result (λ fault. LacksFields item.now (number_of fault)) }
{
    if item.rdata.len() > MAX_OCTETS {
        return Err(CallError::LongData);
    }
    match data_of(item) {
        Ok(data) => Ok((
            name,
            Class::from_int(item.class),
            Ttl::from_secs(item.ttl),
            data,
        )),
        Err(fault) => Err(fault),
    }
}

/// Checks that an item is a question or a record that can be written.
fn check(item: &NewItem<'_>) -> Result<(), CallError>
    ensures means { OnOk result ((x : NewEntry) × Means item.now x) }
    ensures refused { IfErr result (λ fault. IsRefused item.now (number_of fault)) }
{
    if item.section > ADDITIONAL {
        return Err(CallError::BadSection);
    }
    let name = name_of(item.name)?;
    if item.section == QUESTION {
        return Ok(());
    }
    match record_of(&name, item) {
        Ok(_record) => Ok(()),
        Err(fault) => Err(fault),
    }
}

/// Checks all items. Returns the error of the first bad one.
fn check_all(items: &[NewItem<'_>]) -> Result<(), CallError>
    ensures mean { OnOk result ((xs : List NewEntry) × AllMean items.now xs) }
    ensures refused { IfErr result (λ fault. FirstRefused items.now (number_of fault)) }
{
    for item in items {
        check(item)?;
    }
    Ok(())
}

/// Whether each item is in the question section or in a section of records.
fn have_sections(items: &[NewItem<'_>]) -> bool
    ensures { IsTrue result ↔ All (λ item. item.section ≤ 3) items.now }
{
    items.iter().all(|item| item.section <= ADDITIONAL)
}

/// Pushes the questions among `items`, in order. Stops at the first that is refused.
fn push_questions<'a, T: Composer>(
    builder: &mut QuestionBuilder<T>,
    last: &mut LastName<'a>,
    items: &[NewItem<'a>],
) -> Result<(), CallError>
    ensures questions { OnOk result (AreQuestions items.now) }
    ensures pushed { OnOk result ((xs : List NewEntry) → AllMean items.now xs
        → MovesState InQuestion InQuestion T.rule (with_questions (questions_among xs))
        builder.old builder.new) }
    ensures stopped { IfErr result (λ fault. (xs : List NewEntry) → AllMean items.now xs
        → InEach InQuestion T.rule builder.old (λ s. RefusesQuestion T.capacity T.grows T.rule
        (questions_among xs) s (number_of fault))) }
{
    for item in items {
        if item.section == QUESTION {
            last.read(item.name)?;
            builder.push(question_of(last.name(), item))?;
        }
    }
    Ok(())
}

/// Pushes the records among `items` that belong to the section of stage `S`, in order. Stops at the
/// first that is refused.
fn push_records<'a, T: Composer, S: RecordStage>(
    builder: &mut Builder<T, S>,
    last: &mut LastName<'a>,
    items: &[NewItem<'a>],
) -> Result<(), CallError>
    ensures records { OnOk result (AreRecords S.section items.now) }
    ensures pushed { OnOk result ((xs : List NewEntry) → AllMean items.now xs
        → MovesState S.stage S.stage T.rule (with_records S.stage (records_among S.section xs))
        builder.old builder.new) }
    ensures stopped { IfErr result (λ fault. (xs : List NewEntry) → AllMean items.now xs
        → InEach S.stage T.rule builder.old (λ s. RefusesRecord T.capacity T.grows T.rule S.stage
        (records_among S.section xs) s (number_of fault))) }
{
    for item in items {
        if usize::from(item.section) + 1 == S::DEPTH {
            last.read(item.name)?;
            match record_of(last.name(), item) {
                Ok(record) => builder.push(&record)?,
                Err(fault) => return Err(fault),
            }
        }
    }
    Ok(())
}

/// The header with this ID, whose third and fourth octets are `flags`.
fn header_of(id: u16, flags: u16) -> Header
    ensures { fields result ≡ header_of id flags }
{
    let [a, b] = id.to_be_bytes();
    let [c, d] = flags.to_be_bytes();
    Header::for_message_slice(&[a, b, c, d])
}

/// Writes the header and the items, each in its section, in order. Empties `target` first. Each
/// item is converted once, when it is pushed, so an error may not be that of the first bad item.
fn push_all<T: Composer>(
    target: T,
    id: u16,
    flags: u16,
    items: &[NewItem<'_>],
) -> Result<T, CallError>
    ensures made { IfOk result (λ made. IsBuilt T.rule id flags items.now
        (T.written made).octets) }
    ensures none { IfErr result (λ fault. (xs : List NewEntry) → AllMean items.now xs
        → RefusesEntries T.capacity T.grows T.rule (header_of id flags) xs (number_of fault)) }
{
    if !have_sections(items) {
        return Err(CallError::BadSection);
    }
    let mut builder = MessageBuilder::from_target(target)?;
    builder.set_header(header_of(id, flags));
    let mut last = LastName::root();
    let mut questions = builder.question();
    push_questions(&mut questions, &mut last, items)?;
    let mut answers = questions.answer();
    push_records(&mut answers, &mut last, items)?;
    let mut authorities = answers.authority();
    push_records(&mut authorities, &mut last, items)?;
    let mut additionals = authorities.additional();
    push_records(&mut additionals, &mut last, items)?;
    Ok(additionals.finish())
}

/// Like `push_all`, but the error is that of the first bad item, if there is one: only after an
/// error the items are checked in their order.
fn build_over<T: Composer>(
    target: T,
    id: u16,
    flags: u16,
    items: &[NewItem<'_>],
) -> Result<T, CallError>
    ensures made { IfOk result (λ made. IsBuilt T.rule id flags items.now
        (T.written made).octets) }
    ensures none { IfErr result (λ fault. IsUnbuilt T.capacity T.grows T.rule (header_of id flags)
        items.now (number_of fault)) }
{
    match push_all(target, id, flags, items) {
        Ok(made) => Ok(made),
        Err(fault) => {
            check_all(items)?;
            Err(fault)
        }
    }
}

/// Like `build_over`, with compressed names. Allocates.
pub fn build(alloc: Global, id: u16, flags: u16, items: &[NewItem<'_>]) -> Result<Target, CallError>
    ensures made { IfOk result (λ made. IsBuilt Tree id flags items.now made.octets) }
    ensures none { IfErr result (λ fault. IsUnbuilt None true Tree (header_of id flags) items.now
        (number_of fault)) }
{
    build_over(Target::new(alloc), id, flags, items)
}
