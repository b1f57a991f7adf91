//! DNS messages: read lazily from octets, and built section by section.
//!
//! Users depend on this crate alone: its modules re-export what the crates below it have, and it has
//! no code of its own. What any list of calls on a builder leaves is the contract of `script::run`.
//! `tool` is the program `dnsmsg`, which is safe and terminates on every input.
#![tactic(auto)]

/// Builders of messages, including answers and copied records, and theorems on what they build.
///
/// The response to `query` with one record as its answer, with names compressed:
///
/// ```rust
/// let target = TreeCompressor::new(alloc, Vec::new(alloc));
/// let builder = MessageBuilder::from_target(target)?;
/// let mut response = builder.start_answer(query, Rcode::NOERROR)?;
/// response.push(answer)?;
/// Ok(response.into_message())
/// ```
pub mod builder {
    pub use dns_build::{
        AdditionalBuilder, AnswerBuilder, AtAdditional, AtAnswer, AtAuthority, AtBuilder,
        AtQuestion, AuthorityBuilder, Builder, BuilderStage, CopyRecords, CopyRecordsError, Mark,
        MessageBuilder, OptBuilder, PushError, QuestionBuilder, RecordSectionBuilder, RecordStage,
        ReservedBuilder, ReservedOpt, copy_records, laws,
    };
}

/// Record types, classes and codes.
///
/// The name of an rcode that IANA has registered, such as `NXDomain`:
///
/// ```rust
/// rcode.registered_name().unwrap_or("unassigned")
/// ```
pub mod code {
    pub use dns_code::{
        Class, ExtendedErrorCode, Opcode, OptRcode, OptionCode, Rcode, Rtype, class, rtype,
    };
}

/// The header section of a message, and theorems on its fields and on numbers as texts.
///
/// The header of a reply, with the ID and RD of a query's header:
///
/// ```rust
/// let mut header = Header::new();
/// header.set_id(query.id());
/// header.set_rd(query.rd());
/// header.set_qr(true);
/// header
/// ```
pub mod header {
    pub use dns_code::{
        CountOverflow, Flags, FlagsFromStrError, Header, HeaderCounts, HeaderSection, laws,
    };
}

/// Messages, read lazily, and theorems on what reading them gives.
///
/// The addresses in the answer section that can be read:
///
/// ```rust
/// let mut found = Vec::new(alloc);
/// for record in message.answer().ok()?.limit_to::<A>() {
///     if let Ok(record) = record {
///         found.push(record.into_data()).ok()?;
///     }
/// }
/// Some(found)
/// ```
pub mod message {
    pub use dns_read::{
        AnyRecordIter, Message, MessageIter, QuestionSection, RecordIter, RecordSection, Section,
        ShortMessage, laws, search_laws,
    };
}

/// Messages checked and changed in place: TTLs, the header, a letter case. Theorems on what is read
/// of them then.
///
/// A response from a cache, `age` seconds after it was stored:
///
/// ```rust
/// age_ttls(&mut response, age).ok()?;
/// Some(response)
/// ```
pub mod edit {
    pub use dns_edit::{
        EditError, OtherName, TtlChange, age_ttls, cap_ttls, change_ttls, is_regular, laws,
        map_ttls, min_ttl, records_end, remove_opt, replace_option, set_id, set_question_case,
        set_rcode,
    };
    pub use dns_regular::laws as built_laws;
}

/// Messages on a stream, such as a TCP connection, whose octets come in pieces.
///
/// The messages that are complete once octets were received:
///
/// ```rust
/// reader.push(octets).ok()?;
/// let mut messages = Vec::new(alloc);
/// loop {
///     match reader.next() {
///         Ok(Some(message)) => {
///             let copy = Vec::from_slice(alloc, message.as_slice()).ok()?;
///             messages.push(copy).ok()?;
///         }
///         Ok(None) => return Some(messages),
///         Err(_) => return None,
///     }
/// }
/// ```
pub mod stream {
    pub use dns_stream::{
        FrameError, MAX_FRAME, StreamReader, first_message, laws, missing_octets,
    };
}

/// Zone transfers by AXFR and IXFR: the messages of a response, read as steps that change a zone, or
/// written; and theorems on these.
///
/// The transfer after all steps of a message:
///
/// ```rust
/// match transfer.take(message) {
///     Ok(steps) => steps.finish(),
///     Err(error) => Err(error),
/// }
/// ```
pub mod transfer {
    pub use dns_transfer::{Step, Steps, Transfer, TransferError, laws};
    pub use dns_transfer_writer::{Difference, TransferWriter, writer_laws};
}

/// What a reply says of a question: the records, that there are none, or where to ask on; and
/// theorems on that.
///
/// The address records that a message gives, if it is a reply to the query of a server that
/// resolves:
///
/// ```rust
/// match reply_to(query, received, &Name::root_slice()) {
///     Ok(Reply::Answer(answer)) => {
///         let (section, name) = (answer.section(), answer.name());
///         Some(Rrset::new(section, name, Class::IN, Rtype::A))
///     }
///     _ => None,
/// }
/// ```
pub mod reply {
    pub use dns_reply::{
        Alias, Answer, Denial, LetterCase, NotReply, Redirection, Referral, Reply, Rrset, Unusable,
        check_reply, has_many_opts, laws, reply_to, reply_to_exact, substitute,
    };
}

/// Names, in octets and as texts.
///
/// Whether the name at the start of `octets` is `name`, ignoring ASCII case:
///
/// ```rust
/// match ParsedName::parse(&mut Parser::new(octets)) {
///     Ok(found) => found.name_eq(name),
///     Err(_) => false,
/// }
/// ```
pub mod name {
    pub use dns_wire::name::{FromStrError, PresentationError};
    pub use dns_wire::{
        DisplayWithDot, Label, LabelIter, Name, ParsedName, SuffixIter, ToName, ToNameExt,
    };
}

/// Records and their parts, and theorems on how questions and records are encoded and read.
///
/// A record as a line of text, such as `example.com. 3600 IN A 192.0.2.1`:
///
/// ```rust
/// let record = Record::new(owner, Class::IN, Ttl::HOUR, address);
/// format!(in alloc; "{record}")
/// ```
pub mod record {
    pub use dns_item::record::{
        ComposeRecord, ParsedRecord, Record, RecordHeader, RecordParseError,
    };
    pub use dns_item::{OptRecord, Ttl, laws};
}

/// Record data (RDATA), and the theorems for record data types of your own.
///
/// To read a type of one's own, and to write what was read, a list of fields is enough: module
/// `fields`. A type whose values are made needs more, as this one for PTR records. `parts` says which
/// parts a value has, `layout` how RDATA is laid out, and `laid_out` proves that they agree. The two
/// laws that are called do nothing: they are lemmas. The proofs of the two `compose` calls are in
/// `tests_message/proofs/ptr`.
///
/// ```rust
/// #[derive(Clone, Copy, Debug, Drop)]
/// struct Ptr<N>(N);
///
/// impl<N: ToName> RecordData for Ptr<N> {
///     ghost rtype_of = { λ _. 12 };
///
///     ghost parts = { λ ptr. CompressibleName (N.name ptr.0) ∷ [] };
///
///     fn rtype(&self) -> Rtype {
///         Rtype::PTR
///     }
/// }
///
/// impl<N: ToName> ComposeRecordData for Ptr<N> {
///     fn compose_rdata<T: Composer>(&self, target: &mut T) -> Result<(), AppendError> {
///         parts_compose();
///         names_are_bounded();
///         target.append_compressed_name(&self.0)
///     }
///
///     fn compose_canonical_rdata<T: Composer>(&self, target: &mut T) -> Result<(), AppendError> {
///         parts_compose();
///         self.0.compose_canonical(target)
///     }
/// }
///
/// impl<'a> ParseRecordData<'a> for Ptr<ParsedName<'a>> {
///     ghost layout = { only 12 (DomainName End) };
///
///     fn parse_rdata(rtype: Rtype, parser: &mut Parser<'a>) -> Result<Option<Self>, ParseError> {
///         if rtype != Rtype::PTR {
///             return Ok(None);
///         }
///         Ok(Some(Ptr(ParsedName::parse(parser)?)))
///     }
///
///     ghost laid_out = { λ _. refl };
/// }
/// ```
pub mod data {
    pub use dns_data::{
        A, BadOptData, ClientSubnet, Cname, ComposeOptData, ComposeRecordData, Cookie, Expire,
        ExtendedError, KnownOptData, LongOptData, LongRecordData, Ns, Opt, OptHeader, OptionIter,
        ParseAnyRecordData, ParseRecordData, RecordData, Soa, SubnetAddr, TcpKeepalive,
        UnknownOptData, UnknownRecordData, compose_canonical_len_rdata, compose_len_rdata, laws,
    };
    pub use dns_edns::laws as option_laws;
}

/// Record types as a table, and RDATA of every type as named fields. `RecordText` prints a record as
/// a line of a zone file, and `DataText` its RDATA.
///
/// The first name in RDATA, such as the exchange of MX or the target of SRV:
///
/// ```rust
/// for field in data.fields() {
///     if let Value::Name(name) = field.value() {
///         return Some(name);
///     }
/// }
/// None
/// ```
///
/// A record type that the table lacks is a list of fields, and needs no proof. Its module begins with
/// `ghost use Rattle.std.specs.Prelude.{map};` and
/// `ghost use Rattle.app.specs.declared.host.TheConstants.{FIELDS};`, if its crate is `app` and its
/// module `host`:
///
/// ```rust
/// const FIELDS: &[(&str, Kind)] = &[("weight", Kind::Number16), ("host", Kind::PlainName)];
///
/// /// A host and its weight, by a number for private use (RFC 6895 section 3.1).
/// struct WeightedHost;
///
/// impl RecordFields for WeightedHost {
///     ghost number = { 65280 };
///
///     ghost defined = { map (λ f. (f.0.now, f.1)) FIELDS.now };
///
///     fn number() -> Rtype {
///         Rtype::from_int(65280)
///     }
///
///     fn fields() -> &'static [(&'static str, Kind)] {
///         FIELDS
///     }
/// }
/// ```
///
/// `limit_to::<DataOf<'_, WeightedHost>>()` then reads its records. The greatest weight before the
/// first malformed one:
///
/// ```rust
/// for record in answers.limit_to::<DataOf<'_, WeightedHost>>() {
///     let Ok(record) = record else {
///         return greatest;
///     };
///     for field in record.data().fields() {
///         if let Value::Number(weight) = field.value() {
///             greatest = greatest.max(weight);
///         }
///     }
/// }
/// ```
///
/// RDATA from presentation format (RFC 1035 section 5.1), by the words of a line:
///
/// ```rust
/// let words = split_words(alloc, line)?;
/// from_text(alloc, rtype, words.as_slice())
/// ```
///
/// RDATA from native values, one for each field; the calls of `make` are for one type each:
///
/// ```rust
/// let values = [
///     NewValue::Number(u64::from(serial)),
///     NewValue::Number(u64::from(flags)),
///     NewValue::Types(types),
/// ];
/// from_values(alloc, Rtype::CSYNC, &values)
/// ```
///
/// `read_line` reads a line of a zone file, which may leave out what `Defaults` has. `check_values`
/// finds values that an RFC rules out in well-formed RDATA.
pub mod fields {
    pub use fields_checks::{CheckError, ValueReason, check_values, laws as check_laws};
    pub use fields_forms::{Location, laws as form_laws};
    pub use fields_lines::{
        Defaults, LineError, WordReason, begins_with_owner, laws as line_laws, read_duration,
        read_line,
    };
    pub use fields_lists::{AddressPrefix, AddressPrefixes, Strings, TypeMap, Types};
    pub use fields_parameters::{Parameter, Parameters};
    pub use fields_plain::{ClassName, TypeName, ZoneName};
    pub use fields_records::{DataText, RecordText, from_text, read_record};
    pub use fields_table::{
        DataOf, Encoded, Field, FieldData, Fields, Kind, OPAQUE, OwnedFieldData, RecordFields,
        RecordTypes, Row, Shape, Value, fields_of, laws, layout_type, record_types,
    };
    pub use fields_text::{TextError, laws as word_laws, split_words};
    pub use fields_values::{
        NewGateway, NewGatewayAndKey, NewHostIdentity, NewRelay, NewValue, ValueError, from_values,
        laws as value_laws,
    };
}

/// RDATA of one record type, from native values. `fields::from_values` makes RDATA of any type.
///
/// An MX record, pushed by a builder:
///
/// ```rust
/// let mail = mx(alloc, 10, host).ok()?;
/// response.push((owner, 3600u32, mail.as_field_data())).ok()?;
/// ```
pub mod make {
    pub use fields_values::{
        a, aaaa, caa, cname, dnskey, ds, https, mx, naptr, ns, nsec, ptr, rrsig, soa, srv, sshfp,
        svcb, text, tlsa, txt,
    };
}

/// Serial numbers of zones, compared and added by RFC 1982.
///
/// A secondary server transfers a zone if its own serial is less than the one that is offered:
///
/// ```rust
/// held.serial_cmp(offered) == Some(Ordering::Less)
/// ```
pub mod serial {
    pub use dns_iana::{Serial, serial_laws as laws};
}

/// Calls on the builders of a message, one or a list, and the replies to them.
///
/// A list of calls on a new builder over a compressor:
///
/// ```rust
/// let target = HashCompressor::new(alloc, Vec::new(alloc));
/// let Ok(builder) = MessageBuilder::from_target(target) else {
///     return None;
/// };
/// match run(alloc, Stage::Builder(builder), calls, &mut Vec::new(alloc)) {
///     Ok(stage) => Some(stage),
///     Err(_) => None,
/// }
/// ```
pub mod script {
    pub use dns_script::{Call, OptPlan, Reply, Stage, laws, run, step};
}

/// The targets that messages are written to.
///
/// A query in a buffer of 512 octets, with names compressed. Nothing is allocated:
///
/// ```rust
/// let target = StaticCompressor::new(ArrayVec::<u8, 512>::new());
/// let mut builder = MessageBuilder::from_target(target)?.question();
/// builder.push((name, rtype))?;
/// Ok(builder.into_message())
/// ```
pub mod target {
    pub use dns_target::{
        Compressor, FingerprintCompressor, HashCompressor, StaticCompressor, StreamTarget,
        TreeCompressor,
    };
    pub use dns_wire::{CloneTarget, Composer, FreezeBuilder};
}

/// The parser, buffers of octets, the errors of both, canonical order, and theorems on names
/// and targets.
///
/// The first message on a stream, which is after its length of 16 bits:
///
/// ```rust
/// let mut parser = Parser::new(stream);
/// let len = parser.parse_u16_be()?;
/// parser.peek(usize::from(len))
/// ```
pub mod wire {
    pub use dns_wire::{
        AppendError, BufferFrom, CanonicalOrd, FlattenInto, FormError, Octets, OctetsFrom,
        OctetsMut, ParseError, Parser, ShortBuf, error_laws, laws, target_laws, value_laws,
    };
}

/// Questions, and their texts.
///
/// Whether a question asks for addresses:
///
/// ```rust
/// let qtype = question.qtype();
/// question.qclass() == Class::IN && (qtype == Rtype::A || qtype == Rtype::AAAA)
/// ```
pub mod question {
    pub use dns_item::question::{
        ComposeQuestion, FromStrError, PresentationError, PresentationErrorEnum, Question,
    };
}

pub use dns_json::{MessageJson, laws as json_laws, print_json, print_octets_json};
pub use dns_lines::{print_message, print_zone_lines};
pub use dnsmsg_tool::tool;
