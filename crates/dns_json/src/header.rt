//! The header of a message as members of its JSON object (RFC 8427 section 2.1).
ghost use Rattle.std.specs.Prelude.{◌++◌, [], ◌∷◌, OnErr, codes, decimal};
ghost use Rattle.json.specs.Json.{boolean};
ghost use Rattle.dns_code.specs.Header.{fields};
ghost use Rattle.dns_code.specs.HeaderCounts.{counts as count_fields};
ghost use Rattle.dns_name.specs.ParsedName.{labels};
ghost use Rattle.dns_print.specs.Printing.{PrintsOnOk};
ghost use Rattle.json_print.specs.Texts.{members_text, name_text, object_front};
ghost use Rattle.json_print.specs.Values.{numeral};
ghost use Rattle.dns_json.specs.Header.{class_members, count_members, header_members, owner_members, type_members};

use crate::text::{ClassText, NameText, TypeText};
use dns_code::{Header, HeaderCounts};
use dns_iana::{Class, Rtype};
use dns_name::ParsedName;
use dns_print::{TextWriter, write_number};
use json_print::{
    begin_object, write_boolean_member, write_number_member, write_string, write_string_member,
};
use std::fmt;

/// Begins the object of a message: prints a brace and the members of the header.
pub(crate) fn write_header<T: TextWriter>(writer: &mut T, header: Header) -> fmt::Result
    ensures text { PrintsOnOk T.takes writer.old result
        (object_front (header_members (fields header))) writer.new }
    ensures err { OnErr result T.MayFail }
{
    write_id(writer, header.id())?;
    write_kind(writer, header)?;
    write_flags(writer, header)?;
    write_number_member(writer, "RCODE", u64::from(header.rcode().to_int()))
}

/// Prints a brace and the first member.
fn write_id<T: TextWriter>(writer: &mut T, id: u16) -> fmt::Result
    ensures text { PrintsOnOk T.takes writer.old result
        (codes "{" ++ name_text (codes "ID") ++ decimal id) writer.new }
    ensures err { OnErr result T.MayFail }
{
    begin_object(writer, "ID")?;
    write_number(writer, u64::from(id))
}

/// Prints the members for the kind of a message: QR, opcode, AA and TC.
fn write_kind<T: TextWriter>(writer: &mut T, header: Header) -> fmt::Result
    ensures text { let f = fields header in PrintsOnOk T.takes writer.old result
        (members_text ((codes "QR", boolean f.qr) ∷ (codes "Opcode", numeral f.opcode)
        ∷ (codes "AA", boolean f.aa) ∷ (codes "TC", boolean f.tc) ∷ [])) writer.new }
    ensures err { OnErr result T.MayFail }
{
    write_boolean_member(writer, "QR", header.qr())?;
    write_number_member(writer, "Opcode", u64::from(header.opcode().to_int()))?;
    write_boolean_member(writer, "AA", header.aa())?;
    write_boolean_member(writer, "TC", header.tc())
}

/// Prints the members for RD, RA, AD and CD.
fn write_flags<T: TextWriter>(writer: &mut T, header: Header) -> fmt::Result
    ensures text { let f = fields header in PrintsOnOk T.takes writer.old result
        (members_text ((codes "RD", boolean f.rd) ∷ (codes "RA", boolean f.ra)
        ∷ (codes "AD", boolean f.ad) ∷ (codes "CD", boolean f.cd) ∷ [])) writer.new }
    ensures err { OnErr result T.MayFail }
{
    write_boolean_member(writer, "RD", header.rd())?;
    write_boolean_member(writer, "RA", header.ra())?;
    write_boolean_member(writer, "AD", header.ad())?;
    write_boolean_member(writer, "CD", header.cd())
}

/// Prints the members for the counts.
pub(crate) fn write_counts<T: TextWriter>(writer: &mut T, counts: HeaderCounts) -> fmt::Result
    ensures text { PrintsOnOk T.takes writer.old result
        (members_text (count_members (count_fields counts))) writer.new }
    ensures err { OnErr result T.MayFail }
{
    write_number_member(writer, "QDCOUNT", u64::from(counts.qdcount()))?;
    write_number_member(writer, "ANCOUNT", u64::from(counts.ancount()))?;
    write_number_member(writer, "NSCOUNT", u64::from(counts.nscount()))?;
    write_number_member(writer, "ARCOUNT", u64::from(counts.arcount()))
}

/// Prints the members for a type: its number and its name.
pub(crate) fn write_type<T: TextWriter>(
    writer: &mut T,
    number: &str,
    name: &str,
    rtype: Rtype,
) -> fmt::Result
    ensures text { PrintsOnOk T.takes writer.old result
        (members_text (type_members number.now name.now rtype)) writer.new }
    ensures err { OnErr result T.MayFail }
{
    write_number_member(writer, number, u64::from(rtype.to_int()))?;
    write_string_member(writer, name, &TypeText(rtype))
}

/// Prints the members for a class: its number and its name.
pub(crate) fn write_class<T: TextWriter>(
    writer: &mut T,
    number: &str,
    name: &str,
    class: Class,
) -> fmt::Result
    ensures text { PrintsOnOk T.takes writer.old result
        (members_text (class_members number.now name.now class)) writer.new }
    ensures err { OnErr result T.MayFail }
{
    write_number_member(writer, number, u64::from(class.to_int()))?;
    write_string_member(writer, name, &ClassText(class))
}

/// Begins the object of a record or question: prints a brace, and the members for its name, type
/// and class.
pub(crate) fn write_owner<T: TextWriter>(
    writer: &mut T,
    name: &ParsedName<'_>,
    rtype: Rtype,
    class: Class,
) -> fmt::Result
    ensures text { PrintsOnOk T.takes writer.old result
        (object_front (owner_members (labels name.now) rtype class)) writer.new }
    ensures err { OnErr result T.MayFail }
{
    begin_object(writer, "NAME")?;
    write_string(writer, &NameText(*name))?;
    write_type(writer, "TYPE", "TYPEname", rtype)?;
    write_class(writer, "CLASS", "CLASSname", class)
}
