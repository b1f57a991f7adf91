//! Sets of records (RFC 2181 section 5).
ghost use Rattle.std.specs.Prelude.{◌≡◌, option_map};
ghost use Rattle.dns_item.specs.ParsedRecord.{encoded_record};
ghost use Rattle.dns_name.specs.ParsedName.{labels};
ghost use Rattle.dns_read.specs.RecordSection.{record_result};
ghost use Rattle.dns_reply.specs.RrsetMembers.{is_member, rdata_of, same_rdata};

use dns_data::UnknownRecordData;
use dns_iana::{Class, Rtype};
use dns_item::ParsedRecord;
use dns_name::ParsedName;
use dns_octets::ParseError;
use dns_read::RecordSection;

/// An iterator over the records of a section with one owner, class and type: an RRset (RFC 2181
/// section 5).
///
/// It yields each of them once, in order. For a record of the section that can't be read it yields
/// an error and then ends.
#[derive(Clone, Copy, Debug)]
pub struct Rrset<'a> {
    cursor: RecordSection<'a>,
    owner: ParsedName<'a>,
    class: u16,
    rtype: u16,
}

impl<'a> Rrset<'a> {
    ghost use Rattle.std.specs.Iterator.{YieldsFirstBy};
    ghost use Rattle.dns_read.specs.RecordSection.{records_left};
    ghost use Rattle.dns_reply.specs.RrsetMembers.{members, repeats};
    ghost use Rattle.dns_reply.specs.Rrsets.{members_left};

    /// The remaining records of a section with this owner, ignoring ASCII case, class and type.
    pub fn new(
        section: RecordSection<'a>,
        owner: ParsedName<'a>,
        class: Class,
        rtype: Rtype,
    ) -> Self
        ensures { members_left result ≡ members (labels owner.entry) class rtype
            (records_left section.entry) }
    {
        Rrset {
            cursor: section,
            owner,
            class: class.to_int(),
            rtype: rtype.to_int(),
        }
    }

    /// The next record of the set, or the error of the first record of the section that can't be
    /// read.
    pub fn next(&mut self) -> Option<Result<ParsedRecord<'a>, ParseError>>
        ensures { YieldsFirstBy record_result members_left self.old result self.new }
    {
        while let Some(item) = self.cursor.next() {
            let class = Class::from_int(self.class);
            if is_member(&item, &self.owner, class, Rtype::from_int(self.rtype)) {
                return Some(item);
            }
        }
        None
    }

    /// Whether a record that is left has the same RDATA as `member`, octet for octet.
    ///
    /// A set has no such records (RFC 2181 section 5): of each, all but the last can be dropped.
    /// Pointers aren't followed: `member` has to be of the same message, and the same name
    /// compressed in two ways is different.
    pub fn repeats(&self, member: &ParsedRecord<'_>) -> bool
        ensures { result ≡ repeats (encoded_record member.now) (members_left self.now) }
    {
        let mut left = *self;
        while let Some(item) = left.next() {
            let Ok(other) = item else { continue };
            if same_rdata(rdata_of(member), rdata_of(&other)) {
                return true;
            }
        }
        false
    }
}

/// Whether an item is a record with this owner, class and type, or an error.
fn is_member(
    item: &Result<ParsedRecord<'_>, ParseError>,
    owner: &ParsedName<'_>,
    class: Class,
    rtype: Rtype,
) -> bool
    ensures { result ≡ is_member (labels owner.now) class rtype (record_result item.now) }
{
    match item {
        Ok(record) => {
            record.owner() == *owner && record.class() == class && record.rtype() == rtype
        }
        Err(_error) => true,
    }
}

/// The octets of a record's RDATA, or `None` if they aren't all there.
fn rdata_of<'a>(member: &ParsedRecord<'a>) -> Option<&'a [u8]>
    ensures { option_map (λ octets. octets.now) result ≡ rdata_of (encoded_record member.now) }
{
    match member.to_any_record::<UnknownRecordData<&'a [u8]>>() {
        Ok(opaque) => Some(*opaque.data().data()),
        Err(_error) => None,
    }
}

/// Whether RDATA is the same, or missing in both.
fn same_rdata(first: Option<&[u8]>, second: Option<&[u8]>) -> bool
    ensures { result ≡ same_rdata (option_map (λ octets. octets.now) first.entry)
        (option_map (λ octets. octets.now) second.entry) }
{
    match (first, second) {
        (Some(first), Some(second)) => first == second,
        (None, None) => true,
        _ => false,
    }
}

/// The same as the method `next`.
impl<'a> Iterator for Rrset<'a> {
    ghost use Rattle.std.specs.Iterator.{YieldsFirstBy, item_count};
    ghost use Rattle.dns_reply.specs.Rrsets.{members_left};

    type Item = Result<ParsedRecord<'a>, ParseError>;

    ghost next_gives = { YieldsFirstBy record_result members_left };

    ghost remaining = { item_count members_left };

    fn next(&mut self) -> Option<Self::Item> {
        Rrset::next(self)
    }
}
