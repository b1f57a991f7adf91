//! Records (RFC 1035 section 4.1.3).
ghost use Rattle.std.specs.Prelude.{◌≡◌, ◌++◌, ◌≤◌, length, OnOk};
ghost use Rattle.std.specs.Int.{to_be_bytes, w16, w32};
ghost use Rattle.dns_wire.specs.Encoders.{encode_octets};
ghost use Rattle.dns_wire.specs.Targets.{Appends, Composes};
ghost use Rattle.dns_item.specs.Items.{RecordItem, IsRecord, encode_record};
ghost use Rattle.dns_item.specs.Record.{owner_of, class_of, ttl_of, data_of, HasFields, record_item, item_of_fields};

pub use crate::opt_record::OptRecord;
pub use crate::parsed_record::ParsedRecord;
pub use crate::record_error::RecordParseError;
pub use crate::record_header::RecordHeader;
pub use dns_code::Ttl;
use dns_data::{ComposeRecordData, RecordData, compose_len_rdata};
use dns_iana::{Class, Rtype};
use dns_name::ToName;
use dns_octets::AppendError;
use dns_wire::Composer;

/// The most octets of RDATA that are appended at once with the fields before them.
const MOST_AT_ONCE: usize = 16;

/// A record: owner, class, TTL and RDATA, which has the record type (RFC 1035 section 4.1.3).
#[derive(Clone, Copy, Debug, Drop)]
pub struct Record<N, D> {
    owner: N,
    class: u16,
    ttl: u32,
    data: D,
}

impl<N, D> Record<N, D> {
    /// The record with these fields.
    pub fn new(owner: N, class: Class, ttl: Ttl, data: D) -> Self
        ensures { HasFields result owner class ttl «data» }
    {
        Record {
            owner,
            class: class.to_int(),
            ttl: ttl.as_secs(),
            data,
        }
    }

    /// Converts the owner and the RDATA. The class and the TTL stay.
    pub fn from_record<M, E>(record: Record<M, E>) -> Self
    where
        N: From<M>,
        D: From<E>,
        ensures owner { N.from_gives (owner_of «record») (owner_of result) }
        ensures class { class_of result ≡ class_of «record» }
        ensures ttl { ttl_of result ≡ ttl_of «record» }
        ensures value { D.from_gives (data_of «record») (data_of result) }
    {
        let class = record.class();
        let ttl = record.ttl();
        let Record { owner, data, .. } = record;
        Record::new(N::from(owner), class, ttl, D::from(data))
    }

    /// The owner: the name that the record belongs to.
    pub fn owner(&self) -> &N
        ensures { result.now ≡ owner_of self.now }
    {
        &self.owner
    }

    /// The class.
    pub fn class(&self) -> Class
        ensures { result ≡ class_of self.now }
    {
        Class::from_int(self.class)
    }

    /// Sets the class.
    pub fn set_class(&mut self, class: Class)
        ensures { HasFields self.new (owner_of self.old) class (ttl_of self.old)
            (data_of self.old) }
    {
        self.class = class.to_int();
    }

    /// How long the record may be cached.
    pub fn ttl(&self) -> Ttl
        ensures { result ≡ ttl_of self.now }
    {
        Ttl::from_secs(self.ttl)
    }

    /// Sets how long the record may be cached.
    pub fn set_ttl(&mut self, ttl: Ttl)
        ensures { HasFields self.new (owner_of self.old) (class_of self.old) ttl
            (data_of self.old) }
    {
        self.ttl = ttl.as_secs();
    }

    /// The RDATA.
    pub fn data(&self) -> &D
        ensures { result.now ≡ data_of self.now }
    {
        &self.data
    }
}

impl<N, D> Record<N, D> {
    ghost use Rattle.std.specs.Borrow.{Lends, sem};
    ghost use Rattle.dns_item.specs.contracts.record.Record.{the_row};
    ghost use Rattle.dns_item.specs.Record.{with_data};

    /// Borrows the RDATA mutably.
    pub fn data_mut(&mut self) -> &mut D
        ensures value { result.now ≡ data_of self.old }
        ensures* writes_back { sem 𝓛 (Lends (the_row N.row D.row) D.row self.entry result
            (with_data self.old)) }
    {
        &mut self.data
    }
}

impl<N: Drop, D> Record<N, D> {
    /// Takes out the RDATA.
    pub fn into_data(self) -> D
        ensures { result ≡ data_of self }
    {
        let Record { data, .. } = self;
        data
    }
}

impl<N, D> Record<N, D> {
    /// Takes out the owner and the RDATA.
    pub fn into_owner_and_data(self) -> (N, D)
        ensures owner { result.0 ≡ owner_of self }
        ensures value { result.1 ≡ data_of self }
    {
        let Record { owner, data, .. } = self;
        (owner, data)
    }
}

impl<N, D: RecordData> Record<N, D> {
    /// The record type, which is that of the RDATA.
    pub fn rtype(&self) -> Rtype
        ensures { result ≡ D.rtype_of (data_of self.now) }
    {
        self.data.rtype()
    }
}

/// The record itself.
impl<N, D> AsRef<Record<N, D>> for Record<N, D> {
    fn as_ref(&self) -> &Record<N, D>
        ensures { result.now ≡ self.now }
    {
        self
    }
}

/// The record with an owner, a class, a TTL and RDATA.
impl<N, D> From<(N, Class, Ttl, D)> for Record<N, D> {
    ghost from_gives = { λ fields r. HasFields r fields.0 fields.1 fields.2 fields.3 };

    fn from((owner, class, ttl, data): (N, Class, Ttl, D)) -> Self {
        Record::new(owner, class, ttl, data)
    }
}

/// The record with an owner, a class, a TTL in seconds and RDATA.
impl<N, D> From<(N, Class, u32, D)> for Record<N, D> {
    ghost from_gives = { λ fields r. HasFields r fields.0 fields.1 fields.2 fields.3 };

    fn from((owner, class, seconds, data): (N, Class, u32, D)) -> Self {
        Record::new(owner, class, Ttl::from_secs(seconds), data)
    }
}

/// A record in the class IN, with the TTL in seconds.
impl<N, D> From<(N, u32, D)> for Record<N, D> {
    ghost from_gives = { λ fields r. HasFields r fields.0 1 fields.1 fields.2 };

    fn from((owner, seconds, data): (N, u32, D)) -> Self {
        Record::new(owner, Class::IN, Ttl::from_secs(seconds), data)
    }
}

impl<N: ToName, D: ComposeRecordData> Record<N, D> {
    /// Appends the record: its owner by the target's compression rule, type, class, TTL, RDLENGTH
    /// and RDATA.
    ///
    /// On error the content still begins with the old content. A `truncate` to the old length
    /// restores the old target.
    #[inline(always)]
    pub fn compose<T: Composer>(&self, target: &mut T) -> Result<(), AppendError>
        ensures composes { Composes T.capacity T.grows
            (encode_record T.rule (record_item N.name D.rtype_of D.parts self.now))
            (T.written target.old) (T.written target.new) result }
        ensures is_record { OnOk result (IsRecord
            (record_item N.name D.rtype_of D.parts self.now)) }
    {
        let fields = field_octets(self.rtype(), self.class(), self.ttl());
        target.append_compressed_name(&self.owner)?;
        if let Some(octets) = self.data.flat_rdata() {
            if octets.len() <= MOST_AT_ONCE {
                return append_at_once(&fields, octets, target);
            }
        }
        target.append_slice(&fields)?;
        compose_len_rdata(&self.data, target)
    }
}

/// Appends the fields, then the number of `octets` as RDLENGTH, then the octets.
#[inline(always)]
fn append_at_once<T: Composer>(
    fields: &[u8; 8],
    octets: &[u8],
    target: &mut T,
) -> Result<(), AppendError>
    requires { length octets.now ≤ MOST_AT_ONCE }
    ensures { Appends T.capacity T.grows (encode_octets (fields.now ++
        (to_be_bytes w16 (length octets.now) ++ octets.now)))
        (T.written target.old) (T.written target.new) result }
{
    let len = octets.len();
    let mut encoding = [0; 26];
    encoding[..8].copy_from_slice(fields);
    encoding[9] = len as u8;
    encoding[10..10 + len].copy_from_slice(octets);
    target.append_slice(&encoding[..10 + len])
}

/// The octets of a type, a class and a TTL, big-endian.
pub(crate) fn field_octets(rtype: Rtype, class: Class, ttl: Ttl) -> [u8; 8]
    ensures { result ≡ to_be_bytes w16 rtype ++ to_be_bytes w16 class ++ to_be_bytes w32 ttl }
{
    let [a, b] = rtype.to_int().to_be_bytes();
    let [c, d] = class.to_int().to_be_bytes();
    let [e, f, g, h] = ttl.as_secs().to_be_bytes();
    [a, b, c, d, e, f, g, h]
}

/// A value that can be pushed into a record section.
pub trait ComposeRecord {
    /// The record.
    ghost item: { Self → RecordItem };

    /// Appends the record: its owner by the target's compression rule, type, class, TTL, RDLENGTH
    /// and RDATA.
    ///
    /// On error the content still begins with the old content. A `truncate` to the old length
    /// restores the old target.
    fn compose_record<T: Composer>(&self, target: &mut T) -> Result<(), AppendError>
        ensures composes { Composes T.capacity T.grows (encode_record T.rule (item self.now))
            (T.written target.old) (T.written target.new) result }
        ensures is_record { OnOk result (IsRecord (item self.now)) };
}

impl<R: ComposeRecord> ComposeRecord for &R {
    ghost item = { λ r. R.item r.now };

    fn compose_record<T: Composer>(&self, target: &mut T) -> Result<(), AppendError> {
        (**self).compose_record(target)
    }
}

impl<N: ToName, D: ComposeRecordData> ComposeRecord for Record<N, D> {
    ghost item = { λ r. record_item N.name D.rtype_of D.parts r };

    fn compose_record<T: Composer>(&self, target: &mut T) -> Result<(), AppendError> {
        self.compose(target)
    }
}

impl<N: ToName, D: ComposeRecordData> ComposeRecord for (N, Class, Ttl, D) {
    ghost item = { λ fields.
        item_of_fields N.name D.rtype_of D.parts fields.0 fields.1 fields.2 fields.3 };

    fn compose_record<T: Composer>(&self, target: &mut T) -> Result<(), AppendError> {
        let (owner, class, ttl, data) = self;
        Record::new(owner, *class, *ttl, data).compose(target)
    }
}

/// A record with the TTL in seconds.
impl<N: ToName, D: ComposeRecordData> ComposeRecord for (N, Class, u32, D) {
    ghost item = { λ fields.
        item_of_fields N.name D.rtype_of D.parts fields.0 fields.1 fields.2 fields.3 };

    fn compose_record<T: Composer>(&self, target: &mut T) -> Result<(), AppendError> {
        let (owner, class, seconds, data) = self;
        Record::new(owner, *class, Ttl::from_secs(*seconds), data).compose(target)
    }
}

/// A record in the class IN.
impl<N: ToName, D: ComposeRecordData> ComposeRecord for (N, Ttl, D) {
    ghost item = { λ fields.
        item_of_fields N.name D.rtype_of D.parts fields.0 1 fields.1 fields.2 };

    fn compose_record<T: Composer>(&self, target: &mut T) -> Result<(), AppendError> {
        let (owner, ttl, data) = self;
        Record::new(owner, Class::IN, *ttl, data).compose(target)
    }
}

/// A record in the class IN, with the TTL in seconds.
impl<N: ToName, D: ComposeRecordData> ComposeRecord for (N, u32, D) {
    ghost item = { λ fields.
        item_of_fields N.name D.rtype_of D.parts fields.0 1 fields.1 fields.2 };

    fn compose_record<T: Composer>(&self, target: &mut T) -> Result<(), AppendError> {
        let (owner, seconds, data) = self;
        Record::new(owner, Class::IN, Ttl::from_secs(*seconds), data).compose(target)
    }
}
