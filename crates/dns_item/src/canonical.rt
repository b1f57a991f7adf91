//! Records and record headers in canonical form (RFC 4034 section 6.2).
ghost use Rattle.dns_wire.specs.Targets.{Composes};
ghost use Rattle.dns_item.specs.Canonical.{encode_canonical_record, encode_canonical_header};
ghost use Rattle.dns_item.specs.Record.{record_item};
ghost use Rattle.dns_item.specs.RecordHeader.{header_item};

use crate::record::{Record, field_octets};
use crate::record_header::RecordHeader;
use dns_data::{ComposeRecordData, compose_canonical_len_rdata};
use dns_name::ToName;
use dns_octets::AppendError;
use dns_wire::{Composer, ToNameExt};

impl<N: ToName, D: ComposeRecordData> Record<N, D> {
    /// Appends the record in canonical form (RFC 4034 section 6.2). The owner and the names in the
    /// RDATA are uncompressed and lowercased. Some names in RDATA keep their letter case, as that of
    /// NSEC does.
    ///
    /// On error the content still begins with the old content. A `truncate` to the old length
    /// restores the old target.
    pub fn compose_canonical<T: Composer>(&self, target: &mut T) -> Result<(), AppendError>
        ensures { Composes T.capacity T.grows
            (encode_canonical_record T.rule (record_item N.name D.rtype_of D.parts self.now))
            (T.written target.old) (T.written target.new) result }
    {
        let fields = field_octets(self.rtype(), self.class(), self.ttl());
        self.owner().compose_canonical(target)?;
        target.append_slice(&fields)?;
        compose_canonical_len_rdata(self.data(), target)
    }
}

impl<N: ToName> RecordHeader<N> {
    /// Appends the header in canonical form (RFC 4034 section 6.2): the owner is lowercased and
    /// uncompressed. RDLENGTH is the header's `rdlen`, in octets.
    ///
    /// On error the content still begins with the old content. A `truncate` to the old length
    /// restores the old target.
    pub fn compose_canonical<T: Composer>(&self, target: &mut T) -> Result<(), AppendError>
        ensures { Composes T.capacity T.grows
            (encode_canonical_header (header_item N.name self.now)) (T.written target.old)
            (T.written target.new) result }
    {
        let name = self.owner();
        let octets = self.field_octets();
        name.compose_canonical(target)?;
        target.append_slice(&octets)
    }
}
