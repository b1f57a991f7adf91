//! Conversions of records between types of owners and RDATA.
ghost use Rattle.std.specs.Prelude.{◌≡◌, ◌⊎◌};
ghost use Rattle.dns_item.specs.Record.{owner_of, data_of};
ghost use Rattle.dns_item.specs.RecordConversions.{KeepsRecord, joined_record};

use crate::record::Record;
use dns_code::Ttl;
use dns_iana::Class;
use dns_name::FlattenInto;
use dns_octets::{AppendError, OctetsFrom, join_conversions};
use std::alloc::Global;

/// Converts the owner and the RDATA. The class and the TTL stay.
///
/// Both are converted before an error is returned: `ShortBuf` of either takes precedence over
/// `OutOfMemory`.
impl<S, E, N, D> OctetsFrom<Record<S, E>> for Record<N, D>
where
    N: OctetsFrom<S> + Drop,
    D: OctetsFrom<E> + Drop,
{
    ghost keeps = { KeepsRecord N.keeps D.keeps };

    ghost too_long = { λ source. N.too_long (owner_of source) ⊎ D.too_long (data_of source) };

    ghost takes_memory = { N.takes_memory ⊎ D.takes_memory };

    fn try_octets_from(alloc: Global, source: Record<S, E>) -> Result<Self, AppendError> {
        let class = source.class();
        let ttl = source.ttl();
        let (owner, data) = source.into_owner_and_data();
        let owner = N::try_octets_from(alloc, owner);
        let data = D::try_octets_from(alloc, data);
        join_record(owner, class, ttl, data)
    }
}

/// Flattens the owner and the RDATA. The class and the TTL stay.
///
/// Both are flattened before an error is returned: `ShortBuf` of either takes precedence over
/// `OutOfMemory`.
impl<S, E, N, D> FlattenInto<Record<N, D>> for Record<S, E>
where
    S: FlattenInto<N>,
    E: FlattenInto<D>,
    N: Drop,
    D: Drop,
{
    ghost keeps = { KeepsRecord S.keeps E.keeps };

    ghost too_long = { λ source. S.too_long (owner_of source) ⊎ E.too_long (data_of source) };

    ghost takes_memory = { S.takes_memory ⊎ E.takes_memory };

    fn try_flatten_into(self, alloc: Global) -> Result<Record<N, D>, AppendError> {
        let class = self.class();
        let ttl = self.ttl();
        let (owner, data) = self.into_owner_and_data();
        let owner = owner.try_flatten_into(alloc);
        let data = data.try_flatten_into(alloc);
        join_record(owner, class, ttl, data)
    }
}

/// The record of a converted owner and converted RDATA, or the error.
fn join_record<N: Drop, D: Drop>(
    owner: Result<N, AppendError>,
    class: Class,
    ttl: Ttl,
    data: Result<D, AppendError>,
) -> Result<Record<N, D>, AppendError>
    ensures { result ≡ joined_record owner class ttl «data» }
{
    match join_conversions(owner, data) {
        Ok((owner, data)) => Ok(Record::new(owner, class, ttl, data)),
        Err(error) => Err(error),
    }
}
