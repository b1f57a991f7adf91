//! Conversions of RDATA to the same RDATA with other types of names and octets.
ghost use Rattle.std.specs.Prelude.{◌≡◌, ◌⊎◌};
ghost use Rattle.dns_octets.specs.Converts.{Converts};
ghost use Rattle.dns_data.specs.A.{address_of};
ghost use Rattle.dns_data.specs.Conversions.{keeps_soa, keeps_unknown, keeps_opt};
ghost use Rattle.dns_data.specs.NameData.{nsdname_of, cname_of};
ghost use Rattle.dns_data.specs.Opt.{opt_buffer};
ghost use Rattle.dns_data.specs.Soa.{mname_of, rname_of};
ghost use Rattle.dns_data.specs.UnknownData.{unknown_buffer};

use crate::a::A;
use crate::name_data::{Cname, Ns};
use crate::opt::Opt;
use crate::soa::Soa;
use crate::unknown::UnknownRecordData;
use dns_name::FlattenInto;
use dns_octets::{AppendError, BufferFrom, Octets, OctetsFrom, join_conversions};
use std::alloc::Global;

impl OctetsFrom<A> for A {
    ghost keeps = { λ source a. address_of a ≡ address_of source };

    ghost too_long = { λ _. ⊥ };

    ghost takes_memory = { ⊥ };

    fn try_octets_from(_alloc: Global, source: A) -> Result<Self, AppendError> {
        Ok(source)
    }
}

impl FlattenInto<A> for A {
    ghost keeps = { λ source a. address_of a ≡ address_of source };

    ghost too_long = { λ _. ⊥ };

    ghost takes_memory = { ⊥ };

    fn try_flatten_into(self, _alloc: Global) -> Result<A, AppendError> {
        Ok(self)
    }
}

impl<S, N: OctetsFrom<S>> OctetsFrom<Ns<S>> for Ns<N> {
    ghost keeps = { λ source ns. N.keeps (nsdname_of source) (nsdname_of ns) };

    ghost too_long = { λ source. N.too_long (nsdname_of source) };

    ghost takes_memory = { N.takes_memory };

    fn try_octets_from(alloc: Global, source: Ns<S>) -> Result<Self, AppendError> {
        let nsdname = N::try_octets_from(alloc, source.into_nsdname())?;
        Ok(Ns::new(nsdname))
    }
}

impl<N, S: FlattenInto<N>> FlattenInto<Ns<N>> for Ns<S> {
    ghost keeps = { λ source ns. S.keeps (nsdname_of source) (nsdname_of ns) };

    ghost too_long = { λ source. S.too_long (nsdname_of source) };

    ghost takes_memory = { S.takes_memory };

    fn try_flatten_into(self, alloc: Global) -> Result<Ns<N>, AppendError> {
        let nsdname = self.into_nsdname().try_flatten_into(alloc)?;
        Ok(Ns::new(nsdname))
    }
}

impl<S, N: OctetsFrom<S>> OctetsFrom<Cname<S>> for Cname<N> {
    ghost keeps = { λ source cname. N.keeps (cname_of source) (cname_of cname) };

    ghost too_long = { λ source. N.too_long (cname_of source) };

    ghost takes_memory = { N.takes_memory };

    fn try_octets_from(alloc: Global, source: Cname<S>) -> Result<Self, AppendError> {
        let cname = N::try_octets_from(alloc, source.into_cname())?;
        Ok(Cname::new(cname))
    }
}

impl<N, S: FlattenInto<N>> FlattenInto<Cname<N>> for Cname<S> {
    ghost keeps = { λ source cname. S.keeps (cname_of source) (cname_of cname) };

    ghost too_long = { λ source. S.too_long (cname_of source) };

    ghost takes_memory = { S.takes_memory };

    fn try_flatten_into(self, alloc: Global) -> Result<Cname<N>, AppendError> {
        let cname = self.into_cname().try_flatten_into(alloc)?;
        Ok(Cname::new(cname))
    }
}

/// Converts both names before it returns an error: `ShortBuf` of either name takes precedence over
/// `OutOfMemory`.
impl<S, N: OctetsFrom<S> + Drop> OctetsFrom<Soa<S>> for Soa<N> {
    ghost keeps = { keeps_soa N.keeps };

    ghost too_long = { λ source. N.too_long (mname_of source) ⊎ N.too_long (rname_of source) };

    ghost takes_memory = { N.takes_memory };

    fn try_octets_from(alloc: Global, source: Soa<S>) -> Result<Self, AppendError> {
        let (mname, rname, numbers) = source.into_parts();
        let mname = N::try_octets_from(alloc, mname);
        let rname = N::try_octets_from(alloc, rname);
        let (mname, rname) = join_conversions(mname, rname)?;
        Ok(Soa::of_parts(mname, rname, numbers))
    }
}

/// Converts both names before it returns an error: `ShortBuf` of either name takes precedence over
/// `OutOfMemory`.
impl<N: Drop, S: FlattenInto<N>> FlattenInto<Soa<N>> for Soa<S> {
    ghost keeps = { keeps_soa S.keeps };

    ghost too_long = { λ source. S.too_long (mname_of source) ⊎ S.too_long (rname_of source) };

    ghost takes_memory = { S.takes_memory };

    fn try_flatten_into(self, alloc: Global) -> Result<Soa<N>, AppendError> {
        let (mname, rname, numbers) = self.into_parts();
        let mname = mname.try_flatten_into(alloc);
        let rname = rname.try_flatten_into(alloc);
        let (mname, rname) = join_conversions(mname, rname)?;
        Ok(Soa::of_parts(mname, rname, numbers))
    }
}

/// Converts the octets. The type stays.
impl<S: Octets, T: BufferFrom<S>> OctetsFrom<UnknownRecordData<S>> for UnknownRecordData<T> {
    ghost keeps = { keeps_unknown };

    ghost too_long = { λ source. T.too_long (unknown_buffer source) };

    ghost takes_memory = { T.takes_memory };

    fn try_octets_from(alloc: Global, source: UnknownRecordData<S>) -> Result<Self, AppendError> {
        let (rtype, octets) = source.into_parts();
        let octets = T::try_octets_from(alloc, octets)?;
        Ok(UnknownRecordData::of_short(rtype, octets))
    }
}

/// As `try_octets_from`.
impl<S: Octets, T: BufferFrom<S>> FlattenInto<UnknownRecordData<T>> for UnknownRecordData<S> {
    ghost keeps = { keeps_unknown };

    ghost too_long = { λ source. T.too_long (unknown_buffer source) };

    ghost takes_memory = { T.takes_memory };

    fn try_flatten_into(self, alloc: Global) -> Result<UnknownRecordData<T>, AppendError> {
        UnknownRecordData::try_octets_from(alloc, self)
    }
}

/// Converts the octets.
impl<S: Octets, T: BufferFrom<S>> OctetsFrom<Opt<S>> for Opt<T> {
    ghost keeps = { keeps_opt };

    ghost too_long = { λ source. T.too_long (opt_buffer source) };

    ghost takes_memory = { T.takes_memory };

    fn try_octets_from(alloc: Global, source: Opt<S>) -> Result<Self, AppendError> {
        let octets = T::try_octets_from(alloc, source.into_data())?;
        Ok(Opt::of_options(octets))
    }
}

/// As `try_octets_from`.
impl<S: Octets, T: BufferFrom<S>> FlattenInto<Opt<T>> for Opt<S> {
    ghost keeps = { keeps_opt };

    ghost too_long = { λ source. T.too_long (opt_buffer source) };

    ghost takes_memory = { T.takes_memory };

    fn try_flatten_into(self, alloc: Global) -> Result<Opt<T>, AppendError> {
        Opt::try_octets_from(alloc, self)
    }
}
