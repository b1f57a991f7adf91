//! Theorems on composed parts, on RDATA in octets and on how RDATA compares, hashes and clones. The
//! functions do nothing: each contract is a theorem over all targets, parts, octets, layouts and
//! values.
ghost use Rattle.std.specs.Prelude.{◌≡◌, ◌↔◌, IsTrue};
ghost use Rattle.std.specs.Ordering.{as_partial_cmp, on};
ghost use Rattle.dns_data.specs.A.{address_of};
ghost use Rattle.dns_data.specs.CanonicalOrders.{octet_order};
ghost use Rattle.dns_data.specs.DataOrders.{address_hash_input};
ghost use Rattle.dns_data.specs.DataOrders.{zones_equal, zone_order, zone_hash_input, IsZoneClone};
ghost use Rattle.dns_data.specs.NameData.{nsdname_of, cname_of};
ghost use Rattle.dns_data.specs.Soa.{mname_of, rname_of};
ghost use Rattle.dns_data.specs.Laws.{NoPartComposes, OnePartComposes, PartsComposeAfter, RefusedPartComposes, NamesAreBounded, OneRdataOrFault, EncodedPartsRead};

use crate::a::A;
use crate::error::LongRecordData;
use crate::name_data::{Cname, Ns};
use crate::soa::Soa;
use std::hash::Hash;

/// Appending parts one by one composes all of them. Composing no parts changes nothing. One append
/// composes one part. Composing the remaining parts after the first is appended composes all. If
/// the first part can't be appended, composing all parts fails with that error.
pub fn parts_compose()
    ensures none { NoPartComposes }
    ensures one { OnePartComposes }
    ensures after { PartsComposeAfter }
    ensures refused { RefusedPartComposes }
{}

/// An uncompressed name has at most 255 octets.
pub fn names_are_bounded()
    ensures { NamesAreBounded }
{}

/// At each offset the fields of a layout either are there, with one list of parts and one end, or
/// have exactly one fault.
pub fn one_rdata_or_fault()
    ensures { OneRdataOrFault }
{}

/// Parts that fill a range of octets, as written parts do, are read back by every layout that they
/// have.
pub fn parts_read_back()
    ensures { EncodedPartsRead }
{}

/// Two values of SOA data are equal if and only if all their fields are.
pub fn zone_equality<N: PartialEq>()
    ensures { ⟦<Soa<N> as PartialEq>⟧.eq ≡ zones_equal N.eq }
{}

/// SOA data compares by MNAME, RNAME, SERIAL, REFRESH, RETRY, EXPIRE and MINIMUM, in this order.
pub fn zone_orders<N: Ord>()
    ensures total { ⟦<Soa<N> as Ord>⟧.cmp ≡ zone_order N.cmp }
    ensures partial { (a : _) (b : _) → ⟦<Soa<N> as PartialOrd>⟧.partial_cmp a b
        ≡ as_partial_cmp (zone_order N.cmp) a b }
{}

/// Hashing SOA data feeds the hasher the fields in the order of the wire.
pub fn zone_hash<N: Hash>()
    ensures { ⟦<Soa<N> as Hash>⟧.hash_input ≡ zone_hash_input N.hash_input }
{}

/// Two addresses are equal if and only if their octets are the same, and values that are one name if
/// and only if the names are.
pub fn data_equality<N: PartialEq>()
    ensures address { (a b : _) → IsTrue (⟦<A as PartialEq>⟧.eq a b)
        ↔ (address_of a ≡ address_of b) }
    ensures ns { ⟦<Ns<N> as PartialEq>⟧.eq ≡ on nsdname_of N.eq }
    ensures cname { ⟦<Cname<N> as PartialEq>⟧.eq ≡ on cname_of N.eq }
    ensures error { (a b : _) → IsTrue (⟦<LongRecordData as PartialEq>⟧.eq a b) ↔ (a ≡ b) }
{}

/// Addresses compare by their octets, and RDATA that is one name as the names do.
pub fn data_orders<N: Ord>()
    ensures address { ⟦<A as Ord>⟧.cmp ≡ on address_of octet_order }
    ensures address_partial { (a b : _) → ⟦<A as PartialOrd>⟧.partial_cmp a b
        ≡ as_partial_cmp (on address_of octet_order) a b }
    ensures ns { ⟦<Ns<N> as Ord>⟧.cmp ≡ on nsdname_of N.cmp }
    ensures ns_partial { (a b : _) → ⟦<Ns<N> as PartialOrd>⟧.partial_cmp a b
        ≡ as_partial_cmp (on nsdname_of N.cmp) a b }
    ensures cname { ⟦<Cname<N> as Ord>⟧.cmp ≡ on cname_of N.cmp }
    ensures cname_partial { (a b : _) → ⟦<Cname<N> as PartialOrd>⟧.partial_cmp a b
        ≡ as_partial_cmp (on cname_of N.cmp) a b }
{}

/// Hashing an address feeds the hasher its octets, and RDATA that is one name what the name feeds.
pub fn data_hash<N: Hash>()
    ensures address { ⟦<A as Hash>⟧.hash_input ≡ address_hash_input }
    ensures ns { (a : _) → ⟦<Ns<N> as Hash>⟧.hash_input a ≡ N.hash_input (nsdname_of a) }
    ensures cname { (a : _) → ⟦<Cname<N> as Hash>⟧.hash_input a ≡ N.hash_input (cname_of a) }
{}

/// A clone has clones of the names and the same octets and numbers.
pub fn data_clones<N: Clone>()
    ensures address { (a b : _) → ⟦<A as Clone>⟧.is_clone a b → b ≡ a }
    ensures ns { (a b : _) → ⟦<Ns<N> as Clone>⟧.is_clone a b
        → N.is_clone (nsdname_of a) (nsdname_of b) }
    ensures cname { (a b : _) → ⟦<Cname<N> as Clone>⟧.is_clone a b
        → N.is_clone (cname_of a) (cname_of b) }
    ensures zone { (a b : _) → ⟦<Soa<N> as Clone>⟧.is_clone a b → IsZoneClone N.is_clone a b }
    ensures error { (a b : _) → ⟦<LongRecordData as Clone>⟧.is_clone a b → b ≡ a }
{}

/// Cloning fails only if cloning a name can.
pub fn data_clones_succeed<N: Clone>()
    ensures address { (a : _) → ⟦<A as Clone>⟧.is_infallible a }
    ensures ns { (a : _) → N.is_infallible (nsdname_of a) → ⟦<Ns<N> as Clone>⟧.is_infallible a }
    ensures cname { (a : _) → N.is_infallible (cname_of a)
        → ⟦<Cname<N> as Clone>⟧.is_infallible a }
    ensures zone { (a : _) → N.is_infallible (mname_of a) → N.is_infallible (rname_of a)
        → ⟦<Soa<N> as Clone>⟧.is_infallible a }
    ensures error { (a : _) → ⟦<LongRecordData as Clone>⟧.is_infallible a }
{}
