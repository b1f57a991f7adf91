//! Theorems on lists of options, and on how values of options compare and clone. The functions do
//! nothing: each contract is a theorem.
ghost use Rattle.std.specs.Prelude.{◌≡◌, ◌↔◌, IsTrue};
ghost use Rattle.dns_edns.specs.Equality.{addresses_equal, subnets_equal, cookies_equal, errors_equal, known_data_equal};
ghost use Rattle.dns_edns.specs.Laws.{OptionsAreOne, OptionsAreReadBack};
ghost use Rattle.dns_edns.specs.OptHeader.{fields, no_fields};

use crate::error::{BadOptData, LongOptData};
use crate::header::OptHeader;
use crate::kinds::{Cookie, Expire, ExtendedError, TcpKeepalive};
use crate::known_data::KnownOptData;
use crate::option::SubnetAddr;
use crate::options::OptionIter;
use crate::subnet::ClientSubnet;

/// Octets encode at most one list of options.
pub fn options_are_one()
    ensures { OptionsAreOne }
{}

/// Options that are written in order are read back.
pub fn options_read_back()
    ensures { OptionsAreReadBack }
{}

/// Two values are equal if and only if they are the same, octets by what they are and not by where.
pub fn option_equality()
    ensures header { (a b : _) → IsTrue (⟦<OptHeader as PartialEq>⟧.eq a b) ↔ (a ≡ b) }
    ensures expire { (a b : _) → IsTrue (⟦<Expire as PartialEq>⟧.eq a b) ↔ (a ≡ b) }
    ensures keepalive { (a b : _) → IsTrue (⟦<TcpKeepalive as PartialEq>⟧.eq a b) ↔ (a ≡ b) }
    ensures cookie { ⟦<Cookie<'static> as PartialEq>⟧.eq ≡ cookies_equal }
    ensures extended_error { ⟦<ExtendedError<'static> as PartialEq>⟧.eq ≡ errors_equal }
    ensures address { ⟦<SubnetAddr as PartialEq>⟧.eq ≡ addresses_equal }
    ensures subnet { ⟦<ClientSubnet as PartialEq>⟧.eq ≡ subnets_equal }
    ensures known { ⟦<KnownOptData<'static> as PartialEq>⟧.eq ≡ known_data_equal }
    ensures long { (a b : _) → IsTrue (⟦<LongOptData as PartialEq>⟧.eq a b) ↔ (a ≡ b) }
    ensures bad { (a b : _) → IsTrue (⟦<BadOptData as PartialEq>⟧.eq a b) ↔ (a ≡ b) }
{}

/// A clone is the same value. So a clone of an iterator yields the same options.
pub fn option_clones()
    ensures header { (a b : _) → ⟦<OptHeader as Clone>⟧.is_clone a b → b ≡ a }
    ensures expire { (a b : _) → ⟦<Expire as Clone>⟧.is_clone a b → b ≡ a }
    ensures keepalive { (a b : _) → ⟦<TcpKeepalive as Clone>⟧.is_clone a b → b ≡ a }
    ensures cookie { (a b : _) → ⟦<Cookie<'static> as Clone>⟧.is_clone a b → b ≡ a }
    ensures extended_error { (a b : _)
        → ⟦<ExtendedError<'static> as Clone>⟧.is_clone a b → b ≡ a }
    ensures address { (a b : _) → ⟦<SubnetAddr as Clone>⟧.is_clone a b → b ≡ a }
    ensures subnet { (a b : _) → ⟦<ClientSubnet as Clone>⟧.is_clone a b → b ≡ a }
    ensures known { (a b : _) → ⟦<KnownOptData<'static> as Clone>⟧.is_clone a b → b ≡ a }
    ensures options { (a b : _) → ⟦<OptionIter<'static> as Clone>⟧.is_clone a b → b ≡ a }
    ensures long { (a b : _) → ⟦<LongOptData as Clone>⟧.is_clone a b → b ≡ a }
    ensures bad { (a b : _) → ⟦<BadOptData as Clone>⟧.is_clone a b → b ≡ a }
{}

/// Cloning these values never fails.
pub fn option_clones_never_fail()
    ensures header { (a : _) → ⟦<OptHeader as Clone>⟧.is_infallible a }
    ensures expire { (a : _) → ⟦<Expire as Clone>⟧.is_infallible a }
    ensures keepalive { (a : _) → ⟦<TcpKeepalive as Clone>⟧.is_infallible a }
    ensures cookie { (a : _) → ⟦<Cookie<'static> as Clone>⟧.is_infallible a }
    ensures extended_error { (a : _) → ⟦<ExtendedError<'static> as Clone>⟧.is_infallible a }
    ensures address { (a : _) → ⟦<SubnetAddr as Clone>⟧.is_infallible a }
    ensures subnet { (a : _) → ⟦<ClientSubnet as Clone>⟧.is_infallible a }
    ensures known { (a : _) → ⟦<KnownOptData<'static> as Clone>⟧.is_infallible a }
    ensures options { (a : _) → ⟦<OptionIter<'static> as Clone>⟧.is_infallible a }
    ensures long { (a : _) → ⟦<LongOptData as Clone>⟧.is_infallible a }
    ensures bad { (a : _) → ⟦<BadOptData as Clone>⟧.is_infallible a }
{}

/// By default each field of an OPT record's header is 0 (RFC 6891 section 6.1.3).
pub fn header_default()
    ensures { (header : _) → ⟦<OptHeader as Default>⟧.is_default header → fields header ≡ no_fields }
{}
