ghost use Rattle.std.specs.Prelude.{◌≡◌, ◌↔◌, ℕ, Some, ◌+◌, ◌*◌, ◌/◌, ◌%◌, ◌<◌};
ghost use Rattle.std.specs.Option.{SomeIff, option_copied};
ghost use Rattle.dns_iana.specs.Mnemonics.{mnemonic};
ghost use Rattle.dns_iana.specs.Rcodes.{IsRcode, IsOptRcode};
ghost use Rattle.dns_iana.specs.RegisteredTexts.{SpellsRcode, SpellsOptRcode};
ghost use Rattle.dns_iana.specs.Registry.{registered_rcodes, registered_opt_rcodes};

use crate::mnemonic::{self, Entry};
use crate::registry;
use std::marker::Model;

/// The response code in a header, a number from 0 to 15 (RFC 1035 section 4.1.1).
#[derive(Clone, Copy, Debug, PartialEq, Eq, PartialOrd, Ord, Hash)]
pub struct Rcode(u8);

impl Model for Rcode {
    ghost Value = { ℕ };

    ghost view = { λ rcode. rcode.0 };

    ghost invariant = { λ rcode. IsRcode rcode.0 };

    ghost inverse = { λ n. record { 0 = n } };
}

/// The registered rcodes and their names.
const RCODES: [Entry; 12] = [
    (Rcode::NOERROR.0 as u16, "NoError"),
    (Rcode::FORMERR.0 as u16, "FormErr"),
    (Rcode::SERVFAIL.0 as u16, "ServFail"),
    (Rcode::NXDOMAIN.0 as u16, "NXDomain"),
    (Rcode::NOTIMP.0 as u16, "NotImp"),
    (Rcode::REFUSED.0 as u16, "Refused"),
    (Rcode::YXDOMAIN.0 as u16, "YXDomain"),
    (Rcode::YXRRSET.0 as u16, "YXRRSet"),
    (Rcode::NXRRSET.0 as u16, "NXRRSet"),
    (Rcode::NOTAUTH.0 as u16, "NotAuth"),
    (Rcode::NOTZONE.0 as u16, "NotZone"),
    (Rcode::DSOTYPENI.0 as u16, "DSOTYPENI"),
];

impl Rcode {
    /// No error, 0 (RFC 1035 section 4.1.1).
    pub const NOERROR: Rcode = Rcode(0);

    /// The server couldn't interpret the query, 1 (RFC 1035 section 4.1.1).
    pub const FORMERR: Rcode = Rcode(1);

    /// The server failed, 2 (RFC 1035 section 4.1.1).
    pub const SERVFAIL: Rcode = Rcode(2);

    /// The name doesn't exist, 3 (RFC 1035 section 4.1.1).
    pub const NXDOMAIN: Rcode = Rcode(3);

    /// The server doesn't implement this kind of query, 4 (RFC 1035 section 4.1.1).
    pub const NOTIMP: Rcode = Rcode(4);

    /// The server refuses to respond, 5 (RFC 1035 section 4.1.1).
    pub const REFUSED: Rcode = Rcode(5);

    /// A name exists that shouldn't, 6 (RFC 2136 section 2.2).
    pub const YXDOMAIN: Rcode = Rcode(6);

    /// Records exist that shouldn't, 7 (RFC 2136 section 2.2).
    pub const YXRRSET: Rcode = Rcode(7);

    /// Records that should exist don't, 8 (RFC 2136 section 2.2).
    pub const NXRRSET: Rcode = Rcode(8);

    /// The server isn't authoritative or the request not authorized, 9 (RFC 2136, RFC 8945).
    pub const NOTAUTH: Rcode = Rcode(9);

    /// A name isn't in the zone, 10 (RFC 2136 section 2.2).
    pub const NOTZONE: Rcode = Rcode(10);

    /// The type of a stateful message isn't implemented, 11 (RFC 8490).
    pub const DSOTYPENI: Rcode = Rcode(11);

    /// The rcode with this number, `None` above 15.
    pub fn checked_from_int(number: u8) -> Option<Self>
        ensures { SomeIff result (IsRcode number) number }
    {
        if number < 16 {
            Some(Rcode(number))
        } else {
            None
        }
    }

    /// The rcode in the low four bits of the number.
    pub fn masked_from_int(number: u8) -> Self
        ensures { result ≡ number % 16 }
    {
        Rcode(number & 0x0f)
    }

    /// The number of the rcode.
    pub fn to_int(self) -> u8
        ensures value { result ≡ self }
        ensures within { IsRcode result }
    {
        self.0
    }

    /// The name that IANA has registered for the rcode, such as `NXDomain`.
    #[tactic(auto, unfolding(crate::specs::Registry::registered_rcodes))]
    pub fn registered_name(self) -> Option<&'static str>
        ensures { option_copied result ≡ mnemonic registered_rcodes self }
    {
        registry::name_of(&RCODES, u16::from(self.0))
    }

    /// The rcode with this registered name, ignoring ASCII case. `RCODE` and a decimal number up to
    /// 15 is read, too.
    #[tactic(auto, unfolding(crate::specs::Registry::registered_rcodes))]
    pub fn from_registered_name(text: &str) -> Option<Self>
        ensures { (n : ℕ) → SpellsRcode text.now n ↔ (result ≡ Some n) }
    {
        let rcode = mnemonic::read(&RCODES, "RCODE", text)?;
        if rcode < 16 {
            Some(Rcode(rcode as u8))
        } else {
            None
        }
    }
}

/// The extended response code, a number from 0 to 4,095: the low four bits are in the header, the
/// upper eight in the OPT record (RFC 6891 section 6.1.3).
#[derive(Clone, Copy, Debug, PartialEq, Eq, PartialOrd, Ord, Hash)]
pub struct OptRcode(u16);

impl Model for OptRcode {
    ghost Value = { ℕ };

    ghost view = { λ rcode. rcode.0 };

    ghost invariant = { λ rcode. IsOptRcode rcode.0 };

    ghost inverse = { λ n. record { 0 = n } };
}

/// The registered extended rcodes and their names. In an OPT record 16 isn't TSIG's `BADSIG`.
const OPT_RCODES: [Entry; 20] = [
    (OptRcode::NOERROR.0, "NoError"),
    (OptRcode::FORMERR.0, "FormErr"),
    (OptRcode::SERVFAIL.0, "ServFail"),
    (OptRcode::NXDOMAIN.0, "NXDomain"),
    (OptRcode::NOTIMP.0, "NotImp"),
    (OptRcode::REFUSED.0, "Refused"),
    (OptRcode::YXDOMAIN.0, "YXDomain"),
    (OptRcode::YXRRSET.0, "YXRRSet"),
    (OptRcode::NXRRSET.0, "NXRRSet"),
    (OptRcode::NOTAUTH.0, "NotAuth"),
    (OptRcode::NOTZONE.0, "NotZone"),
    (OptRcode::DSOTYPENI.0, "DSOTYPENI"),
    (OptRcode::BADVERS.0, "BADVERS"),
    (OptRcode::BADKEY.0, "BADKEY"),
    (OptRcode::BADTIME.0, "BADTIME"),
    (OptRcode::BADMODE.0, "BADMODE"),
    (OptRcode::BADNAME.0, "BADNAME"),
    (OptRcode::BADALG.0, "BADALG"),
    (OptRcode::BADTRUNC.0, "BADTRUNC"),
    (OptRcode::BADCOOKIE.0, "BADCOOKIE"),
];

impl OptRcode {
    /// No error, 0 (RFC 1035 section 4.1.1).
    pub const NOERROR: OptRcode = OptRcode(0);

    /// The server couldn't interpret the query, 1 (RFC 1035 section 4.1.1).
    pub const FORMERR: OptRcode = OptRcode(1);

    /// The server failed, 2 (RFC 1035 section 4.1.1).
    pub const SERVFAIL: OptRcode = OptRcode(2);

    /// The name doesn't exist, 3 (RFC 1035 section 4.1.1).
    pub const NXDOMAIN: OptRcode = OptRcode(3);

    /// The server doesn't implement this kind of query, 4 (RFC 1035 section 4.1.1).
    pub const NOTIMP: OptRcode = OptRcode(4);

    /// The server refuses to respond, 5 (RFC 1035 section 4.1.1).
    pub const REFUSED: OptRcode = OptRcode(5);

    /// A name exists that shouldn't, 6 (RFC 2136 section 2.2).
    pub const YXDOMAIN: OptRcode = OptRcode(6);

    /// Records exist that shouldn't, 7 (RFC 2136 section 2.2).
    pub const YXRRSET: OptRcode = OptRcode(7);

    /// Records that should exist don't, 8 (RFC 2136 section 2.2).
    pub const NXRRSET: OptRcode = OptRcode(8);

    /// The server isn't authoritative or the request not authorized, 9 (RFC 2136, RFC 8945).
    pub const NOTAUTH: OptRcode = OptRcode(9);

    /// A name isn't in the zone, 10 (RFC 2136 section 2.2).
    pub const NOTZONE: OptRcode = OptRcode(10);

    /// The type of a stateful message isn't implemented, 11 (RFC 8490).
    pub const DSOTYPENI: OptRcode = OptRcode(11);

    /// The EDNS version isn't implemented, 16 (RFC 6891 section 9).
    pub const BADVERS: OptRcode = OptRcode(16);

    /// The key of a transaction is unknown, 17 (RFC 8945).
    pub const BADKEY: OptRcode = OptRcode(17);

    /// The time of a signature is out of range, 18 (RFC 8945).
    pub const BADTIME: OptRcode = OptRcode(18);

    /// The mode of a TKEY record isn't supported, 19 (RFC 2930).
    pub const BADMODE: OptRcode = OptRcode(19);

    /// The name of a key is in use, 20 (RFC 2930).
    pub const BADNAME: OptRcode = OptRcode(20);

    /// The algorithm of a key isn't supported, 21 (RFC 2930).
    pub const BADALG: OptRcode = OptRcode(21);

    /// A signature is truncated too much, 22 (RFC 8945).
    pub const BADTRUNC: OptRcode = OptRcode(22);

    /// The server cookie is missing or wrong, 23 (RFC 7873).
    pub const BADCOOKIE: OptRcode = OptRcode(23);

    /// The extended rcode with this number, `None` above 4,095.
    pub fn checked_from_int(number: u16) -> Option<Self>
        ensures { SomeIff result (IsOptRcode number) number }
    {
        if number < 4096 {
            Some(OptRcode(number))
        } else {
            None
        }
    }

    /// The extended rcode of the four bits in the header and the upper eight bits in the OPT
    /// record.
    pub fn from_parts(rcode: Rcode, ext: u8) -> Self
        ensures { result ≡ ext * 16 + rcode }
    {
        OptRcode(u16::from(ext) * 16 + u16::from(rcode.to_int()))
    }

    /// The low four bits, which are in the header.
    pub fn rcode(self) -> Rcode
        ensures { result ≡ self % 16 }
    {
        Rcode((self.0 % 16) as u8)
    }

    /// The upper eight bits, which are in the OPT record (EXTENDED-RCODE).
    pub fn ext(self) -> u8
        ensures { result ≡ self / 16 }
    {
        (self.0 / 16) as u8
    }

    /// The number of the extended rcode.
    pub fn to_int(self) -> u16
        ensures value { result ≡ self }
        ensures within { IsOptRcode result }
    {
        self.0
    }

    /// The name that IANA has registered for the extended rcode, such as `BADVERS`.
    #[tactic(auto, unfolding(crate::specs::Registry::registered_opt_rcodes))]
    pub fn registered_name(self) -> Option<&'static str>
        ensures { option_copied result ≡ mnemonic registered_opt_rcodes self }
    {
        registry::name_of(&OPT_RCODES, self.0)
    }

    /// The extended rcode with this registered name, ignoring ASCII case. `RCODE` and a decimal
    /// number up to 4,095 is read, too. 16 is `BADVERS`; `BADSIG`, its name in TSIG records, isn't
    /// read (RFC 8945).
    #[tactic(auto, unfolding(crate::specs::Registry::registered_opt_rcodes))]
    pub fn from_registered_name(text: &str) -> Option<Self>
        ensures { (n : ℕ) → SpellsOptRcode text.now n ↔ (result ≡ Some n) }
    {
        let number = mnemonic::read(&OPT_RCODES, "RCODE", text)?;
        if number < 4096 {
            Some(OptRcode(number))
        } else {
            None
        }
    }
}

impl From<Rcode> for OptRcode {
    ghost from_gives = { λ rcode number. number ≡ rcode };

    fn from(rcode: Rcode) -> Self {
        OptRcode::from_parts(rcode, 0)
    }
}
