//! The record types that IANA has registered.
ghost use Rattle.std.specs.Prelude.{◌≡◌, ◌↔◌, ℕ, Some};
ghost use Rattle.std.specs.Option.{option_copied};
ghost use Rattle.dns_iana.specs.Mnemonics.{mnemonic};
ghost use Rattle.dns_iana.specs.RegisteredTexts.{SpellsRegisteredType};
ghost use Rattle.dns_iana.specs.Registry.{registered_types};

use crate::mnemonic::{self, Entry};
use crate::registry;
use crate::rtype::Rtype;

/// The registered record types and their names.
const TYPES: [Entry; 97] = [
    (Rtype::A.0, "A"),
    (Rtype::NS.0, "NS"),
    (Rtype::MD.0, "MD"),
    (Rtype::MF.0, "MF"),
    (Rtype::CNAME.0, "CNAME"),
    (Rtype::SOA.0, "SOA"),
    (Rtype::MB.0, "MB"),
    (Rtype::MG.0, "MG"),
    (Rtype::MR.0, "MR"),
    (Rtype::NULL.0, "NULL"),
    (Rtype::WKS.0, "WKS"),
    (Rtype::PTR.0, "PTR"),
    (Rtype::HINFO.0, "HINFO"),
    (Rtype::MINFO.0, "MINFO"),
    (Rtype::MX.0, "MX"),
    (Rtype::TXT.0, "TXT"),
    (Rtype::RP.0, "RP"),
    (Rtype::AFSDB.0, "AFSDB"),
    (Rtype::X25.0, "X25"),
    (Rtype::ISDN.0, "ISDN"),
    (Rtype::RT.0, "RT"),
    (Rtype::NSAP.0, "NSAP"),
    (Rtype::NSAPPTR.0, "NSAP-PTR"),
    (Rtype::SIG.0, "SIG"),
    (Rtype::KEY.0, "KEY"),
    (Rtype::PX.0, "PX"),
    (Rtype::GPOS.0, "GPOS"),
    (Rtype::AAAA.0, "AAAA"),
    (Rtype::LOC.0, "LOC"),
    (Rtype::NXT.0, "NXT"),
    (Rtype::EID.0, "EID"),
    (Rtype::NIMLOC.0, "NIMLOC"),
    (Rtype::SRV.0, "SRV"),
    (Rtype::ATMA.0, "ATMA"),
    (Rtype::NAPTR.0, "NAPTR"),
    (Rtype::KX.0, "KX"),
    (Rtype::CERT.0, "CERT"),
    (Rtype::A6.0, "A6"),
    (Rtype::DNAME.0, "DNAME"),
    (Rtype::SINK.0, "SINK"),
    (Rtype::OPT.0, "OPT"),
    (Rtype::APL.0, "APL"),
    (Rtype::DS.0, "DS"),
    (Rtype::SSHFP.0, "SSHFP"),
    (Rtype::IPSECKEY.0, "IPSECKEY"),
    (Rtype::RRSIG.0, "RRSIG"),
    (Rtype::NSEC.0, "NSEC"),
    (Rtype::DNSKEY.0, "DNSKEY"),
    (Rtype::DHCID.0, "DHCID"),
    (Rtype::NSEC3.0, "NSEC3"),
    (Rtype::NSEC3PARAM.0, "NSEC3PARAM"),
    (Rtype::TLSA.0, "TLSA"),
    (Rtype::SMIMEA.0, "SMIMEA"),
    (Rtype::HIP.0, "HIP"),
    (Rtype::NINFO.0, "NINFO"),
    (Rtype::RKEY.0, "RKEY"),
    (Rtype::TALINK.0, "TALINK"),
    (Rtype::CDS.0, "CDS"),
    (Rtype::CDNSKEY.0, "CDNSKEY"),
    (Rtype::OPENPGPKEY.0, "OPENPGPKEY"),
    (Rtype::CSYNC.0, "CSYNC"),
    (Rtype::ZONEMD.0, "ZONEMD"),
    (Rtype::SVCB.0, "SVCB"),
    (Rtype::HTTPS.0, "HTTPS"),
    (Rtype::DSYNC.0, "DSYNC"),
    (Rtype::HHIT.0, "HHIT"),
    (Rtype::BRID.0, "BRID"),
    (Rtype::SPF.0, "SPF"),
    (Rtype::UINFO.0, "UINFO"),
    (Rtype::UID.0, "UID"),
    (Rtype::GID.0, "GID"),
    (Rtype::UNSPEC.0, "UNSPEC"),
    (Rtype::NID.0, "NID"),
    (Rtype::L32.0, "L32"),
    (Rtype::L64.0, "L64"),
    (Rtype::LP.0, "LP"),
    (Rtype::EUI48.0, "EUI48"),
    (Rtype::EUI64.0, "EUI64"),
    (Rtype::NXNAME.0, "NXNAME"),
    (Rtype::TKEY.0, "TKEY"),
    (Rtype::TSIG.0, "TSIG"),
    (Rtype::IXFR.0, "IXFR"),
    (Rtype::AXFR.0, "AXFR"),
    (Rtype::MAILB.0, "MAILB"),
    (Rtype::MAILA.0, "MAILA"),
    (Rtype::ANY.0, "ANY"),
    (Rtype::URI.0, "URI"),
    (Rtype::CAA.0, "CAA"),
    (Rtype::AVC.0, "AVC"),
    (Rtype::DOA.0, "DOA"),
    (Rtype::AMTRELAY.0, "AMTRELAY"),
    (Rtype::RESINFO.0, "RESINFO"),
    (Rtype::WALLET.0, "WALLET"),
    (Rtype::CLA.0, "CLA"),
    (Rtype::IPN.0, "IPN"),
    (Rtype::TA.0, "TA"),
    (Rtype::DLV.0, "DLV"),
];

impl Rtype {
    /// An IPv4 address, 1 (RFC 1035 section 3.4.1).
    pub const A: Rtype = Rtype(1);

    /// A name server of the zone, 2 (RFC 1035 section 3.3.11).
    pub const NS: Rtype = Rtype(2);

    /// A mail destination, 3, obsolete (RFC 1035 section 3.3.4).
    pub const MD: Rtype = Rtype(3);

    /// A mail forwarder, 4, obsolete (RFC 1035 section 3.3.5).
    pub const MF: Rtype = Rtype(4);

    /// The canonical name of an alias, 5 (RFC 1035 section 3.3.1).
    pub const CNAME: Rtype = Rtype(5);

    /// The start of a zone of authority, 6 (RFC 1035 section 3.3.13).
    pub const SOA: Rtype = Rtype(6);

    /// The host of a mailbox, 7, experimental (RFC 1035 section 3.3.3).
    pub const MB: Rtype = Rtype(7);

    /// A member of a mail group, 8, experimental (RFC 1035 section 3.3.6).
    pub const MG: Rtype = Rtype(8);

    /// The new name of a mailbox, 9, experimental (RFC 1035 section 3.3.8).
    pub const MR: Rtype = Rtype(9);

    /// Any octets, 10, experimental (RFC 1035 section 3.3.10).
    pub const NULL: Rtype = Rtype(10);

    /// The well-known services of a host, 11 (RFC 1035 section 3.4.2).
    pub const WKS: Rtype = Rtype(11);

    /// A pointer to another name, 12 (RFC 1035 section 3.3.12).
    pub const PTR: Rtype = Rtype(12);

    /// Host information, 13 (RFC 1035 section 3.3.2).
    pub const HINFO: Rtype = Rtype(13);

    /// Mailbox or mail list information, 14, experimental (RFC 1035 section 3.3.7).
    pub const MINFO: Rtype = Rtype(14);

    /// A mail exchange, 15 (RFC 1035 section 3.3.9).
    pub const MX: Rtype = Rtype(15);

    /// Text strings, 16 (RFC 1035 section 3.3.14).
    pub const TXT: Rtype = Rtype(16);

    /// A responsible person, 17 (RFC 1183 section 2.2).
    pub const RP: Rtype = Rtype(17);

    /// A server of an AFS cell, 18 (RFC 1183 section 1, RFC 5864).
    pub const AFSDB: Rtype = Rtype(18);

    /// An X.25 address, 19 (RFC 1183 section 3.1).
    pub const X25: Rtype = Rtype(19);

    /// An ISDN address, 20 (RFC 1183 section 3.2).
    pub const ISDN: Rtype = Rtype(20);

    /// A route through another host, 21 (RFC 1183 section 3.3).
    pub const RT: Rtype = Rtype(21);

    /// An NSAP address, 22, deprecated (RFC 1706).
    pub const NSAP: Rtype = Rtype(22);

    /// A pointer from an NSAP address, 23, deprecated (RFC 1706).
    pub const NSAPPTR: Rtype = Rtype(23);

    /// A signature, 24, now of messages alone (RFC 2931).
    pub const SIG: Rtype = Rtype(24);

    /// A public key, 25 (RFC 2535 section 3, RFC 3445).
    pub const KEY: Rtype = Rtype(25);

    /// A mapping between X.400 and mail addresses, 26 (RFC 2163).
    pub const PX: Rtype = Rtype(26);

    /// A geographical position, 27 (RFC 1712).
    pub const GPOS: Rtype = Rtype(27);

    /// An IPv6 address, 28 (RFC 3596 section 2.1).
    pub const AAAA: Rtype = Rtype(28);

    /// A location on Earth, 29 (RFC 1876).
    pub const LOC: Rtype = Rtype(29);

    /// The next name, 30, obsolete (RFC 2535 section 5, RFC 3755).
    pub const NXT: Rtype = Rtype(30);

    /// A Nimrod endpoint identifier, 31 (no RFC).
    pub const EID: Rtype = Rtype(31);

    /// A Nimrod locator, 32 (no RFC).
    pub const NIMLOC: Rtype = Rtype(32);

    /// A server of a service, 33 (RFC 2782).
    pub const SRV: Rtype = Rtype(33);

    /// An ATM address, 34 (no RFC).
    pub const ATMA: Rtype = Rtype(34);

    /// A rule that rewrites a string, 35 (RFC 3403 section 4).
    pub const NAPTR: Rtype = Rtype(35);

    /// A key exchanger, 36 (RFC 2230).
    pub const KX: Rtype = Rtype(36);

    /// A certificate, 37 (RFC 4398).
    pub const CERT: Rtype = Rtype(37);

    /// An IPv6 address, 38, obsolete (RFC 2874, RFC 6563).
    pub const A6: Rtype = Rtype(38);

    /// Another name for all names below the owner, 39 (RFC 6672).
    pub const DNAME: Rtype = Rtype(39);

    /// Anything, 40 (no RFC).
    pub const SINK: Rtype = Rtype(40);

    /// The EDNS options of a message, 41 (RFC 6891 section 6.1.1).
    pub const OPT: Rtype = Rtype(41);

    /// A list of address prefixes, 42 (RFC 3123).
    pub const APL: Rtype = Rtype(42);

    /// A digest of a child zone's key, 43 (RFC 4034 section 5).
    pub const DS: Rtype = Rtype(43);

    /// The fingerprint of an SSH key, 44 (RFC 4255).
    pub const SSHFP: Rtype = Rtype(44);

    /// An IPsec key, 45 (RFC 4025).
    pub const IPSECKEY: Rtype = Rtype(45);

    /// A signature of records, 46 (RFC 4034 section 3).
    pub const RRSIG: Rtype = Rtype(46);

    /// The next name and the types here, 47 (RFC 4034 section 4).
    pub const NSEC: Rtype = Rtype(47);

    /// A public key of the zone, 48 (RFC 4034 section 2).
    pub const DNSKEY: Rtype = Rtype(48);

    /// A DHCP client, 49 (RFC 4701).
    pub const DHCID: Rtype = Rtype(49);

    /// The next hashed name and the types here, 50 (RFC 5155 section 3).
    pub const NSEC3: Rtype = Rtype(50);

    /// How names are hashed, 51 (RFC 5155 section 4).
    pub const NSEC3PARAM: Rtype = Rtype(51);

    /// A TLS certificate, 52 (RFC 6698).
    pub const TLSA: Rtype = Rtype(52);

    /// An S/MIME certificate, 53 (RFC 8162).
    pub const SMIMEA: Rtype = Rtype(53);

    /// A host identity, 55 (RFC 8005).
    pub const HIP: Rtype = Rtype(55);

    /// The status of a zone, 56 (no RFC).
    pub const NINFO: Rtype = Rtype(56);

    /// A key to encrypt NAPTR records, 57 (no RFC).
    pub const RKEY: Rtype = Rtype(57);

    /// A link between trust anchors, 58 (no RFC).
    pub const TALINK: Rtype = Rtype(58);

    /// The DS records that a child zone wants, 59 (RFC 7344 section 3.1).
    pub const CDS: Rtype = Rtype(59);

    /// The keys that a child zone wants DS records of, 60 (RFC 7344 section 3.2).
    pub const CDNSKEY: Rtype = Rtype(60);

    /// An OpenPGP key, 61 (RFC 7929).
    pub const OPENPGPKEY: Rtype = Rtype(61);

    /// The types to copy from a child zone to its parent, 62 (RFC 7477).
    pub const CSYNC: Rtype = Rtype(62);

    /// A digest of a zone, 63 (RFC 8976).
    pub const ZONEMD: Rtype = Rtype(63);

    /// How to reach a service, 64 (RFC 9460).
    pub const SVCB: Rtype = Rtype(64);

    /// How to reach an HTTP origin, 65 (RFC 9460 section 9).
    pub const HTTPS: Rtype = Rtype(65);

    /// Where to send notifications about a child zone, 66 (RFC 9859).
    pub const DSYNC: Rtype = Rtype(66);

    /// A hierarchical host identity tag, 67 (RFC 9886).
    pub const HHIT: Rtype = Rtype(67);

    /// The broadcast identification of an aircraft, 68 (RFC 9886).
    pub const BRID: Rtype = Rtype(68);

    /// The hosts that may send mail, 99, obsolete (RFC 7208 section 3.1).
    pub const SPF: Rtype = Rtype(99);

    /// User information, 100 (no RFC).
    pub const UINFO: Rtype = Rtype(100);

    /// A user's number, 101 (no RFC).
    pub const UID: Rtype = Rtype(101);

    /// A group's number, 102 (no RFC).
    pub const GID: Rtype = Rtype(102);

    /// Any octets, 103 (no RFC).
    pub const UNSPEC: Rtype = Rtype(103);

    /// An ILNP node identifier, 104 (RFC 6742 section 2.1).
    pub const NID: Rtype = Rtype(104);

    /// An ILNP locator of 32 bits, 105 (RFC 6742 section 2.2).
    pub const L32: Rtype = Rtype(105);

    /// An ILNP locator of 64 bits, 106 (RFC 6742 section 2.3).
    pub const L64: Rtype = Rtype(106);

    /// A name with ILNP locators, 107 (RFC 6742 section 2.4).
    pub const LP: Rtype = Rtype(107);

    /// An EUI-48 address, 108 (RFC 7043 section 3).
    pub const EUI48: Rtype = Rtype(108);

    /// An EUI-64 address, 109 (RFC 7043 section 4).
    pub const EUI64: Rtype = Rtype(109);

    /// In the types of an NSEC record, that the name doesn't exist, 128 (RFC 9824).
    pub const NXNAME: Rtype = Rtype(128);

    /// A transaction key, 249 (RFC 2930).
    pub const TKEY: Rtype = Rtype(249);

    /// A transaction signature, 250 (RFC 8945).
    pub const TSIG: Rtype = Rtype(250);

    /// A request for an incremental zone transfer, 251 (RFC 1995).
    pub const IXFR: Rtype = Rtype(251);

    /// A request for a full zone transfer, 252 (RFC 1035 section 3.2.3).
    pub const AXFR: Rtype = Rtype(252);

    /// A request for MB, MG and MR records, 253 (RFC 1035 section 3.2.3).
    pub const MAILB: Rtype = Rtype(253);

    /// A request for mail agent records, 254, obsolete (RFC 1035 section 3.2.3).
    pub const MAILA: Rtype = Rtype(254);

    /// A request for all records, 255 (RFC 1035 section 3.2.3).
    pub const ANY: Rtype = Rtype(255);

    /// A URI, 256 (RFC 7553).
    pub const URI: Rtype = Rtype(256);

    /// The authorities that may certify the name, 257 (RFC 8659).
    pub const CAA: Rtype = Rtype(257);

    /// The visibility and control of an application, 258 (no RFC).
    pub const AVC: Rtype = Rtype(258);

    /// A digital object, 259 (no RFC).
    pub const DOA: Rtype = Rtype(259);

    /// A relay of multicast packets, 260 (RFC 8777).
    pub const AMTRELAY: Rtype = Rtype(260);

    /// What a resolver can do, 261 (RFC 9606).
    pub const RESINFO: Rtype = Rtype(261);

    /// A public wallet address, 262 (no RFC).
    pub const WALLET: Rtype = Rtype(262);

    /// A convergence layer adapter of the Bundle Protocol, 263 (no RFC).
    pub const CLA: Rtype = Rtype(263);

    /// A node number of the Bundle Protocol, 264 (no RFC).
    pub const IPN: Rtype = Rtype(264);

    /// A DNSSEC trust authority, 32,768 (no RFC).
    pub const TA: Rtype = Rtype(32768);

    /// A DNSSEC look-aside digest, 32,769, obsolete (RFC 4431, RFC 8749).
    pub const DLV: Rtype = Rtype(32769);

    /// The name that IANA has registered for the record type. 255, the registry's `*`, is `ANY`.
    pub fn registered_name(self) -> Option<&'static str>
        ensures { option_copied result ≡ mnemonic registered_types self }
    {
        registry::name_of(&TYPES, self.0)
    }

    /// The record type with this registered name, ignoring ASCII case. `TYPE` and a decimal number up
    /// to 65,535 is read, too (RFC 3597 section 5); the registry's `*` isn't.
    pub fn from_registered_name(text: &str) -> Option<Self>
        ensures { (n : ℕ) → SpellsRegisteredType text.now n ↔ (result ≡ Some n) }
    {
        let number = mnemonic::read(&TYPES, "TYPE", text)?;
        Some(Rtype(number))
    }
}
