//! The header section of a message and its parts: header, flags and counts.
ghost use Rattle.std.specs.Prelude.{◌≡◌, ◌≤◌, ◌%◌, length, take, replicate};

use crate::bits::{is_bit_set, with_bit};
pub use crate::counts::HeaderCounts;
pub use crate::error::{CountOverflow, FlagsFromStrError};
pub use crate::flags::Flags;
pub use crate::section::HeaderSection;
use dns_iana::{Opcode, Rcode};

/// The first four octets of a message: ID, opcode, flags and rcode (RFC 1035 section 4.1.1; RFC
/// 4035 section 3).
#[derive(Clone, Copy, Debug, PartialEq, Eq)]
pub struct Header {
    octets: [u8; 4],
}

/// All bits are 0, as in `Header::new`.
impl Default for Header {
    ghost use Rattle.dns_code.specs.Header.{header_octets};

    ghost is_default = { λ header. header_octets header ≡ replicate 4 0 };

    fn default() -> Self {
        Header::new()
    }
}

impl Header {
    ghost use Rattle.dns_code.specs.Header.{fields, flags_in, header_octets};

    /// A header with all bits 0: ID 0, no flag, `Opcode::QUERY` and `Rcode::NOERROR`.
    pub fn new() -> Self
        ensures { header_octets result ≡ replicate 4 0 }
    {
        Header { octets: [0; 4] }
    }

    /// Copies the header of a message, its first four octets.
    pub fn for_message_slice(message: &[u8]) -> Self
        requires { 4 ≤ length message.now }
        ensures { header_octets result ≡ take 4 message.now }
    {
        let mut octets = [0; 4];
        octets.copy_from_slice(&message[..4]);
        Header { octets }
    }

    /// The four octets as in a message.
    pub fn as_slice(&self) -> &[u8]
        ensures octets { result.now ≡ header_octets self.now }
        ensures length { length result.now ≡ 4 }
    {
        &self.octets
    }

    /// The ID, by which a response matches its query.
    pub fn id(self) -> u16
        ensures { result ≡ (fields self).id }
    {
        u16::from_be_bytes([self.octets[0], self.octets[1]])
    }

    /// Sets the ID.
    pub fn set_id(&mut self, id: u16)
        ensures { fields self.new ≡ record (fields self.old) { id = id } }
    {
        let [high, low] = id.to_be_bytes();
        self.octets[0] = high;
        self.octets[1] = low;
    }

    /// The opcode: the kind of query.
    pub fn opcode(self) -> Opcode
        ensures { result ≡ (fields self).opcode }
    {
        Opcode::from_int(self.octets[2] >> 3 & 0x0f)
    }

    /// Sets the opcode. Only the low four bits of the number are stored.
    #[tactic(auto, using(crate::proofs::theory::HeaderLemmas::opcode_changed))]
    pub fn set_opcode(&mut self, opcode: Opcode)
        ensures { fields self.new ≡ record (fields self.old) { opcode = opcode % 16 } }
    {
        self.octets[2] = self.octets[2] & 0x87 | (opcode.to_int() & 0x0f) << 3;
    }

    /// The seven flags, without Z.
    pub fn flags(self) -> Flags
        ensures { result ≡ flags_in (fields self) }
    {
        Flags {
            qr: self.qr(),
            aa: self.aa(),
            tc: self.tc(),
            rd: self.rd(),
            ra: self.ra(),
            ad: self.ad(),
            cd: self.cd(),
        }
    }

    /// Sets the seven flags. Z stays.
    pub fn set_flags(&mut self, flags: Flags)
        ensures { fields self.new ≡ record (fields self.old) {
          qr = flags.qr;
          aa = flags.aa;
          tc = flags.tc;
          rd = flags.rd;
          ra = flags.ra;
          ad = flags.ad;
          cd = flags.cd;
        } }
    {
        self.set_qr(flags.qr);
        self.set_aa(flags.aa);
        self.set_tc(flags.tc);
        self.set_rd(flags.rd);
        self.set_ra(flags.ra);
        self.set_ad(flags.ad);
        self.set_cd(flags.cd);
    }

    /// QR: whether the message is a response, not a query.
    pub fn qr(self) -> bool
        ensures { result ≡ (fields self).qr }
    {
        is_bit_set(self.octets[2], 7)
    }

    /// Sets or clears QR.
    #[tactic(auto, using(crate::proofs::theory::HeaderLemmas::qr_changed))]
    pub fn set_qr(&mut self, set: bool)
        ensures { fields self.new ≡ record (fields self.old) { qr = set } }
    {
        self.octets[2] = with_bit(self.octets[2], 7, set);
    }

    /// AA: whether the responding server is an authority for the queried name.
    pub fn aa(self) -> bool
        ensures { result ≡ (fields self).aa }
    {
        is_bit_set(self.octets[2], 2)
    }

    /// Sets or clears AA.
    #[tactic(auto, using(crate::proofs::theory::HeaderLemmas::aa_changed))]
    pub fn set_aa(&mut self, set: bool)
        ensures { fields self.new ≡ record (fields self.old) { aa = set } }
    {
        self.octets[2] = with_bit(self.octets[2], 2, set);
    }

    /// TC: whether the message was truncated.
    pub fn tc(self) -> bool
        ensures { result ≡ (fields self).tc }
    {
        is_bit_set(self.octets[2], 1)
    }

    /// Sets or clears TC.
    #[tactic(auto, using(crate::proofs::theory::HeaderLemmas::tc_changed))]
    pub fn set_tc(&mut self, set: bool)
        ensures { fields self.new ≡ record (fields self.old) { tc = set } }
    {
        self.octets[2] = with_bit(self.octets[2], 1, set);
    }

    /// RD: whether the client asks for recursion.
    pub fn rd(self) -> bool
        ensures { result ≡ (fields self).rd }
    {
        is_bit_set(self.octets[2], 0)
    }

    /// Sets or clears RD.
    #[tactic(auto, using(crate::proofs::theory::HeaderLemmas::rd_changed))]
    pub fn set_rd(&mut self, set: bool)
        ensures { fields self.new ≡ record (fields self.old) { rd = set } }
    {
        self.octets[2] = with_bit(self.octets[2], 0, set);
    }

    /// RA: whether the server offers recursion.
    pub fn ra(self) -> bool
        ensures { result ≡ (fields self).ra }
    {
        is_bit_set(self.octets[3], 7)
    }

    /// Sets or clears RA.
    #[tactic(auto, using(crate::proofs::theory::HeaderLemmas::ra_changed))]
    pub fn set_ra(&mut self, set: bool)
        ensures { fields self.new ≡ record (fields self.old) { ra = set } }
    {
        self.octets[3] = with_bit(self.octets[3], 7, set);
    }

    /// Z: the reserved bit.
    pub fn z(self) -> bool
        ensures { result ≡ (fields self).z }
    {
        is_bit_set(self.octets[3], 6)
    }

    /// Sets or clears Z.
    #[tactic(auto, using(crate::proofs::theory::HeaderLemmas::z_changed))]
    pub fn set_z(&mut self, set: bool)
        ensures { fields self.new ≡ record (fields self.old) { z = set } }
    {
        self.octets[3] = with_bit(self.octets[3], 6, set);
    }

    /// AD: whether the server considers all data authentic (RFC 4035 section 3.2.3).
    pub fn ad(self) -> bool
        ensures { result ≡ (fields self).ad }
    {
        is_bit_set(self.octets[3], 5)
    }

    /// Sets or clears AD.
    #[tactic(auto, using(crate::proofs::theory::HeaderLemmas::ad_changed))]
    pub fn set_ad(&mut self, set: bool)
        ensures { fields self.new ≡ record (fields self.old) { ad = set } }
    {
        self.octets[3] = with_bit(self.octets[3], 5, set);
    }

    /// CD: whether the client accepts data whose signatures the server hasn't checked (RFC 4035
    /// section 3.2.2).
    pub fn cd(self) -> bool
        ensures { result ≡ (fields self).cd }
    {
        is_bit_set(self.octets[3], 4)
    }

    /// Sets or clears CD.
    #[tactic(auto, using(crate::proofs::theory::HeaderLemmas::cd_changed))]
    pub fn set_cd(&mut self, set: bool)
        ensures { fields self.new ≡ record (fields self.old) { cd = set } }
    {
        self.octets[3] = with_bit(self.octets[3], 4, set);
    }

    /// The rcode: the status of the response. It is the low four bits of an extended rcode.
    pub fn rcode(self) -> Rcode
        ensures { result ≡ (fields self).rcode }
    {
        Rcode::masked_from_int(self.octets[3])
    }

    /// Sets the rcode.
    #[tactic(auto, using(crate::proofs::theory::HeaderLemmas::rcode_changed))]
    pub fn set_rcode(&mut self, rcode: Rcode)
        ensures { fields self.new ≡ record (fields self.old) { rcode = rcode } }
    {
        self.octets[3] = self.octets[3] & 0xf0 | rcode.to_int();
    }
}
