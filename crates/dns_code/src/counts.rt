ghost use Rattle.std.specs.Prelude.{◌≡◌, ◌<◌, ◌≤◌, ◌+◌, ◌-◌, ◌↔◌, length, replicate, slice_range, OnOk, OnErr, IsErr};
ghost use Rattle.dns_code.specs.Bits.{number_in, ChangesNumber};

use crate::error::CountOverflow;
use crate::section::HeaderSection;

/// The four counts of a message, its octets 4 to 11: the number of entries of each section (RFC
/// 1035 section 4.1.1).
///
/// In UPDATE messages the same counts have other names (RFC 2136 section 2.2).
#[derive(Clone, Copy, Debug, PartialEq, Eq)]
pub struct HeaderCounts {
    octets: [u8; 8],
}

/// All counts are 0, as in `HeaderCounts::new`.
impl Default for HeaderCounts {
    ghost use Rattle.dns_code.specs.HeaderCounts.{counts_octets};

    ghost is_default = { λ counts. counts_octets counts ≡ replicate 8 0 };

    fn default() -> Self {
        HeaderCounts::new()
    }
}

impl HeaderCounts {
    ghost use Rattle.dns_code.specs.HeaderCounts.{counts, counts_octets};
    ghost use Rattle.dns_code.specs.HeaderCounts.{with_qdcount, with_ancount, with_nscount, with_arcount};
    ghost use Rattle.dns_code.specs.HeaderSection.{header_size};

    /// All counts are 0.
    pub fn new() -> Self
        ensures { counts_octets result ≡ replicate 8 0 }
    {
        HeaderCounts { octets: [0; 8] }
    }

    /// Copies the counts of a message, its octets 4 to 11.
    pub fn for_message_slice(message: &[u8]) -> Self
        requires { header_size ≤ length message.now }
        ensures { counts_octets result ≡ slice_range message.now 4 header_size }
    {
        let mut octets = [0; 8];
        octets.copy_from_slice(&message[4..HeaderSection::LEN]);
        HeaderCounts { octets }
    }

    /// The eight octets as in a message.
    pub fn as_slice(&self) -> &[u8]
        ensures octets { result.now ≡ counts_octets self.now }
        ensures length { length result.now ≡ 8 }
    {
        &self.octets
    }

    /// Replaces all four counts.
    pub fn set(&mut self, counts: HeaderCounts)
        ensures { self.new ≡ counts }
    {
        *self = counts;
    }

    /// QDCOUNT: the number of questions in the question section.
    pub fn qdcount(self) -> u16
        ensures { result ≡ (counts self).qdcount }
    {
        self.number_at(0)
    }

    /// Sets QDCOUNT.
    pub fn set_qdcount(&mut self, count: u16)
        ensures { counts self.new ≡ record (counts self.old) { qdcount = count } }
    {
        self.set_number_at(0, count);
    }

    /// Increments QDCOUNT. At 65,535 it returns an error and changes nothing.
    pub fn inc_qdcount(&mut self) -> Result<(), CountOverflow>
        ensures ok { OnOk result (counts self.new ≡ with_qdcount (λ n. n + 1) (counts self.old)) }
        ensures full { IsErr result ↔ ((counts self.old).qdcount ≡ u16.MAX) }
        ensures err { OnErr result (self.new ≡ self.old) }
    {
        self.raise_number_at(0)
    }

    /// Decrements QDCOUNT.
    pub fn dec_qdcount(&mut self)
        requires { 0 < (counts self.old).qdcount }
        ensures { counts self.new ≡ with_qdcount (λ n. n - 1) (counts self.old) }
    {
        self.set_qdcount(self.qdcount() - 1);
    }

    /// ANCOUNT: the number of records in the answer section.
    pub fn ancount(self) -> u16
        ensures { result ≡ (counts self).ancount }
    {
        self.number_at(2)
    }

    /// Sets ANCOUNT.
    pub fn set_ancount(&mut self, count: u16)
        ensures { counts self.new ≡ record (counts self.old) { ancount = count } }
    {
        self.set_number_at(2, count);
    }

    /// Increments ANCOUNT. At 65,535 it returns an error and changes nothing.
    pub fn inc_ancount(&mut self) -> Result<(), CountOverflow>
        ensures ok { OnOk result (counts self.new ≡ with_ancount (λ n. n + 1) (counts self.old)) }
        ensures full { IsErr result ↔ ((counts self.old).ancount ≡ u16.MAX) }
        ensures err { OnErr result (self.new ≡ self.old) }
    {
        self.raise_number_at(2)
    }

    /// Decrements ANCOUNT.
    pub fn dec_ancount(&mut self)
        requires { 0 < (counts self.old).ancount }
        ensures { counts self.new ≡ with_ancount (λ n. n - 1) (counts self.old) }
    {
        self.set_ancount(self.ancount() - 1);
    }

    /// NSCOUNT: the number of records in the authority section.
    pub fn nscount(self) -> u16
        ensures { result ≡ (counts self).nscount }
    {
        self.number_at(4)
    }

    /// Sets NSCOUNT.
    pub fn set_nscount(&mut self, count: u16)
        ensures { counts self.new ≡ record (counts self.old) { nscount = count } }
    {
        self.set_number_at(4, count);
    }

    /// Increments NSCOUNT. At 65,535 it returns an error and changes nothing.
    pub fn inc_nscount(&mut self) -> Result<(), CountOverflow>
        ensures ok { OnOk result (counts self.new ≡ with_nscount (λ n. n + 1) (counts self.old)) }
        ensures full { IsErr result ↔ ((counts self.old).nscount ≡ u16.MAX) }
        ensures err { OnErr result (self.new ≡ self.old) }
    {
        self.raise_number_at(4)
    }

    /// Decrements NSCOUNT.
    pub fn dec_nscount(&mut self)
        requires { 0 < (counts self.old).nscount }
        ensures { counts self.new ≡ with_nscount (λ n. n - 1) (counts self.old) }
    {
        self.set_nscount(self.nscount() - 1);
    }

    /// ARCOUNT: the number of records in the additional section.
    pub fn arcount(self) -> u16
        ensures { result ≡ (counts self).arcount }
    {
        self.number_at(6)
    }

    /// Sets ARCOUNT.
    pub fn set_arcount(&mut self, count: u16)
        ensures { counts self.new ≡ record (counts self.old) { arcount = count } }
    {
        self.set_number_at(6, count);
    }

    /// Increments ARCOUNT. At 65,535 it returns an error and changes nothing.
    pub fn inc_arcount(&mut self) -> Result<(), CountOverflow>
        ensures ok { OnOk result (counts self.new ≡ with_arcount (λ n. n + 1) (counts self.old)) }
        ensures full { IsErr result ↔ ((counts self.old).arcount ≡ u16.MAX) }
        ensures err { OnErr result (self.new ≡ self.old) }
    {
        self.raise_number_at(6)
    }

    /// Decrements ARCOUNT.
    pub fn dec_arcount(&mut self)
        requires { 0 < (counts self.old).arcount }
        ensures { counts self.new ≡ with_arcount (λ n. n - 1) (counts self.old) }
    {
        self.set_arcount(self.arcount() - 1);
    }

    /// ZOCOUNT: the number of zones in an UPDATE message, which is QDCOUNT.
    pub fn zocount(self) -> u16
        ensures { result ≡ (counts self).qdcount }
    {
        self.qdcount()
    }

    /// Sets ZOCOUNT, which is QDCOUNT.
    pub fn set_zocount(&mut self, count: u16)
        ensures { counts self.new ≡ record (counts self.old) { qdcount = count } }
    {
        self.set_qdcount(count);
    }

    /// PRCOUNT: the number of prerequisites in an UPDATE message, which is ANCOUNT.
    pub fn prcount(self) -> u16
        ensures { result ≡ (counts self).ancount }
    {
        self.ancount()
    }

    /// Sets PRCOUNT, which is ANCOUNT.
    pub fn set_prcount(&mut self, count: u16)
        ensures { counts self.new ≡ record (counts self.old) { ancount = count } }
    {
        self.set_ancount(count);
    }

    /// UPCOUNT: the number of updates in an UPDATE message, which is NSCOUNT.
    pub fn upcount(self) -> u16
        ensures { result ≡ (counts self).nscount }
    {
        self.nscount()
    }

    /// Sets UPCOUNT, which is NSCOUNT.
    pub fn set_upcount(&mut self, count: u16)
        ensures { counts self.new ≡ record (counts self.old) { nscount = count } }
    {
        self.set_nscount(count);
    }

    /// ADCOUNT: the number of additional records in an UPDATE message, which is ARCOUNT.
    pub fn adcount(self) -> u16
        ensures { result ≡ (counts self).arcount }
    {
        self.arcount()
    }

    /// Sets ADCOUNT, which is ARCOUNT.
    pub fn set_adcount(&mut self, count: u16)
        ensures { counts self.new ≡ record (counts self.old) { arcount = count } }
    {
        self.set_arcount(count);
    }

    /// The big-endian number in the two octets at `offset`.
    fn number_at(self, offset: usize) -> u16
        requires { offset < 7 }
        ensures { result ≡ number_in (counts_octets self) offset }
    {
        u16::from_be_bytes([self.octets[offset], self.octets[offset + 1]])
    }

    /// Writes a big-endian number over the two octets at `offset`.
    fn set_number_at(&mut self, offset: usize, number: u16)
        requires { offset < 7 }
        ensures { ChangesNumber (counts_octets self.old) (counts_octets self.new) offset number }
    {
        let [high, low] = number.to_be_bytes();
        self.octets[offset] = high;
        self.octets[offset + 1] = low;
    }

    /// Increments the number in the two octets at `offset`.
    fn raise_number_at(&mut self, offset: usize) -> Result<(), CountOverflow>
        requires { offset < 7 }
        ensures ok { OnOk result (
            ChangesNumber (counts_octets self.old) (counts_octets self.new) offset
            (number_in (counts_octets self.old) offset + 1)) }
        ensures full { IsErr result ↔ (number_in (counts_octets self.old) offset ≡ u16.MAX) }
        ensures err { OnErr result (self.new ≡ self.old) }
    {
        let raised = self
            .number_at(offset)
            .checked_add(1)
            .ok_or(CountOverflow::new())?;
        self.set_number_at(offset, raised);
        Ok(())
    }
}
