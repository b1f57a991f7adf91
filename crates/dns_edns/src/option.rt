//! Options (RFC 6891 section 6.1.2).
ghost use Rattle.std.specs.Prelude.{◌≡◌, ◌≤◌, length};
ghost use Rattle.dns_edns.specs.Options.{OptionItem};

use crate::error::LongOptData;
use dns_iana::OptionCode;
use dns_octets::Octets;
use dns_wire::MAX_OCTETS;

/// One option of an OPT record: a code and octets.
pub trait ComposeOptData {
    /// The option.
    ghost option: { Self → OptionItem };

    /// The code of the option.
    fn code(&self) -> OptionCode
        ensures { result ≡ (option self.now).code };

    /// The octets of the option, without its code and length.
    fn octets(&self) -> &[u8]
        ensures { result.now ≡ (option self.now).octets };
}

/// An option of any code, as octets without structure, at most 65,535.
#[derive(Debug, Drop)]
pub struct UnknownOptData<Octs: Octets> {
    code: u16,
    octets: Octs,
    ghost short: { length (Octs.octets octets) ≤ 65535 },
}

impl<Octs: Octets> UnknownOptData<Octs> {
    ghost use Rattle.std.specs.Prelude.{◌<◌, ◌↔◌, IfOk, IsErr};
    ghost use Rattle.dns_edns.specs.OptData.{buffer_of, option_of};

    /// The option with this code and these octets. Returns an error for more than 65,535 octets.
    pub fn new(code: OptionCode, octets: Octs) -> Result<Self, LongOptData>
        ensures code { IfOk result (λ unknown. (option_of unknown).code ≡ code) }
        ensures octets { IfOk result (λ unknown. buffer_of unknown ≡ octets) }
        ensures long { IsErr result ↔ (65535 < length (Octs.octets octets)) }
    {
        if octets.octets().len() > MAX_OCTETS {
            return Err(LongOptData);
        }
        Ok(UnknownOptData {
            code: code.to_int(),
            octets,
        })
    }
}

impl<Octs: Octets> ComposeOptData for UnknownOptData<Octs> {
    ghost use Rattle.dns_edns.specs.OptData.{option_of};

    ghost option = { option_of };

    fn code(&self) -> OptionCode {
        OptionCode::from_int(self.code)
    }

    fn octets(&self) -> &[u8] {
        self.octets.octets()
    }
}

/// The address in a client subnet option (RFC 7871 section 6).
#[derive(Clone, Copy, Debug, PartialEq, Eq)]
pub enum SubnetAddr {
    /// An IPv4 address.
    V4([u8; 4]),
    /// An IPv6 address.
    V6([u8; 16]),
}

impl SubnetAddr {
    ghost use Rattle.dns_edns.specs.KnownOptions.{address_bits};

    /// The number of bits of an address of this family.
    pub fn bits(self) -> u8
        ensures { result ≡ address_bits self }
    {
        match self {
            SubnetAddr::V4(_) => 32,
            SubnetAddr::V6(_) => 128,
        }
    }
}
