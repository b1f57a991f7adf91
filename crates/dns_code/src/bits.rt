//! Bits of one octet. Bit 7 is the most significant.
ghost use Rattle.std.specs.Prelude.{◌≡◌, ◌<◌, ◌%◌};
ghost use Rattle.dns_code.specs.Bits.{bit, bits, ChangesBit};

pub(crate) fn is_bit_set(octet: u8, offset: u32) -> bool
    requires { offset < 8 }
    ensures { result ≡ bit octet offset }
{
    octet >> offset & 1 == 1
}

pub(crate) fn with_bit(octet: u8, offset: u32, set: bool) -> u8
    requires { offset < 8 }
    ensures { ChangesBit octet result offset set }
{
    if set {
        octet | 1 << offset
    } else {
        octet & !(1 << offset)
    }
}
