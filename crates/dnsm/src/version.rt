//! The version of the library.
ghost use Rattle.std.specs.Prelude.{◌≡◌};

/// The version of the library, 10,000 times the major one plus 100 times the minor one plus the patch.
#[unsafe(no_mangle)]
pub extern "C" fn dnsm_version() -> u32
    ensures { result ≡ 20000 }
{
    20000
}
