//! The options in octets that are known to be a list of options. It is for the crates that depend
//! on this one, which don't re-export it.
ghost use Rattle.std.specs.Prelude.{◌≡◌, IsTrue};
ghost use Rattle.dns_edns.specs.OptionsOf.{are_options, options_in};
ghost use Rattle.dns_edns.specs.OptionIter.{options_left};

use crate::options::OptionIter;

/// The options in octets that are known to be a list of options.
pub fn known_options(octets: &[u8]) -> OptionIter<'_>
    requires { IsTrue (are_options octets.now) }
    ensures { options_left result ≡ options_in octets.now }
{
    OptionIter::of_options(octets)
}
