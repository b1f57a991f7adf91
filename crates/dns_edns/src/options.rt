//! Lists of options (RFC 6891 section 6.1.2).
ghost use Rattle.std.specs.Prelude.{◌≡◌, IsTrue, IfSome, is_some};
ghost use Rattle.dns_edns.specs.OptionsOf.{are_options};

use crate::split::split_option;
use dns_iana::OptionCode;

/// Whether octets are a list of options.
#[tactic(auto, using(crate::proofs::theory::OptionsLemmas::reported_empty, crate::proofs::theory::OptionsLemmas::reported_none))]
pub fn are_options(octets: &[u8]) -> bool
    ensures { result ≡ are_options octets.now }
{
    let mut left = octets;
    while !left.is_empty() {
        match split_option(left) {
            Some((_, _, after)) => left = after,
            None => return false,
        }
    }
    true
}

/// An iterator over the options in octets. It yields the code and the octets of each.
#[derive(Clone, Copy, Debug)]
pub struct OptionIter<'a> {
    left: &'a [u8],
    ghost options: { IsTrue (are_options left.now) },
}

impl<'a> OptionIter<'a> {
    ghost use Rattle.std.specs.Prelude.{option_copied};
    ghost use Rattle.dns_edns.specs.OptionsOf.{options_in};
    ghost use Rattle.dns_edns.specs.OptionIter.{options_left};
    ghost use Rattle.dns_edns.specs.ReadKinds.{first_octets};

    /// The options in octets, `None` if the octets aren't a list of options.
    pub fn new(octets: &'a [u8]) -> Option<Self>
        ensures list { is_some result ≡ are_options octets.now }
        ensures options { IfSome result (λ it. options_left it ≡ options_in octets.now) }
    {
        if are_options(octets) {
            Some(OptionIter::of_options(octets))
        } else {
            None
        }
    }

    /// The options in octets that are known to be a list of options.
    pub(crate) fn of_options(octets: &'a [u8]) -> Self
        requires { IsTrue (are_options octets.now) }
        ensures { options_left result ≡ options_in octets.now }
    {
        OptionIter { left: octets }
    }

    /// The octets of the first remaining option with the code, `None` if there is none.
    pub fn first(self, code: OptionCode) -> Option<&'a [u8]>
        ensures { option_copied result ≡ first_octets code (options_left self.entry) }
    {
        for (each, octets) in self {
            if each == code {
                return Some(octets);
            }
        }
        None
    }
}

impl<'a> Iterator for OptionIter<'a> {
    ghost use Rattle.std.specs.Iterator.{YieldsFirstBy, item_count};
    ghost use Rattle.dns_edns.specs.OptionIter.{option_item, options_left};

    type Item = (OptionCode, &'a [u8]);

    ghost next_gives = { YieldsFirstBy option_item options_left };

    ghost remaining = { item_count options_left };

    #[tactic(auto, using(crate::proofs::theory::OptionsLemmas::given_first, crate::proofs::theory::OptionsLemmas::given_none))]
    fn next(&mut self) -> Option<Self::Item> {
        let Some((code, octets, left)) = split_option(self.left) else {
            return None;
        };
        self.left = left;
        Some((code, octets))
    }
}
