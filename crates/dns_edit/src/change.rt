ghost use Rattle.std.specs.Prelude.{◌≡◌};
ghost use Rattle.dns_edit.specs.Ttls.{changed, holds_ttl};

use dns_code::Ttl;

/// What becomes of each TTL.
#[derive(Clone, Copy, Debug, PartialEq, Eq)]
pub enum TtlChange {
    /// It is lowered by this number of seconds, but not below 0.
    Age(u32),
    /// It is lowered to this TTL, if it is more.
    Cap(Ttl),
}

impl TtlChange {
    /// The TTL after the change.
    pub fn of(&self, ttl: Ttl) -> Ttl
        ensures { result ≡ changed self.now ttl }
    {
        match self {
            TtlChange::Age(seconds) => Ttl::from_secs(ttl.as_secs().saturating_sub(*seconds)),
            TtlChange::Cap(most) => Ttl::from_secs(ttl.as_secs().min(most.as_secs())),
        }
    }
}

/// Whether the TTL field of a record of this type holds a TTL.
pub(crate) fn has_ttl(rtype: u16) -> bool
    ensures { result ≡ holds_ttl rtype }
{
    // OPT, SIG, TKEY and TSIG
    !(rtype == 41 || rtype == 24 || rtype == 249 || rtype == 250)
}
