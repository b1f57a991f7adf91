//! Names that DNAME records redirect (RFC 6672 section 2.2).
ghost use Rattle.std.specs.Prelude.{◌≡◌, ◌↔◌, ◌+◌, ◌++◌, ◌≤◌, IfSome, IsSome, length, option_map};
ghost use Rattle.dns_name.specs.NameReading.{name_labels};
ghost use Rattle.dns_name.specs.ParsedName.{labels};
ghost use Rattle.dns_reply.specs.Substitutions.{Substitutes};

use crate::owners::is_below;
use crate::reply::Redirection;
use arrayvec::ArrayVec;
use dns_name::{Name, ParsedName, ToName};

/// The name with `target` in the place of `owner`, the owner of a DNAME record.
///
/// Returns `None` if the name isn't below `owner`, or if the new name has more than 255 octets:
/// then a server answers YXDOMAIN (RFC 6672 section 2.2). Nothing is allocated.
pub fn substitute<N: ToName, O: ToName, T: ToName>(
    name: &N,
    owner: &O,
    target: &T,
) -> Option<Name<ArrayVec<u8, 255>>>
    ensures { Substitutes (N.name name.now) (O.name owner.now) (T.name target.now)
        (option_map name_labels result) }
{
    substitute_parsed(&name.as_parsed(), &owner.as_parsed(), &target.as_parsed())
}

/// As [`substitute`], for parsed names.
fn substitute_parsed(
    name: &ParsedName<'_>,
    owner: &ParsedName<'_>,
    target: &ParsedName<'_>,
) -> Option<Name<ArrayVec<u8, 255>>>
    ensures { Substitutes (labels name.now) (labels owner.now) (labels target.now)
        (option_map name_labels result) }
{
    if !is_below(name, owner) {
        return None;
    }
    let octets = name.uncompressed();
    let first = octets.len() - owner.compose_len();
    let others = target.uncompressed();
    let made = joined(&octets.as_slice()[..first], others.as_slice())?;
    Name::from_octets(made).ok()
}

/// The octets of both, if they are at most 255.
fn joined(first: &[u8], second: &[u8]) -> Option<ArrayVec<u8, 255>>
    ensures fits { IsSome result ↔ (length first.now + length second.now ≤ 255) }
    ensures octets { IfSome result (λ made. made.items ≡ first.now ++ second.now) }
{
    let mut made = ArrayVec::new();
    made.try_extend_from_slice(first).ok()?;
    made.try_extend_from_slice(second).ok()?;
    Some(made)
}

impl Redirection<'_> {
    ghost use Rattle.dns_reply.specs.Replies.{redirected_name, redirection_owner, redirection_target};

    /// The name to ask for: the name with the target in the place of the owner. Returns `None` if
    /// it has more than 255 octets (RFC 6672 section 2.2).
    pub fn redirected(&self) -> Option<Name<ArrayVec<u8, 255>>>
        ensures { Substitutes (labels (redirected_name self.now))
            (labels (redirection_owner self.now)) (labels (redirection_target self.now))
            (option_map name_labels result) }
    {
        substitute_parsed(&self.name, &self.owner, &self.target)
    }
}
