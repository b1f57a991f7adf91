//! Conversions of values that have two parts.
ghost use Rattle.std.specs.Prelude.{◌≡◌};
ghost use Rattle.dns_octets.specs.Converts.{joined};

use crate::error::AppendError;

/// Joins the results of two conversions: both values, or an error. `ShortBuf` comes before
/// `OutOfMemory` if both conversions fail.
pub fn join_conversions<A: Drop, B: Drop>(
    first: Result<A, AppendError>,
    second: Result<B, AppendError>,
) -> Result<(A, B), AppendError>
    ensures { result ≡ joined first second }
{
    match first {
        Ok(first) => match second {
            Ok(second) => Ok((first, second)),
            Err(error) => Err(error),
        },
        Err(AppendError::ShortBuf) => Err(AppendError::ShortBuf),
        Err(AppendError::OutOfMemory) => match second {
            Ok(_) => Err(AppendError::OutOfMemory),
            Err(error) => Err(error),
        },
    }
}
