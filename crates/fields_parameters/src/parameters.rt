//! Service parameters (RFC 9460 section 2.2).
ghost use Rattle.std.specs.Prelude.{◌≡◌};
ghost use Rattle.fields_parameters.specs.Parameters.{are_parameters};

/// A service parameter: its key and its value.
#[derive(Clone, Copy, Debug, PartialEq, Eq)]
pub struct Parameter<'a> {
    pub key: u16,
    pub value: &'a [u8],
}

/// An iterator over service parameters. If the last value is cut off, it ends with the octets.
#[derive(Clone, Copy, Debug)]
pub struct Parameters<'a> {
    left: &'a [u8],
}

impl<'a> Parameters<'a> {
    ghost use Rattle.fields_parameters.specs.ParameterItems.{parameters_of};
    ghost use Rattle.fields_parameters.specs.ItemsLeft.{parameters_left};

    /// The service parameters of these octets.
    pub fn new(octets: &'a [u8]) -> Self
        ensures { parameters_left result ≡ parameters_of octets.now }
    {
        Parameters { left: octets }
    }
}

impl<'a> Iterator for Parameters<'a> {
    ghost use Rattle.std.specs.Iterator.{YieldsFirstBy, item_count};
    ghost use Rattle.fields_parameters.specs.ItemsLeft.{parameter_item, parameters_left};

    type Item = Parameter<'a>;

    ghost next_gives = { YieldsFirstBy parameter_item parameters_left };

    ghost remaining = { item_count parameters_left };

    fn next(&mut self) -> Option<Parameter<'a>> {
        let [high, low, size_high, size_low, after @ ..] = self.left else {
            return None;
        };
        let size = usize::from(*size_high) * 256 + usize::from(*size_low);
        let (value, left) = after.split_at(size.min(after.len()));
        self.left = left;
        Some(Parameter {
            key: u16::from(*high) * 256 + u16::from(*low),
            value,
        })
    }
}

/// Whether the octets are service parameters, by increasing keys.
pub fn are_parameters(octets: &[u8]) -> bool
    ensures { result ≡ are_parameters octets.now }
{
    let mut left = octets;
    let mut least: u32 = 0;
    'parameters: while let [high, low, size_high, size_low, rest @ ..] = left {
        let key = u32::from(*high) * 256 + u32::from(*low);
        let size = usize::from(*size_high) * 256 + usize::from(*size_low);
        if key < least || size > rest.len() {
            return false;
        }
        least = key + 1;
        left = &rest[size..];
    }
    left.is_empty()
}
