//! How a field of RDATA is shown.

/// How a field of RDATA is shown.
#[derive(Clone, Copy)]
pub(crate) enum Form {
    /// As a name: its labels, and the root label or pointer that ends it.
    Name,
    /// As character strings, up to the end of the RDATA.
    Texts,
    /// As this number of octets.
    Octets(usize),
}
