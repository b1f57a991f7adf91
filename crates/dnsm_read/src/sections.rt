//! The numbers of the sections of a message (RFC 1035 section 4.1).

/// The question section, the first one.
pub const QUESTION: u8 = 0;

/// The answer section.
pub const ANSWER: u8 = 1;

/// The authority section.
pub const AUTHORITY: u8 = 2;

/// The additional section, the last one.
pub const ADDITIONAL: u8 = 3;
