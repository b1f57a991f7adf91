//! A builder of OPT records (RFC 6891 section 6.1). It collects the fields of the record, its
//! options, and the rcode, whose lower bits are in the header of the message.
//!
//! A setter changes its field alone. Each option is added after the earlier ones, encoded as its
//! RFC says. The options never take more than 65,535 octets, the most that a record can have.
#![tactic(auto)]

mod builder;
mod known_options;
mod options;

pub use builder::OptBuilder;
