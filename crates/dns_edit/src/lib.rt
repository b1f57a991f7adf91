//! Messages that are changed in place, as caches, proxies and resolvers do.
//!
//! `age_ttls` and `cap_ttls` change the TTL fields of a message and no other octets. A compression
//! pointer can lead into a TTL field, whose change would then change a name; such a message is
//! refused and stays as it is. A pointer is accepted if it leads to a label of an earlier name (RFC
//! 1035 section 4.1.4). `is_regular` asks the same of a message that only is read. `laws` has the
//! theorems.
#![tactic(auto)]

mod change;
mod edit;
mod end;
mod entries;
mod error;
mod header;
mod labels;
pub mod laws;
mod opt;
mod options;
mod question;
mod rdata;
mod regular;
mod span;
mod walk;

pub use change::TtlChange;
pub use edit::{age_ttls, cap_ttls, change_ttls, map_ttls, min_ttl};
pub use end::records_end;
pub use error::EditError;
pub use header::{set_id, set_rcode};
pub use opt::remove_opt;
pub use options::replace_option;
pub use question::{OtherName, set_question_case};
pub use regular::is_regular;
