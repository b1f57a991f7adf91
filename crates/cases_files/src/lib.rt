//! Tests as data: blocks of lines, each a case, and a report of the checks that fail.
//!
//! The programs `cases_rdata` and `cases_runs` read their cases from standard input:
//!
//!     # A comment.
//!     case NAME
//!       KEY TEXT
//!       KEY TEXT
//!
//! An empty line ends a block. A line whose first mark is `#` is a comment. A block whose first
//! line is `case NAME` is a case, and each further line a part of it or a check. What the keys say
//! is at the head of the programs' sources. A file without a case is a failure.
#![tactic(auto)]

mod block;
mod line;
mod report;

pub use block::blocks;
pub use line::{case_of, key_of, octets_of, push_times};
pub use report::{Counts, Report};
