//! The work of the program `dnsmsg`: it prints a message as text, and builds one by a script.
//!
//! `tool` is the whole program, which is safe and terminates on every input. Messages are printed
//! by `dns_lines`. A script has a call on a builder in each line. Its calls are made by
//! `dns_script`.
#![tactic(auto)]

mod line;
mod octet_digits;
mod opt_line;
mod output;
mod program;
mod record_line;
mod script_data;
mod script_words;
mod tool_error;

pub use program::tool;
