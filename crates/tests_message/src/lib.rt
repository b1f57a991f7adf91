//! Tests over `dns_message`: the examples of the pages and modules, input and output of programs
//! that fail, and calls that allocate. What `dnsmsg` prints, and lists of calls that end with the
//! same octets, are in the cases of `cases_runs`.
//!
//! Nothing is exported. `callers`, `tour` and `typed` have proved callers, `ptr`, `fields`, `made`
//! and `own` the examples of three modules. `input_output` tests `dnsmsg`, `view` `dnsview`,
//! `script` a list of calls, `memory` calls that allocate, and `json` an object of `json_print`.
//! `asserts` has what many tests use. The rows of a table have names, which failures print.
#![tactic(auto)]

#[cfg(test)]
mod asserts;
#[cfg(test)]
mod callers;
#[cfg(test)]
mod fields;
#[cfg(test)]
mod input_output;
#[cfg(test)]
mod json;
#[cfg(test)]
mod made;
#[cfg(test)]
mod memory;
#[cfg(test)]
mod own;
#[cfg(test)]
mod ptr;
#[cfg(test)]
mod script;
#[cfg(test)]
mod tour;
#[cfg(test)]
mod typed;
#[cfg(test)]
mod view;
