//! Tests of reading and building messages: headers, octets, clones, loops, untrusted input, and
//! items pushed over each target. The expected values come from outside this library. What sections
//! and searches yield, and changed TTLs, are in the cases of `cases_runs`.
//!
//! Nothing is exported. A module tests what it is named after, and `hostile` untrusted input beside
//! a plain reader; `asserts` has what many of the others use, and `callers` proved callers. The
//! rows of a table have names, which failures print.
#![tactic(auto)]

#[cfg(test)]
mod asserts;
#[cfg(test)]
mod building;
#[cfg(test)]
mod callers;
#[cfg(test)]
mod hostile;
#[cfg(test)]
mod iterators;
#[cfg(test)]
mod messages;
#[cfg(test)]
mod opt;
#[cfg(test)]
mod streams;
#[cfg(test)]
mod transfers;
#[cfg(test)]
mod ttls;
