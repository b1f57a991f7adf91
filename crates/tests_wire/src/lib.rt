//! Tests of the layers below messages: octets, names, headers, TTLs and serials as they are read and
//! printed, and targets to which names and octets are appended and from which they are cut away. The expected values come from outside this library.
//!
//! Nothing is exported. A module tests what it is named after; `asserts` and `steps` have what many
//! tests use, and `callers` and `serials` proved callers. The rows of a table have names, which
//! failures print.
#![tactic(auto)]

#[cfg(test)]
mod asserts;
#[cfg(test)]
mod callers;
#[cfg(test)]
mod comparisons;
#[cfg(test)]
mod compressions;
#[cfg(test)]
mod compressors;
#[cfg(test)]
mod errors;
#[cfg(test)]
mod header;
#[cfg(test)]
mod name_texts;
#[cfg(test)]
mod names;
#[cfg(test)]
mod octets;
#[cfg(test)]
mod serials;
#[cfg(test)]
mod steps;
#[cfg(test)]
mod stream;
#[cfg(test)]
mod targets;
#[cfg(test)]
mod ttl;
