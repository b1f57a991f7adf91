//! Tests of items and OPT records: questions, record data, data types of the tests' own, RDATA from
//! native values, OPT records and what is gathered for one. The expected values come from outside
//! this library. Texts of questions, octets of options, and RDATA of each type are in the cases of
//! `cases_rdata`.
//!
//! Nothing is exported. A module tests what it is named after; `asserts` has what many tests use,
//! and `char_str` and `fields` what the data types of the tests' own share. The rows of a table
//! have names, which failures print.
#![tactic(auto)]

#[cfg(test)]
mod asserts;
#[cfg(test)]
mod canonical;
#[cfg(test)]
mod char_str;
#[cfg(test)]
mod comparisons;
#[cfg(test)]
mod conversions;
#[cfg(test)]
mod data;
#[cfg(test)]
mod fields;
#[cfg(test)]
mod hinfo;
#[cfg(test)]
mod items;
#[cfg(test)]
mod lp;
#[cfg(test)]
mod many_words;
#[cfg(test)]
mod opt;
#[cfg(test)]
mod questions;
#[cfg(test)]
mod values_made;
