//! Building messages: items pushed, refused and removed again, over each target.
//!
//! A module tests what it is named after; `asserts` and `steps` have what many tests use.

mod answers;
mod asserts;
mod builders;
mod compressors;
mod copies;
mod fitting;
mod long_inputs;
mod opt;
mod reserved;
mod responses;
mod steps;
mod stream;
