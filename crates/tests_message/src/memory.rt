//! Calls that allocate: their results if allocations succeed, and the state after one failed.
//!
//! Each test of `rows` passes if all allocations succeed, and if any one of them fails: a call that
//! returns `OutOfMemory` has changed nothing, and the same call made again writes the octets.
//! `campaigns/refused-growths` lets each allocation fail in turn.

mod again;
mod ample;
mod calls;
mod copies;
mod fresh;
mod messages;
mod opts;
mod rows;
mod written;
