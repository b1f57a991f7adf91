//! C functions that read and write DNS messages. `dnsm.h` has their prototypes.
//!
//! Nothing is kept between two calls: the caller owns the message, the cursor and each buffer. Each
//! function returns for all arguments, and reports errors as numbers. Only `dnsm_build`,
//! `dnsm_data_from_text` and `dnsm_record_from_text` allocate.
//!
//! Each export calls a function of `dnsm_status`, `dnsm_read`, `dnsm_replies`, `dnsm_text`,
//! `dnsm_zone`, `dnsm_put`, `dnsm_make` or `dnsm_transfers`.
#![tactic(auto)]

mod comparing;
mod drafting;
mod edns;
mod making;
mod names;
mod numbers;
mod rdata;
mod reading;
mod replies;
mod texts;
mod transfers;
mod version;
mod zone;
