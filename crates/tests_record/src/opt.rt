//! OPT records: their options, and what is gathered for one. Their fields are in the messages of
//! `cases_runs`.
mod builder;
mod data;
mod known_options;
