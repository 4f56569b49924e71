//! The families of rules that ask no path: parsing, scripts, loads, dispatches and requests, a
//! module for each family.
//!
//! Each module says whether a record comes too late by its rules (`against`), and hands the latest
//! pieces that must come before what the record begins (`predecessors`).
#![tactic(auto)]

pub mod dispatch;
pub mod load;
pub mod parse;
pub mod request;
pub mod script;
