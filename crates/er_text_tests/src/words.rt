//! What lists of words come to, as tables.

mod accepted;
mod reading;
mod refused;
