//! Tests of clocks, chains, the table and the lister: each call that may want memory, with ample
//! memory, and what a lister asks of any paths.
#![tactic(auto)]

#[cfg(test)]
mod chains;
#[cfg(test)]
mod clocks;
#[cfg(test)]
mod filling;
#[cfg(test)]
mod listing;
#[cfg(test)]
mod sharing;
#[cfg(test)]
mod tables;
