//! Tokens, names, records, generated traces, lists of words and the ends that there are, through
//! their public calls.
#![tactic(auto)]

#[cfg(test)]
mod adapters;
#[cfg(test)]
mod ends;
#[cfg(test)]
mod generated;
#[cfg(test)]
mod names;
#[cfg(test)]
mod records;
#[cfg(test)]
mod tokens;
#[cfg(test)]
mod words;
