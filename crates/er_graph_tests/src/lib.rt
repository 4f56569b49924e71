//! Tests of the graph: what each family of rules hands, which paths and clocks come of it, which
//! records come too late, and whose an access is.
#![tactic(auto)]

#[cfg(test)]
mod access;
#[cfg(test)]
mod graph;
#[cfg(test)]
mod handed;
