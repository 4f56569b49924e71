//! Tests of orders and explanations, over worked traces.
#![tactic(auto)]

#[cfg(test)]
mod worked;
