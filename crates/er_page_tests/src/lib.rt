//! A page that reads lines, and the tests of pages as tables of such lines.
#![tactic(auto)]

#[cfg(test)]
mod answers;
#[cfg(test)]
mod by_number;
#[cfg(test)]
mod letting_go;
#[cfg(test)]
mod limits;
#[cfg(test)]
mod naming;
#[cfg(test)]
mod nested;
pub mod reading;
#[cfg(test)]
mod rows;
#[cfg(test)]
mod tasks;
