//! Tests alone: the tables of machines whose sets of points are counted.
#![tactic(auto)]

#[cfg(test)]
mod nth;
#[cfg(test)]
mod tests;
