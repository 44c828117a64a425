//! Tests alone: what texts narrow formats to, beside known answers.
#![tactic(auto)]

#[cfg(test)]
mod narrowings;
#[cfg(test)]
mod places;
#[cfg(test)]
mod telling;
