//! Tests alone: drawn records and least values, beside known answers and an enumeration.
#![tactic(auto)]

#[cfg(test)]
mod draws;
#[cfg(test)]
mod enumerated;
#[cfg(test)]
mod least;
#[cfg(test)]
mod telling;
