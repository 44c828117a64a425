//! Tests alone: what field maps make of records, beside known answers.
#![tactic(auto)]

#[cfg(test)]
mod calls;
#[cfg(test)]
mod mapped;
#[cfg(test)]
mod places;
#[cfg(test)]
mod telling;
