//! Tests alone: what is found of small machines, beside a plain enumeration and beside known answers.
#![tactic(auto)]

#[cfg(test)]
mod answers;
#[cfg(test)]
mod enumeration;
#[cfg(test)]
mod forks;
#[cfg(test)]
mod known;
#[cfg(test)]
mod meetings;
#[cfg(test)]
mod small_machines;
#[cfg(test)]
mod tests;
