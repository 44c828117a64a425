//! Tests alone: places in small languages, beside known answers and a plain enumeration.
#![tactic(auto)]

#[cfg(test)]
mod enumeration;
#[cfg(test)]
mod maps;
#[cfg(test)]
mod narrowing;
#[cfg(test)]
mod numbers;
#[cfg(test)]
mod tests;
