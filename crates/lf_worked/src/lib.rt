//! Worked examples of whole command lines: tests alone.
#![tactic(auto)]

#[cfg(test)]
mod examples;
#[cfg(test)]
mod rows;
#[cfg(test)]
mod tests;
#[cfg(test)]
mod words;
