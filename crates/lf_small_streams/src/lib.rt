//! Tests alone: sources, sinks and the lines of streams, beside the definition and beside known answers.
#![tactic(auto)]

#[cfg(test)]
mod ends;
#[cfg(test)]
mod feeding;
#[cfg(test)]
mod known;
#[cfg(test)]
mod plain;
#[cfg(test)]
mod tests;
