//! Tests alone: records as JSON, beside known answers.
#![tactic(auto)]

#[cfg(test)]
mod json;
