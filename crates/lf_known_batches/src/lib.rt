//! Tests alone: batches that jobs share, and jobs that meet.
#![tactic(auto)]

#[cfg(test)]
mod batches;
#[cfg(test)]
mod meeting;
#[cfg(test)]
mod telling;
