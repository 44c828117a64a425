//! The records of small formats, enumerated, beside the runs of their machines: tests alone.
#![tactic(auto)]

#[cfg(test)]
mod checks;
#[cfg(test)]
mod orders;
#[cfg(test)]
mod records;
#[cfg(test)]
mod search;
#[cfg(test)]
mod shapes;
#[cfg(test)]
mod tests;
