//! Tests alone: plain data, domains, codes, times and slots, beside known answers.
#![tactic(auto)]

#[cfg(test)]
mod checks;
#[cfg(test)]
mod codes;
#[cfg(test)]
mod numbers;
#[cfg(test)]
mod plain;
#[cfg(test)]
mod slots;
#[cfg(test)]
mod texts;
#[cfg(test)]
mod times;
