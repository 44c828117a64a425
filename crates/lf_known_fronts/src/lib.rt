//! Tests alone: what each front makes of the text of a format, beside known answers.
#![tactic(auto)]

#[cfg(test)]
mod apache;
#[cfg(test)]
mod envoy;
#[cfg(test)]
mod formats;
#[cfg(test)]
mod haproxy;
#[cfg(test)]
mod nginx;
#[cfg(test)]
mod telling;
#[cfg(test)]
mod w3c;
