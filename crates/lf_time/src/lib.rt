//! The domains of times that slots of a format hold, and the instants of moments.
#![tactic(auto)]

mod clf_time;
mod ha_time;
mod instants;
mod iso_millis_z;
mod iso_offset;
mod json_time;
mod tables;
mod w3c_clock;
mod w3c_date;

pub use clf_time::ClfTime;
pub use ha_time::HaTime;
pub use instants::{epoch, to_utc};
pub use iso_millis_z::IsoMillisZ;
pub use iso_offset::IsoOffset;
pub use json_time::JsonTime;
pub use w3c_clock::W3cClock;
pub use w3c_date::W3cDate;
