//! The codes by which the letters of a slot's plain text are written.
#![tactic(auto)]

mod apache_hex;
mod code;
mod coding;
mod doubled;
mod escapes;
mod ha_capture;
mod ha_escape;
mod ha_hash;
mod nginx_hex;
mod nginx_json;
mod plus_space;
mod raw;
mod word;

pub use apache_hex::ApacheHex;
pub use code::{Apart, Code};
pub use coding::Coding;
pub use doubled::Doubled;
pub use ha_capture::HaCapture;
pub use ha_escape::HaEscape;
pub use ha_hash::HaHash;
pub use nginx_hex::NginxHex;
pub use nginx_json::NginxJson;
pub use plus_space::PlusSpace;
pub use raw::Raw;
pub use word::Word;
