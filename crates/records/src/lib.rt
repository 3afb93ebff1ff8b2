#![tactic(auto)]

mod decoding;
mod encoding;

pub use decoding::decode;
pub use encoding::encode;
