//! Bytes as hexadecimal digits in lower case, two digits a byte.
#![tactic(auto)]

mod encoding;

pub use encoding::encode_into;
