// The layout of a checkpoint in a half of the FRAM: reading a half, and sealing a checkpoint into a staging buffer.
#![tactic(auto)]

pub mod fram;
pub mod half;
pub mod layout;
pub mod staging;
pub mod under;
