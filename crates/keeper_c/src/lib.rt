// The keeper's calls for C and Rust programs (hosts/c/keeper.h): numbers, and byte slices as a pointer and a length. A call answers 0, or
// document 01's number of its stop, and a stop changes nothing behind a pointer.
#![tactic(auto)]

mod calls;
mod cipher;
mod dumps;
mod hex;
mod lists;
mod new_units;
mod shapes;
mod starts;

pub use calls::{keeper_advance, keeper_look};
pub use cipher::{keeper_open, keeper_seal, keeper_wipe};
pub use dumps::keeper_chain_order;
pub use hex::{keeper_hex_export, keeper_hex_import};
pub use lists::{keeper_settings_read, keeper_settings_write};
pub use new_units::keeper_factory_check;
pub use shapes::keeper_ring_shape;
pub use starts::{keeper_power_up, keeper_save};
