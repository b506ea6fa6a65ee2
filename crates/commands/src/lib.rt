// The commands of each channel, as document 01's table has them: code, LEN asked, LEN given, what it does. Of registers only the names.
#![tactic(auto)]

pub mod channel;
mod chip_id;
pub mod command;
mod controller;
mod dac;
mod gpio;
mod i2c;
pub mod request;
mod seu;
pub mod spi;
