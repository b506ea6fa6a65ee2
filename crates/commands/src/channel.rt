// The channels by their numbers, and the command of a channel's code.
ghost use Rattle.std.specs.Prelude.{◌≡◌, option_and_then};
ghost use Rattle.commands.specs.Channels.{channel_of, command_of};

use crate::command::Command;
use crate::{chip_id, controller, dac, gpio, i2c, seu, spi};

#[derive(Clone, Copy)]
pub enum Channel {
    Controller,
    Spi,
    Gpio,
    // One of the sixteen I2C masters, 0 to 15.
    Master(u8),
    Seu,
    Id,
    Dac,
}

#[tactic(auto, unfolding(crate::specs::Channels::channel_of))]
pub fn channel_of(ch: u8) -> Option<Channel>
    ensures { result ≡ channel_of ch }
{
    match ch {
        0x00 => Some(Channel::Controller),
        0x01 => Some(Channel::Spi),
        0x02 => Some(Channel::Gpio),
        0x03..=0x12 => Some(Channel::Master(ch - 0x03)),
        0x13 => Some(Channel::Seu),
        0x14 => Some(Channel::Id),
        0x15 => Some(Channel::Dac),
        _ => None,
    }
}

// The command of a channel's code; where there is no channel, there is none.
pub fn command_of(which: Option<Channel>, cmd: u8) -> Option<Command>
    ensures { result ≡ option_and_then (λ ch. command_of ch cmd) which }
{
    match which? {
        Channel::Controller => controller::command_of(cmd),
        Channel::Spi => spi::command_of(cmd),
        Channel::Gpio => gpio::command_of(cmd),
        Channel::Master(index) => i2c::command_of(index, cmd),
        Channel::Seu => seu::command_of(cmd),
        Channel::Id => chip_id::command_of(cmd),
        Channel::Dac => dac::command_of(cmd),
    }
}
