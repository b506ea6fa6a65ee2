// The channels: a row each, with what enables it, what makes it busy, its group and its own bytes; the first error of a request; and then what
// it does, which cannot fail.
#![tactic(auto)]

mod errors;
pub mod groups;
mod masters;
mod perform;
pub mod rows;

ghost use Rattle.std.specs.Prelude.{◌≡◌};
ghost use Rattle.channels.specs.Inner.{is_enabled_at, is_busy_at};
ghost use Rattle.channels.specs.Perform.{replied, performed};
ghost use Rattle.channels.specs.Starts.{sound_registers};

use commands::channel::Channel;
use commands::request::{Reply, Request, refusal};
use registers::SIZE;
pub use rows::master_group;

// Whether a channel is enabled, for a caller that may have none, as of a number that names no channel: nothing enables that, and nothing makes it
// busy. One that has its channel asks rows.
pub fn is_enabled(registers: &[u8; SIZE], which: Option<Channel>) -> bool
    ensures { result ≡ is_enabled_at registers.now which }
{
    which.is_some_and(|ch| rows::is_enabled(registers, ch))
}

pub fn is_busy(registers: &[u8; SIZE], which: Option<Channel>) -> bool
    ensures { result ≡ is_busy_at registers.now which }
{
    which.is_some_and(|ch| rows::is_busy(registers, ch))
}

// Errors are decided first; what is performed after that cannot fail. Its reply is made before anything is stored; a start's comes later.
#[tactic(auto, unfolding(crate::specs::Perform::replied, crate::specs::Perform::performed))]
pub fn answer(registers: &mut [u8; SIZE], q: Request) -> Option<Reply>
    ensures { (result ≡ replied registers.old q) × (registers.new ≡ performed registers.old q) }
{
    match errors::decode(registers, q) {
        Err(fault) => {
            perform::mark(registers, q.ch, fault);
            Some(refusal(fault.into()))
        }
        Ok(command) => {
            let told = perform::tell(registers, command.lengths.given, command.does);
            perform::leave(registers, q, command.does);
            told
        }
    }
}

// Whether every register that does not keep all its bits has none of the others set, every disabled channel holds what it should, and every open
// start of a master is one.
#[tactic(auto, using(crate::proofs::Laws::all_sound))]
pub fn are_sound(registers: &[u8; SIZE]) -> bool
    ensures { result ≡ sound_registers registers.now }
{
    let masked = registers::are_within(registers);
    let spi = rows::still_holds(registers, Channel::Spi);
    let gpio = rows::still_holds(registers, Channel::Gpio);
    let masters = masters::are_sound(registers);
    masked & spi & gpio & masters
}
