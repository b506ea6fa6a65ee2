// The first error of a request: document 01's six, in its order; NBYTE comes with LEN.
ghost use Rattle.std.specs.Prelude.{◌≡◌};
ghost use Rattle.channels.specs.Errors.{can_move, decoded};

use crate::rows;
use commands::channel;
use commands::command::{Command, Does, Register};
use commands::request::{Fault, INTERRUPT, NO_TRANSACTION, Request};
use registers::{SIZE, i2c, read};

// A multi-byte start moves as many bytes as CTRL says, which has to be 1 to 16.
fn can_move(registers: &[u8; SIZE], does: Does) -> bool
    ensures { result ≡ can_move registers.now does }
{
    match does {
        Does::Transact(index, transaction) => {
            i2c::allows(read(registers, Register::I2cCtrl(index)), transaction)
        }
        _ => true,
    }
}

// The command that a request asks for, unless it has an error.
#[tactic(auto, unfolding(crate::specs::Errors::decoded))]
pub(crate) fn decode(registers: &[u8; SIZE], q: Request) -> Result<Command, Fault>
    ensures { result ≡ decoded registers.now q }
{
    if q.trn == NO_TRANSACTION || q.trn == INTERRUPT {
        return Err(Fault::TrnWrong);
    }
    let which = channel::channel_of(q.ch).ok_or(Fault::ChUnknown)?;
    if !rows::is_enabled(registers, which) {
        return Err(Fault::NotEnabled);
    }
    if rows::is_busy(registers, which) {
        return Err(Fault::Busy);
    }
    let command = channel::command_of(Some(which), q.cmd).ok_or(Fault::CmdUnknown)?;
    if q.len != command.lengths.asked || !can_move(registers, command.does) {
        return Err(Fault::LenWrong);
    }
    Ok(command)
}
