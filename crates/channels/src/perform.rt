// What a request without an error comes to: its reply, and the registers that it leaves.
ghost use Rattle.std.specs.Prelude.{◌≡◌};
ghost use Rattle.commands.specs.Request.{fault_bit};
ghost use Rattle.channels.specs.Perform.{told, left, marked};

use crate::rows;
use commands::channel::{Channel, channel_of};
use commands::command::{Does, Register};
use commands::request::{Fault, Reply, Request, granted};
use registers::SIZE;
use registers::i2c::INVCOM;

pub(crate) fn tell(registers: &[u8; SIZE], given: u8, does: Does) -> Option<Reply>
    ensures { result ≡ told registers.now given does }
{
    match does {
        Does::Write(_) | Does::Switch(_) | Does::Clear(_) => Some(granted(given, 0)),
        Does::Read(which) => Some(granted(given, registers::show(registers, which))),
        Does::Start(_) | Does::Transact(_, _) => None,
    }
}

pub(crate) fn leave(registers: &mut [u8; SIZE], q: Request, does: Does)
    ensures { registers.new ≡ left registers.old q does }
{
    match does {
        Does::Write(which) => registers::write(registers, which, q.value),
        Does::Switch(control) => rows::switch_by(registers, control, q.value),
        Does::Read(_) => {}
        Does::Clear(which) => registers::store(registers, which, 0),
        Does::Start(which) => registers::store(registers, which, u32::from(q.trn)),
        Does::Transact(index, _) => {
            let open = u32::from(q.trn) + 0x100 * u32::from(q.cmd);
            registers::store(registers, Register::I2cOpen(index), open);
        }
    }
}

// What an error leaves: a master notes a command that it does not know.
#[tactic(auto, unfolding(crate::specs::Perform::marked))]
pub(crate) fn mark(registers: &mut [u8; SIZE], ch: u8, fault: Fault)
    ensures { registers.new ≡ marked registers.old ch (fault_bit fault) }
{
    if fault == Fault::CmdUnknown {
        if let Some(Channel::Master(index)) = channel_of(ch) {
            let status = registers::read(registers, Register::I2cStatus(index));
            registers::store(registers, Register::I2cStatus(index), status | INVCOM);
        }
    }
}
