// The commands of channel 0x00, the controller: its registers switch other channels.
ghost use Rattle.std.specs.Prelude.{◌≡◌};
ghost use Rattle.commands.specs.Command.{code_of};
ghost use Rattle.commands.specs.Controller.{controller_commands};

use crate::command::{Command, Control, Does, Lengths, Register, known};

const WRITE: Lengths = Lengths { asked: 4, given: 2 };

const READ: Lengths = Lengths { asked: 2, given: 4 };

#[tactic(auto, unfolding(crate::specs::Command::code_of))]
pub(crate) fn command_of(cmd: u8) -> Option<Command>
    ensures { result ≡ code_of controller_commands cmd }
{
    match cmd {
        0x02 => known(WRITE, Does::Switch(Control::B)),
        0x04 => known(WRITE, Does::Switch(Control::C)),
        0x06 => known(WRITE, Does::Switch(Control::D)),
        0x03 => known(READ, Does::Read(Register::Crb)),
        0x05 => known(READ, Does::Read(Register::Crc)),
        0x07 => known(READ, Does::Read(Register::Crd)),
        _ => None,
    }
}
