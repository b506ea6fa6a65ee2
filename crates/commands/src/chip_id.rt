// The commands of channel 0x14, the chip ID.
ghost use Rattle.std.specs.Prelude.{◌≡◌};
ghost use Rattle.commands.specs.Command.{code_of};
ghost use Rattle.commands.specs.ChipId.{id_commands};

use crate::command::{Command, Does, Lengths, Register, known};

const READ: Lengths = Lengths { asked: 4, given: 4 };

#[tactic(auto, unfolding(crate::specs::Command::code_of))]
pub(crate) fn command_of(cmd: u8) -> Option<Command>
    ensures { result ≡ code_of id_commands cmd }
{
    match cmd {
        0xd1 => known(READ, Does::Read(Register::ChipId)),
        _ => None,
    }
}
