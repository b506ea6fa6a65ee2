// The commands of channel 0x13, the SEU counter.
ghost use Rattle.std.specs.Prelude.{◌≡◌};
ghost use Rattle.commands.specs.Command.{code_of};
ghost use Rattle.commands.specs.Seu.{seu_commands};

use crate::command::{Command, Does, Lengths, Register, known};

const READ: Lengths = Lengths { asked: 4, given: 4 };

const CLEAR: Lengths = Lengths { asked: 4, given: 2 };

#[tactic(auto, unfolding(crate::specs::Command::code_of))]
pub(crate) fn command_of(cmd: u8) -> Option<Command>
    ensures { result ≡ code_of seu_commands cmd }
{
    match cmd {
        0xf1 => known(READ, Does::Read(Register::Seu)),
        0xf0 => known(CLEAR, Does::Clear(Register::Seu)),
        _ => None,
    }
}
