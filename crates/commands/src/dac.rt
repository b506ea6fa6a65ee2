// The commands of channel 0x15, the DAC outputs.
ghost use Rattle.std.specs.Prelude.{◌≡◌};
ghost use Rattle.commands.specs.Command.{code_of};
ghost use Rattle.commands.specs.Dac.{dac_commands};

use crate::command::{Command, Does, Lengths, Register, known};

const WRITE: Lengths = Lengths { asked: 4, given: 1 };

const READ: Lengths = Lengths { asked: 1, given: 4 };

#[tactic(auto, unfolding(crate::specs::Command::code_of))]
pub(crate) fn command_of(cmd: u8) -> Option<Command>
    ensures { result ≡ code_of dac_commands cmd }
{
    match cmd {
        0x10 => known(WRITE, Does::Write(Register::DacA)),
        0x20 => known(WRITE, Does::Write(Register::DacB)),
        0x30 => known(WRITE, Does::Write(Register::DacC)),
        0x40 => known(WRITE, Does::Write(Register::DacD)),
        0x11 => known(READ, Does::Read(Register::DacA)),
        0x21 => known(READ, Does::Read(Register::DacB)),
        0x31 => known(READ, Does::Read(Register::DacC)),
        0x41 => known(READ, Does::Read(Register::DacD)),
        _ => None,
    }
}
