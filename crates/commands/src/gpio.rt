// The commands of channel 0x02, the parallel lines.
ghost use Rattle.std.specs.Prelude.{◌≡◌};
ghost use Rattle.commands.specs.Command.{code_of};
ghost use Rattle.commands.specs.Gpio.{gpio_commands};

use crate::command::{Command, Does, Lengths, Register, known};

const WRITE: Lengths = Lengths { asked: 4, given: 2 };

const READ: Lengths = Lengths { asked: 1, given: 4 };

#[tactic(auto, unfolding(crate::specs::Command::code_of))]
pub(crate) fn command_of(cmd: u8) -> Option<Command>
    ensures { result ≡ code_of gpio_commands cmd }
{
    match cmd {
        0x10 => known(WRITE, Does::Write(Register::Dataout)),
        0x11 => known(READ, Does::Read(Register::Dataout)),
        0x20 => known(WRITE, Does::Write(Register::Direction)),
        0x21 => known(READ, Does::Read(Register::Direction)),
        0x30 => known(WRITE, Does::Write(Register::Intsel)),
        0x31 => known(READ, Does::Read(Register::Intsel)),
        0x40 => known(WRITE, Does::Write(Register::Inttrig)),
        0x41 => known(READ, Does::Read(Register::Inttrig)),
        0x70 => known(WRITE, Does::Write(Register::Ints)),
        0x71 => known(READ, Does::Read(Register::Ints)),
        0x80 => known(WRITE, Does::Write(Register::Clksel)),
        0x81 => known(READ, Does::Read(Register::Clksel)),
        0x90 => known(WRITE, Does::Write(Register::Edgesel)),
        0x91 => known(READ, Does::Read(Register::Edgesel)),
        0x60 => known(WRITE, Does::Write(Register::Intenable)),
        0x61 => known(READ, Does::Read(Register::Intenable)),
        0x01 => known(READ, Does::Read(Register::Datain)),
        _ => None,
    }
}
