// The commands of channel 0x01, the SPI master.
ghost use Rattle.std.specs.Prelude.{◌≡◌};
ghost use Rattle.commands.specs.Command.{code_of};
ghost use Rattle.commands.specs.Spi.{spi_commands};

use crate::command::{Command, Does, Lengths, Register, known};

const WRITE: Lengths = Lengths { asked: 6, given: 2 };

const READ: Lengths = Lengths { asked: 2, given: 6 };

pub const GO: Lengths = Lengths { asked: 2, given: 6 };

#[tactic(auto, unfolding(crate::specs::Command::code_of))]
pub(crate) fn command_of(cmd: u8) -> Option<Command>
    ensures { result ≡ code_of spi_commands cmd }
{
    match cmd {
        0x40 => known(WRITE, Does::Write(Register::SpiControl)),
        0x41 => known(READ, Does::Read(Register::SpiControl)),
        0x50 => known(WRITE, Does::Write(Register::SpiFreq)),
        0x51 => known(READ, Does::Read(Register::SpiFreq)),
        0x60 => known(WRITE, Does::Write(Register::SpiSs)),
        0x61 => known(READ, Does::Read(Register::SpiSs)),
        0x00 => known(WRITE, Does::Write(Register::SpiData0)),
        0x01 => known(READ, Does::Read(Register::SpiData0)),
        0x10 => known(WRITE, Does::Write(Register::SpiData1)),
        0x11 => known(READ, Does::Read(Register::SpiData1)),
        0x20 => known(WRITE, Does::Write(Register::SpiData2)),
        0x21 => known(READ, Does::Read(Register::SpiData2)),
        0x30 => known(WRITE, Does::Write(Register::SpiData3)),
        0x31 => known(READ, Does::Read(Register::SpiData3)),
        0x72 => known(GO, Does::Start(Register::SpiGo)),
        _ => None,
    }
}
