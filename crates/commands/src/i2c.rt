// The commands of channels 0x03 to 0x12, the I2C masters: the same for all sixteen.
ghost use Rattle.std.specs.Prelude.{◌≡◌};
ghost use Rattle.commands.specs.Command.{code_of};
ghost use Rattle.commands.specs.I2c.{i2c_commands, start};

use crate::command::{Command, Does, Lengths, Register, Transaction, known};

// LEN of a register of one byte, and of a word of DATA.
const WRITE: Lengths = Lengths { asked: 1, given: 0 };

const READ: Lengths = Lengths { asked: 0, given: 1 };

const WRITE_WORD: Lengths = Lengths { asked: 4, given: 0 };

const READ_WORD: Lengths = Lengths { asked: 0, given: 4 };

fn start(index: u8, asked: u8, given: u8, transaction: Transaction) -> Option<Command>
    ensures { result ≡ start index asked given transaction }
{
    known(Lengths { asked, given }, Does::Transact(index, transaction))
}

#[tactic(auto, unfolding(crate::specs::Command::code_of))]
pub(crate) fn command_of(index: u8, cmd: u8) -> Option<Command>
    ensures { result ≡ code_of (i2c_commands index) cmd }
{
    match cmd {
        0x30 => known(WRITE, Does::Write(Register::I2cCtrl(index))),
        0x31 => known(READ, Does::Read(Register::I2cCtrl(index))),
        0x11 => known(READ, Does::Read(Register::I2cStatus(index))),
        0x20 => known(WRITE, Does::Write(Register::I2cMask(index))),
        0x21 => known(READ, Does::Read(Register::I2cMask(index))),
        0x40 => known(WRITE_WORD, Does::Write(Register::I2cData0(index))),
        0x41 => known(READ_WORD, Does::Read(Register::I2cData0(index))),
        0x50 => known(WRITE_WORD, Does::Write(Register::I2cData1(index))),
        0x51 => known(READ_WORD, Does::Read(Register::I2cData1(index))),
        0x60 => known(WRITE_WORD, Does::Write(Register::I2cData2(index))),
        0x61 => known(READ_WORD, Does::Read(Register::I2cData2(index))),
        0x70 => known(WRITE_WORD, Does::Write(Register::I2cData3(index))),
        0x71 => known(READ_WORD, Does::Read(Register::I2cData3(index))),
        0x82 => start(index, 4, 4, Transaction::WriteOne),
        0x86 => start(index, 4, 4, Transaction::ReadOne),
        0x8a => start(index, 6, 4, Transaction::WriteOne),
        0x8e => start(index, 4, 4, Transaction::ReadOne),
        0xda => start(index, 4, 6, Transaction::WriteMany),
        0xde => start(index, 4, 4, Transaction::ReadMany),
        0xe2 => start(index, 2, 2, Transaction::WriteMany),
        0xe6 => start(index, 2, 2, Transaction::ReadMany),
        0xc2 => start(index, 2, 2, Transaction::Modify),
        0xc6 => start(index, 2, 2, Transaction::Modify),
        0xca => start(index, 2, 2, Transaction::Modify),
        _ => None,
    }
}
