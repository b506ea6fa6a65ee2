// A command: the LEN that it asks and gives, and what it does to which register.
ghost use Rattle.std.specs.Prelude.{◌≡◌};
ghost use Rattle.commands.specs.Command.{known};

// The registers of all channels, by their names; those of an I2C master with its number, 0 to 15. SpiGo and I2cOpen are no registers of the manual:
// SpiGo has the TRN of an open GO, I2cOpen that of an open start and, above it, the start's code.
#[derive(Clone, Copy)]
pub enum Register {
    Crb,
    Crc,
    Crd,
    SpiControl,
    SpiFreq,
    SpiSs,
    SpiData0,
    SpiData1,
    SpiData2,
    SpiData3,
    SpiGo,
    Dataout,
    Datain,
    Direction,
    Intsel,
    Inttrig,
    Ints,
    Clksel,
    Edgesel,
    Intenable,
    Seu,
    DacA,
    DacB,
    DacC,
    DacD,
    ChipId,
    I2cMask(u8),
    I2cCtrl(u8),
    I2cStatus(u8),
    I2cOpen(u8),
    I2cData0(u8),
    I2cData1(u8),
    I2cData2(u8),
    I2cData3(u8),
}

// The controller's registers: each switches channels on and off.
#[derive(Clone, Copy)]
pub enum Control {
    B,
    C,
    D,
}

#[derive(Clone, Copy)]
pub enum Does {
    // D goes into a register.
    Write(Register),
    // The same, into a register of the controller's.
    Switch(Control),
    // A register comes back in D.
    Read(Register),
    // A register becomes 0.
    Clear(Register),
    // What takes its time: the request's TRN is kept in a register until its completion, and no reply goes out yet.
    Start(Register),
    // The same on the bus of a master, which keeps the code too.
    Transact(u8, Transaction),
}

// What a master does on its bus: it moves one byte, or as many as CTRL says, or reads a byte and writes it back changed.
#[derive(Clone, Copy)]
pub enum Transaction {
    WriteOne,
    ReadOne,
    WriteMany,
    ReadMany,
    Modify,
}

// LEN as a command asks it and as its reply gives it.
// Kept: each channel's table names its own, as document 01 does; names such as READ_2_4 for all of them would be no plainer.
#[derive(Clone, Copy)]
pub struct Lengths {
    pub asked: u8,
    pub given: u8,
}

#[derive(Clone, Copy)]
pub struct Command {
    pub lengths: Lengths,
    pub does: Does,
}

// What a table has at a code.
pub(crate) fn known(lengths: Lengths, does: Does) -> Option<Command>
    ensures { result ≡ known lengths does }
{
    Some(Command { lengths, does })
}
