// The registers of all channels, in lent bytes: a row for each, with its place, its width, the bits that it keeps, and where it stands in D.
// One way to read them and one to store into them, and what a pin sample, an SPI transfer and an I2C transaction leave of them. Nothing here of
// LEN, of enable bits, of errors.
#![tactic(auto)]

pub mod gpio;
pub mod i2c;
pub mod spi;

ghost use Rattle.std.specs.Prelude.{◌≡◌, ◌+◌, ◌<◌, ◌≤◌, ◌&&◌, true, eqb, fold, length};
ghost use Rattle.parts.specs.Digits.{bytes_in};
ghost use Rattle.registers.specs.Registers.{row, row_of, bank, read, store, shown, written, zeroed, are_zero, is_within, four_within, size};

use commands::command::Register;
use parts::Width;

// The bytes of all of them.
pub const SIZE: usize = 406;

// A register's place and width, the bits that it keeps, and the bit of D where its lowest one stands.
#[derive(Clone, Copy)]
pub struct Row {
    pub place: usize,
    pub width: Width,
    pub mask: u32,
    pub low: u32,
}

fn at(place: usize, width: Width, mask: u32, low: u32) -> Row
    ensures { result ≡ row place width mask low }
{
    Row {
        place,
        width,
        mask,
        low,
    }
}

// Where the bytes of an I2C master start, and how many they are. A master's number counts modulo 16.
pub const MASTER_BYTES: usize = 21;

pub const FIRST_MASTER: usize = 70;

#[tactic(auto, unfolding(crate::specs::Registers::bank))]
pub fn bank(index: u8) -> usize
    ensures { result ≡ bank index }
{
    FIRST_MASTER + MASTER_BYTES * ((index % 16) as usize)
}

#[tactic(auto, using(crate::proofs::Rows::bank_to, crate::proofs::Rows::placed, crate::proofs::Rows::in_data))]
fn row_of(which: Register) -> Row
    ensures row { result ≡ row_of which }
    ensures inside { result.place + bytes_in result.width ≤ size }
    ensures in_data { result.low < 32 }
{
    match which {
        Register::Crb => at(0, Width::Byte, 0xfe, 24),
        Register::Crc => at(1, Width::Byte, 0xff, 24),
        Register::Crd => at(2, Width::Byte, 0x1f, 24),
        Register::Seu => at(3, Width::Word, 0xffffffff, 0),
        Register::DacA => at(7, Width::Byte, 0xff, 0),
        Register::DacB => at(8, Width::Byte, 0xff, 0),
        Register::DacC => at(9, Width::Byte, 0xff, 0),
        Register::DacD => at(10, Width::Byte, 0xff, 0),
        Register::ChipId => at(11, Width::Word, 0xffffff, 0),
        Register::SpiControl => at(15, Width::Half, 0xffff, 0),
        Register::SpiFreq => at(17, Width::Half, 0xffff, 0),
        Register::SpiSs => at(19, Width::Byte, 0xff, 0),
        Register::SpiData0 => at(20, Width::Word, 0xffffffff, 0),
        Register::SpiData1 => at(24, Width::Word, 0xffffffff, 0),
        Register::SpiData2 => at(28, Width::Word, 0xffffffff, 0),
        Register::SpiData3 => at(32, Width::Word, 0xffffffff, 0),
        Register::SpiGo => at(36, Width::Byte, 0xff, 0),
        Register::Dataout => at(37, Width::Word, 0xffffffff, 0),
        Register::Datain => at(41, Width::Word, 0xffffffff, 0),
        Register::Direction => at(45, Width::Word, 0xffffffff, 0),
        Register::Intsel => at(49, Width::Word, 0xffffffff, 0),
        Register::Inttrig => at(53, Width::Word, 0xffffffff, 0),
        Register::Ints => at(57, Width::Word, 0xffffffff, 0),
        Register::Clksel => at(61, Width::Word, 0xffffffff, 0),
        Register::Edgesel => at(65, Width::Word, 0xffffffff, 0),
        Register::Intenable => at(69, Width::Byte, 0x1, 0),
        Register::I2cMask(index) => at(bank(index), Width::Byte, 0xff, 24),
        Register::I2cCtrl(index) => at(bank(index) + 1, Width::Byte, 0xff, 24),
        Register::I2cStatus(index) => at(bank(index) + 2, Width::Byte, 0x6c, 24),
        Register::I2cOpen(index) => at(bank(index) + 3, Width::Half, 0xffff, 0),
        Register::I2cData0(index) => at(bank(index) + 5, Width::Word, 0xffffffff, 0),
        Register::I2cData1(index) => at(bank(index) + 9, Width::Word, 0xffffffff, 0),
        Register::I2cData2(index) => at(bank(index) + 13, Width::Word, 0xffffffff, 0),
        Register::I2cData3(index) => at(bank(index) + 17, Width::Word, 0xffffffff, 0),
    }
}

#[tactic(auto, unfolding(crate::specs::Registers::read))]
pub fn read(registers: &[u8; SIZE], which: Register) -> u32
    ensures { result ≡ read registers.now which }
{
    let row = row_of(which);
    parts::number_at(registers, row.place, row.width)
}

#[tactic(auto, unfolding(crate::specs::Registers::store))]
pub fn store(registers: &mut [u8; SIZE], which: Register, value: u32)
    ensures { registers.new ≡ store registers.old which value }
{
    let row = row_of(which);
    parts::store_number(registers, row.place, row.width, value & row.mask);
}

// Kept: show and write look their row up themselves; in terms of read and store they would do it twice at every access.
// A register as it stands in D.
#[tactic(auto, unfolding(crate::specs::Registers::read))]
pub fn show(registers: &[u8; SIZE], which: Register) -> u32
    ensures { result ≡ shown registers.now which }
{
    let row = row_of(which);
    parts::number_at(registers, row.place, row.width) << row.low
}

// A register takes what stands for it in D.
#[tactic(auto, unfolding(crate::specs::Registers::store))]
pub fn write(registers: &mut [u8; SIZE], which: Register, value: u32)
    ensures { registers.new ≡ written registers.old which value }
{
    let row = row_of(which);
    parts::store_number(
        registers,
        row.place,
        row.width,
        (value >> row.low) & row.mask,
    );
}

// Some bytes, from a place on, at 0.
#[tactic(auto, unfolding(crate::specs::Registers::zeroed, parts::specs::Parts::put))]
pub fn clear(registers: &mut [u8], first: usize, many: usize)
    requires { first + many ≤ length registers.old }
    ensures { registers.new ≡ zeroed first many registers.old }
{
    parts::clear(registers, first, many);
}

// Whether bytes are 0. It looks at each of them, so that it can look at many at once.
// Kept: no iter().all; tried, it stops at each byte, and took eight times as long over 336 bytes.
fn none_set(bytes: &[u8]) -> bool
    ensures { result ≡ fold (λ all b. all && eqb b 0) true bytes.now }
{
    bytes.iter().fold(true, |all, b| all & (*b == 0))
}

// Whether some bytes, from a place on, are 0.
pub fn are_zero(registers: &[u8], first: usize, many: usize) -> bool
    requires { first + many ≤ length registers.now }
    ensures { result ≡ are_zero first many registers.now }
{
    none_set(&registers[first..first + many])
}

pub fn is_within(registers: &[u8; SIZE], which: Register) -> bool
    ensures { result ≡ is_within registers.now which }
{
    let value = read(registers, which);
    value & row_of(which).mask == value
}

// Whether no register of the core, SPI and GPIO has a bit set that reads 0.
pub fn are_within(registers: &[u8; SIZE]) -> bool
    ensures { result ≡ four_within registers.now }
{
    let crb = is_within(registers, Register::Crb);
    let crd = is_within(registers, Register::Crd);
    let id = is_within(registers, Register::ChipId);
    let intenable = is_within(registers, Register::Intenable);
    crb & crd & id & intenable
}
