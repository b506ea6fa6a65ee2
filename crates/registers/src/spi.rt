// Channel 0x01, the SPI master: what the end of a transfer makes of DATA.
ghost use Rattle.std.specs.Prelude.{◌≡◌, ◌+◌, ◌≤◌, length};
ghost use Rattle.parts.specs.Digits.{number};
ghost use Rattle.parts.specs.Parts.{part};
ghost use Rattle.commands.specs.declared.command.Register.TheVariants.{SpiData0};
ghost use Rattle.registers.specs.Registers.{size, read, store};
ghost use Rattle.registers.specs.Transfer.{transfer_length, filled, merged_word, data_after, with_data, completed};

use crate::SIZE;
use commands::command::Register;
use parts::{Width, number_at};

fn transfer_length(control: u32) -> u8
    ensures { result ≡ transfer_length control }
{
    let bits = (control & 0x7f) as u8;
    if bits == 0 { 128 } else { bits }
}

// The bits of one word of DATA, whose lowest is bit `from` of the 128, that a transfer fills.
#[tactic(auto, using(crate::proofs::Transfer::filled_none, crate::proofs::Transfer::filled_low, crate::proofs::Transfer::filled_all))]
fn filled(length: u8, from: u8) -> u32
    ensures { result ≡ filled length from }
{
    if length <= from {
        return 0;
    }
    let count = length - from;
    if count < 32 {
        (1 << count) - 1
    } else {
        u32::MAX
    }
}

// A word of DATA after a transfer.
#[tactic(auto, using(crate::proofs::Transfer::merged_mask))]
fn merged(was: u32, received: u32, length: u8, from: u8) -> u32
    ensures { result ≡ merged_word length from was received }
{
    let mask = filled(length, from);
    (was & !mask) | (received & mask)
}

// Kept: beside i2c::fill_word, which is over another rule of what is filled.
fn fill_word(registers: &mut [u8; SIZE], which: Register, received: u32, count: u8, from: u8)
    ensures { registers.new ≡ store registers.old which (merged_word count from (read registers.old which) received) }
{
    let was = crate::read(registers, which);
    crate::store(registers, which, merged(was, received, count, from));
}

fn word(received: &[u8], at: usize) -> u32
    requires { at + 4 ≤ length received.now }
    ensures { result ≡ number (part at 4 received.now) }
{
    number_at(received, at, Width::Word)
}

// DATA after a transfer, word by word.
#[tactic(auto, using(crate::proofs::Transfer::words_filled))]
fn fill(registers: &mut [u8; SIZE], received: &[u8; 16])
    ensures { registers.new ≡ with_data registers.old (data_after registers.old received.now) }
{
    let count = transfer_length(crate::read(registers, Register::SpiControl));
    fill_word(registers, Register::SpiData0, word(received, 0), count, 0);
    fill_word(registers, Register::SpiData1, word(received, 4), count, 32);
    fill_word(registers, Register::SpiData2, word(received, 8), count, 64);
    fill_word(registers, Register::SpiData3, word(received, 12), count, 96);
}

// The end of a transfer of 16 received bytes. Tells DATA[31:0] after it.
#[tactic(auto, unfolding(crate::specs::Transfer::completed))]
pub fn complete(registers: &mut [u8; SIZE], received: &[u8; 16]) -> u32
    ensures { (registers.new ≡ completed registers.old received.now) × (result ≡ read registers.new SpiData0) }
{
    fill(registers, received);
    crate::store(registers, Register::SpiGo, 0);
    crate::read(registers, Register::SpiData0)
}
