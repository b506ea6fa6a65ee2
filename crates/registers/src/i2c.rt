// Channels 0x03 to 0x12, the I2C masters: what the end of a transaction on a master's bus makes of its registers.
ghost use Rattle.std.specs.Prelude.{◌≡◌, cond, ◌+◌, ◌*◌, ◌^◌, ◌≤◌, ◌<◌, length, get_or};
ghost use Rattle.bits.specs.Bits.{digit};
ghost use Rattle.commands.specs.Field.{Data0, Data1, Data2, Data3, master};
ghost use Rattle.registers.specs.Registers.{size};
ghost use Rattle.registers.specs.Transaction.{nbyte, allows, status_after, byte_after, word_after, filled_word, filled, fills_data, brings_byte, ended, end_data};

use crate::SIZE;
use commands::command::{Register, Transaction};

// The most bytes that CTRL can ask for.
const MOST: u32 = 16;

// STATUS: the bit of each flag.
const SUCC: u8 = 0x04;

const LEVERR: u8 = 0x08;

pub const INVCOM: u32 = 0x20;

const NOACK: u8 = 0x40;

// How many bytes CTRL says, in its bits 6 to 2.
fn count_in(control: u32) -> u32
    ensures { result ≡ nbyte control }
{
    (control / 4) % 32
}

// Whether CTRL allows a start: a multi-byte one moves 1 to 16 bytes.
pub fn allows(control: u32, transaction: Transaction) -> bool
    ensures { result ≡ allows control transaction }
{
    match transaction {
        Transaction::WriteMany | Transaction::ReadMany => matches!(count_in(control), 1..=MOST),
        _ => true,
    }
}

fn flag(on: bool, bit: u8) -> u8
    ensures { (result ≡ digit on * bit) × (result ≤ bit) }
{
    if on { bit } else { 0 }
}

#[tactic(auto, using(crate::proofs::Transaction::status_of))]
fn status_after(acknowledge: bool, low: bool, was: u32) -> u8
    ensures { result ≡ status_after acknowledge low was }
{
    let succ = flag(acknowledge & !low, SUCC);
    let leverr = flag(low, LEVERR);
    let invcom = flag(was & INVCOM != 0, INVCOM as u8);
    let noack = flag(!acknowledge, NOACK);
    succ + leverr + invcom + noack
}

fn byte_at(received: &[u8], k: usize) -> u8
    ensures { result ≡ get_or received.now k 0 }
{
    received.get(k).copied().unwrap_or(0)
}

fn byte_after(received: &[u8], count: u32, k: u32, was: u8) -> u8
    ensures { result ≡ byte_after received.now count k was }
{
    if k < count {
        byte_at(received, k as usize)
    } else {
        was
    }
}

// One word of DATA, from its byte k on, the first byte on top. Where all its four bytes came, they are the word.
#[tactic(auto, unfolding(crate::specs::Transaction::word_after))]
fn word_after(received: &[u8], count: u32, k: u32, was: u32) -> u32
    requires { k < 16 }
    ensures { result ≡ word_after received.now count k was }
{
    let at = k as usize;
    if k + 4 <= count && at + 4 <= received.len() {
        return u32::from_be_bytes([
            received[at],
            received[at + 1],
            received[at + 2],
            received[at + 3],
        ]);
    }
    let [b3, b2, b1, b0] = was.to_be_bytes();
    u32::from_be_bytes([
        byte_after(received, count, k, b3),
        byte_after(received, count, k + 1, b2),
        byte_after(received, count, k + 2, b1),
        byte_after(received, count, k + 3, b0),
    ])
}

// One word of DATA, whose first byte is byte k, after a read of so many. It is inlined for each word: there its row is known.
#[tactic(auto, unfolding(crate::specs::Transaction::filled_word))]
#[inline(always)]
fn fill_word(registers: &mut [u8; SIZE], which: Register, received: &[u8], count: u32, k: u32)
    requires { k < 16 }
    ensures { registers.new ≡ filled_word which received.now count k registers.old }
{
    let was = crate::read(registers, which);
    crate::store(registers, which, word_after(received, count, k, was));
}

// DATA bytes 0 to count - 1 become those received, lacking ones 0.
#[tactic(auto, unfolding(crate::specs::Transaction::filled))]
fn fill(registers: &mut [u8; SIZE], index: u8, received: &[u8], count: u32)
    ensures { registers.new ≡ filled index received.now count registers.old }
{
    fill_word(registers, Register::I2cData0(index), received, count, 0);
    fill_word(registers, Register::I2cData1(index), received, count, 4);
    fill_word(registers, Register::I2cData2(index), received, count, 8);
    fill_word(registers, Register::I2cData3(index), received, count, 12);
}

fn fills_data(transaction: Transaction) -> bool
    ensures { result ≡ fills_data transaction }
{
    matches!(transaction, Transaction::ReadMany)
}

fn brings_byte(transaction: Transaction) -> bool
    ensures { result ≡ brings_byte transaction }
{
    matches!(transaction, Transaction::ReadOne)
}

// What the reply carries: STATUS, and a single read's byte.
fn end_data(status: u8, received: &[u8], brought: bool) -> u32
    ensures { result ≡ status * 2 ^ 24 + cond brought (get_or received.now 0 0) 0 * 2 ^ 16 }
{
    let byte = if brought { byte_at(received, 0) } else { 0 };
    u32::from_be_bytes([status, byte, 0, 0])
}

// The end of a transaction: the start is closed, STATUS is new, and on SUCC a multi-byte read fills DATA. Tells D of the reply.
#[tactic(auto, unfolding(crate::specs::Transaction::ended, crate::specs::Transaction::end_data))]
pub fn end(
    registers: &mut [u8; SIZE],
    index: u8,
    transaction: Transaction,
    acknowledge: bool,
    low: bool,
    received: &[u8],
) -> u32
    ensures { (registers.new ≡ ended index transaction acknowledge low received.now registers.old) × (result ≡ end_data index transaction acknowledge low received.now registers.old) }
{
    let was = crate::read(registers, Register::I2cStatus(index));
    let count = count_in(crate::read(registers, Register::I2cCtrl(index)));
    let status = status_after(acknowledge, low, was);
    let success = acknowledge & !low;
    crate::store(registers, Register::I2cOpen(index), 0);
    crate::store(registers, Register::I2cStatus(index), status as u32);
    if success && fills_data(transaction) {
        fill(registers, index, received, count);
    }
    end_data(status, received, success && brings_byte(transaction))
}
