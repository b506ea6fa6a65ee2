// The masters' part of what is in range: STATUS without a bit that reads 0, zeros while it is disabled, and an open start that is one.
ghost use Rattle.std.specs.Prelude.{◌≡◌, ◌+◌, ◌≤◌};
ghost use Rattle.commands.specs.declared.channel.Channel.TheVariants as Channel;
ghost use Rattle.registers.specs.Registers.{each, each_master};
ghost use Rattle.channels.specs.Rows.{is_enabled};
ghost use Rattle.channels.specs.Starts.{start_does, open_sound};
ghost use Rattle.channels.specs.Inner.{master_sound, none_on, first_by, many_by, Enables};

use commands::channel;
use commands::channel::Channel;
use commands::command::{Control, Does, Register};
use registers::{FIRST_MASTER, MASTER_BYTES, SIZE, are_zero, bank, i2c, read};

fn start_does(control: u32, does: Does) -> bool
    ensures { result ≡ start_does control does }
{
    match does {
        Does::Transact(_, transaction) => i2c::allows(control, transaction),
        _ => false,
    }
}

#[tactic(auto, unfolding(crate::specs::Starts::open_sound))]
fn is_open_sound(registers: &[u8; SIZE], index: u8) -> bool
    ensures { result ≡ open_sound registers.now index }
{
    let open = read(registers, Register::I2cOpen(index));
    if open == 0 {
        return true;
    }
    if open % 0x100 == 0 {
        return false;
    }
    let control = read(registers, Register::I2cCtrl(index));
    let code = ((open / 0x100) % 0x100) as u8;
    channel::command_of(Some(Channel::Master(index)), code).is_some_and(|command| start_does(
        control,
        command.does,
    ))
}

// A disabled master that holds zeros has nothing else to be looked at.
#[tactic(auto, using(crate::proofs::Laws::one_master))]
fn is_sound(registers: &[u8; SIZE], index: u8, on: bool) -> bool
    requires { on ≡ is_enabled registers.now (Channel.Master index) }
    ensures { result ≡ master_sound registers.now index }
{
    if on {
        let status = registers::is_within(registers, Register::I2cStatus(index));
        return status & is_open_sound(registers, index);
    }
    are_zero(registers, bank(index), MASTER_BYTES)
}

// The masters that one register of the controller's switches: so many, from the first on. Bit k of `bits` enables the k-th of them.
#[derive(Clone, Copy)]
struct Switched {
    bits: u32,
    first: u8,
    many: u8,
}

// CRB bits 3 to 7 are masters 0 to 4, CRC bits 0 to 7 are 5 to 12, CRD bits 0 to 2 are 13 to 15.
#[tactic(auto, using(crate::proofs::Laws::bit_by_bit))]
fn switched_by(registers: &[u8; SIZE], control: Control) -> Switched
    ensures first { result.first ≡ first_by control }
    ensures many { result.many ≡ many_by control }
    ensures few { result.first + result.many ≤ 16 }
    ensures enables { Enables registers.now result.bits result.first result.many }
{
    match control {
        Control::B => Switched {
            bits: read(registers, Register::Crb) / 8,
            first: 0,
            many: 5,
        },
        Control::C => Switched {
            bits: read(registers, Register::Crc),
            first: 5,
            many: 8,
        },
        Control::D => Switched {
            bits: read(registers, Register::Crd) % 8,
            first: 13,
            many: 3,
        },
    }
}

// Where none of them is enabled, one look at all their bytes tells.
#[tactic(auto, using(crate::proofs::Laws::part_of_them))]
fn some_are_sound(registers: &[u8; SIZE], control: Control) -> bool
    ensures { result ≡ each (many_by control) (first_by control) (master_sound registers.now) }
{
    let some = switched_by(registers, control);
    if some.bits == 0 {
        return are_zero(
            registers,
            bank(some.first),
            usize::from(some.many) * MASTER_BYTES,
        );
    }
    for k in 0..some.many {
        if !is_sound(registers, some.first + k, some.bits & (1 << k) != 0) {
            return false;
        }
    }
    true
}

// CRB bits 3 to 7, CRC, and CRD bits 0 to 2 enable the masters.
fn none_is_on(registers: &[u8; SIZE]) -> bool
    ensures { result ≡ none_on registers.now }
{
    let b = read(registers, Register::Crb);
    let c = read(registers, Register::Crc);
    let d = read(registers, Register::Crd);
    (b < 8) & (c == 0) & (d % 8 == 0)
}

// Whether each master is in range. Where none is enabled, one look at all their bytes tells.
#[tactic(auto, using(crate::proofs::Laws::all_of_them))]
pub(crate) fn are_sound(registers: &[u8; SIZE]) -> bool
    ensures { result ≡ each_master (master_sound registers.now) }
{
    if none_is_on(registers) {
        return are_zero(registers, FIRST_MASTER, SIZE - FIRST_MASTER);
    }
    let b = some_are_sound(registers, Control::B);
    let c = some_are_sound(registers, Control::C);
    let d = some_are_sound(registers, Control::D);
    b & c & d
}
