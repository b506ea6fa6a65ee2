// Channel 0x02, the 32 parallel lines: what a pin sample makes of them. A bit for each line in every register but INTENABLE.
ghost use Rattle.std.specs.Prelude.{◌≡◌, length};
ghost use Rattle.bits.specs.Bits.{bit_of, word};
ghost use Rattle.registers.specs.Registers.{size};
ghost use Rattle.registers.specs.Pins.{taken_lines, datain_after, fires, firing_lines, interrupts, sampled};

use crate::SIZE;
use commands::command::Register;

// The lines that take their level at an edge kind.
// Kept: chip::events::on_sample promises what a sample of every number does, so a kind is a number here, and one over 2 takes no level.
#[tactic(auto, using(crate::proofs::Pins::taken_0, crate::proofs::Pins::taken_1, crate::proofs::Pins::taken_2, crate::proofs::Pins::taken_none))]
fn taken_lines(direction: u32, clksel: u32, edgesel: u32, kind: u8) -> u32
    ensures { result ≡ taken_lines direction clksel edgesel kind }
{
    match kind {
        0 => !direction & !clksel,
        1 => !direction & clksel & !edgesel,
        2 => !direction & clksel & edgesel,
        _ => 0,
    }
}

#[tactic(auto, using(crate::proofs::Pins::datain_mask))]
fn datain_after(registers: &[u8; SIZE], levels: u32, kind: u8) -> u32
    ensures { result ≡ datain_after registers.now levels kind }
{
    let direction = crate::read(registers, Register::Direction);
    let clksel = crate::read(registers, Register::Clksel);
    let edgesel = crate::read(registers, Register::Edgesel);
    let was = crate::read(registers, Register::Datain);
    let taken = taken_lines(direction, clksel, edgesel, kind);
    (was & !taken) | (levels & taken)
}

// The selected lines that went from one level to another, the way that INTTRIG says.
#[tactic(auto, using(crate::proofs::Pins::firing_mask))]
fn fired(was: u32, is: u32, intsel: u32, inttrig: u32) -> u32
    ensures { result ≡ word 32 (λ i. fires (bit_of was i) (bit_of is i) (bit_of intsel i) (bit_of inttrig i)) }
{
    intsel & ((!was & is & inttrig) | (was & !is & !inttrig))
}

// Those that went from DATAIN to `after`.
#[tactic(auto, unfolding(crate::specs::Pins::firing_lines))]
fn firing_lines(registers: &[u8; SIZE], after: u32) -> u32
    ensures { result ≡ firing_lines registers.now after }
{
    let was = crate::read(registers, Register::Datain);
    let intsel = crate::read(registers, Register::Intsel);
    let inttrig = crate::read(registers, Register::Inttrig);
    fired(was, after, intsel, inttrig)
}

// A pin sample. Tells whether an interrupt goes out: its data are INTS.
#[tactic(auto, unfolding(crate::specs::Pins::interrupts, crate::specs::Pins::sampled))]
pub fn sample(registers: &mut [u8; SIZE], levels: u32, kind: u8) -> bool
    ensures { (result ≡ interrupts registers.old levels kind) × (registers.new ≡ sampled registers.old levels kind) }
{
    let after = datain_after(registers, levels, kind);
    let firing = firing_lines(registers, after);
    let on = crate::read(registers, Register::Intenable);
    crate::store(registers, Register::Datain, after);
    let interrupts = on & 1 != 0 && firing != 0;
    if interrupts {
        crate::store(registers, Register::Ints, firing);
    }
    interrupts
}
