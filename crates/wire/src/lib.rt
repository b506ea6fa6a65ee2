// What the two directions of the wire share (document 01, "The wire"): here the check register of the FCS, four bits at a time.
#![tactic(auto)]

ghost use Rattle.std.specs.Prelude.{◌≡◌, ◌<◌};
ghost use Rattle.wire.specs.Bits.{low, wire};
ghost use Rattle.wire.specs.Fcs as fcs;

pub const PRESET: u16 = 0xFFFF;

// What the polynomial leaves of the lowest bit after four steps; its multiples below 16 are what it leaves of four bits.
const FOUR_STEPS: u16 = 0x1081;

// The register after four bits.
#[tactic(auto, using(crate::proofs::Check::register_four_lem))]
fn register_four(c: u16, x: u16) -> u16
    requires { x < 16 }
    ensures { result ≡ fcs.register c (low 4 x) }
{
    (c / 16) ^ (FOUR_STEPS * ((c ^ x) % 16))
}

// The register after the eight bits of a byte.
#[tactic(auto, using(crate::proofs::Check::low_nibbles, crate::proofs::Check::register_append))]
fn register_byte(c: u16, x: u8) -> u16
    ensures { result ≡ fcs.register c (low 8 x) }
{
    register_four(register_four(c, (x % 16) as u16), (x / 16) as u16)
}

// The register after the bytes of a slice.
#[tactic(auto, using(crate::proofs::Check::bytes_in))]
pub fn register(s: &[u8]) -> u16
    ensures { result ≡ fcs.register fcs.preset (wire s.now) }
{
    let mut c = PRESET;
    for x in s {
        c = register_byte(c, *x);
    }
    c
}
