// The chip's state in the bytes that a caller lends: its link, then its registers. docs/JOURNAL.md has them one by one. Power-on, and what is
// in range.
#![tactic(auto)]

ghost use Rattle.std.specs.Prelude.{◌≡◌, ◌≤◌, length};
ghost use Rattle.parts.specs.Parts.{put};
ghost use Rattle.state.specs.State.{blank};
ghost use Rattle.state.specs.Bytes.{link_bytes, link_image, link_of, is_state};

use commands::command::Register;
use link::{Link, Port, ReceiveNumber, SendNumber};
use registers::SIZE;

// The bytes of the link, before those of the registers.
pub const LINK: usize = 5;

// The bytes of a state.
pub const BYTES: usize = LINK + SIZE;

const LAST_NUMBER: u8 = 7;

const LAST_PORT: u8 = 1;

// A loopback is 0 or 1.
const LOOPING: u8 = 1;

// The registers at power-on, of a chip of this ID.
pub fn power_on(registers: &mut [u8; SIZE], id: u32)
    ensures { registers.new ≡ blank id }
{
    registers.fill(0);
    registers::store(registers, Register::ChipId, id);
}

// Kept: a function, not From: Link is of a crate that knows no bytes of a state, and s may go on behind the link's bytes.
pub fn link_of(s: &[u8]) -> Link
    requires { link_bytes ≤ length s.now }
    ensures { result ≡ link_of s.now }
{
    Link {
        send: SendNumber(s[0]),
        receive: ReceiveNumber(s[1]),
        port: s[2],
        primary: Port {
            loopback: s[3] == LOOPING,
        },
        auxiliary: Port {
            loopback: s[4] == LOOPING,
        },
    }
}

#[tactic(auto, unfolding(parts::specs::Parts::put))]
pub fn store_link(s: &mut [u8], l: Link)
    requires { link_bytes ≤ length s.old }
    ensures { s.new ≡ put 0 (link_image l) s.old }
{
    let bytes = [
        l.send.0,
        l.receive.0,
        l.port,
        l.primary.loopback as u8,
        l.auxiliary.loopback as u8,
    ];
    s[..LINK].copy_from_slice(&bytes);
}

// Whether bytes spell a state: what number 6 refuses is all else.
#[tactic(auto, unfolding(crate::specs::Bytes::is_state, crate::specs::Bytes::state_in, crate::specs::State::in_range, parts::specs::Parts::part))]
pub fn is_state(s: &[u8]) -> bool
    ensures { result ≡ is_state s.now }
{
    s.len() == BYTES
        && s[3] <= LOOPING
        && s[4] <= LOOPING
        && s[0] <= LAST_NUMBER
        && s[1] <= LAST_NUMBER
        && s[2] <= LAST_PORT
        && s[LINK..].as_array().is_some_and(channels::are_sound)
}
