// Content in stuffed bits, four at a time, by a rule in place of a table.
ghost use Rattle.std.specs.Prelude.{◌≡◌, ◌<◌, ◌≤◌};
ghost use Rattle.wire.specs.Bits.{low};
ghost use Rattle.transmitter.specs.Inner.{tail};
ghost use Rattle.transmitter.specs.Stuffing.{Stuffs};

// The run of ones at the end of four bits.
#[tactic(auto, using(crate::proofs::Written::run_right, crate::proofs::Written::counted_few))]
fn run_of(x: u16) -> u16
    requires { x < 16 }
    ensures run { result ≡ tail 0 (low 4 x) }
    ensures few { result ≤ 4 }
{
    (7 < x) as u16 + (11 < x) as u16 + (13 < x) as u16 + (14 < x) as u16
}

// Four bits of content as they go out: the bits, how many they are, and the run of ones at their end.
#[derive(Clone, Copy)]
pub(crate) struct Piece {
    pub(crate) bits: u16,
    pub(crate) count: usize,
    pub(crate) ones: u16,
}

// Four bits x of content after a run of ones. A zero is inserted where x begins with all the ones that are left up to the fifth; there is room
// for one only.
#[tactic(auto, using(crate::proofs::Written::stuffing))]
pub(crate) fn stuffed(ones: u16, x: u16) -> Piece
    requires { (ones ≤ 4) × (x < 16) }
    ensures { Stuffs ones x result }
{
    let left = (32 >> ones) - 1;
    if x % (left + 1) == left {
        let bits = x + (x - left);
        return Piece {
            bits,
            count: 5,
            ones: run_of(bits / 2),
        };
    }
    Piece {
        bits: x,
        count: 4,
        ones: run_of(x),
    }
}
