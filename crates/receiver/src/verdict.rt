// What a stopped scan answers: verdict and FCS stand outside the loops over bits.
ghost use Rattle.std.specs.Prelude.{◌≡◌, ℕ, ◌+◌, ◌≤◌, ◌<◌, length, take, get_or};
ghost use Rattle.numbers.specs.Numbers.{output_least};
ghost use Rattle.parts.specs.Parts.{put};
ghost use Rattle.wire.specs.Bits.{wire};
ghost use Rattle.receiver.specs.Receiver.{image, opened};
ghost use Rattle.receiver.specs.Received.{answer_length, answer_number, received_of};
ghost use Rattle.receiver.specs.Receive.{at_flag, concluded, received_as};
ghost use Rattle.receiver.specs.Inner.{Good, stop_of};
ghost use Rattle.receiver.specs.declared.scanning.End.TheVariants as end;

use crate::scanning::{End, Scanned};
use crate::{NoBody, Receiver, Reception};
use numbers::Dropped;

// The longest content that is no frame too long: 16 bytes of body, 2 of FCS.
const CONTENT_MOST: u8 = 144;

// What a good frame leaves in the check register.
const RESIDUE: u16 = 0xF0B8;

// Kept: as Receiver::new with two other numbers; one function of mode and ones would only move the numbers to its callers.

// Just after a flag.
#[tactic(auto, unfolding(wire::specs::Bits::pack, wire::specs::Bits::octets, wire::specs::Bits::num))]
fn at_opening() -> Receiver
    ensures { result ≡ image opened }
{
    Receiver {
        mode: 1,
        ones: 0,
        lead: 0,
        count: 0,
        bytes: [0; 20],
    }
}

// The answer of a flag that ends this many bits of content: the length of the body that is written.
#[tactic(auto, using(crate::proofs::View::flags))]
fn at_flag(kept: &[u8; 20], bits: u8, output: &mut [u8]) -> Result<usize, NoBody>
    requires { (32 ≤ bits) × (bits ≤ 152) × ((i : ℕ) → get_or kept.now i 0 < 256) × (output_least ≤ length output.old) }
    ensures number { answer_number result ≡ (at_flag (take bits (wire kept.now))).number }
    ensures size { answer_length result ≡ length (at_flag (take bits (wire kept.now))).body }
    ensures output_after { output.new ≡ put 0 (at_flag (take bits (wire kept.now))).body output.old }
{
    if CONTENT_MOST < bits {
        return Err(NoBody::Dropped(Dropped::LongContent));
    }
    if bits % 8 != 0 {
        return Err(NoBody::Dropped(Dropped::BrokenContent));
    }
    let n = (bits / 8) as usize;
    if wire::register(&kept[..n]) != RESIDUE {
        return Err(NoBody::Dropped(Dropped::WrongFcs));
    }
    let length = n - 2;
    parts::store(output, 0, &kept[..length]);
    Ok(length)
}

// What each end of a scan answers.
#[tactic(auto, using(crate::proofs::View::ends))]
pub(crate) fn conclude(stop: Scanned, output: &mut [u8]) -> Reception
    requires good { Good stop.control stop.bytes }
    requires lead_bound { stop.end ≡ end.Flag → 37 + stop.control.lead ≤ stop.control.count }
    requires output_least_in_bounds { output_least ≤ length output.old }
    ensures value { received_of result ≡ received_as (concluded (stop_of stop)) }
    ensures output_after { output.new ≡ put 0 (concluded (stop_of stop)).answer.body output.old }
{
    match stop.end {
        End::OutOfBits => Reception {
            rx: stop.control.with(stop.bytes),
            consumed: stop.used,
            answer: Err(NoBody::NoFrame),
        },
        End::Flag => {
            let bits = stop.control.count - (5 + stop.control.lead);
            Reception {
                rx: at_opening(),
                consumed: stop.used,
                answer: at_flag(&stop.bytes, bits, output),
            }
        }
        End::Abort => Reception {
            rx: Receiver::new(),
            consumed: stop.used,
            answer: Err(NoBody::Dropped(Dropped::Aborted)),
        },
    }
}
