// The receiver: frames are read from cable bits (document 01, "The wire").
#![tactic(auto)]

mod ranges;
mod scanning;
mod verdict;

ghost use Rattle.std.specs.Prelude.{◌≡◌, ◌*◌, ◌≤◌, length};
ghost use Rattle.receiver.specs.Receive as receive;
ghost use Rattle.numbers.specs.Answers.{refusal_number};
ghost use Rattle.numbers.specs.Numbers.{input_most, output_least};
ghost use Rattle.parts.specs.Parts.{put};
ghost use Rattle.receiver.specs.Receiver.{image, hunting};
ghost use Rattle.receiver.specs.Received.{no_body_number, received_of};
ghost use Rattle.receiver.specs.Inner.{Good, control_of, barely};
ghost use Rattle.receiver.specs.declared.NoBody.TheVariants as no_body;

use numbers::{Dropped, INPUT_MOST, OUTPUT_LEAST, Refusal, Silence};
use scanning::Control;

// A receiver between two calls; docs/RECEIVER.md has its fields and ranges.
// Kept: mode is a byte, and count stands beside bytes, since C hands over any 24 bytes, and `view` and `in_range` speak of these fields.
#[derive(Clone, Copy)]
pub struct Receiver {
    pub mode: u8,
    pub ones: u8,
    pub lead: u8,
    pub count: u8,
    pub bytes: [u8; 20],
}

// Why a reading gives no body.
#[derive(Clone, Copy, Debug, PartialEq, Eq)]
pub enum NoBody {
    Refused(Refusal),
    Dropped(Dropped),
    // The bits ran out.
    NoFrame,
}

impl From<Refusal> for NoBody {
    ghost from_gives = { λ r e. e ≡ no_body.Refused r };

    fn from(refusal: Refusal) -> NoBody {
        NoBody::Refused(refusal)
    }
}

impl From<Dropped> for NoBody {
    ghost from_gives = { λ d e. e ≡ no_body.Dropped d };

    fn from(why: Dropped) -> NoBody {
        NoBody::Dropped(why)
    }
}

impl From<NoBody> for u8 {
    ghost from_gives = { λ e n. n ≡ no_body_number e };

    fn from(reason: NoBody) -> u8 {
        match reason {
            NoBody::Refused(refusal) => refusal.into(),
            NoBody::Dropped(dropped) => dropped.into(),
            NoBody::NoFrame => Silence::NoFrame.into(),
        }
    }
}

// What a reading gives: the receiver, the bits consumed, and the length of a body.
#[derive(Clone, Copy)]
pub struct Reception {
    pub rx: Receiver,
    pub consumed: usize,
    pub answer: Result<usize, NoBody>,
}

impl Receiver {
    // Hunting for the first flag.
    #[tactic(auto, unfolding(wire::specs::Bits::pack, wire::specs::Bits::octets, wire::specs::Bits::num))]
    pub fn new() -> Self
        ensures { result ≡ image hunting }
    {
        Self {
            mode: 0,
            ones: 7,
            lead: 0,
            count: 0,
            bytes: [0; 20],
        }
    }
}

// A refused call leaves the receiver as it came.
fn refused(rx: Receiver, refusal: Refusal) -> Reception
    ensures { received_of result ≡ barely rx (refusal_number refusal) 0 }
{
    Reception {
        rx,
        consumed: 0,
        answer: Err(refusal.into()),
    }
}

// A reading that nothing refuses.
#[tactic(auto, using(crate::proofs::View::read_from_lem))]
fn read(rx: Receiver, input: &[u8], start: usize, output: &mut [u8]) -> Reception
    requires good { Good (control_of rx) rx.bytes }
    requires input_len_bound { (length input.now ≤ input_most) × (start ≤ 8 * length input.now) × (output_least ≤ length output.old) }
    ensures value { received_of result ≡ receive.received_as (receive.read_from rx input.now start) }
    ensures output_after { output.new ≡ put 0 (receive.read_from rx input.now start).answer.body output.old }
{
    let stop = scanning::scan_from(Control::from(rx), rx.bytes, input, start);
    verdict::conclude(stop, output)
}

// Reads cable bits from a start bit on, up to the first answer.
#[tactic(auto, unfolding(crate::specs::Receive::received, crate::specs::Receive::output_after))]
pub fn receive(rx: Receiver, input: &[u8], start: usize, output: &mut [u8]) -> Reception
    ensures value { received_of result ≡ receive.received rx input.now start output.old }
    ensures output_after { output.new ≡ receive.output_after rx input.now start output.old }
{
    if !ranges::in_range(rx) {
        return refused(rx, Refusal::BadState);
    }
    if INPUT_MOST < input.len() {
        return refused(rx, Refusal::LongInput);
    }
    if 8 * input.len() < start {
        return refused(rx, Refusal::BadStart);
    }
    if output.len() < OUTPUT_LEAST {
        return refused(rx, Refusal::ShortOutput);
    }
    read(rx, input, start, output)
}
