// The transmitter: a body goes out as a frame (document 01, "The wire").
#![tactic(auto)]

mod framing;
mod stuffing;

ghost use Rattle.std.specs.Prelude.{◌≡◌};
ghost use Rattle.transmitter.specs.Transmit as transmit;

use numbers::{BODY_LEAST, BODY_MOST, CABLE_MOST, Refusal};

// Frames a body: how many bytes were written.
#[tactic(auto, unfolding(crate::specs::Transmit::transmitted, crate::specs::Transmit::output_after))]
pub fn transmit(body: &[u8], output: &mut [u8]) -> Result<usize, Refusal>
    ensures value { transmit.sent_of result ≡ transmit.transmitted body.now output.old }
    ensures output_after { output.new ≡ transmit.output_after body.now output.old }
{
    if body.len() < BODY_LEAST || BODY_MOST < body.len() {
        return Err(Refusal::BadBody);
    }
    if output.len() < CABLE_MOST {
        return Err(Refusal::ShortOutput);
    }
    Ok(framing::write_frame(body, output))
}
