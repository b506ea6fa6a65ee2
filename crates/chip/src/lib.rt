// The chip as a machine: what each event makes of its link and of the registers that it is lent, and its frame laid into the output.
#![tactic(auto)]

mod answer;
mod checks;
pub mod events;
mod request;

use link::Link;
use numbers::Silence;

// A frame that stands in the output: the port that it leaves on, and its bytes.
#[derive(Clone, Copy, Debug, PartialEq, Eq)]
pub struct Frame {
    pub port: u8,
    pub length: u8,
}

// What a call gives: the link after it, and the frame in the output, or why there is none.
#[derive(Clone, Copy)]
pub struct Response {
    pub link: Link,
    pub answer: Result<Frame, Silence>,
}
