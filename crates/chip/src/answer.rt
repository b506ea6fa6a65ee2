// An event's answer: the frame that is sent, or why there is none.
ghost use Rattle.std.specs.Prelude.{◌≡◌, ◌≤◌};
ghost use Rattle.numbers.specs.Numbers.{body_most};
ghost use Rattle.chip.specs.Inner.{sent, given};

use crate::{Frame, Response};
use link::Link;
use numbers::Silence;

// An answer with a frame of so many bytes, which stands in the output.
pub(crate) fn send(link: Link, port: u8, length: usize) -> Response
    requires { length ≤ body_most }
    ensures { result ≡ sent link port length }
{
    let frame = Frame {
        port,
        length: length as u8,
    };
    Response {
        link,
        answer: Ok(frame),
    }
}

// An answer without a frame.
pub(crate) fn give(link: Link, why: Silence) -> Response
    ensures { result ≡ given link why }
{
    Response {
        link,
        answer: Err(why),
    }
}
