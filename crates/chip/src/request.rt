// A request answered, and its reply.
ghost use Rattle.std.specs.Prelude.{◌≡◌, ℕ, ◌≤◌, List, length};
ghost use Rattle.numbers.specs.Numbers.{output_least, reply_bytes};
ghost use Rattle.state.specs.State.{adapter};
ghost use Rattle.chip.specs.Inner.{said, says};
ghost use Rattle.chip.specs.Request.{replies, finished, requested};

use crate::{Response, answer};
use commands::request::Reply;
use link::Link;
use numbers::Silence;
use registers::SIZE;

// A reply or an interrupt, on the active port; the send number then goes up. It is the same whatever the registers are.
#[tactic(auto, unfolding(crate::specs::Request::replies))]
pub(crate) fn reply(link: Link, trn: u8, ch: u8, told: Reply, output: &mut [u8]) -> Response
    requires { reply_bytes ≤ length output.old }
    ensures { (rs : List ℕ) → said result rs output.new ≡ says (replies (adapter link rs) trn ch told.error told.length told.value) output.old }
{
    let control = link::reply_control(link);
    packets::put_reply(
        output,
        control,
        trn,
        ch,
        told.error,
        told.length,
        told.value,
    );
    answer::send(link::send_up(link), link.port, numbers::REPLY_BYTES)
}

// A reply that is sent, or none yet.
fn finish(link: Link, trn: u8, ch: u8, told: Option<Reply>, output: &mut [u8]) -> Response
    requires { output_least ≤ length output.old }
    ensures { (rs : List ℕ) → said result rs output.new ≡ says (finished (adapter link rs) trn ch told) output.old }
{
    match told {
        Some(told) => reply(link, trn, ch, told, output),
        None => answer::give(link, Silence::NoFrame),
    }
}

#[tactic(auto, unfolding(crate::specs::Request::requested))]
pub(crate) fn request(
    link: Link,
    registers: &mut [u8; SIZE],
    info: &[u8],
    output: &mut [u8],
) -> Response
    requires info_len { length info.now ≡ 8 }
    requires output_least_in_bounds { output_least ≤ length output.old }
    ensures { said result registers.new output.new ≡ says (requested (adapter link registers.old) info.now) output.old }
{
    let q = packets::request_of(info);
    let told = channels::answer(registers, q);
    finish(link, q.trn, q.ch, told, output)
}
