// A frame body on a port: document 01's checks 1 to 8, in order. Kept: what is asked of body and output, and link and registers one by one, as in
// events::on_frame.
ghost use Rattle.std.specs.Prelude.{◌≡◌, ℕ, ◌≤◌, List, length};
ghost use Rattle.numbers.specs.Numbers.{body_least, body_most, output_least};
ghost use Rattle.state.specs.State.{adapter};
ghost use Rattle.chip.specs.Inner.{said, says};
ghost use Rattle.chip.specs.Frame.{is_reset_frame, reset, acknowledges, commanded, numbered, carried, addressed, on_frame};

use crate::{Response, answer, request};
use commands::command::Register;
use link::{Link, LinkCommand};
use numbers::Silence;
use registers::SIZE;

// Bit 0 of a control that carries no request.
const UNNUMBERED: u8 = 0x01;

// Bytes of a frame's body that has no information: address and control.
const NO_INFORMATION: usize = 2;

// Bytes of a request's information.
const INFORMATION: usize = 8;

// A body that is RESET: the chip's address, RESET's control, no information.
#[tactic(auto, unfolding(crate::specs::Frame::is_reset_frame))]
pub(crate) fn resets(body: &[u8]) -> bool
    requires { body_least ≤ length body.now }
    ensures { result ≡ is_reset_frame body.now }
{
    let here = body[0] == packets::ADDRESS;
    here && link::command_in(body[1]) == Some(LinkCommand::Reset) && body.len() == NO_INFORMATION
}

// A command's acknowledgement, on the same port.
fn acknowledge(link: Link, port: u8, control: u8, output: &mut [u8]) -> Response
    requires { output_least ≤ length output.old }
    ensures { (rs : List ℕ) → said result rs output.new ≡ says (acknowledges (adapter link rs) port control) output.old }
{
    packets::put_control(output, link::acknowledge_control(control));
    answer::send(link, port, NO_INFORMATION)
}

// A command that leaves another link, unless it carries information. The registers stay.
#[tactic(auto, unfolding(crate::specs::Frame::commanded))]
fn command(link: Link, after: Link, port: u8, body: &[u8], output: &mut [u8]) -> Response
    requires body_least_in_bounds { body_least ≤ length body.now }
    requires output_least_in_bounds { output_least ≤ length output.old }
    ensures { (rs : List ℕ) → said result rs output.new ≡ says (commanded (adapter link rs) (adapter after rs) port body.now) output.old }
{
    if body.len() != NO_INFORMATION {
        return answer::give(link, Silence::BadInformation);
    }
    acknowledge(after, port, body[1], output)
}

// RESET, unless it carries information.
#[tactic(auto, unfolding(crate::specs::Frame::commanded))]
fn reset(
    link: Link,
    registers: &mut [u8; SIZE],
    port: u8,
    body: &[u8],
    output: &mut [u8],
) -> Response
    requires body_least_in_bounds { body_least ≤ length body.now }
    requires output_least_in_bounds { output_least ≤ length output.old }
    ensures { said result registers.new output.new ≡ says (let a = adapter link registers.old in commanded a (reset a port) port body.now) output.old }
{
    if body.len() != NO_INFORMATION {
        return answer::give(link, Silence::BadInformation);
    }
    let id = registers::read(registers, Register::ChipId);
    state::power_on(registers, id);
    acknowledge(link::fresh(port), port, body[1], output)
}

// Checks 7 and 8.
#[tactic(auto, unfolding(crate::specs::Frame::numbered))]
fn in_order(
    link: Link,
    registers: &mut [u8; SIZE],
    port: u8,
    control: u8,
    info: &[u8],
    output: &mut [u8],
) -> Response
    requires info_len { length info.now ≡ 8 }
    requires output_least_in_bounds { output_least ≤ length output.old }
    ensures { said result registers.new output.new ≡ says (numbered (adapter link registers.old) port control info.now) output.old }
{
    if link::number_in(control) == link::receive_number(link) {
        request::request(link::receive_up(link), registers, info, output)
    } else {
        packets::put_control(output, link::reject_control(link));
        answer::send(link, port, NO_INFORMATION)
    }
}

// Checks 4 to 8.
#[tactic(auto, unfolding(crate::specs::Frame::carried))]
fn carry(
    link: Link,
    registers: &mut [u8; SIZE],
    port: u8,
    body: &[u8],
    output: &mut [u8],
) -> Response
    requires body_least_in_bounds { (body_least ≤ length body.now) × (length body.now ≤ body_most) }
    requires output_least_in_bounds { output_least ≤ length output.old }
    ensures { said result registers.new output.new ≡ says (carried (adapter link registers.old) port body.now) output.old }
{
    if link::in_loopback(link, port) {
        parts::store(output, 0, body);
        return answer::send(link, port, body.len());
    }
    if port != link.port {
        return answer::give(link, Silence::OtherPort);
    }
    if body.len() != NO_INFORMATION + INFORMATION {
        return answer::give(link, Silence::BadInformation);
    }
    in_order(
        link,
        registers,
        port,
        body[1],
        &body[NO_INFORMATION..],
        output,
    )
}

// Checks 2 to 8.
#[tactic(auto, unfolding(crate::specs::Frame::addressed))]
fn check_control(
    link: Link,
    registers: &mut [u8; SIZE],
    port: u8,
    body: &[u8],
    output: &mut [u8],
) -> Response
    requires body_least_in_bounds { (body_least ≤ length body.now) × (length body.now ≤ body_most) }
    requires output_least_in_bounds { output_least ≤ length output.old }
    ensures { said result registers.new output.new ≡ says (addressed (adapter link registers.old) port body.now) output.old }
{
    match link::command_in(body[1]) {
        Some(LinkCommand::Connect) => command(link, link::fresh(port), port, body, output),
        Some(LinkCommand::Reset) => reset(link, registers, port, body, output),
        Some(LinkCommand::Test) => command(link, link::loop_back(link, port), port, body, output),
        None if body[1] & UNNUMBERED != 0 => answer::give(link, Silence::OtherControl),
        None => carry(link, registers, port, body, output),
    }
}

// Checks 1 to 8.
#[tactic(auto, unfolding(crate::specs::Frame::on_frame))]
pub(crate) fn check(
    link: Link,
    registers: &mut [u8; SIZE],
    port: u8,
    body: &[u8],
    output: &mut [u8],
) -> Response
    requires body_least_in_bounds { (body_least ≤ length body.now) × (length body.now ≤ body_most) }
    requires output_least_in_bounds { output_least ≤ length output.old }
    ensures { said result registers.new output.new ≡ says (on_frame (adapter link registers.old) port body.now) output.old }
{
    if body[0] != packets::ADDRESS {
        return answer::give(link, Silence::OtherAddress);
    }
    check_control(link, registers, port, body, output)
}
