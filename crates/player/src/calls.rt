// What a line does: the call of the adapter that its form and its fields say.
ghost use Rattle.std.specs.Prelude.{◌≡◌, ◌≤◌, length};
ghost use Rattle.adapter.specs.Answers.{answer_of};
ghost use Rattle.adapter.specs.Calls.{outcome, called};
ghost use Rattle.listing.specs.Line.{frame_of, completion_of, sample_of, i2c_of, read};
ghost use Rattle.player.specs.Play.{heard};

use adapter::NoFrame;
use chip::Frame;
use listing::{Form, characters, line};
use numbers::{Refusal, Silence};

// A line that is a frame.
fn hear_frame(
    state: &mut [u8],
    journal: &mut [u8],
    l: &[u8],
    reply: &mut [u8],
) -> Result<Frame, NoFrame>
    requires in_bounds { 6 ≤ length l.now }
    requires l_len_bound { length l.now ≤ 80 }
    ensures { outcome (answer_of result) state.new journal.new reply.new ≡ called state.old journal.old (frame_of l.now) reply.old }
{
    let mut room = [0u8; 38];
    let hex = &l[4..];
    let body = &mut room[..hex.len() / 2];
    characters::load_pairs(hex, body);
    let port = characters::hex_value(l[2]);
    adapter::frame(state, journal, u32::from(port), body, reply)
}

// A line that is a completion.
fn hear_completion(
    state: &mut [u8],
    journal: &mut [u8],
    l: &[u8],
    reply: &mut [u8],
) -> Result<Frame, NoFrame>
    requires { length l.now ≡ 34 }
    ensures { outcome (answer_of result) state.new journal.new reply.new ≡ called state.old journal.old (completion_of l.now) reply.old }
{
    let mut received = [0u8; 16];
    characters::load_pairs(&l[2..], &mut received);
    adapter::completion(state, journal, &received, reply)
}

// A line that is a sample.
fn hear_sample(
    state: &mut [u8],
    journal: &mut [u8],
    l: &[u8],
    reply: &mut [u8],
) -> Result<Frame, NoFrame>
    requires { length l.now ≡ 12 }
    ensures { outcome (answer_of result) state.new journal.new reply.new ≡ called state.old journal.old (sample_of l.now) reply.old }
{
    let levels = line::levels(l);
    let kind = characters::hex_value(l[11]);
    adapter::sample(state, journal, levels, u32::from(kind), reply)
}

// A line that is the completion of an I2C channel; one without bytes has no place 9.
fn hear_i2c(
    state: &mut [u8],
    journal: &mut [u8],
    l: &[u8],
    reply: &mut [u8],
) -> Result<Frame, NoFrame>
    requires in_bounds { 8 ≤ length l.now }
    requires l_len_bound { length l.now ≤ 80 }
    ensures { outcome (answer_of result) state.new journal.new reply.new ≡ called state.old journal.old (i2c_of l.now) reply.old }
{
    let mut room = [0u8; 35];
    let hex = &l[l.len().min(9)..];
    let received = &mut room[..hex.len() / 2];
    characters::load_pairs(hex, received);
    let channel = u32::from(line::i2c_channel(l));
    let acknowledge = line::i2c_acknowledge(l);
    let low = line::i2c_line_low(l);
    adapter::i2c_completion(state, journal, channel, acknowledge, low, received, reply)
}

// What a line does; a frame's answer is written into reply.
#[tactic(auto, using(listing::proofs::Reading::frame_length, listing::proofs::Reading::completion_length, listing::proofs::Reading::sample_length, listing::proofs::Reading::i2c_length), unfolding(listing::specs::Line::read))]
pub fn hear(
    state: &mut [u8],
    journal: &mut [u8],
    l: &[u8],
    reply: &mut [u8],
) -> Result<Frame, NoFrame>
    ensures { outcome (answer_of result) state.new journal.new reply.new ≡ heard state.old journal.old (read l.now) reply.old }
{
    match line::form_of(l).ok_or(Refusal::Unreadable)? {
        Form::Frame => hear_frame(state, journal, l, reply),
        Form::Completion => hear_completion(state, journal, l, reply),
        Form::Sample => hear_sample(state, journal, l, reply),
        Form::I2c => hear_i2c(state, journal, l, reply),
        Form::Upset => adapter::upset(state, journal, reply),
        Form::Back => {
            adapter::step_back(state, journal)?;
            Err(NoFrame::Silent(Silence::NoFrame))
        }
    }
}
