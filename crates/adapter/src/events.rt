// What happens to the chip. First the event's record joins the journal; then the chip is handed the link and the registers where they stand, and
// gives the link back.
ghost use Rattle.std.specs.Prelude.{◌≡◌, true, ◌≤◌, length};
ghost use Rattle.numbers.specs.Numbers.{reply_bytes};
ghost use Rattle.state.specs.State.{adapter};
ghost use Rattle.chip.specs.Event as chip;
ghost use Rattle.chip.specs.Chip.{reaction, accepted_reset};
ghost use Rattle.chip.specs.Group.{group_of};
ghost use Rattle.chip.specs.Inner.{said, says};
ghost use Rattle.journal.specs.Layout.{well_formed};
ghost use Rattle.adapter.specs.Answers.{answer_of};
ghost use Rattle.adapter.specs.Refusals.{wrong_argument, wrong_body};
ghost use Rattle.adapter.specs.Calls.{outcome, recorded, done};
ghost use Rattle.adapter.specs.Inner.{event_of, Fits, room_for};

use crate::NoFrame;
use chip::{Frame, Response, events};
use commands::command::Control;
use link::Link;
use numbers::{BODY_LEAST, BODY_MOST, I2C_MOST, TRANSFER_BYTES};
use registers::SIZE;
use state::{BYTES, LINK};

// The first and the last I2C channel.
const FIRST_MASTER: u32 = 0x03;

const LAST_MASTER: u32 = 0x12;

// What a caller says has happened. Its port, channel or edge kind may be none.
#[derive(Clone, Copy)]
pub(crate) enum Event<'a> {
    Frame {
        port: u32,
        body: &'a [u8],
    },
    Spi {
        received: &'a [u8],
    },
    I2c {
        channel: u32,
        acknowledge: bool,
        low: bool,
        received: &'a [u8],
    },
    Sample {
        levels: u32,
        kind: u32,
    },
    Upset,
}

impl Event<'_> {
    // Port not 0 or 1, edge kind over 2, or a wrong completion.
    pub(crate) fn has_wrong_argument(self) -> bool
        ensures { result ≡ wrong_argument (event_of self.entry) }
    {
        match self {
            Event::Frame { port, .. } => 1 < port,
            Event::Spi { received } => received.len() != TRANSFER_BYTES,
            Event::I2c {
                channel,
                received,
                ..
            } => {
                let named = (FIRST_MASTER <= channel) & (channel <= LAST_MASTER);
                !named | (I2C_MOST < received.len())
            }
            Event::Sample { kind, .. } => 2 < kind,
            Event::Upset => false,
        }
    }

    // Body not 2 to 16 bytes.
    pub(crate) fn has_wrong_body(self) -> bool
        ensures { result ≡ wrong_body (event_of self.entry) }
    {
        match self {
            Event::Frame { body, .. } => (body.len() < BODY_LEAST) | (BODY_MOST < body.len()),
            _ => false,
        }
    }

    // An accepted RESET, which leaves no record.
    fn resets(self) -> bool
        requires { Fits (event_of self) }
        ensures { result ≡ accepted_reset (event_of self.entry) }
    {
        match self {
            Event::Frame { body, .. } => events::is_reset(body),
            _ => false,
        }
    }

    // What it may change besides the core.
    fn group(self) -> Option<Control>
        requires { Fits (event_of self) }
        ensures { result ≡ group_of (event_of self.entry) }
    {
        match self {
            Event::Frame { body, .. } => events::group_of(body),
            Event::I2c { channel, .. } => events::group_of_i2c(channel as u8),
            Event::Spi { .. } | Event::Sample { .. } => Some(Control::B),
            Event::Upset => None,
        }
    }
}

// The chip's answer to an event, on the link and the registers where they stand.
#[inline(always)]
fn react(link: Link, registers: &mut [u8; SIZE], event: Event, output: &mut [u8]) -> Response
    requires fits { Fits (event_of event) }
    requires room { room_for (event_of event) ≤ length output.old }
    ensures { said result registers.new output.new ≡ says (reaction (adapter link registers.old) (event_of event.entry)) output.old }
{
    match event {
        Event::Frame { port, body } => {
            events::on_frame(link, registers, port as u8, body, output)
        }
        Event::Spi { received } => match received.as_array() {
            Some(bytes) => events::on_spi(link, registers, bytes, output),
            None => unreachable!(),
        },
        Event::I2c {
            channel,
            acknowledge,
            low,
            received,
        } => events::on_i2c(
            link,
            registers,
            channel as u8,
            acknowledge,
            low,
            received,
            output,
        ),
        Event::Sample { levels, kind } => {
            events::on_sample(link, registers, levels, kind as u8, output)
        }
        Event::Upset => events::on_upset(link, registers),
    }
}

// The record of an event that happens to a state joins the journal; an accepted RESET empties it.
#[tactic(auto, using(journal::proofs::Ring::size_in), unfolding(journal::specs::Record::before))]
#[inline(always)]
fn record_event(journal: &mut [u8], state: &[u8; BYTES], event: Event)
    requires journal_value { well_formed journal.old ≡ true }
    requires fits { Fits (event_of event) }
    ensures { journal.new ≡ recorded state.now (event_of event.entry) journal.old }
{
    if event.resets() {
        journal::empty(journal);
    } else {
        journal::keep(journal, state, event.group());
    }
}

// An event that nothing refuses: its record, its answer, and the link that the chip gives back.
#[inline(always)]
pub(crate) fn happen(
    state: &mut [u8; BYTES],
    journal: &mut [u8],
    event: Event,
    output: &mut [u8],
) -> Result<Frame, NoFrame>
    requires journal_value { well_formed journal.old ≡ true }
    requires fits { Fits (event_of event) }
    requires room { room_for (event_of event) ≤ length output.old }
    ensures { outcome (answer_of result) state.new journal.new output.new ≡ done state.old journal.old (event_of event.entry) output.old }
{
    record_event(journal, state, event);
    let link = state::link_of(state);
    let (_, registers) = state.split_at_mut(LINK);
    let Some(registers) = registers.as_mut_array() else {
        unreachable!()
    };
    let response = react(link, registers, event, output);
    state::store_link(state, response.link);
    Ok(response.answer?)
}

// A pin sample, in an output with room for an interrupt.
pub fn sample(
    state: &mut [u8; BYTES],
    journal: &mut [u8],
    levels: u32,
    kind: u8,
    output: &mut [u8],
) -> Result<Frame, NoFrame>
    requires journal_value { well_formed journal.old ≡ true }
    requires reply_bytes_in_bounds { reply_bytes ≤ length output.old }
    ensures { outcome (answer_of result) state.new journal.new output.new ≡ done state.old journal.old (chip.Event.sample levels kind) output.old }
{
    let kind = u32::from(kind);
    happen(state, journal, Event::Sample { levels, kind }, output)
}
