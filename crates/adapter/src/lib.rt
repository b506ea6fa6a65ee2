// The adapter as its users call it, on the bytes that they lend: every refusal in document 01's order, every event kept in the journal, steps
// back.
#![tactic(auto)]

pub mod events;

ghost use Rattle.std.specs.Prelude.{◌≡◌, not};
ghost use Rattle.chip.specs.Event.{Completion, Event};
ghost use Rattle.state.specs.Bytes.{is_state};
ghost use Rattle.journal.specs.Layout.{well_formed};
ghost use Rattle.adapter.specs.declared.NoFrame.TheVariants.{Refused, Silent};
ghost use Rattle.adapter.specs.Answers.{no_frame_number, answer_of, number_after, kept_number, verdict_of};
ghost use Rattle.adapter.specs.Inner.{event_of};
ghost use Rattle.adapter.specs.Refusals.{in_order};
ghost use Rattle.adapter.specs.Calls.{made, created, made_empty, kept_in, copied, made_large, outcome, called, stepped, stepped_back};

use chip::Frame;
use numbers::{ID_MOST, OUTPUT_LEAST, Refusal, Silence};
use state::{BYTES, LINK};

// Why a call sends no frame: it is refused, or what it did sends none.
#[derive(Clone, Copy, Debug, PartialEq, Eq)]
pub enum NoFrame {
    Refused(Refusal),
    Silent(Silence),
}

impl From<Refusal> for NoFrame {
    ghost from_gives = { λ r e. e ≡ Refused r };

    fn from(refusal: Refusal) -> NoFrame {
        NoFrame::Refused(refusal)
    }
}

impl From<Silence> for NoFrame {
    ghost from_gives = { λ s e. e ≡ Silent s };

    fn from(silence: Silence) -> NoFrame {
        NoFrame::Silent(silence)
    }
}

impl From<NoFrame> for u8 {
    ghost from_gives = { λ e n. n ≡ no_frame_number e };

    fn from(why: NoFrame) -> u8 {
        match why {
            NoFrame::Refused(refusal) => refusal.into(),
            NoFrame::Silent(silence) => silence.into(),
        }
    }
}

// A new adapter for a chip of this ID, in a state's bytes.
#[tactic(auto, unfolding(crate::specs::Calls::created))]
pub fn create(state: &mut [u8], id: u32) -> Result<(), Refusal>
    ensures { made (number_after result) state.new ≡ created state.old id }
{
    let state: &mut [u8; BYTES] = state.as_mut_array().ok_or(Refusal::BadState)?;
    if ID_MOST < id {
        return Err(Refusal::BadId);
    }
    let (_, registers) = state.split_at_mut(LINK);
    let Some(registers) = registers.as_mut_array() else {
        unreachable!()
    };
    state::power_on(registers, id);
    state::store_link(state, link::fresh(0));
    Ok(())
}

// Makes a journal empty, whatever it held.
#[tactic(auto, unfolding(crate::specs::Calls::made_empty))]
pub fn empty(journal: &mut [u8]) -> Result<(), Refusal>
    ensures { made (number_after result) journal.new ≡ made_empty journal.old }
{
    if journal::is_wrong_length(journal) {
        return Err(Refusal::BadJournal);
    }
    journal::empty(journal);
    Ok(())
}

// How many events a journal can take back.
#[tactic(auto, using(crate::proofs::Cases::has_kept), unfolding(crate::specs::Calls::kept_in))]
pub fn kept(journal: &[u8]) -> Result<u8, Refusal>
    ensures { kept_number result ≡ kept_in journal.now }
{
    if journal::is_well_formed(journal) {
        return Ok(journal[journal::KEPT]);
    }
    Err(Refusal::BadJournal)
}

// Makes a second buffer a large journal that takes back what this small one does.
#[tactic(auto, using(journal::proofs::Enlarged::small_well, journal::proofs::Enlarged::large_size, journal::proofs::Enlarged::large_room), unfolding(crate::specs::Calls::made_large))]
pub fn enlarge(journal: &[u8], second: &mut [u8]) -> Result<(), Refusal>
    ensures { copied (number_after result) journal.now second.new ≡ made_large journal.now second.old }
{
    if !journal::is_small(journal) {
        return Err(Refusal::BadJournal);
    }
    if second.len() != journal::LARGE {
        return Err(Refusal::ShortOutput);
    }
    journal::enlarge(journal, second);
    Ok(())
}

// The first refusal, in document 01's order, of a call that is handed this state and journal, and of which is known whether its output is too short,
// and whether an argument or the body is wrong.
#[tactic(auto, unfolding(crate::specs::Refusals::in_order))]
pub fn judge(
    state: &[u8],
    journal: &[u8],
    short: bool,
    argument: bool,
    body: bool,
) -> Result<(), Refusal>
    ensures { verdict_of result ≡ in_order (not (is_state state.now)) (not (well_formed journal.now)) short argument body }
{
    if !state::is_state(state) {
        return Err(Refusal::BadState);
    }
    if !journal::is_well_formed(journal) {
        return Err(Refusal::BadJournal);
    }
    if short {
        return Err(Refusal::ShortOutput);
    }
    if argument {
        return Err(Refusal::BadArgument);
    }
    if body {
        return Err(Refusal::BadBody);
    }
    Ok(())
}

// An event happens, unless something refuses it. It is inlined into each call, and so is what it comes to: there the kind of event is known.
#[tactic(auto, using(crate::proofs::Cases::passed), unfolding(crate::specs::Calls::called, crate::specs::Refusals::verdict))]
#[inline(always)]
fn call(
    state: &mut [u8],
    journal: &mut [u8],
    event: events::Event,
    output: &mut [u8],
) -> Result<Frame, NoFrame>
    ensures { outcome (answer_of result) state.new journal.new output.new ≡ called state.old journal.old (event_of event.entry) output.old }
{
    judge(
        state,
        journal,
        output.len() < OUTPUT_LEAST,
        event.has_wrong_argument(),
        event.has_wrong_body(),
    )?;
    let Some(state) = state.as_mut_array() else {
        unreachable!()
    };
    events::happen(state, journal, event, output)
}

// A frame body on a port.
pub fn frame(
    state: &mut [u8],
    journal: &mut [u8],
    port: u32,
    body: &[u8],
    output: &mut [u8],
) -> Result<Frame, NoFrame>
    ensures { outcome (answer_of result) state.new journal.new output.new ≡ called state.old journal.old (Event.frame port body.now) output.old }
{
    call(state, journal, events::Event::Frame { port, body }, output)
}

// An upset.
pub fn upset(state: &mut [u8], journal: &mut [u8], output: &mut [u8]) -> Result<Frame, NoFrame>
    ensures { outcome (answer_of result) state.new journal.new output.new ≡ called state.old journal.old Event.upset output.old }
{
    call(state, journal, events::Event::Upset, output)
}

// An SPI completion.
pub fn completion(
    state: &mut [u8],
    journal: &mut [u8],
    received: &[u8],
    output: &mut [u8],
) -> Result<Frame, NoFrame>
    ensures { outcome (answer_of result) state.new journal.new output.new ≡ called state.old journal.old (Event.completion (Completion.spi received.now)) output.old }
{
    call(state, journal, events::Event::Spi { received }, output)
}

// The completion of one named I2C channel, with an acknowledge bit, a line-low bit and up to 16 bytes.
pub fn i2c_completion(
    state: &mut [u8],
    journal: &mut [u8],
    channel: u32,
    acknowledge: bool,
    low: bool,
    received: &[u8],
    output: &mut [u8],
) -> Result<Frame, NoFrame>
    ensures { outcome (answer_of result) state.new journal.new output.new ≡ called state.old journal.old (Event.completion (Completion.i2c channel acknowledge low received.now)) output.old }
{
    let event = events::Event::I2c {
        channel,
        acknowledge,
        low,
        received,
    };
    call(state, journal, event, output)
}

// A pin sample.
pub fn sample(
    state: &mut [u8],
    journal: &mut [u8],
    levels: u32,
    kind: u32,
    output: &mut [u8],
) -> Result<Frame, NoFrame>
    ensures { outcome (answer_of result) state.new journal.new output.new ≡ called state.old journal.old (Event.sample levels kind) output.old }
{
    call(
        state,
        journal,
        events::Event::Sample { levels, kind },
        output,
    )
}

// Takes the newest standing event back, unless its record is damaged.
#[tactic(auto, using(crate::proofs::Cases::has_kept, state::proofs::Spelling::its_length), unfolding(crate::specs::Calls::stepped_back, crate::specs::Refusals::back_verdict, crate::specs::Refusals::in_order))]
pub fn step_back(state: &mut [u8], journal: &mut [u8]) -> Result<(), Refusal>
    ensures { stepped (number_after result) state.new journal.new ≡ stepped_back state.old journal.old }
{
    judge(state, journal, false, false, false)?;
    if journal[journal::KEPT] == 0 {
        return Err(Refusal::NoneKept);
    }
    let Some(state) = state.as_mut_array() else {
        unreachable!()
    };
    if !journal::restore(journal, state) {
        return Err(Refusal::BadJournal);
    }
    journal::lower(journal);
    Ok(())
}
