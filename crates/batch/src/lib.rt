// A batch of pin samples: one call refused as a whole, or each sample given to the chip, an event of its own, after the one before it.
#![tactic(auto)]

ghost use Rattle.std.specs.Prelude.{◌≡◌, ◌≤◌, length};
ghost use Rattle.std.specs.Int.Count.{ones};
ghost use Rattle.std.specs.List.{fold};
ghost use Rattle.numbers.specs.Numbers.{reply_bytes};
ghost use Rattle.packets.specs.Packets.{data_of};
ghost use Rattle.batch.specs.Batch.{some_wrong, wrong_list, reported, answer_of, outcome, called};
ghost use Rattle.batch.specs.Inner.{nothing_sent, going, given, Fine, Ready, Given};

use adapter::{NoFrame, events};
use numbers::{BATCH_LEAST, REPLY_BYTES, Refusal, SAMPLES_MOST, Silence};
use state::BYTES;

// What a logic probe saw: the levels of the 32 lines, and the edge kind, a number (kept: the C interface).
#[repr(C)]
#[derive(Clone, Copy)]
pub struct Sample {
    pub levels: u32,
    pub kind: u32,
}

// What a batch has sent: the port of its frames, how many they are, and the sum of the lines that they name.
#[derive(Clone, Copy)]
pub struct Batch {
    pub port: u8,
    pub frames: u16,
    pub sum: u16,
}

// Whether a sample's kind is over 2.
fn has_wrong_kind(list: &[Sample]) -> bool
    ensures { result ≡ some_wrong list.now }
{
    list.iter().any(|s| 2 < s.kind)
}

// A list over 256 samples, or a kind over 2.
fn is_wrong(list: &[Sample]) -> bool
    ensures { result ≡ wrong_list list.now }
{
    SAMPLES_MOST < list.len() || has_wrong_kind(list)
}

// How many lines an interrupt names: the ones in its data, which is INTS.
fn lines_of(body: &[u8]) -> u16
    requires { length body.now ≡ reply_bytes }
    ensures { (result ≡ ones (data_of body.now)) × (result ≤ 32) }
{
    packets::data_of(body).count_ones() as u16
}

// One sample to the chip, an event of its own. The body that it sends stands behind those before.
fn step(
    state: &mut [u8; BYTES],
    journal: &mut [u8],
    output: &mut [u8],
    sent: Batch,
    s: Sample,
) -> Batch
    requires { Ready journal.old output.old sent × (s.kind ≤ 2) }
    ensures { Given state.old journal.old output.old sent s state.new journal.new output.new result }
{
    let first = REPLY_BYTES * usize::from(sent.frames);
    let body = &mut output[first..first + REPLY_BYTES];
    match events::sample(state, journal, s.levels, s.kind as u8, body) {
        Ok(frame) => Batch {
            port: frame.port,
            frames: sent.frames + 1,
            sum: sent.sum + lines_of(body),
        },
        Err(_) => sent,
    }
}

// The samples of a batch that nothing refuses, one by one.
fn give(state: &mut [u8; BYTES], journal: &mut [u8], list: &[Sample], output: &mut [u8]) -> Batch
    requires { Fine journal.old list.now output.old }
    ensures { going state.new journal.new output.new result ≡ fold given (going state.old journal.old output.old nothing_sent) list.now }
{
    let mut sent = Batch {
        port: 0,
        frames: 0,
        sum: 0,
    };
    for s in list {
        sent = step(state, journal, output, sent, *s);
    }
    sent
}

// A batch that sent no frame gives 17.
fn finished(sent: Batch) -> Result<Batch, NoFrame>
    ensures { answer_of result ≡ reported sent.port sent.frames sent.sum }
{
    if sent.frames == 0 {
        return Err(Silence::NoFrame.into());
    }
    Ok(sent)
}

// Pin samples by the batch: refused before anything is done, or given one by one, with the bodies that they send in order in one output.
pub fn samples(
    state: &mut [u8],
    journal: &mut [u8],
    list: &[Sample],
    output: &mut [u8],
) -> Result<Batch, NoFrame>
    ensures { outcome (answer_of result) state.new journal.new output.new ≡ called state.old journal.old list.now output.old }
{
    adapter::judge(state, journal, output.len() < BATCH_LEAST, false, false)?;
    // The list is looked at only where nothing before it refuses the batch.
    if is_wrong(list) {
        return Err(Refusal::BadArgument.into());
    }
    let Some(state) = state.as_mut_array() else {
        unreachable!()
    };
    finished(give(state, journal, list, output))
}
