// What C and Rust programs link, as the archive of crate `sca_c`: every call on numbers, byte slices and, for a batch, a slice of sample structs, its
// result packed into one number.
#![tactic(auto)]

mod receiving;

ghost use Rattle.std.specs.Prelude.{◌≡◌, ◌+◌, ◌*◌, ◌^◌, ◌≤◌, ◌<◌};
ghost use Rattle.chip.specs.Event.{Completion, Event};
ghost use Rattle.transmitter.specs.Transmit.{sent_of};
ghost use Rattle.receiver.specs.Received.{received_of};
ghost use Rattle.sca.specs.Link as calls;
ghost use Rattle.adapter.specs.Answers.{answer_of, kept_number, number_after};
ghost use Rattle.adapter.specs.Calls as adapters;
ghost use Rattle.batch.specs.Batch as batches;
ghost use Rattle.sca.specs.Adapter.{pack_answer, pack_kept, pack_batch, is_set, left, packed, packed_batch};
ghost use Rattle.control_room.specs.Given.{given_of};
ghost use Rattle.control_room.specs.Calls as rooms;
ghost use Rattle.sca.specs.ControlRoom as room;
ghost use Rattle.sca.specs.Version.{version};

use adapter::NoFrame;
use batch::{Batch, Sample};
use chip::Frame;
use control_room::Given;
use numbers::{HAS_FRAME, REPLY_BYTES, Refusal, Silence};
use receiver::{Receiver, Reception};

const VERSION: u64 = 0x010500;

// Kept: functions and no From, since neither a Result nor u64 is of this crate.
// What every result has: document 01's number in bits 7 to 0, a length in bits 15 to 8, and what else there is above.
fn pack(number: u8, length: u8, above: u64) -> u64
    requires { above < 2 ^ 48 }
    ensures { result ≡ number + 256 * length + 65536 * above }
{
    u64::from(number) + (u64::from(length) << 8) + (above << 16)
}

// A number alone.
fn alone(number: u8) -> u64
    ensures { result ≡ number }
{
    u64::from(number)
}

// 17 where it is done, or the refusal's number.
fn pack_done(answer: Result<(), Refusal>) -> u64
    ensures { result ≡ number_after answer }
{
    match answer {
        Ok(()) => alone(Silence::NoFrame.into()),
        Err(refusal) => alone(refusal.into()),
    }
}

// The count of bytes written from bit 8 on.
fn pack_sent(answer: Result<usize, Refusal>) -> u64
    requires { (sent_of answer).count ≤ 38 }
    ensures { result ≡ calls.pack_sent (sent_of answer) }
{
    match answer {
        Ok(count) => pack(HAS_FRAME, count as u8, 0),
        Err(refusal) => alone(refusal.into()),
    }
}

// The body's length in bits 15 to 8, the bits consumed above.
fn pack_received(r: Reception) -> u64
    requires { ((received_of r).length ≤ 16) × (r.consumed ≤ 524288) }
    ensures { result ≡ calls.pack_received (received_of r) }
{
    let consumed = r.consumed as u64;
    match r.answer {
        Ok(length) => pack(HAS_FRAME, length as u8, consumed),
        Err(why) => pack(why.into(), 0, consumed),
    }
}

// Frames a body.
#[tactic(auto, using(transmitter::proofs::Bounds::sent_small))]
pub fn sca_transmit(body: &[u8], output: &mut [u8]) -> u64
    ensures value { result ≡ calls.transmit_result body.now output.old }
    ensures output_after { output.new ≡ calls.transmit_output body.now output.old }
{
    pack_sent(transmitter::transmit(body, output))
}

// Makes a receiver new.
pub fn sca_receiver_new(rx: &mut [u8]) -> u64
    ensures value { result ≡ calls.new_result rx.old }
    ensures rx_after { rx.new ≡ calls.new_receiver rx.old }
{
    let Some(bytes) = rx.as_mut_array() else {
        return pack_done(Err(Refusal::BadState));
    };
    *bytes = receiving::bytes_of(Receiver::new());
    pack_done(Ok(()))
}

// Reads cable bits from a start bit on, up to the first answer.
#[tactic(auto, using(receiver::proofs::Bounds::received_small))]
pub fn sca_receive(rx: &mut [u8], input: &[u8], start: usize, output: &mut [u8]) -> u64
    ensures value { result ≡ calls.receive_result rx.old input.now start output.old }
    ensures rx_after { rx.new ≡ calls.receive_receiver rx.old input.now start output.old }
    ensures output_after { output.new ≡ calls.receive_output rx.old input.now start output.old }
{
    let Some(bytes) = rx.as_mut_array() else {
        return pack_done(Err(Refusal::BadState));
    };
    let got = receiver::receive(receiving::spelled_by(bytes), input, start, output);
    *bytes = receiving::bytes_of(got.rx);
    pack_received(got)
}

// The frame's length in bits 15 to 8, its port in bits 23 to 16.
fn pack_answer(answer: Result<Frame, NoFrame>) -> u64
    ensures { result ≡ pack_answer (answer_of answer) }
{
    match answer {
        Ok(frame) => pack(HAS_FRAME, frame.length, frame.port.into()),
        Err(why) => alone(why.into()),
    }
}

// The kept number in bits 15 to 8.
fn pack_kept(answer: Result<u8, Refusal>) -> u64
    ensures { result ≡ pack_kept (kept_number answer) }
{
    match answer {
        Ok(kept) => pack(Silence::NoFrame.into(), kept, 0),
        Err(refusal) => alone(refusal.into()),
    }
}

// The length of each frame in bits 15 to 8, their port in bits 23 to 16, how many they are in bits 39 to 24, the sum above.
fn pack_batch(answer: Result<Batch, NoFrame>) -> u64
    ensures { result ≡ pack_batch (batches.answer_of answer) }
{
    match answer {
        Ok(sent) => pack(
            HAS_FRAME,
            REPLY_BYTES as u8,
            u64::from(sent.port) + (u64::from(sent.frames) << 8) + (u64::from(sent.sum) << 24),
        ),
        Err(why) => alone(why.into()),
    }
}

// A new adapter for a chip of this ID.
pub fn sca_create(state: &mut [u8], id: u32) -> u64
    ensures { adapters.made result state.new ≡ adapters.created state.old id }
{
    pack_done(adapter::create(state, id))
}

// Makes a journal empty.
pub fn sca_empty(journal: &mut [u8]) -> u64
    ensures { adapters.made result journal.new ≡ adapters.made_empty journal.old }
{
    pack_done(adapter::empty(journal))
}

// How many events a journal can take back.
pub fn sca_kept(journal: &[u8]) -> u64
    ensures { result ≡ pack_kept (adapters.kept_in journal.now) }
{
    pack_kept(adapter::kept(journal))
}

// Makes a second buffer a large journal with the steps of a small one.
pub fn sca_enlarge(journal: &[u8], second: &mut [u8]) -> u64
    ensures { adapters.copied result journal.now second.new ≡ adapters.made_large journal.now second.old }
{
    pack_done(adapter::enlarge(journal, second))
}

// Kept: a call for each export, one line each, since the C interface wants them.
// A frame body on a port.
pub fn sca_frame(
    state: &mut [u8],
    journal: &mut [u8],
    port: u32,
    body: &[u8],
    output: &mut [u8],
) -> u64
    ensures { left result state.new journal.new output.new ≡ packed (adapters.called state.old journal.old (Event.frame port body.now) output.old) }
{
    pack_answer(adapter::frame(state, journal, port, body, output))
}

// An SPI completion with 16 received bytes.
pub fn sca_completion(
    state: &mut [u8],
    journal: &mut [u8],
    received: &[u8],
    output: &mut [u8],
) -> u64
    ensures { left result state.new journal.new output.new ≡ packed (adapters.called state.old journal.old (Event.completion (Completion.spi received.now)) output.old) }
{
    pack_answer(adapter::completion(state, journal, received, output))
}

// The completion of one named I2C channel; a bit is 1 where its number is not 0.
pub fn sca_i2c_completion(
    state: &mut [u8],
    journal: &mut [u8],
    channel: u32,
    acknowledge: u32,
    low: u32,
    received: &[u8],
    output: &mut [u8],
) -> u64
    ensures { left result state.new journal.new output.new ≡ packed (adapters.called state.old journal.old (Event.completion (Completion.i2c channel (is_set acknowledge) (is_set low) received.now)) output.old) }
{
    pack_answer(adapter::i2c_completion(
        state,
        journal,
        channel,
        acknowledge != 0,
        low != 0,
        received,
        output,
    ))
}

// A pin sample.
pub fn sca_sample(
    state: &mut [u8],
    journal: &mut [u8],
    levels: u32,
    kind: u32,
    output: &mut [u8],
) -> u64
    ensures { left result state.new journal.new output.new ≡ packed (adapters.called state.old journal.old (Event.sample levels kind) output.old) }
{
    pack_answer(adapter::sample(state, journal, levels, kind, output))
}

// Pin samples by the batch.
pub fn sca_samples(state: &mut [u8], journal: &mut [u8], list: &[Sample], output: &mut [u8]) -> u64
    ensures { left result state.new journal.new output.new ≡ packed_batch (batches.called state.old journal.old list.now output.old) }
{
    pack_batch(batch::samples(state, journal, list, output))
}

// An upset.
pub fn sca_upset(state: &mut [u8], journal: &mut [u8], output: &mut [u8]) -> u64
    ensures { left result state.new journal.new output.new ≡ packed (adapters.called state.old journal.old Event.upset output.old) }
{
    pack_answer(adapter::upset(state, journal, output))
}

// Takes the newest standing event back.
pub fn sca_step_back(state: &mut [u8], journal: &mut [u8]) -> u64
    ensures { adapters.stepped result state.new journal.new ≡ adapters.stepped_back state.old journal.old }
{
    pack_done(adapter::step_back(state, journal))
}

// The bytes written in bits 15 to 8, 1 in bit 16 where an interrupt was read.
fn pack_given(answer: Result<Given, Refusal>) -> u64
    ensures { result ≡ room.pack_given (given_of answer) }
{
    match answer {
        Ok(given) => pack(HAS_FRAME, given.length, given.interrupt.into()),
        Err(refusal) => alone(refusal.into()),
    }
}

// Makes a record of open transactions new.
pub fn sca_record_new(transactions: &mut [u8]) -> u64
    ensures { rooms.made result transactions.new ≡ rooms.record_made transactions.old }
{
    pack_done(control_room::new_record(transactions))
}

// Writes the body of a request.
pub fn sca_request(
    transactions: &mut [u8],
    channel: u32,
    command: u32,
    value: u32,
    output: &mut [u8],
) -> u64
    ensures { room.left result transactions.new output.new ≡ room.packed (rooms.request_written transactions.old channel command value output.old) }
{
    pack_given(control_room::request(transactions, channel, command, value, output))
}

// Reads the body of a reply or of an interrupt.
pub fn sca_reply(transactions: &mut [u8], body: &[u8], output: &mut [u8]) -> u64
    ensures { room.left result transactions.new output.new ≡ room.packed (rooms.reply_read transactions.old body.now output.old) }
{
    pack_given(control_room::reply(transactions, body, output))
}

// Writes the body of a command of the link.
pub fn sca_command(transactions: &mut [u8], control: u32, output: &mut [u8]) -> u64
    ensures { room.left result transactions.new output.new ≡ room.packed (rooms.command_written transactions.old control output.old) }
{
    pack_given(control_room::command(transactions, control, output))
}

// The version of these calls: the major number in bits 23 to 16, the minor in bits 15 to 8, the patch in bits 7 to 0.
pub fn sca_version() -> u64
    ensures { result ≡ version }
{
    VERSION
}
