// What C and Rust programs link: each call of the library `sca`, under its name in include/sca.h, with the same clauses. A slice is handed over as a
// pointer and a length. Kept: each call stands in sca too, since only an export has C's name and calling convention.
#![tactic(auto)]

ghost use Rattle.std.specs.Prelude.{◌≡◌};
ghost use Rattle.chip.specs.Event.{Completion, Event};
ghost use Rattle.sca.specs.Link as calls;
ghost use Rattle.adapter.specs.Calls as adapters;
ghost use Rattle.batch.specs.Batch as batches;
ghost use Rattle.sca.specs.Adapter.{pack_kept, is_set, left, packed, packed_batch};
ghost use Rattle.control_room.specs.Calls as rooms;
ghost use Rattle.sca.specs.ControlRoom as room;
ghost use Rattle.sca.specs.Version.{version};

use batch::Sample;

// Frames a body.
#[unsafe(no_mangle)]
pub extern "C" fn sca_transmit(body: &[u8], output: &mut [u8]) -> u64
    ensures value { result ≡ calls.transmit_result body.now output.old }
    ensures output_after { output.new ≡ calls.transmit_output body.now output.old }
{
    sca::sca_transmit(body, output)
}

// Makes a receiver new.
#[unsafe(no_mangle)]
pub extern "C" fn sca_receiver_new(rx: &mut [u8]) -> u64
    ensures value { result ≡ calls.new_result rx.old }
    ensures rx_after { rx.new ≡ calls.new_receiver rx.old }
{
    sca::sca_receiver_new(rx)
}

// Reads cable bits from a start bit on, up to the first answer.
#[unsafe(no_mangle)]
pub extern "C" fn sca_receive(rx: &mut [u8], input: &[u8], start: usize, output: &mut [u8]) -> u64
    ensures value { result ≡ calls.receive_result rx.old input.now start output.old }
    ensures rx_after { rx.new ≡ calls.receive_receiver rx.old input.now start output.old }
    ensures output_after { output.new ≡ calls.receive_output rx.old input.now start output.old }
{
    sca::sca_receive(rx, input, start, output)
}

// A new adapter for a chip of this ID.
#[unsafe(no_mangle)]
pub extern "C" fn sca_create(state: &mut [u8], id: u32) -> u64
    ensures { adapters.made result state.new ≡ adapters.created state.old id }
{
    sca::sca_create(state, id)
}

// Makes a journal empty.
#[unsafe(no_mangle)]
pub extern "C" fn sca_empty(journal: &mut [u8]) -> u64
    ensures { adapters.made result journal.new ≡ adapters.made_empty journal.old }
{
    sca::sca_empty(journal)
}

// How many events a journal can take back.
#[unsafe(no_mangle)]
pub extern "C" fn sca_kept(journal: &[u8]) -> u64
    ensures { result ≡ pack_kept (adapters.kept_in journal.now) }
{
    sca::sca_kept(journal)
}

// Makes a second buffer a large journal with the steps of a small one.
#[unsafe(no_mangle)]
pub extern "C" fn sca_enlarge(journal: &[u8], second: &mut [u8]) -> u64
    ensures { adapters.copied result journal.now second.new ≡ adapters.made_large journal.now second.old }
{
    sca::sca_enlarge(journal, second)
}

// A frame body on a port.
#[unsafe(no_mangle)]
pub extern "C" fn sca_frame(
    state: &mut [u8],
    journal: &mut [u8],
    port: u32,
    body: &[u8],
    output: &mut [u8],
) -> u64
    ensures { left result state.new journal.new output.new ≡ packed (adapters.called state.old journal.old (Event.frame port body.now) output.old) }
{
    sca::sca_frame(state, journal, port, body, output)
}

// An SPI completion with 16 received bytes.
#[unsafe(no_mangle)]
pub extern "C" fn sca_completion(
    state: &mut [u8],
    journal: &mut [u8],
    received: &[u8],
    output: &mut [u8],
) -> u64
    ensures { left result state.new journal.new output.new ≡ packed (adapters.called state.old journal.old (Event.completion (Completion.spi received.now)) output.old) }
{
    sca::sca_completion(state, journal, received, output)
}

// The completion of one named I2C channel; a bit is 1 where its number is not 0.
#[unsafe(no_mangle)]
pub extern "C" fn sca_i2c_completion(
    state: &mut [u8],
    journal: &mut [u8],
    channel: u32,
    acknowledge: u32,
    low: u32,
    received: &[u8],
    output: &mut [u8],
) -> u64
    ensures { left result state.new journal.new output.new ≡ packed (adapters.called state.old journal.old (Event.completion (Completion.i2c channel (is_set acknowledge) (is_set low) received.now)) output.old) }
{
    sca::sca_i2c_completion(state, journal, channel, acknowledge, low, received, output)
}

// A pin sample.
#[unsafe(no_mangle)]
pub extern "C" fn sca_sample(
    state: &mut [u8],
    journal: &mut [u8],
    levels: u32,
    kind: u32,
    output: &mut [u8],
) -> u64
    ensures { left result state.new journal.new output.new ≡ packed (adapters.called state.old journal.old (Event.sample levels kind) output.old) }
{
    sca::sca_sample(state, journal, levels, kind, output)
}

// Pin samples by the batch.
#[unsafe(no_mangle)]
pub extern "C" fn sca_samples(
    state: &mut [u8],
    journal: &mut [u8],
    list: &[Sample],
    output: &mut [u8],
) -> u64
    ensures { left result state.new journal.new output.new ≡ packed_batch (batches.called state.old journal.old list.now output.old) }
{
    sca::sca_samples(state, journal, list, output)
}

// An upset.
#[unsafe(no_mangle)]
pub extern "C" fn sca_upset(state: &mut [u8], journal: &mut [u8], output: &mut [u8]) -> u64
    ensures { left result state.new journal.new output.new ≡ packed (adapters.called state.old journal.old Event.upset output.old) }
{
    sca::sca_upset(state, journal, output)
}

// Takes the newest standing event back.
#[unsafe(no_mangle)]
pub extern "C" fn sca_step_back(state: &mut [u8], journal: &mut [u8]) -> u64
    ensures { adapters.stepped result state.new journal.new ≡ adapters.stepped_back state.old journal.old }
{
    sca::sca_step_back(state, journal)
}

// Makes a record of open transactions new.
#[unsafe(no_mangle)]
pub extern "C" fn sca_record_new(transactions: &mut [u8]) -> u64
    ensures { rooms.made result transactions.new ≡ rooms.record_made transactions.old }
{
    sca::sca_record_new(transactions)
}

// Writes the body of a request.
#[unsafe(no_mangle)]
pub extern "C" fn sca_request(
    transactions: &mut [u8],
    channel: u32,
    command: u32,
    value: u32,
    output: &mut [u8],
) -> u64
    ensures { room.left result transactions.new output.new ≡ room.packed (rooms.request_written transactions.old channel command value output.old) }
{
    sca::sca_request(transactions, channel, command, value, output)
}

// Reads the body of a reply or of an interrupt.
#[unsafe(no_mangle)]
pub extern "C" fn sca_reply(transactions: &mut [u8], body: &[u8], output: &mut [u8]) -> u64
    ensures { room.left result transactions.new output.new ≡ room.packed (rooms.reply_read transactions.old body.now output.old) }
{
    sca::sca_reply(transactions, body, output)
}

// Writes the body of a command of the link.
#[unsafe(no_mangle)]
pub extern "C" fn sca_command(transactions: &mut [u8], control: u32, output: &mut [u8]) -> u64
    ensures { room.left result transactions.new output.new ≡ room.packed (rooms.command_written transactions.old control output.old) }
{
    sca::sca_command(transactions, control, output)
}

// The version of these calls: the major number in bits 23 to 16, the minor in bits 15 to 8, the patch in bits 7 to 0.
#[unsafe(no_mangle)]
pub extern "C" fn sca_version() -> u64
    ensures { result ≡ version }
{
    sca::sca_version()
}
