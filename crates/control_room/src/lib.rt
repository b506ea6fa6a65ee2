// The control room's end of the link: requests written from the chip's own tables of commands, replies read, and the record of what is open between.
#![tactic(auto)]

mod record;

ghost use Rattle.std.specs.Prelude.{◌≡◌, ◌≤◌, true, length};
ghost use Rattle.numbers.specs.Numbers.{output_least};
ghost use Rattle.parts.specs.Parts.{put};
ghost use Rattle.control_room.specs.Given.{given_of, number_after};
ghost use Rattle.control_room.specs.Record.{is_record};
ghost use Rattle.control_room.specs.Calls.{made, record_made, outcome, judged, written, request_written};
ghost use Rattle.control_room.specs.Calls.{told, matched, read, reply_read, link_command, command_written};

use commands::request::{INTERRUPT, Request};
use link::LinkCommand;
use numbers::{OUTPUT_LEAST, REPLY_BYTES, Refusal};
use parts::Width;

// The bytes of a request's body, of what is told of a reply, and of a command of the link.
const REQUEST_BYTES: u8 = 10;

const ANSWER_BYTES: u8 = 9;

const COMMAND_BYTES: u8 = 2;

// The channel of interrupts.
const INTERRUPT_CHANNEL: u8 = 0x02;

// The bytes written, and whether what was read is an interrupt.
#[derive(Clone, Copy)]
pub struct Given {
    pub length: u8,
    pub interrupt: bool,
}

// Makes a record new: nothing open, frame number 0.
#[tactic(auto, unfolding(crate::specs::Calls::record_made))]
pub fn new_record(transactions: &mut [u8]) -> Result<(), Refusal>
    ensures { made (number_after result) transactions.new ≡ record_made transactions.old }
{
    let record: &mut [u8; record::BYTES] = transactions.as_mut_array().ok_or(Refusal::BadState)?;
    record.fill(0);
    Ok(())
}

// What refuses every call on a record.
fn judge(record: &[u8; record::BYTES], output: &[u8]) -> Result<(), Refusal>
    ensures { result ≡ judged record.now output.now }
{
    if !record::is_record(record) {
        return Err(Refusal::BadState);
    }
    if output.len() < OUTPUT_LEAST {
        return Err(Refusal::ShortOutput);
    }
    Ok(())
}

// A request with the lowest free TRN, if there is one.
#[tactic(auto, unfolding(crate::specs::Calls::written), using(crate::proofs::Laws::its_frame, commands::proofs::Laws::none_beyond, commands::proofs::Laws::code_at_beyond))]
fn write(
    record: &mut [u8; record::BYTES],
    channel: u32,
    command: u32,
    value: u32,
    output: &mut [u8],
) -> Result<Given, Refusal>
    requires record_value { is_record record.old ≡ true }
    requires output_least_in_bounds { output_least ≤ length output.old }
    ensures { outcome (given_of result) record.new output.new ≡ written record.old channel command value output.old }
{
    let (Ok(ch), Ok(cmd)) = (u8::try_from(channel), u8::try_from(command)) else {
        return Err(Refusal::NoCommand);
    };
    let listed = record::command_at(ch, cmd).ok_or(Refusal::NoCommand)?;
    let trn = record::free_trn(record).ok_or(Refusal::AllOpen)?;
    let control = record::count(record);
    record::open(record, trn, ch, cmd);
    let q = Request {
        trn,
        ch,
        len: listed.lengths.asked,
        cmd,
        value,
    };
    packets::put_request(output, control, q);
    Ok(Given {
        length: REQUEST_BYTES,
        interrupt: false,
    })
}

// Writes the body of a request: a command of a channel, with its data.
#[tactic(auto, unfolding(crate::specs::Calls::request_written), using(crate::proofs::Cases::no_record))]
pub fn request(
    transactions: &mut [u8],
    channel: u32,
    command: u32,
    value: u32,
    output: &mut [u8],
) -> Result<Given, Refusal>
    ensures { outcome (given_of result) transactions.new output.new ≡ request_written transactions.old channel command value output.old }
{
    let record = transactions.as_mut_array().ok_or(Refusal::BadState)?;
    judge(record, output)?;
    write(record, channel, command, value, output)
}

// TRN, CH, the request's CMD, ERR, LEN, then the data, low byte first.
#[tactic(auto, using(parts::proofs::Laws::put_put, parts::proofs::Laws::length_put, parts::proofs::Digits::length_digits, parts::proofs::Digits::set_next))]
fn tell(cmd: u8, body: &[u8; REPLY_BYTES], output: &mut [u8])
    requires { output_least ≤ length output.old }
    ensures { output.new ≡ put 0 (told cmd body.now) output.old }
{
    parts::store_four(output, 0, body[2], body[3], cmd, body[4]);
    output[4] = body[5];
    parts::store_number(output, 5, Width::Word, packets::data_of(body));
}

#[tactic(auto, unfolding(crate::specs::Calls::read, crate::specs::Calls::matched))]
fn read(record: &mut [u8; record::BYTES], body: &[u8], output: &mut [u8]) -> Result<Given, Refusal>
    requires { output_least ≤ length output.old }
    ensures { outcome (given_of result) record.new output.new ≡ read record.old body.now output.old }
{
    let body = body.as_array().ok_or(Refusal::BadReply)?;
    let interrupt = body[2] == INTERRUPT && body[3] == INTERRUPT_CHANNEL;
    let cmd = if interrupt {
        0
    } else {
        record::close(record, body[2], body[3]).ok_or(Refusal::NoMatch)?
    };
    tell(cmd, body, output);
    Ok(Given {
        length: ANSWER_BYTES,
        interrupt,
    })
}

// Kept: request, reply and command begin with the same two lines; with what comes after them as a closure they would be longer.

// Reads the body of a reply or of an interrupt.
#[tactic(auto, unfolding(crate::specs::Calls::reply_read), using(crate::proofs::Cases::no_record))]
pub fn reply(transactions: &mut [u8], body: &[u8], output: &mut [u8]) -> Result<Given, Refusal>
    ensures { outcome (given_of result) transactions.new output.new ≡ reply_read transactions.old body.now output.old }
{
    let record = transactions.as_mut_array().ok_or(Refusal::BadState)?;
    judge(record, output)?;
    read(record, body, output)
}

#[tactic(auto, unfolding(crate::specs::Calls::link_command))]
fn write_command(
    record: &mut [u8; record::BYTES],
    control: u32,
    output: &mut [u8],
) -> Result<Given, Refusal>
    requires { output_least ≤ length output.old }
    ensures { outcome (given_of result) record.new output.new ≡ link_command record.old control output.old }
{
    let code = u8::try_from(control).map_err(|_| Refusal::NoCommand)?;
    match link::command_in(code).ok_or(Refusal::NoCommand)? {
        LinkCommand::Connect | LinkCommand::Reset => record::count_anew(record),
        LinkCommand::Test => {}
    }
    packets::put_control(output, code);
    Ok(Given {
        length: COMMAND_BYTES,
        interrupt: false,
    })
}

// Writes the body of a command of the link.
#[tactic(auto, unfolding(crate::specs::Calls::command_written), using(crate::proofs::Cases::no_record))]
pub fn command(transactions: &mut [u8], control: u32, output: &mut [u8]) -> Result<Given, Refusal>
    ensures { outcome (given_of result) transactions.new output.new ≡ command_written transactions.old control output.old }
{
    let record = transactions.as_mut_array().ok_or(Refusal::BadState)?;
    judge(record, output)?;
    write_command(record, control, output)
}
