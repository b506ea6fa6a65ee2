// The events, each as one step of the chip.
ghost use Rattle.std.specs.Prelude.{◌≡◌, ℕ, ◌-◌, ◌≤◌, List, length};
ghost use Rattle.numbers.specs.Numbers.{body_least, body_most, reply_bytes, output_least};
ghost use Rattle.commands.specs.Channels.{first_master};
ghost use Rattle.channels.specs.Rows.{master_group};
ghost use Rattle.state.specs.State.{adapter};
ghost use Rattle.chip.specs.Event.{Completion, Event};
ghost use Rattle.chip.specs.Inner.{said, says};
ghost use Rattle.chip.specs.Chip.{transferred, transaction_of, started_by, given_by, transacted, reaction, accepted_reset};
ghost use Rattle.chip.specs.Group.{group_of};

use crate::{Response, answer, checks, request};
use channels::{groups, rows};
use commands::channel;
use commands::channel::Channel;
use commands::command::{Command, Control, Does, Register, Transaction};
use commands::request::{INTERRUPT, granted};
use commands::spi::GO;
use link::Link;
use numbers::{Silence, TRANSFER_BYTES};
use registers::{SIZE, gpio, i2c, spi};

// The channels of a GO's reply and of an interrupt; an interrupt's LEN.
const SPI_CHANNEL: u8 = 0x01;

const GPIO_CHANNEL: u8 = 0x02;

const INTERRUPT_LENGTH: u8 = 4;

// The channel of master 0.
const FIRST_MASTER: u8 = 0x03;

// The bytes of a body that carries a request.
const REQUEST_BODY: usize = 10;

// Kept: a body has 2 to 16 bytes and an output 16 or more, for a sample 10 or more, which no array type says. In a struct with them, or with the link and
// the lent registers, each contract would also need a clause that the buffer is the same one, as listing::answer::Text shows.

// A frame body on a port.
#[tactic(auto, unfolding(crate::specs::Chip::reaction))]
pub fn on_frame(
    link: Link,
    registers: &mut [u8; SIZE],
    port: u8,
    body: &[u8],
    output: &mut [u8],
) -> Response
    requires body_least_in_bounds { (body_least ≤ length body.now) × (length body.now ≤ body_most) }
    requires output_least_in_bounds { output_least ≤ length output.old }
    ensures { said result registers.new output.new ≡ says (reaction (adapter link registers.old) (Event.frame port body.now)) output.old }
{
    checks::check(link, registers, port, body, output)
}

// Whether a frame body is a RESET that every state accepts.
pub fn is_reset(body: &[u8]) -> bool
    requires { body_least ≤ length body.now }
    ensures { result ≡ accepted_reset (Event.frame 0 body.now) }
{
    checks::resets(body)
}

// What a frame body may change besides the core.
#[tactic(auto, unfolding(crate::specs::Group::group_of_frame))]
pub fn group_of(body: &[u8]) -> Option<Control>
    requires { body_least ≤ length body.now }
    ensures { result ≡ group_of (Event.frame 0 body.now) }
{
    if body.len() == REQUEST_BODY {
        return groups::group_for(packets::request_of(&body[2..REQUEST_BODY]));
    }
    None
}

// The GO's reply, with its own TRN.
#[tactic(auto, unfolding(crate::specs::Chip::transferred))]
fn transfer(
    link: Link,
    registers: &mut [u8; SIZE],
    received: &[u8; TRANSFER_BYTES],
    output: &mut [u8],
) -> Response
    requires { output_least ≤ length output.old }
    ensures { said result registers.new output.new ≡ says (transferred (adapter link registers.old) received.now) output.old }
{
    let [go, _, _, _] = registers::read(registers, Register::SpiGo).to_le_bytes();
    let value = spi::complete(registers, received);
    request::reply(link, go, SPI_CHANNEL, granted(GO.given, value), output)
}

// An SPI completion with 16 received bytes.
#[tactic(auto, unfolding(crate::specs::Chip::reaction, crate::specs::Chip::on_spi))]
pub fn on_spi(
    link: Link,
    registers: &mut [u8; SIZE],
    received: &[u8; TRANSFER_BYTES],
    output: &mut [u8],
) -> Response
    requires { output_least ≤ length output.old }
    ensures { said result registers.new output.new ≡ says (reaction (adapter link registers.old) (Event.completion (Completion.spi received.now))) output.old }
{
    if !rows::is_busy(registers, Channel::Spi) {
        return answer::give(link, Silence::NotBusy);
    }
    transfer(link, registers, received, output)
}

// What a start that was kept did on the bus. In a state in range there is no other command.
fn transaction_of(does: Does) -> Transaction
    ensures { result ≡ transaction_of does }
{
    if let Does::Transact(_, transaction) = does {
        transaction
    } else {
        Transaction::Modify
    }
}

fn started_by(command: Option<Command>) -> Transaction
    ensures { result ≡ started_by command }
{
    command.map_or(Transaction::Modify, |known| transaction_of(known.does))
}

// The LEN of its reply.
fn given_by(command: Option<Command>) -> u8
    ensures { result ≡ given_by command }
{
    command.map_or(0, |known| known.lengths.given)
}

// The start's reply, with its own TRN.
fn transact(
    link: Link,
    registers: &mut [u8; SIZE],
    channel: u8,
    acknowledge: bool,
    low: bool,
    received: &[u8],
    output: &mut [u8],
) -> Response
    requires first_master_le_channel { first_master ≤ channel }
    requires output_least_in_bounds { output_least ≤ length output.old }
    ensures { said result registers.new output.new ≡ says (transacted (adapter link registers.old) channel acknowledge low received.now) output.old }
{
    let index = channel - FIRST_MASTER;
    let open = registers::read(registers, Register::I2cOpen(index));
    let [trn, code, _, _] = open.to_le_bytes();
    let command = channel::command_of(Some(Channel::Master(index)), code);
    let value = i2c::end(
        registers,
        index,
        started_by(command),
        acknowledge,
        low,
        received,
    );
    request::reply(
        link,
        trn,
        channel,
        granted(given_by(command), value),
        output,
    )
}

// The completion of one named I2C channel.
// Kept: adapter's Event::I2c has channel, acknowledge, low and received with a channel that may be none; another struct of them would be taken apart
// by i2c::end at once.
#[tactic(auto, unfolding(crate::specs::Chip::reaction, crate::specs::Chip::on_i2c))]
pub fn on_i2c(
    link: Link,
    registers: &mut [u8; SIZE],
    channel: u8,
    acknowledge: bool,
    low: bool,
    received: &[u8],
    output: &mut [u8],
) -> Response
    requires first_master_le_channel { first_master ≤ channel }
    requires output_least_in_bounds { output_least ≤ length output.old }
    ensures { said result registers.new output.new ≡ says (reaction (adapter link registers.old) (Event.completion (Completion.i2c channel acknowledge low received.now))) output.old }
{
    if !rows::is_busy(registers, Channel::Master(channel - FIRST_MASTER)) {
        return answer::give(link, Silence::NotBusy);
    }
    transact(link, registers, channel, acknowledge, low, received, output)
}

// What it may change besides the core.
pub fn group_of_i2c(channel: u8) -> Option<Control>
    requires { first_master ≤ channel }
    ensures { result ≡ master_group (channel - first_master) }
{
    channels::master_group(channel - FIRST_MASTER)
}

// A pin sample with 32 levels and an edge kind.
#[tactic(auto, unfolding(crate::specs::Chip::reaction, crate::specs::Chip::on_sample))]
pub fn on_sample(
    link: Link,
    registers: &mut [u8; SIZE],
    levels: u32,
    kind: u8,
    output: &mut [u8],
) -> Response
    requires { reply_bytes ≤ length output.old }
    ensures { said result registers.new output.new ≡ says (reaction (adapter link registers.old) (Event.sample levels kind)) output.old }
{
    if !rows::is_enabled(registers, Channel::Gpio) {
        return answer::give(link, Silence::LinesDisabled);
    }
    if !gpio::sample(registers, levels, kind) {
        return answer::give(link, Silence::NoFrame);
    }
    let ints = registers::read(registers, Register::Ints);
    let told = granted(INTERRUPT_LENGTH, ints);
    request::reply(link, INTERRUPT, GPIO_CHANNEL, told, output)
}

// An upset: a 32-bit counter that wraps to 0. No frame is ever sent.
#[tactic(auto, unfolding(crate::specs::Chip::reaction, crate::specs::Chip::on_upset))]
pub fn on_upset(link: Link, registers: &mut [u8; SIZE]) -> Response
    ensures { (output : List ℕ) → said result registers.new output ≡ says (reaction (adapter link registers.old) Event.upset) output }
{
    let count = registers::read(registers, Register::Seu).wrapping_add(1);
    registers::store(registers, Register::Seu, count);
    answer::give(link, Silence::NoFrame)
}
