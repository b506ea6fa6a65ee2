// The link alone: its numbers, its control field, its active port and what belongs to each port.
#![tactic(auto)]

ghost use Rattle.std.specs.Prelude.{◌+◌, ◌%◌, ◌≡◌, MatchOption};
ghost use Rattle.link.specs.Link.{send_up, receive_up, receive_number, number_in, packed, reply_control, reject_control, acknowledge_control};
ghost use Rattle.link.specs.Link.{command_in, NoCommand, Names, fresh_link, looped_at, in_loopback};

// Two types, so that a reply's control cannot take one number for the other.
#[derive(Clone, Copy)]
pub struct SendNumber(pub u8);

#[derive(Clone, Copy)]
pub struct ReceiveNumber(pub u8);

// What belongs to one port.
#[derive(Clone, Copy)]
pub struct Port {
    pub loopback: bool,
}

// The two numbers, the active port, and the two ports.
// Kept: a port is its number, since in_loopback and loop_back promise an answer for every number, and in_range refuses a state's port over 1.
#[derive(Clone, Copy)]
pub struct Link {
    pub send: SendNumber,
    pub receive: ReceiveNumber,
    pub port: u8,
    pub primary: Port,
    pub auxiliary: Port,
}

// The commands that a control field can carry.
#[derive(Clone, Copy, Debug, PartialEq, Eq)]
pub enum LinkCommand {
    Connect,
    Reset,
    Test,
}

// The numbers count modulo 8, in three bits.
const NUMBERS: u8 = 8;

const NUMBER_MASK: u8 = 7;

// They stand from bit 1 and from bit 5 of a control field.
const SEND_SHIFT: u8 = 1;

const RECEIVE_SHIFT: u8 = 5;

// SREJ with receive number 0.
const REJECT: u8 = 0x0D;

// An acknowledgement, and the one of a command with bit 4 set.
const ACKNOWLEDGE: u8 = 0x63;

const ACKNOWLEDGE_FINAL: u8 = 0x73;

const POLL: u8 = 0x10;

// Each command without and with its bit 4.
const CONNECT: u8 = 0x2F;

const CONNECT_POLL: u8 = 0x3F;

const RESET: u8 = 0x8F;

const RESET_POLL: u8 = 0x9F;

const TEST: u8 = 0xE3;

const TEST_POLL: u8 = 0xF3;

// A number's next one.
fn next(number: u8) -> u8
    ensures { result ≡ (number % 8 + 1) % 8 }
{
    (number % NUMBERS + 1) % NUMBERS
}

// Kept: two functions, since document 01 wants the numbers as two types that cannot be taken for one another.
pub fn send_up(l: Link) -> Link
    ensures { result ≡ send_up l }
{
    Link {
        send: SendNumber(next(l.send.0)),
        ..l
    }
}

pub fn receive_up(l: Link) -> Link
    ensures { result ≡ receive_up l }
{
    Link {
        receive: ReceiveNumber(next(l.receive.0)),
        ..l
    }
}

pub fn receive_number(l: Link) -> u8
    ensures { result ≡ receive_number l }
{
    l.receive.0 % NUMBERS
}

// Bits 3 to 1 of an incoming control.
pub fn number_in(control: u8) -> u8
    ensures { result ≡ number_in control }
{
    (control >> SEND_SHIFT) & NUMBER_MASK
}

// The control field of a reply or an interrupt.
fn control_of(send: SendNumber, receive: ReceiveNumber) -> u8
    ensures { result ≡ packed (send.0 % 8) (receive.0 % 8) }
{
    ((send.0 & NUMBER_MASK) << SEND_SHIFT) | ((receive.0 & NUMBER_MASK) << RECEIVE_SHIFT)
}

pub fn reply_control(l: Link) -> u8
    ensures { result ≡ reply_control l }
{
    control_of(l.send, l.receive)
}

#[tactic(auto, using(crate::proofs::Laws::reject_packed))]
pub fn reject_control(l: Link) -> u8
    ensures { result ≡ reject_control l }
{
    REJECT | ((l.receive.0 & NUMBER_MASK) << RECEIVE_SHIFT)
}

#[tactic(auto, using(crate::proofs::Laws::polls, crate::proofs::Laws::polls_not))]
pub fn acknowledge_control(control: u8) -> u8
    ensures { result ≡ acknowledge_control control }
{
    if control & POLL != 0 {
        ACKNOWLEDGE_FINAL
    } else {
        ACKNOWLEDGE
    }
}

// This port active, both numbers 0, no loopback on either port.
pub fn fresh(port: u8) -> Link
    ensures { result ≡ fresh_link port }
{
    Link {
        send: SendNumber(0),
        receive: ReceiveNumber(0),
        port,
        primary: Port { loopback: false },
        auxiliary: Port { loopback: false },
    }
}

pub fn loop_back(l: Link, port: u8) -> Link
    ensures { result ≡ looped_at l port }
{
    let looping = Port { loopback: true };
    if port == 0 {
        Link {
            primary: looping,
            ..l
        }
    } else {
        Link {
            auxiliary: looping,
            ..l
        }
    }
}

pub fn in_loopback(l: Link, port: u8) -> bool
    ensures { result ≡ in_loopback l port }
{
    if port == 0 {
        l.primary.loopback
    } else {
        l.auxiliary.loopback
    }
}

// The command that a control is.
pub fn command_in(control: u8) -> Option<LinkCommand>
    ensures value { result ≡ command_in control }
    ensures which { MatchOption result (NoCommand control) (λ command. Names command control) }
{
    match control {
        CONNECT | CONNECT_POLL => Some(LinkCommand::Connect),
        RESET | RESET_POLL => Some(LinkCommand::Reset),
        TEST | TEST_POLL => Some(LinkCommand::Test),
        _ => None,
    }
}
