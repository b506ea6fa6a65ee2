// The numbers that calls give back: document 01, "Numbers given back", and document 02's. A call is refused when it gives 1 to 10 or 31 to 35.
// Then the sizes of what a call is handed, and of what it writes, as documents 01 and 02 have them.
#![tactic(auto)]

ghost use Rattle.std.specs.Prelude.{◌≡◌};
ghost use Rattle.numbers.specs.Answers.{refusal_number, silence_number, drop_number};

// A frame was read or sent; or the control room wrote or read a body. Kept as a number: it is no variant of a refusal, a silence or a drop.
pub const HAS_FRAME: u8 = 0;

// Why a call is refused.
#[derive(Clone, Copy, Debug, PartialEq, Eq)]
pub enum Refusal {
    // The output is under 16 bytes, for the transmitter under 24, for a batch under 2,560; the second buffer of an enlarging is not 52,224.
    ShortOutput,
    // The body is not 2 to 16 bytes.
    BadBody,
    // The port is not 0 or 1, the edge kind is over 2, a completion is not 16 bytes, not of an I2C channel, or over 16 bytes, or a batch is over 256
    // samples.
    BadArgument,
    // The journal's length, mark, version or layout is wrong; one to be enlarged is not small.
    BadJournal,
    // The kept number is 0.
    NoneKept,
    // A field of the state, of the receiver or of the record of open transactions is out of range.
    BadState,
    // The chip ID is over 0xFFFFFF.
    BadId,
    // The receiver's input is over 65,536 bytes.
    LongInput,
    // The start bit is over 8 times the bytes.
    BadStart,
    // The line is not readable.
    Unreadable,
    // A control room's call: no TRN is free, all 254 are open.
    AllOpen,
    // A control room's call: the reply matches no open transaction.
    NoMatch,
    // A control room's call: the reply's body is not 10 bytes.
    BadReply,
    // A control room's call: the tables have no such command.
    NoCommand,
}

impl From<Refusal> for u8 {
    ghost from_gives = { λ r n. n ≡ refusal_number r };

    fn from(refusal: Refusal) -> u8 {
        match refusal {
            Refusal::ShortOutput => 1,
            Refusal::BadBody => 2,
            Refusal::BadArgument => 3,
            Refusal::BadJournal => 4,
            Refusal::NoneKept => 5,
            Refusal::BadState => 6,
            Refusal::BadId => 7,
            Refusal::LongInput => 8,
            Refusal::BadStart => 9,
            Refusal::Unreadable => 10,
            Refusal::AllOpen => 31,
            Refusal::NoMatch => 32,
            Refusal::BadReply => 33,
            Refusal::NoCommand => 35,
        }
    }
}

// Why what was done sends no frame.
#[derive(Clone, Copy, Debug, PartialEq, Eq)]
pub enum Silence {
    // The frame's address is not 0x00.
    OtherAddress,
    // The port is not the active one.
    OtherPort,
    // An unknown control with bit 0 set.
    OtherControl,
    // The information is not as long as its frame asks.
    BadInformation,
    // A completion when not busy.
    NotBusy,
    // A pin sample with GPIO disabled.
    LinesDisabled,
    // Done, and no frame.
    NoFrame,
}

impl From<Silence> for u8 {
    ghost from_gives = { λ s n. n ≡ silence_number s };

    fn from(silence: Silence) -> u8 {
        match silence {
            Silence::OtherAddress => 11,
            Silence::OtherPort => 12,
            Silence::OtherControl => 13,
            Silence::BadInformation => 14,
            Silence::NotBusy => 15,
            Silence::LinesDisabled => 16,
            Silence::NoFrame => 17,
        }
    }
}

// Why the receiver dropped a frame.
#[derive(Clone, Copy, Debug, PartialEq, Eq)]
pub enum Dropped {
    // Content over 144 bits.
    LongContent,
    // Content that is not a multiple of 8 bits.
    BrokenContent,
    // A wrong FCS.
    WrongFcs,
    // Seven ones.
    Aborted,
}

impl From<Dropped> for u8 {
    ghost from_gives = { λ d n. n ≡ drop_number d };

    fn from(dropped: Dropped) -> u8 {
        match dropped {
            Dropped::LongContent => 21,
            Dropped::BrokenContent => 22,
            Dropped::WrongFcs => 23,
            Dropped::Aborted => 24,
        }
    }
}

// The bytes of the shortest body.
pub const BODY_LEAST: usize = 2;
// The bytes of the longest body.
pub const BODY_MOST: usize = 16;
// The bytes of the body of a request, a reply or an interrupt.
pub const REPLY_BYTES: usize = 10;
// The bytes of the longest frame on the cable, the transmitter's least output.
pub const CABLE_MOST: usize = 24;
// The most bytes of a receiver's input.
pub const INPUT_MOST: usize = 65536;
// The least output of an event, of a receiver and of the control room's calls.
pub const OUTPUT_LEAST: usize = 16;
// The most pin samples of a batch.
pub const SAMPLES_MOST: usize = 256;
// The least output of a batch, however few its samples: room for the most bodies.
pub const BATCH_LEAST: usize = 2560;
// The bytes received in an SPI transfer.
pub const TRANSFER_BYTES: usize = 16;
// The most bytes received in an I2C transaction.
pub const I2C_MOST: usize = 16;
// The greatest chip ID.
pub const ID_MOST: u32 = 0xFFFFFF;
