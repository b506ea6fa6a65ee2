// What requests to all channels have in common: their fields, their errors and their answers.
ghost use Rattle.std.specs.Prelude.{◌≡◌};
ghost use Rattle.commands.specs.Request.{fault_bit, granted, refusal};

// TRN, CH, LEN, CMD and D[31:0].
#[derive(Clone, Copy)]
pub struct Request {
    pub trn: u8,
    pub ch: u8,
    pub len: u8,
    pub cmd: u8,
    pub value: u32,
}

// A reply's ERR, LEN and D[31:0]. Kept: error is the byte on the wire, 0 where there is none.
#[derive(Clone, Copy)]
pub struct Reply {
    pub error: u8,
    pub length: u8,
    pub value: u32,
}

// No request's TRN is one of these; the second is an interrupt's.
pub const NO_TRANSACTION: u8 = 0x00;

pub const INTERRUPT: u8 = 0xFF;

// What is wrong with a request: the first that applies, in this order.
#[derive(Clone, Copy, Debug, PartialEq, Eq)]
pub enum Fault {
    TrnWrong,
    ChUnknown,
    NotEnabled,
    Busy,
    CmdUnknown,
    LenWrong,
}

// The error bit of each.
impl From<Fault> for u8 {
    ghost from_gives = { λ f n. n ≡ fault_bit f };

    fn from(fault: Fault) -> u8 {
        match fault {
            Fault::TrnWrong => 0x08,
            Fault::ChUnknown => 0x02,
            Fault::NotEnabled => 0x20,
            Fault::Busy => 0x40,
            Fault::CmdUnknown => 0x04,
            Fault::LenWrong => 0x10,
        }
    }
}

pub fn refusal(error: u8) -> Reply
    ensures { result ≡ refusal error }
{
    Reply {
        error,
        length: 2,
        value: 0,
    }
}

pub fn granted(length: u8, value: u32) -> Reply
    ensures { result ≡ granted length value }
{
    Reply {
        error: 0,
        length,
        value,
    }
}
