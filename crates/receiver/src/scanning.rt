// The receiving side: cable bits are taken up to the deciding bit of a flag or an abort.
ghost use Rattle.std.specs.Prelude.{◌≡◌, true, ◌*◌, ◌<◌, ◌≤◌, length, drop};
ghost use Rattle.numbers.specs.Numbers.{input_most};
ghost use Rattle.wire.specs.Bits.{wire};
ghost use Rattle.receiver.specs.Inner.{Good, Stepped, Scan, Idle, control_of, receiver_of};

use crate::Receiver;

// A receiver without its bytes: small enough to go by value with every bit. Kept: mode is a number, as the receiver's is.
#[derive(Clone, Copy, PartialEq, Eq)]
pub struct Control {
    pub mode: u8,
    pub ones: u8,
    pub lead: u8,
    pub count: u8,
}

impl From<Receiver> for Control {
    ghost from_gives = { λ rx c. c ≡ control_of rx };

    fn from(rx: Receiver) -> Control {
        Control {
            mode: rx.mode,
            ones: rx.ones,
            lead: rx.lead,
            count: rx.count,
        }
    }
}

impl Control {
    // The receiver with these bytes.
    pub(crate) fn with(self, bytes: [u8; 20]) -> Receiver
        ensures { result ≡ receiver_of self bytes }
    {
        Receiver {
            mode: self.mode,
            ones: self.ones,
            lead: self.lead,
            count: self.count,
            bytes,
        }
    }
}

// Why a scan stopped: a flag and a seventh one each end enough content.
#[derive(Clone, Copy)]
pub enum End {
    OutOfBits,
    Flag,
    Abort,
}

// Where a scan stopped.
#[derive(Clone, Copy)]
pub struct Scanned {
    pub control: Control,
    pub bytes: [u8; 20],
    pub used: usize,
    pub end: End,
}

// y where x is below k, else 0.
fn under(x: u8, k: u8, y: u8) -> u8
    ensures { (x < k → result ≡ y) × (k ≤ x → result ≡ 0) × (result ≤ y) }
{
    if x < k { y } else { 0 }
}

// x where b is 0, else y.
fn choose(b: u8, x: u8, y: u8) -> u8
    ensures { (b ≡ 0 → result ≡ x) × (0 < b → result ≡ y) }
{
    if b == 0 { x } else { y }
}

// The control after a bit that ends no flag and is no seventh one.
fn step(c: Control, b: u8) -> Control
    requires { (c.mode ≤ 1) × (c.ones ≤ 7) × (c.lead ≤ 1) × (c.count ≤ 152) × (b < 2) }
    ensures { Stepped c b result }
{
    let counts = under(c.ones, 5, c.mode);
    let pushed = under(c.count, 152, counts);
    let up = c.ones + under(c.ones, 7, 1);
    Control {
        mode: c.mode,
        ones: choose(b, 0, up),
        lead: choose(b, counts, c.lead),
        count: c.count + pushed,
    }
}

// Whether a byte left a receiver as it was, its content in one byte: then the same byte does so again.
fn is_idle(before: Control, first: u8, after: Control, held: u8) -> bool
    ensures { result ≡ true → Idle before first after held }
{
    before == after && first == held && after.count <= 8
}

// The bits of a slice from one of its first byte's on, up to the deciding one.
fn scan(start: Control, kept: [u8; 20], s: &[u8], from: usize) -> Scanned
    requires good { Good start kept }
    requires from_bound { from < 8 }
    requires s_len_bound { length s.now ≤ input_most }
    ensures { Scan start kept (drop from (wire s.now)) result }
{
    let mut c = start;
    let mut bytes = kept;
    let mut used: usize = 0;
    let mut end = End::OutOfBits;
    let mut skip = from;
    let mut idle: Option<u8> = None;
    'bytes: for byte in s {
        // As the fill between frames.
        if idle == Some(*byte) {
            used += 8;
            continue;
        }
        let before = c;
        let first = bytes[0];
        'bits: for place in skip..8 {
            let b = (*byte >> place) % 2;
            used += 1;
            if c.ones == 6 {
                if choose(b, 37 + c.lead, 37) <= c.count {
                    end = if b == 0 { End::Flag } else { End::Abort };
                    break 'bytes;
                }
                c = Control {
                    mode: 1 - b,
                    ones: 7 * b,
                    lead: 0,
                    count: 0,
                };
                bytes = [0u8; 20];
            } else {
                let d = step(c, b);
                let at = (c.count / 8) as usize;
                let v = choose(d.count - c.count, 0, b);
                bytes[at] += v << (c.count % 8);
                c = d;
            }
        }
        idle = if skip == 0 && is_idle(before, first, c, bytes[0]) {
            Some(*byte)
        } else {
            None
        };
        skip = 0;
    }
    Scanned {
        control: c,
        bytes,
        used,
        end,
    }
}

// The same from any bit of a buffer: the rest of the cable bytes is handed on as a part.
#[tactic(auto, using(crate::proofs::Bits::from_byte))]
pub(crate) fn scan_from(start: Control, kept: [u8; 20], input: &[u8], bit: usize) -> Scanned
    requires good { Good start kept }
    requires input_len_bound { (length input.now ≤ input_most) × (bit ≤ 8 * length input.now) }
    ensures { Scan start kept (drop bit (wire input.now)) result }
{
    scan(start, kept, &input[bit / 8..], bit % 8)
}
