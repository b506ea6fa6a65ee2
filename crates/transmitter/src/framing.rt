// The sending side: bits go straight into the lent output, four at a time.
ghost use Rattle.std.specs.Prelude.{◌≡◌, ◌+◌, ◌*◌, ◌-◌, ◌%◌, ◌^◌, ◌<◌, ◌≤◌, length, replicate};
ghost use Rattle.numbers.specs.Numbers.{body_most, cable_most};
ghost use Rattle.wire.specs.Bits.{low, wire};
ghost use Rattle.parts.specs.Parts.{put};
ghost use Rattle.transmitter.specs.Frame.{framed};

use crate::stuffing::stuffed;

const FLAG: u16 = 0x7E;

// The lent output and how far it is written: its bits, those of them in its last byte as long as it is not whole, and the run of ones at their end.
#[derive(Drop)]
struct Pen<'a> {
    output: &'a mut [u8],
    bits: usize,
    held: u16,
    ones: u16,
    ghost room: { cable_most ≤ length output.now },
    ghost in_byte: { held < 2 ^ (bits % 8) },
    ghost short: { ones ≤ 4 },
}

impl<'a> Pen<'a> {
    ghost use Rattle.transmitter.specs.Pen.{Inks, Writes};

    // Some bits more. Each goes out at once, but no byte is read back: the pen holds what stands in the last one.
    fn put(&mut self, v: u16, count: usize)
        requires { (self.old.bits + count ≤ 192) × (0 < count) × (count ≤ 8) × (v < 2 ^ count) }
        ensures { Inks self.old (low count v) self.new × (self.new.ones ≡ self.old.ones) }
    {
        let k = self.bits / 8;
        let j = self.bits % 8;
        let all = self.held + (v << j);
        self.output[k] = (all % 256) as u8;
        self.held = all >> (8 * ((j + count) / 8));
        self.bits += count;
    }

    // Four bits of content, with a zero after a fifth one.
    fn stuff_four(&mut self, x: u16)
        requires { (5 * self.old.bits + self.old.ones ≤ 884) × (x < 16) }
        ensures { Writes self.old (low 4 x) self.new }
    {
        let out = stuffed(self.ones, x);
        self.put(out.bits, out.count);
        self.ones = out.ones;
    }

    // The eight bits of a byte of content.
    #[tactic(auto, using(wire::proofs::Bits::length_low))]
    fn stuff_byte(&mut self, x: u8)
        requires { 5 * self.old.bits + self.old.ones ≤ 860 }
        ensures { Writes self.old (low 8 x) self.new }
    {
        self.stuff_four((x % 16) as u16);
        self.stuff_four((x / 16) as u16);
    }

    // The bytes of a slice, as content.
    #[tactic(auto, using(crate::proofs::Pens::lengths))]
    fn stuff_bytes(&mut self, s: &[u8])
        requires { (length s.now ≤ body_most) × (5 * self.old.bits + self.old.ones ≤ 40) }
        ensures { Writes self.old (wire s.now) self.new }
    {
        for x in s {
            self.stuff_byte(*x);
        }
    }

    #[tactic(auto, using(crate::proofs::Written::ones_fit))]
    // Ones to fill the last byte: how many bytes are written.
    fn fill(&mut self) -> usize
        requires { self.old.bits ≤ 192 }
        ensures { Inks self.old (replicate ((8 - self.old.bits % 8) % 8) 1) self.new × (self.new.bits ≡ 8 * result) }
    {
        let count = (8 - self.bits % 8) % 8;
        if count > 0 {
            self.put(255 >> (8 - count), count);
        }
        self.bits / 8
    }
}

#[tactic(auto, using(crate::proofs::Pens::lengths))]
// A body as a frame, with ones to fill the last byte: how many bytes were written.
pub(crate) fn write_frame(body: &[u8], output: &mut [u8]) -> usize
    requires { (length body.now ≤ body_most) × (cable_most ≤ length output.old) }
    ensures value { result ≡ length (framed body.now) }
    ensures output_after { output.new ≡ put 0 (framed body.now) output.old }
{
    let check = wire::PRESET - wire::register(body);
    let mut pen = Pen {
        output,
        bits: 0,
        held: 0,
        ones: 0,
    };
    pen.put(FLAG, 8);
    pen.stuff_bytes(body);
    pen.stuff_byte((check % 256) as u8);
    pen.stuff_byte((check / 256) as u8);
    pen.put(FLAG, 8);
    pen.fill()
}
