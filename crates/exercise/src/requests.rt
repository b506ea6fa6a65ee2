// Events handed to the chip, and their answers printed.
ghost use Rattle.std.specs.Prelude.{◌≡◌, [], ◌∷◌, ◌*◌, ◌/◌, ◌%◌, ◌≤◌, length};
ghost use Rattle.state.specs.State.{adapter};
ghost use Rattle.chip.specs.Event.{Completion, Event};
ghost use Rattle.chip.specs.Chip.{reaction};

use chip::{Frame, events};
use link::Link;
use numbers::Silence;
use registers::SIZE;

// The chip that is exercised.
#[derive(Drop)]
pub(crate) struct Chip {
    link: Link,
    registers: [u8; SIZE],
}

// The number in decimal; with a frame, the bytes of its body in hex. A line that cannot be written is left out.
fn show(rt: &impl Print, answer: Result<Frame, Silence>, output: &[u8; 16]) {
    match answer {
        Ok(frame) => {
            let _ = print!(rt; "{:02} ", numbers::HAS_FRAME);
            for byte in output.iter().take(usize::from(frame.length)) {
                let _ = print!(rt; "{byte:02x}");
            }
            let _ = println!(rt);
        }
        Err(silence) => {
            let _ = println!(rt; "{:02}", u8::from(silence));
        }
    }
}

impl Chip {
    // At power-on.
    pub(crate) fn new(id: u32) -> Chip {
        let mut registers = [0u8; SIZE];
        state::power_on(&mut registers, id);
        Chip {
            link: link::fresh(0),
            registers,
        }
    }

    pub(crate) fn frame(&mut self, rt: &impl Print, port: u8, body: &[u8])
        requires { (2 ≤ length body.now) × (length body.now ≤ 16) }
        ensures { adapter self.new.link self.new.registers ≡ (reaction (adapter self.old.link self.old.registers) (Event.frame port body.now)).adapter }
    {
        let mut output = [0u8; 16];
        let r = events::on_frame(self.link, &mut self.registers, port, body, &mut output);
        self.link = r.link;
        show(rt, r.answer, &output);
    }

    pub(crate) fn completion(&mut self, rt: &impl Print, received: &[u8; 16])
        ensures { adapter self.new.link self.new.registers ≡ (reaction (adapter self.old.link self.old.registers) (Event.completion (Completion.spi received.now))).adapter }
    {
        let mut output = [0u8; 16];
        let r = events::on_spi(self.link, &mut self.registers, received, &mut output);
        self.link = r.link;
        show(rt, r.answer, &output);
    }

    // On the master 0x0A.
    pub(crate) fn transaction(
        &mut self,
        rt: &impl Print,
        acknowledge: bool,
        low: bool,
        received: &[u8],
    )
        ensures { adapter self.new.link self.new.registers ≡ (reaction (adapter self.old.link self.old.registers) (Event.completion (Completion.i2c 0x0A acknowledge low received.now))).adapter }
    {
        let mut output = [0u8; 16];
        let link = self.link;
        let r = events::on_i2c(
            link,
            &mut self.registers,
            0x0A,
            acknowledge,
            low,
            received,
            &mut output,
        );
        self.link = r.link;
        show(rt, r.answer, &output);
    }

    pub(crate) fn sample(&mut self, rt: &impl Print, levels: u32, kind: u8)
        ensures { adapter self.new.link self.new.registers ≡ (reaction (adapter self.old.link self.old.registers) (Event.sample levels kind)).adapter }
    {
        let mut output = [0u8; 16];
        let r = events::on_sample(self.link, &mut self.registers, levels, kind, &mut output);
        self.link = r.link;
        show(rt, r.answer, &output);
    }

    pub(crate) fn upset(&mut self, rt: &impl Print)
        ensures { adapter self.new.link self.new.registers ≡ (reaction (adapter self.old.link self.old.registers) (Event.upset)).adapter }
    {
        let r = events::on_upset(self.link, &mut self.registers);
        self.link = r.link;
        show(rt, r.answer, &[0; 16]);
    }

    // TRN 0x01, with the frame number that the chip expects.
    pub(crate) fn ask(&mut self, rt: &impl Print, ch: u8, len: u8, cmd: u8, value: u32)
        ensures { adapter self.new.link self.new.registers ≡ (reaction (adapter self.old.link self.old.registers) (Event.frame 0 (0x00 ∷ self.old.link.receive.0 % 8 * 2 ∷ 0x01 ∷ ch ∷ len ∷ cmd ∷ value / 0x10000 % 0x100 ∷ value / 0x1000000 ∷ value % 0x100 ∷ value / 0x100 % 0x100 ∷ []))).adapter }
    {
        let [d0, d1, d2, d3] = value.to_le_bytes();
        let control = self.link.receive.0 % 8 * 2;
        let body = [0x00, control, 0x01, ch, len, cmd, d2, d3, d0, d1];
        self.frame(rt, 0, &body);
    }
}
