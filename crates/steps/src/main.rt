// Walks along the edges that documents 01 and 02 name: bodies of 1, 2, 16 and 17 bytes; SPI lengths of 0, 1 and 127; 64 and 65 events with a small
// journal, 200 and 201 with a large one, and steps back until one is refused. A line is the number and the kept number, then with 0 the port and the
// body. docs/STEPS.md works every line out.
#![tactic(auto)]

use adapter::NoFrame;
use chip::Frame;
use commands::command::Register;
use numbers::{Refusal, Silence};
use state::BYTES;

// The number of a call that sends no frame: 17 where it was done.
fn number_after(done: Result<(), Refusal>) -> u8 {
    match done {
        Ok(()) => u8::from(Silence::NoFrame),
        Err(refusal) => u8::from(refusal),
    }
}

// What a journal keeps; 0 where the bytes are no journal's.
fn kept(journal: &[u8]) -> u8 {
    adapter::kept(journal).unwrap_or(0)
}

// The number of a call, and what a journal keeps after it.
fn show_done(rt: &impl Print, done: Result<(), Refusal>, journal: &[u8]) {
    let _ = println!(rt; "{} {}", number_after(done), kept(journal));
}

// The number and the kept number, then with 0 the port and the body.
fn show(rt: &impl Print, answer: Result<Frame, NoFrame>, journal: &[u8], output: &[u8; 16]) {
    match answer {
        Ok(frame) => {
            let _ = print!(rt; "{} {} {} ", numbers::HAS_FRAME, kept(journal), frame.port);
            for byte in output.iter().take(usize::from(frame.length)) {
                let _ = print!(rt; "{byte:02x}");
            }
            let _ = println!(rt);
        }
        Err(none) => {
            let _ = println!(rt; "{} {}", u8::from(none), kept(journal));
        }
    }
}

// The adapter that is walked, with a journal of so many bytes.
#[derive(Drop)]
struct Walk<const N: usize> {
    state: [u8; BYTES],
    journal: [u8; N],
}

impl<const N: usize> Walk<N> {
    fn frame(&mut self, rt: &impl Print, port: u32, body: &[u8]) {
        let mut output = [0u8; 16];
        let answer = adapter::frame(&mut self.state, &mut self.journal, port, body, &mut output);
        show(rt, answer, &self.journal, &output);
    }

    fn completion(&mut self, rt: &impl Print, byte: u8) {
        let mut output = [0u8; 16];
        let answer = adapter::completion(
            &mut self.state,
            &mut self.journal,
            &[byte; 16],
            &mut output,
        );
        show(rt, answer, &self.journal, &output);
    }

    // The number of the last of many calls, the kept number and the SEU counter.
    fn show_seu(&self, rt: &impl Print, number: u8) {
        let Some((_, registers)) = self.state.split_last_chunk() else {
            unreachable!()
        };
        let seu = registers::read(registers, Register::Seu);
        let _ = println!(rt; "{} {} {}", number, kept(&self.journal), seu);
    }

    fn upsets(&mut self, rt: &impl Print, count: u8) {
        let mut number = 0;
        for _ in 0..count {
            let mut output = [0u8; 16];
            number = match adapter::upset(&mut self.state, &mut self.journal, &mut output) {
                Ok(_) => numbers::HAS_FRAME,
                Err(none) => u8::from(none),
            };
        }
        self.show_seu(rt, number);
    }

    fn steps_back(&mut self, rt: &impl Print, count: u8) {
        let mut number = 0;
        for _ in 0..count {
            number = number_after(adapter::step_back(&mut self.state, &mut self.journal));
        }
        self.show_seu(rt, number);
    }

    fn clear(&mut self, rt: &impl Print) {
        let done = adapter::empty(&mut self.journal);
        show_done(rt, done, &self.journal);
    }

    fn bodies(&mut self, rt: &impl Print) {
        self.frame(rt, 0, &[0x00]);
        self.frame(rt, 0, &[0x00, 0x2F]);
        self.frame(rt, 0, &[0u8; 16]);
        self.frame(rt, 0, &[0u8; 17]);
        self.frame(rt, 1, &[0x00, 0xE3]);
        self.frame(
            rt,
            1,
            &[0x00, 0x00, 2, 3, 4, 5, 6, 7, 8, 9, 10, 11, 12, 13, 14, 15],
        );
        self.frame(rt, 1, &[0u8; 17]);
    }

    // CONTROL is written with the length, GO, the completion, and the top word is read.
    fn transfer(&mut self, rt: &impl Print, first: u8, trn: u8, length: u8, byte: u8) {
        let n = first % 8;
        let t = trn % 128;
        self.frame(rt, 0, &[0x00, n * 2, t, 0x01, 6, 0x40, 0, 0, length, 0]);
        self.frame(
            rt,
            0,
            &[0x00, (n + 1) % 8 * 2, t + 1, 0x01, 2, 0x72, 0, 0, 0, 0],
        );
        self.completion(rt, byte);
        self.frame(
            rt,
            0,
            &[0x00, (n + 2) % 8 * 2, t + 2, 0x01, 2, 0x31, 0, 0, 0, 0],
        );
    }

    fn spi(&mut self, rt: &impl Print) {
        self.frame(rt, 0, &[0x00, 0x00, 0x01, 0x00, 4, 0x02, 0, 0x02, 0, 0]);
        self.transfer(rt, 1, 2, 1, 0xFF);
        self.transfer(rt, 4, 5, 127, 0xFF);
        self.transfer(rt, 7, 8, 0, 0xA5);
    }

    fn ring(&mut self, rt: &impl Print) {
        self.upsets(rt, 64);
        self.upsets(rt, 1);
        self.steps_back(rt, 64);
        self.steps_back(rt, 1);
        self.upsets(rt, 1);
        self.frame(rt, 0, &[0x00, 0x8F]);
        self.steps_back(rt, 1);
    }

    // With a large journal that keeps two events, which then is filled.
    fn long_ring(&mut self, rt: &impl Print) {
        self.upsets(rt, 198);
        self.upsets(rt, 1);
        self.steps_back(rt, 200);
        self.steps_back(rt, 1);
    }
}

// The number, and what the second buffer keeps then.
fn enlarge(rt: &impl Print, journal: &[u8], second: &mut [u8]) {
    let done = adapter::enlarge(journal, second);
    show_done(rt, done, second);
}

fn main(rt: HostRuntime) {
    let mut walk = Walk {
        state: [0; BYTES],
        journal: [0; journal::SMALL],
    };
    walk.clear(&rt);
    let _ = adapter::create(&mut walk.state, 0x00000A);
    walk.bodies(&rt);
    walk.spi(&rt);
    walk.clear(&rt);
    walk.ring(&rt);
    // Two events of the small journal go over into a large one.
    walk.upsets(&rt, 2);
    let mut large = Walk {
        state: walk.state,
        journal: [0; journal::LARGE],
    };
    let mut short = [0u8; 16];
    enlarge(&rt, &walk.journal, &mut short);
    enlarge(&rt, &walk.journal, &mut large.journal);
    enlarge(&rt, &large.journal, &mut short);
    large.long_ring(&rt);
}
