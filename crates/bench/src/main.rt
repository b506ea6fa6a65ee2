// The bench program: a listing on standard input, its answers on standard output. What matters is in `player`; here it is only read,
// fed and written. The answers to what was read are written before the next read.
#![tactic(auto)]

ghost use Rattle.std.specs.Prelude.{◌≤◌, IfSome, length};

use player::{ANSWER_ROOM, LINE_ROOM};
use std::io::Read;

// The most that one read takes.
const BLOCK_ROOM: usize = 16384;

// Room for the answers to as much.
const OUTPUT_ROOM: usize = BLOCK_ROOM * ANSWER_ROOM;

// Writes answers, and says whether they could be written.
fn flush(rt: &(impl Print + Eprint), answers: &[u8]) -> bool {
    let written = rt.write_all(answers).is_ok();
    if !written {
        let _ = rt.eprintln("bench: standard output cannot be written");
    }
    written
}

// Plays what was read behind so many characters of the line so far, and writes the answers. Gives the characters of the line after it, or none
// where the program ends.
fn feed(
    rt: &(impl Print + Eprint),
    held: usize,
    block: &[u8],
    state: &mut [u8],
    journal: &mut [u8],
    line: &mut [u8; LINE_ROOM],
    out: &mut [u8; OUTPUT_ROOM],
) -> Option<usize>
    requires held_bound { held ≤ 81 }
    requires block_len_bound { length block.now ≤ 16384 }
    ensures { IfSome result (λ count. count ≤ 81) }
{
    let fed = player::feed(state, held, journal, line, block, out);
    flush(rt, &out[..fed.next]).then_some(fed.count)
}

// The end of the input: a last line that lacks its LF is played.
fn finish(
    rt: &(impl Print + Eprint),
    held: usize,
    state: &mut [u8],
    journal: &mut [u8],
    line: &mut [u8; LINE_ROOM],
    out: &mut [u8; OUTPUT_ROOM],
)
    requires { held ≤ 81 }
{
    let fed = player::finish(state, held, journal, line, out);
    flush(rt, &out[..fed.next]);
}

// One read, and what follows from it.
// Kept: block, state, journal, line and out one by one: a struct of the five references was tried, and what is lent behind a reference has no rule yet;
// with arrays of its own, as steps has them, it would copy 786 KB.
fn turn(
    rt: &(impl Print + Eprint),
    input: &mut impl Read,
    held: usize,
    block: &mut [u8; BLOCK_ROOM],
    state: &mut [u8],
    journal: &mut [u8],
    line: &mut [u8; LINE_ROOM],
    out: &mut [u8; OUTPUT_ROOM],
) -> Option<usize>
    requires { held ≤ 81 }
    ensures { IfSome result (λ count. count ≤ 81) }
{
    match input.read(block) {
        Err(_) => {
            let _ = rt.eprintln("bench: standard input cannot be read");
            None
        }
        Ok(0) => {
            finish(rt, held, state, journal, line, out);
            None
        }
        Ok(n) => feed(rt, held, &block[..n], state, journal, line, out),
    }
}

// Nothing says that the input ends, so the turns are counted to a number that no run uses up.
fn run(
    rt: &(impl Print + Eprint),
    input: &mut impl Read,
    block: &mut [u8; BLOCK_ROOM],
    state: &mut [u8],
    journal: &mut [u8],
    line: &mut [u8; LINE_ROOM],
    out: &mut [u8; OUTPUT_ROOM],
) {
    let mut held = 0;
    'turns: for _ in 0..u64::MAX {
        match turn(rt, input, held, block, state, journal, line, out) {
            Some(count) => held = count,
            None => break,
        }
    }
}

fn main(rt: HostRuntime) {
    let mut input = rt.stdin();
    let mut block = [0u8; BLOCK_ROOM];
    let mut state = [0u8; state::BYTES];
    let mut journal = [0u8; journal::LARGE];
    let mut line = [0u8; LINE_ROOM];
    let mut out = [0u8; OUTPUT_ROOM];
    player::start(&mut state);
    let _ = adapter::empty(&mut journal);
    run(
        &rt,
        &mut input,
        &mut block,
        &mut state,
        &mut journal,
        &mut line,
        &mut out,
    );
}
