// A listing played: each line's answer behind the last one's, lines cut out of blocks of any size.
#![tactic(auto)]

pub mod calls;

ghost use Rattle.std.specs.Prelude.{◌≡◌, ◌+◌, ◌*◌, ◌≤◌, length, take};
ghost use mathlib.Core.List.{[], foldl};
ghost use Rattle.adapter.specs.Calls.{created};
ghost use Rattle.listing.specs.Answer.{answer_text, wrote, written};
ghost use Rattle.player.specs.Play.{turn, chip_id};
ghost use Rattle.player.specs.Parts.{left, leaves, held, added, player, takes, closes, fed, feeds};

use listing::answer;
use listing::characters::LINE_FEED;
use numbers::HAS_FRAME;

pub const CHIP_ID: u32 = 0x00000A;

// Room for a line of 80 characters, and for one more that makes it too long.
pub const LINE_ROOM: usize = 81;

// Room that an output line never outgrows.
pub const ANSWER_ROOM: usize = 48;

// What a block leaves besides lent bytes: the characters of the line so far, and the output's length.
#[derive(Clone, Copy)]
pub struct Fed {
    pub count: usize,
    pub next: usize,
}

// Kept: parameters one by one: `left` and `fed` of the contracts are over each lent buffer, and a struct of references, tried in bench, lends behind a
// reference, which has no rule yet.
// Plays a line: writes its output line from a place on, and gives the place after it.
#[tactic(auto, unfolding(crate::specs::Play::turn))]
pub fn play_line(state: &mut [u8], journal: &mut [u8], l: &[u8], out: &mut [u8], at: usize) -> usize
    requires { at + 48 ≤ length out.old }
    ensures out_after { left result state.new journal.new out.new ≡ leaves at out.old (turn state.old journal.old l.now) }
    ensures upper_bound { result ≤ at + 48 }
{
    let mut reply = [0u8; 16];
    let heard = calls::hear(state, journal, l, &mut reply);
    let kept = adapter::kept(journal).unwrap_or(0);
    match heard {
        Ok(frame) => {
            let body = &reply[..reply.len().min(usize::from(frame.length))];
            answer::put_answer(out, at, HAS_FRAME, kept, frame.port, body)
        }
        Err(none) => answer::put_answer(out, at, u8::from(none), kept, 0, &[]),
    }
}

// A listing's chip as it starts, in a state's bytes.
pub fn start(state: &mut [u8])
    ensures { state.new ≡ (created state.old chip_id).bytes }
{
    let _ = adapter::create(state, CHIP_ID);
}

// One character more of a line; those past the room for a line are not kept.
#[tactic(auto, unfolding(crate::specs::Parts::added))]
fn add(line: &mut [u8; LINE_ROOM], count: usize, b: u8) -> usize
    ensures { held result line.new ≡ added count b line.old }
{
    if count < LINE_ROOM {
        line[count] = b;
        return count + 1;
    }
    count
}

// Takes a byte of the input: LF plays the line so far, and any other character joins it.
#[tactic(auto, unfolding(crate::specs::Parts::takes, crate::specs::Parts::ends, crate::specs::Parts::joins), using(crate::proofs::Feeding::written_none, crate::proofs::Feeding::added_count))]
fn take_byte(
    state: &mut [u8],
    count: usize,
    journal: &mut [u8],
    line: &mut [u8; LINE_ROOM],
    b: u8,
    out: &mut [u8],
    at: usize,
) -> Fed
    requires count_bound { count ≤ 81 }
    requires at_in_bounds { at + 48 ≤ length out.old }
    ensures out_after { fed result state.new journal.new line.new out.new ≡ feeds at out.old (takes (player state.old journal.old line.old count []) b) }
    ensures count_bound_2 { (result.count ≤ 81) × (result.next ≤ at + 48) }
{
    if b == LINE_FEED {
        let next = play_line(state, journal, &line[..count], out, at);
        return Fed { count: 0, next };
    }
    Fed {
        count: add(line, count, b),
        next: at,
    }
}

// Plays a block of the input: the lines that end in it. The line so far stands in the lent line.
#[tactic(auto, using(crate::proofs::Feeding::written_none, crate::proofs::Feeding::byte_fed, crate::proofs::Feeding::all_fed))]
pub fn feed(
    state: &mut [u8],
    held: usize,
    journal: &mut [u8],
    line: &mut [u8; LINE_ROOM],
    block: &[u8],
    out: &mut [u8],
) -> Fed
    requires held_bound { held ≤ 81 }
    requires block_in_bounds { 48 * length block.now ≤ length out.old }
    ensures out_after { fed result state.new journal.new line.new out.new ≡ feeds 0 out.old (foldl takes (player state.old journal.old line.old held []) block.now) }
    ensures count_bound { (result.count ≤ 81) × (result.next ≤ 48 * length block.now) }
{
    let mut f = Fed {
        count: held,
        next: 0,
    };
    for b in block {
        f = take_byte(state, f.count, journal, line, *b, out, f.next);
    }
    f
}

// Plays a last line that no LF ended, if there is one, as an LF would end it.
#[tactic(auto, unfolding(crate::specs::Parts::closes), using(crate::proofs::Feeding::written_none, crate::proofs::Feeding::ends_line))]
pub fn finish(
    state: &mut [u8],
    count: usize,
    journal: &mut [u8],
    line: &mut [u8; LINE_ROOM],
    out: &mut [u8],
) -> Fed
    requires count_bound { count ≤ 81 }
    requires in_bounds { 48 ≤ length out.old }
    ensures out_after { fed result state.new journal.new line.new out.new ≡ feeds 0 out.old (closes (player state.old journal.old line.old count [])) }
    ensures next_bound { result.next ≤ 48 }
{
    if count == 0 {
        return Fed { count: 0, next: 0 };
    }
    feed(state, count, journal, line, &[LINE_FEED], out)
}
