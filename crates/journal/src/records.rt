// A record: what its event may change of a state, as it was before the event. A tag for the group, the core, the group's bytes.
ghost use Rattle.std.specs.Prelude.{◌≡◌, cond, ◌+◌, ◌≤◌, length, get_or};
ghost use Rattle.parts.specs.Parts.{part, put};
ghost use Rattle.state.specs.Bytes.{state_size};
ghost use Rattle.journal.specs.Record.{core_bytes, start_of, many_of, tag_of, group_in, record_of, restored, sound};
ghost use Rattle.journal.specs.Inner.{record_most};

use channels::groups;
use channels::groups::{CORE_SIZE, SPAN_MOST, Span};
use commands::command::Control;
use state::{BYTES, LINK};

// The bytes of the core that a record has: all but the ID.
const CORE: usize = LINK + CORE_SIZE;

// Where a record has its group's bytes.
const GROUP: usize = 1 + CORE;

// The bytes of the longest record.
pub(crate) const MOST: usize = GROUP + SPAN_MOST;

// The tag of the last group.
const LAST_TAG: u8 = 3;

// The core that stands at a place. Its sixteen bytes are moved at once, where the compiler has them by value: it cannot tell two lent slices apart.
#[tactic(auto, using(crate::proofs::Record::lent_part))]
fn core_at(b: &[u8], at: usize) -> [u8; CORE]
    requires { at + core_bytes ≤ length b.now }
    ensures { result ≡ part at core_bytes b.now }
{
    let mut core = [0u8; CORE];
    core.copy_from_slice(&b[at..at + CORE]);
    core
}

// Makes a record of a state's core and of a part of it.
pub(crate) fn make(s: &[u8; BYTES], tag: u8, span: Span, r: &mut [u8])
    requires many_bound { (span.first + span.many ≤ state_size) × (1 + core_bytes + span.many ≤ record_most) }
    requires record_most_in_bounds { record_most ≤ length r.old }
    ensures { r.new ≡ put 0 (record_of tag span.first span.many s.now) r.old }
{
    let core = core_at(s, 0);
    parts::store(r, 0, &[tag]);
    parts::store(r, 1, &core);
    parts::store(r, GROUP, &s[span.first..span.first + span.many]);
}

// A group's tag, and back: a record has it in its first byte. Kept: functions and no From, since Option<Control> is of no crate here.
pub(crate) fn tag_of(group: Option<Control>) -> u8
    ensures { result ≡ tag_of group }
{
    match group {
        None => 0,
        Some(Control::B) => 1,
        Some(Control::C) => 2,
        Some(Control::D) => 3,
    }
}

#[tactic(auto, unfolding(crate::specs::Record::group_in))]
fn group_in(tag: u8) -> Option<Control>
    ensures { result ≡ group_in tag }
{
    match tag {
        1 => Some(Control::B),
        2 => Some(Control::C),
        3 => Some(Control::D),
        _ => None,
    }
}

// Where the bytes of a tag's group stand in a state: a record has room for them.
pub(crate) fn span_of(tag: u8) -> Span
    ensures { ((result.first ≡ start_of (group_in tag)) × (result.many ≡ many_of (group_in tag))) × ((core_bytes ≤ result.first) × (result.first + result.many ≤ state_size) × (1 + core_bytes + result.many ≤ record_most)) }
{
    let span = groups::span_of(group_in(tag));
    Span {
        first: LINK + span.first,
        many: span.many,
    }
}

// Exchanges a record's core and group with a state's.
fn exchange(r: &mut [u8], s: &mut [u8; BYTES], span: Span)
    requires record_most_in_bounds { record_most ≤ length r.old }
    requires core_bytes_le_first { (core_bytes ≤ span.first) × (span.first + span.many ≤ state_size) × (1 + core_bytes + span.many ≤ record_most) }
    ensures { (s.new ≡ put span.first (part (1 + core_bytes) span.many r.old) (put 0 (part 1 core_bytes r.old) s.old)) × (r.new ≡ put 0 (record_of (get_or r.old 0 0) span.first span.many s.old) r.old) }
{
    let was = core_at(s, 0);
    let core = core_at(r, 1);
    parts::store(r, 1, &was);
    parts::store(s, 0, &core);
    let group = &mut r[GROUP..GROUP + span.many];
    parts::exchange(group, &mut s[span.first..span.first + span.many]);
}

// Puts a record over a state, unless it is damaged: where it makes no state, the state is as it was. Tells whether it is sound. What the record goes
// over stands in the record's own place meanwhile; in the end the record stays as it is.
#[tactic(auto, using(crate::proofs::Record::unknown_tag))]
pub(crate) fn restore(r: &mut [u8], s: &mut [u8; BYTES]) -> bool
    requires { record_most ≤ length r.old }
    ensures { (result ≡ sound s.old r.old) × (s.new ≡ cond result (restored s.old r.old) s.old) × (r.new ≡ r.old) }
{
    let tag = r[0];
    if LAST_TAG < tag {
        return false;
    }
    let span = span_of(tag);
    exchange(r, s, span);
    let fits = state::is_state(s);
    if fits {
        make(s, tag, span, r);
        true
    } else {
        exchange(r, s, span);
        false
    }
}
