// The journal: a ring of records in lent bytes, each of which takes the state after an event back to the one before it. A journal belongs
// to the state that it went with.
#![tactic(auto)]

mod records;

ghost use Rattle.std.specs.Prelude.{◌≡◌, true, false, cond, ◌+◌, ◌-◌, ◌%◌, ◌<◌, ◌≤◌, length};
ghost use Rattle.parts.specs.Parts.{put};
ghost use Rattle.journal.specs.Layout.{header_bytes, slots_of, wrong_length, first_of, kept_of, well_formed, is_small, place_of, past};
ghost use Rattle.journal.specs.Layout.{headed, emptied, first_after, kept_up, pushed, lowered, oldest, enlarged};
ghost use Rattle.journal.specs.Inner.{format_in};
ghost use Rattle.journal.specs.Record.{kept_for, restored, sound};

use commands::command::Control;
use state::BYTES;

// The bytes of a small journal and of a large one.
pub const SMALL: usize = 17408;

pub const LARGE: usize = 52224;

const HEADER_BYTES: usize = 1024;

const SLOT_BYTES: usize = 256;

// The header's mark.
const MARK0: u8 = 0x53;

const MARK1: u8 = 0x43;

const MARK2: u8 = 0x4A;

// Where the header has the slot of the oldest record, and the kept number.
const FIRST: usize = 5;

pub const KEPT: usize = 6;

// How many slots a journal has, and the version that its header says.
#[derive(Clone, Copy)]
struct Format {
    slots: u8,
    version: u16,
}

const OF_SMALL: Format = Format {
    slots: 64,
    version: 1,
};

const OF_LARGE: Format = Format {
    slots: 200,
    version: 2,
};

// The format of as many bytes.
#[tactic(auto, unfolding(crate::specs::Layout::format_of))]
fn format_of(size: usize) -> Option<Format>
    ensures { result ≡ format_in size }
{
    match size {
        SMALL => Some(OF_SMALL),
        LARGE => Some(OF_LARGE),
        _ => None,
    }
}

// No journal has this length.
#[tactic(auto, unfolding(crate::specs::Layout::wrong_length))]
pub fn is_wrong_length(j: &[u8]) -> bool
    ensures { result ≡ wrong_length j.now }
{
    format_of(j.len()).is_none()
}

// Length and header are those of a journal.
#[tactic(auto, using(crate::proofs::Ring::long_enough), unfolding(crate::specs::Layout::well_formed, crate::specs::Layout::wrong_length))]
pub fn is_well_formed(j: &[u8]) -> bool
    ensures { result ≡ well_formed j.now }
{
    let Some(f) = format_of(j.len()) else {
        return false;
    };
    let [v0, v1] = f.version.to_le_bytes();
    let mark = (j[0] == MARK0) & (j[1] == MARK1) & (j[2] == MARK2);
    let version = (j[3] == v0) & (j[4] == v1);
    mark & version & (j[FIRST] < f.slots) & (j[KEPT] <= f.slots)
}

// A journal of the small size, well formed.
#[tactic(auto, unfolding(crate::specs::Layout::is_small))]
pub fn is_small(j: &[u8]) -> bool
    ensures { result ≡ is_small j.now }
{
    if j.len() == SMALL {
        return is_well_formed(j);
    }
    false
}

// Writes the header of a ring that starts at its first slot.
#[tactic(auto, using(crate::proofs::Ring::long_enough), unfolding(crate::specs::Layout::wrong_length))]
fn head(j: &mut [u8], kept: u8)
    requires { wrong_length j.old ≡ false }
    ensures { j.new ≡ headed kept j.old }
{
    let f = format_of(j.len()).unwrap();
    let [v0, v1] = f.version.to_le_bytes();
    let header = [MARK0, MARK1, MARK2, v0, v1, 0, kept];
    parts::store(j, 0, &header);
}

// Makes a journal empty, whatever it held.
#[tactic(auto, unfolding(crate::specs::Layout::emptied))]
pub fn empty(j: &mut [u8])
    requires { wrong_length j.old ≡ false }
    ensures { j.new ≡ emptied j.old }
{
    head(j, 0);
}

// The ring of a well-formed journal: its slots, the slot of the oldest record, and how many are kept.
#[derive(Clone, Copy)]
struct Header {
    slots: u8,
    first: u8,
    kept: u8,
    ghost in_range: { (first < slots) × (kept ≤ slots) },
}

impl Header {
    // The slot that is k after the first, round the ring.
    #[tactic(auto, using(crate::proofs::Ring::not_round, crate::proofs::Ring::once_round))]
    fn slot(self, k: u8) -> u8
        requires { k ≤ self.slots }
        ensures { result ≡ (self.first + k) % self.slots }
    {
        let ahead = self.slots - self.first;
        if k < ahead { self.first + k } else { k - ahead }
    }

    // Where it stands.
    fn place(self, k: u8) -> usize
        requires { k ≤ self.slots }
        ensures { result ≡ place_of self.slots self.first k }
    {
        HEADER_BYTES + SLOT_BYTES * usize::from(self.slot(k))
    }

    // The first slot and the kept number with a record more, which in a full ring goes over the oldest.
    fn first_after(self) -> u8
        ensures { result ≡ first_after self.slots self.first self.kept }
    {
        if self.kept == self.slots {
            self.slot(1)
        } else {
            self.first
        }
    }

    fn kept_after(self) -> u8
        ensures { result ≡ kept_up self.slots self.kept }
    {
        if self.kept == self.slots {
            self.slots
        } else {
            self.kept + 1
        }
    }
}

// The ring as the header has it.
#[tactic(auto, using(crate::proofs::Ring::formed), unfolding(crate::specs::Layout::wrong_length))]
fn header_of(j: &[u8]) -> Header
    requires { well_formed j.now ≡ true }
    ensures { (result.slots ≡ slots_of j.now) × (result.first ≡ first_of j.now) × (result.kept ≡ kept_of j.now) }
{
    let f = format_of(j.len()).unwrap();
    Header {
        slots: f.slots,
        first: j[FIRST],
        kept: j[KEPT],
    }
}

// Keeps of a state what an event of this group may change: the record is made in the slot after the newest.
// Kept: well_formed is a clause; a struct with the lent journal would need one more in each contract, that the buffer is the same one, as
// listing::answer::Text shows.
#[tactic(auto, using(crate::proofs::Ring::formed))]
pub fn keep(j: &mut [u8], s: &[u8; BYTES], group: Option<Control>)
    requires { well_formed j.old ≡ true }
    ensures { j.new ≡ pushed (kept_for group s.now) j.old }
{
    let header = header_of(j);
    let at = header.place(header.kept);
    let tag = records::tag_of(group);
    let span = records::span_of(tag);
    records::make(s, tag, span, &mut j[at..at + records::MOST]);
    j[FIRST] = header.first_after();
    j[KEPT] = header.kept_after();
}

// Where the newest record stands.
#[tactic(auto, using(crate::proofs::Ring::formed))]
fn newest(j: &[u8]) -> usize
    requires j_value { well_formed j.now ≡ true }
    requires j_nonzero { 0 < kept_of j.now }
    ensures { result ≡ place_of (slots_of j.now) (first_of j.now) (kept_of j.now - 1) }
{
    let header = header_of(j);
    header.place(header.kept - 1)
}

// Puts the newest record over the bytes of a state, unless it is damaged. Tells whether it is sound. The journal stays as it is.
#[tactic(auto, using(crate::proofs::Ring::formed))]
pub fn restore(j: &mut [u8], s: &mut [u8; BYTES]) -> bool
    requires j_value { well_formed j.old ≡ true }
    requires j_nonzero { 0 < kept_of j.old }
    ensures { (result ≡ sound s.old (past j.old 0)) × (s.new ≡ cond result (restored s.old (past j.old 0)) s.old) × (j.new ≡ j.old) }
{
    let at = newest(j);
    records::restore(&mut j[at..at + SLOT_BYTES], s)
}

// Gives the newest record up.
#[tactic(auto, using(crate::proofs::Ring::formed), unfolding(crate::specs::Layout::lowered))]
pub fn lower(j: &mut [u8])
    requires j_value { well_formed j.old ≡ true }
    requires j_nonzero { 0 < kept_of j.old }
    ensures { j.new ≡ lowered j.old }
{
    j[KEPT] -= 1;
}

// Copies the kept records into a second buffer's slots, the oldest into the first.
#[tactic(auto, using(crate::proofs::Ring::formed))]
fn copy_kept(j: &[u8], second: &mut [u8])
    requires j_value { well_formed j.now ≡ true }
    requires second_value { wrong_length second.old ≡ false }
    requires j_bound { kept_of j.now ≤ slots_of second.old }
    ensures { second.new ≡ put header_bytes (oldest (kept_of j.now) j.now) second.old }
{
    let header = header_of(j);
    for k in 0..header.kept {
        let from = header.place(k);
        let to = HEADER_BYTES + SLOT_BYTES * usize::from(k);
        parts::store(second, to, &j[from..from + SLOT_BYTES]);
    }
}

// Makes a second buffer a journal of its own size with the same records kept.
#[tactic(auto, using(crate::proofs::Ring::formed))]
pub fn enlarge(j: &[u8], second: &mut [u8])
    requires j_value { well_formed j.now ≡ true }
    requires second_value { wrong_length second.old ≡ false }
    requires j_bound { kept_of j.now ≤ slots_of second.old }
    ensures { second.new ≡ enlarged j.now second.old }
{
    copy_kept(j, second);
    head(second, j[KEPT]);
}
