// The record of open transactions, as bytes: the frame number, and for each TRN the channel and the command of the request that is open with it.
ghost use Rattle.std.specs.Prelude.{◌≡◌, ◌+◌, ◌*◌, ◌<◌, ◌≤◌, cond, IfSome};
ghost use Rattle.control_room.specs.Given.{trn_after};
ghost use Rattle.control_room.specs.Record.{number_at, with_number, command_at, first_trn, many_trns, is_sound, are_sound, free_trn, is_record};
ghost use Rattle.control_room.specs.Record.{frame_number, counted_up, counted_anew, opened, closed, closing, is_open_to};

use commands::channel;
use commands::command::Command;
use commands::request::{INTERRUPT, NO_TRANSACTION};
use parts::Width;

pub(crate) const BYTES: usize = 510;

// The place of the frame number; the first TRN's, and the one behind the last.
const FRAME: u8 = 0;

const FIRST: u8 = 1;

const END: u8 = 255;

const FRAME_MOST: u32 = 7;

// The number at one of the 255 places.
#[tactic(auto, unfolding(crate::specs::Record::number_at))]
fn number_at(record: &[u8; BYTES], k: u8) -> u32
    requires { k < 255 }
    ensures { result ≡ number_at record.now k }
{
    parts::number_at(record, 2 * usize::from(k), Width::Half)
}

#[tactic(auto, unfolding(crate::specs::Record::with_number))]
fn store(record: &mut [u8; BYTES], k: u8, v: u32)
    requires { k < 255 }
    ensures { record.new ≡ with_number record.old k v }
{
    parts::store_number(record, 2 * usize::from(k), Width::Half, v);
}

// The command that the tables have, of a channel and a code.
pub(crate) fn command_at(channel: u8, command: u8) -> Option<Command>
    ensures { result ≡ command_at channel command }
{
    channel::command_of(channel::channel_of(channel), command)
}

// Whether nothing is open, or a command that the tables have.
fn is_sound(entry: u32) -> bool
    ensures { result ≡ is_sound entry }
{
    entry == 0 || command_at((entry % 0x100) as u8, (entry / 0x100 % 0x100) as u8).is_some()
}

fn are_sound(record: &[u8; BYTES]) -> bool
    ensures { result ≡ are_sound record.now first_trn many_trns }
{
    (FIRST..END).all(|trn| is_sound(number_at(record, trn)))
}

#[tactic(auto, unfolding(crate::specs::Record::is_record))]
pub(crate) fn is_record(record: &[u8; BYTES]) -> bool
    ensures { result ≡ is_record record.now }
{
    number_at(record, FRAME) <= FRAME_MOST && are_sound(record)
}

// The lowest free TRN.
pub(crate) fn free_trn(record: &[u8; BYTES]) -> Option<u8>
    ensures lowest { trn_after result ≡ free_trn record.now }
    ensures no_interrupt { IfSome result (λ trn. trn < 255) }
{
    (FIRST..END).find(|trn| number_at(record, *trn) == 0)
}

// The control of the next request, and the frame number up by one.
pub(crate) fn count(record: &mut [u8; BYTES]) -> u8
    requires { frame_number record.old ≤ 7 }
    ensures { (result ≡ 2 * frame_number record.old) × (record.new ≡ counted_up record.old) }
{
    let number = number_at(record, FRAME);
    store(record, FRAME, (number + 1) % 8);
    (2 * number) as u8
}

pub(crate) fn count_anew(record: &mut [u8; BYTES])
    ensures { record.new ≡ counted_anew record.old }
{
    store(record, FRAME, 0);
}

pub(crate) fn open(record: &mut [u8; BYTES], trn: u8, ch: u8, cmd: u8)
    requires { trn < 255 }
    ensures { record.new ≡ opened record.old trn ch cmd }
{
    store(record, trn, u32::from(ch) + 0x100 * u32::from(cmd));
}

// Whether a request to this channel is open with this TRN.
#[tactic(auto, unfolding(crate::specs::Record::is_open_to))]
fn is_open(record: &[u8; BYTES], trn: u8, ch: u8) -> bool
    ensures { result ≡ is_open_to record.now trn ch }
{
    if trn == NO_TRANSACTION || trn == INTERRUPT {
        return false;
    }
    let entry = number_at(record, trn);
    entry != 0 && entry % 0x100 == u32::from(ch)
}

// Closes the request that is open with this TRN to this channel, and gives its command.
#[tactic(auto, using(crate::proofs::Cases::open_below))]
pub(crate) fn close(record: &mut [u8; BYTES], trn: u8, ch: u8) -> Option<u8>
    ensures answer { result ≡ closing record.old trn ch }
    ensures after { record.new ≡ cond (is_open_to record.old trn ch) (closed record.old trn) record.old }
{
    if !is_open(record, trn, ch) {
        return None;
    }
    let entry = number_at(record, trn);
    store(record, trn, 0);
    Some((entry / 0x100 % 0x100) as u8)
}
