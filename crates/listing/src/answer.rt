// An output line: answer and kept number, then for answer 0 port and body.
ghost use Rattle.std.specs.Prelude.{◌≡◌, cond, [], ◌∷◌, ◌+◌, ◌*◌, ◌==◌, ◌<◌, ◌≤◌, length};
ghost use Rattle.parts.specs.Parts.{put};
ghost use Rattle.listing.specs.Characters.{hex_text};
ghost use Rattle.listing.specs.Answer.{optional, decimal, frame_text, answer_text, wrote, written};

use crate::characters;
use crate::characters::{LINE_FEED, SPACE};

// A lent buffer, and the place behind what is written so far.
#[derive(Drop)]
struct Text<'a> {
    out: &'a mut [u8],
    at: usize,
}

impl Text<'_> {
    #[tactic(auto, using(crate::proofs::Writing::put_one))]
    fn put(&mut self, b: u8)
        requires { self.old.at + 1 ≤ length self.old.out.now }
        ensures same_buffer { self.new.out.ghost_name ≡ self.old.out.ghost_name }
        ensures place { self.new.at ≡ self.old.at + length (b ∷ []) }
        ensures bytes { self.new.out.now ≡ put self.old.at (b ∷ []) self.old.out.now }
    {
        self.out[self.at] = b;
        self.at += 1;
    }

    #[tactic(auto, using(crate::proofs::Writing::nothing_put))]
    fn put_if(&mut self, wanted: bool, b: u8)
        requires { self.old.at + 1 ≤ length self.old.out.now }
        ensures same_buffer { self.new.out.ghost_name ≡ self.old.out.ghost_name }
        ensures place { self.new.at ≡ self.old.at + length (optional wanted b) }
        ensures bytes { self.new.out.now ≡ put self.old.at (optional wanted b) self.old.out.now }
    {
        if wanted {
            self.put(b);
        }
    }

    // Kept: the library writes a number to a fmt::Write, and these are lent bytes with a place.
    #[tactic(auto, using(crate::proofs::Writing::joined, crate::proofs::Writing::texts, crate::proofs::Writing::decimal_parts))]
    fn put_decimal(&mut self, n: u8)
        requires { self.old.at + 3 ≤ length self.old.out.now }
        ensures same_buffer { self.new.out.ghost_name ≡ self.old.out.ghost_name }
        ensures place { self.new.at ≡ self.old.at + length (decimal n) }
        ensures bytes { self.new.out.now ≡ put self.old.at (decimal n) self.old.out.now }
    {
        self.put_if(n >= 100, b'0' + n / 100);
        self.put_if(n >= 10, b'0' + n / 10 % 10);
        self.put(b'0' + n % 10);
    }

    #[tactic(auto, using(crate::proofs::Writing::joined, crate::proofs::Writing::texts, crate::proofs::Writing::pair_parts))]
    fn put_pair(&mut self, b: u8)
        requires { self.old.at + 2 ≤ length self.old.out.now }
        ensures same_buffer { self.new.out.ghost_name ≡ self.old.out.ghost_name }
        ensures place { self.new.at ≡ self.old.at + length (hex_text (b ∷ [])) }
        ensures bytes { self.new.out.now ≡ put self.old.at (hex_text (b ∷ [])) self.old.out.now }
    {
        self.put(characters::hex_digit(b / 16));
        self.put(characters::hex_digit(b % 16));
    }

    #[tactic(auto, using(crate::proofs::Writing::joined, crate::proofs::Writing::texts, crate::proofs::Writing::hexes))]
    fn put_hex(&mut self, s: &[u8])
        requires { self.old.at + 2 * length s.now ≤ length self.old.out.now }
        ensures same_buffer { self.new.out.ghost_name ≡ self.old.out.ghost_name }
        ensures place { self.new.at ≡ self.old.at + length (hex_text s.now) }
        ensures bytes { self.new.out.now ≡ put self.old.at (hex_text s.now) self.old.out.now }
    {
        for b in s {
            self.put_pair(*b);
        }
    }

    // For answer 0, port and body.
    #[tactic(auto, using(crate::proofs::Writing::joined, crate::proofs::Writing::texts, crate::proofs::Writing::frame_parts, crate::proofs::Writing::nothing_put))]
    fn put_frame(&mut self, number: u8, port: u8, body: &[u8])
        requires { self.old.at + 5 + 2 * length body.now ≤ length self.old.out.now }
        ensures same_buffer { self.new.out.ghost_name ≡ self.old.out.ghost_name }
        ensures place { self.new.at ≡ self.old.at + length (cond (number == 0) (frame_text port body.now) []) }
        ensures bytes { self.new.out.now ≡ put self.old.at (cond (number == 0) (frame_text port body.now) []) self.old.out.now }
    {
        if number == numbers::HAS_FRAME {
            self.put(SPACE);
            self.put_decimal(port);
            self.put(SPACE);
            self.put_hex(body);
        }
    }
}

// Kept: out and at one by one: `wrote result out.new` of the contract is over them; inside, a Text holds them.
// Writes an output line from a place on, and gives the place after it.
#[tactic(auto, using(crate::proofs::Writing::joined, crate::proofs::Writing::texts, crate::proofs::Writing::answer_parts), unfolding(crate::specs::Answer::written))]
pub fn put_answer(out: &mut [u8], at: usize, number: u8, kept: u8, port: u8, body: &[u8]) -> usize
    requires at_in_bounds { at + 48 ≤ length out.old }
    requires body_len_bound { length body.now ≤ 16 }
    ensures out_after { wrote result out.new ≡ written at (answer_text number kept port body.now) out.old }
    ensures upper_bound { result ≤ at + 48 }
{
    let mut text = Text { out, at };
    text.put_decimal(number);
    text.put(SPACE);
    text.put_decimal(kept);
    text.put_frame(number, port, body);
    text.put(LINE_FEED);
    text.at
}
