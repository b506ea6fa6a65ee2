// What a line says: its form, and the fields of each form.
ghost use Rattle.std.specs.Prelude.{◌≡◌, ◌≤◌, length, drop};
ghost use Rattle.listing.specs.Characters.{pair_bytes};
ghost use Rattle.listing.specs.Line.{is_frame, is_completion, is_sample, is_rest, is_i2c, form_of, top_first, i2c_channel, i2c_acknowledge, i2c_line_low};

use crate::characters::{SPACE, are_pairs};
use crate::{Form, characters};

#[tactic(auto, unfolding(crate::specs::Line::is_frame))]
fn is_frame(l: &[u8]) -> bool
    ensures { result ≡ is_frame l.now }
{
    match l {
        [b'F', SPACE, b'0'..=b'9', SPACE, body @ ..] => (6..=80).contains(&l.len())
            && are_pairs(body),
        _ => false,
    }
}

#[tactic(auto, unfolding(crate::specs::Line::is_completion))]
fn is_completion(l: &[u8]) -> bool
    ensures { result ≡ is_completion l.now }
{
    match l {
        [b'S', SPACE, received @ ..] => received.len() == 32 && are_pairs(received),
        _ => false,
    }
}

#[tactic(auto, unfolding(crate::specs::Line::is_sample))]
fn is_sample(l: &[u8]) -> bool
    ensures { result ≡ is_sample l.now }
{
    match l {
        [b'P', SPACE, levels @ .., SPACE, b'0'..=b'9'] => levels.len() == 8 && are_pairs(levels),
        _ => false,
    }
}

// What may stand behind line-low: nothing, or a space and pairs.
#[tactic(auto, unfolding(crate::specs::Line::is_rest))]
fn is_rest(t: &[u8]) -> bool
    ensures { result ≡ is_rest t.now }
{
    match t {
        [] => true,
        [SPACE, received @ ..] => are_pairs(received),
        _ => false,
    }
}

#[tactic(auto, unfolding(crate::specs::Line::is_i2c))]
fn is_i2c(l: &[u8]) -> bool
    ensures { result ≡ is_i2c l.now }
{
    match l {
        [
            b'I',
            SPACE,
            _,
            _,
            SPACE,
            b'0' | b'1',
            SPACE,
            b'0' | b'1',
            rest @ ..,
        ] => { l.len() <= 80 && are_pairs(&l[2..4]) && is_rest(rest) }
        _ => false,
    }
}

// What a line is; every line is at most one of the forms.
#[tactic(auto, unfolding(crate::specs::Line::form_of, crate::specs::Line::is_letter))]
pub fn form_of(l: &[u8]) -> Option<Form>
    ensures { result ≡ form_of l.now }
{
    match l {
        _ if is_frame(l) => Some(Form::Frame),
        _ if is_completion(l) => Some(Form::Completion),
        _ if is_sample(l) => Some(Form::Sample),
        _ if is_i2c(l) => Some(Form::I2c),
        [b'U'] => Some(Form::Upset),
        [b'B'] => Some(Form::Back),
        _ => None,
    }
}

// The levels of a sample's line, the top digit first.
pub fn levels(l: &[u8]) -> u32
    requires { length l.now ≡ 12 }
    ensures { result ≡ top_first (pair_bytes 4 (drop 2 l.now)) }
{
    let mut b = [0u8; 4];
    characters::load_pairs(&l[2..], &mut b);
    u32::from_be_bytes(b)
}

// The channel of an I2C completion's line.
pub fn i2c_channel(l: &[u8]) -> u8
    requires { 8 ≤ length l.now }
    ensures { result ≡ i2c_channel l.now }
{
    characters::pair_at(l, 2)
}

// Whether an I2C completion's line says acknowledged. Kept: beside i2c_line_low, one line each.
pub fn i2c_acknowledge(l: &[u8]) -> bool
    requires { 8 ≤ length l.now }
    ensures { result ≡ i2c_acknowledge l.now }
{
    l[5] == b'1'
}

// Whether it says that the bus line was low.
pub fn i2c_line_low(l: &[u8]) -> bool
    requires { 8 ≤ length l.now }
    ensures { result ≡ i2c_line_low l.now }
{
    l[7] == b'1'
}
