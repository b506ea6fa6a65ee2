// The bench listing: what a line of text says, and an answer as a line of text; pure, on lent bytes.
#![tactic(auto)]

pub mod answer;
pub mod characters;
pub mod line;

// What a line that can be read is.
#[derive(Clone, Copy)]
pub enum Form {
    Frame,
    Completion,
    Sample,
    I2c,
    Upset,
    Back,
}
