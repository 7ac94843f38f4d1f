// A line of text as an order of the host (02 item 1): a layout, a command's name, its fields, words. What it means is `frames_main`'s.

#![tactic(auto)]

mod items;
mod names;
mod text;

pub use items::{Fields, Items, Words, has, read_items};
pub use names::{Name, read_name};
pub use text::{NONE, OTHER, Text, byte, find, number, which, words_end};

// Why a line is wrong, in the order of the texts of `frames_main::reasons`.
pub const NOTHING: usize = 1;
// With the word that was found.
pub const NO_NAME: usize = 2;

pub const NO_FIELD: usize = 3;

pub const NOT_ITS_FIELD: usize = 4;

pub const TWICE: usize = 5;

pub const LATE: usize = 6;

pub const NO_NUMBER: usize = 7;

pub const NO_WORD: usize = 8;

pub const TOO_MANY: usize = 9;

pub const NO_CRC: usize = 10;
// Without one.
pub const NO_ENDS: usize = 11;

pub const NO_ADDRESS: usize = 12;

pub const NO_COUNT: usize = 13;

pub const NOT_WRITTEN: usize = 14;
// With numbers.
pub const OUTSIDE: usize = 15;

pub const WRONG_LENGTH: usize = 16;
