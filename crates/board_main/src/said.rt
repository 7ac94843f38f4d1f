// What a line of the night's text says (docs/BOARD.md).
use crate::out::{DELAY, MORE, NAME, READING, SLOT, TICKS, WORD};
use order_lines::{NONE, OTHER, Text, find, number, which};

// The names of lines, in the order of the list in `named`.
pub const CALL: u64 = 0;

pub const TICK: u64 = 1;

pub const CLOCK: u64 = 2;

pub const CLEAR: u64 = 3;

pub const FORCE: u64 = 4;

pub const EXIT: u64 = 5;

pub const DELAYED: u64 = 6;

pub const SHIFT: u64 = 7;

pub const END: u64 = 8;
// None of them: a blank line.
pub const BLANK: u64 = 9;

// A word of a line, or more of them: its value, and where it ends. Where one is wrong, why (0: it is not), and where it stands.
#[derive(Clone, Copy)]
struct Item {
    value: u64,
    wrong: usize,
    from: usize,
    to: usize,
}

// A line: its name, its numbers, how many words it has, and what is wrong, as with an item.
#[derive(Clone, Copy)]
pub struct Line {
    pub name: u64,
    pub first: u64,
    pub second: u64,
    pub words: u64,
    pub wrong: usize,
    pub from: usize,
    pub to: usize,
}

fn made(value: u64, wrong: usize, from: usize, to: usize) -> Item {
    Item {
        value: value,
        wrong: wrong,
        from: from,
        to: to,
    }
}

fn named(text: &Text, start: usize, end: usize) -> Item {
    let from = find(text, start, end, OTHER);
    let to = find(text, from, end, b' ');
    if end <= from {
        return made(BLANK, 0, from, to);
    }
    let name = which(
        b"call tick clock clear force exit delay shift end ",
        text,
        from,
        to,
    );
    if 9 <= name {
        return made(BLANK, NAME, from, to);
    }
    made(name as u64, 0, from, to)
}

const TOO_HIGH: u64 = u64::MAX;

// The decimal number that stands there. Thousands are read apart, since a number of `order_lines` has sixteen bits.
fn decimal(text: &Text, from: usize, to: usize) -> u64 {
    let mut thousands: u32 = 0;
    let mut rest = from;
    if 3 < to {
        if from < to - 3 {
            rest = to - 3;
            thousands = number(text, from, rest, 10);
        }
    }
    let ones = number(text, rest, to, 10);
    if NONE <= thousands {
        return TOO_HIGH;
    }
    if NONE <= ones {
        return TOO_HIGH;
    }
    (thousands * 1000 + ones) as u64
}

// The kinds of a line's numbers, by the reasons for which they are wrong; 0 where none is due.
fn first(name: u64) -> usize {
    match name {
        CALL => SLOT,
        TICK | SHIFT => TICKS,
        CLOCK => READING,
        DELAYED => DELAY,
        _ => 0,
    }
}

fn second(name: u64) -> usize {
    if name == CALL { READING } else { 0 }
}

fn most(kind: usize) -> u64 {
    match kind {
        TICKS => 1000000,
        DELAY => 4096,
        _ => 65535,
    }
}

// The number behind an item, where one is due.
fn numeral(text: &Text, before: Item, end: usize, kind: usize) -> Item {
    if (before.wrong != 0) | (kind == 0) {
        return before;
    }
    let from = find(text, before.to, end, OTHER);
    let to = find(text, from, end, b' ');
    let value = decimal(text, from, to);
    if most(kind) < value {
        return made(0, kind, from, to);
    }
    made(value, 0, from, to)
}

// Words beyond those that there is room for are counted, and not kept.
fn keep(words: &mut [u16], count: u64, word: u32) {
    let at = count as usize;
    if at < words.len() {
        words[at] = (word % NONE) as u16;
    }
}

// The words behind an item: how many. Only a call-up has some.
fn rest(text: &Text, before: Item, end: usize, kind: usize, words: &mut [u16]) -> Item {
    if before.wrong != 0 {
        return before;
    }
    let mut count: u64 = 0;
    let mut at = find(text, before.to, end, OTHER);
    while at < end {
        let to = find(text, at + 1, end, b' ');
        let word = number(text, at, to, 16);
        if (kind == MORE) | (to - at != 4) | (word == NONE) {
            return made(0, kind, at, to);
        }
        keep(words, count, word);
        count = std::num::wrapping_add_u64(count, 1);
        at = find(text, to, end, OTHER);
    }
    made(count, 0, at, end)
}

// The words of a call-up are kept.
pub fn read(text: &Text, start: usize, end: usize, words: &mut [u16]) -> Line {
    let name = named(text, start, end);
    let one = numeral(text, name, end, first(name.value));
    let two = numeral(text, one, end, second(name.value));
    let kind = if name.value == CALL { WORD } else { MORE };
    let last = rest(text, two, end, kind, words);
    Line {
        name: name.value,
        first: one.value,
        second: two.value,
        words: last.value,
        wrong: last.wrong,
        from: last.from,
        to: last.to,
    }
}
