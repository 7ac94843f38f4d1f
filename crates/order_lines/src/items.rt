// What stands behind a command's name: fields, then words.
ghost use Rattle.std.specs.Prelude.{◌<◌, ◌≤◌};

use crate::names::Name;
use crate::text::{NONE, OTHER, Text, find, number, which};
use crate::{LATE, NO_FIELD, NO_NUMBER, NO_WORD, NOT_ITS_FIELD, TOO_MANY, TWICE};

// ends, address, count; NONE where it is not told.
pub type Fields = [u32; 3];

// The most data words of a command (01 Frames, row 3).
pub type Words = [u16; 4096];

// How many words were read, where the fields end, where the last item stands (the name where there is none), and why no more could be read: 0, or
// a reason.
#[derive(Clone, Copy)]
pub struct Items {
    pub words: usize,
    pub fields: usize,
    pub from: usize,
    pub to: usize,
    pub wrong: usize,
}

// Whether the row of a command has a field (01 Frames, "Layout (ours)").
pub fn has(command: usize, field: usize) -> bool {
    match field {
        0 => (4 <= command) & (command <= 7),
        1 => (10 <= command) & (command <= 13),
        _ => (command == 8) | (command == 9) | (command == 12) | (command == 13),
    }
}

// 0, or a reason.
fn field(
    text: &Text,
    from: usize,
    equals: usize,
    to: usize,
    command: usize,
    fields: &mut Fields,
) -> usize
    requires { equals < to }
{
    let place = which(b"ends address count ", text, from, equals);
    if 3 <= place {
        return NO_FIELD;
    }
    if !has(command, place) {
        return NOT_ITS_FIELD;
    }
    if fields[place] != NONE {
        return TWICE;
    }
    let value = number(text, equals + 1, to, 10);
    if value == NONE {
        return NO_NUMBER;
    }
    fields[place] = value;
    0
}

// How many words it is, 0 or 1, or a reason.
fn item(
    text: &Text,
    from: usize,
    to: usize,
    command: usize,
    count: usize,
    fields: &mut Fields,
    words: &mut Words,
) -> usize
    requires { from ≤ to }
{
    let equals = find(text, from, to, b'=');
    if equals < to {
        if 0 < count {
            return LATE;
        }
        return field(text, from, equals, to, command, fields);
    }
    let value = number(text, from, to, 16);
    if to - from != 4 {
        return NO_WORD;
    }
    if value == NONE {
        return NO_WORD;
    }
    if 4096 <= count {
        return TOO_MANY;
    }
    words[count] = (value % NONE) as u16;
    1
}

fn so_far(words: usize, fields: usize, from: usize, to: usize, wrong: usize) -> Items {
    Items {
        words: words,
        fields: fields,
        from: from,
        to: to,
        wrong: wrong,
    }
}

// Nothing is read behind a name that is no command's.
pub fn read_items(
    text: &Text,
    name: Name,
    end: usize,
    fields: &mut Fields,
    words: &mut Words,
) -> Items {
    let command = name.command;
    let mut count: usize = 0;
    let mut fields_end = name.to;
    let mut from = name.from;
    let mut to = name.to;
    let mut at = find(text, to, end, OTHER);
    if 15 <= command {
        at = end;
    }
    while at < end {
        from = at;
        to = find(text, at + 1, end, b' ');
        let got = item(text, from, to, command, count, fields, words);
        if 1 < got {
            return so_far(count, fields_end, from, to, got);
        }
        if got == 0 {
            fields_end = to;
        }
        count = count + got;
        at = find(text, to, end, OTHER);
    }
    so_far(count, fields_end, from, to, 0)
}
