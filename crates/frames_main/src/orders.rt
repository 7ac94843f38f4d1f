// A line's order, once it is read: its frame or its answer, as `frames` has it.
ghost use Rattle.std.specs.Prelude.{◌≤◌, length};

use crate::out::print;
use crate::reasons::due;
use frames::{Order, Told};
use layout::Layout;
use order_lines::{
    Fields, Items, NO_ADDRESS, NO_COUNT, NO_CRC, NO_ENDS, NO_NAME, NONE, NOT_WRITTEN, NOTHING,
    Name, OUTSIDE, TOO_MANY, WRONG_LENGTH, Words, has,
};

// 0, or which field is not told.
fn lacking(command: usize, fields: &Fields) -> usize {
    if has(command, 0) & (fields[0] == NONE) {
        return NO_ENDS;
    }
    if has(command, 1) & (fields[1] == NONE) {
        return NO_ADDRESS;
    }
    if has(command, 2) & (fields[2] == NONE) {
        return NO_COUNT;
    }
    0
}

fn layout_of(number: usize) -> Layout {
    match number {
        0 => Layout::Ours,
        _ => Layout::Makers,
    }
}

// Where a line's CRC starts.
fn start_of(number: usize) -> u16 {
    command::crc_start(number == 2)
}

// 0, or why there is no frame. 4,098 words are room for any.
fn framed(rt: &impl Print, layout: usize, order: Order, words: &[u16], shown: bool) -> usize {
    let mut frame = [0u16; 4098];
    let start = start_of(layout);
    match frames::write(layout_of(layout), start, order, words, &mut frame) {
        Ok(length) => {
            let n = length as usize;
            if 4098 < n {
                return NOT_WRITTEN;
            }
            print(rt, b"", &frame[0..n], 1, shown)
        }
        Err(_) => OUTSIDE,
    }
}

// Whether the library has a frame of an order with so many words: limits know neither layout nor CRC.
fn fits(order: Order, count: usize) -> bool
    requires { count ≤ 1 }
{
    let word = [0u16; 1];
    let mut frame = [0u16; 3];
    frames::write(Layout::Ours, 0, order, &word[0..count], &mut frame).is_ok()
}

// Why an answer is refused. Every order within its limits has a frame with no word or with one.
fn refused(order: Order, right_length: bool) -> usize {
    if !(fits(order, 0) | fits(order, 1)) {
        return OUTSIDE;
    }
    if right_length { NO_CRC } else { WRONG_LENGTH }
}

// 0, or why it is no answer.
fn answered(
    rt: &impl Print,
    layout: usize,
    order: Order,
    due: u64,
    words: &[u16],
    shown: bool,
) -> usize
    requires { length words.now ≤ 4096 }
{
    match frames::read_answer(start_of(layout), order, words) {
        Some(Told::Status(word)) => {
            let status = [word];
            print(rt, b"STATUS", &status, 0, shown)
        }
        Some(Told::Data(count)) => {
            let n = count as usize;
            if words.len() < n {
                return NOT_WRITTEN;
            }
            print(rt, b"data", &words[0..n], 0, shown)
        }
        None => refused(order, due == words.len() as u64),
    }
}

// 0, or why there is neither frame nor answer. They are printed where asked. A field that is not told is 0 to the library.
pub fn done(
    rt: &impl Print,
    name: Name,
    items: Items,
    fields: &Fields,
    words: &Words,
    shown: bool,
) -> usize {
    if items.wrong != 0 {
        return items.wrong;
    }
    let lacking = lacking(name.command, fields);
    if lacking != 0 {
        return lacking;
    }
    let n = items.words;
    if 4096 < n {
        return TOO_MANY;
    }
    let all: &[u16] = words;
    let ends = (fields[0] % NONE) as u16;
    let address = (fields[1] % NONE) as u16;
    let count = (fields[2] % NONE) as u16;
    let layout = name.layout;
    match frames::order_of((name.command % 16) as u16, ends, address, count) {
        None => if name.from < name.to {
            NO_NAME
        } else {
            NOTHING
        },
        Some(order) => if name.answer {
            let due = due(name.command, fields[2]);
            answered(rt, layout, order, due, &all[0..n], shown)
        } else {
            framed(rt, layout, order, &all[0..n], shown)
        },
    }
}
