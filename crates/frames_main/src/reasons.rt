// Why a line is wrong, told to standard error. A reason is a number from 1 on.
ghost use Rattle.std.specs.Prelude.{◌≤◌, length};

use order_lines::{Items, NO_CRC, NO_NAME, Name, OUTSIDE, Text, WRONG_LENGTH, byte, has};
use std::io;

pub fn print(errors: &impl Print, text: &[u8]) -> io::Result<()> {
    errors.write_all(text)
}

fn tell(errors: &impl Print, number: u64, text: &[u8]) -> io::Result<()> {
    print!(errors; "{number}")?;
    print(errors, text)
}

fn printable(byte: u8) -> u8 {
    match byte {
        b' '..=b'~' => byte,
        _ => b'?',
    }
}

// What stands there, its first 40 bytes.
fn show(errors: &impl Print, text: &Text, from: usize, to: usize) -> io::Result<()> {
    for n in 0..40usize {
        let at = std::num::wrapping_add_usize(from, n);
        if to <= at {
            return Ok(());
        }
        print(errors, &[printable(byte(text, at))])?;
    }
    Ok(())
}

fn line_end(list: &[u8], from: usize) -> usize
    requires { from ≤ length list.now }
    ensures lower_bound { from ≤ result }
    ensures upper_bound { result ≤ length list.now }
{
    let mut i = from;
    while i < list.len() {
        if list[i] == b'\n' {
            return i;
        }
        i = i + 1;
    }
    i
}

// The line of this number, from 0 on.
fn print_line(errors: &impl Print, list: &[u8], number: usize) -> io::Result<()> {
    let mut left = number;
    let mut from: usize = 0;
    let mut to = line_end(list, 0);
    while 0 < left {
        if list.len() <= to {
            return Ok(());
        }
        from = to + 1;
        to = line_end(list, from);
        left = left - 1;
    }
    print(errors, &list[from..to])
}

// The order's own fields stand before it. The words of an answer are not its order's.
fn tell_outside(errors: &impl Print, command: usize, answer: bool, words: u64) -> io::Result<()> {
    print(errors, b"expected ")?;
    print_line(
        errors,
        b"\n\n1 to 512 words\n1 to 4096 words\nends 0 to 127, 0 to 31 words\nends 0 to 127, 0 to 31 words\nends 0 to 127, 1 to 32 words\nends 0 to 127, 1 to 32 words\ncount 1 to 256, no words\ncount 1 to 256, no words\naddress 0 to 11, 1 to 12 words, address + words at most 12\naddress 0 to 11, 1 to 12 words, address + words at most 12\naddress 0 to 11, count 1 to 12, address + count at most 12, no words\naddress 0 to 11, count 1 to 12, address + count at most 12, no words\nno words",
        command,
    )?;
    if answer {
        print(errors, b", found an order outside these limits")
    } else if words == 1 {
        print(errors, b", found 1 word with these fields")
    } else {
        print(errors, b", found ")?;
        tell(errors, words, b" words with these fields")
    }
}

// The words that an answer has: STATUS or data, and their CRC (01 Frames).
pub fn due(command: usize, count: u32) -> u64 {
    if has(command, 2) {
        return count as u64 + 1;
    }
    2
}

fn tell_length(errors: &impl Print, due: u64, found: u64) -> io::Result<()> {
    print(errors, b"expected an answer of ")?;
    tell(
        errors,
        due,
        b" words, and no data words of the order; found ",
    )?;
    tell(errors, found, b"")
}

// A line for a line: with the command and its fields, as far as they could be read.
pub fn told(
    errors: &impl Print,
    text: &Text,
    line: u64,
    name: Name,
    items: Items,
    reason: usize,
    due: u64,
) -> io::Result<()> {
    print(errors, b"line ")?;
    tell(errors, line, b": ")?;
    if NO_NAME < reason {
        show(errors, text, name.from, items.fields)?;
        print(errors, b": ")?;
    }
    let words = items.words as u64;
    match reason {
        OUTSIDE => tell_outside(errors, name.command, name.answer, words),
        WRONG_LENGTH => tell_length(errors, due, words),
        _ => print_line(
            errors,
            b"\nexpected a command's name behind answer, makers or xmodem, found nothing\nexpected a command's name in capitals, such as FWD_WR_CRC, or one behind answer, makers or xmodem, found \nexpected a field ends=, address= or count=, found \nexpected no such field in this command, found \nexpected each field once, found again \nexpected fields before the words, found behind a word \nexpected a decimal number from 0 to 65535, found \nexpected four hex digits, found \nexpected at most 4096 words, which is the most of any order, found one more, \nexpected the CRC of the words before it, found \nexpected the field ends=, found no such field\nexpected the field address=, found no such field\nexpected the field count=, found no such field\nthe words cannot be written to standard output",
            reason,
        ),
    }?;
    if (NO_NAME <= reason) & (reason <= NO_CRC) {
        print(errors, b"`")?;
        show(errors, text, items.from, items.to)?;
        print(errors, b"`")?;
    }
    if (OUTSIDE <= reason) | (reason == NO_CRC) {
        print(errors, b": refusal 20")?;
    }
    print(errors, b"\n")
}
