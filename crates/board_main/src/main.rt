// The call-up board for the shift (02 item 13): reads a night as text and prints what became of each call-up, and the panel (docs/BOARD.md). Taking,
// refusing and waiting are `board`'s and `chain`'s.

#![tactic(auto)]

mod acts;
mod desk;
mod out;
mod panel;
mod said;
mod told;

use acts::Night;
use desk::{Desk, OVER};
use order_lines::Text;
use said::{BLANK, END};
use std::io;
use std::io::Read;

// The next line, once the one in hand is done. The end of the text ends a shift too.
fn next(
    rt: &impl Print,
    desk: Desk,
    text: &Text,
    size: usize,
    words: &mut [u16],
) -> io::Result<Desk> {
    let at = desk.at;
    let mut after = desk;
    if desk.act != BLANK {
        return Ok(desk);
    }
    if size <= at {
        after.act = if desk.shift { END } else { OVER };
        return Ok(after);
    }
    let end = order_lines::find(text, at, size, b'\n');
    let line = said::read(text, at, order_lines::words_end(text, at, end), words);
    after.at = std::num::wrapping_add_usize(end, 1);
    after.number = std::num::wrapping_add_u64(desk.number, 1);
    if line.wrong != 0 {
        return told::bad(rt, after, text, line.wrong, line.from, line.to);
    }
    let wrong = desk::misplaced(line.name, desk.shift, desk.ticks);
    if wrong != 0 {
        return told::bad(rt, after, text, wrong, 0, 0);
    }
    Ok(desk::started(after, line))
}

fn is_over(night: Night) -> bool {
    night.desk.act == OVER
}

fn read_on(
    rt: &impl Print,
    night: Night,
    text: &Text,
    size: usize,
    words: &mut [u16],
) -> io::Result<Night> {
    let desk = next(rt, night.desk, text, size, words)?;
    let mut after = night;
    after.desk = desk;
    Ok(after)
}

// A proved loop has to end: it counts up to a number of acts that no text of 1 MiB asks for.
fn walk(rt: &impl Print, text: &Text, size: usize, bits: bool) -> io::Result<Night> {
    let mut tx = [0u16; 512];
    let mut rx = [0u16; 256];
    let mut chain = [true; 4096];
    let mut words = [0u16; 31];
    let mut night = acts::begin(bits);
    for _ in 0..u64::MAX {
        night = read_on(rt, night, text, size, &mut words)?;
        if is_over(night) {
            return Ok(night);
        }
        night = acts::act(rt, night, &words, &mut tx, &mut rx, &mut chain)?;
    }
    Ok(night)
}

// How many bytes there are.
fn text_read(input: &mut impl Read, text: &mut Text) -> io::Result<usize> {
    console::read_full(input, text)
}

// The night, and what stands at its end.
fn told_whole(rt: &impl Print, text: &Text, size: usize, bits: bool) -> io::Result<()> {
    let night = walk(rt, text, size, bits)?;
    panel::tell_end(rt, night)
}

fn main(rt: HostRuntime) -> io::Result<()> {
    let mut text = [0u8; 1048577];
    let errors = rt.stderr();
    let n = match text_read(&mut rt.stdin(), &mut text) {
        Ok(n) => n,
        Err(error) => return console::fail(&errors, rt.alloc(), b"standard input", &error),
    };
    if 1048576 < n {
        return errors.write_all(b"expected at most 1 MiB (1048576 bytes) of text, found more\n");
    }
    let bits = console::argument(&rt, 1, &mut [0u8; 16]).is_some();
    match told_whole(&rt, &text, n, bits) {
        Ok(()) => Ok(()),
        Err(error) => console::fail(&errors, rt.alloc(), b"standard output", &error),
    }
}
