// What is told of a call-up, and of a bad line.
ghost use Rattle.std.specs.Prelude.{◌≤◌};

use crate::desk::{Desk, fresh};
use crate::out::{
    BROKEN_RECORD, CALL_UP, FAULT, IN_FAILSAFE, IN_INIT, MORE, NO_ROOM, NO_SLOT, NOTHING,
    OPEN_FRAME, POR, QUOTE, TAKEN, UNQUOTE, WRONG_LENGTH, WRONG_STORES, print, say, tell,
};
use order_lines::Text;
use registers::{Control, Mode};
use std::io;
use verdict::Refusal;

// The first of the reasons of 34 that is so.
fn not_ready(control: Control) -> usize {
    let flags = control.flags;
    let mode = control.mode;
    match mode {
        Mode::Init => IN_INIT,
        Mode::Failsafe => IN_FAILSAFE,
        Mode::Normal => if flags.por {
            POR
        } else if registers::blocking(flags) {
            FAULT
        } else {
            OPEN_FRAME
        },
    }
}

pub fn text_of(verdict: Result<(), Refusal>, control: Control) -> usize {
    match verdict {
        Ok(()) => TAKEN,
        Err(Refusal::WrongStores) => WRONG_STORES,
        Err(Refusal::BrokenRecord) => BROKEN_RECORD,
        Err(Refusal::NoSlot) => NO_SLOT,
        Err(Refusal::WrongLength) => WRONG_LENGTH,
        Err(Refusal::NotReady) => not_ready(control),
        Err(Refusal::NoRoom) => NO_ROOM,
    }
}

// A call-up: the text of its verdict with that one's number, and what is in use of the queue and of TX.
pub fn tell_call_up(
    rt: &impl Print,
    desk: Desk,
    text: usize,
    refusal: u16,
    places: u16,
    words: u16,
) -> io::Result<Desk> {
    let after = fresh(rt, desk)?;
    tell(
        rt,
        CALL_UP,
        desk.ticks,
        desk.calls,
        desk.first,
        desk.second,
        desk.words,
    )?;
    tell(
        rt,
        text,
        refusal as u64,
        desk.first,
        places as u64,
        words as u64,
        0,
    )?;
    Ok(after)
}

// The end of a word, or of its first 40 bytes.
fn cut(from: usize, to: usize) -> usize
    requires { from ≤ to }
    ensures lower_bound { from ≤ result }
    ensures upper_bound { result ≤ to }
{
    if 40 < to - from {
        return from + 40;
    }
    to
}

fn found(rt: &impl Print, text: &Text, from: usize, to: usize) -> io::Result<()> {
    let all: &[u8] = text;
    if to <= from {
        return say(rt, NOTHING);
    }
    if to <= all.len() {
        let end = cut(from, to);
        say(rt, QUOTE)?;
        print(rt, &all[from..end])?;
        say(rt, UNQUOTE)?;
    }
    Ok(())
}

pub fn bad(
    rt: &impl Print,
    desk: Desk,
    text: &Text,
    reason: usize,
    from: usize,
    to: usize,
) -> io::Result<Desk> {
    let mut after = fresh(rt, desk)?;
    after.bad = std::num::wrapping_add_u64(desk.bad, 1);
    tell(rt, reason, desk.number, 0, 0, 0, 0)?;
    if reason <= MORE {
        found(rt, text, from, to)?;
    }
    Ok(after)
}
