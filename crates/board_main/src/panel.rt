// What stands at the end: the forty slots as a panel, and the sums.
use crate::acts::Night;
use crate::desk::{Desk, fresh};
use crate::out::{
    CALL_UPS, LINE_END, LINES_AND_TICKS, LOWER, LOWER_EMPTY, LOWER_FEW, LOWER_MANY, ROW, RULE,
    UPPER, UPPER_EMPTY, say, tell,
};
use board::{Board, Slot};
use std::io;

// By how many words it has.
fn text_of(count: u16, lower: bool) -> usize {
    if lower {
        return match count {
            0 => LOWER_EMPTY,
            1 => LOWER,
            2..=10 => LOWER_FEW,
            _ => LOWER_MANY,
        };
    }
    if count == 0 { UPPER_EMPTY } else { UPPER }
}

fn tell_slot(rt: &impl Print, number: u64, slot: Slot, lower: bool) -> io::Result<()> {
    let text = text_of(slot.count, lower);
    if lower {
        let more = std::num::wrapping_sub_u16(slot.count, 1);
        return tell(rt, text, slot.words[0] as u64, more as u64, 0, 0, 0);
    }
    tell(rt, text, number, slot.reading as u64, 0, 0, 0)
}

// A row's upper or lower line.
fn tell_line(rt: &impl Print, board: Board, first: usize, lower: bool) -> io::Result<()> {
    let slots = board.slots;
    for i in 0..8usize {
        let number = std::num::wrapping_add_usize(first, i) % 40;
        tell_slot(rt, number as u64, slots[number], lower)?;
    }
    say(rt, ROW)
}

fn tell_panel(rt: &impl Print, board: Board) -> io::Result<()> {
    say(rt, LINE_END)?;
    say(rt, RULE)?;
    for row in 0..5usize {
        let first = row * 8;
        tell_line(rt, board, first, false)?;
        tell_line(rt, board, first, true)?;
        say(rt, RULE)?;
    }
    Ok(())
}

fn tell_sums(rt: &impl Print, desk: Desk) -> io::Result<()> {
    let refused = std::num::wrapping_sub_u64(desk.calls, desk.taken);
    tell(
        rt,
        CALL_UPS,
        desk.calls,
        desk.taken,
        refused,
        desk.ends / 2,
        0,
    )?;
    tell(rt, LINES_AND_TICKS, desk.bad, desk.ticks, 0, 0, 0)
}

pub fn tell_end(rt: &impl Print, night: Night) -> io::Result<()> {
    let board = night.board;
    let desk = fresh(rt, night.desk)?;
    tell_panel(rt, board)?;
    tell_sums(rt, desk)
}
