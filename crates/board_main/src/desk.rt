// What is under way, and what became of the call-ups: the numbers of the night.
use crate::out::{BITS, LATE, LINE_END, NO_SHIFT, ONE, SHOWN, TWO_SHIFTS, ZERO, say, tell};
use crate::said::{BLANK, CALL, DELAYED, END, Line, SHIFT, TICK};
use std::io;

// `at` and `number`: where the next line begins, and the last one's number. `act` is what is to be done for the line in hand, whose numbers are
// `first` and `second`, with `words` words. `shift`: one is on, and `left` ticks are left to it. `oldest` is the chain's place, and `ends` counts
// the ENDs on SOUT. `bits` are asked for, and a line of them is `begun`. `due` and `slots`: number and slot of the last eight call-ups taken, by how
// many were taken before, modulo 8; of those not yet shown there are four at most, since each has a place of the queue for its VSYNC.
#[derive(Clone, Copy)]
pub struct Desk {
    pub at: usize,
    pub number: u64,
    pub act: u64,
    pub first: u64,
    pub second: u64,
    pub words: u64,
    pub shift: bool,
    pub left: u64,
    pub delay: u64,
    pub oldest: usize,
    pub ends: u64,
    pub bits: bool,
    pub begun: bool,
    pub calls: u64,
    pub taken: u64,
    pub bad: u64,
    pub ticks: u64,
    pub due: [u64; 8],
    pub slots: [u64; 8],
}

// Acts beside those named as their lines: a call-up that has waited, and the end of the night.
pub const GIVE: u64 = 10;

pub const OVER: u64 = 11;

pub fn clean(bits: bool) -> Desk {
    Desk {
        at: 0,
        number: 0,
        act: BLANK,
        first: 0,
        second: 0,
        words: 0,
        shift: false,
        left: 0,
        delay: 0,
        oldest: 0,
        ends: 0,
        bits: bits,
        begun: false,
        calls: 0,
        taken: 0,
        bad: 0,
        ticks: 0,
        due: [0; 8],
        slots: [0; 8],
    }
}

// Before each line that is printed: the bits since the last one end.
pub fn fresh(rt: &impl Print, desk: Desk) -> io::Result<Desk> {
    if desk.begun {
        say(rt, LINE_END)?;
    }
    let mut after = desk;
    after.begun = false;
    Ok(after)
}

// Why a line does not stand where it may, or 0.
pub fn misplaced(name: u64, shift: bool, ticks: u64) -> usize {
    if (name == SHIFT) & shift {
        return TWO_SHIFTS;
    }
    if (name == END) & !shift {
        return NO_SHIFT;
    }
    if (name == DELAYED) & (0 < ticks) {
        return LATE;
    }
    0
}

// A good line is in hand. A delay, a shift's beginning and no ticks ask for no act.
pub fn started(desk: Desk, line: Line) -> Desk {
    let name = line.name;
    let n = line.first;
    let mut after = desk;
    after.act = name;
    after.first = n;
    after.second = line.second;
    after.words = line.words;
    match name {
        CALL => after.calls = std::num::wrapping_add_u64(desk.calls, 1),
        TICK => if n == 0 {
            after.act = BLANK;
        },
        DELAYED => {
            after.delay = n;
            after.act = BLANK;
        }
        SHIFT => {
            after.shift = true;
            after.left = n;
            after.act = BLANK;
        }
        _ => {}
    }
    after
}

fn print_bit(rt: &impl Print, desk: Desk, bit: bool) -> io::Result<Desk> {
    if !desk.bits {
        return Ok(desk);
    }
    if !desk.begun {
        say(rt, BITS)?;
    }
    say(rt, if bit { ONE } else { ZERO })?;
    let mut after = desk;
    after.begun = true;
    Ok(after)
}

// A tick: of those that a line `tick` asks for, or of the shift's.
pub fn ticked(rt: &impl Print, desk: Desk, oldest: usize, bit: bool) -> io::Result<Desk> {
    let mut after = print_bit(rt, desk, bit)?;
    after.oldest = oldest;
    after.ticks = std::num::wrapping_add_u64(desk.ticks, 1);
    if desk.act != TICK {
        after.left = std::num::wrapping_sub_u64(desk.left, 1);
        return Ok(after);
    }
    let more = std::num::wrapping_sub_u64(desk.first, 1);
    after.first = more;
    if more == 0 {
        after.act = BLANK;
    }
    Ok(after)
}

// An END on SOUT. Two commands a call-up, in the order of taking: with the second it is shown.
pub fn ended(rt: &impl Print, desk: Desk) -> io::Result<Desk> {
    let ends = std::num::wrapping_add_u64(desk.ends, 1);
    let place = (std::num::wrapping_sub_u64(ends / 2, 1) % 8) as usize;
    let mut after = desk;
    if ends % 2 == 0 {
        after = fresh(rt, desk)?;
        tell(
            rt,
            SHOWN,
            desk.ticks,
            desk.due[place],
            desk.slots[place],
            0,
            0,
        )?;
    }
    after.ends = ends;
    Ok(after)
}

// Nothing to wait for any more: a call-up is given, a shift is over.
pub fn met(desk: Desk) -> Desk {
    let mut after = desk;
    if desk.act == CALL {
        after.act = GIVE;
        return after;
    }
    after.act = BLANK;
    after.shift = false;
    after
}

// A call-up that is taken goes out behind those before it.
pub fn taken(desk: Desk) -> Desk {
    let place = (desk.taken % 8) as usize;
    let mut after = desk;
    after.due[place] = desk.calls;
    after.slots[place] = desk.first;
    after.taken = std::num::wrapping_add_u64(desk.taken, 1);
    after
}
