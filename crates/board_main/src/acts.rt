// What is done on the bridge, its stores and the chain: one act a turn.
ghost use Rattle.std.specs.Prelude.{◌≤◌};

use crate::desk::{Desk, GIVE, ended, met, taken, ticked};
use crate::said::{BLANK, CALL, CLEAR, CLOCK, END, FORCE, TICK};
use crate::told::{tell_call_up, text_of};
use board::{Board, Called};
use chain::{Goal, Waited};
use events::Event;
use frames::Order;
use line::{Ear, Found};
use registers::Regs;
use state::Bridge;
use std::io;

// `ear` is the reader on SOUT.
#[derive(Clone, Copy)]
pub struct Night {
    pub board: Board,
    pub bridge: Bridge,
    pub ear: Ear,
    pub desk: Desk,
}

// Power-up.
pub fn begin(bits: bool) -> Night {
    let board = board::empty();
    let bridge = Bridge::good();
    let desk = crate::desk::clean(bits);
    Night {
        board: board,
        bridge: bridge,
        ear: Ear::Quiet,
        desk: desk,
    }
}

fn is_end(found: Found) -> bool {
    if let Found::End = found { true } else { false }
}

// What a tick left, and the bit that went out.
fn went(
    rt: &impl Print,
    night: Night,
    bridge: Bridge,
    oldest: usize,
    bit: bool,
) -> io::Result<Night> {
    let board = night.board;
    let ear = night.ear;
    let heard = line::hear(ear, bit);
    let found = heard.found;
    let onward = heard.ear;
    let mut desk = ticked(rt, night.desk, oldest, bit)?;
    if is_end(found) {
        desk = ended(rt, desk)?;
    }
    Ok(Night {
        board: board,
        bridge: bridge,
        ear: onward,
        desk: desk,
    })
}

fn waited(rt: &impl Print, night: Night, left: Waited) -> io::Result<Night> {
    if left.ticks == 0 {
        let desk = met(night.desk);
        let mut after = night;
        after.desk = desk;
        return Ok(after);
    }
    let bridge = left.bridge;
    went(rt, night, bridge, left.oldest, left.sout)
}

fn called(rt: &impl Print, night: Night, left: Called) -> io::Result<Night> {
    let board = left.board;
    let bridge = left.bridge;
    let verdict = left.verdict;
    let ear = night.ear;
    let control = bridge.control;
    let mut desk = tell_call_up(
        rt,
        night.desk,
        text_of(verdict, control),
        verdict::number(verdict),
        queue::in_use(bridge.sending.queue),
        bridge.sending.tx.count,
    )?;
    if verdict.is_ok() {
        desk = taken(desk);
    }
    desk.act = BLANK;
    Ok(Night {
        board: board,
        bridge: bridge,
        ear: ear,
        desk: desk,
    })
}

// What a frame or a clock reading left.
fn done(night: Night, bridge: Bridge) -> Night {
    let mut after = night;
    after.bridge = bridge;
    after.desk.act = BLANK;
    after
}

fn least(a: usize, b: usize) -> usize
    ensures { result ≤ b }
{
    if a < b {
        return a;
    }
    b
}

// STATUS is register 7, and its bit 15 clears the flags; DEVCTRL is 5, its bit 2 forces FAILSAFE and its bit 0 leaves it (01 Registers).
// The frame is written for such registers, as they stand (02 item 7).
fn frame(name: u64, regs: Regs) -> [u16; 3] {
    let layout = regs.layout;
    let start = command::crc_start(registers::is_xmodem(regs));
    let mut made = [0u16; 3];
    let address = if name == CLEAR { 7 } else { 5 };
    let word = match name {
        CLEAR => 0x8000,
        FORCE => 0x0004,
        _ => 0x0001,
    };
    let _ = frames::write(
        layout,
        start,
        Order::RegWrCrc { address: address },
        &[word],
        &mut made,
    );
    made
}

// What a wait is for: a call-up's room, or the end of a shift.
fn goal(act: u64, slot: u16, words: usize) -> Goal {
    if act == CALL {
        return Goal::Room {
            slot: slot,
            words: words,
        };
    }
    Goal::Sent
}

// A tick for a line `tick`, or for what the shift waits for: none where that is met, or where no tick is left to it. The chain has as many cells as its
// delay.
fn on_line(
    bridge: Bridge,
    desk: Desk,
    words: usize,
    tx: &mut [u16],
    rx: &mut [u16],
    chain: &mut [bool],
) -> Waited {
    let n = least(desk.delay as usize, chain.len());
    let lent = &mut chain[0..n];
    if desk.act == TICK {
        let left = chain::tick(bridge, tx, rx, lent, desk.oldest);
        let after = left.bridge;
        return Waited {
            bridge: after,
            oldest: left.oldest,
            ticks: 1,
            sout: left.sout,
        };
    }
    let goal = goal(desk.act, (desk.first % 65536) as u16, words);
    let budget = if desk.shift & (0 < desk.left) { 1 } else { 0 };
    chain::wait(bridge, tx, rx, lent, desk.oldest, goal, budget)
}

// A clock reading, or a register written.
fn by_host(bridge: Bridge, desk: Desk, tx: &mut [u16], rx: &mut [u16]) -> Bridge {
    if desk.act == CLOCK {
        let reading = (desk.first % 65536) as u16;
        let answer = bridge::step(bridge, tx, rx, Event::Clock(reading));
        let after = answer.state;
        return after;
    }
    let regs = bridge.control.regs;
    board::give(bridge, tx, rx, &frame(desk.act, regs))
}

// Of a call-up's words those that are kept are lent, which are enough to judge it.
fn call_up(night: Night, words: &[u16], tx: &mut [u16], rx: &mut [u16]) -> Called {
    let board = night.board;
    let bridge = night.bridge;
    let slot = (night.desk.first % 65536) as u16;
    let reading = (night.desk.second % 65536) as u16;
    board::call_up(board, bridge, tx, rx, slot, reading, words)
}

pub fn act(
    rt: &impl Print,
    night: Night,
    words: &[u16],
    tx: &mut [u16],
    rx: &mut [u16],
    chain: &mut [bool],
) -> io::Result<Night> {
    let bridge = night.bridge;
    let desk = night.desk;
    let act = desk.act;
    let n = least(desk.words as usize, words.len());
    match act {
        BLANK => Ok(night),
        TICK | CALL | END => waited(rt, night, on_line(bridge, desk, n, tx, rx, chain)),
        GIVE => called(rt, night, call_up(night, &words[0..n], tx, rx)),
        _ => Ok(done(night, by_host(bridge, desk, tx, rx))),
    }
}
