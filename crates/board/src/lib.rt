// The call-up board (02, item 13): forty slots, and call-ups given to the bridge by its published `step`, in frames of item 1's writer.

#![tactic(auto)]

ghost use Rattle.std.specs.Prelude.{◌≡◌, ◌≤◌, length};
ghost use Rattle.command.specs.Layouts.{start_by, layouts};
ghost use Rattle.registers.specs.Spictrl.{is_xmodem};
ghost use Rattle.frames.specs.Frames.{out as wrote, written_of};
ghost use Rattle.frames.specs.declared.Order.TheVariants.{FwdWrCrc};
ghost use Rattle.bridge.specs.Runs.{end_of};
ghost use Rattle.callup.specs.CallUp.{given, call_up_to};
ghost use Rattle.frames_found.specs.Found.{frame_in};
ghost use Rattle.board.specs.Board.{called, slot_of, empty_slot, empty_board, taken_of, call_up_of};
ghost use Rattle.board.specs.Moments.{config};

use events::Event;
use frames::{Order, WriteError};
use registers::Regs;
use state::Bridge;
use verdict::Refusal;

// What a slot shows: reading and words of its last call-up.
// Stays: words with their count beside them (a): a board is a plain value of fixed size, with no heap (`Board.slot_of`).
#[derive(Clone, Copy, PartialEq, Eq)]
pub struct Slot {
    pub reading: u16,
    pub count: u16,
    pub words: [u16; 30],
}

#[derive(Clone, Copy, PartialEq, Eq)]
pub struct Board {
    pub slots: [Slot; 40],
}

// What a call-up leaves.
#[derive(Clone, Copy)]
pub struct Called {
    pub board: Board,
    pub bridge: Bridge,
    pub verdict: Result<(), Refusal>,
}

// Before the first call-up.
pub fn empty() -> Board
    ensures { result ≡ empty_board }
{
    Board {
        slots: [Slot {
            reading: 0,
            count: 0,
            words: [0; 30],
        }; 40],
    }
}

// A frame's words, and chip select released.
pub fn give(bridge: Bridge, tx: &mut [u16], rx: &mut [u16], frame: &[u16]) -> Bridge
    ensures { config result tx.new rx.new ≡ end_of layouts (config bridge tx.old rx.old) (given frame.now) }
{
    let mut b = bridge;
    for word in frame {
        b = bridge::step(b, tx, rx, Event::Word(*word)).state;
    }
    bridge::step(b, tx, rx, Event::Release).state
}

// The frame of FWD_WR_CRC with these words, written for such registers.
fn write(regs: Regs, words: &[u16], buffer: &mut [u16]) -> Result<u16, WriteError>
    ensures { wrote result buffer.new ≡ written_of regs.layout (start_by (is_xmodem regs)) FwdWrCrc words.now buffer.old }
{
    let start = command::crc_start(registers::is_xmodem(regs));
    frames::write(regs.layout, start, Order::FwdWrCrc, words, buffer)
}

// Such a frame given.
fn forward(bridge: Bridge, tx: &mut [u16], rx: &mut [u16], regs: Regs, words: &[u16]) -> Bridge
    requires in_bounds { 1 ≤ length words.now }
    requires words_len_bound { length words.now ≤ 30 }
    ensures { config result tx.new rx.new ≡ end_of layouts (config bridge tx.old rx.old) (given (frame_in regs FwdWrCrc words.now)) }
{
    let mut buffer: [u16; 32] = [0; 32];
    let _ = write(regs, words, &mut buffer);
    let n = words.len() + 2;
    give(bridge, tx, rx, &buffer[..n])
}

// A call-up's words, and then VSYNC: both frames for the registers as they stand, which a forward leaves alone.
fn forward_both(bridge: Bridge, tx: &mut [u16], rx: &mut [u16], words: &[u16]) -> Bridge
    requires in_bounds { 1 ≤ length words.now }
    requires words_len_bound { length words.now ≤ 30 }
    ensures { config result tx.new rx.new ≡ end_of layouts (config bridge tx.old rx.old) (call_up_to (config bridge tx.old rx.old) words.now) }
{
    let regs = bridge.control.regs;
    let after = forward(bridge, tx, rx, regs, words);
    forward(after, tx, rx, regs, &[0xAAF0])
}

fn slot_of(reading: u16, words: &[u16]) -> Slot
    requires { length words.now ≤ 30 }
    ensures { result ≡ slot_of reading words.now }
{
    let mut kept: [u16; 30] = [0; 30];
    kept[..words.len()].copy_from_slice(words);
    Slot {
        reading,
        count: words.len() as u16,
        words: kept,
    }
}

fn taken(
    board: Board,
    bridge: Bridge,
    tx: &mut [u16],
    rx: &mut [u16],
    slot: u16,
    reading: u16,
    words: &[u16],
) -> Called
    requires slot_bound { slot ≤ 39 }
    requires in_bounds { 1 ≤ length words.now }
    requires words_len_bound { length words.now ≤ 30 }
    ensures { called result tx.new rx.new ≡ taken_of board (config bridge tx.old rx.old) slot reading words.now }
{
    let bridge = forward_both(bridge, tx, rx, words);
    let mut board = board;
    board.slots[slot as usize] = slot_of(reading, words);
    Called {
        board,
        bridge,
        verdict: Ok(()),
    }
}

// A call-up. Refused, it leaves board, bridge and stores as they were lent.
pub fn call_up(
    board: Board,
    bridge: Bridge,
    tx: &mut [u16],
    rx: &mut [u16],
    slot: u16,
    reading: u16,
    words: &[u16],
) -> Called
    ensures { called result tx.new rx.new ≡ call_up_of board (config bridge tx.old rx.old) slot reading words.now }
{
    let verdict = verdict::judge(bridge, tx.len(), rx.len(), slot, words.len());
    if verdict.is_ok() {
        return taken(board, bridge, tx, rx, slot, reading, words);
    }
    Called {
        board,
        bridge,
        verdict,
    }
}
