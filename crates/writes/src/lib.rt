// Register writes by frames (01 Frames, "REG_WR writes as words come, REG_WR_CRC at the CRC word, ascending").

#![tactic(auto)]

ghost use Rattle.std.specs.Prelude.{◌≡◌, true, false, ◌+◌, ◌<◌, ◌≤◌, take};
ghost use Rattle.base.specs.Pick.{pick};
ghost use Rattle.writes.specs.Writes.{is_quiet, busy as busy_of, with_write, write_all, no_effects, effected as effected_of, held_word, register_word};
ghost use Rattle.state.specs.declared.Deed.TheVariants.{Leave, ClearAll};
ghost use Rattle.state.specs.declared.Note.TheVariants.{Done, LineBusy};
ghost use Rattle.plan.specs.declared.Receive.TheVariants.{LeaveRx, EmptyRx};

use line::Ear;
use plan::{Plan, Receive, plain};
use registers::{Control, Effect, Written};
use state::{Bridge, Deed, Note, Phase};

// What the writes of a frame did, all together.
#[derive(Clone, Copy)]
pub struct Effects {
    pub control: Control,
    pub clears_tx: bool,
    pub clears_rx: bool,
    pub refused: bool,
}

fn is_quiet(ear: Ear) -> bool
    ensures { result ≡ is_quiet ear }
{
    matches!(ear, Ear::Quiet)
}

// Sender or reader is busy (note 10).
pub fn busy(bridge: Bridge) -> bool
    ensures { result ≡ busy_of bridge }
{
    let sending = !deeds::is_idle(bridge.sending.sender);
    let reading = !is_quiet(bridge.receiving.reader.ear);
    sending | reading
}

// One write more.
fn with_write(effects: Effects, written: Written) -> Effects
    ensures { result ≡ with_write effects written }
{
    let after = Effects {
        control: written.control,
        ..effects
    };
    match written.effect {
        Effect::Nothing => after,
        Effect::TransmitClear => Effects {
            clears_tx: true,
            ..after
        },
        Effect::ReceiveClear => Effects {
            clears_rx: true,
            ..after
        },
        Effect::Refused => Effects {
            refused: true,
            ..after
        },
    }
}

fn no_effects(control: Control) -> Effects
    ensures { result ≡ no_effects control }
{
    Effects {
        control,
        clears_tx: false,
        clears_rx: false,
        refused: false,
    }
}

// The first `count` held words to consecutive registers.
pub fn write_all(control: Control, busy: bool, address: u16, held: [u16; 12], count: u16) -> Effects
    requires { address + count ≤ 12 }
    ensures { result ≡ write_all (no_effects control) busy address (take count held) }
{
    let mut effects = no_effects(control);
    for i in 0..count {
        let written = writing::write(effects.control, busy, address + i, held[i as usize]);
        effects = with_write(effects, written);
    }
    effects
}

fn deed_of(clears: bool) -> Deed
    ensures { result ≡ pick clears ClearAll Leave }
{
    if clears { Deed::ClearAll } else { Deed::Leave }
}

fn receive_of(clears: bool) -> Receive
    ensures { result ≡ pick clears EmptyRx LeaveRx }
{
    if clears {
        Receive::EmptyRx
    } else {
        Receive::LeaveRx
    }
}

fn note_of(refused: bool) -> Note
    ensures { result ≡ pick refused LineBusy Done }
{
    if refused { Note::LineBusy } else { Note::Done }
}

// What writes do beyond the registers.
pub fn effected(bridge: Bridge, phase: Phase, effects: Effects, status: bool) -> Plan
    ensures { result ≡ effected_of bridge phase effects status }
{
    Plan {
        control: effects.control,
        deed: deed_of(effects.clears_tx),
        receive: receive_of(effects.clears_rx),
        status,
        ..plain(bridge, phase, note_of(effects.refused))
    }
}

// A word of REG_WR_CRC waits for the CRC word.
fn held_word(bridge: Bridge, phase: Phase, got: u16, word: u16) -> Plan
    requires { got < 12 }
    ensures { result ≡ held_word bridge phase got word }
{
    let mut held = bridge.frame.held;
    held[got as usize] = word;
    Plan {
        held,
        ..plain(bridge, phase, Note::Done)
    }
}

// A data word of a register write, the got-th from 0.
pub fn register_word(
    bridge: Bridge,
    crc: bool,
    address: u16,
    got: u16,
    phase: Phase,
    word: u16,
) -> Plan
    requires { address + got < 12 }
    ensures { result ≡ register_word bridge crc address got phase word }
{
    if crc {
        return held_word(bridge, phase, got, word);
    }
    let written = writing::write(bridge.control, busy(bridge), address + got, word);
    let effects = with_write(no_effects(bridge.control), written);
    effected(bridge, phase, effects, false)
}
