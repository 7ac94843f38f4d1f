// A line tick: the sender first, then the reader (01 Notes, The line).

#![tactic(auto)]

ghost use Rattle.std.specs.Prelude.{◌≡◌};
ghost use Rattle.state.specs.Facts.{HostFit};
ghost use Rattle.ticks.specs.Ticks.{quietly as quietly_of, blocked_in, same as same_of, mark_after, watched as watched_of, flags_sent, starved_flags, control_ticked, tick_note, phase_after, tick_ends, ticked as ticked_of};

use plan::NO_ANSWER;
use reader::Taken;
use registers::{Control, Flag, Flags};
use sender::Sent;
use state::{Bridge, Clock, Frame, Note, Phase, Sending};

// What an event leaves and says, and the words that it stores.
#[derive(Clone, Copy)]
pub struct Did {
    pub bridge: Bridge,
    pub sdo: u16,
    pub sout: bool,
    pub note: Note,
    pub tx: Option<u16>,
    pub rx: Option<u16>,
}

// A state, with nothing on either line.
pub fn quietly(bridge: Bridge) -> Did
    ensures { result ≡ quietly_of bridge }
{
    Did {
        bridge,
        sdo: NO_ANSWER,
        sout: true,
        note: Note::Done,
        tx: None,
        rx: None,
    }
}

// A forward still being received is blocked.
fn blocked(phase: Phase) -> Phase
    ensures { result ≡ blocked_in phase }
{
    match phase {
        Phase::Collecting {
            command,
            got,
            crc,
            mine,
            released,
            blocked,
        } => Phase::Collecting {
            command,
            got,
            crc,
            mine,
            released,
            blocked: state::is_forward(command) | blocked,
        },
        Phase::Idle | Phase::Answering { .. } | Phase::Discarding => phase,
    }
}

fn phase_after(phase: Phase, starved: bool) -> Phase
    ensures { result ≡ phase_after phase starved }
{
    if starved { blocked(phase) } else { phase }
}

pub fn same(a: bool, b: bool) -> bool
    ensures { result ≡ same_of a b }
{
    a == b
}

// A start bit marks the last reading where the SIN watch is off.
fn mark_after(clock: Clock, started: bool) -> u16
    ensures { result ≡ mark_after clock started }
{
    if started & !clock.watching {
        return clock.reading;
    }
    clock.watch_mark
}

// A change of SIN stops the watch.
pub fn watched(clock: Clock, started: bool, sin: bool) -> Clock
    ensures { result ≡ watched_of clock started sin }
{
    let steady = same(sin, clock.sin);
    Clock {
        watching: steady & (started | clock.watching),
        watch_mark: mark_after(clock, started),
        sin,
        ..clock
    }
}

fn starved_flags(flags: Flags, starved: bool) -> Flags
    ensures { result ≡ starved_flags flags starved }
{
    if starved {
        registers::raise(flags, Flag::TxUvf)
    } else {
        flags
    }
}

fn flags_sent(flags: Flags, sent: Sent) -> Flags
    ensures { result ≡ flags_sent flags sent }
{
    let first = starved_flags(flags, sent.starved);
    if sent.differs {
        registers::raise(first, Flag::LineCrc)
    } else {
        first
    }
}

// Note 13 before note 14.
fn tick_note(starved: bool, full: bool) -> Note
    ensures { result ≡ tick_note starved full }
{
    if starved {
        Note::TxEmpty
    } else if full {
        Note::RxFull
    } else {
        Note::Done
    }
}

fn control_after(control: Control, taken: Taken) -> Control
    ensures { result ≡ control_ticked control taken }
{
    let after = Control {
        flags: taken.flags,
        ..control
    };
    plan::settled(after, taken.receiving.rx.count, taken.ended)
}

fn tick_ends(bridge: Bridge, sent: Sent, taken: Taken, sin: bool) -> Did
    ensures { result ≡ tick_ends bridge sent taken sin }
{
    let after = Bridge {
        control: control_after(bridge.control, taken),
        sending: Sending {
            queue: taken.queue,
            ..sent.sending
        },
        receiving: taken.receiving,
        frame: Frame {
            phase: phase_after(bridge.frame.phase, sent.starved),
            ..bridge.frame
        },
        clock: watched(bridge.clock, sent.started, sin),
    };
    Did {
        sout: sent.sout,
        note: tick_note(sent.starved, taken.full),
        rx: taken.store,
        ..quietly(after)
    }
}

pub fn ticked(bridge: Bridge, sin: bool, word: u16) -> Did
    requires { HostFit bridge }
    ensures { result ≡ ticked_of bridge sin word }
{
    let may = next::may_start(bridge.control);
    let sent = sender::tick_sender(bridge.sending, may, word);
    let flags = flags_sent(bridge.control.flags, sent);
    let taken = reader::tick_reader(bridge.receiving, sent.sending.queue, flags, sin);
    tick_ends(bridge, sent, taken, sin)
}
