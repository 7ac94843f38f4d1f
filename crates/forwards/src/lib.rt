// Forwards (01 Frames, "Forwards store data words as they come"; notes 5, 8 and 9).

#![tactic(auto)]

ghost use Rattle.std.specs.Prelude.{◌≡◌, ◌&&◌, ◌||◌, ◌+◌, ◌<◌, leb};
ghost use Rattle.base.specs.Pick.{pick};
ghost use Rattle.state.specs.Rings.{tx_size};
ghost use Rattle.forwards.specs.Forward.{granted, asks_store, guard as guard_of, faulted as faulted_of, mine_after, enqueues as enqueues_of, clears as clears_of, releases as releases_of, forwarded as forwarded_of, forward_word, forward_begun};
ghost use Rattle.registers.specs.Registers.{blocking};

use command::Command;
use plan::{Plan, collecting, plain, raised_in};
use registers::{Control, Flag};
use state::{Bridge, Deed, Fwd, Note, Place, Progress, Queue};

// What a forward asks: a word to store, and whether its command is to be queued.
#[derive(Clone, Copy)]
pub struct Wish {
    pub store: Option<u16>,
    pub release: bool,
    pub place: Place,
}

// What is granted of a wish.
#[derive(Clone, Copy)]
pub struct Granted {
    pub store: Option<u16>,
    pub deed: Deed,
    pub note: Note,
}

fn asks_store(store: Option<u16>) -> bool
    ensures { result ≡ asks_store store }
{
    store.is_some()
}

fn grant(store: Option<u16>, deed: Deed, note: Note) -> Granted
    ensures { result ≡ granted store deed note }
{
    Granted { store, deed, note }
}

// Note 5.
fn is_blocked(blocked: bool, wish: Wish) -> bool
    ensures { result ≡ (blocked && (asks_store wish.store || wish.release)) }
{
    blocked & (asks_store(wish.store) | wish.release)
}

// Note 8.
fn overflows(wish: Wish, count: u16) -> bool
    ensures { result ≡ (asks_store wish.store && leb tx_size count) }
{
    asks_store(wish.store) & (512 <= count)
}

// What is granted with `count` words in TX and this queue.
pub fn guard(blocked: bool, count: u16, queue: Queue, wish: Wish) -> Granted
    ensures { result ≡ guard_of blocked count queue wish }
{
    if is_blocked(blocked, wish) {
        return grant(None, Deed::Leave, Note::Blocked);
    }
    if overflows(wish, count) {
        return grant(None, Deed::ClearAll, Note::TxFull);
    }
    if !wish.release {
        return grant(wish.store, Deed::Leave, Note::Done);
    }
    if queue::lacks(queue, wish.place) {
        return grant(wish.store, Deed::ClearAll, Note::QueueFull);
    }
    grant(wish.store, Deed::Enqueue(wish.place), Note::Done)
}

// The flag of notes 8 and 9.
pub fn faulted(control: Control, note: Note) -> Control
    ensures { result ≡ faulted_of control note }
{
    match note {
        Note::TxFull => raised_in(control, Flag::TxOvf),
        Note::QueueFull => raised_in(control, Flag::QueueOvf),
        _ => control,
    }
}

fn one_more(more: bool, n: u16) -> u16
    requires { n < 65535 }
    ensures { result ≡ pick more (n + 1) n }
{
    if more { n + 1 } else { n }
}

// The frame's unreleased words in TX.
fn mine_after(granted: Granted, at: Progress) -> u16
    requires { at.mine < 65535 }
    ensures { result ≡ mine_after granted.deed granted.store at.mine at.released }
{
    match granted.deed {
        Deed::Leave => one_more(asks_store(granted.store) & !at.released, at.mine),
        Deed::Enqueue(_) | Deed::TakeBack(_) | Deed::ClearAll | Deed::ResetAll => 0,
    }
}

fn enqueues(deed: Deed) -> bool
    ensures { result ≡ enqueues_of deed }
{
    matches!(deed, Deed::Enqueue(_))
}

// These block a forward still being received (01 Registers, "Transmit clear").
fn clears(deed: Deed) -> bool
    ensures { result ≡ clears_of deed }
{
    matches!(deed, Deed::ClearAll | Deed::ResetAll)
}

// A forward that goes on collecting, after what was granted of its word.
fn forwarded(bridge: Bridge, forward: Fwd, at: Progress, granted: Granted) -> Plan
    requires { at.mine < 65535 }
    ensures { result ≡ forwarded_of bridge forward at granted }
{
    let command = Command::Forward {
        crc: forward.crc,
        words: forward.words,
        ends: forward.ends,
        reads: forward.reads,
    };
    let after = Progress {
        mine: mine_after(granted, at),
        released: enqueues(granted.deed) | at.released,
        blocked: clears(granted.deed) | at.blocked,
        ..at
    };
    Plan {
        control: faulted(bridge.control, granted.note),
        store: granted.store,
        deed: granted.deed,
        ..plain(bridge, collecting(command, after), granted.note)
    }
}

// TX holds more than its level just after the word, or all data words have come; once a frame.
fn releases(forward: Fwd, at: Progress, level: u16, count: u16) -> bool
    ensures { result ≡ releases_of forward at level count }
{
    let exceeded = level < count;
    let whole = at.got == forward.words;
    !forward.crc & !at.released & (exceeded | whole)
}

// A data word of a forward: `at` is before it, but for the CRC.
pub fn forward_word(bridge: Bridge, forward: Fwd, at: Progress, word: u16) -> Plan
    requires { (at.got < 65535) × (at.mine < 65535) × (bridge.sending.tx.count < 65535) }
    ensures { result ≡ forward_word bridge forward at word }
{
    let after = Progress {
        got: at.got + 1,
        ..at
    };
    let count = bridge.sending.tx.count;
    let level = bridge.control.regs.txfflvl;
    let wish = Wish {
        store: Some(word),
        release: releases(forward, after, level, count + 1),
        place: queue::new_place(forward.words, forward.ends, forward.reads),
    };
    let granted = guard(at.blocked, count, bridge.sending.queue, wish);
    forwarded(bridge, forward, after, granted)
}

// The command word of a forward.
pub fn forward_begun(bridge: Bridge, forward: Fwd, sum: u16) -> Plan
    ensures { result ≡ forward_begun bridge forward sum (blocking bridge.control.flags) }
{
    let blocked = registers::blocking(bridge.control.flags);
    let wordless = forward.words == 0;
    let owes = 0 < forward.ends;
    let wish = Wish {
        store: None,
        release: !forward.crc & wordless & owes,
        place: queue::new_place(forward.words, forward.ends, forward.reads),
    };
    let granted = guard(blocked, bridge.sending.tx.count, bridge.sending.queue, wish);
    let at = Progress {
        got: 0,
        crc: sum,
        mine: 0,
        released: false,
        blocked,
    };
    forwarded(bridge, forward, at, granted)
}
