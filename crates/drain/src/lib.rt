// Draining (01 The line): ticks with SIN 1 until nothing is left to send, and their number.

#![tactic(auto)]

mod glide;

ghost use Rattle.std.specs.Prelude.{◌≡◌};
ghost use Rattle.command.specs.Layouts.{layouts};
ghost use Rattle.events.specs.Turn.{Ready};
ghost use Rattle.drain.specs.Drain.{end, at_rest, run_of, drain as drain_of};

use events::Event;
use state::{Bridge, Note};

// The state left, the ticks made, and the note that stopped them.
#[derive(Clone, Copy)]
pub struct Drained {
    pub state: Bridge,
    pub ticks: u32,
    pub note: Note,
}

// "the sender is idle and nothing may start"
pub fn at_rest(bridge: Bridge) -> bool
    ensures { result ≡ at_rest bridge }
{
    let idle = deeds::is_idle(bridge.sending.sender);
    let may = next::may_start(bridge.control);
    let waits = bridge.sending.queue.begun < bridge.sending.queue.used;
    idle & !(may & waits)
}

// Ticks of a record that obeys the rules: each tick keeps them, so they are not tested again. Inside a piece they are made in a run; between
// two pieces a tick may load, begin or send something, and is a whole turn.
fn run(bridge: Bridge, tx: &mut [u16], rx: &mut [u16], budget: u32) -> Drained
    requires { Ready bridge tx.old rx.old }
    ensures { end result tx.new rx.new ≡ run_of layouts budget 0 bridge tx.old rx.old }
{
    let mut b = bridge;
    let mut ticks: u32 = 0;
    // Stays: a pass makes one tick or a run of them, so no range counts the passes.
    while ticks < budget {
        let g = glide::run(b, ticks, budget);
        if ticks < g.ticks {
            b = lull::laid(b, false, g.hot);
            ticks = g.ticks;
            continue;
        }
        if at_rest(b) {
            return Drained {
                state: b,
                ticks,
                note: Note::Done,
            };
        }
        let answer = events::turn(b, tx, rx, Event::Tick(true));
        let note = answer.note;
        b = answer.state;
        ticks += 1;
        if state::number(note) != 0 {
            return Drained {
                state: b,
                ticks,
                note,
            };
        }
    }
    Drained {
        state: b,
        ticks,
        note: Note::Done,
    }
}

// No tick was made.
fn refused(bridge: Bridge, note: Note) -> Drained
    ensures { result ≡ record { state = bridge; ticks = 0; note = note } }
{
    Drained {
        state: bridge,
        ticks: 0,
        note,
    }
}

// Until nothing is left to send, a note other than 0, or the budget's end.
pub fn drain(bridge: Bridge, tx: &mut [u16], rx: &mut [u16], budget: u32) -> Drained
    ensures { end result tx.new rx.new ≡ drain_of layouts bridge tx.old rx.old budget }
{
    if tx.len() != 512 {
        return refused(bridge, Note::WrongStores);
    }
    if rx.len() != 256 {
        return refused(bridge, Note::WrongStores);
    }
    if rules::sound(bridge) {
        return run(bridge, tx, rx, budget);
    }
    refused(bridge, Note::BrokenRecord)
}
