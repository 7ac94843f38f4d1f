// One event (01 What the bridge is): what its rule does to the state, and the cells that it writes. Only this crate touches the stores.

#![tactic(auto)]

mod react;

ghost use Rattle.std.specs.Prelude.{◌≡◌, ℕ, length};
ghost use Rattle.command.specs.Layouts.{layouts};
ghost use Rattle.state.specs.Facts.{RingFit};
ghost use Rattle.state.specs.Rings.{written};
ghost use Rattle.events.specs.Turn.{out, Ready, turn as turn_of};

use layout::Layout;
use state::{Bridge, Note, Ring};

#[derive(Clone, Copy)]
pub enum Event {
    Power { good: bool, layout: Layout },
    Word(u16),
    Release,
    Tick(bool),
    Clock(u16),
}

// What an event leaves and says.
#[derive(Clone, Copy)]
pub struct Answer {
    pub state: Bridge,
    pub sdo: u16,
    pub sout: bool,
    pub note: Note,
}

// A stored word goes to the ring's next cell; no other cell is written.
pub fn write_cell(cells: &mut [u16], ring: Ring, store: Option<u16>)
    requires { RingFit (length cells.old) ring }
    ensures { cells.new ≡ written (length cells.old) cells.old ring store }
{
    if let Some(word) = store {
        let head = ring.head as usize;
        let count = ring.count as usize;
        let cell = (head + count) % cells.len();
        cells[cell] = word;
    }
}

// The event's rule and the cells that it writes.
pub fn turn(bridge: Bridge, tx: &mut [u16], rx: &mut [u16], event: Event) -> Answer
    requires { Ready bridge tx.old rx.old }
    ensures { out result tx.new rx.new ≡ turn_of layouts bridge tx.old rx.old event }
{
    let tx_head = bridge.sending.tx.head as usize;
    let rx_head = bridge.receiving.rx.head as usize;
    let did = react::react(bridge, event, tx[tx_head], rx[rx_head]);
    write_cell(tx, bridge.sending.tx, did.tx);
    write_cell(rx, bridge.receiving.rx, did.rx);
    Answer {
        state: did.bridge,
        sdo: did.sdo,
        sout: did.sout,
        note: did.note,
    }
}
