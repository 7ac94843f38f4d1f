// The bridge's record in lent cells, for programs in C (include/icelichen_bridge.h): put into them, and read from them.

#![tactic(auto)]

mod cell;
mod given;

ghost use Rattle.std.specs.Prelude.{◌≡◌};
ghost use Rattle.cells.specs.Cells.{queue_of, record_of};
ghost use Rattle.cells.specs.Lent.{same_up_to, broken as broken_of, lent as lent_of, Image};

use state::{Bridge, Queue, Receiving, Ring, Sending};

pub type Cells = [u64; 23];

// A record's cells, which give it back.
pub fn cells_of(b: Bridge) -> Cells
    ensures { Image result b }
{
    let c = b.control;
    let s = b.sending;
    let g = b.receiving;
    let f = b.frame;
    let k = b.clock;
    let q = s.queue;
    let r = c.regs;
    let p0 = queue::place_at(q, 0);
    let p1 = queue::place_at(q, 1);
    let p2 = queue::place_at(q, 2);
    let p3 = queue::place_at(q, 3);
    let p4 = queue::place_at(q, 4);
    let p5 = queue::place_at(q, 5);
    let p6 = queue::place_at(q, 6);
    let p7 = queue::place_at(q, 7);
    [
        cell::state(c),
        cell::flags(c.flags, r),
        parts::four(r.ccsictrl, r.txfflvl, r.rxfflvl, r.diagmask),
        parts::four(s.tx.head, s.tx.count, g.rx.head, g.rx.count),
        parts::four(q.used, q.begun, s.sender.gone, s.sender.left),
        cell::piece(s.sender, g.reader, k),
        cell::ear(g.reader),
        cell::clock(g.reader, k),
        cell::phase(f),
        cell::open(f),
        parts::four(f.held[0], f.held[1], f.held[2], f.held[3]),
        parts::four(f.held[4], f.held[5], f.held[6], f.held[7]),
        parts::four(f.held[8], f.held[9], f.held[10], f.held[11]),
        cell::place(p0),
        cell::place(p1),
        cell::place(p2),
        cell::place(p3),
        cell::place(p4),
        cell::place(p5),
        cell::place(p6),
        cell::place(p7),
        cell::marks(p0, p1, p2, p3),
        cell::marks(p4, p5, p6, p7),
    ]
}

fn queue_of(cells: &Cells) -> Queue
    ensures { result ≡ queue_of cells.now }
{
    let low = cells[21];
    let high = cells[22];
    Queue {
        places: [
            given::place(cells[13], parts::first(low)),
            given::place(cells[14], parts::second(low)),
            given::place(cells[15], parts::third(low)),
            given::place(cells[16], parts::fourth(low)),
            given::place(cells[17], parts::first(high)),
            given::place(cells[18], parts::second(high)),
            given::place(cells[19], parts::third(high)),
            given::place(cells[20], parts::fourth(high)),
        ],
        used: parts::first(cells[4]),
        begun: parts::second(cells[4]),
    }
}

// The record that they give, whatever they hold.
fn record_of(cells: &Cells) -> Bridge
    ensures { result ≡ record_of cells.now }
{
    let rings = cells[3];
    Bridge {
        control: given::control(cells[0], cells[1], cells[2]),
        sending: Sending {
            tx: Ring {
                head: parts::first(rings),
                count: parts::second(rings),
            },
            queue: queue_of(cells),
            sender: given::sender(cells[4], cells[5]),
        },
        receiving: Receiving {
            rx: Ring {
                head: parts::third(rings),
                count: parts::fourth(rings),
            },
            reader: given::reader(cells[5], cells[6], cells[7]),
        },
        frame: given::frame(cells[8], cells[9], cells[10], cells[11], cells[12]),
        clock: given::clock(cells[5], cells[7]),
    }
}

fn are_same(c: &Cells, d: &Cells) -> bool
    ensures { result ≡ same_up_to 23 c.now d.now }
{
    let mut same = true;
    for i in 0..23 {
        same &= c[i] == d[i];
    }
    same
}

fn broken() -> Bridge
    ensures { result ≡ broken_of }
{
    let mut b = Bridge::good();
    b.sending.tx.count = 0xFFFF;
    b
}

// What lent cells stand for: the record whose cells they are, or a broken one.
pub fn lent(cells: &Cells) -> Bridge
    ensures { result ≡ lent_of cells.now }
{
    let b = record_of(cells);
    let own = cells_of(b);
    if are_same(cells, &own) {
        return b;
    }
    broken()
}
