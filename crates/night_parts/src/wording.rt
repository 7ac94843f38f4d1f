// A run of host words and the releases between them: words of one kind together (`pouring`), each other event in place.
ghost use Rattle.std.specs.Prelude.{◌≡◌, ◌*◌, ◌≤◌, get_or};
ghost use Rattle.listing.specs.Run.{Lent};
ghost use Rattle.night_parts.specs.Parts.{Onward};
ghost use Rattle.night_parts.specs.Place.{acts as acts_of, count_after};

use crate::{Part, bytes, moving};
use state::{Bridge, Deed, Frame, Note};

// The sending side is changed by more than a stored word.
fn acts(deed: Deed) -> bool
    ensures { result ≡ acts_of deed }
{
    match deed {
        Deed::Leave => false,
        Deed::Enqueue(_) => true,
        Deed::TakeBack(_) => true,
        Deed::ClearAll => true,
        Deed::ResetAll => true,
    }
}

fn count_after(count: u16, store: Option<u16>) -> u16
    requires { count ≤ 512 }
    ensures { result ≡ count_after count store }
{
    match store {
        None => count,
        Some(_) => count + 1,
    }
}

pub fn words(
    bridge: Bridge,
    tx: &mut [u16],
    rx: &[u16],
    records: &[u8],
    results: &mut [u8],
    from: usize,
    many: usize,
) -> Part
    requires lent { Lent records.now many from bridge tx.old rx.now results.old }
    requires from_value { get_or records.now (from * 3) 0 ≡ 1 }
    ensures { Onward records.now many from bridge tx.old rx.now results.old result.k result.bridge tx.new rx.now results.new }
{
    let mut b = bridge;
    let mut k = from;
    // Stays: a pass does one event or a run of them, so no range counts the passes.
    while k < many {
        let next = k + 1;
        let kind = bytes::kind_at(records, k);
        let was = b.frame;
        let before = was.phase;
        let m = moving::moved(kind, before);
        let moves = m.moves;
        if moves {
            let after = m.phase;
            let kept = was.held;
            let settled = plan::settled(b.control, b.receiving.rx.count, false);
            let mark = moving::mark_after(kind, b.clock);
            let moved = Frame {
                phase: after,
                held: kept,
                xmodem: was.xmodem,
            };
            listing::put(results, k, Note::Done, m.sdo, true);
            b.control = settled;
            b.frame = moved;
            b.clock.mark = mark;
            k = next;
            continue;
        }
        if kind != 1 {
            return Part { bridge: b, k };
        }
        let word = bytes::value_at(records, k);
        let g = pouring::run(b, tx, records, results, k, many);
        let to = g.k;
        if k < to {
            let stream = g.stream;
            b = pouring::poured(b, stream);
            k = to;
            continue;
        }
        let head = b.receiving.rx.head as usize;
        let plan = host::planned(b, word, rx[head]);
        let store = plan.store;
        let deed = plan.deed;
        let note = plan.note;
        let clock = plan::marked(b.clock);
        listing::put(results, k, note, plan.sdo, true);
        events::write_cell(tx, b.sending.tx, store);
        if acts(deed) {
            b = plan::performed(b, clock, plan);
            k = next;
            continue;
        }
        let receive = plan.receive;
        let phase = plan.phase;
        let held = plan.held;
        let count = count_after(b.sending.tx.count, store);
        let receiving = plan::received(b.receiving, receive);
        let control = plan::settled(plan.control, receiving.rx.count, false);
        let ended = plan::concluded(was.xmodem, plan.status, control, phase);
        let xmodem = plan::xmodem_after(b, phase);
        let frame = Frame {
            phase: ended,
            held,
            xmodem,
        };
        b.control = control;
        b.sending.tx.count = count;
        b.receiving = receiving;
        b.frame = frame;
        b.clock = clock;
        k = next;
    }
    Part { bridge: b, k }
}
