// The parts of a list of events (02 item 6): a run of events of one kind, with a copy of the record that only the parts change. Each part is
// so many `turn`s.

#![tactic(auto)]

mod bytes;
mod clocking;
mod moving;
mod quiet;
mod ticking;
mod wording;

ghost use Rattle.std.specs.Prelude.{◌≡◌, ◌*◌, get_or};
ghost use Rattle.listing.specs.Records.{event_at};
ghost use Rattle.listing.specs.Run.{Lent};
ghost use Rattle.night_parts.specs.Parts.{Onward};

use events::Event;
use state::{Bridge, Frame, Note};

// The state after a part, and the number of the event that follows it.
#[derive(Clone, Copy)]
pub struct Part {
    pub bridge: Bridge,
    pub k: usize,
}

// An event by itself.
fn alone(
    bridge: Bridge,
    tx: &mut [u16],
    rx: &mut [u16],
    records: &[u8],
    results: &mut [u8],
    from: usize,
    many: usize,
    event: Event,
) -> Part
    requires lent { Lent records.now many from bridge tx.old rx.old results.old }
    requires event_value { event ≡ event_at records.now from }
    ensures { Onward records.now many from bridge tx.old rx.old results.old result.k result.bridge tx.new rx.new results.new }
{
    let answer = events::turn(bridge, tx, rx, event);
    let note = answer.note;
    listing::put(results, from, note, answer.sdo, answer.sout);
    let after = answer.state;
    Part {
        bridge: after,
        k: from + 1,
    }
}

// A release with no word before it.
fn release(
    bridge: Bridge,
    tx: &mut [u16],
    rx: &mut [u16],
    records: &[u8],
    results: &mut [u8],
    from: usize,
    many: usize,
) -> Part
    requires lent { Lent records.now many from bridge tx.old rx.old results.old }
    requires from_value { get_or records.now (from * 3) 0 ≡ 2 }
    ensures { Onward records.now many from bridge tx.old rx.old results.old result.k result.bridge tx.new rx.new results.new }
{
    let was = bridge.frame;
    let before = was.phase;
    let m = moving::moved(2, before);
    let moves = m.moves;
    if moves {
        let after = m.phase;
        let kept = was.held;
        let settled = plan::settled(bridge.control, bridge.receiving.rx.count, false);
        let frame = Frame {
            phase: after,
            held: kept,
            xmodem: was.xmodem,
        };
        listing::put(results, from, Note::Done, m.sdo, true);
        let mut b = bridge;
        b.control = settled;
        b.frame = frame;
        return Part {
            bridge: b,
            k: from + 1,
        };
    }
    alone(bridge, tx, rx, records, results, from, many, Event::Release)
}

// The part that begins with event `from`.
pub fn next_part(
    bridge: Bridge,
    tx: &mut [u16],
    rx: &mut [u16],
    records: &[u8],
    results: &mut [u8],
    from: usize,
    many: usize,
) -> Part
    requires { Lent records.now many from bridge tx.old rx.old results.old }
    ensures { Onward records.now many from bridge tx.old rx.old results.old result.k result.bridge tx.new rx.new results.new }
{
    match bytes::kind_at(records, from) {
        0 => {
            let power = listing::record_at(records, from).unwrap();
            alone(bridge, tx, rx, records, results, from, many, power)
        }
        2 => release(bridge, tx, rx, records, results, from, many),
        3 => ticking::ticks(bridge, tx, rx, records, results, from, many),
        4 => clocking::clocks(bridge, records, results, from, many),
        _ => wording::words(bridge, tx, rx, records, results, from, many),
    }
}
