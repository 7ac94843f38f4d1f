// A run of ticks: quiet ones together, each other one by itself.
ghost use Rattle.std.specs.Prelude.{◌≡◌, ◌*◌, get_or};
ghost use Rattle.listing.specs.Run.{Lent};
ghost use Rattle.night_parts.specs.Parts.{Onward};

use crate::{Part, bytes, quiet};
use events::Event;
use state::Bridge;

pub fn ticks(
    bridge: Bridge,
    tx: &mut [u16],
    rx: &mut [u16],
    records: &[u8],
    results: &mut [u8],
    from: usize,
    many: usize,
) -> Part
    requires lent { Lent records.now many from bridge tx.old rx.old results.old }
    requires from_value { get_or records.now (from * 3) 0 ≡ 3 }
    ensures { Onward records.now many from bridge tx.old rx.old results.old result.k result.bridge tx.new rx.new results.new }
{
    let mut b = bridge;
    let mut k = from;
    // Stays: a pass does one event or a run of them, so no range counts the passes.
    while k < many {
        let next = k + 1;
        if bytes::kind_at(records, k) != 3 {
            return Part { bridge: b, k };
        }
        let g = quiet::run(b, records, results, k, many);
        let to = g.k;
        if k < to {
            let hot = g.hot;
            b = lull::laid(b, g.rests, hot);
            k = to;
            continue;
        }
        let sin = bytes::bit_at(records, k);
        let answer = events::turn(b, tx, rx, Event::Tick(sin));
        let note = answer.note;
        listing::put(results, k, note, answer.sdo, answer.sout);
        b = answer.state;
        k = next;
    }
    Part { bridge: b, k }
}
