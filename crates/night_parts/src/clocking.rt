// A run of clock readings, each in place.
ghost use Rattle.std.specs.Prelude.{◌≡◌, ◌*◌, get_or};
ghost use Rattle.listing.specs.Run.{Ahead};
ghost use Rattle.night_parts.specs.Parts.{Further};

use crate::{Part, bytes};
use state::Bridge;

pub fn clocks(bridge: Bridge, records: &[u8], results: &mut [u8], from: usize, many: usize) -> Part
    requires ahead { Ahead records.now results.old from many }
    requires from_value { get_or records.now (from * 3) 0 ≡ 4 }
    ensures { Further records.now many from bridge results.old result.k result.bridge results.new }
{
    let mut b = bridge;
    for k in from..many {
        if bytes::kind_at(records, k) != 4 {
            return Part { bridge: b, k };
        }
        listing::put_quiet(results, k, true);
        let reading = bytes::value_at(records, k);
        let fires = clock::watch_fires(b.clock, reading);
        let bites = clock::dog_fires(b, reading);
        let control = clock::control_at(b.control, bites, fires, b.receiving.rx.count);
        let watching = b.clock.watching & !fires;
        b.control = control;
        b.clock.reading = reading;
        b.clock.watching = watching;
    }
    Part { bridge: b, k: many }
}
