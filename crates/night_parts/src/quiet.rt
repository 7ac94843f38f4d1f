// Runs of quiet ticks in a list.
ghost use Rattle.listing.specs.Run.{Ahead};
ghost use Rattle.state.specs.Facts.{HostFit};
ghost use Rattle.night_parts.specs.Hush.{Hush};

use crate::bytes;
use lull::Hot;
use state::Bridge;

// The ticks done: up to which record, what they moved, and whether the line was at rest.
#[derive(Clone, Copy)]
pub struct Ran {
    pub k: usize,
    pub rests: bool,
    pub hot: Hot,
}

pub fn run(bridge: Bridge, records: &[u8], results: &mut [u8], from: usize, many: usize) -> Ran
    requires host_fit { HostFit bridge }
    requires ahead { Ahead records.now results.old from many }
    ensures { Hush records.now many bridge from results.old result.k result.rests result.hot results.new }
{
    let rests = lull::rests_in(bridge);
    let reach = lull::reach(bridge.sending.sender);
    let mut hot = lull::hot_of(bridge);
    for k in from..many {
        if bytes::kind_at(records, k) != 3 {
            return Ran { k, rests, hot };
        }
        let sin = bytes::bit_at(records, k);
        let Ok(after) = lull::tick(hot, reach, rests, sin) else {
            return Ran { k, rests, hot };
        };
        let sout = lull::bit(hot, bridge.sending.sender.piece, rests);
        listing::put_quiet(results, k, sout);
        hot = after;
    }
    Ran {
        k: many,
        rests,
        hot,
    }
}
