// Runs of ticks with SIN 1 inside a piece: a piece is most of what draining sends, and such ticks move four fields of the record.
ghost use Rattle.std.specs.Prelude.{◌<◌};
ghost use Rattle.state.specs.Facts.{HostFit};
ghost use Rattle.drain.specs.Hush.{Hush};

use lull::Hot;
use state::Bridge;

// The ticks made so far, and what they moved.
#[derive(Clone, Copy)]
pub struct Glide {
    pub ticks: u32,
    pub hot: Hot,
}

// Where the first tick is not quiet the count stays `from`, and what was moved is nothing.
pub fn run(bridge: Bridge, from: u32, budget: u32) -> Glide
    requires host_fit { HostFit bridge }
    requires from_lt_budget { from < budget }
    ensures { Hush budget bridge from result.ticks result.hot }
{
    let reach = lull::reach(bridge.sending.sender);
    let mut hot = lull::hot_of(bridge);
    for ticks in from..budget {
        match lull::tick(hot, reach, false, true) {
            Ok(after) => hot = after,
            Err(_) => return Glide { ticks, hot },
        }
    }
    Glide { ticks: budget, hot }
}
