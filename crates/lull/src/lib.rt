// Runs of quiet ticks, over the few fields that such a tick moves: the bit under way goes on, or the line is at rest, and the reader completes
// nothing. What they do is what `turn` says of them, tick by tick.

#![tactic(auto)]

ghost use Rattle.std.specs.Prelude.{◌≡◌, ◌≤◌, Err, Ok};
ghost use Rattle.base.specs.Pick.{pick};
ghost use Rattle.state.specs.Facts.{HostFit};
ghost use Rattle.lull.specs.Lull.{hot_of, rests_in, reach as reach_of, gone_on, quiet_by, next_hot, quiet_bit, laid_sender, laid as laid_of};

use line::{Ear, Piece};
use state::{Bridge, Clock, Sender, Sending};

// What a quiet tick moves.
#[derive(Clone, Copy)]
pub struct Hot {
    pub ear: Ear,
    pub gone: u16,
    pub watching: bool,
    pub sin: bool,
}

pub fn hot_of(bridge: Bridge) -> Hot
    ensures { result ≡ hot_of bridge }
{
    Hot {
        ear: bridge.receiving.reader.ear,
        gone: bridge.sending.sender.gone,
        watching: bridge.clock.watching,
        sin: bridge.clock.sin,
    }
}

// Nothing to send, and nothing that waits may begin.
pub fn rests_in(bridge: Bridge) -> bool
    requires { HostFit bridge }
    ensures { result ≡ rests_in bridge }
{
    let may = next::may_start(bridge.control);
    quick::rests(bridge.sending, may)
}

// How many bits of the piece under way quiet ticks may send: not its last, with which a place may be sent, unless a word follows it.
pub fn reach(sender: Sender) -> u16
    ensures { result ≡ reach_of sender }
{
    let length = line::piece_length(sender.piece);
    if 0 < sender.left {
        if length < 18 {
            return length;
        }
    }
    state::less_one(length)
}

fn gone_on(gone: u16, rests: bool) -> u16
    requires { gone ≤ 18 }
    ensures { result ≡ gone_on gone rests }
{
    if rests {
        return 0;
    }
    gone + 1
}

// What a tick moves. Ok: it is within the reach, or at rest, and this is what it leaves. Err: the tick is not quiet.
#[tactic(auto, using(base::specs::Pick::picks))]
pub fn tick(hot: Hot, reach: u16, rests: bool, sin: bool) -> Result<Hot, Hot>
    requires { hot.gone ≤ 18 }
    ensures { result ≡ pick (quiet_by hot reach rests sin) (Ok (next_hot hot rests sin)) (Err (next_hot hot rests sin)) }
{
    let heard = line::hear(hot.ear, sin);
    let inside = hot.gone < reach;
    let quiet = quick::is_nothing(heard.found) & (rests | inside);
    let steady = ticks::same(sin, hot.sin);
    let after = Hot {
        ear: heard.ear,
        gone: gone_on(hot.gone, rests),
        watching: steady & hot.watching,
        sin,
    };
    if quiet { Ok(after) } else { Err(after) }
}

// The bit that such a tick sends.
pub fn bit(hot: Hot, piece: Piece, rests: bool) -> bool
    ensures { result ≡ quiet_bit hot piece rests }
{
    if rests {
        return true;
    }
    line::piece_bit(piece, hot.gone)
}

// The sender as a run of such ticks leaves it. At rest it holds no piece, whatever it sent last.
fn laid_sender(sender: Sender, rests: bool, gone: u16) -> Sender
    ensures { result ≡ laid_sender sender rests gone }
{
    if rests {
        return Sender {
            piece: Piece::Pause,
            gone: 0,
            left: 0,
            ends: 0,
        };
    }
    Sender { gone, ..sender }
}

// The record as a run of such ticks leaves it.
pub fn laid(bridge: Bridge, rests: bool, hot: Hot) -> Bridge
    ensures { result ≡ laid_of bridge rests hot }
{
    let sender = laid_sender(bridge.sending.sender, rests, hot.gone);
    Bridge {
        control: plan::settled(bridge.control, bridge.receiving.rx.count, false),
        sending: Sending {
            sender,
            ..bridge.sending
        },
        receiving: reader::with_ear(bridge.receiving, hot.ear),
        clock: Clock {
            watching: hot.watching,
            sin: hot.sin,
            ..bridge.clock
        },
        ..bridge
    }
}
