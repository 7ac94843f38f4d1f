// The bridge with the chain of boards behind it: ticks, and waits of many ticks (02, item 13).

#![tactic(auto)]

ghost use Rattle.std.specs.Prelude.{◌≡◌};
ghost use Rattle.command.specs.Layouts.{layouts};
ghost use Rattle.drain.specs.Drain.{at_rest};
ghost use Rattle.chain.specs.Echo.{echo};
ghost use Rattle.board.specs.Moments.{config};
ghost use Rattle.chain.specs.Chain.{moment, back, filled, onward, gone, gone_from};
ghost use Rattle.chain.specs.Waits.{met as met_of, waited, wait_from};

use events::Event;
use state::Bridge;

// What a wait is for: that a call-up for this slot, of so many words, finds room; that nothing is left to send.
#[derive(Clone, Copy, PartialEq, Eq)]
pub enum Goal {
    Room { slot: u16, words: usize },
    Sent,
}

// What a tick leaves, and the bit that went out.
#[derive(Clone, Copy)]
pub struct Ticked {
    pub bridge: Bridge,
    pub oldest: usize,
    pub sout: bool,
}

// What a wait leaves: the ticks made, and the bit of the last.
#[derive(Clone, Copy)]
pub struct Waited {
    pub bridge: Bridge,
    pub oldest: usize,
    pub ticks: u32,
    pub sout: bool,
}

// The bit that the next tick sends, known before the bit that it reads.
pub fn sout(bridge: Bridge, tx: &[u16], rx: &[u16]) -> bool
    ensures { result ≡ echo layouts (config bridge tx.now rx.now) }
{
    if tx.len() != 512 || rx.len() != 256 || !rules::sound(bridge) {
        return true;
    }
    let kind = next::choose(bridge.sending, next::may_start(bridge.control));
    let head = bridge.sending.tx.head as usize;
    next::bit_sent(kind, bridge.sending.sender, tx[head])
}

// The bit that comes back while this one goes out and takes its cell, and the cell of the oldest bit then. Without cells SIN is this tick's own bit.
fn pass(chain: &mut [bool], oldest: usize, sout: bool) -> (bool, usize)
    ensures sin { result.0 ≡ back chain.old oldest sout }
    ensures oldest { result.1 ≡ onward chain.old oldest }
    ensures cells { chain.new ≡ filled chain.old oldest sout }
{
    let n = chain.len();
    if n == 0 {
        return (sout, oldest);
    }
    let i = oldest % n;
    let sin = chain[i];
    chain[i] = sout;
    (sin, (i + 1) % n)
}

// One tick of bridge and chain. The chain's cells are the bits under way.
pub fn tick(
    bridge: Bridge,
    tx: &mut [u16],
    rx: &mut [u16],
    chain: &mut [bool],
    oldest: usize,
) -> Ticked
    ensures { gone result tx.new rx.new chain.new ≡ gone_from (moment bridge tx.old rx.old chain.old oldest) }
{
    let sout = sout(bridge, tx, rx);
    let (sin, oldest) = pass(chain, oldest, sout);
    Ticked {
        bridge: bridge::step(bridge, tx, rx, Event::Tick(sin)).state,
        oldest,
        sout,
    }
}

// The sender is idle, and nothing may start.
fn at_rest(bridge: Bridge) -> bool
    ensures { result ≡ at_rest bridge }
{
    let idle = deeds::is_idle(bridge.sending.sender);
    let may = next::may_start(bridge.control);
    let waits = bridge.sending.queue.begun < bridge.sending.queue.used;
    idle & !(may & waits)
}

fn met(goal: Goal, bridge: Bridge, tx: &[u16], rx: &[u16]) -> bool
    ensures { result ≡ met_of goal (config bridge tx.now rx.now) }
{
    match goal {
        Goal::Room { slot, words } => {
            let judged = verdict::judge(bridge, tx.len(), rx.len(), slot, words);
            !verdict::is_no_room(judged)
        }
        Goal::Sent => at_rest(bridge),
    }
}

// Ticks until the goal is met or the budget ends.
pub fn wait(
    bridge: Bridge,
    tx: &mut [u16],
    rx: &mut [u16],
    chain: &mut [bool],
    oldest: usize,
    goal: Goal,
    budget: u32,
) -> Waited
    ensures { waited result tx.new rx.new chain.new ≡ wait_from budget goal (moment bridge tx.old rx.old chain.old oldest) }
{
    let mut b = bridge;
    let mut at = oldest;
    let mut sout = true;
    for ticks in 0..budget {
        if met(goal, b, tx, rx) {
            return Waited {
                bridge: b,
                oldest: at,
                ticks,
                sout,
            };
        }
        let went = tick(b, tx, rx, chain, at);
        b = went.bridge;
        at = went.oldest;
        sout = went.sout;
    }
    Waited {
        bridge: b,
        oldest: at,
        ticks: budget,
        sout,
    }
}
