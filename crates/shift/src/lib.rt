// A shift (02, item 13): call-ups offered in order, ticks made while one waits for room, and all sent at the end.

#![tactic(auto)]

ghost use Rattle.std.specs.Prelude.{◌≡◌, [], ◌<◌, ◌≤◌, length};
ghost use Rattle.verdict.specs.Verdicts.{Taken};
ghost use Rattle.chain.specs.Chain.{moment};
ghost use Rattle.shift.specs.Shifts.{offered, offer_of, Stands, dues_in, shifted, shifting, shift_from, shift_of};

use board::Board;
use chain::Goal;
use state::Bridge;
use verdict::Refusal;

#[derive(Clone, Copy)]
pub struct Offered {
    pub board: Board,
    pub bridge: Bridge,
    pub oldest: usize,
    pub verdict: Result<(), Refusal>,
    pub ticks: u32,
}

// Call-ups taken, ticks made, and the refusal that stopped it.
#[derive(Clone, Copy)]
pub struct Shifted {
    pub board: Board,
    pub bridge: Bridge,
    pub oldest: usize,
    pub verdict: Result<(), Refusal>,
    pub taken: usize,
    pub ticks: u32,
}

// A call-up: ticks while it finds no room, and then it is taken or refused.
pub fn offer(
    board: Board,
    bridge: Bridge,
    tx: &mut [u16],
    rx: &mut [u16],
    chain: &mut [bool],
    oldest: usize,
    slot: u16,
    reading: u16,
    words: &[u16],
    budget: u32,
) -> Offered
    ensures { offered result tx.new rx.new chain.new ≡ offer_of board (moment bridge tx.old rx.old chain.old oldest) slot reading words.now budget }
{
    let goal = Goal::Room {
        slot,
        words: words.len(),
    };
    let waited = chain::wait(bridge, tx, rx, chain, oldest, goal, budget);
    let called = board::call_up(board, waited.bridge, tx, rx, slot, reading, words);
    Offered {
        board: called.board,
        bridge: called.bridge,
        oldest: waited.oldest,
        verdict: called.verdict,
        ticks: waited.ticks,
    }
}

// A call-up of a list: its words are lent from the list, and `next` is where the next one begins.
#[derive(Clone, Copy)]
pub struct Entry<'a> {
    pub slot: u16,
    pub reading: u16,
    pub words: &'a [u16],
    pub next: usize,
}

// One that is cut has no words, and is the last.
fn cut(cells: &[u16], slot: u16) -> Entry<'_>
    ensures slot { result.slot ≡ slot }
    ensures reading { result.reading ≡ 0 }
    ensures words { result.words.now ≡ [] }
    ensures next { result.next ≡ length cells.now }
{
    Entry {
        slot,
        reading: 0,
        words: &cells[..0],
        next: cells.len(),
    }
}

fn entry_at(cells: &[u16], at: usize) -> Entry<'_>
    requires { at < length cells.now }
    ensures { Stands cells.now at result }
{
    let end = cells.len();
    let slot = cells[at];
    if end - at < 3 {
        return cut(cells, slot);
    }
    let count = cells[at + 2] as usize;
    let from = at + 3;
    if end - from < count {
        return cut(cells, slot);
    }
    let next = from + count;
    Entry {
        slot,
        reading: cells[at + 1],
        words: &cells[from..next],
        next,
    }
}

// After the last call-up: ticks until all is sent.
fn send(
    board: Board,
    bridge: Bridge,
    tx: &mut [u16],
    rx: &mut [u16],
    chain: &mut [bool],
    oldest: usize,
    taken: usize,
    ticks: u32,
    budget: u32,
) -> Shifted
    requires { ticks ≤ budget }
    ensures { shifted result tx.new rx.new chain.new ≡ shift_from [] (shifting board (moment bridge tx.old rx.old chain.old oldest) Taken taken ticks) budget }
{
    let sent = chain::wait(bridge, tx, rx, chain, oldest, Goal::Sent, budget - ticks);
    Shifted {
        board,
        bridge: sent.bridge,
        oldest: sent.oldest,
        verdict: Ok(()),
        taken,
        ticks: ticks + sent.ticks,
    }
}

// The call-ups of a list, in order; one that is refused stops the shift. Then all that is taken is sent.
fn run(
    board: Board,
    bridge: Bridge,
    tx: &mut [u16],
    rx: &mut [u16],
    chain: &mut [bool],
    oldest: usize,
    cells: &[u16],
    budget: u32,
) -> Shifted
    ensures { shifted result tx.new rx.new chain.new ≡ shift_from (dues_in cells.now) (shifting board (moment bridge tx.old rx.old chain.old oldest) Taken 0 0) budget }
{
    let mut shown = board;
    let mut b = bridge;
    let mut place = oldest;
    let mut taken: usize = 0;
    let mut ticks: u32 = 0;
    let mut at: usize = 0;
    while at < cells.len() {
        let entry = entry_at(cells, at);
        let left = budget - ticks;
        let offered = offer(
            shown,
            b,
            tx,
            rx,
            chain,
            place,
            entry.slot,
            entry.reading,
            entry.words,
            left,
        );
        ticks += offered.ticks;
        if offered.verdict.is_err() {
            return Shifted {
                board: offered.board,
                bridge: offered.bridge,
                oldest: offered.oldest,
                verdict: offered.verdict,
                taken,
                ticks,
            };
        }
        shown = offered.board;
        b = offered.bridge;
        place = offered.oldest;
        taken += 1;
        at = entry.next;
    }
    send(shown, b, tx, rx, chain, place, taken, ticks, budget)
}

// The call-ups of a list, if neither note 1 nor 2 is due. A list is slot, reading, number of words and the words of each.
pub fn shift(
    board: Board,
    bridge: Bridge,
    tx: &mut [u16],
    rx: &mut [u16],
    chain: &mut [bool],
    oldest: usize,
    cells: &[u16],
    budget: u32,
) -> Shifted
    ensures { shifted result tx.new rx.new chain.new ≡ shift_of board (moment bridge tx.old rx.old chain.old oldest) cells.now budget }
{
    let verdict = verdict::judge(bridge, tx.len(), rx.len(), 0, 1);
    if verdict::is_broken(verdict) {
        return Shifted {
            board,
            bridge,
            oldest,
            verdict,
            taken: 0,
            ticks: 0,
        };
    }
    run(board, bridge, tx, rx, chain, oldest, cells, budget)
}
