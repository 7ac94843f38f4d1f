// A night's events in one call (02 item 6): a list of three-byte records, four result bytes for each.

#![tactic(auto)]

ghost use Rattle.std.specs.Prelude.{◌≡◌, true, ◌*◌, ◌≤◌, length};
ghost use Rattle.command.specs.Layouts.{layouts};
ghost use Rattle.bridge.specs.Fit.{Fit};
ghost use Rattle.listing.specs.Records.{all_events};
ghost use Rattle.listing.specs.Run.{moment, list_of, Listable};
ghost use Rattle.whole_night.specs.Night.{end, tested as tested_of, night as night_of};
ghost use Rattle.whole_night.specs.Numbered.{config, events_from};
ghost use Rattle.whole_night.specs.Outcomes.{outcome_number};

use state::Bridge;

// What a list came to: all of it done, or why it was refused.
#[derive(Clone, Copy)]
pub enum Outcome {
    Done,
    NoEvent,
    ShortResults,
    WrongStores,
    BrokenRecord,
}

// The state left, how many events were done, and what was found before the first.
#[derive(Clone, Copy)]
pub struct Listed {
    pub state: Bridge,
    pub done: usize,
    pub outcome: Outcome,
}

// The refusal's number; 0 where all was done.
pub fn number(outcome: Outcome) -> u16
    ensures { result ≡ outcome_number outcome }
{
    match outcome {
        Outcome::Done => 0,
        Outcome::NoEvent => 22,
        Outcome::ShortResults => 23,
        Outcome::WrongStores => 1,
        Outcome::BrokenRecord => 2,
    }
}

// Part after part, of a record that obeys the rules: each event keeps them, so they are not tested again.
fn run(
    bridge: Bridge,
    tx: &mut [u16],
    rx: &mut [u16],
    records: &[u8],
    many: usize,
    results: &mut [u8],
) -> Bridge
    requires fit { Fit bridge tx.old rx.old }
    requires listable { Listable records.now results.old many }
    ensures { moment result tx.new rx.new results.new ≡ list_of records.now many 0 bridge tx.old rx.old results.old }
{
    let mut b = bridge;
    let mut k: usize = 0;
    // Stays: a pass does one event or a run of them, so no range counts the passes.
    while k < many {
        let part = night_parts::next_part(b, tx, rx, records, results, k, many);
        b = part.bridge;
        k = part.k;
    }
    b
}

// No event was done.
fn refused(bridge: Bridge, outcome: Outcome) -> Listed
    ensures { result ≡ record { state = bridge; done = 0; outcome = outcome } }
{
    Listed {
        state: bridge,
        done: 0,
        outcome,
    }
}

// A list of events, all of them found to be so.
fn tested(
    bridge: Bridge,
    tx: &mut [u16],
    rx: &mut [u16],
    records: &[u8],
    many: usize,
    results: &mut [u8],
) -> Listed
    requires { (all_events records.now many ≡ true) × (many * 3 ≤ length records.now) }
    ensures { end result tx.new rx.new results.new ≡ tested_of layouts (config bridge tx.old rx.old) results.old (events_from records.now many 0) }
{
    if results.len() / 4 < many {
        return refused(bridge, Outcome::ShortResults);
    }
    if tx.len() != 512 {
        return refused(bridge, Outcome::WrongStores);
    }
    if rx.len() != 256 {
        return refused(bridge, Outcome::WrongStores);
    }
    if rules::sound(bridge) {
        let after = run(bridge, tx, rx, records, many, results);
        return Listed {
            state: after,
            done: many,
            outcome: Outcome::Done,
        };
    }
    refused(bridge, Outcome::BrokenRecord)
}

// The events of a list, as if given to `step` one by one: refused as a whole, or all done.
pub fn night(
    bridge: Bridge,
    tx: &mut [u16],
    rx: &mut [u16],
    records: &[u8],
    results: &mut [u8],
) -> Listed
    ensures { end result tx.new rx.new results.new ≡ night_of layouts (config bridge tx.old rx.old) records.now results.old }
{
    let many = records.len() / 3;
    if records.len() % 3 != 0 {
        return refused(bridge, Outcome::NoEvent);
    }
    if listing::are_events(records, many) {
        return tested(bridge, tx, rx, records, many, results);
    }
    refused(bridge, Outcome::NoEvent)
}
