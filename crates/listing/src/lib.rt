// The records of a list and the bytes of their results (02 item 6).

#![tactic(auto)]

ghost use Rattle.std.specs.Prelude.{◌≡◌, ◌+◌, ◌*◌, ◌≤◌, length};
ghost use Rattle.state.specs.Notes.{note_number};
ghost use Rattle.listing.specs.Records.{record_at, is_event, event_at, all_events};
ghost use Rattle.listing.specs.Results.{put as put_of};

use events::Event;
use state::Note;

// Record k, counted from 0.
pub fn record_at(records: &[u8], k: usize) -> Option<Event>
    requires { k * 3 + 3 ≤ length records.now }
    ensures { result ≡ record_at records.now k }
{
    let at = k * 3;
    script::read(records[at], script::value(records[at + 1], records[at + 2]))
}

pub fn is_event(records: &[u8], k: usize) -> bool
    requires { k * 3 + 3 ≤ length records.now }
    ensures { result ≡ is_event records.now k }
{
    record_at(records, k).is_some()
}

// The event that record k is; a release of chip select where it is none.
pub fn event_at(records: &[u8], k: usize) -> Event
    requires { k * 3 + 3 ≤ length records.now }
    ensures { result ≡ event_at records.now k }
{
    record_at(records, k).unwrap_or(Event::Release)
}

// The first so many records are events.
pub fn are_events(records: &[u8], many: usize) -> bool
    requires { many * 3 ≤ length records.now }
    ensures { result ≡ all_events records.now many }
{
    for k in 0..many {
        if !is_event(records, k) {
            return false;
        }
    }
    true
}

// The four bytes of event k.
pub fn put(results: &mut [u8], k: usize, note: Note, sdo: u16, sout: bool)
    requires { k * 4 + 4 ≤ length results.old }
    ensures { results.new ≡ put_of results.old k (note_number note) sdo sout }
{
    let at = k * 4;
    let [high, low] = sdo.to_be_bytes();
    results[at] = state::number(note) as u8;
    results[at + 1] = high;
    results[at + 2] = low;
    results[at + 3] = sout as u8;
}

// Those of an event with note 0 and no answer.
pub fn put_quiet(results: &mut [u8], k: usize, sout: bool)
    requires { k * 4 + 4 ≤ length results.old }
    ensures { results.new ≡ put_of results.old k 0 0xFFFF sout }
{
    put(results, k, Note::Done, 0xFFFF, sout);
}
