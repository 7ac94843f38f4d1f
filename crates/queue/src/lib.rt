// The queue of eight places (01 The line).

#![tactic(auto)]

ghost use Rattle.std.specs.Prelude.{◌≡◌, ◌≤◌, ◌<◌};
ghost use Rattle.state.specs.Facts.{QueueFit};
ghost use Rattle.state.specs.Queue.{place_at, new_place, places_of, in_use, lacks as lacks_of, youngest_begun, speaking, under_way, freed as freed_one, freed_of as freed_part, oldest_unread, returned as returned_of};

use state::{Place, Queue, Returned};

// A command as it is queued.
pub fn new_place(words: u16, ends: u16, store: bool) -> Place
    ensures { result ≡ new_place words ends store }
{
    Place {
        words,
        ends,
        store,
        crc_sent: 0xFFFF,
        crc_read: 0xFFFF,
        ..Place::NONE
    }
}

// No place stands beyond the eighth.
pub fn place_at(queue: Queue, k: u16) -> Place
    ensures { result ≡ place_at queue k }
{
    if k < 8 {
        queue.places[k as usize]
    } else {
        Place::NONE
    }
}

// The youngest command that has begun.
fn last_begun(queue: Queue) -> Option<Place>
    ensures { result ≡ youngest_begun queue }
{
    let last = queue.begun.checked_sub(1)?;
    Some(place_at(queue, last))
}

// A command is under way: begun, and its words or its ENDs not yet sent.
pub fn is_under_way(queue: Queue) -> bool
    ensures { result ≡ under_way queue }
{
    let Some(last) = last_begun(queue) else {
        return false;
    };
    !last.sent | (0 < last.ends)
}

// The command under way has words that are not yet sent.
pub fn is_speaking(queue: Queue) -> bool
    ensures { result ≡ speaking queue }
{
    let Some(last) = last_begun(queue) else {
        return false;
    };
    (0 < last.words) & !last.sent
}

// A command with words and extra ENDs takes two places.
pub fn places_of(place: Place) -> u16
    ensures { result ≡ places_of place }
{
    let both = (0 < place.words) & (0 < place.ends);
    if both { 2 } else { 1 }
}

// The places not freed yet. A broken state's `used` may pass the last.
pub fn in_use(queue: Queue) -> u16
    ensures { (result ≡ in_use queue) × (result ≤ 16) }
{
    let commands = queue.places.iter().take(queue.used as usize);
    commands.map(|place| places_of(*place)).sum()
}

// Fewer places are free than the command needs.
pub fn lacks(queue: Queue, place: Place) -> bool
    ensures { result ≡ lacks_of queue place }
{
    8 < in_use(queue) + places_of(place)
}

// "the oldest place with words that has begun sending and is not yet read"
pub fn claimed(queue: Queue) -> Option<u16>
    requires { QueueFit queue }
    ensures { result ≡ oldest_unread queue }
{
    for i in 0..queue.begun {
        let place = queue.places[i as usize];
        if (0 < place.words) & !place.read {
            return Some(i);
        }
    }
    None
}

// The place at i freed: the younger commands move up by one.
fn freed(queue: Queue, i: u16) -> Queue
    requires { (QueueFit queue) × (i < queue.begun) }
    ensures { result ≡ freed_one queue i }
{
    let mut left = queue;
    left.places.copy_within(i as usize + 1.., i as usize);
    left.places[7] = Place::NONE;
    left.used -= 1;
    left.begun -= 1;
    left
}

// The words' place is freed with its command, or alone: ENDs that still go out keep theirs.
fn freed_of(queue: Queue, i: u16, place: Place) -> Queue
    requires { (QueueFit queue) × (i < queue.begun) }
    ensures { result ≡ freed_part queue i place }
{
    if 0 < place.ends {
        let mut kept = queue;
        kept.places[i as usize] = new_place(0, place.ends, false);
        return kept;
    }
    freed(queue, i)
}

// A place with new marks: put back, or freed where it is done. "the CRCs of words sent and read are compared when the place is freed"
pub fn give_back(queue: Queue, i: u16, place: Place) -> Returned
    requires { (QueueFit queue) × (i < queue.begun) }
    ensures { result ≡ returned_of queue i place }
{
    if place.sent & (place.read | (place.words == 0)) {
        let unlike = place.crc_sent != place.crc_read;
        return Returned {
            queue: freed_of(queue, i, place),
            differs: place.compare & !place.damaged & unlike,
        };
    }
    let mut kept = queue;
    kept.places[i as usize] = place;
    Returned {
        queue: kept,
        differs: false,
    }
}
