// The record rules of the queue, as a test: how many places there are, and each by where it stands. It asks nothing of the state.

#![tactic(auto)]

ghost use Rattle.std.specs.Prelude.{◌≡◌, ◌≤◌, ◌<◌, ◌+◌};
ghost use Rattle.state.specs.Queue.{waiting, words_of, is_done};
ghost use Rattle.place_rules.specs.Places.{place_sound, is_fresh, waits as waits_of, awaits as awaits_of, role_sound, places_sound, queue_sound};

use state::{Place, Queue};

fn place_sound(place: Place) -> bool
    ensures { result ≡ place_sound place }
{
    (place.words <= 4096) & (place.ends <= 127)
}

// As it was queued: nothing sent, nothing read.
fn is_fresh(place: Place) -> bool
    ensures { result ≡ is_fresh place }
{
    let unmarked = !place.compare & !place.damaged & !place.sent & !place.read;
    unmarked & (place.crc_sent == 0xFFFF) & (place.crc_read == 0xFFFF)
}

fn waits(place: Place) -> bool
    ensures { result ≡ waits_of place }
{
    let some = 0 < place.words as u32 + place.ends as u32;
    some & is_fresh(place)
}

fn awaits(place: Place) -> bool
    ensures { result ≡ awaits_of place }
{
    place.sent & !place.read & (0 < place.words) & (place.ends == 0)
}

fn is_done(place: Place) -> bool
    ensures { result ≡ is_done place }
{
    place.sent & (place.read | (place.words == 0))
}

fn role_sound(place: Place, i: u16, begun: u16) -> bool
    requires { i < 8 }
    ensures { result ≡ role_sound begun i place }
{
    if begun <= i {
        return waits(place);
    }
    if i + 1 < begun {
        return awaits(place);
    }
    !is_done(place)
}

// Nothing is asked of a place that is not in use: a walk over those that are, in the record as it is lent.
fn places_sound(queue: Queue) -> bool
    ensures { result ≡ places_sound queue }
{
    let mut good = true;
    for i in 0..queue.used.min(8) {
        let place = queue.places[i as usize];
        good &= place_sound(place) & role_sound(place, i, queue.begun);
    }
    good
}

// The words that the places not yet begun have to send. A broken state's `used` may pass the last place.
pub fn words_waiting(queue: Queue) -> u32
    ensures { (result ≡ words_of (waiting queue)) × (result ≤ 524280) }
{
    let mut words: u32 = 0;
    for i in queue.begun..queue.used.min(8) {
        let place = queue.places[i as usize];
        words += place.words as u32;
    }
    words
}

pub fn queue_sound(queue: Queue) -> bool
    ensures { result ≡ queue_sound queue }
{
    let room = queue::in_use(queue) <= 8;
    (queue.begun <= queue.used) & (queue.used <= 8) & room & places_sound(queue)
}
