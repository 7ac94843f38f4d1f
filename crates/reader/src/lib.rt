// What a tick hears (01 The line, "The reader (SIN)").

#![tactic(auto)]

ghost use Rattle.std.specs.Prelude.{◌≡◌, true, ◌≤◌, ◌<◌, None};
ghost use Rattle.base.specs.Pick.{pick};
ghost use Rattle.state.specs.Queue.{oldest_unread};
ghost use Rattle.state.specs.Facts.{QueueFit, RingFit};
ghost use Rattle.reader.specs.Reader.{with_ear, began as began_of, word_read, error_read, end_read, word_taken, taken, at_end, ended as ended_of, taken_by, tick_reader};

use line::{Ear, Found};
use registers::{Flag, Flags};
use state::{Queue, Reader, Receiving, Returned};

// `full`: note 14. `ended`: END came of a command that stored a word.
#[derive(Clone, Copy)]
pub struct Taken {
    pub receiving: Receiving,
    pub queue: Queue,
    pub flags: Flags,
    pub store: Option<u16>,
    pub full: bool,
    pub ended: bool,
}

pub fn with_ear(receiving: Receiving, ear: Ear) -> Receiving
    ensures { result ≡ with_ear receiving ear }
{
    Receiving {
        reader: Reader {
            ear,
            ..receiving.reader
        },
        ..receiving
    }
}

// No command is being read, or one that belongs to no place.
fn unclaimed(receiving: Receiving, ear: Ear) -> Receiving
    ensures { result ≡ at_end receiving ear }
{
    Receiving {
        reader: Reader {
            ear,
            belongs: false,
            storing: false,
            stored: false,
        },
        ..receiving
    }
}

// Belonging and storing are settled once, at the start 0 (01 The line, "Each command read belongs, from its start").
fn began(receiving: Receiving, queue: Queue, flags: Flags, ear: Ear) -> Receiving
    requires { QueueFit queue }
    ensures { result ≡ began_of receiving queue flags ear }
{
    let mut started = unclaimed(receiving, ear);
    if let Some(i) = queue::claimed(queue) {
        let up = flags.rxffovf | flags.rxffuvf;
        started.reader.belongs = true;
        started.reader.storing = queue.places[i as usize].store & !up;
    }
    started
}

// The place of the command being read, where it belongs to one.
fn own_place(belongs: bool, queue: Queue) -> Option<u16>
    requires { QueueFit queue }
    ensures { result ≡ pick belongs (oldest_unread queue) None }
{
    if belongs { queue::claimed(queue) } else { None }
}

// A word goes into the CRC of what its place reads back.
fn word_read(belongs: bool, queue: Queue, word: u16) -> Queue
    requires { QueueFit queue }
    ensures { result ≡ word_read belongs queue word }
{
    let Some(i) = own_place(belongs, queue) else {
        return queue;
    };
    let k = i as usize;
    let mut marked = queue;
    marked.places[k].crc_read = crc16::crc_word(queue.places[k].crc_read, word);
    marked
}

// A place read with a check error is not compared.
fn error_read(belongs: bool, queue: Queue) -> Queue
    requires { QueueFit queue }
    ensures { result ≡ error_read belongs queue }
{
    let Some(i) = own_place(belongs, queue) else {
        return queue;
    };
    let mut marked = queue;
    marked.places[i as usize].damaged = true;
    marked
}

// A place is read back at the END of its command, after a check error too.
fn end_read(belongs: bool, queue: Queue) -> Returned
    requires { QueueFit queue }
    ensures { result ≡ end_read belongs queue }
{
    let Some(i) = own_place(belongs, queue) else {
        return Returned {
            queue,
            differs: false,
        };
    };
    let mut place = queue.places[i as usize];
    place.read = true;
    queue::give_back(queue, i, place)
}

fn nothing_stored(receiving: Receiving, queue: Queue, flags: Flags, ended: bool) -> Taken
    ensures { result ≡ taken receiving queue flags ended }
{
    Taken {
        receiving,
        queue,
        flags,
        store: None,
        full: false,
        ended,
    }
}

// RX has room for a word that goes there.
fn word_stored(receiving: Receiving, queue: Queue, flags: Flags, ear: Ear, word: u16) -> Taken
    requires { (QueueFit queue) × (receiving.reader.storing ≡ true) × (receiving.rx.count < 256) }
    ensures { result ≡ word_taken receiving queue flags ear word }
{
    let marked = word_read(receiving.reader.belongs, queue, word);
    let mut longer = with_ear(receiving, ear);
    longer.rx.count = receiving.rx.count + 1;
    longer.reader.stored = true;
    Taken {
        store: Some(word),
        ..nothing_stored(longer, marked, flags, false)
    }
}

// RX is full: note 14. The flag rises in this command, so that no later word of it is stored.
fn word_dropped(receiving: Receiving, queue: Queue, flags: Flags, ear: Ear, word: u16) -> Taken
    requires { (QueueFit queue) × (receiving.reader.storing ≡ true) × (256 ≤ receiving.rx.count) }
    ensures { result ≡ word_taken receiving queue flags ear word }
{
    let marked = word_read(receiving.reader.belongs, queue, word);
    let up = registers::raise(flags, Flag::RxOvf);
    let mut stopped = with_ear(receiving, ear);
    stopped.reader.storing = false;
    Taken {
        full: true,
        ..nothing_stored(stopped, marked, up, false)
    }
}

// A word at its right check bit.
fn word_taken(receiving: Receiving, queue: Queue, flags: Flags, ear: Ear, word: u16) -> Taken
    requires { QueueFit queue }
    ensures { result ≡ word_taken receiving queue flags ear word }
{
    if receiving.reader.storing {
        if receiving.rx.count < 256 {
            return word_stored(receiving, queue, flags, ear, word);
        }
        return word_dropped(receiving, queue, flags, ear, word);
    }
    let marked = word_read(receiving.reader.belongs, queue, word);
    nothing_stored(with_ear(receiving, ear), marked, flags, false)
}

// END, by itself or after a check error.
fn ended(receiving: Receiving, queue: Queue, flags: Flags, ear: Ear) -> Taken
    requires { QueueFit queue }
    ensures { result ≡ ended_of receiving queue flags ear }
{
    let reader = receiving.reader;
    let back = end_read(reader.belongs, queue);
    let quiet = unclaimed(receiving, ear);
    if back.differs {
        let up = registers::raise(flags, Flag::LineCrc);
        return nothing_stored(quiet, back.queue, up, reader.stored);
    }
    nothing_stored(quiet, back.queue, flags, reader.stored)
}

// By what the bit completed.
fn taken_by(found: Found, receiving: Receiving, queue: Queue, flags: Flags, ear: Ear) -> Taken
    requires { QueueFit queue }
    ensures { result ≡ taken_by found receiving queue flags ear }
{
    match found {
        Found::Nothing => nothing_stored(with_ear(receiving, ear), queue, flags, false),
        Found::Start => nothing_stored(began(receiving, queue, flags, ear), queue, flags, false),
        Found::Word(word) => word_taken(receiving, queue, flags, ear, word),
        Found::End | Found::Over => ended(receiving, queue, flags, ear),
        Found::CheckError(number) => {
            let marked = error_read(receiving.reader.belongs, queue);
            let up = registers::went_bad(flags, number);
            nothing_stored(with_ear(receiving, ear), marked, up, false)
        }
    }
}

// One bit of SIN.
pub fn tick_reader(receiving: Receiving, queue: Queue, flags: Flags, sin: bool) -> Taken
    requires { (QueueFit queue) × (RingFit 256 receiving.rx) }
    ensures { result ≡ tick_reader receiving queue flags sin }
{
    let heard = line::hear(receiving.reader.ear, sin);
    taken_by(heard.found, receiving, queue, flags, heard.ear)
}
