// What a tick sends (01 The line): the choice first, then what it does.

#![tactic(auto)]

ghost use Rattle.std.specs.Prelude.{◌≡◌, ◌-◌, eqb};
ghost use Rattle.base.specs.Pick.{pick};
ghost use Rattle.state.specs.Facts.{QueueFit, SendFit};
ghost use Rattle.state.specs.Queue.{begun_one};
ghost use Rattle.next.specs.Room.{Room};
ghost use Rattle.sender.specs.Sender.{is_head, word_sent, queue_sent, sender_after, advanced as advanced_of, place_sent, command_sent, finished as finished_of, tick_sender};

use line::Piece;
use next::Next;
use state::{Place, Queue, Returned, Sender, Sending};

// `starved`: note 13. `started`: a start bit went out. `differs`: a place was freed with CRCs that differ.
#[derive(Clone, Copy)]
pub struct Sent {
    pub sending: Sending,
    pub sout: bool,
    pub starved: bool,
    pub started: bool,
    pub differs: bool,
}

// VSYNC, and the sixteen FC writes.
fn is_head(word: u16) -> bool
    ensures { result ≡ is_head word }
{
    let from = 0xAA00 <= word;
    let to = word <= 0xAA0F;
    let vsync = word == 0xAAF0;
    from & to | vsync
}

// A command's first word is the one sent with all of its words left.
fn compared(place: Place, left: u16, word: u16) -> bool
    ensures { result ≡ pick (eqb left place.words) (is_head word) place.compare }
{
    if left == place.words {
        return is_head(word);
    }
    place.compare
}

fn word_sent(place: Place, left: u16, word: u16) -> Place
    ensures { result ≡ word_sent place left word }
{
    let compare = compared(place, left, word);
    let crc = crc16::crc_word(place.crc_sent, word);
    Place {
        compare,
        crc_sent: crc,
        ..place
    }
}

// The word belongs to the youngest place begun.
fn queue_sent(queue: Queue, left: u16, word: u16) -> Queue
    requires { QueueFit queue }
    ensures { result ≡ queue_sent queue left word }
{
    if 0 < queue.begun {
        let last = (queue.begun - 1) as usize;
        let place = word_sent(queue.places[last], left, word);
        let mut q = queue;
        q.places[last] = place;
        return q;
    }
    queue
}

// A piece of which this tick's bit is the first.
fn first_bit(piece: Piece, left: u16, ends: u16) -> Sender
    ensures { result ≡ record { piece = piece; gone = 1; left = left; ends = ends } }
{
    Sender {
        piece,
        gone: 1,
        left,
        ends,
    }
}

// A place with words has an END of its own before its extra ENDs. An END after an underflow is the last (note 13).
fn sender_after(next: Next, sending: Sending, word: u16) -> Sender
    requires { (SendFit sending) × (Room sending.queue next) }
    ensures { result ≡ sender_after next sending word }
{
    let sender = sending.sender;
    let queue = sending.queue;
    let piece = sender.piece;
    match next {
        Next::GoOn => Sender {
            piece,
            gone: sender.gone + 1,
            left: sender.left,
            ends: sender.ends,
        },
        Next::LoadWord => first_bit(
            Piece::WordPiece(word),
            state::less_one(sender.left),
            sender.ends,
        ),
        Next::Starve => first_bit(Piece::EndPiece, 0, 0),
        Next::LoadEnd => first_bit(Piece::EndPiece, 0, state::less_one(sender.ends)),
        Next::StartWords => {
            let place = queue.places[queue.begun as usize];
            first_bit(Piece::StartBit, place.words, place.ends + 1)
        }
        Next::StartEnds => {
            let place = queue.places[queue.begun as usize];
            first_bit(Piece::EndPiece, 0, state::less_one(place.ends))
        }
        Next::Stay => Sender {
            piece: Piece::Pause,
            gone: 0,
            left: 0,
            ends: 0,
        },
    }
}

fn begun_one(queue: Queue) -> Queue
    requires { QueueFit queue }
    ensures { result ≡ begun_one queue }
{
    Queue {
        begun: queue.begun + 1,
        ..queue
    }
}

// No place is begun.
fn gone_on(sending: Sending, sender: Sender) -> Sending
    ensures { result ≡ record { tx = sending.tx; queue = sending.queue; sender = sender } }
{
    Sending { sender, ..sending }
}

// The oldest place not yet begun is begun.
fn begin(sending: Sending, sender: Sender) -> Sending
    requires { QueueFit sending.queue }
    ensures { result ≡ record { tx = sending.tx; queue = begun_one sending.queue; sender = sender } }
{
    Sending {
        queue: begun_one(sending.queue),
        sender,
        ..sending
    }
}

fn advanced(next: Next, sending: Sending, word: u16) -> Sending
    requires { (SendFit sending) × (Room sending.queue next) }
    ensures { result ≡ advanced_of next sending word }
{
    let sender = sender_after(next, sending, word);
    match next {
        Next::GoOn => gone_on(sending, sender),
        Next::LoadWord => {
            let tx = state::popped(sending.tx, 512);
            let queue = queue_sent(sending.queue, sending.sender.left, word);
            Sending { tx, queue, sender }
        }
        Next::Starve => gone_on(sending, sender),
        Next::LoadEnd => gone_on(sending, sender),
        Next::StartWords => begin(sending, sender),
        Next::StartEnds => begin(sending, sender),
        Next::Stay => gone_on(sending, sender),
    }
}

// The words' place.
fn place_sent(place: Place) -> Place
    ensures { result ≡ place_sent place }
{
    Place {
        sent: true,
        ..place
    }
}

// The whole command: its ENDs' place is freed.
fn command_sent(place: Place) -> Place
    ensures { result ≡ command_sent place }
{
    let mut p = place;
    p.ends = 0;
    p.sent = true;
    p
}

// Each place is sent with its own last bit: the ENDs' with the sender's last, the words' with the last 1 of their own END.
fn finished(sending: Sending) -> Returned
    requires { QueueFit sending.queue }
    ensures { result ≡ finished_of sending }
{
    let queue = sending.queue;
    let last = state::less_one(queue.begun);
    let idle = deeds::is_idle(sending.sender);
    let under_way = queue::is_under_way(queue);
    if idle & under_way {
        let place = command_sent(queue::place_at(queue, last));
        return queue::give_back(queue, last, place);
    }
    let over = 18 <= sending.sender.gone;
    let speaking = queue::is_speaking(queue);
    if over & speaking {
        let place = place_sent(queue::place_at(queue, last));
        return queue::give_back(queue, last, place);
    }
    Returned {
        queue,
        differs: false,
    }
}

// A tick's sending half. `may` is `may_start` before the tick, `word` the oldest word of TX.
pub fn tick_sender(sending: Sending, may: bool, word: u16) -> Sent
    requires { SendFit sending }
    ensures { result ≡ tick_sender sending may word }
{
    let next = next::choose(sending, may);
    let after = advanced(next, sending, word);
    let back = finished(after);
    let tx = after.tx;
    let queue = back.queue;
    let sender = after.sender;
    let sout = next::bit_sent(next, sending.sender, word);
    let starved = next::is_starve(next);
    let started = next::is_start(next);
    Sent {
        sending: Sending { tx, queue, sender },
        sout,
        starved,
        started,
        differs: back.differs,
    }
}
