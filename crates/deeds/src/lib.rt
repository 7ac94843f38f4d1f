// What a frame does to the sending side (01 Frames; Registers, "Transmit clear").

#![tactic(auto)]

ghost use Rattle.std.specs.Prelude.{◌≡◌};
ghost use Rattle.state.specs.Facts.{SendFit, Doable};
ghost use Rattle.state.specs.Sending.{idle, stored as stored_of, done as done_of};
ghost use Rattle.state.specs.declared.Deed.TheVariants.{ResetAll};

use line::Piece;
use state::{Deed, Sender, Sending};

// Nothing under way and nothing owed: "An owed END counts as sending".
pub fn is_idle(sender: Sender) -> bool
    ensures { result ≡ idle sender }
{
    let gone = line::piece_length(sender.piece) <= sender.gone;
    let taken = sender.left == 0;
    let ended = sender.ends == 0;
    gone & taken & ended
}

// TX's ring after what an event stores.
pub fn stored(sending: Sending, store: Option<u16>) -> Sending
    requires { SendFit sending }
    ensures { result ≡ stored_of sending store }
{
    let mut after = sending;
    if let Some(_) = store {
        after.tx.count += 1;
    }
    after
}

// TX and the queue emptied: "Clearing sets count to 0".
fn cleared(sending: Sending) -> Sending
    ensures { result ≡ done_of sending ResetAll }
{
    let mut after = sending;
    after.tx.count = 0;
    after.queue.used = 0;
    after.queue.begun = 0;
    after
}

pub fn done(sending: Sending, deed: Deed) -> Sending
    requires { Doable sending deed }
    ensures { result ≡ done_of sending deed }
{
    match deed {
        Deed::Leave => sending,
        Deed::Enqueue(place) => {
            let mut queue = sending.queue;
            queue.places[queue.used as usize] = place;
            queue.used += 1;
            Sending { queue, ..sending }
        }
        Deed::TakeBack(n) => {
            let mut after = sending;
            after.tx.count -= n;
            after
        }
        Deed::ClearAll => Sending {
            sender: Sender {
                piece: Piece::Pause,
                gone: 0,
                left: 0,
                ends: 1,
            },
            ..cleared(sending)
        },
        Deed::ResetAll => cleared(sending),
    }
}
