// What a tick does (01 The line): a value, chosen before anything is done; and the bit that goes out.

#![tactic(auto)]

ghost use Rattle.std.specs.Prelude.{◌≡◌, ltb};
ghost use Rattle.base.specs.Pick.{pick};
ghost use Rattle.state.specs.Facts.{QueueFit, SendFit};
ghost use Rattle.state.specs.Queue.{place_at};
ghost use Rattle.next.specs.declared.Next.TheVariants.{StartWords, StartEnds, Stay};
ghost use Rattle.next.specs.Next.{choose as choose_of, bit_sent, is_starve, is_start, may_start};

use line::Piece;
use registers::Control;
use state::{Queue, Sender, Sending};

// What a tick does: the next bit of the piece under way; a word, an END begun; no word in TX; a command begun, with words or of ENDs alone;
// nothing.
#[derive(Clone, Copy)]
pub enum Next {
    GoOn,
    LoadWord,
    Starve,
    LoadEnd,
    StartWords,
    StartEnds,
    Stay,
}

// "the oldest place not yet begun", where there is one
fn start(queue: Queue) -> Next
    requires { QueueFit queue }
    ensures { result ≡ pick (ltb queue.begun queue.used) (pick (ltb 0 (place_at queue queue.begun).words) StartWords StartEnds) Stay }
{
    if queue.begun < queue.used {
        let place = queue.places[queue.begun as usize];
        return if 0 < place.words {
            Next::StartWords
        } else {
            Next::StartEnds
        };
    }
    Next::Stay
}

// What is under way goes first: its piece, then its words, then its ENDs.
pub fn choose(sending: Sending, may: bool) -> Next
    requires { SendFit sending }
    ensures { result ≡ choose_of sending may }
{
    let sender = sending.sender;
    if sender.gone < line::piece_length(sender.piece) {
        return Next::GoOn;
    }
    if 0 < sender.left {
        if 0 < sending.tx.count {
            return Next::LoadWord;
        }
        return Next::Starve;
    }
    if 0 < sender.ends {
        return Next::LoadEnd;
    }
    if may {
        return start(sending.queue);
    }
    Next::Stay
}

pub fn bit_sent(next: Next, sender: Sender, word: u16) -> bool
    ensures { result ≡ bit_sent next sender word }
{
    match next {
        Next::GoOn => line::piece_bit(sender.piece, sender.gone),
        Next::LoadWord => line::piece_bit(Piece::WordPiece(word), 0),
        Next::StartWords => false,
        Next::Starve | Next::LoadEnd | Next::StartEnds | Next::Stay => true,
    }
}

pub fn is_starve(next: Next) -> bool
    ensures { result ≡ is_starve next }
{
    matches!(next, Next::Starve)
}

pub fn is_start(next: Next) -> bool
    ensures { result ≡ is_start next }
{
    matches!(next, Next::StartWords)
}

// What the registers say of a start.
pub fn may_start(control: Control) -> bool
    ensures { result ≡ may_start control }
{
    let normal = registers::is_normal(control.mode);
    let blocked = registers::blocking(control.flags);
    normal & !control.flags.por & !blocked
}
