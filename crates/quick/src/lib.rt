// The short way for most ticks: those that move only the bit under way, or find the line at rest. Nothing is begun, taken, sent or read, so
// no cell, place or flag changes. What they do is what `turn` says of them.

#![tactic(auto)]

ghost use Rattle.std.specs.Prelude.{◌≡◌, true, List, ℕ, ◌≤◌};
ghost use Rattle.base.specs.Pick.{pick};
ghost use Rattle.command.specs.Layouts.{layouts};
ghost use Rattle.next.specs.Next.{bit_sent};
ghost use Rattle.sender.specs.Sender.{sender_after};
ghost use Rattle.next.specs.declared.Next.TheVariants.{GoOn, Stay};
ghost use Rattle.state.specs.Facts.{QueueFit, HostFit};
ghost use Rattle.events.specs.declared.Event.TheVariants.{Tick};
ghost use Rattle.quick.specs.Passing.{is_nothing, in_piece, rests as rests_of, passes_by, passes as passes_of};
ghost use Rattle.events.specs.Turn.{out, Ready, turn as turn_of};

use events::{Answer, Event};
use line::{Found, Piece};
use state::{Bridge, Note, Sender, Sending};
use ticks::watched;

pub fn is_nothing(found: Found) -> bool
    ensures { result ≡ is_nothing found }
{
    matches!(found, Found::Nothing)
}

// More than one bit of the piece is left: with its last a place may be sent.
fn in_piece(sender: Sender) -> bool
    requires { sender.gone ≤ 18 }
    ensures { result ≡ in_piece sender }
{
    sender.gone + 1 < line::piece_length(sender.piece)
}

// Nothing to send, and nothing that waits may begin.
pub fn rests(sending: Sending, may: bool) -> bool
    requires { QueueFit sending.queue }
    ensures { result ≡ rests_of sending may }
{
    let queue = sending.queue;
    let waits = queue.begun < queue.used;
    if waits & may {
        return false;
    }
    if queue::is_under_way(queue) {
        return false;
    }
    deeds::is_idle(sending.sender)
}

fn passes_by(bridge: Bridge, found: Found) -> bool
    requires { HostFit bridge }
    ensures { result ≡ passes_by bridge found }
{
    is_nothing(found)
        && (in_piece(bridge.sending.sender)
            || rests(bridge.sending, next::may_start(bridge.control)))
}

fn passes(bridge: Bridge, sin: bool) -> bool
    requires { HostFit bridge }
    ensures { result ≡ passes_of bridge (Tick sin) }
{
    let heard = line::hear(bridge.receiving.reader.ear, sin);
    passes_by(bridge, heard.found)
}

// A sender at rest holds no piece, whatever it sent last.
fn sender_after(sending: Sending) -> Sender
    requires { sending.sender.gone ≤ 18 }
    ensures { result ≡ pick (in_piece sending.sender) (sender_after GoOn sending 0) (sender_after Stay sending 0) }
{
    let sender = sending.sender;
    if in_piece(sender) {
        return Sender {
            gone: sender.gone + 1,
            ..sender
        };
    }
    Sender {
        piece: Piece::Pause,
        gone: 0,
        left: 0,
        ends: 0,
    }
}

fn bit_sent(sender: Sender) -> bool
    requires { sender.gone ≤ 18 }
    ensures { result ≡ pick (in_piece sender) (bit_sent GoOn sender 0) (bit_sent Stay sender 0) }
{
    if in_piece(sender) {
        return line::piece_bit(sender.piece, sender.gone);
    }
    true
}

fn passed(bridge: Bridge, sin: bool) -> Answer
    requires host_fit { HostFit bridge }
    requires event_value { passes_of bridge (Tick sin) ≡ true }
    ensures { (tx rx : List ℕ) → out result tx rx ≡ turn_of layouts bridge tx rx (Tick sin) }
{
    let heard = line::hear(bridge.receiving.reader.ear, sin);
    let receiving = reader::with_ear(bridge.receiving, heard.ear);
    let sender = sender_after(bridge.sending);
    let sout = bit_sent(bridge.sending.sender);
    let control = plan::settled(bridge.control, bridge.receiving.rx.count, false);
    let clock = watched(bridge.clock, false, sin);
    Answer {
        state: Bridge {
            control,
            sending: Sending {
                sender,
                ..bridge.sending
            },
            receiving,
            clock,
            ..bridge
        },
        sdo: 0xFFFF,
        sout,
        note: Note::Done,
    }
}

// An event on stores of the right lengths and a record that obeys the rules.
pub fn turn(bridge: Bridge, tx: &mut [u16], rx: &mut [u16], event: Event) -> Answer
    requires { Ready bridge tx.old rx.old }
    ensures { out result tx.new rx.new ≡ turn_of layouts bridge tx.old rx.old event }
{
    if let Event::Tick(sin) = event
        && passes(bridge, sin)
    {
        return passed(bridge, sin);
    }
    events::turn(bridge, tx, rx, event)
}
