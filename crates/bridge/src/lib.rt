// The bridge for the outside: every event in every state gets an answer; wrong stores and broken records are refused, and then everything is
// as lent.

#![tactic(auto)]

ghost use Rattle.std.specs.Prelude.{◌≡◌};
ghost use Rattle.command.specs.Layouts.{layouts};
ghost use Rattle.events.specs.Turn.{out};
ghost use Rattle.bridge.specs.Step.{refusal, step as step_of};

use events::{Answer, Event};
use state::{Bridge, Note};

fn refused(bridge: Bridge, note: Note) -> Answer
    ensures { result ≡ refusal bridge note }
{
    Answer {
        state: bridge,
        sdo: 0xFFFF,
        sout: true,
        note: note,
    }
}

// One event.
pub fn step(bridge: Bridge, tx: &mut [u16], rx: &mut [u16], event: Event) -> Answer
    ensures { out result tx.new rx.new ≡ step_of layouts bridge tx.old rx.old event }
{
    if tx.len() != 512 {
        return refused(bridge, Note::WrongStores);
    }
    if rx.len() != 256 {
        return refused(bridge, Note::WrongStores);
    }
    if rules::sound(bridge) {
        return quick::turn(bridge, tx, rx, event);
    }
    refused(bridge, Note::BrokenRecord)
}
