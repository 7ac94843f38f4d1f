// One rule an event: what it does to the state, what it says, and the words that it stores.
ghost use Rattle.std.specs.Prelude.{◌≡◌};
ghost use Rattle.command.specs.Layouts.{layouts};
ghost use Rattle.host.specs.Frames.{planned};
ghost use Rattle.release.specs.Release.{released_in};
ghost use Rattle.plan.specs.Plan.{marked};
ghost use Rattle.state.specs.Facts.{HostFit, Doable};
ghost use Rattle.state.specs.Sending.{stored};
ghost use Rattle.events.specs.Events.{powered as powered_of, hosted as hosted_of, reacted};

use crate::Event;
use clock::clocked;
use layout::Layout;
use plan::Plan;
use state::{Bridge, Clock};
use ticks::{Did, quietly, ticked};

fn powered(good: bool, layout: Layout) -> Bridge
    ensures { result ≡ powered_of good layout }
{
    if good {
        Bridge::good_in(layout)
    } else {
        Bridge::bad_in(layout)
    }
}

// Stays: (a) any caller lends the record, broken ones too (`step` refuses them with note 2), so no type can carry `HostFit`, `SendFit` or `Doable`.
// A host's plan carried out.
fn hosted(bridge: Bridge, clock: Clock, plan: Plan) -> Did
    requires host_fit { HostFit bridge }
    requires doable { Doable (stored bridge.sending plan.store) plan.deed }
    ensures { result ≡ hosted_of layouts bridge clock plan }
{
    let after = plan::performed(bridge, clock, plan);
    Did {
        sdo: plan.sdo,
        note: plan.note,
        tx: plan.store,
        ..quietly(after)
    }
}

fn word_event(bridge: Bridge, word: u16, rx_oldest: u16) -> Did
    requires { HostFit bridge }
    ensures { result ≡ hosted_of layouts bridge (marked bridge.clock) (planned layouts bridge word rx_oldest) }
{
    let plan = host::planned(bridge, word, rx_oldest);
    hosted(bridge, plan::marked(bridge.clock), plan)
}

fn release_event(bridge: Bridge) -> Did
    requires { HostFit bridge }
    ensures { result ≡ hosted_of layouts bridge bridge.clock (released_in bridge bridge.frame.phase) }
{
    hosted(bridge, bridge.clock, release::released(bridge))
}

pub fn react(bridge: Bridge, event: Event, tx_oldest: u16, rx_oldest: u16) -> Did
    requires { HostFit bridge }
    ensures { result ≡ reacted layouts bridge event tx_oldest rx_oldest }
{
    match event {
        Event::Power { good, layout } => quietly(powered(good, layout)),
        Event::Word(word) => word_event(bridge, word, rx_oldest),
        Event::Release => release_event(bridge),
        Event::Tick(sin) => ticked(bridge, sin, tx_oldest),
        Event::Clock(reading) => clocked(bridge, reading),
    }
}
