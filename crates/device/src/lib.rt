// The bridge together with the two stores that it is lent (01 What the bridge is), as a program keeps them that has room for all three.

#![tactic(auto)]

ghost use Rattle.std.specs.Prelude.{◌≡◌};
ghost use Rattle.command.specs.Layouts.{layouts};
ghost use Rattle.bridge.specs.Runs.{out_of, next};
ghost use Rattle.drain.specs.Drain.{end, drain as drain_of};
ghost use Rattle.device.specs.Lent.{lent, blank};

use drain::Drained;
use events::{Answer, Event};
use state::Bridge;

#[derive(Drop)]
pub struct Device {
    pub bridge: Bridge,
    pub tx: [u16; 512],
    pub rx: [u16; 256],
}

impl Device {
    // Stores of zeros.
    pub fn new(bridge: Bridge) -> Self
        ensures { lent result ≡ blank bridge }
    {
        Device {
            bridge,
            tx: [0; 512],
            rx: [0; 256],
        }
    }

    // One event. The state and the stores are kept for the next.
    pub fn step(&mut self, event: Event) -> Answer
        ensures answer { result ≡ (out_of layouts (lent self.old) event).answer }
        ensures kept { lent self.new ≡ next layouts (lent self.old) event }
    {
        let answer = bridge::step(self.bridge, &mut self.tx, &mut self.rx, event);
        self.bridge = answer.state;
        answer
    }

    // Ticks until nothing is left to send (01 The line).
    pub fn drain(&mut self, budget: u32) -> Drained
        ensures drained { end result self.new.tx self.new.rx ≡ drain_of layouts self.old.bridge self.old.tx self.old.rx budget }
        ensures kept { self.new.bridge ≡ result.state }
    {
        let drained = drain::drain(self.bridge, &mut self.tx, &mut self.rx, budget);
        self.bridge = drained.state;
        drained
    }
}
