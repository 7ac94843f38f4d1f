// Chip select released (01 Frames; note 12).

#![tactic(auto)]

ghost use Rattle.std.specs.Prelude.{◌≡◌, false};
ghost use Rattle.release.specs.Release.{cut_deed, cut as cut_of, released_in};

use command::Command;
use plan::{Plan, plain, raised_in};
use registers::Flag;
use state::{Bridge, Deed, Note, Phase};

// Note 12: what becomes of a forward.
fn cut_deed(command: Command, got: u16, mine: u16, released: bool) -> Deed
    ensures { result ≡ cut_deed command got mine released }
{
    if !released {
        return Deed::TakeBack(mine);
    }
    if state::is_due(command, got) {
        return Deed::ClearAll;
    }
    Deed::Leave
}

fn cut(bridge: Bridge, command: Command, got: u16, mine: u16, released: bool) -> Plan
    ensures { result ≡ cut_of bridge (cut_deed command got mine released) }
{
    Plan {
        control: raised_in(bridge.control, Flag::SpiCs),
        deed: cut_deed(command, got, mine, released),
        ..plain(bridge, Phase::Idle, Note::CutShort)
    }
}

// Chip select released.
pub fn released(bridge: Bridge) -> Plan
    ensures { result ≡ released_in bridge bridge.frame.phase }
{
    match bridge.frame.phase {
        Phase::Collecting {
            command,
            got,
            mine,
            released,
            ..
        } => cut(bridge, command, got, mine, released),
        Phase::Idle | Phase::Answering { .. } | Phase::Discarding => {
            plain(bridge, Phase::Idle, Note::Done)
        }
    }
}
