// A clock reading: the SIN watch and the SPI watchdog (01 The line).

#![tactic(auto)]

ghost use Rattle.std.specs.Prelude.{◌≡◌};
ghost use Rattle.clock.specs.Clock.{elapsed as elapsed_of, watch_fires, dog_fires, clocked as clocked_of, clocked_by, control_at, mode_at, flags_at};

use registers::{Control, Flag, Flags, Mode};
use state::{Bridge, Clock};
use ticks::{Did, quietly};

// The new reading minus the mark, modulo 65,536.
fn elapsed(reading: u16, mark: u16) -> u16
    ensures { result ≡ elapsed_of reading mark }
{
    reading.wrapping_sub(mark)
}

pub fn watch_fires(clock: Clock, reading: u16) -> bool
    ensures { result ≡ watch_fires clock reading }
{
    let due = 5 <= elapsed(reading, clock.watch_mark);
    clock.watching & due
}

pub fn dog_fires(bridge: Bridge, reading: u16) -> bool
    ensures { result ≡ dog_fires bridge reading }
{
    let limit = registers::dog_limit(bridge.control.regs);
    let normal = registers::is_normal(bridge.control.mode);
    let on = 0 < limit;
    let due = limit <= elapsed(reading, bridge.clock.mark);
    normal & on & due
}

fn mode_at(mode: Mode, fires: bool) -> Mode
    ensures { result ≡ mode_at mode fires }
{
    if fires { Mode::Failsafe } else { mode }
}

fn flags_at(flags: Flags, fires: bool) -> Flags
    ensures { result ≡ flags_at flags fires }
{
    if fires {
        registers::raise(flags, Flag::SinStuck)
    } else {
        flags
    }
}

pub fn control_at(control: Control, bites: bool, fires: bool, count: u16) -> Control
    ensures { result ≡ control_at control bites fires count }
{
    let after = Control {
        mode: mode_at(control.mode, bites),
        flags: flags_at(control.flags, fires),
        ..control
    };
    plan::settled(after, count, false)
}

fn clocked_by(bridge: Bridge, reading: u16, bites: bool, fires: bool) -> Bridge
    ensures { result ≡ clocked_by bridge reading bites fires }
{
    let clock = Clock {
        reading,
        watching: bridge.clock.watching & !fires,
        ..bridge.clock
    };
    Bridge {
        control: control_at(bridge.control, bites, fires, bridge.receiving.rx.count),
        clock,
        ..bridge
    }
}

pub fn clocked(bridge: Bridge, reading: u16) -> Did
    ensures { result ≡ clocked_of bridge reading }
{
    let fires = watch_fires(bridge.clock, reading);
    let bites = dog_fires(bridge, reading);
    quietly(clocked_by(bridge, reading, bites, fires))
}
