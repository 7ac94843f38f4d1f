// What a write of each address does (01 Registers). The definitions are `registers`'s.

#![tactic(auto)]

ghost use Rattle.std.specs.Prelude.{◌≡◌};
ghost use Rattle.base.specs.Bits.{bit as bit_of};
ghost use Rattle.base.specs.Pick.{pick};
ghost use Rattle.registers.specs.Writing.{written, with_regs, with_spictrl, with_diagmask, with_mode, write_ccsictrl, write_txfflvl, write_rxfflvl, mode_after, write_status, write_masked, write_of};

use registers::{
    Control, Effect, Mode, Regs, Written, bit, cleared_flags, is_failsafe, is_normal, row,
};

fn plain(control: Control) -> Written
    ensures { result ≡ written control Effect.Nothing }
{
    Written {
        control,
        effect: Effect::Nothing,
    }
}

// Stays, as do the writes of CCSICTRL, DIAGMASK and both levels: they differ in the field alone, and a field's name is no parameter.
fn write_spictrl(control: Control, value: u16) -> Written
    ensures { result ≡ written (with_regs control (with_spictrl control.regs value)) Effect.Nothing }
{
    let mut after = control;
    after.regs.spictrl = value;
    plain(after)
}

// Note 10 where the sender or the reader is busy.
fn write_ccsictrl(control: Control, busy: bool, value: u16) -> Written
    ensures { result ≡ write_ccsictrl control busy value }
{
    let mut after = control;
    if busy {
        after.flags.reg_write = true;
        return Written {
            control: after,
            effect: Effect::Refused,
        };
    }
    after.regs.ccsictrl = value;
    plain(after)
}

// These registers, and what bit 15 of a level asks.
fn write_level(control: Control, regs: Regs, value: u16, clear: Effect) -> Written
    ensures { result ≡ written (with_regs control regs) (pick (bit_of 15 value) clear Effect.Nothing) }
{
    Written {
        control: Control { regs, ..control },
        effect: if bit(value, 15) {
            clear
        } else {
            Effect::Nothing
        },
    }
}

// The level is written also where bit 15 is 1, which reads 0.
fn write_txfflvl(control: Control, value: u16) -> Written
    ensures { result ≡ write_txfflvl control value }
{
    let regs = Regs {
        txfflvl: value % 0x8000,
        ..control.regs
    };
    write_level(control, regs, value, Effect::TransmitClear)
}

fn write_rxfflvl(control: Control, value: u16) -> Written
    ensures { result ≡ write_rxfflvl control value }
{
    let regs = Regs {
        rxfflvl: value % 0x8000,
        ..control.regs
    };
    write_level(control, regs, value, Effect::ReceiveClear)
}

// Both are judged on the state before the write.
fn mode_after(mode: Mode, value: u16) -> Mode
    ensures { result ≡ mode_after mode value }
{
    let force = bit(value, 2);
    let exit = bit(value, 0);
    if is_normal(mode) & force {
        return Mode::Failsafe;
    }
    if is_failsafe(mode) & exit {
        return Mode::Normal;
    }
    mode
}

fn write_devctrl(control: Control, value: u16) -> Written
    ensures { result ≡ written (with_mode control (mode_after control.mode value)) Effect.Nothing }
{
    plain(Control {
        mode: mode_after(control.mode, value),
        ..control
    })
}

fn write_diagmask(control: Control, value: u16) -> Written
    ensures { result ≡ written (with_regs control (with_diagmask control.regs value)) Effect.Nothing }
{
    let mut after = control;
    after.regs.diagmask = value;
    plain(after)
}

fn write_status(control: Control, value: u16) -> Written
    ensures { result ≡ write_status control value }
{
    if bit(value, 15) {
        return plain(Control {
            flags: cleared_flags(control.flags),
            ..control
        });
    }
    plain(control)
}

fn write_masked(control: Control, busy: bool, address: u16, value: u16) -> Written
    ensures { result ≡ write_masked control busy address value }
{
    match address {
        1 => write_spictrl(control, value),
        2 => write_ccsictrl(control, busy, value),
        3 => write_txfflvl(control, value),
        4 => write_rxfflvl(control, value),
        5 => write_devctrl(control, value),
        6 => write_diagmask(control, value),
        7 => write_status(control, value),
        _ => plain(control),
    }
}

pub fn write(control: Control, busy: bool, address: u16, value: u16) -> Written
    ensures { result ≡ write_of control busy address value }
{
    let reached = value & row(control.regs.layout, address).writable;
    write_masked(control, busy, address, reached)
}
