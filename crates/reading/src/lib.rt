// What each address reads (01 Registers; 001 7.6). The definitions are `registers`'s.

#![tactic(auto)]

ghost use Rattle.std.specs.Prelude.{◌≡◌, ◌^◌, ◌≤◌, ◌<◌};
ghost use Rattle.base.specs.Bits.{flag as flag_of};
ghost use Rattle.registers.specs.Registers.{mode_number, unmasked as unmasked_of, unhidden as unhidden_of, err as err_of, status_of, ifst_of, fifo_of, read_of};

use registers::{Control, Flags, Mode, bit, is_failsafe, row};

// A flag in its place. The bound is for the sums of flags.
fn flag(k: u16, on: bool) -> u16
    requires { k < 16 }
    ensures { (result ≡ flag_of k on) × (result ≤ 2 ^ k) }
{
    if on { 1 << k } else { 0 }
}

// The flags that count for ERR whatever DIAGMASK is.
fn unmasked(flags: Flags) -> bool
    ensures { result ≡ unmasked_of flags }
{
    flags.otp
        | flags.por
        | flags.srst
        | flags.reg_write
        | flags.spi_cs
        | flags.queue_ovf
        | flags.txffovf
        | flags.txffuvf
        | flags.rxffovf
        | flags.rxffuvf
}

// The flags that DIAGMASK may hide, each by its bit.
fn unhidden(flags: Flags, mask: u16) -> bool
    ensures { result ≡ unhidden_of flags mask }
{
    let check_bit = flags.check_bit & !bit(mask, 11);
    let line_crc = flags.line_crc & !bit(mask, 9);
    let sin = flags.sin & !bit(mask, 8);
    let spi_crc = flags.spi_crc & !bit(mask, 0);
    check_bit | line_crc | sin | spi_crc
}

pub fn err(control: Control) -> bool
    ensures { result ≡ err_of control }
{
    unmasked(control.flags)
        | unhidden(control.flags, control.regs.diagmask)
        | is_failsafe(control.mode)
}

// STATUS's field of the device state.
// Stays: a code of this register (001 7.6.8), as the other fields' places are; as the numbers of `Mode` itself it would stand in a crate that reads nothing.
fn mode_number(mode: Mode) -> u16
    ensures { (result ≡ mode_number mode) × (result ≤ 3) }
{
    match mode {
        Mode::Normal => 0,
        Mode::Init => 1,
        Mode::Failsafe => 3,
    }
}

// Disjoint bits, so a sum.
pub fn status(control: Control) -> u16
    ensures { result ≡ status_of control }
{
    let Control {
        mode,
        drdy,
        flags,
        ..
    } = control;
    flag(
        14,
        flags.queue_ovf | flags.check_bit | flags.line_crc | flags.sin,
    ) + flag(12, flags.txffovf | flags.txffuvf)
        + flag(11, flags.rxffovf | flags.rxffuvf)
        + flag(10, drdy)
        + flag(9, flags.srst)
        + flag(8, flags.spi_cs)
        + flag(7, flags.reg_write)
        + flag(6, flags.spi_crc)
        + mode_number(mode) * 16
        + flag(3, flags.otp)
        + flag(1, flags.por)
        + flag(0, err(control))
}

fn ifst(flags: Flags) -> u16
    ensures { result ≡ ifst_of flags }
{
    flag(9, flags.spi_cs)
        + flag(4, flags.queue_ovf)
        + flag(3, flags.check_bit)
        + flag(1, flags.line_crc)
        + flag(0, flags.sin)
}

// The status of a FIFO: its flags, and the words in it as far as the field goes.
fn fifo(ovf: bool, uvf: bool, most: u16, count: u16) -> u16
    requires { most < 512 }
    ensures { result ≡ fifo_of ovf uvf most count }
{
    flag(15, ovf) + flag(14, uvf) + count.min(most)
}

// There is no register above 11.
pub fn read(control: Control, tx_count: u16, rx_count: u16, address: u16) -> u16
    ensures { result ≡ read_of control tx_count rx_count address }
{
    let Control { flags, regs, .. } = control;
    match address {
        0 => row(regs.layout, 0).reset,
        1 => regs.spictrl,
        2 => regs.ccsictrl,
        3 => regs.txfflvl,
        4 => regs.rxfflvl,
        5 => row(regs.layout, 5).reset,
        6 => regs.diagmask,
        7 => status(control),
        8 => ifst(flags),
        9 => fifo(flags.txffovf, flags.txffuvf, 511, tx_count),
        10 => fifo(flags.rxffovf, flags.rxffuvf, 255, rx_count),
        11 => flags.bad_word,
        _ => 0,
    }
}
