// Flags raised by name (01 Notes, Registers), and CHECK_BIT with its number (02 item 4).
ghost use Rattle.std.specs.Prelude.{◌≡◌};
ghost use Rattle.base.specs.Pick.{pick};
ghost use Rattle.registers.specs.Raising.{raised, went_bad};

use crate::{Flag, Flags};

// That flag is up, the others stay.
pub fn raise(flags: Flags, flag: Flag) -> Flags
    ensures { result ≡ raised flags flag }
{
    let mut up = flags;
    match flag {
        Flag::Srst => up.srst = true,
        Flag::RegWrite => up.reg_write = true,
        Flag::SpiCrc => up.spi_crc = true,
        Flag::SpiCs => up.spi_cs = true,
        Flag::QueueOvf => up.queue_ovf = true,
        Flag::LineCrc => up.line_crc = true,
        Flag::SinStuck => up.sin = true,
        Flag::TxOvf => up.txffovf = true,
        Flag::TxUvf => up.txffuvf = true,
        Flag::RxOvf => up.rxffovf = true,
        Flag::RxUvf => up.rxffuvf = true,
    }
    up
}

// The number of the first bad word: with CHECK_BIT up there was one.
fn first_bad(up: bool, kept: u16, number: u16) -> u16
    ensures { result ≡ pick up kept number }
{
    if up { kept } else { number }
}

// A bad check bit came on the word of that number.
pub fn went_bad(flags: Flags, number: u16) -> Flags
    ensures { result ≡ went_bad flags number }
{
    Flags {
        check_bit: true,
        bad_word: first_bad(flags.check_bit, flags.bad_word, number),
        ..flags
    }
}
