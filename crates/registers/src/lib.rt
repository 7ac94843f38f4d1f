// The registers (01 Registers; 02 items 4 and 7; 001 7.6): a table for each layout, the flags, what each address reads and what a write does. Only
// this crate knows the places of their bits.

#![tactic(auto)]

mod raising;
mod spictrl;
mod word;

ghost use Rattle.std.specs.Prelude.{◌≡◌};
ghost use Rattle.registers.specs.Registers.{cleared, blocking as blocking_of, is_normal, is_failsafe, table_of, row_of, reset_regs, regs_sound, power_up_control};

use layout::Layout;
pub use raising::{raise, went_bad};
pub use spictrl::{dog_limit, is_xmodem};
pub use word::bit;

// What a register reads after power-up, and the bits that a write reaches.
#[derive(Clone, Copy)]
pub struct Register {
    pub reset: u16,
    pub writable: u16,
}

// The device's state.
#[derive(Clone, Copy)]
pub enum Mode {
    Normal,
    Init,
    Failsafe,
}

// The flags: OTP, POR, SRST, REG_WRITE, SPI_CRC of STATUS; SPI_CS, QUEUE_OVF, CHECK_BIT, line CRC, SIN of IFST; those of the FIFOs. Beside them
// what register 11 shows: the number of the word that CHECK_BIT went up for, 0 while it is down (02 item 4).
#[derive(Clone, Copy)]
pub struct Flags {
    pub otp: bool,
    pub por: bool,
    pub srst: bool,
    pub reg_write: bool,
    pub spi_crc: bool,
    pub spi_cs: bool,
    pub queue_ovf: bool,
    pub check_bit: bool,
    pub line_crc: bool,
    pub sin: bool,
    pub txffovf: bool,
    pub txffuvf: bool,
    pub rxffovf: bool,
    pub rxffuvf: bool,
    pub bad_word: u16,
}

// The registers that hold what was written, and whose table they go by.
#[derive(Clone, Copy)]
pub struct Regs {
    pub layout: Layout,
    pub spictrl: u16,
    pub ccsictrl: u16,
    pub txfflvl: u16,
    pub rxfflvl: u16,
    pub diagmask: u16,
}

#[derive(Clone, Copy)]
pub struct Control {
    pub mode: Mode,
    pub drdy: bool,
    pub flags: Flags,
    pub regs: Regs,
}

// The flags that events raise, by name. CHECK_BIT has no name here: it goes up with its number (`went_bad`).
#[derive(Clone, Copy)]
pub enum Flag {
    Srst,
    RegWrite,
    SpiCrc,
    SpiCs,
    QueueOvf,
    LineCrc,
    SinStuck,
    TxOvf,
    TxUvf,
    RxOvf,
    RxUvf,
}

// What a write asks of the bridge beyond the registers. `Refused` is note 10.
#[derive(Clone, Copy)]
pub enum Effect {
    Nothing,
    TransmitClear,
    ReceiveClear,
    Refused,
}

#[derive(Clone, Copy)]
pub struct Written {
    pub control: Control,
    pub effect: Effect,
}

// The rows that both tables have (01's table; 001 7.6).
const CCSICTRL: Register = Register {
    reset: 0x0000,
    writable: 0xFFFF,
};

const RXFFLVL: Register = Register {
    reset: 0x00FF,
    writable: 0x80FF,
};

const DEVCTRL: Register = Register {
    reset: 0x0000,
    writable: 0x0005,
};

const DIAGMASK: Register = Register {
    reset: 0x0000,
    writable: 0x0B01,
};

const STATUS: Register = Register {
    reset: 0x0403,
    writable: 0x8000,
};

// IFST, TXFFST, RXFFST and register 11 (02 item 4); our DEVID; and what there is beyond the table.
const READ_ONLY: Register = Register {
    reset: 0x0000,
    writable: 0x0000,
};

// By address (01's table): what power-up, write and read go by.
pub const OURS: [Register; 12] = [
    READ_ONLY,
    // 1 SPICTRL
    Register {
        reset: 0x0000,
        writable: 0xFF01,
    },
    CCSICTRL,
    // 3 TXFFLVL
    Register {
        reset: 0x003F,
        writable: 0x81FF,
    },
    RXFFLVL,
    DEVCTRL,
    DIAGMASK,
    STATUS,
    READ_ONLY,
    READ_ONLY,
    READ_ONLY,
    READ_ONLY,
];

// The maker's (001 7.6), with register 11 behind it (02 item 4).
pub const MAKERS: [Register; 12] = [
    // 0 DEVID
    Register {
        reset: 0xED99,
        writable: 0x0000,
    },
    // 1 SPICTRL
    Register {
        reset: 0x00A0,
        writable: 0x30F7,
    },
    CCSICTRL,
    // 3 TXFFLVL
    Register {
        reset: 0x01FF,
        writable: 0x81FF,
    },
    RXFFLVL,
    DEVCTRL,
    DIAGMASK,
    STATUS,
    READ_ONLY,
    READ_ONLY,
    READ_ONLY,
    READ_ONLY,
];

impl Regs {
    pub const OURS: Regs = Regs {
        layout: Layout::Ours,
        spictrl: OURS[1].reset,
        ccsictrl: OURS[2].reset,
        txfflvl: OURS[3].reset,
        rxfflvl: OURS[4].reset,
        diagmask: OURS[6].reset,
    };

    pub const MAKERS: Regs = Regs {
        layout: Layout::Makers,
        spictrl: MAKERS[1].reset,
        ccsictrl: MAKERS[2].reset,
        txfflvl: MAKERS[3].reset,
        rxfflvl: MAKERS[4].reset,
        diagmask: MAKERS[6].reset,
    };
}

impl Flags {
    const DOWN: Flags = Flags {
        otp: false,
        por: false,
        srst: false,
        reg_write: false,
        spi_crc: false,
        spi_cs: false,
        queue_ovf: false,
        check_bit: false,
        line_crc: false,
        sin: false,
        txffovf: false,
        txffuvf: false,
        rxffovf: false,
        rxffuvf: false,
        bad_word: 0,
    };
}

impl Control {
    // With good OTP, in our layout. POR is up and DRDY is 1, as STATUS's reset value says.
    pub const POWER_UP: Control = Control {
        mode: Mode::Normal,
        drdy: true,
        flags: Flags {
            por: true,
            ..Flags::DOWN
        },
        regs: Regs::OURS,
    };
}

fn reset_regs(layout: Layout) -> Regs
    ensures { result ≡ reset_regs layout }
{
    match layout {
        Layout::Ours => Regs::OURS,
        Layout::Makers => Regs::MAKERS,
    }
}

// The registers as power-up leaves them, with good OTP.
pub fn power_up_control(layout: Layout) -> Control
    ensures { result ≡ power_up_control layout }
{
    Control {
        regs: reset_regs(layout),
        ..Control::POWER_UP
    }
}

fn rows(layout: Layout) -> &'static [Register; 12]
    ensures { result.now ≡ table_of layout }
{
    match layout {
        Layout::Ours => &OURS,
        Layout::Makers => &MAKERS,
    }
}

// What the chosen layout's table has at an address; nothing where there is no register.
pub fn row(layout: Layout, address: u16) -> Register
    ensures { result ≡ row_of layout address }
{
    if address < 12 {
        rows(layout)[usize::from(address)]
    } else {
        READ_ONLY
    }
}

// "Clearing clears all but OTP".
pub fn cleared_flags(flags: Flags) -> Flags
    ensures { result ≡ cleared flags }
{
    Flags {
        otp: flags.otp,
        ..Flags::DOWN
    }
}

// Whether a forward is refused and no command begins (01 Notes, 5).
pub fn blocking(flags: Flags) -> bool
    ensures { result ≡ blocking_of flags }
{
    flags.txffovf | flags.txffuvf | flags.queue_ovf
}

// "Bad OTP stays in INIT": force does not act there.
pub fn is_normal(mode: Mode) -> bool
    ensures { result ≡ is_normal mode }
{
    matches!(mode, Mode::Normal)
}

pub fn is_failsafe(mode: Mode) -> bool
    ensures { result ≡ is_failsafe mode }
{
    matches!(mode, Mode::Failsafe)
}

// The record rule of the registers: no bit is up that a write cannot reach.
pub fn regs_sound(regs: Regs) -> bool
    ensures { result ≡ regs_sound regs }
{
    let spictrl = regs.spictrl & row(regs.layout, 1).writable == regs.spictrl;
    let txfflvl = regs.txfflvl < 512;
    let rxfflvl = regs.rxfflvl < 256;
    let diagmask = regs.diagmask & row(regs.layout, 6).writable == regs.diagmask;
    spictrl & txfflvl & rxfflvl & diagmask
}
