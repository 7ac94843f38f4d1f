// The command words of a frame, in either layout, and where its CRC starts (01 Frames; 02 item 7). Of the bridge only this crate knows their bits; the host's side, `frames`, writes them.

#![tactic(auto)]

ghost use Rattle.std.specs.Prelude.{◌≡◌};
ghost use Rattle.base.specs.Pick.{pick};
ghost use Rattle.command.specs.Layout.{fields_of, spans as spans_of, register_write, register_read, soft_reset, decode_by};
ghost use Rattle.command.specs.Layouts.{start_by};

use layout::Layout;

// What a command word asks. `crc`: the command is named _CRC and acts at a right CRC word only.
#[derive(Clone, Copy)]
pub enum Command {
    Filler,
    Malformed,
    Forward {
        crc: bool,
        words: u16,
        ends: u16,
        reads: bool,
    },
    DataRead {
        crc: bool,
        words: u16,
    },
    RegisterWrite {
        crc: bool,
        address: u16,
        count: u16,
    },
    RegisterRead {
        crc: bool,
        address: u16,
        count: u16,
    },
    SoftReset,
}

// The fields of a command word's low twelve bits: words and extra ENDs of 4 to 7; of 10 to 13 the zero bits' being zero, address and count; of 14
// its fixed bits' being right.
#[derive(Clone, Copy)]
pub struct Fields {
    pub words: u16,
    pub ends: u16,
    pub zeros: bool,
    pub address: u16,
    pub count: u16,
    pub reset: bool,
}

// Where each layout has them (01 Frames; 001 table 7-2).
fn fields_of(layout: Layout, low: u16) -> Fields
    ensures { result ≡ fields_of layout low }
{
    match layout {
        Layout::Ours => Fields {
            words: low % 32,
            ends: low / 32,
            zeros: low / 16 % 16 == 0,
            address: low % 16,
            count: low / 256 + 1,
            reset: low == 0,
        },
        Layout::Makers => Fields {
            words: low / 128,
            ends: low % 128,
            zeros: (low / 1024 == 0) & (low / 16 % 4 == 0),
            address: low / 64 % 16,
            count: low % 16 + 1,
            reset: low == 0x1E1,
        },
    }
}

// Stays: a row of `decode` is one line so, where a literal of named fields takes six.
fn forward(crc: bool, words: u16, ends: u16, reads: bool) -> Command
    ensures { result ≡ Command.Forward crc words ends reads }
{
    Command::Forward {
        crc,
        words,
        ends,
        reads,
    }
}

// Stays: as `forward`.
fn data_read(crc: bool, words: u16) -> Command
    ensures { result ≡ Command.DataRead crc words }
{
    Command::DataRead { crc, words }
}

// Numbers 10 to 13: registers that exist, from an address on.
fn spans(f: Fields) -> bool
    ensures { result ≡ spans_of f }
{
    f.zeros && u32::from(f.address) + u32::from(f.count) <= 12
}

fn register(crc: bool, f: Fields, reads: bool) -> Command
    ensures { result ≡ pick reads (register_read crc f) (register_write crc f) }
{
    let Fields { address, count, .. } = f;
    if !spans(f) {
        Command::Malformed
    } else if reads {
        Command::RegisterRead {
            crc,
            address,
            count,
        }
    } else {
        Command::RegisterWrite {
            crc,
            address,
            count,
        }
    }
}

fn soft_reset(f: Fields) -> Command
    ensures { result ≡ soft_reset f }
{
    if f.reset {
        Command::SoftReset
    } else {
        Command::Malformed
    }
}

// One decision by number: thirteen commands, filler, and every other word malformed.
pub fn decode(layout: Layout, word: u16) -> Command
    ensures { result ≡ decode_by layout word }
{
    let low = word % 4096;
    let f = fields_of(layout, low);
    match word {
        0x2000..=0x21FF => forward(true, low + 1, 0, false),
        0x3000..=0x3FFF => forward(false, low + 1, 0, false),
        0x4000..=0x4FFF => forward(true, f.words, f.ends, false),
        0x5000..=0x5FFF => forward(false, f.words, f.ends, false),
        0x6000..=0x6FFF => forward(true, f.words + 1, f.ends, true),
        0x7000..=0x7FFF => forward(false, f.words + 1, f.ends, true),
        0x8000..=0x80FF => data_read(true, low + 1),
        0x9000..=0x90FF => data_read(false, low + 1),
        0xA000..=0xAFFF => register(true, f, false),
        0xB000..=0xBFFF => register(false, f, false),
        0xC000..=0xCFFF => register(true, f, true),
        0xD000..=0xDFFF => register(false, f, true),
        0xE000..=0xEFFF => soft_reset(f),
        0xFFFF => Command::Filler,
        _ => Command::Malformed,
    }
}

// Where the CRC of a frame starts, by whether its algorithm is CRC-16/XMODEM (001 7.5.3).
pub fn crc_start(xmodem: bool) -> u16
    ensures { result ≡ start_by xmodem }
{
    if xmodem { 0 } else { crc16::START }
}
