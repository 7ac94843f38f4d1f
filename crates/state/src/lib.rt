// The bridge's record (01 What the bridge is), in sub-records by the rule that changes them. Counts are narrow: the whole is below 256 bytes.

#![tactic(auto)]

ghost use Rattle.std.specs.Prelude.{◌≡◌, ltb};
ghost use Rattle.state.specs.Frame.{data_words, is_forward};
ghost use Rattle.state.specs.Notes.{note_number};
ghost use Rattle.state.specs.Power.{power_up, power_up_bad, power_up_in, power_up_bad_in};

mod rings;

use command::Command;
use layout::Layout;
use line::{Ear, Piece};
use registers::{Control, Mode};
pub use rings::{less_one, popped};

// A lent store as a ring: the oldest word's cell, and how many words it holds.
#[derive(Clone, Copy)]
pub struct Ring {
    pub head: u16,
    pub count: u16,
}

// A queued command: its words have a place, and its extra ENDs have one (02 item 3). What has been freed of it is 0 here. `store`: what is read
// back goes to RX. `compare`: its first sent word asks for the CRCs to be compared. `damaged`: a check error came while it was read back.
#[derive(Clone, Copy)]
pub struct Place {
    pub words: u16,
    pub ends: u16,
    pub store: bool,
    pub compare: bool,
    pub damaged: bool,
    pub sent: bool,
    pub read: bool,
    pub crc_sent: u16,
    pub crc_read: u16,
}

// The commands with places in use, oldest first; the first `begun` of them have begun sending.
#[derive(Clone, Copy)]
pub struct Queue {
    pub places: [Place; 8],
    pub used: u16,
    pub begun: u16,
}

// The piece under way and its bits gone; the words still to take for this command, and the ENDs still to begin.
#[derive(Clone, Copy)]
pub struct Sender {
    pub piece: Piece,
    pub gone: u16,
    pub left: u16,
    pub ends: u16,
}

#[derive(Clone, Copy)]
pub struct Sending {
    pub tx: Ring,
    pub queue: Queue,
    pub sender: Sender,
}

// What the command being read does: it belongs to a place, its words go to RX, it has stored a word.
#[derive(Clone, Copy)]
pub struct Reader {
    pub ear: Ear,
    pub belongs: bool,
    pub storing: bool,
    pub stored: bool,
}

#[derive(Clone, Copy)]
pub struct Receiving {
    pub rx: Ring,
    pub reader: Reader,
}

// What an answer has still to give. `Check` is the CRC of the words answered.
#[derive(Clone, Copy)]
pub enum Reply {
    Status(u16),
    Data(u16),
    Registers { address: u16, left: u16 },
    Check,
}

// A frame's phase. `got`: data words that came. `crc`: of the words so far. `mine`: words of this frame in TX that are not released.
#[derive(Clone, Copy)]
pub enum Phase {
    Idle,
    Collecting {
        command: Command,
        got: u16,
        crc: u16,
        mine: u16,
        released: bool,
        blocked: bool,
    },
    Answering {
        reply: Reply,
        crc: u16,
    },
    Discarding,
}

// How far an open frame has come: what `Phase::Collecting` keeps beside the command.
// Stays: the C cells and the theorems' specs name `Collecting`'s own fields; this is what the functions hand on as one value.
#[derive(Clone, Copy)]
pub struct Progress {
    pub got: u16,
    pub crc: u16,
    pub mine: u16,
    pub released: bool,
    pub blocked: bool,
}

// What a forward's command word says: `Command::Forward`.
// Stays: `Command::Forward`'s fields are named by the theorems of the decoder (crate command); this is what the functions hand on as one value.
#[derive(Clone, Copy)]
pub struct Fwd {
    pub crc: bool,
    pub words: u16,
    pub ends: u16,
    pub reads: bool,
}

// The phase, the words that REG_WR_CRC holds until its CRC word, and whether the frame's CRC and its answer's are CRC-16/XMODEM (02 item 7).
#[derive(Clone, Copy)]
pub struct Frame {
    pub phase: Phase,
    pub held: [u16; 12],
    pub xmodem: bool,
}

// The last clock reading, the watchdog's mark, the SIN watch with its mark, and the last SIN bit.
#[derive(Clone, Copy)]
pub struct Clock {
    pub reading: u16,
    pub mark: u16,
    pub watching: bool,
    pub watch_mark: u16,
    pub sin: bool,
}

// Stays: no ghost field holds the record rules, since a caller may lend a broken record, which `step` refuses with note 2 (theorem Demand 1,
// `broken_record`): `QueueFit`, `SendFit` and `HostFit` stand in the contracts of the functions within.
#[derive(Clone, Copy)]
pub struct Bridge {
    pub control: Control,
    pub sending: Sending,
    pub receiving: Receiving,
    pub frame: Frame,
    pub clock: Clock,
}

// What a frame does to the sending side, after the word that it stores: queue a command, take words back, a transmit clear, a soft reset.
#[derive(Clone, Copy)]
pub enum Deed {
    Leave,
    Enqueue(Place),
    TakeBack(u16),
    ClearAll,
    ResetAll,
}

// The queue after a place got its marks, and whether it was freed with CRCs that differ.
#[derive(Clone, Copy)]
pub struct Returned {
    pub queue: Queue,
    pub differs: bool,
}

// The notes of 01, by its numbers.
#[derive(Clone, Copy, PartialEq, Eq)]
pub enum Note {
    Done = 0,
    WrongStores = 1,
    BrokenRecord = 2,
    MalformedWord = 3,
    Discarded = 4,
    Blocked = 5,
    CrcRefused = 6,
    CrcWrong = 7,
    TxFull = 8,
    QueueFull = 9,
    LineBusy = 10,
    ResetRefused = 11,
    CutShort = 12,
    TxEmpty = 13,
    RxFull = 14,
    RxEmpty = 15,
}

impl Place {
    pub const NONE: Place = Place {
        words: 0,
        ends: 0,
        store: false,
        compare: false,
        damaged: false,
        sent: false,
        read: false,
        crc_sent: 0,
        crc_read: 0,
    };
}

impl Bridge {
    // With good OTP, in our layout.
    pub const POWER_UP: Bridge = Bridge {
        control: Control::POWER_UP,
        sending: Sending {
            tx: Ring { head: 0, count: 0 },
            queue: Queue {
                places: [Place::NONE; 8],
                used: 0,
                begun: 0,
            },
            sender: Sender {
                piece: Piece::Pause,
                gone: 0,
                left: 0,
                ends: 0,
            },
        },
        receiving: Receiving {
            rx: Ring { head: 0, count: 0 },
            reader: Reader {
                ear: Ear::Quiet,
                belongs: false,
                storing: false,
                stored: false,
            },
        },
        frame: Frame {
            phase: Phase::Idle,
            held: [0; 12],
            xmodem: false,
        },
        clock: Clock {
            reading: 0,
            mark: 0,
            watching: false,
            watch_mark: 0,
            sin: true,
        },
    };

    pub fn good() -> Bridge
        ensures { result ≡ power_up }
    {
        Bridge::POWER_UP
    }

    // The same in INIT, with the OTP flag.
    pub fn bad() -> Bridge
        ensures { result ≡ power_up_bad }
    {
        Bridge::bad_in(Layout::Ours)
    }

    // With good OTP, in the layout that power-up chooses (02 item 7).
    pub fn good_in(layout: Layout) -> Bridge
        ensures { result ≡ power_up_in layout }
    {
        Bridge {
            control: registers::power_up_control(layout),
            ..Bridge::POWER_UP
        }
    }

    pub fn bad_in(layout: Layout) -> Bridge
        ensures { result ≡ power_up_bad_in layout }
    {
        let mut bridge = Bridge::good_in(layout);
        bridge.control.mode = Mode::Init;
        bridge.control.flags.otp = true;
        bridge
    }
}

// 01's number of a note.
pub fn number(note: Note) -> u16
    ensures { result ≡ note_number note }
{
    note as u16
}

// The data words between a frame's command word and its CRC word.
pub fn data_words(command: Command) -> u16
    ensures { result ≡ data_words command }
{
    match command {
        Command::Forward { words, .. } => words,
        Command::RegisterWrite { count, .. } => count,
        _ => 0,
    }
}

// Data words are still to come.
pub fn is_due(command: Command, got: u16) -> bool
    ensures { result ≡ ltb got (data_words command) }
{
    got < data_words(command)
}

pub fn is_forward(command: Command) -> bool
    ensures { result ≡ is_forward command }
{
    matches!(command, Command::Forward { .. })
}
