// A record as numbers, in the order of the columns of crates/refusals/stdin: made of them, told as them, and compared with them. `refusals` and
// `states` use it. A variant is its number in the order of its type, and a bool is 0 or 1: `is` of `built` tells numbers that are no record's.

#![tactic(auto)]

ghost use Rattle.std.specs.Prelude.{◌≡◌, ◌+◌, ◌<◌, ◌≤◌, get_or, length};

use command::Command;
use layout::Layout;
use line::{Ear, Piece};
use registers::{Control, Flags, Mode, Regs};
use state::{
    Bridge, Clock, Frame, Phase, Place, Queue, Reader, Receiving, Reply, Ring, Sender, Sending,
};

pub const COLUMNS: usize = 144;

// Those of the state; behind them are the numbers of cells of the lent stores.
const STATE: usize = 142;

pub const TX_CELLS: usize = 142;

pub const RX_CELLS: usize = 143;

pub type Fields = [u16; COLUMNS];

// A variant's number, and what the variants of its type hold: seven columns.
#[derive(Clone, Copy)]
struct Parts {
    kind: u16,
    a: u16,
    b: u16,
    c: u16,
    d: u16,
    x: bool,
    y: bool,
}

// The number of a column; 0 past the last.
pub fn at(f: &Fields, column: usize) -> u16
    ensures { result ≡ get_or f.now column 0 }
{
    if column < COLUMNS {
        return f[column];
    }
    0
}

fn on(f: &Fields, column: usize) -> bool
    requires { column < 144 }
{
    f[column] == 1
}

// Numbers from a column on.
fn put(f: &mut Fields, from: usize, numbers: &[u16])
    requires { from + length numbers.now ≤ 144 }
{
    for (i, &number) in numbers.iter().enumerate() {
        f[from + i] = number;
    }
}

// Marks from a column on, as 1 and 0.
// Stays: a loop beside `put`'s, since `fields` takes four times the instructions with `bits.map(u16::from)`.
fn put_bits(f: &mut Fields, from: usize, bits: &[bool])
    requires { from + length bits.now ≤ 144 }
{
    for (i, &bit) in bits.iter().enumerate() {
        f[from + i] = u16::from(bit);
    }
}

impl Parts {
    const NONE: Parts = Parts {
        kind: 0,
        a: 0,
        b: 0,
        c: 0,
        d: 0,
        x: false,
        y: false,
    };

    fn bare(kind: u16) -> Self {
        Parts {
            kind,
            ..Parts::NONE
        }
    }

    fn at(f: &Fields, from: usize) -> Self
        requires { from ≤ 100 }
    {
        Parts {
            kind: f[from],
            a: f[from + 1],
            b: f[from + 2],
            c: f[from + 3],
            d: f[from + 4],
            x: on(f, from + 5),
            y: on(f, from + 6),
        }
    }

    fn put(self, f: &mut Fields, from: usize)
        requires { from ≤ 100 }
    {
        let Parts {
            kind,
            a,
            b,
            c,
            d,
            x,
            y,
        } = self;
        put(f, from, &[kind, a, b, c, d, u16::from(x), u16::from(y)]);
    }
}

fn mode(number: u16) -> Mode {
    match number {
        0 => Mode::Normal,
        1 => Mode::Init,
        _ => Mode::Failsafe,
    }
}

fn layout(number: u16) -> Layout {
    match number {
        0 => Layout::Ours,
        _ => Layout::Makers,
    }
}

fn control(f: &Fields) -> Control {
    Control {
        mode: mode(f[0]),
        drdy: on(f, 6),
        flags: flags(f),
        regs: Regs {
            layout: layout(f[140]),
            spictrl: f[1],
            ccsictrl: f[2],
            txfflvl: f[3],
            rxfflvl: f[4],
            diagmask: f[5],
        },
    }
}

fn flags(f: &Fields) -> Flags {
    Flags {
        otp: on(f, 7),
        por: on(f, 8),
        srst: on(f, 9),
        reg_write: on(f, 10),
        spi_crc: on(f, 11),
        spi_cs: on(f, 12),
        queue_ovf: on(f, 13),
        check_bit: on(f, 14),
        line_crc: on(f, 15),
        sin: on(f, 16),
        txffovf: on(f, 17),
        txffuvf: on(f, 18),
        rxffovf: on(f, 19),
        rxffuvf: on(f, 20),
        bad_word: f[139],
    }
}

impl From<Parts> for Piece {
    fn from(p: Parts) -> Self {
        match p.kind {
            0 => Piece::Pause,
            1 => Piece::StartBit,
            2 => Piece::WordPiece(p.a),
            _ => Piece::EndPiece,
        }
    }
}

impl From<Parts> for Ear {
    fn from(p: Parts) -> Self {
        match p.kind {
            0 => Ear::Quiet,
            1 => Ear::Group {
                number: p.d,
                value: p.a,
                bits: p.b,
                ones: p.c,
            },
            _ => Ear::Lost { ones: p.c },
        }
    }
}

impl From<Parts> for Command {
    fn from(p: Parts) -> Self {
        match p.kind {
            0 => Command::Filler,
            1 => Command::Malformed,
            2 => Command::Forward {
                crc: p.x,
                words: p.a,
                ends: p.b,
                reads: p.y,
            },
            3 => Command::DataRead {
                crc: p.x,
                words: p.a,
            },
            4 => Command::RegisterWrite {
                crc: p.x,
                address: p.c,
                count: p.d,
            },
            5 => Command::RegisterRead {
                crc: p.x,
                address: p.c,
                count: p.d,
            },
            _ => Command::SoftReset,
        }
    }
}

impl From<Parts> for Reply {
    fn from(p: Parts) -> Self {
        match p.kind {
            0 => Reply::Status(p.a),
            1 => Reply::Data(p.d),
            2 => Reply::Registers {
                address: p.c,
                left: p.d,
            },
            _ => Reply::Check,
        }
    }
}

fn phase(p: Parts, open: Parts) -> Phase {
    match p.kind {
        0 => Phase::Idle,
        1 => Phase::Collecting {
            command: Command::from(open),
            got: p.a,
            crc: p.b,
            mine: p.c,
            released: p.x,
            blocked: p.y,
        },
        2 => Phase::Answering {
            reply: Reply::from(open),
            crc: p.b,
        },
        _ => Phase::Discarding,
    }
}

fn place(f: &Fields, from: usize) -> Place
    requires { from ≤ 130 }
{
    Place {
        words: f[from],
        ends: f[from + 1],
        store: on(f, from + 4),
        compare: on(f, from + 5),
        damaged: on(f, from + 6),
        sent: on(f, from + 7),
        read: on(f, from + 8),
        crc_sent: f[from + 2],
        crc_read: f[from + 3],
    }
}

fn queue(f: &Fields) -> Queue {
    Queue {
        places: std::array::from_fn(|i| place(f, 67 + 9 * i)),
        used: f[25],
        begun: f[26],
    }
}

fn sending(f: &Fields) -> Sending {
    Sending {
        tx: Ring {
            head: f[21],
            count: f[22],
        },
        queue: queue(f),
        sender: Sender {
            piece: Piece::from(Parts::at(f, 39)),
            gone: f[27],
            left: f[28],
            ends: f[29],
        },
    }
}

fn receiving(f: &Fields) -> Receiving {
    Receiving {
        rx: Ring {
            head: f[23],
            count: f[24],
        },
        reader: Reader {
            ear: Ear::from(Parts::at(f, 46)),
            belongs: on(f, 35),
            storing: on(f, 36),
            stored: on(f, 37),
        },
    }
}

pub fn built(f: &Fields) -> Bridge {
    Bridge {
        control: control(f),
        sending: sending(f),
        receiving: receiving(f),
        frame: Frame {
            phase: phase(Parts::at(f, 53), Parts::at(f, 60)),
            held: [f[38]; 12],
            xmodem: on(f, 141),
        },
        clock: Clock {
            reading: f[30],
            mark: f[31],
            watching: on(f, 33),
            watch_mark: f[32],
            sin: on(f, 34),
        },
    }
}

impl From<Piece> for Parts {
    fn from(piece: Piece) -> Self {
        match piece {
            Piece::Pause => Parts::bare(0),
            Piece::StartBit => Parts::bare(1),
            Piece::WordPiece(a) => Parts {
                kind: 2,
                a,
                ..Parts::NONE
            },
            Piece::EndPiece => Parts::bare(3),
        }
    }
}

impl From<Ear> for Parts {
    fn from(ear: Ear) -> Self {
        match ear {
            Ear::Quiet => Parts::bare(0),
            Ear::Group {
                number,
                value,
                bits,
                ones,
            } => Parts {
                kind: 1,
                a: value,
                b: bits,
                c: ones,
                d: number,
                ..Parts::NONE
            },
            Ear::Lost { ones } => Parts {
                kind: 2,
                c: ones,
                ..Parts::NONE
            },
        }
    }
}

impl From<Command> for Parts {
    fn from(command: Command) -> Self {
        match command {
            Command::Filler => Parts::bare(0),
            Command::Malformed => Parts::bare(1),
            Command::Forward {
                crc,
                words,
                ends,
                reads,
            } => Parts {
                kind: 2,
                a: words,
                b: ends,
                x: crc,
                y: reads,
                ..Parts::NONE
            },
            Command::DataRead { crc, words } => Parts {
                kind: 3,
                a: words,
                x: crc,
                ..Parts::NONE
            },
            Command::RegisterWrite {
                crc,
                address,
                count,
            } => Parts {
                kind: 4,
                c: address,
                d: count,
                x: crc,
                ..Parts::NONE
            },
            Command::RegisterRead {
                crc,
                address,
                count,
            } => Parts {
                kind: 5,
                c: address,
                d: count,
                x: crc,
                ..Parts::NONE
            },
            Command::SoftReset => Parts::bare(6),
        }
    }
}

impl From<Reply> for Parts {
    fn from(reply: Reply) -> Self {
        match reply {
            Reply::Status(word) => Parts {
                kind: 0,
                a: word,
                ..Parts::NONE
            },
            Reply::Data(left) => Parts {
                kind: 1,
                d: left,
                ..Parts::NONE
            },
            Reply::Registers { address, left } => Parts {
                kind: 2,
                c: address,
                d: left,
                ..Parts::NONE
            },
            Reply::Check => Parts::bare(3),
        }
    }
}

// Without the command or the reply that it holds.
impl From<Phase> for Parts {
    fn from(phase: Phase) -> Self {
        match phase {
            Phase::Idle => Parts::bare(0),
            Phase::Collecting {
                got,
                crc,
                mine,
                released,
                blocked,
                ..
            } => Parts {
                kind: 1,
                a: got,
                b: crc,
                c: mine,
                x: released,
                y: blocked,
                ..Parts::NONE
            },
            Phase::Answering { crc, .. } => Parts {
                kind: 2,
                b: crc,
                ..Parts::NONE
            },
            Phase::Discarding => Parts::bare(3),
        }
    }
}

// The command or the reply that it holds.
fn open(phase: Phase) -> Parts {
    match phase {
        Phase::Collecting { command, .. } => Parts::from(command),
        Phase::Answering { reply, .. } => Parts::from(reply),
        Phase::Idle | Phase::Discarding => Parts::NONE,
    }
}

fn put_place(f: &mut Fields, from: usize, p: Place)
    requires { from ≤ 130 }
{
    put(f, from, &[p.words, p.ends, p.crc_sent, p.crc_read]);
    let bits = [p.store, p.compare, p.damaged, p.sent, p.read];
    put_bits(f, from + 4, &bits);
}

fn put_control(f: &mut Fields, c: Control) {
    let r = c.regs;
    let numbers = [
        c.mode as u16,
        r.spictrl,
        r.ccsictrl,
        r.txfflvl,
        r.rxfflvl,
        r.diagmask,
    ];
    let g = c.flags;
    let bits = [
        c.drdy,
        g.otp,
        g.por,
        g.srst,
        g.reg_write,
        g.spi_crc,
        g.spi_cs,
        g.queue_ovf,
        g.check_bit,
        g.line_crc,
        g.sin,
        g.txffovf,
        g.txffuvf,
        g.rxffovf,
        g.rxffuvf,
    ];
    put(f, 0, &numbers);
    put_bits(f, 6, &bits);
    f[139] = g.bad_word;
    f[140] = r.layout as u16;
}

fn put_counts(f: &mut Fields, s: Sending, r: Receiving, c: Clock) {
    let numbers = [
        s.tx.head,
        s.tx.count,
        r.rx.head,
        r.rx.count,
        s.queue.used,
        s.queue.begun,
        s.sender.gone,
        s.sender.left,
        s.sender.ends,
        c.reading,
        c.mark,
        c.watch_mark,
    ];
    let g = r.reader;
    let bits = [c.watching, c.sin, g.belongs, g.storing, g.stored];
    put(f, 21, &numbers);
    put_bits(f, 33, &bits);
}

fn put_frame(f: &mut Fields, frame: Frame) {
    f[38] = frame.held[0];
    f[141] = u16::from(frame.xmodem);
    Parts::from(frame.phase).put(f, 53);
    open(frame.phase).put(f, 60);
}

// A record's numbers. Of the twelve held words there is the first; the lent stores' cells are no part of it, and 0.
pub fn fields(b: Bridge) -> Fields {
    let mut f = [0; COLUMNS];
    put_control(&mut f, b.control);
    put_counts(&mut f, b.sending, b.receiving, b.clock);
    Parts::from(b.sending.sender.piece).put(&mut f, 39);
    Parts::from(b.receiving.reader.ear).put(&mut f, 46);
    put_frame(&mut f, b.frame);
    for (i, place) in b.sending.queue.places.iter().enumerate() {
        put_place(&mut f, 67 + 9 * i, *place);
    }
    f
}

// Whether these are the record's numbers, and its twelve held words alike.
pub fn is(f: &Fields, b: Bridge) -> bool {
    let own = fields(b);
    own.starts_with(&f[..STATE]) && b.frame.held.iter().all(|word| *word == f[38])
}
