// Runs of host words over the few fields that they move: a forward's data words that are stored and release nothing, and words that leave the
// frame as it is. What they do is what `turn` says of them, word by word.

#![tactic(auto)]

ghost use Rattle.std.specs.Prelude.{◌≡◌, true, List, ℕ, ◌+◌, ◌<◌, ◌≤◌, length};
ghost use Rattle.state.specs.Facts.{HostFit};
ghost use Rattle.listing.specs.Run.{Ahead};
ghost use Rattle.pouring.specs.Pour.{no_bed, bed_in, bed_of, stream_of, pours as pours_of, mine_on, stays as stays_of, stay_note, poured_phase as poured_phase_of, poured as poured_of};
ghost use Rattle.pouring.specs.Poured.{Poured};

use command::Command;
use state::{Bridge, Frame, Note, Phase};

// What such words move.
#[derive(Clone, Copy)]
pub struct Stream {
    pub got: u16,
    pub crc: u16,
    pub mine: u16,
    pub count: u16,
}

// What a run of data words keeps: the forward's words, whether it is named _CRC, and whether it is released. `flows`: it is a forward that is
// not blocked.
#[derive(Clone, Copy)]
pub struct Bed {
    pub flows: bool,
    pub words: u16,
    pub named: bool,
    pub released: bool,
}

// The words done: up to which record, and what they moved.
#[derive(Clone, Copy)]
pub struct Stretch {
    pub k: usize,
    pub stream: Stream,
}

fn no_bed() -> Bed
    ensures { result ≡ no_bed }
{
    Bed {
        flows: false,
        words: 0,
        named: false,
        released: false,
    }
}

fn bed_in(command: Command, released: bool, blocked: bool) -> Bed
    ensures { result ≡ bed_in command released blocked }
{
    match command {
        Command::Filler => no_bed(),
        Command::Malformed => no_bed(),
        Command::Forward { crc, words, .. } => {
            let free = !blocked;
            Bed {
                flows: free,
                words,
                named: crc,
                released,
            }
        }
        Command::DataRead { .. } => no_bed(),
        Command::RegisterWrite { .. } => no_bed(),
        Command::RegisterRead { .. } => no_bed(),
        Command::SoftReset => no_bed(),
    }
}

fn bed_of(phase: Phase) -> Bed
    ensures { result ≡ bed_of phase }
{
    match phase {
        Phase::Idle => no_bed(),
        Phase::Collecting {
            command,
            released,
            blocked,
            ..
        } => bed_in(command, released, blocked),
        Phase::Answering { .. } => no_bed(),
        Phase::Discarding => no_bed(),
    }
}

fn stream_of(phase: Phase, count: u16) -> Stream
    ensures { result ≡ stream_of phase count }
{
    match phase {
        Phase::Idle => Stream {
            got: 0,
            crc: 0,
            mine: 0,
            count,
        },
        Phase::Collecting { got, crc, mine, .. } => Stream {
            got,
            crc,
            mine,
            count,
        },
        Phase::Answering { .. } => Stream {
            got: 0,
            crc: 0,
            mine: 0,
            count,
        },
        Phase::Discarding => Stream {
            got: 0,
            crc: 0,
            mine: 0,
            count,
        },
    }
}

// The next word is stored and releases nothing.
fn pours(s: Stream, bed: Bed, level: u16) -> bool
    ensures { result ≡ pours_of s bed level }
{
    if s.got < bed.words {
        let fits = s.count < 512;
        let exceeded = level <= s.count;
        let last = s.got + 1 == bed.words;
        return fits & (bed.named | bed.released | !(exceeded | last));
    }
    false
}

// One word more, of so many.
fn one_more(got: u16, words: u16) -> u16
    requires { got < words }
    ensures { result ≡ got + 1 }
{
    got + 1
}

fn mine_on(mine: u16, released: bool) -> u16
    requires { mine ≤ 512 }
    ensures { result ≡ mine_on mine released }
{
    if released {
        return mine;
    }
    mine + 1
}

// Data words.
fn flow(
    bridge: Bridge,
    bed: Bed,
    start: Stream,
    tx: &mut [u16],
    records: &[u8],
    results: &mut [u8],
    from: usize,
    many: usize,
) -> Stretch
    requires host_fit { HostFit bridge }
    requires tx_len { length tx.old ≡ 512 }
    requires ahead { Ahead records.now results.old from many }
    requires bed_value { bed ≡ bed_of bridge.frame.phase }
    requires flows_value { bed.flows ≡ true }
    requires start_value { start ≡ stream_of bridge.frame.phase bridge.sending.tx.count }
    ensures { Poured records.now many bridge from tx.old results.old result.k result.stream tx.new results.new }
{
    let mut s = start;
    let mut k = from;
    while k < many {
        let next = k + 1;
        let at = k * 3;
        if records[at] != 1 {
            return Stretch { k, stream: s };
        }
        let go = pours(s, bed, bridge.control.regs.txfflvl);
        if go {
            let words = bed.words;
            let got = one_more(s.got, words);
            let count = s.count + 1;
            let word = script::value(records[at + 1], records[at + 2]);
            let cell = (bridge.sending.tx.head as usize + s.count as usize) % 512;
            let crc = crc16::crc_word(s.crc, word);
            let mine = mine_on(s.mine, bed.released);
            tx[cell] = word;
            listing::put_quiet(results, k, true);
            s = Stream {
                got,
                crc,
                mine,
                count,
            };
            k = next;
        } else {
            return Stretch { k, stream: s };
        }
    }
    Stretch { k, stream: s }
}

// A filler outside a frame, and every word of a frame that is discarded, leave the frame as it is.
fn stays(phase: Phase, word: u16) -> bool
    ensures { result ≡ stays_of phase word }
{
    match phase {
        Phase::Idle => word == 0xFFFF,
        Phase::Collecting { .. } => false,
        Phase::Answering { .. } => false,
        Phase::Discarding => true,
    }
}

fn stay_note(phase: Phase) -> Note
    ensures { result ≡ stay_note phase }
{
    match phase {
        Phase::Idle => Note::Done,
        Phase::Collecting { .. } => Note::Done,
        Phase::Answering { .. } => Note::Done,
        Phase::Discarding => Note::Discarded,
    }
}

// Words that leave the frame as it is.
fn still(
    bridge: Bridge,
    start: Stream,
    records: &[u8],
    results: &mut [u8],
    from: usize,
    many: usize,
) -> Stretch
    requires host_fit { HostFit bridge }
    requires ahead { Ahead records.now results.old from many }
    requires start_value { start ≡ stream_of bridge.frame.phase bridge.sending.tx.count }
    ensures { (tx : List ℕ) → Poured records.now many bridge from tx results.old result.k result.stream tx results.new }
{
    let mut k = from;
    while k < many {
        let next = k + 1;
        let at = k * 3;
        let frame = bridge.frame;
        let phase = frame.phase;
        if records[at] != 1 {
            return Stretch { k, stream: start };
        }
        let word = script::value(records[at + 1], records[at + 2]);
        let note = stay_note(phase);
        if stays(phase, word) {
            listing::put(results, k, note, 0xFFFF, true);
            k = next;
        } else {
            return Stretch { k, stream: start };
        }
    }
    Stretch { k, stream: start }
}

// The run of either kind that begins with record `from`; where its word is of neither, none is done.
pub fn run(
    bridge: Bridge,
    tx: &mut [u16],
    records: &[u8],
    results: &mut [u8],
    from: usize,
    many: usize,
) -> Stretch
    requires host_fit { HostFit bridge }
    requires tx_len { length tx.old ≡ 512 }
    requires ahead { Ahead records.now results.old from many }
    ensures { Poured records.now many bridge from tx.old results.old result.k result.stream tx.new results.new }
{
    let frame = bridge.frame;
    let phase = frame.phase;
    let bed = bed_of(phase);
    let start = stream_of(phase, bridge.sending.tx.count);
    let free = bed.flows;
    if free {
        return flow(bridge, bed, start, tx, records, results, from, many);
    }
    still(bridge, start, records, results, from, many)
}

fn poured_phase(phase: Phase, s: Stream) -> Phase
    ensures { result ≡ poured_phase_of phase s }
{
    match phase {
        Phase::Idle => Phase::Idle,
        Phase::Collecting {
            command,
            released,
            blocked,
            ..
        } => Phase::Collecting {
            command,
            got: s.got,
            crc: s.crc,
            mine: s.mine,
            released,
            blocked,
        },
        Phase::Answering { reply, crc } => Phase::Answering { reply, crc },
        Phase::Discarding => Phase::Discarding,
    }
}

// The record as a run leaves it.
pub fn poured(bridge: Bridge, s: Stream) -> Bridge
    ensures { result ≡ poured_of bridge s }
{
    let count = s.count;
    let control = plan::settled(bridge.control, bridge.receiving.rx.count, false);
    let clock = plan::marked(bridge.clock);
    let before = bridge.frame;
    let was = before.phase;
    let phase = poured_phase(was, s);
    let held = before.held;
    let frame = Frame {
        phase,
        held,
        xmodem: before.xmodem,
    };
    let mut after = bridge;
    after.control = control;
    after.sending.tx.count = count;
    after.frame = frame;
    after.clock = clock;
    after
}
