// The bridge's speed: the events of a script, round after round, one event a call (`step`), all of a round's in one call (`list`), or one event a call
// with a drain at the end of each round (`drain`); and the CRC's, over the script's bytes as words, by the table of sixteen entries (`crc`) or of 256 (`wide`). Prints how much was done and a
// sum of all answers, which the plain C program of the same rules must print too (tests/speed/measure.py).

#![tactic(auto)]

ghost use Rattle.std.specs.Prelude.{◌≡◌, ◌≤◌};

use device::Device;
use events::Event;
use state::Bridge;
use std::io;

// The ticks of a drain at most; every script that a round holds needs fewer.
const BUDGET: u32 = 1000000;

fn mixed(sum: u32, said: u32) -> u32 {
    sum.wrapping_mul(31).wrapping_add(said)
}

// What was done so far, events and ticks, and the sum of their answers.
#[derive(Clone, Copy)]
struct Tally {
    done: u64,
    sum: u32,
}

impl Tally {
    fn count(&mut self, done: u64, said: u32) {
        self.done = self.done.wrapping_add(done);
        self.sum = mixed(self.sum, said);
    }
}

// The bridge at work.
#[derive(Drop)]
struct Run {
    device: Device,
    tally: Tally,
}

impl Run {
    fn new() -> Self {
        Run {
            device: Device::new(Bridge::good()),
            tally: Tally { done: 0, sum: 0 },
        }
    }

    fn step(&mut self, event: Event) {
        let answer = self.device.step(event);
        let note = state::number(answer.note);
        let said = mixed(u32::from(answer.sdo), u32::from(note));
        self.tally.count(1, mixed(said, u32::from(answer.sout)));
    }

    fn drain(&mut self) {
        let end = self.device.drain(BUDGET);
        let note = state::number(end.note);
        self.tally
            .count(u64::from(end.ticks), mixed(end.ticks, u32::from(note)));
    }

    // One event a call. A record that is no event is passed over.
    fn steps(&mut self, records: &[u8]) {
        let (records, _) = records.as_chunks::<3>();
        for &[kind, high, low] in records {
            if let Some(event) = script::read(kind, script::value(high, low)) {
                self.step(event);
            }
        }
    }

    // All events in one call; then what they answered, four bytes each.
    fn list(&mut self, records: &[u8], results: &mut [u8]) {
        let device = &mut self.device;
        let listed = whole_night::night(
            device.bridge,
            &mut device.tx,
            &mut device.rx,
            records,
            results,
        );
        device.bridge = listed.state;
        let (answers, _) = results.as_chunks::<4>();
        for &[note, high, low, sout] in answers.iter().take(listed.done) {
            let sdo = script::value(high, low);
            let said = mixed(u32::from(sdo), u32::from(note));
            self.tally.count(1, mixed(said, u32::from(sout)));
        }
    }
}

fn steps(records: &[u8], many: u32, drains: bool) -> Tally {
    let mut run = Run::new();
    for _ in 0..many {
        run.steps(records);
        if drains {
            run.drain();
        }
    }
    run.tally
}

// Every round is one list; the results have room for all that a round holds.
fn lists(records: &[u8], many: u32) -> Tally {
    let mut run = Run::new();
    let mut results = [0; 87384];
    for _ in 0..many {
        run.list(records, &mut results);
    }
    run.tally
}

// The CRC of the records as words, round after round.
fn crcs<F: Fn(u16, u16) -> u16>(records: &[u8], many: u32, crc_word: F) -> Tally
    requires { F.IsAlwaysCallable crc_word }
{
    let (words, _) = records.as_chunks::<2>();
    let mut crc = crc16::START;
    let mut done: u64 = 0;
    for _ in 0..many {
        for &[high, low] in words {
            crc = crc_word(crc, script::value(high, low));
        }
        done = done.wrapping_add(words.len() as u64);
    }
    Tally {
        done,
        sum: u32::from(crc),
    }
}

#[derive(Clone, Copy)]
enum Mode {
    Step,
    List,
    Drain,
    Crc,
    Wide,
}

impl Mode {
    // By its first letter.
    fn named(word: &[u8]) -> Option<Mode> {
        match word.first()? {
            b's' => Some(Mode::Step),
            b'l' => Some(Mode::List),
            b'd' => Some(Mode::Drain),
            b'c' => Some(Mode::Crc),
            b'w' => Some(Mode::Wide),
            _ => None,
        }
    }

    fn run(self, records: &[u8], many: u32) -> Tally {
        match self {
            Mode::Step => steps(records, many, false),
            Mode::List => lists(records, many),
            Mode::Drain => steps(records, many, true),
            Mode::Crc => crcs(records, many, crc16::crc_word),
            Mode::Wide => crcs(records, many, crc16_wide::crc_word),
        }
    }
}

// A decimal number, cut off above a million.
fn number(text: &[u8]) -> u32 {
    let mut n = 0;
    for byte in text {
        if !byte.is_ascii_digit() || 100000 < n {
            break;
        }
        n = n * 10 + u32::from(byte - b'0');
    }
    n
}

// ROUNDS MODE: how often, and what.
fn main(rt: HostRuntime) -> io::Result<()> {
    let mut records = [0; 65536];
    let mut head = [0; 5];
    let mut input = rt.stdin();
    console::read_full(&mut input, &mut head)?;
    let n = console::read_full(&mut input, &mut records)?;
    let mut word = [0; 4096];
    let many = match console::argument(&rt, 1, &mut word) {
        Some(length) => number(&word[..length]),
        None => 0,
    };
    let mode = match console::argument(&rt, 2, &mut word) {
        Some(length) => Mode::named(&word[..length]),
        None => None,
    };
    let Some(mode) = mode else {
        return eprintln!(rt; "use: speed ROUNDS step|list|drain|crc|wide < script.cwb");
    };
    let Tally { done, sum } = mode.run(&records[..n], many);
    println!(rt; "{done} done, sum {sum:08x}")
}
