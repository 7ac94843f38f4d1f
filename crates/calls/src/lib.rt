// The calls of a case: its record and its stores lent to all five events, a drain, a call-up and four lists of events. A call that went otherwise than
// wanted is told by a number behind the case: 100 for power, 200 word, 300 tick, 400 release, 500 clock, 600 drain, 700 call-up, 800 a list, 900 the word
// of notes 4 and 5, 1000 an empty list, 1100 one with a record that is no event, 1200 one with too few result cells; and its note, verdict or outcome.

#![tactic(auto)]

ghost use Rattle.std.specs.Prelude.{◌≤◌};

use events::Event;
use layout::Layout;
use records::{Fields, RX_CELLS, TX_CELLS};
use std::io;

// What is wanted of the calls: note 1, note 2, or any other.
#[derive(Clone, Copy)]
pub enum Want {
    Stores,
    Broken,
    Taken,
}

// Of one call: this note, and all as lent; or any note but 1 and 2.
#[derive(Clone, Copy)]
enum Wanted {
    Note(u16),
    Taken,
}

impl Want {
    fn of_call(self) -> Wanted {
        match self {
            Want::Stores => Wanted::Note(1),
            Want::Broken => Wanted::Note(2),
            Want::Taken => Wanted::Taken,
        }
    }

    // An empty list that is taken comes to 0 and leaves all as lent.
    fn of_empty_list(self) -> Wanted {
        match self {
            Want::Taken => Wanted::Note(0),
            _ => self.of_call(),
        }
    }
}

// In the order in which they are numbered. The last four leave the stores as lent in every case.
#[derive(Clone, Copy)]
enum Call {
    Power = 1,
    Word,
    Tick,
    Release,
    Clock,
    Drain,
    CallUp,
    List,
    NotedWord,
    EmptyList,
    NoEvent,
    ShortResults,
}

const QUIET: [Call; 3] = [Call::EmptyList, Call::NoEvent, Call::ShortResults];

const OTHERS: [Call; 8] = [
    Call::Power,
    Call::Word,
    Call::Tick,
    Call::Release,
    Call::Clock,
    Call::Drain,
    Call::CallUp,
    Call::List,
];

// No cell is 0, and no cell of TX is one of RX.
const TX_SEAL: u16 = 0xA400;

const RX_SEAL: u16 = 0x5800;

// No result of an event has such a note.
const RESULT_SEAL: u8 = 0xA5;

// The word is a command word where no frame is open.
const WORD: Event = Event::Word(0xB007);

fn pattern(i: usize, seal: u16) -> u16 {
    (i % 1024) as u16 ^ seal
}

fn fill(cells: &mut [u16], seal: u16) {
    for (i, cell) in cells.iter_mut().enumerate() {
        *cell = pattern(i, seal);
    }
}

fn is_filled(cells: &[u16], seal: u16) -> bool {
    cells
        .iter()
        .enumerate()
        .all(|(i, cell)| *cell == pattern(i, seal))
}

// What a call answered: its note, verdict or outcome; whether it said nothing (SDO FFFF and SOUT 1; of a drain no tick); and whether it left the
// record as wanted.
#[derive(Clone, Copy)]
struct Answer {
    note: u16,
    silent: bool,
    same: bool,
}

impl Answer {
    // A refusal says nothing and leaves the record as lent.
    fn is_right(self, wanted: Wanted) -> bool {
        match wanted {
            Wanted::Note(note) => self.note == note && self.silent && self.same,
            Wanted::Taken => self.note != 1 && self.note != 2,
        }
    }
}

// A case: the record that is lent, what it is after the noted word, and the stores.
#[derive(Drop)]
struct Case<'a> {
    lent: &'a Fields,
    after: &'a Fields,
    tx: &'a mut [u16],
    rx: &'a mut [u16],
}

impl Case<'_> {
    fn step(&mut self, event: Event, after: &Fields) -> Answer {
        let answer = bridge::step(records::built(self.lent), self.tx, self.rx, event);
        Answer {
            note: state::number(answer.note),
            silent: answer.sdo == 0xFFFF && answer.sout,
            same: records::is(after, answer.state),
        }
    }

    fn drain(&mut self) -> Answer {
        let end = drain::drain(records::built(self.lent), self.tx, self.rx, 100);
        Answer {
            note: state::number(end.note),
            silent: end.ticks == 0,
            same: records::is(self.lent, end.state),
        }
    }

    // Of a call-up that is refused no slot shows anything (02, item 13).
    fn call_up(&mut self) -> Answer {
        let lent = records::built(self.lent);
        let end = board::call_up(board::empty(), lent, self.tx, self.rx, 5, 9, &[0xAA05, 7]);
        Answer {
            note: verdict::number(end.verdict),
            silent: end.board.slots[5].count == 0,
            same: records::is(self.lent, end.bridge),
        }
    }

    // Some bytes of a power-up and two releases, with results for two events (02, item 6). A release of a value is no event.
    fn list(&mut self, value: u8, bytes: usize) -> Answer
        requires { bytes ≤ 9 }
    {
        let list = [0, 0, 1, 2, 0, value, 2, 0, 0];
        let mut results = [RESULT_SEAL; 8];
        let lent = records::built(self.lent);
        let end = whole_night::night(lent, self.tx, self.rx, &list[..bytes], &mut results);
        Answer {
            note: whole_night::number(end.outcome),
            silent: end.done == 0 && results == [RESULT_SEAL; 8],
            same: records::is(self.lent, end.state),
        }
    }

    // What is wrong with a list is found before its stores and its record are looked at.
    fn answer(&mut self, call: Call) -> Answer {
        match call {
            Call::Power => {
                let power = Event::Power {
                    good: true,
                    layout: Layout::Ours,
                };
                self.step(power, self.lent)
            }
            Call::Word => self.step(WORD, self.lent),
            Call::Tick => self.step(Event::Tick(false), self.lent),
            Call::Release => self.step(Event::Release, self.lent),
            Call::Clock => self.step(Event::Clock(9), self.lent),
            Call::Drain => self.drain(),
            Call::CallUp => self.call_up(),
            Call::List => self.list(0, 6),
            Call::NotedWord => self.step(WORD, self.after),
            Call::EmptyList => self.list(0, 0),
            Call::NoEvent => self.list(1, 6),
            Call::ShortResults => self.list(0, 9),
        }
    }

    // Whether the call went as wanted; else its number is told.
    fn one(&mut self, rt: &impl Print, call: Call, wanted: Wanted) -> io::Result<bool> {
        let answer = self.answer(call);
        let right = answer.is_right(wanted);
        if !right {
            print!(rt; " {}", call as u16 * 100 + answer.note % 64)?;
        }
        Ok(right)
    }

    fn is_filled(&self) -> bool {
        is_filled(self.tx, TX_SEAL) && is_filled(self.rx, RX_SEAL)
    }

    // The word, where one is wanted, and three of the lists.
    fn quiet(&mut self, rt: &impl Print, want: Want, word: Option<u16>) -> io::Result<bool> {
        let mut right = true;
        if let Some(note) = word {
            right = self.one(rt, Call::NotedWord, Wanted::Note(note))?;
        }
        for call in QUIET {
            let wanted = match call {
                Call::NoEvent => Wanted::Note(22),
                Call::ShortResults => Wanted::Note(23),
                _ => want.of_empty_list(),
            };
            right &= self.one(rt, call, wanted)?;
        }
        Ok(right & self.is_filled())
    }

    // A cell that one of the calls changes is changed after the last.
    fn all(&mut self, rt: &impl Print, want: Want, word: Option<u16>) -> io::Result<bool> {
        let mut right = self.quiet(rt, want, word)?;
        for call in OTHERS {
            right &= self.one(rt, call, want.of_call())?;
        }
        Ok(right && (matches!(want, Want::Taken) || self.is_filled()))
    }
}

// The calls, and before them the word whose note is wanted, if one is. Numbers that are no record's are none that can be lent.
pub fn tried(
    rt: &impl Print,
    lent: &Fields,
    after: &Fields,
    want: Want,
    word: Option<u16>,
) -> io::Result<bool> {
    let n = lent[TX_CELLS] as usize;
    let m = lent[RX_CELLS] as usize;
    let mut tx = [0; 1024];
    let mut rx = [0; 1024];
    let mut case = Case {
        lent,
        after,
        tx: &mut tx[..n % 1025],
        rx: &mut rx[..m % 1025],
    };
    fill(case.tx, TX_SEAL);
    fill(case.rx, RX_SEAL);
    let right = case.all(rt, want, word)?;
    Ok(right && n <= 1024 && m <= 1024 && records::is(lent, records::built(lent)))
}
