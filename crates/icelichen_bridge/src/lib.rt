// The bridge for programs in C: the functions of include/icelichen_bridge.h. They ask nothing of their caller but pointers that are good for their
// lengths: the bridge is lent in cells, and cells that are no record's are refused as a broken record is.

#![tactic(auto)]

ghost use Rattle.std.specs.Prelude.{◌≡◌, ◌/◌, ◌<◌};
ghost use Rattle.command.specs.Layouts.{layouts};
ghost use Rattle.state.specs.Notes.{note_number};
ghost use Rattle.bridge.specs.Runs.{refuses};
ghost use Rattle.bridge.specs.Step.{step as step_of};
ghost use Rattle.listing.specs.Results.{bit_byte};
ghost use Rattle.cells.specs.Cells.{cells_of};
ghost use Rattle.cells.specs.Lent.{lent as lent_of};
ghost use Rattle.icelichen_bridge.specs.Calls.{answer_number, event_by, called, unless, power_by, powered, power_up_on, power_leaves, stepped as stepped_of, event_on, step_leaves, event_leaves, list_code, called_list, events_on, events_leave, drain_number, drain_on, drain_leaves, is_answering, answers, register_on};

use cells::Cells;
use events::Event;
use layout::Layout;
use state::{Bridge, Note, Phase};
use whole_night::Outcome;

// Note 0 and note 22, with nothing on SDO and SOUT 1.
const DONE: u32 = 0x00FFFF01;

const NO_EVENT: u32 = 0x16FFFF01;

fn bit(b: bool) -> u32
    ensures { (result ≡ bit_byte b) × (result < 2) }
{
    if b { 1 } else { 0 }
}

// An answer as one number. A note's number is a byte.
fn answer_number(note: Note, sdo: u16, sout: bool) -> u32
    ensures { result ≡ answer_number (note_number note) sdo sout }
{
    let n = state::number(note) % 256;
    n as u32 * 16777216 + sdo as u32 * 256 + bit(sout)
}

// Notes 1 and 2.
fn is_refusal(note: Note) -> bool
    ensures { result ≡ refuses note }
{
    let n = state::number(note);
    let stores = n == 1;
    let record = n == 2;
    stores | record
}

// The event of two numbers. They are wider than a record's, so that a number which C would cut is no event's.
fn event_by(kind: u32, value: u32) -> Option<Event>
    ensures { result ≡ event_by kind value }
{
    if 255 < kind {
        return None;
    }
    if 65535 < value {
        return None;
    }
    script::read(kind as u8, value as u16)
}

fn power_by(power: u32) -> Bridge
    ensures { result ≡ power_by power }
{
    if power == 0 {
        return Bridge::bad_in(Layout::Ours);
    }
    if power == 2 {
        return Bridge::bad_in(Layout::Makers);
    }
    if power == 3 {
        return Bridge::good_in(Layout::Makers);
    }
    Bridge::good_in(Layout::Ours)
}

// The cells of the state that a call leaves, unless it was refused.
fn lay(own: &mut Cells, refused: bool, state: Bridge)
    ensures own_after { own.new ≡ unless refused own.old (cells_of state) }
    ensures own_after_2 { lent_of own.new ≡ unless refused (lent_of own.old) state }
{
    if refused {
        return;
    }
    *own = cells::cells_of(state);
}

fn stepped(own: &mut Cells, tx: &mut [u16], rx: &mut [u16], event: Event) -> u32
    ensures rx_after { called result own.new tx.new rx.new ≡ stepped_of (step_of layouts (lent_of own.old) tx.old rx.old event) own.old }
    ensures own_after { lent_of own.new ≡ step_leaves (step_of layouts (lent_of own.old) tx.old rx.old event) (lent_of own.old) }
{
    let answer = bridge::step(cells::lent(own), tx, rx, event);
    let note = answer.note;
    let state = answer.state;
    lay(own, is_refusal(note), state);
    answer_number(note, answer.sdo, answer.sout)
}

fn is_answering(phase: Phase) -> bool
    ensures { result ≡ is_answering phase }
{
    match phase {
        Phase::Idle => false,
        Phase::Collecting { .. } => false,
        Phase::Answering { .. } => true,
        Phase::Discarding => false,
    }
}

// How many events a list of so many bytes had, where all were done.
fn list_code(bytes: usize, outcome: Outcome) -> i64
    ensures { result ≡ list_code (bytes / 3) outcome }
{
    match outcome {
        Outcome::Done => (bytes / 3) as i64,
        Outcome::NoEvent => -22,
        Outcome::ShortResults => -23,
        Outcome::WrongStores => -1,
        Outcome::BrokenRecord => -2,
    }
}

fn drain_number(note: Note, ticks: u32) -> u64
    ensures { result ≡ drain_number (note_number note) ticks }
{
    let n = state::number(note) % 256;
    n as u64 * 4294967296 + ticks as u64
}

#[unsafe(no_mangle)]
pub extern "C" fn icelichen_power_up(own: &mut Cells, power: u32) -> u32
    ensures own_after { powered result own.new ≡ power_up_on power own.old }
    ensures own_after_2 { lent_of own.new ≡ power_leaves power (lent_of own.old) }
{
    if power < 4 {
        *own = cells::cells_of(power_by(power));
        return DONE;
    }
    NO_EVENT
}

#[unsafe(no_mangle)]
pub extern "C" fn icelichen_event(
    own: &mut Cells,
    tx: &mut [u16],
    rx: &mut [u16],
    kind: u32,
    value: u32,
) -> u32
    ensures rx_after { called result own.new tx.new rx.new ≡ event_on layouts (event_by kind value) own.old tx.old rx.old }
    ensures own_after { lent_of own.new ≡ event_leaves layouts (event_by kind value) (lent_of own.old) tx.old rx.old }
{
    match event_by(kind, value) {
        Some(event) => stepped(own, tx, rx, event),
        None => NO_EVENT,
    }
}

#[unsafe(no_mangle)]
pub extern "C" fn icelichen_events(
    own: &mut Cells,
    tx: &mut [u16],
    rx: &mut [u16],
    records: &[u8],
    results: &mut [u8],
) -> i64
    ensures results_after { called_list result own.new tx.new rx.new results.new ≡ events_on layouts records.now own.old tx.old rx.old results.old }
    ensures own_after { lent_of own.new ≡ events_leave layouts records.now (lent_of own.old) tx.old rx.old results.old }
{
    let listed = whole_night::night(cells::lent(own), tx, rx, records, results);
    let outcome = listed.outcome;
    let state = listed.state;
    lay(own, whole_night::number(outcome) != 0, state);
    list_code(records.len(), outcome)
}

#[unsafe(no_mangle)]
pub extern "C" fn icelichen_drain(
    own: &mut Cells,
    tx: &mut [u16],
    rx: &mut [u16],
    budget: u32,
) -> u64
    ensures rx_after { called result own.new tx.new rx.new ≡ drain_on layouts own.old tx.old rx.old budget }
    ensures own_after { lent_of own.new ≡ drain_leaves layouts (lent_of own.old) tx.old rx.old budget }
{
    let drained = drain::drain(cells::lent(own), tx, rx, budget);
    let note = drained.note;
    let state = drained.state;
    lay(own, is_refusal(note), state);
    drain_number(note, drained.ticks)
}

#[unsafe(no_mangle)]
pub extern "C" fn icelichen_answering(own: &Cells) -> u32
    ensures { result ≡ bit_byte (answers (lent_of own.now)) }
{
    let b = cells::lent(own);
    let frame = b.frame;
    let phase = frame.phase;
    let whole = rules::sound(b);
    bit(whole & is_answering(phase))
}

#[unsafe(no_mangle)]
pub extern "C" fn icelichen_register(own: &Cells, address: u32) -> i32
    ensures { result ≡ register_on address (lent_of own.now) }
{
    if 11 < address {
        return -20;
    }
    let b = cells::lent(own);
    if rules::sound(b) {
        let tx = b.sending.tx.count;
        let rx = b.receiving.rx.count;
        return reading::read(b.control, tx, rx, address as u16) as i32;
    }
    -2
}
