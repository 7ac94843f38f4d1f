// What the bench prints of a script (01 The bench program): its head, and its records in parts of any size. Events are done in groups, a list call
// each (02 item 6). The program over it only reads and writes.

#![tactic(auto)]

ghost use Rattle.std.specs.Prelude.{◌≡◌, false, ◌+◌, ◌*◌, ◌/◌, ◌≤◌, length};
ghost use Rattle.std.proofs.lemmas.List.Edits.{sets};
ghost use Rattle.command.specs.Layouts.{layouts};
ghost use Rattle.playing.specs.Playing.{bad_script, bad_record, bytes_of, end, played, shown, room, play as play_of, begun, begin as begin_of};
ghost use Rattle.playing.specs.Walk.{part_of, shown_at, ahead as ahead_of, Group};
ghost use Rattle.playing.specs.Lines.{first_line, lines_in, refused_lines};

use script::Line;
use state::Bridge;

// The state after a part of a script, the bytes that it printed, and whether the script goes on.
#[derive(Clone, Copy)]
pub struct Part {
    pub bridge: Bridge,
    pub length: usize,
    pub on: bool,
}

fn made(bridge: Bridge, length: usize, on: bool) -> Part
    ensures { result ≡ part_of bridge length on }
{
    Part {
        bridge: bridge,
        length: length,
        on: on,
    }
}

// A line at a place of the output; answers the place after it.
fn put(out: &mut [u8], at: usize, line: Line) -> usize
    requires { (line.length ≤ 17) × (at + line.length ≤ length out.old) }
    ensures { (result ≡ at + line.length) × (out.new ≡ sets out.old at (bytes_of line)) }
{
    let mut i: usize = 0;
    while i < line.length {
        out[at + i] = line.bytes[i];
        i = i + 1;
    }
    at + line.length
}

fn bad_script() -> Line
    ensures { result ≡ bad_script }
{
    Line {
        bytes: [
            0x62, 0x61, 0x64, 0x20, 0x73, 0x63, 0x72, 0x69, 0x70, 0x74, 0x0A, 0, 0, 0, 0, 0, 0,
        ],
        length: 11,
    }
}

fn bad_record() -> Line
    ensures { result ≡ bad_record }
{
    Line {
        bytes: [
            0x62, 0x61, 0x64, 0x20, 0x72, 0x65, 0x63, 0x6F, 0x72, 0x64, 0x0A, 0, 0, 0, 0, 0, 0,
        ],
        length: 11,
    }
}

// The script ends at a record that is wrong or cut.
fn stop(bridge: Bridge, out: &mut [u8], at: usize) -> Part
    requires { at + 11 ≤ length out.old }
    ensures { (result ≡ part_of bridge (at + 11) false) × (out.new ≡ sets out.old at (bytes_of bad_record)) }
{
    let line = bad_record();
    put(out, at, line);
    made(bridge, at + 11, false)
}

// How many records in front are events; no more than 64 are counted.
fn ahead(records: &[u8]) -> usize
    ensures { result ≡ ahead_of 64 records.now }
{
    let mut left = records;
    let mut k: usize = 0;
    while k < 64 {
        if left.len() < 3 {
            return k;
        }
        if listing::is_event(left, 0) {
            k = k + 1;
            left = &left[3..];
        } else {
            return k;
        }
    }
    k
}

fn wide(byte: u8) -> u16
    ensures { result ≡ byte }
{
    byte as u16
}

// The line of the first record, an event with these results.
fn first_line(records: &[u8], results: &[u8]) -> Line
    requires { (3 ≤ length records.now) × (4 ≤ length results.now) }
    ensures { result ≡ first_line records.now results.now }
{
    let value = script::value(records[1], records[2]);
    let note = wide(results[0]);
    let sdo = script::value(results[1], results[2]);
    let sout = results[3] == 1;
    script::printed(records[0], value, note, sdo, sout)
}

// The lines of events with these results; answers the place after them.
fn print(records: &[u8], results: &[u8], out: &mut [u8], at: usize) -> usize
    requires { (length records.now / 3 * 4 ≤ length results.now) × (at + length records.now / 3 * 17 ≤ length out.old) }
    ensures { (result ≡ at + length (lines_in records.now results.now)) × (out.new ≡ sets out.old at (lines_in records.now results.now)) }
{
    let mut left = records;
    let mut given = results;
    let mut next = at;
    while 3 <= left.len() {
        let line = first_line(left, given);
        next = put(out, next, line);
        left = &left[3..];
        given = &given[4..];
    }
    next
}

// The lines of events that are refused with this note; answers the place after them.
fn print_refused(records: &[u8], note: u16, out: &mut [u8], at: usize) -> usize
    requires { at + length records.now / 3 * 17 ≤ length out.old }
    ensures { (result ≡ at + length (refused_lines note records.now)) × (out.new ≡ sets out.old at (refused_lines note records.now)) }
{
    let mut left = records;
    let mut next = at;
    while 3 <= left.len() {
        let value = script::value(left[1], left[2]);
        let line = script::printed(left[0], value, note, 65535, true);
        next = put(out, next, line);
        left = &left[3..];
    }
    next
}

// Events in one call, and then their lines. A list that is refused leaves all as lent, and so does each of its events: with the same note.
fn group(
    start: Bridge,
    tx: &mut [u16],
    rx: &mut [u16],
    records: &[u8],
    out: &mut [u8],
    at: usize,
) -> Part
    requires group { Group records.now }
    requires records_in_bounds { at + length records.now / 3 * 17 ≤ length out.old }
    ensures { end result tx.new rx.new out.new ≡ shown_at (played layouts start tx.old rx.old records.now) out.old at }
{
    let mut results = [0u8; 256];
    let listed = whole_night::night(start, tx, rx, records, &mut results);
    let outcome = listed.outcome;
    let note = whole_night::number(outcome);
    if note != 0 {
        let next = print_refused(records, note, out, at);
        return made(start, next, true);
    }
    let next = print(records, &results, out, at);
    let after = listed.state;
    made(after, next, true)
}

// The records group by group, until one is wrong or cut.
fn run(start: Bridge, tx: &mut [u16], rx: &mut [u16], records: &[u8], out: &mut [u8]) -> Part
    requires { room records.now ≤ length out.old }
    ensures { end result tx.new rx.new out.new ≡ shown (played layouts start tx.old rx.old records.now) out.old }
{
    let mut bridge = start;
    let mut at: usize = 0;
    let mut left = records;
    while 0 < left.len() {
        let n = ahead(left) * 3;
        if n == 0 {
            return stop(bridge, out, at);
        }
        let part = group(bridge, tx, rx, &left[..n], out, at);
        bridge = part.bridge;
        at = part.length;
        left = &left[n..];
    }
    made(bridge, at, true)
}

// A part of a script's records, from the state and the stores that the part before it left. Its lines are at the front of the output.
pub fn play(start: Bridge, tx: &mut [u16], rx: &mut [u16], records: &[u8], out: &mut [u8]) -> Part
    ensures { end result tx.new rx.new out.new ≡ play_of layouts start tx.old rx.old records.now out.old }
{
    if out.len() < 11 {
        return made(start, 0, false);
    }
    if (out.len() - 11) / 17 < records.len() / 3 {
        return made(start, 0, false);
    }
    run(start, tx, rx, records, out)
}

// The head of a script: the state that its first record is played from.
pub fn begin(head: &[u8], out: &mut [u8]) -> Part
    ensures { begun result out.new ≡ begin_of head.now out.old }
{
    let bridge = Bridge::good();
    if script::head(head) {
        return made(bridge, 0, true);
    }
    if 11 <= out.len() {
        let line = bad_script();
        put(out, 0, line);
        return made(bridge, 11, false);
    }
    made(bridge, 0, false)
}
