// The state behind a script's lines. First the power-up value, `start` and its columns that are not 0; then each event's line as the bench prints
// it, and behind it the columns that the event changed, COLUMN=VALUE, by the columns of `records`. `tools/bench --explain` makes words of it. It
// reads a script from standard input and stops where the bench does.

#![tactic(auto)]

use device::Device;
use records::{COLUMNS, Fields};
use state::Bridge;
use std::io;
use std::io::Read;

// A function of its own when it is compiled too: inlined, its division by ten stands in the loop over the columns.
#[inline(never)]
fn tell(rt: &impl Print, column: usize, value: u16) -> io::Result<()> {
    print!(rt; " {column}={value}")
}

// The columns that changed, and the line's end.
fn tell_changed(rt: &impl Print, before: &Fields, after: &Fields) -> io::Result<()> {
    for (column, (old, new)) in before.iter().zip(after.iter()).enumerate() {
        if old != new {
            tell(rt, column, *new)?;
        }
    }
    rt.write_all(b"\n")
}

// The bridge at work, and its columns as they were told last.
#[derive(Drop)]
struct Told {
    device: Device,
    fields: Fields,
}

// An event's line as the bench prints it, and what the event changed; and whether there was one.
fn one(rt: &impl Print, told: &mut Told, kind: u8, value: u16) -> io::Result<bool> {
    let Some(event) = script::read(kind, value) else {
        println!(rt; "bad record")?;
        return Ok(false);
    };
    let answer = told.device.step(event);
    let note = state::number(answer.note);
    let line = script::printed(kind, value, note, answer.sdo, answer.sout);
    if let Some([text @ .., b'\n']) = line.bytes.get(..line.length) {
        rt.write_all(text)?;
    }
    let after = records::fields(told.device.bridge);
    tell_changed(rt, &told.fields, &after)?;
    told.fields = after;
    Ok(true)
}

// Whether there may be more of the script.
fn next(rt: &impl Print, input: &mut impl Read, told: &mut Told) -> io::Result<bool> {
    let mut record = [0; 3];
    let n = console::read_full(input, &mut record)?;
    if n == 0 {
        return Ok(false);
    }
    if n < record.len() {
        println!(rt; "bad record")?;
        return Ok(false);
    }
    let [kind, high, low] = record;
    one(rt, told, kind, script::value(high, low))
}

fn walk(rt: &impl Print, input: &mut impl Read) -> io::Result<()> {
    let mut told = Told {
        device: Device::new(Bridge::good()),
        fields: records::fields(Bridge::good()),
    };
    print!(rt; "start")?;
    tell_changed(rt, &[0; COLUMNS], &told.fields)?;
    // A proved loop has to end, and nothing says that a script does: it counts up to a number of records that no script has.
    for _ in 0..u64::MAX {
        if !next(rt, input, &mut told)? {
            break;
        }
    }
    Ok(())
}

fn main(rt: HostRuntime) -> io::Result<()> {
    let mut input = rt.stdin();
    let mut head = [0; 5];
    let n = console::read_full(&mut input, &mut head)?;
    if script::head(&head[..n]) {
        return walk(&rt, &mut input);
    }
    println!(rt; "bad script")
}
