// The list calls of a file (02 item 6), from standard input or from the file that its argument names: what `whole_night::night` makes of each, in two
// lines. tests/model/list_model.c says how the file is written, and does the same in C; tests/lists.py compares the two. The stored `stdin` is what
// tests/model/make_lists.py 22 32 makes, and a call that is cut.

#![tactic(auto)]

ghost use Rattle.std.specs.Prelude.{◌≤◌, length};

use device::Device;
use state::Bridge;
use std::io;
use std::io::Read;

// Stays: std writes a cell with `{:02X}` into a `String`, which wants memory for each call and makes the whole run take 2.7 times the instructions.
fn hex(n: u8) -> u8 {
    let digit = n % 16;
    if digit < 10 {
        digit + b'0'
    } else {
        digit - 10 + b'A'
    }
}

// Two digits a cell, and a line end behind them.
fn print_results(rt: &impl Print, results: &[u8]) -> io::Result<()>
    requires { length results.now ≤ 4400 }
{
    let mut line = [b'\n'; 8801];
    for (i, &cell) in results.iter().enumerate() {
        line[i * 2] = hex(cell / 16);
        line[i * 2 + 1] = hex(cell);
    }
    rt.write_all(&line[..results.len() * 2 + 1])
}

// No call stands behind what is no call.
fn bad_file(rt: &impl Print) -> io::Result<bool> {
    println!(rt; "bad file")?;
    Ok(false)
}

fn number(pair: [u8; 2]) -> usize {
    usize::from(u16::from_be_bytes(pair))
}

// A call, and whether there may be more. It is lent as many cells of each store as are asked for, and there are; every cell of its results is A5 before
// it.
fn next(rt: &impl Print, input: &mut impl Read, device: &mut Device) -> io::Result<bool> {
    let mut numbers = [0; 8];
    let n = console::read_full(input, &mut numbers)?;
    if n == 0 {
        return Ok(false);
    }
    if n < numbers.len() {
        return bad_file(rt);
    }
    let [a, b, c, d, e, f, g, h] = numbers;
    let mut records = [0; 3000];
    let mut results = [0xA5; 4400];
    let (Some(records), Some(results), Some(tx), Some(rx)) = (
        records.get_mut(..number([a, b])),
        results.get_mut(..number([c, d])),
        device.tx.get_mut(..number([e, f])),
        device.rx.get_mut(..number([g, h])),
    ) else {
        return bad_file(rt);
    };
    if console::read_full(input, records)? < records.len() {
        return bad_file(rt);
    }
    let listed = whole_night::night(device.bridge, tx, rx, records, results);
    device.bridge = listed.state;
    println!(rt; "{} {}", whole_night::number(listed.outcome), listed.done)?;
    print_results(rt, results)?;
    Ok(true)
}

fn run(rt: &impl Print, input: &mut impl Read) -> io::Result<()> {
    let mut head = [0; 5];
    let n = console::read_full(input, &mut head)?;
    if !head[..n].starts_with(b"CWL\x00\x01") {
        bad_file(rt)?;
        return Ok(());
    }
    let mut device = Device::new(Bridge::good());
    // A proved loop has to end, and nothing says that a file does: it counts up to a number of calls that no file has.
    for _ in 0..u64::MAX {
        if !next(rt, input, &mut device)? {
            break;
        }
    }
    Ok(())
}

fn main(rt: HostRuntime) -> io::Result<()> {
    console::with_input(&rt, |mut input| run(&rt, &mut input))
}
