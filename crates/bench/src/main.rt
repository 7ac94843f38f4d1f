// The bench program (01 The bench program): runs the events of a script, from standard input or from the file that its argument names, and
// prints a line for each. It only reads and writes: what is printed is `playing`'s.

#![tactic(auto)]

use device::Device;
use std::io;
use std::io::Read;

// Reads 1,024 records or what is left, prints what they print, and says whether there may be more. Each of those records has room for its line.
fn play_some(rt: &impl Print, script: &mut impl Read, device: &mut Device) -> io::Result<bool> {
    let mut records = [0; 3072];
    let n = console::read_full(script, &mut records)?;
    let mut out = [0; 17419];
    let part = playing::play(
        device.bridge,
        &mut device.tx,
        &mut device.rx,
        &records[..n],
        &mut out,
    );
    device.bridge = part.bridge;
    if let Some(lines) = out.get(..part.length) {
        rt.write_all(lines)?;
    }
    Ok(part.on && n == records.len())
}

fn run(rt: &impl Print, script: &mut impl Read) -> io::Result<()> {
    let mut head = [0; 5];
    let n = console::read_full(script, &mut head)?;
    let mut out = [0; 11];
    let part = playing::begin(&head[..n], &mut out);
    if !part.on {
        return rt.write_all(out.get(..part.length).unwrap_or_default());
    }
    let mut device = Device::new(part.bridge);
    // A proved loop has to end, and nothing says that a script does: it counts up to a number of turns that no script needs.
    for _ in 0..u64::MAX {
        if !play_some(rt, script, &mut device)? {
            break;
        }
    }
    Ok(())
}

fn main(rt: HostRuntime) -> io::Result<()> {
    console::with_input(&rt, |mut script| run(&rt, &mut script))
}
