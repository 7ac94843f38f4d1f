// Frames from a shell (02 items 1 and 7): reads orders, a line each, and prints the words of each one's frame, or what its answer says. Frames and
// answers are `frames`' own. All lines are judged before the first is printed, so a list of frames is whole or not there.

#![tactic(auto)]

mod orders;
mod out;
mod reasons;

ghost use Rattle.std.specs.Prelude.{◌≤◌};

use order_lines::{NONE, OTHER, Text};
use reasons::due;
use std::io;
use std::io::Read;

// Whether the line is right, or blank.
fn line(
    rt: &impl Print,
    errors: &impl Print,
    text: &Text,
    number: u64,
    from: usize,
    to: usize,
    shown: bool,
) -> io::Result<bool>
    requires { from ≤ to }
{
    let end = order_lines::words_end(text, from, to);
    let start = order_lines::find(text, from, end, OTHER);
    if end <= start {
        return Ok(true);
    }
    let name = order_lines::read_name(text, start, end);
    let mut fields = [NONE; 3];
    let mut words = [0u16; 4096];
    let items = order_lines::read_items(text, name, end, &mut fields, &mut words);
    let reason = orders::done(rt, name, items, &fields, &words, shown);
    if reason == 0 {
        return Ok(true);
    }
    reasons::told(
        errors,
        text,
        number,
        name,
        items,
        reason,
        due(name.command, fields[2]),
    )?;
    Ok(false)
}

// Whether all lines are right. Where they are shown, none is behind one that cannot be written.
fn walked(
    rt: &impl Print,
    errors: &impl Print,
    text: &Text,
    length: usize,
    shown: bool,
) -> io::Result<bool>
    requires { length ≤ 1048576 }
{
    let mut right = true;
    let mut number: u64 = 1;
    let mut at: usize = 0;
    while at < length {
        let end = order_lines::find(text, at, length, b'\n');
        right = line(rt, errors, text, number, at, end, shown)? & right;
        if shown & !right {
            return Ok(false);
        }
        number = std::num::wrapping_add_u64(number, 1);
        at = end + 1;
    }
    Ok(right)
}

// How many bytes there are.
fn text_read(input: &mut impl Read, text: &mut Text) -> io::Result<usize> {
    console::read_full(input, text)
}

fn main(rt: HostRuntime) -> io::Result<()> {
    let mut text = [0u8; 1048577];
    let errors = rt.stderr();
    let n = match text_read(&mut rt.stdin(), &mut text) {
        Ok(n) => n,
        Err(error) => return console::fail(&errors, rt.alloc(), b"standard input", &error),
    };
    if 1048576 < n {
        return reasons::print(
            &errors,
            b"expected at most 1 MiB (1048576 bytes) of text, found more\n",
        );
    }
    if walked(&rt, &errors, &text, n, false)? {
        walked(&rt, &errors, &text, n, true)?;
    }
    Ok(())
}
