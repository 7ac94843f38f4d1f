// What is printed: texts of one list, with numbers in them.
ghost use Rattle.std.specs.Prelude.{◌≤◌, length};

use std::io;

// Bits of the line.
pub const ZERO: usize = 0;

pub const ONE: usize = 1;

pub const BITS: usize = 2;

pub const LINE_END: usize = 3;
// A call-up, and what became of it.
pub const CALL_UP: usize = 4;

pub const TAKEN: usize = 5;

pub const WRONG_STORES: usize = 6;

pub const BROKEN_RECORD: usize = 7;

pub const NO_SLOT: usize = 8;

pub const WRONG_LENGTH: usize = 9;

pub const NO_ROOM: usize = 10;

pub const IN_INIT: usize = 11;

pub const IN_FAILSAFE: usize = 12;

pub const POR: usize = 13;

pub const FAULT: usize = 14;

pub const OPEN_FRAME: usize = 15;

pub const SHOWN: usize = 16;
// Why a line is bad: with the word that was found,
pub const NAME: usize = 17;

pub const SLOT: usize = 18;

pub const READING: usize = 19;

pub const WORD: usize = 20;

pub const TICKS: usize = 21;

pub const DELAY: usize = 22;

pub const MORE: usize = 23;
// or without one.
pub const TWO_SHIFTS: usize = 24;

pub const NO_SHIFT: usize = 25;

pub const LATE: usize = 26;
// That word.
pub const NOTHING: usize = 27;

pub const QUOTE: usize = 28;

pub const UNQUOTE: usize = 29;
// The panel: a slot's upper and lower line, empty, or with none, up to nine or more words behind its first.
pub const RULE: usize = 30;

pub const ROW: usize = 31;

pub const UPPER_EMPTY: usize = 32;

pub const UPPER: usize = 33;

pub const LOWER_EMPTY: usize = 34;

pub const LOWER: usize = 35;

pub const LOWER_FEW: usize = 36;

pub const LOWER_MANY: usize = 37;
// The sums.
pub const CALL_UPS: usize = 38;

pub const LINES_AND_TICKS: usize = 39;

pub fn print(rt: &impl Print, text: &[u8]) -> io::Result<()> {
    rt.write_all(text)
}

// The next sign of a list, or its end: % is a number, & and # one in 3 and in 5 places, @ four hex digits, ^ a number that is left out, $ an s unless the
// number before it is 1, ~ the end of a text.
fn sign(list: &[u8], from: usize) -> usize
    requires { from ≤ length list.now }
    ensures lower_bound { from ≤ result }
    ensures upper_bound { result ≤ length list.now }
{
    let mut i = from;
    while i < list.len() {
        match list[i] {
            b'%' | b'&' | b'#' | b'@' | b'^' | b'$' | b'~' => return i,
            _ => {}
        }
        i = i + 1;
    }
    i
}

// A digit, or the space before a number of fewer.
fn digit(n: u64, place: u64) -> u8
    requires { 1 ≤ place }
{
    if (n < place) & (1 < place) {
        return b' ';
    }
    (n / place % 10) as u8 + b'0'
}

fn hex(n: u64) -> u8 {
    let d = (n % 16) as u8;
    if d < 10 {
        return d + b'0';
    }
    d - 10 + b'A'
}

fn value(rt: &impl Print, sign: u8, n: u64) -> io::Result<()> {
    match sign {
        b'%' => print!(rt; "{n}"),
        b'&' => print(rt, &[b' ', digit(n, 10), digit(n, 1)]),
        b'#' => print(
            rt,
            &[
                digit(n, 10000),
                digit(n, 1000),
                digit(n, 100),
                digit(n, 10),
                digit(n, 1),
            ],
        ),
        b'@' => print(rt, &[hex(n / 4096), hex(n / 256), hex(n / 16), hex(n)]),
        b'$' => if n != 1 { print(rt, b"s") } else { Ok(()) },
        _ => Ok(()),
    }
}

// The text of this number, from 0 on.
fn filled(rt: &impl Print, list: &[u8], number: usize, values: [u64; 5]) -> io::Result<()> {
    let mut left = number;
    let mut k: usize = 4;
    let mut from: usize = 0;
    let mut to = sign(list, 0);
    while to < list.len() {
        let mark = list[to];
        if left == 0 {
            print(rt, &list[from..to])?;
            if mark == b'~' {
                return Ok(());
            }
            if mark != b'$' {
                k = std::num::wrapping_add_usize(k, 1);
            }
            value(rt, mark, values[k % 5])?;
        } else if mark == b'~' {
            left = left - 1;
        }
        from = to + 1;
        to = sign(list, from);
    }
    Ok(())
}

pub fn tell(
    rt: &impl Print,
    text: usize,
    a: u64,
    b: u64,
    c: u64,
    d: u64,
    e: u64,
) -> io::Result<()> {
    filled(
        rt,
        b"0~1~line ~\n~\
        tick %: call-up %, slot %, reading %, % word$: ~\
        taken\n~\
        refused (%), wrong stores\n~\
        refused (%), a broken record\n~\
        refused (%), there is no slot %: slots are 0 to 39\n~\
        refused (%), a call-up has 1 to 30 words\n~\
        refused (%), no room: ^% of 8 places and % of 512 words of TX are in use\n~\
        refused (%), the bridge is not ready: it is in INIT\n~\
        refused (%), the bridge is not ready: it is in FAILSAFE\n~\
        refused (%), the bridge is not ready: POR is set\n~\
        refused (%), the bridge is not ready: a transmit or queue fault is up\n~\
        refused (%), the bridge is not ready: a host frame is open\n~\
        tick %: call-up %, slot %: shown\n~\
        bad line %: expected call, tick, clock, clear, force, exit, delay, shift or end, found ~\
        bad line %: expected a number from 0 to 65535 as the slot, found ~\
        bad line %: expected a number from 0 to 65535 as the reading, found ~\
        bad line %: expected a word of four hex digits, found ~\
        bad line %: expected a number from 0 to 1000000 as the ticks, found ~\
        bad line %: expected a number from 0 to 4096 as the delay, found ~\
        bad line %: expected nothing more, found ~\
        bad line %: expected end before the next shift\n~\
        bad line %: expected shift before end\n~\
        bad line %: expected delay before the first tick\n~\
        nothing\n~`~`\n~\
        +-----------+-----------+-----------+-----------+-----------+-----------+-----------+-----------+\n~|\n~\
        |&        ~|&  # ~|           ~|   @    ~|   @ +% ~|   @ +%~\
        \n% call-up$: % taken, % refused, % shown; ~\
        % bad line$; % tick$\n~",
        text,
        [a, b, c, d, e],
    )
}

pub fn say(rt: &impl Print, text: usize) -> io::Result<()> {
    tell(rt, text, 0, 0, 0, 0, 0)
}
