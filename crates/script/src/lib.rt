// The event script and what is printed of it (01 The bench program).

#![tactic(auto)]

ghost use Rattle.std.specs.Prelude.{◌≡◌, ◌≤◌, ◌/◌, ◌%◌, take};
ghost use Rattle.events.specs.declared.Event.TheVariants.{Power};
ghost use Rattle.script.specs.Script.{is_head, value_of, power_record, tick_record, release_record, record_of, hex_digit, digit as digit_of, sign as sign_of, line_of};

use events::Event;
use layout::Layout;

// A printed line: its bytes, and how many there are.
// Stays: `printed` takes no allocator, and `line_of` gives both fields; `text` is the slice.
#[derive(Clone, Copy)]
pub struct Line {
    pub bytes: [u8; 17],
    pub length: usize,
}

impl Line {
    pub fn text(&self) -> &[u8]
        requires { self.now.length ≤ 17 }
        ensures { result.now ≡ take self.now.length self.now.bytes }
    {
        &self.bytes[..self.length]
    }
}

// The mark and the version at the head of a script.
pub fn head(s: &[u8]) -> bool
    ensures { result ≡ is_head s.now }
{
    s.starts_with(b"CWB\x00\x01")
}

// A record's value, high byte first.
pub fn value(high: u8, low: u8) -> u16
    ensures { result ≡ value_of high low }
{
    u16::from_be_bytes([high, low])
}

fn power(value: u16) -> Option<Event>
    ensures { result ≡ power_record value }
{
    let (good, layout) = match value {
        0 => (false, Layout::Ours),
        1 => (true, Layout::Ours),
        2 => (false, Layout::Makers),
        3 => (true, Layout::Makers),
        _ => return None,
    };
    Some(Event::Power { good, layout })
}

fn release(value: u16) -> Option<Event>
    ensures { result ≡ release_record value }
{
    (value == 0).then_some(Event::Release)
}

fn tick(value: u16) -> Option<Event>
    ensures { result ≡ tick_record value }
{
    (value <= 1).then_some(Event::Tick(value == 1))
}

// A record by its kind byte.
pub fn read(kind: u8, value: u16) -> Option<Event>
    ensures { result ≡ record_of kind value }
{
    match kind {
        0 => power(value),
        1 => Some(Event::Word(value)),
        2 => release(value),
        3 => tick(value),
        4 => Some(Event::Clock(value)),
        _ => None,
    }
}

// Stays: digits by hand, since no clause of `write!` says the bytes that `{:04X}` prints, and `line_of` names each of them.
fn hex(n: u16) -> u8
    ensures { result ≡ hex_digit (n % 16) }
{
    let d = (n % 16) as u8;
    if d < 10 { d + b'0' } else { d - 10 + b'A' }
}

fn digit(n: u16) -> u8
    ensures { result ≡ digit_of n }
{
    (n % 10) as u8 + b'0'
}

fn sign(bit: bool) -> u8
    ensures { result ≡ sign_of bit }
{
    if bit { b'1' } else { b'0' }
}

// The line that an event prints.
pub fn printed(kind: u8, value: u16, note: u16, sdo: u16, sout: bool) -> Line
    ensures { result ≡ line_of kind value note sdo sout }
{
    let k = digit(kind as u16);
    let v3 = hex(value / 4096);
    let v2 = hex(value / 256);
    let v1 = hex(value / 16);
    let v0 = hex(value);
    let n = digit(note);
    let s3 = hex(sdo / 4096);
    let s2 = hex(sdo / 256);
    let s1 = hex(sdo / 16);
    let s0 = hex(sdo);
    let b = sign(sout);
    if note < 10 {
        return Line {
            bytes: [
                k, b' ', v3, v2, v1, v0, b' ', n, b' ', s3, s2, s1, s0, b' ', b, b'\n', 0,
            ],
            length: 16,
        };
    }
    let t = digit(note / 10);
    Line {
        bytes: [
            k, b' ', v3, v2, v1, v0, b' ', t, n, b' ', s3, s2, s1, s0, b' ', b, b'\n',
        ],
        length: 17,
    }
}
