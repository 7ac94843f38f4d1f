// Runs the rows of 01 Numbers on both sides that no theorem states, and the number at which register 11 stops (02 item 4), and prints what it
// found.

#![tactic(auto)]

use events::Event;
use line::Piece;
use state::Bridge;
use std::io;

fn event(start: Bridge, tx: &mut [u16], rx: &mut [u16], event: Event) -> Bridge {
    bridge::step(start, tx, rx, event).state
}

// A frame's CRC word, then chip select released.
fn closed(start: Bridge, tx: &mut [u16], rx: &mut [u16], crc: u16) -> Bridge {
    let checked = event(start, tx, rx, Event::Word(crc));
    event(checked, tx, rx, Event::Release)
}

fn frame(start: Bridge, tx: &mut [u16], rx: &mut [u16], words: &[u16]) -> Bridge {
    let mut open = start;
    for word in words {
        open = event(open, tx, rx, Event::Word(*word));
    }
    closed(open, tx, rx, crc16::crc_list(words))
}

// Power-up, then REG_WR of STATUS bit 15: POR is cleared, so that the sender may start.
fn cleared(tx: &mut [u16], rx: &mut [u16]) -> Bridge {
    frame(Bridge::good(), tx, rx, &[0xB007, 0x8000])
}

// "No words, 3 extra ENDs": FWD_WR_END.
fn ends_alone(rt: &impl Print) -> io::Result<()> {
    let mut tx = [0u16; 512];
    let mut rx = [0u16; 256];
    let ready = cleared(&mut tx, &mut rx);
    let queued = frame(ready, &mut tx, &mut rx, &[0x5060]);
    let drained = drain::drain(queued, &mut tx, &mut rx, 1000);
    println!(rt; "no words, 3 extra ENDs: {} ticks", drained.ticks)
}

// A clock reading, and the SIN flag after it.
fn read_clock(
    rt: &impl Print,
    start: Bridge,
    tx: &mut [u16],
    rx: &mut [u16],
    reading: u16,
) -> io::Result<Bridge> {
    let after = event(start, tx, rx, Event::Clock(reading));
    let flag = if after.control.flags.sin { 1 } else { 0 };
    println!(rt; "reading {reading}: SIN flag {flag}")?;
    Ok(after)
}

// "Mark 65,533": a start bit when that is the last reading, then readings past the wrap; SIN does not change.
fn watch(rt: &impl Print) -> io::Result<()> {
    let mut tx = [0u16; 512];
    let mut rx = [0u16; 256];
    let ready = cleared(&mut tx, &mut rx);
    let read = event(ready, &mut tx, &mut rx, Event::Clock(65533));
    let queued = frame(read, &mut tx, &mut rx, &[0x2000, 0xAAF0]);
    let begun = event(queued, &mut tx, &mut rx, Event::Tick(true));
    print!(rt; "mark {}, ", begun.clock.watch_mark)?;
    let first = read_clock(rt, begun, &mut tx, &mut rx, 1)?;
    read_clock(rt, first, &mut tx, &mut rx, 2)?;
    Ok(())
}

// The first bits of a word on SIN.
fn heard(start: Bridge, tx: &mut [u16], rx: &mut [u16], word: u16, bits: u16) -> Bridge {
    let mut b = start;
    for i in 0..bits {
        let sin = line::piece_bit(Piece::WordPiece(word), i);
        b = event(b, tx, rx, Event::Tick(sin));
    }
    b
}

// Words with their right check bits.
fn words_heard(start: Bridge, tx: &mut [u16], rx: &mut [u16], word: u16, words: u32) -> Bridge {
    let mut b = start;
    for _ in 0..words {
        b = heard(b, tx, rx, word, 17);
    }
    b
}

// "counting from 0 and stopping at 65,535": a command of so many right words comes back, then one with a wrong check bit.
fn bad_after(rt: &impl Print, words: u32) -> io::Result<()> {
    let mut tx = [0u16; 512];
    let mut rx = [0u16; 256];
    let ready = cleared(&mut tx, &mut rx);
    let begun = event(ready, &mut tx, &mut rx, Event::Tick(false));
    let right = words_heard(begun, &mut tx, &mut rx, 1, words);
    let sixteen = heard(right, &mut tx, &mut rx, 1, 16);
    let bad = event(sixteen, &mut tx, &mut rx, Event::Tick(true));
    let asked = event(bad, &mut tx, &mut rx, Event::Word(0xD00B));
    let told = event(asked, &mut tx, &mut rx, Event::Word(0xB943));
    let answer = bridge::step(told, &mut tx, &mut rx, Event::Word(0xFFFF));
    println!(rt;
        "bad word behind {words} right ones: register 11 reads {}",
        answer.sdo
    )
}

fn main(rt: HostRuntime) -> io::Result<()> {
    ends_alone(&rt)?;
    watch(&rt)?;
    bad_after(&rt, 0)?;
    bad_after(&rt, 65534)?;
    bad_after(&rt, 65535)?;
    bad_after(&rt, 65536)
}
