// Shifts through the library, with no text around them (02, item 13): forty and four hundred call-ups off one reading, by chains of several delays, each
// with the budget that the theorem gives and with less; the last four in the maker's layout, by either CRC algorithm (02, item 7). A line for each: cells of
// the list, delay, budget, then taken, ticks made, verdict, places in use and words in TX at the end.

#![tactic(auto)]

use frames::Order;
use layout::Layout;
use shift::Shifted;
use state::Bridge;
use std::io;

fn number(rt: &impl Print, n: u64) -> io::Result<()> {
    print!(rt; "{n} ")
}

// The host's frame that writes a register (REG_WR_CRC), for the bridge as it stands.
fn written(bridge: Bridge, address: u16, value: u16, tx: &mut [u16], rx: &mut [u16]) -> Bridge {
    let regs = bridge.control.regs;
    let layout = regs.layout;
    let start = command::crc_start(registers::is_xmodem(regs));
    let words: [u16; 1] = [value];
    let mut frame: [u16; 3] = [0; 3];
    let _ = frames::write(
        layout,
        start,
        Order::RegWrCrc { address: address },
        &words,
        &mut frame,
    );
    board::give(bridge, tx, rx, &frame)
}

// Power-up, SPICTRL written, and all flags cleared (STATUS, bit 15), POR too.
fn cleared(layout: Layout, spictrl: u16, tx: &mut [u16], rx: &mut [u16]) -> Bridge {
    let chosen = written(Bridge::good_in(layout), 1, spictrl, tx, rx);
    written(chosen, 7, 0x8000, tx, rx)
}

// A cell of the list: call-up i is for slot i modulo 40 and has two words, of which the first is a head word.
fn cell(k: usize) -> u16 {
    let i = k / 5;
    match k % 5 {
        0 => (i % 40) as u16,
        1 => 21600,
        2 => 2,
        3 => 0xAA00 + (i % 16) as u16,
        _ => (i % 65536) as u16,
    }
}

fn fill(cells: &mut [u16]) {
    for k in 0..cells.len() {
        cells[k] = cell(k);
    }
}

fn told(rt: &impl Print, end: Shifted) -> io::Result<()> {
    let queue = end.bridge.sending.queue;
    let judged = end.verdict;
    number(rt, end.taken as u64)?;
    number(rt, end.ticks as u64)?;
    number(rt, verdict::number(judged) as u64)?;
    number(rt, queue::in_use(queue) as u64)?;
    println!(rt; "{}", end.bridge.sending.tx.count)
}

fn shifted(
    rt: &impl Print,
    layout: Layout,
    spictrl: u16,
    chain: &mut [bool],
    cells: &[u16],
    budget: u32,
) -> io::Result<()> {
    let mut tx = [0u16; 512];
    let mut rx = [0u16; 256];
    let bridge = cleared(layout, spictrl, &mut tx, &mut rx);
    let end = shift::shift(
        board::empty(),
        bridge,
        &mut tx,
        &mut rx,
        chain,
        0,
        cells,
        budget,
    );
    told(rt, end)
}

// So many cells of the list, five a call-up: where the last call-up is cut it is refused.
fn tried(
    rt: &impl Print,
    layout: Layout,
    spictrl: u16,
    length: usize,
    delay: usize,
    budget: u32,
) -> io::Result<()> {
    let mut chain = [true; 1024];
    let mut cells = [0u16; 2000];
    fill(&mut cells);
    number(rt, length as u64)?;
    number(rt, delay as u64)?;
    number(rt, budget as u64)?;
    let list = length % 2001;
    let under_way = delay % 1025;
    shifted(
        rt,
        layout,
        spictrl,
        &mut chain[0..under_way],
        &cells[0..list],
        budget,
    )
}

// SPICTRL as it is reset in our layout and in the maker's, and there with CRC-16/XMODEM chosen (001 7.6.2, bit 2).
const OURS: u16 = 0x0000;

const CCITT_FALSE: u16 = 0x00A0;

const XMODEM: u16 = 0x00A4;

// 89 ticks for a call-up of two words, and the delay.
fn main(rt: HostRuntime) -> io::Result<()> {
    tried(&rt, Layout::Ours, OURS, 200, 0, 3560)?;
    tried(&rt, Layout::Ours, OURS, 200, 0, 3559)?;
    tried(&rt, Layout::Ours, OURS, 200, 0, 500)?;
    tried(&rt, Layout::Ours, OURS, 199, 0, 3560)?;
    tried(&rt, Layout::Ours, OURS, 200, 1, 3600)?;
    tried(&rt, Layout::Ours, OURS, 200, 36, 5000)?;
    tried(&rt, Layout::Ours, OURS, 200, 1000, 43560)?;
    tried(&rt, Layout::Ours, OURS, 200, 1000, 10000)?;
    tried(&rt, Layout::Ours, OURS, 2000, 0, 35600)?;
    tried(&rt, Layout::Ours, OURS, 2000, 60, 59600)?;
    tried(&rt, Layout::Makers, CCITT_FALSE, 200, 0, 3560)?;
    tried(&rt, Layout::Makers, CCITT_FALSE, 200, 1000, 10000)?;
    tried(&rt, Layout::Makers, XMODEM, 200, 0, 3560)?;
    tried(&rt, Layout::Makers, XMODEM, 200, 1000, 10000)
}
