// What a line begins with.
use crate::text::{OTHER, Text, find, which};

// A command's number, from 15 on where no command has this name, where its name stands, whether an answer to it is read, and the layout (02 item 7): 0
// ours, 1 `makers`, 2 `xmodem`, the maker's with SPICTRL's bit 2, SPI_CRC_ALG, set before.
#[derive(Clone, Copy)]
pub struct Name {
    pub command: usize,
    pub from: usize,
    pub to: usize,
    pub answer: bool,
    pub layout: usize,
}

// Commands by their numbers, which begin at 2 (01 Frames, "Layout (ours)").
pub fn read_name(text: &Text, start: usize, end: usize) -> Name {
    let mut from = start;
    let mut to = find(text, start, end, b' ');
    let answer = which(b"answer ", text, from, to) == 0;
    if answer {
        from = find(text, to, end, OTHER);
        to = find(text, from, end, b' ');
    }
    let layout = std::num::wrapping_add_usize(which(b"makers xmodem ", text, from, to), 1) % 3;
    if layout != 0 {
        from = find(text, to, end, OTHER);
        to = find(text, from, end, b' ');
    }
    let names =
        b"FWD_WR_CRC FWD_WR FWD_WR_END_CRC FWD_WR_END FWD_RD_END_CRC FWD_RD_END DATA_RD_CRC DATA_RD REG_WR_CRC REG_WR REG_RD_CRC REG_RD SOFTRESET_CRC ";
    Name {
        command: std::num::wrapping_add_usize(which(names, text, from, to), 2),
        from: from,
        to: to,
        answer: answer,
        layout: layout,
    }
}
