// Walks all 65,536 words through `command::decode`, in our layout and then in the maker's (02 item 7), and prints of each a digest for each command
// number and a count for each kind, to be compared with what another program makes of 01's table and of 001's.
//
// The digest of a number begins at 0 and goes over its 4,096 words, ascending. A command is a row of numbers: its kind (0 filler,
// 1 malformed, 2 forward, 3 data read, 4 register write, 5 register read, 6 soft reset), then the fields of that kind as `Command`
// declares them, a bool as 0 or 1. Each number n of the row takes the digest d to (d * 65599 + n + 1) mod 4294967291, the largest
// prime below 2^32, so no step leaves 64 bits. It is printed as eight hex digits.

#![tactic(auto)]

use command::Command;
use layout::Layout;
use std::io;

const PRIME: u64 = 4294967291;

fn mixed(digest: u64, row: &[u16]) -> u64 {
    row.iter().fold(digest, |digest, n| {
        (digest % PRIME * 65599 + u64::from(*n) + 1) % PRIME
    })
}

fn mix_command(digest: u64, asked: Command) -> u64 {
    match asked {
        Command::Filler => mixed(digest, &[0]),
        Command::Malformed => mixed(digest, &[1]),
        Command::Forward {
            crc,
            words,
            ends,
            reads,
        } => mixed(digest, &[2, u16::from(crc), words, ends, u16::from(reads)]),
        Command::DataRead { crc, words } => mixed(digest, &[3, u16::from(crc), words]),
        Command::RegisterWrite {
            crc,
            address,
            count,
        } => mixed(digest, &[4, u16::from(crc), address, count]),
        Command::RegisterRead {
            crc,
            address,
            count,
        } => mixed(digest, &[5, u16::from(crc), address, count]),
        Command::SoftReset => mixed(digest, &[6]),
    }
}

// What is counted apart, in the order in which it is printed: a command that carries a CRC apart from the plain one.
#[derive(Clone, Copy)]
enum Kind {
    Filler,
    Malformed,
    ForwardWriteCrc,
    ForwardWritePlain,
    ForwardReadsCrc,
    ForwardReadsPlain,
    DataReadCrc,
    DataReadPlain,
    RegisterWriteCrc,
    RegisterWritePlain,
    RegisterReadCrc,
    RegisterReadPlain,
    SoftReset,
}

const NAMES: [&str; 13] = [
    "filler",
    "malformed",
    "forward write crc",
    "forward write plain",
    "forward reads crc",
    "forward reads plain",
    "data read crc",
    "data read plain",
    "register write crc",
    "register write plain",
    "register read crc",
    "register read plain",
    "soft reset",
];

impl From<Command> for Kind {
    fn from(asked: Command) -> Self {
        match asked {
            Command::Filler => Kind::Filler,
            Command::Malformed => Kind::Malformed,
            Command::Forward { crc, reads, .. } => match (reads, crc) {
                (false, true) => Kind::ForwardWriteCrc,
                (false, false) => Kind::ForwardWritePlain,
                (true, true) => Kind::ForwardReadsCrc,
                (true, false) => Kind::ForwardReadsPlain,
            },
            Command::DataRead { crc: true, .. } => Kind::DataReadCrc,
            Command::DataRead { .. } => Kind::DataReadPlain,
            Command::RegisterWrite { crc: true, .. } => Kind::RegisterWriteCrc,
            Command::RegisterWrite { .. } => Kind::RegisterWritePlain,
            Command::RegisterRead { crc: true, .. } => Kind::RegisterReadCrc,
            Command::RegisterRead { .. } => Kind::RegisterReadPlain,
            Command::SoftReset => Kind::SoftReset,
        }
    }
}

// After a number's last word its line; the next number begins anew.
fn close_number(rt: &impl Print, word: u16, digest: u64) -> io::Result<u64> {
    if word % 4096 != 4095 {
        return Ok(digest);
    }
    println!(rt; "number {} digest {digest:08x}", word / 4096)?;
    Ok(0)
}

fn walk(rt: &impl Print, layout: Layout) -> io::Result<()> {
    let mut counts = [0u32; 13];
    let mut digest = 0;
    for word in 0..=65535 {
        let asked = command::decode(layout, word);
        let count = &mut counts[Kind::from(asked) as usize];
        *count = count.wrapping_add(1);
        digest = close_number(rt, word, mix_command(digest, asked))?;
    }
    for (name, count) in NAMES.iter().zip(counts.iter()) {
        println!(rt; "{name} {count}")?;
    }
    Ok(())
}

fn main(rt: HostRuntime) -> io::Result<()> {
    walk(&rt, Layout::Ours)?;
    println!(rt; "maker's")?;
    walk(&rt, Layout::Makers)
}
