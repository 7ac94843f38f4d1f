// The bridge's variants as numbers, and numbers side by side: what a record in cells is made of (`cells`).

#![tactic(auto)]

mod numbers;

ghost use Rattle.std.specs.Prelude.{◌≡◌};
ghost use Rattle.parts.specs.Variants.{parts, mode_number, mode_of, layout_number, layout_of, piece_parts, piece_of, ear_parts, ear_of, command_parts, command_of, reply_parts, reply_of, phase_parts, open_parts, phase_of};

use command::Command;
use layout::Layout;
use line::{Ear, Piece};
pub use numbers::{first, five, four, fourth, second, third};
use registers::Mode;
use state::{Phase, Reply};

// A variant's number, and those that it holds.
#[derive(Clone, Copy)]
pub struct Parts {
    pub kind: u16,
    pub a: u16,
    pub b: u16,
    pub c: u16,
    pub d: u16,
    pub x: bool,
    pub y: bool,
}

fn made(kind: u16, a: u16, b: u16, c: u16, d: u16, x: bool, y: bool) -> Parts
    ensures { result ≡ parts kind a b c d x y }
{
    Parts {
        kind,
        a,
        b,
        c,
        d,
        x,
        y,
    }
}

pub fn of_mode(mode: Mode) -> u16
    ensures { result ≡ mode_number mode }
{
    mode as u16
}

pub fn mode(kind: u16) -> Mode
    ensures { result ≡ mode_of kind }
{
    if kind == 0 {
        return Mode::Normal;
    }
    if kind == 1 {
        return Mode::Init;
    }
    Mode::Failsafe
}

pub fn of_layout(layout: Layout) -> u16
    ensures { result ≡ layout_number layout }
{
    layout as u16
}

pub fn layout(kind: u16) -> Layout
    ensures { result ≡ layout_of kind }
{
    if kind == 0 {
        return Layout::Ours;
    }
    Layout::Makers
}

pub fn of_piece(piece: Piece) -> Parts
    ensures { result ≡ piece_parts piece }
{
    match piece {
        Piece::Pause => made(0, 0, 0, 0, 0, false, false),
        Piece::StartBit => made(1, 0, 0, 0, 0, false, false),
        Piece::WordPiece(word) => made(2, word, 0, 0, 0, false, false),
        Piece::EndPiece => made(3, 0, 0, 0, 0, false, false),
    }
}

pub fn piece(kind: u16, word: u16) -> Piece
    ensures { result ≡ piece_of kind word }
{
    if kind == 0 {
        return Piece::Pause;
    }
    if kind == 1 {
        return Piece::StartBit;
    }
    if kind == 2 {
        return Piece::WordPiece(word);
    }
    Piece::EndPiece
}

pub fn of_ear(ear: Ear) -> Parts
    ensures { result ≡ ear_parts ear }
{
    match ear {
        Ear::Quiet => made(0, 0, 0, 0, 0, false, false),
        Ear::Group {
            number: a,
            value: b,
            bits: c,
            ones: d,
        } => made(1, a, b, c, d, false, false),
        Ear::Lost { ones } => made(2, 0, 0, 0, ones, false, false),
    }
}

pub fn ear(kind: u16, number: u16, value: u16, bits: u16, ones: u16) -> Ear
    ensures { result ≡ ear_of kind number value bits ones }
{
    if kind == 0 {
        return Ear::Quiet;
    }
    if kind == 1 {
        return Ear::Group {
            number,
            value,
            bits,
            ones,
        };
    }
    Ear::Lost { ones }
}

fn of_command(command: Command) -> Parts
    ensures { result ≡ command_parts command }
{
    match command {
        Command::Filler => made(0, 0, 0, 0, 0, false, false),
        Command::Malformed => made(1, 0, 0, 0, 0, false, false),
        Command::Forward {
            crc,
            words,
            ends,
            reads,
        } => made(2, words, ends, 0, 0, crc, reads),
        Command::DataRead { crc, words } => made(3, words, 0, 0, 0, crc, false),
        Command::RegisterWrite {
            crc,
            address,
            count,
        } => made(4, address, count, 0, 0, crc, false),
        Command::RegisterRead {
            crc,
            address,
            count,
        } => made(5, address, count, 0, 0, crc, false),
        Command::SoftReset => made(6, 0, 0, 0, 0, false, false),
    }
}

fn command(p: Parts) -> Command
    ensures { result ≡ command_of p }
{
    let kind = p.kind;
    if kind == 0 {
        return Command::Filler;
    }
    if kind == 1 {
        return Command::Malformed;
    }
    if kind == 2 {
        return Command::Forward {
            crc: p.x,
            words: p.a,
            ends: p.b,
            reads: p.y,
        };
    }
    if kind == 3 {
        return Command::DataRead {
            crc: p.x,
            words: p.a,
        };
    }
    if kind == 4 {
        return Command::RegisterWrite {
            crc: p.x,
            address: p.a,
            count: p.b,
        };
    }
    if kind == 5 {
        return Command::RegisterRead {
            crc: p.x,
            address: p.a,
            count: p.b,
        };
    }
    Command::SoftReset
}

fn of_reply(reply: Reply) -> Parts
    ensures { result ≡ reply_parts reply }
{
    match reply {
        Reply::Status(value) => made(0, value, 0, 0, 0, false, false),
        Reply::Data(left) => made(1, left, 0, 0, 0, false, false),
        Reply::Registers { address, left } => made(2, address, left, 0, 0, false, false),
        Reply::Check => made(3, 0, 0, 0, 0, false, false),
    }
}

fn reply(p: Parts) -> Reply
    ensures { result ≡ reply_of p }
{
    let kind = p.kind;
    if kind == 0 {
        return Reply::Status(p.a);
    }
    if kind == 1 {
        return Reply::Data(p.a);
    }
    if kind == 2 {
        return Reply::Registers {
            address: p.a,
            left: p.b,
        };
    }
    Reply::Check
}

pub fn of_phase(phase: Phase) -> Parts
    ensures { result ≡ phase_parts phase }
{
    match phase {
        Phase::Idle => made(0, 0, 0, 0, 0, false, false),
        Phase::Collecting {
            got,
            crc,
            mine,
            released,
            blocked,
            ..
        } => made(1, got, crc, mine, 0, released, blocked),
        Phase::Answering { crc, .. } => made(2, 0, crc, 0, 0, false, false),
        Phase::Discarding => made(3, 0, 0, 0, 0, false, false),
    }
}

// The command or the reply that it holds.
pub fn of_open(phase: Phase) -> Parts
    ensures { result ≡ open_parts phase }
{
    match phase {
        Phase::Idle => made(0, 0, 0, 0, 0, false, false),
        Phase::Collecting { command, .. } => of_command(command),
        Phase::Answering { reply, .. } => of_reply(reply),
        Phase::Discarding => made(0, 0, 0, 0, 0, false, false),
    }
}

pub fn phase(p: Parts, held: Parts) -> Phase
    ensures { result ≡ phase_of p held }
{
    let kind = p.kind;
    if kind == 0 {
        return Phase::Idle;
    }
    if kind == 1 {
        return Phase::Collecting {
            command: command(held),
            got: p.a,
            crc: p.b,
            mine: p.c,
            released: p.x,
            blocked: p.y,
        };
    }
    if kind == 2 {
        return Phase::Answering {
            reply: reply(held),
            crc: p.b,
        };
    }
    Phase::Discarding
}
