// The record rules of registers, flags and frame, as a test; and what a frame has in TX and has still to bring. It asks nothing of the state.

#![tactic(auto)]

ghost use Rattle.std.specs.Prelude.{◌≡◌, ◌||◌, ◌+◌, leb};
ghost use Rattle.frame_rules.specs.Frames.{otp_sound, drdy_sound, bad_word_sound, control_sound, algorithm_sound, is_unmarked, flags_sound};
ghost use Rattle.base.specs.Pick.{pick};
ghost use Rattle.state.specs.Frame.{mine_of, owed_by, to_come, forward_sound, collect_sound, reply_sound, phase_sound};

use command::Command;
use layout::Layout;
use registers::{Control, Flags, Mode};
use state::{Fwd, Phase, Progress, Reply};

fn otp_sound(mode: Mode, otp: bool) -> bool
    ensures { result ≡ otp_sound mode otp }
{
    match mode {
        Mode::Normal => !otp,
        Mode::Init => otp,
        Mode::Failsafe => !otp,
    }
}

fn drdy_sound(drdy: bool, level: u16, count: u16) -> bool
    ensures { result ≡ drdy_sound drdy level count }
{
    if count == 0 {
        return drdy;
    }
    !((level < count) & drdy)
}

// What register 11 shows is 0 while CHECK_BIT is down (02 item 4).
fn bad_word_sound(flags: Flags) -> bool
    ensures { result ≡ bad_word_sound flags }
{
    flags.check_bit | (flags.bad_word == 0)
}

pub fn control_sound(control: Control, count: u16) -> bool
    ensures { result ≡ control_sound control count }
{
    let mode = control.mode;
    let regs = registers::regs_sound(control.regs);
    let otp = otp_sound(mode, control.flags.otp);
    let drdy = drdy_sound(control.drdy, control.regs.rxfflvl, count);
    let word = bad_word_sound(control.flags);
    regs & otp & drdy & word
}

// Our layout has one CRC (02 item 7).
pub fn algorithm_sound(layout: Layout, xmodem: bool) -> bool
    ensures { result ≡ algorithm_sound layout xmodem }
{
    match layout {
        Layout::Ours => !xmodem,
        Layout::Makers => true,
    }
}

// The data words of a forward that its frame has in TX.
fn unreleased(got: u16, released: bool, blocked: bool) -> u16
    ensures { result ≡ pick (released || blocked) 0 got }
{
    if released | blocked { 0 } else { got }
}

fn forward_sound(forward: Fwd, at: Progress) -> bool
    ensures { result ≡ forward_sound forward at }
{
    let crc = forward.crc;
    let words = forward.words;
    let ends = forward.ends;
    let got = at.got;
    let released = at.released;
    let blocked = at.blocked;
    let counts = (got <= words) & (words <= 4096) & (ends <= 127);
    let own = at.mine == unreleased(got, released, blocked);
    let none = (words == 0) & (ends == 0);
    let due = crc | released | blocked | (got < words) | none;
    counts & own & !(released & crc) & due
}

fn span_sound(address: u16, count: u16) -> bool
    ensures { result ≡ leb (address + count) 12 }
{
    address as u32 + count as u32 <= 12
}

fn collect_sound(command: Command, at: Progress) -> bool
    ensures { result ≡ collect_sound command at }
{
    let got = at.got;
    let mine = at.mine;
    let released = at.released;
    match command {
        Command::Filler => false,
        Command::Malformed => false,
        Command::Forward {
            crc,
            words,
            ends,
            reads,
        } => forward_sound(
            Fwd {
                crc,
                words,
                ends,
                reads,
            },
            at,
        ),
        Command::DataRead { words, .. } => (got == 0)
            & (mine == 0)
            & !released
            & (0 < words)
            & (words <= 256),
        Command::RegisterWrite { address, count, .. } => (got <= count)
            & (mine == 0)
            & !released
            & (0 < count)
            & span_sound(address, count),
        Command::RegisterRead { address, count, .. } => (got == 0)
            & (mine == 0)
            & !released
            & (0 < count)
            & span_sound(address, count),
        Command::SoftReset => (got == 0) & (mine == 0) & !released,
    }
}

fn reply_sound(reply: Reply) -> bool
    ensures { result ≡ reply_sound reply }
{
    match reply {
        Reply::Status(_) => true,
        Reply::Data(left) => (0 < left) & (left <= 256),
        Reply::Registers { address, left } => (0 < left) & span_sound(address, left),
        Reply::Check => true,
    }
}

pub fn phase_sound(phase: Phase) -> bool
    ensures { result ≡ phase_sound phase }
{
    match phase {
        Phase::Idle => true,
        Phase::Collecting {
            command,
            got,
            crc,
            mine,
            released,
            blocked,
        } => collect_sound(
            command,
            Progress {
                got,
                crc,
                mine,
                released,
                blocked,
            },
        ),
        Phase::Answering { reply, .. } => reply_sound(reply),
        Phase::Discarding => true,
    }
}

pub fn mine_of(phase: Phase) -> u16
    ensures { result ≡ mine_of phase }
{
    match phase {
        Phase::Idle => 0,
        Phase::Collecting { mine, .. } => mine,
        Phase::Answering { .. } => 0,
        Phase::Discarding => 0,
    }
}

// Words that came in excess, in a broken state, owe none.
fn owed_by(command: Command, got: u16, released: bool, blocked: bool) -> u16
    ensures { result ≡ owed_by command got released blocked }
{
    let words = state::data_words(command);
    if released & !blocked {
        if got < words {
            return words - got;
        }
    }
    0
}

pub fn to_come(phase: Phase) -> u16
    ensures { result ≡ to_come phase }
{
    match phase {
        Phase::Idle => 0,
        Phase::Collecting {
            command,
            got,
            released,
            blocked,
            ..
        } => owed_by(command, got, released, blocked),
        Phase::Answering { .. } => 0,
        Phase::Discarding => 0,
    }
}

// An open forward that is not marked as blocked.
fn is_unmarked(phase: Phase) -> bool
    ensures { result ≡ is_unmarked phase }
{
    match phase {
        Phase::Idle => false,
        Phase::Collecting {
            command,
            blocked,
            ..
        } => state::is_forward(command) & !blocked,
        Phase::Answering { .. } => false,
        Phase::Discarding => false,
    }
}

// With a blocking flag up, an open forward is marked as blocked.
pub fn flags_sound(flags: Flags, phase: Phase) -> bool
    ensures { result ≡ flags_sound flags phase }
{
    let up = registers::blocking(flags);
    let unmarked = is_unmarked(phase);
    !(up & unmarked)
}
