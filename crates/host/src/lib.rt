// A host word by the frame's phase (01 Frames; notes 3 and 4).

#![tactic(auto)]

ghost use Rattle.std.specs.Prelude.{◌≡◌, true, false, ◌+◌, ◌≤◌, ◌<◌};
ghost use Rattle.command.specs.Layouts.{layouts};
ghost use Rattle.state.specs.Facts.{SendFit, HostFit};
ghost use Rattle.state.specs.Frame.{data_words, collect_sound};
ghost use Rattle.host.specs.Frames.{collects as collects_of, opened as opened_of, data_word, collected as collected_of, planned as planned_of};

use answers::answered;
use closing::crc_due;
use command::Command;
use forwards::{forward_begun, forward_word};
use plan::{Plan, collecting, plain};
use state::{Bridge, Fwd, Note, Phase, Progress};
use writes::register_word;

fn collects(bridge: Bridge, command: Command, sum: u16) -> Plan
    ensures { result ≡ collects_of bridge command sum }
{
    let at = Progress {
        got: 0,
        crc: sum,
        mine: 0,
        released: false,
        blocked: false,
    };
    plain(bridge, collecting(command, at), Note::Done)
}

// The command word.
fn opened(bridge: Bridge, command: Command, sum: u16) -> Plan
    ensures { result ≡ opened_of bridge command sum }
{
    match command {
        Command::Filler => plain(bridge, Phase::Idle, Note::Done),
        Command::Malformed => plain(bridge, Phase::Discarding, Note::MalformedWord),
        Command::Forward {
            crc,
            words,
            ends,
            reads,
        } => forward_begun(
            bridge,
            Fwd {
                crc,
                words,
                ends,
                reads,
            },
            sum,
        ),
        Command::DataRead { .. }
        | Command::RegisterWrite { .. }
        | Command::RegisterRead { .. }
        | Command::SoftReset => collects(bridge, command, sum),
    }
}

// A data word of a register write: `at` is before it, but for the CRC.
fn register_data(
    bridge: Bridge,
    crc: bool,
    address: u16,
    count: u16,
    at: Progress,
    word: u16,
) -> Plan
    requires { address + at.got < 12 }
    ensures { result ≡ data_word bridge (Command.RegisterWrite crc address count) at word }
{
    let command = Command::RegisterWrite {
        crc,
        address,
        count,
    };
    let after = Progress {
        got: at.got + 1,
        ..at
    };
    register_word(
        bridge,
        crc,
        address,
        at.got,
        collecting(command, after),
        word,
    )
}

// A data word; only forwards and register writes have them.
fn data_word(bridge: Bridge, command: Command, at: Progress, word: u16) -> Plan
    requires { (SendFit bridge.sending) × (at.mine ≤ bridge.sending.tx.count) × (collect_sound command at ≡ true) × (at.got < data_words command) }
    ensures { result ≡ data_word bridge command at word }
{
    match command {
        Command::Forward {
            crc,
            words,
            ends,
            reads,
        } => forward_word(
            bridge,
            Fwd {
                crc,
                words,
                ends,
                reads,
            },
            at,
            word,
        ),
        Command::RegisterWrite {
            crc,
            address,
            count,
        } => register_data(bridge, crc, address, count, at, word),
        Command::Filler
        | Command::Malformed
        | Command::DataRead { .. }
        | Command::RegisterRead { .. }
        | Command::SoftReset => plain(bridge, Phase::Idle, Note::Done),
    }
}

// A data word or the CRC word.
fn collected(bridge: Bridge, command: Command, at: Progress, word: u16) -> Plan
    requires { (SendFit bridge.sending) × (at.mine ≤ bridge.sending.tx.count) × (collect_sound command at ≡ true) }
    ensures { result ≡ collected_of layouts bridge command at word }
{
    if state::is_due(command, at.got) {
        let crc = crc16::crc_word(at.crc, word);
        let now = Progress { crc, ..at };
        return data_word(bridge, command, now, word);
    }
    crc_due(bridge, command, at.mine, at.blocked, word == at.crc)
}

// A host word; `rx_oldest` is the oldest word of RX.
pub fn planned(bridge: Bridge, word: u16, rx_oldest: u16) -> Plan
    requires { HostFit bridge }
    ensures { result ≡ planned_of layouts bridge word rx_oldest }
{
    let regs = bridge.control.regs;
    match bridge.frame.phase {
        Phase::Idle => opened(
            bridge,
            command::decode(regs.layout, word),
            crc16::crc_word(command::crc_start(registers::is_xmodem(regs)), word),
        ),
        Phase::Collecting {
            command,
            got,
            crc,
            mine,
            released,
            blocked,
        } => {
            let at = Progress {
                got,
                crc,
                mine,
                released,
                blocked,
            };
            collected(bridge, command, at, word)
        }
        Phase::Answering { reply, crc } => answered(bridge, reply, crc, rx_oldest),
        Phase::Discarding => plain(bridge, Phase::Discarding, Note::Discarded),
    }
}
