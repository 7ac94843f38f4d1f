// The CRC word (01 Frames; notes 6, 7, 10 and 11).

#![tactic(auto)]

ghost use Rattle.std.specs.Prelude.{◌≡◌, Bool, true, ℕ, ◌+◌, ◌≤◌};
ghost use Rattle.command.specs.Layouts.{layouts};
ghost use Rattle.closing.specs.Closing.{closed as closed_of, wrong_crc, forward_closed, registers_closed, read_closed, reset_closed, crc_due};

use command::Command;
use forwards::{Wish, faulted, guard};
use plan::{Plan, Receive, plain, raised_in};
use registers::{Control, Flag};
use state::{Bridge, Deed, Fwd, Note, Phase, Reply};
use writes::{busy, effected, write_all};

fn closed(bridge: Bridge, control: Control, deed: Deed, receive: Receive, note: Note) -> Plan
    ensures { result ≡ closed_of bridge control deed receive note }
{
    Plan {
        control,
        deed,
        receive,
        status: true,
        ..plain(bridge, Phase::Idle, note)
    }
}

// Note 6 where the command is named _CRC, else note 7.
fn wrong_crc(bridge: Bridge, crc: bool, unreleased: u16) -> Plan
    ensures { result ≡ wrong_crc bridge crc unreleased }
{
    let flagged = raised_in(bridge.control, Flag::SpiCrc);
    if crc {
        return closed(
            bridge,
            flagged,
            Deed::TakeBack(unreleased),
            Receive::LeaveRx,
            Note::CrcRefused,
        );
    }
    closed(
        bridge,
        flagged,
        Deed::Leave,
        Receive::LeaveRx,
        Note::CrcWrong,
    )
}

fn forward_closed(bridge: Bridge, forward: Fwd, blocked: bool) -> Plan
    ensures { result ≡ forward_closed bridge forward.crc forward.words forward.ends forward.reads blocked }
{
    let wordless = forward.words == 0;
    let endless = forward.ends == 0;
    let wish = Wish {
        store: None,
        release: forward.crc & !(wordless & endless),
        place: queue::new_place(forward.words, forward.ends, forward.reads),
    };
    let granted = guard(blocked, bridge.sending.tx.count, bridge.sending.queue, wish);
    let control = faulted(bridge.control, granted.note);
    closed(
        bridge,
        control,
        granted.deed,
        Receive::LeaveRx,
        granted.note,
    )
}

fn registers_closed(bridge: Bridge, crc: bool, address: u16, count: u16) -> Plan
    requires { address + count ≤ 12 }
    ensures { result ≡ registers_closed bridge crc address count }
{
    if crc {
        let held = bridge.frame.held;
        let effects = write_all(bridge.control, busy(bridge), address, held, count);
        return effected(bridge, Phase::Idle, effects, true);
    }
    closed(
        bridge,
        bridge.control,
        Deed::Leave,
        Receive::LeaveRx,
        Note::Done,
    )
}

// Reads answer, but not after note 6.
fn read_closed(bridge: Bridge, crc: bool, right: bool, reply: Reply) -> Plan
    ensures { result ≡ read_closed layouts bridge crc right reply }
{
    let answering = Phase::Answering {
        reply,
        crc: command::crc_start(bridge.frame.xmodem),
    };
    if right {
        return plain(bridge, answering, Note::Done);
    }
    let flagged = Bridge {
        control: raised_in(bridge.control, Flag::SpiCrc),
        ..bridge
    };
    if crc {
        return plain(flagged, Phase::Idle, Note::CrcRefused);
    }
    plain(flagged, answering, Note::CrcWrong)
}

// Note 11.
fn reset_closed(bridge: Bridge) -> Plan
    ensures { result ≡ reset_closed bridge }
{
    if deeds::is_idle(bridge.sending.sender) {
        return closed(
            bridge,
            bridge.control,
            Deed::ResetAll,
            Receive::ResetRx,
            Note::Done,
        );
    }
    let flagged = raised_in(bridge.control, Flag::Srst);
    closed(
        bridge,
        flagged,
        Deed::Leave,
        Receive::LeaveRx,
        Note::ResetRefused,
    )
}

// The CRC word, right or wrong.
pub fn crc_due(bridge: Bridge, command: Command, mine: u16, blocked: bool, right: bool) -> Plan
    requires { (crc : Bool) (address count : ℕ) → command ≡ Command.RegisterWrite crc address count → address + count ≤ 12 }
    ensures { result ≡ crc_due layouts bridge command mine blocked right }
{
    match command {
        Command::Filler | Command::Malformed => plain(bridge, Phase::Idle, Note::Done),
        Command::DataRead { crc, words } => read_closed(bridge, crc, right, Reply::Data(words)),
        Command::RegisterRead {
            crc,
            address,
            count: left,
        } => read_closed(bridge, crc, right, Reply::Registers { address, left }),
        Command::Forward {
            crc,
            words,
            ends,
            reads,
        } if right => forward_closed(
            bridge,
            Fwd {
                crc,
                words,
                ends,
                reads,
            },
            blocked,
        ),
        Command::Forward { crc, .. } => wrong_crc(bridge, crc, mine),
        Command::RegisterWrite {
            crc,
            address,
            count,
        } if right => registers_closed(bridge, crc, address, count),
        Command::RegisterWrite { crc, .. } => wrong_crc(bridge, crc, mine),
        Command::SoftReset if right => reset_closed(bridge),
        Command::SoftReset => wrong_crc(bridge, true, mine),
    }
}
