// The answer (01 Frames, "Reads answer the words, each read as it is answered, then their CRC"; note 15).

#![tactic(auto)]

ghost use Rattle.std.specs.Prelude.{◌≡◌, true, ◌+◌, ◌-◌, ◌<◌, leb};
ghost use Rattle.base.specs.Pick.{pick};
ghost use Rattle.command.specs.Layouts.{layouts};
ghost use Rattle.state.specs.Frame.{reply_sound};
ghost use Rattle.answers.specs.Answers.{answer_with, data_answered, register_answered, answered as answered_of};

use plan::{NO_ANSWER, Plan, Receive, plain, raised_in};
use registers::{Control, Flag};
use state::{Bridge, Note, Phase, Reply};

fn answer_with(
    bridge: Bridge,
    control: Control,
    receive: Receive,
    note: Note,
    phase: Phase,
    word: u16,
) -> Plan
    ensures { result ≡ answer_with bridge control receive note phase word }
{
    Plan {
        control,
        receive,
        sdo: word,
        ..plain(bridge, phase, note)
    }
}

fn next_data(left: u16) -> Reply
    ensures { result ≡ pick (leb left 1) Reply.Check (Reply.Data (left - 1)) }
{
    if left <= 1 {
        return Reply::Check;
    }
    Reply::Data(left - 1)
}

fn next_registers(address: u16, left: u16) -> Reply
    requires { address < 65535 }
    ensures { result ≡ pick (leb left 1) Reply.Check (Reply.Registers (address + 1) (left - 1)) }
{
    if left <= 1 {
        return Reply::Check;
    }
    Reply::Registers {
        address: address + 1,
        left: left - 1,
    }
}

// The phase after a word of the answer.
fn answering(reply: Reply, sum: u16, word: u16) -> Phase
    ensures { result ≡ Phase.Answering reply (layouts.crc_step sum word) }
{
    Phase::Answering {
        reply,
        crc: crc16::crc_word(sum, word),
    }
}

// A word of the answer that changes nothing but the phase.
fn unchanged(bridge: Bridge, phase: Phase, word: u16) -> Plan
    ensures { result ≡ answer_with bridge bridge.control Receive.LeaveRx Note.Done phase word }
{
    Plan {
        sdo: word,
        ..plain(bridge, phase, Note::Done)
    }
}

// The oldest word of RX.
fn data_answered(bridge: Bridge, left: u16, sum: u16, word: u16) -> Plan
    ensures { result ≡ data_answered layouts bridge left sum word }
{
    let next = next_data(left);
    if bridge.receiving.rx.count == 0 {
        let flagged = raised_in(bridge.control, Flag::RxUvf);
        let phase = answering(next, sum, NO_ANSWER);
        return answer_with(
            bridge,
            flagged,
            Receive::StopRx,
            Note::RxEmpty,
            phase,
            NO_ANSWER,
        );
    }
    let phase = answering(next, sum, word);
    answer_with(
        bridge,
        bridge.control,
        Receive::PopRx,
        Note::Done,
        phase,
        word,
    )
}

fn register_answered(bridge: Bridge, address: u16, left: u16, sum: u16, word: u16) -> Plan
    requires { address < 65535 }
    ensures { result ≡ register_answered layouts bridge address left sum word }
{
    let phase = answering(next_registers(address, left), sum, word);
    unchanged(bridge, phase, word)
}

// One word of an answer; `word` is RX's oldest.
pub fn answered(bridge: Bridge, reply: Reply, sum: u16, word: u16) -> Plan
    requires { reply_sound reply ≡ true }
    ensures { result ≡ answered_of layouts bridge reply sum word }
{
    match reply {
        Reply::Status(status) => unchanged(bridge, answering(Reply::Check, sum, status), status),
        Reply::Data(left) => data_answered(bridge, left, sum, word),
        Reply::Registers { address, left } => {
            let tx = bridge.sending.tx.count;
            let rx = bridge.receiving.rx.count;
            let read = reading::read(bridge.control, tx, rx, address);
            register_answered(bridge, address, left, sum, read)
        }
        Reply::Check => unchanged(bridge, Phase::Idle, sum),
    }
}
