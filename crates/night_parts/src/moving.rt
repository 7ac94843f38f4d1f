// Host events that move the phase and nothing else: a release that cuts nothing short, and the words that take a status or a CRC.
ghost use Rattle.std.specs.Prelude.{◌≡◌, true, eqb};
ghost use Rattle.base.specs.Pick.{pick};
ghost use Rattle.state.specs.declared.Phase.TheVariants.{Idle};
ghost use Rattle.night_parts.specs.Moving.{no_move, release_move, reply_move, word_move, move_of};

use state::{Clock, Phase, Reply};

// Whether it is such an event, the word that it answers, and the phase that it leaves.
#[derive(Clone, Copy)]
pub struct Move {
    pub moves: bool,
    pub sdo: u16,
    pub phase: Phase,
}

fn none() -> Move
    ensures { result ≡ no_move }
{
    Move {
        moves: false,
        sdo: 0xFFFF,
        phase: Phase::Idle,
    }
}

fn freed() -> Move
    ensures { result ≡ record { moves = true; sdo = 0xFFFF; phase = Idle } }
{
    Move {
        moves: true,
        sdo: 0xFFFF,
        phase: Phase::Idle,
    }
}

// Of a frame that is being received a release is no such event.
fn released(phase: Phase) -> Move
    ensures { result ≡ release_move phase }
{
    match phase {
        Phase::Idle => freed(),
        Phase::Collecting { .. } => none(),
        Phase::Answering { .. } => freed(),
        Phase::Discarding => freed(),
    }
}

fn replied(reply: Reply, crc: u16) -> Move
    ensures { result ≡ reply_move reply crc }
{
    match reply {
        Reply::Status(status) => Move {
            moves: true,
            sdo: status,
            phase: Phase::Answering {
                reply: Reply::Check,
                crc: crc16::crc_word(crc, status),
            },
        },
        Reply::Data(_) => none(),
        Reply::Registers { .. } => none(),
        Reply::Check => Move {
            moves: true,
            sdo: crc,
            phase: Phase::Idle,
        },
    }
}

fn answered(phase: Phase) -> Move
    ensures { result ≡ word_move phase }
{
    match phase {
        Phase::Idle => none(),
        Phase::Collecting { .. } => none(),
        Phase::Answering { reply, crc } => replied(reply, crc),
        Phase::Discarding => none(),
    }
}

// By the record's kind.
pub fn moved(kind: u8, phase: Phase) -> Move
    ensures { result ≡ move_of kind phase }
{
    if kind == 1 {
        return answered(phase);
    }
    if kind == 2 {
        return released(phase);
    }
    none()
}

// A word marks the watchdog, a release does not.
pub fn mark_after(kind: u8, clock: Clock) -> u16
    ensures { result ≡ pick (eqb kind 1) clock.reading clock.mark }
{
    if kind == 1 {
        return clock.reading;
    }
    clock.mark
}
