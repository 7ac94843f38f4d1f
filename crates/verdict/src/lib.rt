// Whether a call-up is taken, and why not (02, item 13). It looks at the bridge and at the lengths of its stores, and changes nothing.

#![tactic(auto)]

ghost use Rattle.std.specs.Prelude.{◌≡◌, ◌≤◌};
ghost use Rattle.verdict.specs.Verdicts.{verdict_number, is_taken, is_no_room, is_broken, is_idle, is_ready, has_room, room_verdict, verdict_by};

use state::{Bridge, Phase};

// Notes 1 and 2, refusals 32 to 35.
#[derive(Clone, Copy, PartialEq, Eq)]
pub enum Refusal {
    WrongStores,
    BrokenRecord,
    NoSlot,
    WrongLength,
    NotReady,
    NoRoom,
}

// 02's number; 0 is no refusal.
pub fn number(verdict: Result<(), Refusal>) -> u16
    ensures { result ≡ verdict_number verdict }
{
    match verdict {
        Ok(()) => 0,
        Err(Refusal::WrongStores) => 1,
        Err(Refusal::BrokenRecord) => 2,
        Err(Refusal::NoSlot) => 32,
        Err(Refusal::WrongLength) => 33,
        Err(Refusal::NotReady) => 34,
        Err(Refusal::NoRoom) => 35,
    }
}

// No refusal.
pub fn is_taken(verdict: Result<(), Refusal>) -> bool
    ensures { result ≡ is_taken verdict }
{
    verdict.is_ok()
}

// What waiting can mend.
pub fn is_no_room(verdict: Result<(), Refusal>) -> bool
    ensures { result ≡ is_no_room verdict }
{
    matches!(verdict, Err(Refusal::NoRoom))
}

// Wrong stores or a broken record.
pub fn is_broken(verdict: Result<(), Refusal>) -> bool
    ensures { result ≡ is_broken verdict }
{
    matches!(verdict, Err(Refusal::WrongStores | Refusal::BrokenRecord))
}

// No host frame is open, and none is being discarded.
fn is_idle(phase: Phase) -> bool
    ensures { result ≡ is_idle phase }
{
    matches!(phase, Phase::Idle)
}

// Refusal 34 does not meet it.
fn is_ready(bridge: Bridge) -> bool
    ensures { result ≡ is_ready bridge }
{
    next::may_start(bridge.control) && is_idle(bridge.frame.phase)
}

// Refusal 35 does not: two places, and room in TX for the words and the VSYNC.
fn has_room(bridge: Bridge, words: usize) -> bool
    requires { words ≤ 30 }
    ensures { result ≡ has_room bridge words }
{
    let used = queue::in_use(bridge.sending.queue) as usize;
    let count = bridge.sending.tx.count as usize;
    used + 2 <= 8 && count + words + 1 <= 512
}

fn room_verdict(bridge: Bridge, words: usize) -> Result<(), Refusal>
    requires { words ≤ 30 }
    ensures { result ≡ room_verdict bridge words }
{
    if !is_ready(bridge) {
        return Err(Refusal::NotReady);
    }
    if !has_room(bridge, words) {
        return Err(Refusal::NoRoom);
    }
    Ok(())
}

// Of a call-up for a slot, with so many words, on stores of these lengths: the first refusal that meets it.
pub fn judge(bridge: Bridge, tx: usize, rx: usize, slot: u16, words: usize) -> Result<(), Refusal>
    ensures { result ≡ verdict_by tx rx bridge slot words }
{
    if tx != 512 || rx != 256 {
        return Err(Refusal::WrongStores);
    }
    if !rules::sound(bridge) {
        return Err(Refusal::BrokenRecord);
    }
    if 39 < slot {
        return Err(Refusal::NoSlot);
    }
    if words == 0 || 30 < words {
        return Err(Refusal::WrongLength);
    }
    room_verdict(bridge, words)
}
