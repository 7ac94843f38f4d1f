// The record rules (01 Notes, note 2), as a test. It asks nothing of the state, so sums are taken in 32 bits.

#![tactic(auto)]

ghost use Rattle.std.specs.Prelude.{◌≡◌, ◌+◌, ◌≤◌};
ghost use Rattle.state.specs.Queue.{waiting, words_of};
ghost use Rattle.rules.specs.Sound.{ring_sound, last_left, ledger as ledger_of, sound as sound_of};

use state::{Bridge, Phase, Ring, Sending};

fn ring_sound(ring: Ring, size: u16) -> bool
    ensures { result ≡ ring_sound size ring }
{
    (ring.head < size) & (ring.count <= size)
}

fn last_left(sending: Sending) -> u16
    ensures { result ≡ last_left sending }
{
    let queue = sending.queue;
    if queue.begun < queue.used {
        let youngest = queue::place_at(queue, queue.used - 1);
        return youngest.words;
    }
    sending.sender.left
}

fn ledger(sending: Sending, phase: Phase, waiting_words: u32) -> bool
    requires { (waiting_words ≡ words_of (waiting sending.queue)) × (waiting_words ≤ 524280) }
    ensures { result ≡ ledger_of sending phase }
{
    let due = frame_rules::to_come(phase);
    let held = sending.tx.count as u32 + due as u32;
    let taken = sending.sender.left as u32 + waiting_words + frame_rules::mine_of(phase) as u32;
    (held == taken) & (due <= last_left(sending))
}

// Every rule of the record. What tests each event's state before it acts.
pub fn sound(bridge: Bridge) -> bool
    ensures { result ≡ sound_of bridge }
{
    let control = bridge.control;
    let sending = bridge.sending;
    let receiving = bridge.receiving;
    let frame = bridge.frame;
    let waiting = place_rules::words_waiting(sending.queue);
    ring_sound(sending.tx, 512)
        & ring_sound(receiving.rx, 256)
        & frame_rules::control_sound(control, receiving.rx.count)
        & place_rules::queue_sound(sending.queue)
        & line_rules::sender_sound(sending.sender, sending.queue)
        & line_rules::reader_sound(receiving.reader, sending.queue, control.flags)
        & frame_rules::phase_sound(frame.phase)
        & frame_rules::flags_sound(control.flags, frame.phase)
        & ledger(sending, frame.phase, waiting)
        & frame_rules::algorithm_sound(control.regs.layout, frame.xmodem)
}
