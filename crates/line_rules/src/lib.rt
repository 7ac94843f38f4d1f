// The record rules of the sender and of the reader, as a test: the sender's piece with the place under way, the marks of the command being
// read. It asks nothing of the state.

#![tactic(auto)]

ghost use Rattle.std.specs.Prelude.{◌≡◌};
ghost use Rattle.base.specs.Pick.{pick};
ghost use Rattle.line_rules.specs.Line.{end_sound, piece_sound, sender_sound, ear_sound, is_unread, heard_marks, marks_sound, reader_sound};
ghost use Rattle.registers.specs.Registers.{rxff as rxff_of};

use line::{Ear, Piece};
use registers::Flags;
use state::{Place, Queue, Reader, Sender};

// A command's own END, once it has begun, and its extra ones; with no command none is left.
fn ends_allowed(busy: bool, extra: u16) -> u16
    ensures { result ≡ pick busy extra 0 }
{
    if busy { extra } else { 0 }
}

// Words that are not yet sent have an END of their own, or note 13's; else it is an extra one, or their own that has just gone out.
fn end_sound(sender: Sender, place: Place) -> bool
    ensures { result ≡ end_sound sender place }
{
    let ends = sender.ends;
    let speaking = (0 < place.words) & !place.sent;
    if speaking {
        return (ends == place.ends) | (ends == 0);
    }
    (ends < place.ends) | (18 <= sender.gone)
}

fn piece_sound(sender: Sender, busy: bool, place: Place) -> bool
    ensures { result ≡ piece_sound sender.piece sender busy place }
{
    let piece = sender.piece;
    let gone = sender.gone;
    let left = sender.left;
    let ends = sender.ends;
    let words = place.words;
    let extra = place.ends;
    let speaking = (0 < words) & !place.sent;
    match piece {
        Piece::Pause => (gone == 0) & (left == 0) & (ends <= 1) & !busy,
        Piece::StartBit => {
            let all = ends as u32 == extra as u32 + 1;
            (gone == 1) & (left == words) & speaking & all & busy
        }
        Piece::WordPiece(_) => {
            let all = ends as u32 == extra as u32 + 1;
            (0 < gone) & (gone <= 17) & (left < words) & speaking & all & busy
        }
        Piece::EndPiece => {
            let most = ends_allowed(busy, extra);
            let right = !busy | end_sound(sender, place);
            (0 < gone) & (gone <= 18) & (left == 0) & (ends <= most) & right
        }
    }
}

pub fn sender_sound(sender: Sender, queue: Queue) -> bool
    ensures { result ≡ sender_sound sender queue }
{
    let busy = queue::is_under_way(queue);
    let last = queue::place_at(queue, state::less_one(queue.begun));
    let piece = piece_sound(sender, busy, last);
    let idle = deeds::is_idle(sender);
    let over = 18 <= sender.gone;
    let speaking = queue::is_speaking(queue);
    piece & !(idle & busy) & !(over & speaking)
}

fn ear_sound(ear: Ear) -> bool
    ensures { result ≡ ear_sound ear }
{
    match ear {
        Ear::Quiet => true,
        Ear::Group { bits, ones, .. } => (bits <= 17) & (ones < 18),
        Ear::Lost { ones } => ones < 18,
    }
}

// The oldest place has begun, has words and is not yet read.
fn is_unread(queue: Queue) -> bool
    ensures { result ≡ is_unread queue }
{
    let first = queue::place_at(queue, 0);
    (0 < queue.begun) & (0 < first.words) & !first.read
}

fn rxff(flags: Flags) -> bool
    ensures { result ≡ rxff_of flags }
{
    flags.rxffovf | flags.rxffuvf
}

fn heard_marks(reader: Reader, queue: Queue, flags: Flags) -> bool
    ensures { result ≡ heard_marks reader queue flags }
{
    let unread = is_unread(queue);
    let first = queue::place_at(queue, 0);
    let clear = !rxff(flags);
    let belongs = !reader.belongs | unread;
    let storing = !reader.storing | (reader.belongs & first.store & clear);
    belongs & storing
}

fn marks_sound(ear: Ear, reader: Reader, queue: Queue, flags: Flags) -> bool
    ensures { result ≡ marks_sound ear reader queue flags }
{
    match ear {
        Ear::Quiet => !reader.belongs & !reader.storing & !reader.stored,
        Ear::Group { .. } => heard_marks(reader, queue, flags),
        Ear::Lost { .. } => heard_marks(reader, queue, flags),
    }
}

pub fn reader_sound(reader: Reader, queue: Queue, flags: Flags) -> bool
    ensures { result ≡ reader_sound reader queue flags }
{
    ear_sound(reader.ear) & marks_sound(reader.ear, reader, queue, flags)
}
