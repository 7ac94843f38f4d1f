// The host's side of a frame (02, item 1): an order becomes the words to send, and the words that came back become STATUS or data. It knows the
// command words of either layout and the CRC (02, item 7), and nothing of the bridge.

#![tactic(auto)]

ghost use Rattle.std.specs.Prelude.{◌≡◌, ◌∷◌, ◌+◌, ◌≤◌, length};
ghost use Rattle.frames.specs.Answers.{is_answer, told_of, answer_refusal};
ghost use Rattle.frames.specs.Frames.{beside, checked, over, out, written_of, written_refusal};

mod rows;

use layout::Layout;
pub use rows::order_of;

// A command of 01's table, by the name that stands there, with the fields of its row that its data words do not give.
#[derive(Clone, Copy)]
pub enum Order {
    FwdWrCrc,
    FwdWr,
    FwdWrEndCrc { ends: u16 },
    FwdWrEnd { ends: u16 },
    FwdRdEndCrc { ends: u16 },
    FwdRdEnd { ends: u16 },
    DataRdCrc { count: u16 },
    DataRd { count: u16 },
    RegWrCrc { address: u16 },
    RegWr { address: u16 },
    RegRdCrc { address: u16, count: u16 },
    RegRd { address: u16, count: u16 },
    SoftResetCrc,
}

// Why there is no frame: refusals 20 and 21.
#[derive(Clone, Copy)]
pub enum WriteError {
    OutsideLimits,
    BufferShort,
}

// What is due as an answer: STATUS, or so many words of data.
#[derive(Clone, Copy)]
pub enum Due {
    StatusDue,
    DataDue(u16),
}

// What an answer says: STATUS, or so many words of data.
#[derive(Clone, Copy)]
pub enum Told {
    Status(u16),
    Data(u16),
}

// A frame's words at the front of a buffer that has room for them.
// Stays: a loop, and no `copy_from_slice`, which the archive for C would take from a C library (`memmove`); include/icelichen_frames.h says that it calls nothing.
fn fill(start: u16, word: u16, words: &[u16], buffer: &mut [u16])
    requires { length words.now + beside ≤ length buffer.old }
    ensures { buffer.new ≡ over (checked start (word ∷ words.now)) buffer.old }
{
    buffer[0] = word;
    let mut crc = crc16::crc_word(start, word);
    for i in 0..words.len() {
        buffer[i + 1] = words[i];
        crc = crc16::crc_word(crc, words[i]);
    }
    buffer[words.len() + 1] = crc;
}

// The frame of an order with these data words, into a lent buffer, and how many words it is. `start` is the CRC's (`command::crc_start`). 4,096 words
// are more than any other order takes.
pub fn write(
    layout: Layout,
    start: u16,
    order: Order,
    words: &[u16],
    buffer: &mut [u16],
) -> Result<u16, WriteError>
    ensures { out result buffer.new ≡ written_of layout start order words.now buffer.old }
{
    let count = words.len();
    if 4096 < count {
        return Err(WriteError::OutsideLimits);
    }
    let word = rows::head(layout, order, count as u16).ok_or(WriteError::OutsideLimits)?;
    if buffer.len() < count + 2 {
        return Err(WriteError::BufferShort);
    }
    fill(start, word, words, buffer);
    Ok(count as u16 + 2)
}

// So many words and then their CRC.
fn is_answer(start: u16, count: u16, answer: &[u16]) -> bool
    ensures { result ≡ is_answer start count answer.now }
{
    let n = count as usize;
    answer.len() == n + 1 && answer[n] == crc16::crc_from(start, &answer[..n])
}

// What the words say that came back for an order, whose frame's CRC began at `start`; nothing is refusal 20. The data stay where they are: the first so
// many words.
pub fn read_answer(start: u16, order: Order, answer: &[u16]) -> Option<Told>
    ensures { result ≡ told_of start order answer.now }
{
    match rows::due(order) {
        Some(Due::StatusDue) if is_answer(start, 1, answer) => Some(Told::Status(answer[0])),
        Some(Due::DataDue(count)) if is_answer(start, count, answer) => Some(Told::Data(count)),
        _ => None,
    }
}

// 02's number of a refusal, 0 for a frame.
// Stays: (a) a number with 0 for none, as 02, C and docs/NUMBERS.md have it; `Frames.written_refusal` holds it.
pub fn written_refusal(written: Result<u16, WriteError>) -> u16
    ensures { result ≡ written_refusal written }
{
    match written {
        Ok(_) => 0,
        Err(WriteError::OutsideLimits) => 20,
        Err(WriteError::BufferShort) => 21,
    }
}

// 02's number of a refusal, 0 for an answer.
// Stays: (a) likewise; `Answers.answer_refusal` holds it.
pub fn answer_refusal(told: Option<Told>) -> u16
    ensures { result ≡ answer_refusal told }
{
    match told {
        Some(_) => 0,
        None => 20,
    }
}
