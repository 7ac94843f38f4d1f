// Host frames for programs in C (02, items 1 and 7): the functions of include/icelichen_frames.h. They ask nothing of their caller but pointers that
// are good for their lengths.

#![tactic(auto)]

ghost use Rattle.std.specs.Prelude.{◌≡◌, Some, None};
ghost use Rattle.base.specs.Pick.{pick};
ghost use Rattle.crc16.specs.Crc.{start};
ghost use Rattle.icelichen_frames.specs.Codes.{written_code, status_code, data_code, sixteen, coded, order_by, frame_for, told_for, spoken_of, frame_in, told_in};

use frames::{Order, Told, WriteError};
use layout::Layout;

// The words that a host speaks: their layout, and where the CRC starts.
#[derive(Clone, Copy)]
struct Spoken {
    layout: Layout,
    start: u16,
}

fn spoken_by(number: u32) -> Option<Spoken>
    ensures { result ≡ spoken_of number }
{
    match number {
        0 => Some(Spoken {
            layout: Layout::Ours,
            start: crc16::START,
        }),
        1 => Some(Spoken {
            layout: Layout::Makers,
            start: crc16::START,
        }),
        2 => Some(Spoken {
            layout: Layout::Makers,
            start: 0,
        }),
        _ => None,
    }
}

// A number as a field has it; a wider one, which C would cut, is none.
fn field(number: u32) -> Option<u16>
    ensures { result ≡ pick (sixteen number) (Some number) None }
{
    u16::try_from(number).ok()
}

// The order of these numbers. All six functions call it: inlined, it stands in the archive six times.
#[inline(never)]
fn order_by(command: u32, ends: u32, address: u32, count: u32) -> Option<Order>
    ensures { result ≡ order_by command ends address count }
{
    frames::order_of(
        field(command)?,
        field(ends)?,
        field(address)?,
        field(count)?,
    )
}

// Stays: (a) numbers of refusals: the functions of include/icelichen_frames.h return an `int32_t`.
fn written_code(written: Result<u16, WriteError>) -> i32
    ensures { result ≡ written_code written }
{
    match written {
        Ok(words) => i32::from(words),
        Err(WriteError::OutsideLimits) => -20,
        Err(WriteError::BufferShort) => -21,
    }
}

fn status_code(told: Option<Told>) -> i32
    ensures { result ≡ status_code told }
{
    match told {
        Some(Told::Status(value)) => i32::from(value),
        Some(Told::Data(_)) | None => -20,
    }
}

fn data_code(told: Option<Told>) -> i32
    ensures { result ≡ data_code told }
{
    match told {
        Some(Told::Data(count)) => i32::from(count),
        Some(Told::Status(_)) | None => -20,
    }
}

// The frame of these numbers' order; of no order, none.
fn written(
    layout: Layout,
    start: u16,
    named: Option<Order>,
    words: &[u16],
    buffer: &mut [u16],
) -> i32
    ensures { coded result buffer.new ≡ frame_for layout start named words.now buffer.old }
{
    match named {
        Some(order) => written_code(frames::write(layout, start, order, words, buffer)),
        None => -20,
    }
}

// What an answer says; of no order, nothing.
fn told(start: u16, named: Option<Order>, answer: &[u16]) -> Option<Told>
    ensures { result ≡ told_for start named answer.now }
{
    frames::read_answer(start, named?, answer)
}

// The same, for whatever words the number says.
fn told_in(layout: u32, named: Option<Order>, answer: &[u16]) -> Option<Told>
    ensures { result ≡ told_in (spoken_of layout) named answer.now }
{
    let spoken = spoken_by(layout)?;
    told(spoken.start, named, answer)
}

#[unsafe(no_mangle)]
pub extern "C" fn icelichen_frame(
    command: u32,
    ends: u32,
    address: u32,
    count: u32,
    words: &[u16],
    buffer: &mut [u16],
) -> i32
    ensures { coded result buffer.new ≡ frame_for Layout.Ours start (order_by command ends address count) words.now buffer.old }
{
    written(
        Layout::Ours,
        crc16::START,
        order_by(command, ends, address, count),
        words,
        buffer,
    )
}

#[unsafe(no_mangle)]
pub extern "C" fn icelichen_status(
    command: u32,
    ends: u32,
    address: u32,
    count: u32,
    answer: &[u16],
) -> i32
    ensures { result ≡ status_code (told_for start (order_by command ends address count) answer.now) }
{
    let named = order_by(command, ends, address, count);
    status_code(told(crc16::START, named, answer))
}

#[unsafe(no_mangle)]
pub extern "C" fn icelichen_data(
    command: u32,
    ends: u32,
    address: u32,
    count: u32,
    answer: &[u16],
) -> i32
    ensures { result ≡ data_code (told_for start (order_by command ends address count) answer.now) }
{
    let named = order_by(command, ends, address, count);
    data_code(told(crc16::START, named, answer))
}

#[unsafe(no_mangle)]
pub extern "C" fn icelichen_frame_in(
    layout: u32,
    command: u32,
    ends: u32,
    address: u32,
    count: u32,
    words: &[u16],
    buffer: &mut [u16],
) -> i32
    ensures { coded result buffer.new ≡ frame_in (spoken_of layout) (order_by command ends address count) words.now buffer.old }
{
    let named = order_by(command, ends, address, count);
    match spoken_by(layout) {
        Some(Spoken { layout, start }) => written(layout, start, named, words, buffer),
        None => -20,
    }
}

#[unsafe(no_mangle)]
pub extern "C" fn icelichen_status_in(
    layout: u32,
    command: u32,
    ends: u32,
    address: u32,
    count: u32,
    answer: &[u16],
) -> i32
    ensures { result ≡ status_code (told_in (spoken_of layout) (order_by command ends address count) answer.now) }
{
    status_code(told_in(layout, order_by(command, ends, address, count), answer))
}

#[unsafe(no_mangle)]
pub extern "C" fn icelichen_data_in(
    layout: u32,
    command: u32,
    ends: u32,
    address: u32,
    count: u32,
    answer: &[u16],
) -> i32
    ensures { result ≡ data_code (told_in (spoken_of layout) (order_by command ends address count) answer.now) }
{
    data_code(told_in(layout, order_by(command, ends, address, count), answer))
}
