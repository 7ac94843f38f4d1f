// The rows of 01's table from the host's side (01 Frames, "Layout (ours)"): their limits, command words and answers. The maker's table has the same
// rows with the fields elsewhere (001 table 7-2; 02 item 7).
ghost use Rattle.std.specs.Prelude.{◌≡◌, ◌+◌, ◌≤◌, ◌<◌, true};
ghost use Rattle.frames.specs.Answers.{answer_of, due_of};
ghost use Rattle.command.specs.Layout.{registers_end};
ghost use Rattle.frames.specs.Orders.{number_of, spans as spans_of, fields_within, words_within, within, ends_bits, span_bits, fixed_bits, low_bits, head_of, order_of};

use crate::{Due, Order};
use layout::Layout;

// The command's number.
fn number(order: Order) -> u16
    ensures value { result ≡ number_of order }
    ensures upper_bound { result ≤ 14 }
{
    match order {
        Order::FwdWrCrc => 2,
        Order::FwdWr => 3,
        Order::FwdWrEndCrc { .. } => 4,
        Order::FwdWrEnd { .. } => 5,
        Order::FwdRdEndCrc { .. } => 6,
        Order::FwdRdEnd { .. } => 7,
        Order::DataRdCrc { .. } => 8,
        Order::DataRd { .. } => 9,
        Order::RegWrCrc { .. } => 10,
        Order::RegWr { .. } => 11,
        Order::RegRdCrc { .. } => 12,
        Order::RegRd { .. } => 13,
        Order::SoftResetCrc => 14,
    }
}

// A span of registers that exist.
fn spans(address: u16, count: u16) -> bool
    ensures { result ≡ spans_of address count }
{
    address < 12 && 1 <= count && count <= 12 - address
}

// Whether the row's own fields are within their limits.
fn fields_within(order: Order) -> bool
    ensures { result ≡ fields_within order }
{
    match order {
        Order::FwdWrEndCrc { ends }
        | Order::FwdWrEnd { ends }
        | Order::FwdRdEndCrc { ends }
        | Order::FwdRdEnd { ends } => ends <= 127,
        Order::DataRdCrc { count } | Order::DataRd { count } => 1 <= count && count <= 256,
        Order::RegWrCrc { address } | Order::RegWr { address } => address < 12,
        Order::RegRdCrc { address, count } | Order::RegRd { address, count } => {
            spans(address, count)
        }
        Order::FwdWrCrc | Order::FwdWr | Order::SoftResetCrc => true,
    }
}

// Whether the row takes so many data words.
fn words_within(order: Order, words: u16) -> bool
    ensures { result ≡ words_within order words }
{
    match order {
        Order::FwdWrCrc => 1 <= words && words <= 512,
        Order::FwdWr => 1 <= words && words <= 4096,
        Order::FwdWrEndCrc { .. } | Order::FwdWrEnd { .. } => words <= 31,
        Order::FwdRdEndCrc { .. } | Order::FwdRdEnd { .. } => 1 <= words && words <= 32,
        Order::RegWrCrc { address } | Order::RegWr { address } => spans(address, words),
        Order::DataRdCrc { .. }
        | Order::DataRd { .. }
        | Order::RegRdCrc { .. }
        | Order::RegRd { .. }
        | Order::SoftResetCrc => words == 0,
    }
}

// The low bits of numbers 4 to 7.
fn ends_bits(layout: Layout, ends: u16, words: u16) -> u16
    requires ends_bound { ends ≤ 127 }
    requires words_bound { words ≤ 31 }
    ensures value { result ≡ ends_bits layout ends words }
    ensures upper_bound { result < 4096 }
{
    match layout {
        Layout::Ours => ends * 32 + words,
        Layout::Makers => words * 128 + ends,
    }
}

// The low bits of numbers 10 to 13.
fn span_bits(layout: Layout, address: u16, count: u16) -> u16
    requires le_count { 1 ≤ count }
    requires count_bound { address + count ≤ registers_end }
    ensures value { result ≡ span_bits layout address count }
    ensures upper_bound { result < 4096 }
{
    match layout {
        Layout::Ours => (count - 1) * 256 + address,
        Layout::Makers => address * 64 + (count - 1),
    }
}

// The low bits of number 14.
fn fixed_bits(layout: Layout) -> u16
    ensures value { result ≡ fixed_bits layout }
    ensures upper_bound { result < 4096 }
{
    match layout {
        Layout::Ours => 0,
        Layout::Makers => 0x1E1,
    }
}

fn low_bits(layout: Layout, order: Order, words: u16) -> u16
    requires { within order words ≡ true }
    ensures value { result ≡ low_bits layout order words }
    ensures upper_bound { result < 4096 }
{
    match order {
        Order::FwdWrCrc | Order::FwdWr => words - 1,
        Order::FwdWrEndCrc { ends } | Order::FwdWrEnd { ends } => ends_bits(layout, ends, words),
        Order::FwdRdEndCrc { ends } | Order::FwdRdEnd { ends } => ends_bits(
            layout,
            ends,
            words - 1,
        ),
        Order::DataRdCrc { count } | Order::DataRd { count } => count - 1,
        Order::RegWrCrc { address } | Order::RegWr { address } => span_bits(layout, address, words),
        Order::RegRdCrc { address, count } | Order::RegRd { address, count } => {
            span_bits(layout, address, count)
        }
        Order::SoftResetCrc => fixed_bits(layout),
    }
}

// The command word of an order with so many data words, where it is within its limits.
pub fn head(layout: Layout, order: Order, words: u16) -> Option<u16>
    ensures { result ≡ head_of layout order words }
{
    if fields_within(order) && words_within(order, words) {
        return Some(number(order) * 4096 + low_bits(layout, order, words));
    }
    None
}

fn answer_of(order: Order) -> Due
    ensures { result ≡ answer_of order }
{
    match order {
        Order::DataRdCrc { count }
        | Order::DataRd { count }
        | Order::RegRdCrc { count, .. }
        | Order::RegRd { count, .. } => Due::DataDue(count),
        _ => Due::StatusDue,
    }
}

// What an order is answered with, where its fields are within their limits.
pub fn due(order: Order) -> Option<Due>
    ensures { result ≡ due_of order }
{
    fields_within(order).then_some(answer_of(order))
}

// The order of a command's number and the fields of its row; a field that the row does not have is 0. Inlined: who calls it does nothing else.
#[inline(always)]
pub fn order_of(number: u16, ends: u16, address: u16, count: u16) -> Option<Order>
    ensures { result ≡ order_of number ends address count }
{
    match (number, ends, address, count) {
        (2, 0, 0, 0) => Some(Order::FwdWrCrc),
        (3, 0, 0, 0) => Some(Order::FwdWr),
        (4, ends, 0, 0) => Some(Order::FwdWrEndCrc { ends }),
        (5, ends, 0, 0) => Some(Order::FwdWrEnd { ends }),
        (6, ends, 0, 0) => Some(Order::FwdRdEndCrc { ends }),
        (7, ends, 0, 0) => Some(Order::FwdRdEnd { ends }),
        (8, 0, 0, count) => Some(Order::DataRdCrc { count }),
        (9, 0, 0, count) => Some(Order::DataRd { count }),
        (10, 0, address, 0) => Some(Order::RegWrCrc { address }),
        (11, 0, address, 0) => Some(Order::RegWr { address }),
        (12, 0, address, count) => Some(Order::RegRdCrc { address, count }),
        (13, 0, address, count) => Some(Order::RegRd { address, count }),
        (14, 0, 0, 0) => Some(Order::SoftResetCrc),
        _ => None,
    }
}
