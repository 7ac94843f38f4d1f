// The text of the orders, by places in it: words, names and numbers.
ghost use Rattle.std.specs.Prelude.{◌+◌, ◌-◌, ◌≤◌, length};

// 1 MiB, and a byte more by which a longer text is known.
pub type Text = [u8; 1048577];

// No number of sixteen bits.
pub const NONE: u32 = 65536;

pub fn byte(text: &Text, at: usize) -> u8 {
    text[at % 1048577]
}

// For `find`: a space stands for a tab too, and this for any byte but those.
pub const OTHER: u8 = 0;

fn is(byte: u8, mark: u8) -> bool {
    let blank = (byte == b' ') | (byte == b'\t');
    match mark {
        b' ' => blank,
        OTHER => !blank,
        _ => byte == mark,
    }
}

// The first place of a mark, or `to`.
pub fn find(text: &Text, from: usize, to: usize, mark: u8) -> usize
    ensures lower_bound { from ≤ result }
    ensures upper_bound { result ≤ from + (to - from) }
{
    let mut i = from;
    while i < to {
        if is(byte(text, i), mark) {
            return i;
        }
        i = i + 1;
    }
    i
}

// Where the words of a line end: before its comment, or before the \r of its end.
pub fn words_end(text: &Text, from: usize, to: usize) -> usize
    requires { from ≤ to }
    ensures lower_bound { from ≤ result }
    ensures upper_bound { result ≤ to }
{
    let comment = find(text, from, to, b'#');
    if comment < to {
        return comment;
    }
    if from < to {
        if byte(text, to - 1) == b'\r' {
            return to - 1;
        }
    }
    to
}

// Which word of a list it is, from 0 on, or how many the list has. A space stands behind each word of a list.
pub fn which(list: &[u8], text: &Text, from: usize, to: usize) -> usize {
    let mut count: usize = 0;
    let mut same = true;
    let mut i = from;
    let mut k: usize = 0;
    while k < list.len() {
        let letter = list[k];
        k = k + 1;
        if letter == b' ' {
            if same & (i == to) {
                return count;
            }
            count = std::num::wrapping_add_usize(count, 1);
            same = true;
            i = from;
        } else {
            same = same & (byte(text, i) == letter);
            i = std::num::wrapping_add_usize(i, 1);
        }
    }
    count
}

fn digit(byte: u8) -> u32
    ensures { result ≤ 65536 }
{
    match byte {
        b'0'..=b'9' => (byte - b'0') as u32,
        b'A'..=b'F' => (byte - b'A') as u32 + 10,
        b'a'..=b'f' => (byte - b'a') as u32 + 10,
        _ => NONE,
    }
}

fn extended(value: u32, byte: u8, base: u32) -> u32
    requires value_bound { value ≤ 65536 }
    requires base_bound { base ≤ 16 }
    ensures { result ≤ 65536 }
{
    let d = digit(byte);
    if base <= d {
        return NONE;
    }
    let mut more = value * 10 + d;
    if base == 16 {
        more = value * 16 + d;
    }
    if NONE <= more {
        return NONE;
    }
    more
}

// The number that stands there, in base 10 or 16, or NONE where there is none or it has more than sixteen bits.
pub fn number(text: &Text, from: usize, to: usize, base: u32) -> u32
    requires { base ≤ 16 }
{
    if to <= from {
        return NONE;
    }
    let mut value: u32 = 0;
    let mut i = from;
    while i < to {
        value = extended(value, byte(text, i), base);
        i = i + 1;
    }
    value
}
