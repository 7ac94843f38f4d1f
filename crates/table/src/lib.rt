// The text of the table that `refusals` walks. A place in it is that of the mark before what stands there: any byte that no name has.

#![tactic(auto)]

ghost use Rattle.std.specs.Prelude.{◌+◌, ◌-◌, ◌/◌, ◌≤◌};

use records::Fields;

// Longer than the table, and zeros behind it.
// Stays: places in one text, and no slices of its lines, since a word that has no mark before its line's end goes on behind it, and behind the last byte with the first.
#[derive(Clone, Copy)]
pub struct Text {
    pub bytes: [u8; 65536],
}

fn is_mark(byte: u8) -> bool {
    !matches!(byte, b'*'..=b'9' | b'A'..=b'z')
}

impl Text {
    pub fn byte(&self, at: usize) -> u8 {
        self.bytes[at % 65536]
    }

    // The byte that stands so far behind a mark.
    fn behind(&self, at: usize, far: usize) -> u8 {
        self.byte(at.wrapping_add(far))
    }

    pub fn find(&self, from: usize, to: usize, mark: u8) -> usize
        ensures lower_bound { from ≤ result }
        ensures upper_bound { result ≤ from + (to - from) }
    {
        for i in from..to {
            if self.byte(i) == mark {
                return i;
            }
        }
        from.max(to)
    }

    // The last byte counts as one.
    pub fn mark_after(&self, at: usize) -> usize
        requires { at ≤ 65535 }
        ensures at_bound { at + 1 ≤ result + at / 65535 }
        ensures upper_bound { result ≤ 65535 }
    {
        for i in at + 1..65536 {
            if is_mark(self.byte(i)) {
                return i;
            }
        }
        65535
    }

    // A star stands for any byte: `place*.words` names a column of each place. No name has more than 62 bytes.
    fn is_named(&self, name: usize, pattern: usize) -> bool {
        for k in 1..64 {
            let a = self.behind(name, k);
            let b = self.behind(pattern, k);
            if is_mark(a) || is_mark(b) {
                return is_mark(a) && is_mark(b);
            }
            if a != b && b != b'*' {
                return false;
            }
        }
        false
    }

    // A number of no more than 62 digits, none of them behind the first that takes it past sixteen bits.
    fn digits(&self, at: usize) -> Option<u32> {
        let mut value = 0;
        for k in 1..64 {
            let byte = self.behind(at, k);
            if is_mark(byte) || 65535 < value {
                return Some(value);
            }
            if !byte.is_ascii_digit() {
                return None;
            }
            value = value * 10 + u32::from(byte - b'0');
        }
        None
    }

    fn named(&self, name: usize) -> Option<u32> {
        let mut at = self.find(0, 65535, b'(');
        let stop = self.find(at, 65535, b')');
        while at < stop {
            let equals = self.mark_after(at);
            if self.is_named(at, name) {
                return self.digits(equals);
            }
            at = self.mark_after(equals);
        }
        None
    }

    fn value(&self, at: usize) -> Option<u32> {
        if is_mark(self.behind(at, 1)) {
            return None;
        }
        match self.digits(at) {
            Some(number) if number < 65536 => Some(number),
            _ => self.named(at),
        }
    }

    // Each column of this name, and whether there is one.
    fn put_named(&self, fields: &mut Fields, name: usize, value: u16) -> bool {
        let mut found = false;
        let mut at = self.find(0, 65535, b'{');
        let stop = self.find(at, 65535, b'}');
        for field in fields.iter_mut() {
            if stop <= at {
                break;
            }
            if self.is_named(at, name) {
                *field = value;
                found = true;
            }
            at = self.mark_after(at);
        }
        found
    }

    // Whether each could be read.
    pub fn change(&self, fields: &mut Fields, from: usize, to: usize) -> bool
        requires { to ≤ 65535 }
    {
        let mut read = true;
        let mut at = from;
        while at < to {
            let equals = self.mark_after(at);
            let number = self.value(equals);
            let found = self.put_named(fields, at, (number.unwrap_or(0) % 65536) as u16);
            read = read && found && number.is_some_and(|n| n < 65536);
            at = self.mark_after(equals);
        }
        read
    }
}
