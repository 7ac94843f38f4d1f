// Words to standard output, a line.
ghost use Rattle.std.specs.Prelude.{◌≤◌, length};

use order_lines::NOT_WRITTEN;

fn hex(n: u16) -> u8 {
    let d = (n % 16) as u8;
    if d < 10 {
        return d + b'0';
    }
    d - 10 + b'A'
}

// A word is a space and four digits.
fn spelled(word: u16, place: usize) -> u8 {
    match place {
        0 => b' ',
        1 => hex(word / 4096),
        2 => hex(word / 256),
        3 => hex(word / 16),
        _ => hex(word),
    }
}

// What the line begins with, and the words, with the space before the first or without. 0, or why not. The longest frame has 4,098 words; behind
// them stands a line end.
pub fn print(rt: &impl Print, head: &[u8], words: &[u16], skipped: usize, shown: bool) -> usize
    requires { length words.now ≤ 4098 }
{
    if !shown {
        return 0;
    }
    let end = words.len() * 5;
    if end < skipped {
        return 0;
    }
    let mut out = [b'\n'; 20491];
    for i in 0..end {
        out[i] = spelled(words[i / 5], i % 5);
    }
    let next = end + 1;
    let begun = rt.write_all(head).is_ok();
    if begun & rt.write_all(&out[skipped..next]).is_ok() {
        return 0;
    }
    NOT_WRITTEN
}
