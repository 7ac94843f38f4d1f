// Tries notes 1 and 2 (01 Notes) as a caller, by the cases of a table: stores of wrong lengths, and each rule of docs/RECORD-RULES.md broken
// alone, just past its limit, beside the same record at the limit. A refusal has to leave the record and both stores as lent. Where a broken
// record is one that a step would mend, or answer otherwise than 01 says, the good one's word is tried beside it (notes 4 and 5). A list of events that
// is wrong in itself is refused so (22 and 23 of 02, item 6) in every case. The table is standard input; its head says how it is written. A line that
// cannot be read is a case that went wrong.

#![tactic(auto)]

ghost use Rattle.std.specs.Prelude.{◌≤◌};

use calls::Want;
use records::{COLUMNS, Fields};
use std::io;
use table::Text;

// The cases so far: refused with note 1, with note 2, taken, and those that went wrong.
#[derive(Clone, Copy, Default)]
struct Tally {
    stores: u64,
    broken: u64,
    taken: u64,
    wrong: u64,
}

impl Tally {
    // A case that went as wanted, or one that did not.
    fn count(&mut self, went: Option<Want>) {
        let count = match went {
            Some(Want::Stores) => &mut self.stores,
            Some(Want::Broken) => &mut self.broken,
            Some(Want::Taken) => &mut self.taken,
            None => &mut self.wrong,
        };
        *count = count.wrapping_add(1);
    }
}

// By two bytes of the text that is printed: `taken`, `note 1, as lent`, `word note 5, taken`. The calls, and the word's note where there is one.
fn wanted(seventh: u8, twelfth: u8) -> (Want, Option<u16>) {
    match seventh {
        b'1' => (Want::Stores, None),
        b'2' => (Want::Broken, None),
        b'n' if twelfth % 16 != 0 => (Want::Taken, Some(u16::from(twelfth % 16))),
        _ => (Want::Taken, None),
    }
}

// The start record, and what the cases of a group have in common.
fn change_common(fields: &mut Fields, text: &Text, group: usize) -> bool
    requires { group ≤ 65535 }
{
    let start = text.find(0, 65535, b'<');
    let idle = text.change(fields, start, text.find(start, 65535, b'>'));
    let from = text.mark_after(group);
    idle & text.change(fields, from, text.find(group, 65535, b'\n'))
}

// A line of the table: where it begins and ends, and where the changes stand that the cases from there on have in common.
#[derive(Drop)]
struct Line<'a> {
    text: &'a Text,
    group: usize,
    at: usize,
    end: usize,
    ghost group_bound: { group ≤ 65535 },
    ghost at_le_end: { at ≤ end },
    ghost end_bound: { end ≤ 65535 },
}

impl Line<'_> {
    // Behind a first semicolon a case's own changes, and behind a second what its word changes.
    fn is_right(
        &self,
        rt: &impl Print,
        from: usize,
        want: Want,
        word: Option<u16>,
    ) -> io::Result<bool>
        requires { from ≤ 65535 }
    {
        let text = self.text;
        let mut lent = [0; COLUMNS];
        let common = change_common(&mut lent, text, self.group);
        let own = text.change(&mut lent, from, text.find(from, self.end, b';'));
        let mut after = lent;
        let all = text.change(&mut after, from, self.end);
        let read = common && own && all;
        if !read {
            print!(rt; " cannot be read")?;
        }
        let right = calls::tried(rt, &lent, &after, want, word)?;
        Ok(read && right)
    }

    // What was wanted of a case that went so.
    fn case(&self, rt: &impl Print) -> io::Result<Option<Want>> {
        let text = self.text;
        let semicolon = text.find(self.at, self.end, b';');
        let colon = text.find(self.at, semicolon, b':');
        rt.write_all(&text.bytes[self.at..semicolon])?;
        let (want, word) = wanted(text.byte(colon + 7), text.byte(colon + 12));
        let right = self.is_right(rt, text.mark_after(semicolon), want, word)?;
        if right && colon < semicolon {
            println!(rt)?;
            return Ok(Some(want));
        }
        println!(rt; ": WRONG")?;
        Ok(None)
    }
}

fn walked(rt: &impl Print, text: &Text) -> io::Result<Tally> {
    let mut tally = Tally::default();
    let mut at = text.find(0, 65535, b'>');
    let mut group = at;
    while at < 65535 {
        let end = text.find(at, 65535, b'\n');
        match text.byte(at) {
            b'=' => group = at,
            b'#' | b'>' | b'\n' | 0 => {}
            _ => {
                let line = Line {
                    text,
                    group,
                    at,
                    end,
                };
                tally.count(line.case(rt)?);
            }
        }
        at = end + 1;
    }
    Ok(tally)
}

fn main(rt: HostRuntime) -> io::Result<()> {
    let mut text = Text { bytes: [0; 65536] };
    console::read_full(&mut rt.stdin(), &mut text.bytes)?;
    let Tally {
        stores,
        broken,
        taken,
        wrong,
    } = walked(&rt, &text)?;
    println!(rt;
        "{stores} of note 1, {broken} of note 2, {taken} taken, {wrong} wrong; eleven calls each"
    )
}
