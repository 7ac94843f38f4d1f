// The CCSI line (01 The line; 001 7.3.2): the pieces that a sender clocks out bit by bit, and the one reader of bits.

#![tactic(auto)]

ghost use Rattle.std.specs.Prelude.{◌≡◌};
ghost use Rattle.line.specs.Format.{piece_length, piece_bit, word_bit};
ghost use Rattle.line.specs.Reader.{run_on, next_number, at_check, in_group, in_lost, hear as hear_of};

// What a line is made of. A pause has no bits.
#[derive(Clone, Copy)]
pub enum Piece {
    Pause,
    StartBit,
    WordPiece(u16),
    EndPiece,
}

// What the reader is in: outside a command; in a group of so many bits, which is this command's word `number` (02 item 4); discarding after a
// check error. `ones` counts the 1s in a row.
#[derive(Clone, Copy)]
pub enum Ear {
    Quiet,
    Group {
        number: u16,
        value: u16,
        bits: u16,
        ones: u16,
    },
    Lost {
        ones: u16,
    },
}

// What a bit completes. `CheckError` says which word of its command went bad. `Over` is the END of a command that had a check error.
#[derive(Clone, Copy)]
pub enum Found {
    Nothing,
    Start,
    Word(u16),
    End,
    CheckError(u16),
    Over,
}

#[derive(Clone, Copy)]
pub struct Heard {
    pub ear: Ear,
    pub found: Found,
}

pub fn piece_length(piece: Piece) -> u16
    ensures { result ≡ piece_length piece }
{
    match piece {
        Piece::Pause => 0,
        Piece::StartBit => 1,
        Piece::WordPiece(_) => 17,
        Piece::EndPiece => 18,
    }
}

// Bit i of a piece, counted from 0.
pub fn piece_bit(piece: Piece, i: u16) -> bool
    ensures { result ≡ piece_bit piece i }
{
    match piece {
        Piece::Pause => true,
        Piece::StartBit => false,
        Piece::WordPiece(word) => word_bit(word, i),
        Piece::EndPiece => true,
    }
}

// A word's bits, high bit first, and then its check bit.
fn word_bit(word: u16, i: u16) -> bool
    ensures { result ≡ word_bit word i }
{
    if i < 16 {
        (word >> (15 - i)) % 2 == 1
    } else {
        word % 2 == 0
    }
}

// The 1s in a row, with this bit.
fn run_on(ones: u16, bit: bool) -> u16
    ensures { result ≡ run_on ones bit }
{
    if bit {
        ones.saturating_add(1).min(18)
    } else {
        0
    }
}

// The number of the next word: it stops where 16 bits do.
fn next_number(number: u16) -> u16
    ensures { result ≡ next_number number }
{
    number.saturating_add(1)
}

// The bit after a group's sixteen.
// Stays: what the group's four fields are for in the next bit stands in the definition of each step (`in_group`), field by field, as in `Ear::Group`.
fn at_check(number: u16, value: u16, bits: u16, ones: u16, bit: bool) -> Heard
    ensures { result ≡ at_check number value bits ones bit }
{
    let lost = Heard {
        ear: Ear::Lost { ones },
        found: Found::CheckError(number),
    };
    if 16 < bits {
        return lost;
    }
    if u16::from(bit) + value % 2 == 1 {
        return Heard {
            ear: Ear::Group {
                number: next_number(number),
                value: 0,
                bits: 0,
                ones,
            },
            found: Found::Word(value),
        };
    }
    if value == 65535 {
        return Heard {
            ear: Ear::Group {
                number,
                value,
                bits: 17,
                ones,
            },
            found: Found::Nothing,
        };
    }
    lost
}

fn in_group(number: u16, value: u16, bits: u16, ones: u16, bit: bool) -> Heard
    ensures { result ≡ in_group number value bits ones bit }
{
    if ones == 18 {
        return Heard {
            ear: Ear::Quiet,
            found: Found::End,
        };
    }
    if bits < 16 {
        return Heard {
            ear: Ear::Group {
                number,
                value: value % 32768 * 2 + u16::from(bit),
                bits: bits + 1,
                ones,
            },
            found: Found::Nothing,
        };
    }
    at_check(number, value, bits, ones, bit)
}

fn in_lost(ones: u16) -> Heard
    ensures { result ≡ in_lost ones }
{
    if ones == 18 {
        return Heard {
            ear: Ear::Quiet,
            found: Found::Over,
        };
    }
    Heard {
        ear: Ear::Lost { ones },
        found: Found::Nothing,
    }
}

// One bit of the line.
pub fn hear(ear: Ear, bit: bool) -> Heard
    ensures { result ≡ hear_of ear bit }
{
    match ear {
        Ear::Quiet => {
            if bit {
                return Heard {
                    ear: Ear::Quiet,
                    found: Found::Nothing,
                };
            }
            Heard {
                ear: Ear::Group {
                    number: 0,
                    value: 0,
                    bits: 0,
                    ones: 0,
                },
                found: Found::Start,
            }
        }
        Ear::Group {
            number,
            value,
            bits,
            ones,
        } => in_group(number, value, bits, run_on(ones, bit), bit),
        Ear::Lost { ones } => in_lost(run_on(ones, bit)),
    }
}
