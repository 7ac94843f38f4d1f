// CRC-16, polynomial x^16 + x^12 + x^5 + 1, high bit first, no final change (01 Frames, "CRC (ours)"), by a table of the steps of
// four bits (02 item 5).

#![tactic(auto)]

ghost use Rattle.std.specs.Prelude.{◌≡◌, ◌/◌, ◌%◌, ◌<◌};
ghost use Rattle.crc16.specs.Crc.{crc_byte, crc_word, crc_from, crc_of};
ghost use Rattle.crc16.specs.Tables.{entry_of, fed};

// Where the CRC starts (01 Frames).
pub const START: u16 = 0xFFFF;

// The table (02 item 5): four shifts of k at the top. As a `match` the compiler sees through it (docs/SPEED.md); an array of constants it would lay
// out anew at each lookup.
fn entry(k: u8) -> u16
    requires { k < 16 }
    ensures { result ≡ entry_of 4 k }
{
    match k {
        0 => 0x0000,
        1 => 0x1021,
        2 => 0x2042,
        3 => 0x3063,
        4 => 0x4084,
        5 => 0x50A5,
        6 => 0x60C6,
        7 => 0x70E7,
        8 => 0x8108,
        9 => 0x9129,
        10 => 0xA14A,
        11 => 0xB16B,
        12 => 0xC18C,
        13 => 0xD1AD,
        14 => 0xE1CE,
        _ => 0xF1EF,
    }
}

// Four bits go to the top of the CRC and are shifted out.
fn crc_nibble(crc: u16, nibble: u8) -> u16
    requires { nibble < 16 }
    ensures { result ≡ fed 4 crc nibble }
{
    let step = entry((crc / 4096) as u8 ^ nibble);
    (crc % 4096 * 16) ^ step
}

// What a table gives: a byte by its lookups. Words and lists are by bytes, whichever table it is.
pub trait Table {
    // A byte, high bit first.
    fn byte(crc: u16, b: u8) -> u16
        ensures { result ≡ crc_byte crc b };

    // A word, high byte first.
    fn word(crc: u16, word: u16) -> u16
        ensures { result ≡ crc_word crc word }
    {
        Self::byte(Self::byte(crc, (word / 256) as u8), (word % 256) as u8)
    }

    // Words, from a CRC so far.
    fn words(start: u16, words: &[u16]) -> u16
        ensures { result ≡ crc_from start words.now }
    {
        let mut crc = start;
        for &word in words {
            crc = Self::word(crc, word);
        }
        crc
    }
}

// The table of sixteen entries (02 item 5).
struct Sixteen;

impl Table for Sixteen {
    // High nibble first: two lookups.
    fn byte(crc: u16, b: u8) -> u16 {
        crc_nibble(crc_nibble(crc, b / 16), b % 16)
    }
}

// A word, high byte first.
pub fn crc_word(crc: u16, word: u16) -> u16
    ensures { result ≡ crc_word crc word }
{
    Sixteen::word(crc, word)
}

// A list of words, from a CRC so far.
pub fn crc_from(start: u16, words: &[u16]) -> u16
    ensures { result ≡ crc_from start words.now }
{
    Sixteen::words(start, words)
}

// A list of words.
pub fn crc_list(words: &[u16]) -> u16
    ensures { result ≡ crc_of words.now }
{
    crc_from(START, words)
}
