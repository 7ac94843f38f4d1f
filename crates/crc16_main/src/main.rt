// Prints CRCs for comparison with another implementation: tests/crc16.py recomputes each line. Each line has the same twice, by the table of sixteen
// entries (`crc16`, what a controller links) and by the table of 256 (`crc16_wide`).

#![tactic(auto)]

ghost use Rattle.std.specs.Prelude.{◌<◌};

use std::io;

// Both bytes of a CRC, the high byte first, into a 32-bit FNV-1a digest.
fn fed(digest: u32, crc: u16) -> u32 {
    let feed = |digest: u32, byte: u8| (digest ^ u32::from(byte)).wrapping_mul(16777619);
    let [high, low] = crc.to_be_bytes();
    feed(feed(digest, high), low)
}

// The digest over the CRCs of the one-word lists whose word has this high byte.
fn block<F: Fn(&[u16]) -> u16>(high: u8, crc_list: F) -> u32
    requires { F.IsAlwaysCallable crc_list }
{
    let mut digest = 2166136261;
    for low in 0..=255 {
        let word = u16::from_be_bytes([high, low]);
        digest = fed(digest, crc_list(&[word]));
    }
    digest
}

// A linear congruential generator, from this seed; the high half of its state is the word.
fn fill(words: &mut [u16], seed: u32) {
    let mut state = seed;
    for word in words.iter_mut() {
        state = state.wrapping_mul(1664525).wrapping_add(1013904223);
        *word = (state >> 16) as u16;
    }
}

// The CRC of the first 8 * n words that the generator gives from the seed n.
fn list<F: Fn(&[u16]) -> u16>(n: u16, crc_list: F) -> u16
    requires bound { n < 512 }
    requires callable { F.IsAlwaysCallable crc_list }
{
    let mut words = [0; 4088];
    fill(&mut words, u32::from(n));
    crc_list(&words[..usize::from(n) * 8])
}

fn main(rt: HostRuntime) -> io::Result<()> {
    for high in 0..=255 {
        let narrow = block(high, crc16::crc_list);
        let wide = block(high, crc16_wide::crc_list);
        println!(rt; "{narrow:08x} {wide:08x}")?;
    }
    for n in 0..512 {
        let narrow = list(n, crc16::crc_list);
        let wide = list(n, crc16_wide::crc_list);
        println!(rt; "{narrow:04x} {wide:04x}")?;
    }
    Ok(())
}
