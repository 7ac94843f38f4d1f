// Bits of a word, by number.
ghost use Rattle.std.specs.Prelude.{◌≡◌};
ghost use Rattle.base.specs.Bits.{bit as bit_of};

pub fn bit(word: u16, k: u16) -> bool
    ensures { result ≡ bit_of k word }
{
    k < 16 && (word >> k) % 2 == 1
}
