// Numbers side by side: four of sixteen bits in a cell, five marks in a number.
ghost use Rattle.std.specs.Prelude.{◌≡◌, ◌≤◌};
ghost use Rattle.base.specs.Bits.{val as val_of};
ghost use Rattle.parts.specs.Numbers.{Four, first as first_of, second as second_of, third as third_of, fourth as fourth_of, five as five_of};

pub fn four(a: u16, b: u16, c: u16, d: u16) -> u64
    ensures { Four result a b c d }
{
    a as u64 + b as u64 * 65536 + c as u64 * 4294967296 + d as u64 * 281474976710656
}

pub fn first(cell: u64) -> u16
    ensures { result ≡ first_of cell }
{
    (cell % 65536) as u16
}

pub fn second(cell: u64) -> u16
    ensures { result ≡ second_of cell }
{
    (cell / 65536 % 65536) as u16
}

pub fn third(cell: u64) -> u16
    ensures { result ≡ third_of cell }
{
    (cell / 4294967296 % 65536) as u16
}

pub fn fourth(cell: u64) -> u16
    ensures { result ≡ fourth_of cell }
{
    (cell / 281474976710656 % 65536) as u16
}

fn val(mark: bool) -> u16
    ensures { (result ≡ val_of mark) × (result ≤ 1) }
{
    if mark { 1 } else { 0 }
}

pub fn five(a: bool, b: bool, c: bool, d: bool, e: bool) -> u16
    ensures { result ≡ five_of a b c d e }
{
    val(a) + val(b) * 2 + val(c) * 4 + val(d) * 8 + val(e) * 16
}
