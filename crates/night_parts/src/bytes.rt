// The bytes of record k.
ghost use Rattle.std.specs.Prelude.{◌≡◌, ◌+◌, ◌*◌, ◌≤◌, eqb, length, get_or};
ghost use Rattle.script.specs.Script.{value_of};

pub fn kind_at(records: &[u8], k: usize) -> u8
    requires { k * 3 + 3 ≤ length records.now }
    ensures { result ≡ get_or records.now (k * 3) 0 }
{
    records[k * 3]
}

pub fn value_at(records: &[u8], k: usize) -> u16
    requires { k * 3 + 3 ≤ length records.now }
    ensures { result ≡ value_of (get_or records.now (k * 3 + 1) 0) (get_or records.now (k * 3 + 2) 0) }
{
    let at = k * 3;
    script::value(records[at + 1], records[at + 2])
}

// Of a tick.
pub fn bit_at(records: &[u8], k: usize) -> bool
    requires { k * 3 + 3 ≤ length records.now }
    ensures { result ≡ eqb (get_or records.now (k * 3 + 2) 0) 1 }
{
    let at = k * 3;
    records[at + 2] == 1
}
