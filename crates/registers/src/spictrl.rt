// The fields of SPICTRL, where each layout has them (01 Registers; 001 7.6.2).
ghost use Rattle.std.specs.Prelude.{◌≡◌};
ghost use Rattle.registers.specs.Spictrl.{dog_code, dog_limit, is_xmodem};

use crate::Regs;
use layout::Layout;

// The maker's two bits of the watchdog (001 table 7-6).
fn dog_code(code: u16) -> u16
    ensures { result ≡ dog_code code }
{
    match code {
        0 => 40,
        1 => 20,
        2 => 10,
        _ => 0,
    }
}

// The watchdog's milliseconds, 0 off.
pub fn dog_limit(regs: Regs) -> u16
    ensures { result ≡ dog_limit regs }
{
    match regs.layout {
        Layout::Ours => regs.spictrl / 256,
        Layout::Makers => dog_code(regs.spictrl / 4096 % 4),
    }
}

// The algorithm of the frame that the next command word opens.
pub fn is_xmodem(regs: Regs) -> bool
    ensures { result ≡ is_xmodem regs }
{
    match regs.layout {
        Layout::Ours => false,
        Layout::Makers => regs.spictrl / 4 % 2 == 1,
    }
}
