// Each cell of a record, by what it holds. Cells of four plain numbers are made where they stand.
ghost use Rattle.parts.specs.Numbers.{Four};
ghost use Rattle.parts.specs.Variants.{mode_number, layout_number, piece_parts, ear_parts, phase_parts, open_parts};
ghost use Rattle.cells.specs.Cells.{mark, state_marks, host_marks, store_marks, line_marks, frame_marks, place_marks};
ghost use Rattle.std.specs.Prelude.{◌≡◌};

use registers::{Control, Flags, Regs};
use state::{Clock, Frame, Place, Reader, Sender};

const MARK: u16 = 0x1CE1;

pub fn state(c: Control) -> u64
    ensures { Four result mark (mode_number c.mode) (layout_number c.regs.layout) (state_marks c) }
{
    let f = c.flags;
    let marks = parts::five(c.drdy, f.otp, f.por, f.srst, f.reg_write);
    parts::four(
        MARK,
        parts::of_mode(c.mode),
        parts::of_layout(c.regs.layout),
        marks,
    )
}

pub fn flags(f: Flags, regs: Regs) -> u64
    ensures { Four result (host_marks f) (store_marks f) f.bad_word regs.spictrl }
{
    let host = parts::five(f.spi_crc, f.spi_cs, f.queue_ovf, f.check_bit, f.line_crc);
    let stores = parts::five(f.sin, f.txffovf, f.txffuvf, f.rxffovf, f.rxffuvf);
    parts::four(host, stores, f.bad_word, regs.spictrl)
}

pub fn piece(s: Sender, g: Reader, k: Clock) -> u64
    ensures { Four result s.ends (piece_parts s.piece).kind (piece_parts s.piece).a (line_marks g k) }
{
    let p = parts::of_piece(s.piece);
    let marks = parts::five(g.belongs, g.storing, g.stored, k.watching, k.sin);
    parts::four(s.ends, p.kind, p.a, marks)
}

pub fn ear(g: Reader) -> u64
    ensures { Four result (ear_parts g.ear).kind (ear_parts g.ear).a (ear_parts g.ear).b (ear_parts g.ear).c }
{
    let p = parts::of_ear(g.ear);
    parts::four(p.kind, p.a, p.b, p.c)
}

pub fn clock(g: Reader, k: Clock) -> u64
    ensures { Four result (ear_parts g.ear).d k.reading k.mark k.watch_mark }
{
    let p = parts::of_ear(g.ear);
    parts::four(p.d, k.reading, k.mark, k.watch_mark)
}

pub fn phase(f: Frame) -> u64
    ensures { Four result (phase_parts f.phase).kind (phase_parts f.phase).a (phase_parts f.phase).b (phase_parts f.phase).c }
{
    let p = parts::of_phase(f.phase);
    parts::four(p.kind, p.a, p.b, p.c)
}

pub fn open(f: Frame) -> u64
    ensures { Four result (open_parts f.phase).kind (open_parts f.phase).a (open_parts f.phase).b (frame_marks f) }
{
    let p = parts::of_phase(f.phase);
    let h = parts::of_open(f.phase);
    let marks = parts::five(p.x, p.y, h.x, h.y, f.xmodem);
    parts::four(h.kind, h.a, h.b, marks)
}

pub fn place(p: Place) -> u64
    ensures { Four result p.words p.ends p.crc_sent p.crc_read }
{
    parts::four(p.words, p.ends, p.crc_sent, p.crc_read)
}

fn marks_of(p: Place) -> u16
    ensures { result ≡ place_marks p }
{
    parts::five(p.store, p.compare, p.damaged, p.sent, p.read)
}

pub fn marks(p: Place, q: Place, r: Place, s: Place) -> u64
    ensures { Four result (place_marks p) (place_marks q) (place_marks r) (place_marks s) }
{
    parts::four(marks_of(p), marks_of(q), marks_of(r), marks_of(s))
}
