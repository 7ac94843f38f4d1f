// The parts of a record by the cells that hold them.
ghost use Rattle.std.specs.Prelude.{◌≡◌};
ghost use Rattle.cells.specs.Cells.{flags_of, control_of, place_of, sender_of, reader_of, clock_of, phase_at, held_of, frame_of};

use parts::Parts;
use registers::{Control, Flags, Regs};
use state::{Clock, Frame, Phase, Place, Reader, Sender};

fn flags(n0: u64, n1: u64) -> Flags
    ensures { result ≡ flags_of n0 n1 }
{
    let state = parts::fourth(n0);
    let host = parts::first(n1);
    let stores = parts::second(n1);
    Flags {
        otp: registers::bit(state, 1),
        por: registers::bit(state, 2),
        srst: registers::bit(state, 3),
        reg_write: registers::bit(state, 4),
        spi_crc: registers::bit(host, 0),
        spi_cs: registers::bit(host, 1),
        queue_ovf: registers::bit(host, 2),
        check_bit: registers::bit(host, 3),
        line_crc: registers::bit(host, 4),
        sin: registers::bit(stores, 0),
        txffovf: registers::bit(stores, 1),
        txffuvf: registers::bit(stores, 2),
        rxffovf: registers::bit(stores, 3),
        rxffuvf: registers::bit(stores, 4),
        bad_word: parts::third(n1),
    }
}

pub fn control(n0: u64, n1: u64, n2: u64) -> Control
    ensures { result ≡ control_of n0 n1 n2 }
{
    Control {
        mode: parts::mode(parts::second(n0)),
        drdy: registers::bit(parts::fourth(n0), 0),
        flags: flags(n0, n1),
        regs: Regs {
            layout: parts::layout(parts::third(n0)),
            spictrl: parts::fourth(n1),
            ccsictrl: parts::first(n2),
            txfflvl: parts::second(n2),
            rxfflvl: parts::third(n2),
            diagmask: parts::fourth(n2),
        },
    }
}

pub fn place(n: u64, marks: u16) -> Place
    ensures { result ≡ place_of n marks }
{
    Place {
        words: parts::first(n),
        ends: parts::second(n),
        store: registers::bit(marks, 0),
        compare: registers::bit(marks, 1),
        damaged: registers::bit(marks, 2),
        sent: registers::bit(marks, 3),
        read: registers::bit(marks, 4),
        crc_sent: parts::third(n),
        crc_read: parts::fourth(n),
    }
}

pub fn sender(n4: u64, n5: u64) -> Sender
    ensures { result ≡ sender_of n4 n5 }
{
    Sender {
        piece: parts::piece(parts::second(n5), parts::third(n5)),
        gone: parts::third(n4),
        left: parts::fourth(n4),
        ends: parts::first(n5),
    }
}

pub fn reader(n5: u64, n6: u64, n7: u64) -> Reader
    ensures { result ≡ reader_of n5 n6 n7 }
{
    let marks = parts::fourth(n5);
    Reader {
        ear: parts::ear(
            parts::first(n6),
            parts::second(n6),
            parts::third(n6),
            parts::fourth(n6),
            parts::first(n7),
        ),
        belongs: registers::bit(marks, 0),
        storing: registers::bit(marks, 1),
        stored: registers::bit(marks, 2),
    }
}

pub fn clock(n5: u64, n7: u64) -> Clock
    ensures { result ≡ clock_of n5 n7 }
{
    let marks = parts::fourth(n5);
    Clock {
        reading: parts::second(n7),
        mark: parts::third(n7),
        watching: registers::bit(marks, 3),
        watch_mark: parts::fourth(n7),
        sin: registers::bit(marks, 4),
    }
}

fn phase(n8: u64, n9: u64) -> Phase
    ensures { result ≡ phase_at n8 n9 }
{
    let marks = parts::fourth(n9);
    let own = Parts {
        kind: parts::first(n8),
        a: parts::second(n8),
        b: parts::third(n8),
        c: parts::fourth(n8),
        d: 0,
        x: registers::bit(marks, 0),
        y: registers::bit(marks, 1),
    };
    let held = Parts {
        kind: parts::first(n9),
        a: parts::second(n9),
        b: parts::third(n9),
        c: 0,
        d: 0,
        x: registers::bit(marks, 2),
        y: registers::bit(marks, 3),
    };
    parts::phase(own, held)
}

fn held(n10: u64, n11: u64, n12: u64) -> [u16; 12]
    ensures { result ≡ held_of n10 n11 n12 }
{
    [
        parts::first(n10),
        parts::second(n10),
        parts::third(n10),
        parts::fourth(n10),
        parts::first(n11),
        parts::second(n11),
        parts::third(n11),
        parts::fourth(n11),
        parts::first(n12),
        parts::second(n12),
        parts::third(n12),
        parts::fourth(n12),
    ]
}

pub fn frame(n8: u64, n9: u64, n10: u64, n11: u64, n12: u64) -> Frame
    ensures { result ≡ frame_of n8 n9 n10 n11 n12 }
{
    Frame {
        phase: phase(n8, n9),
        held: held(n10, n11, n12),
        xmodem: registers::bit(parts::fourth(n9), 4),
    }
}
