// A host's plan and how it is carried out (01 Frames; Registers, "Transmit clear", "RX clear", "Soft reset"; The line, DRDY). A rule of frames
// answers a plan; it is carried out in one place.

#![tactic(auto)]

ghost use Rattle.std.specs.Prelude.{◌≡◌, true, false, ◌||◌, ltb, eqb};
ghost use Rattle.registers.specs.Raising.{raised_in};
ghost use Rattle.plan.specs.Plan.{plain as plain_of, with_reader, cleared_away, received as received_of, settled as settled_of, concluded as concluded_of, awaits_command, is_collecting, xmodem_after, marked as marked_of, performed as performed_of};
ghost use Rattle.base.specs.Bits.{bit};
ghost use Rattle.base.specs.Pick.{pick};
ghost use Rattle.command.specs.Layouts.{layouts};
ghost use Rattle.state.specs.Facts.{RingFit, SendFit, Doable};
ghost use Rattle.state.specs.Rings.{rx_size};
ghost use Rattle.state.specs.Sending.{stored};

use command::Command;
use line::Ear;
use registers::{Control, Flag};
use state::{Bridge, Clock, Deed, Frame, Note, Phase, Progress, Reader, Receiving, Reply, Ring};

// What a plan does to the receiving side: nothing; the oldest word read; the storing of the present command ended (a read of empty RX); RX
// clear; soft reset.
#[derive(Clone, Copy)]
pub enum Receive {
    LeaveRx,
    PopRx,
    StopRx,
    EmptyRx,
    ResetRx,
}

// What a word or a release of chip select does. `status`: STATUS is answered, taken after all effects.
#[derive(Clone, Copy)]
pub struct Plan {
    pub phase: Phase,
    pub held: [u16; 12],
    pub control: Control,
    pub store: Option<u16>,
    pub deed: Deed,
    pub receive: Receive,
    pub note: Note,
    pub sdo: u16,
    pub status: bool,
}

// The SDO word where nothing is answered (01 What the bridge is).
pub const NO_ANSWER: u16 = 0xFFFF;

pub fn raised_in(control: Control, flag: Flag) -> Control
    ensures { result ≡ raised_in control flag }
{
    let flags = registers::raise(control.flags, flag);
    Control { flags, ..control }
}

// A frame of `command` that has come as far as `at`.
pub fn collecting(command: Command, at: Progress) -> Phase
    ensures { result ≡ Phase.Collecting command at.got at.crc at.mine at.released at.blocked }
{
    Phase::Collecting {
        command,
        got: at.got,
        crc: at.crc,
        mine: at.mine,
        released: at.released,
        blocked: at.blocked,
    }
}

// A plan that only moves the phase and gives a note.
pub fn plain(bridge: Bridge, phase: Phase, note: Note) -> Plan
    ensures { result ≡ plain_of bridge phase note }
{
    let held = bridge.frame.held;
    Plan {
        phase,
        held,
        control: bridge.control,
        store: None,
        deed: Deed::Leave,
        receive: Receive::LeaveRx,
        note,
        sdo: NO_ANSWER,
        status: false,
    }
}

fn with_reader(receiving: Receiving, belongs: bool, storing: bool) -> Receiving
    ensures { result ≡ with_reader receiving belongs storing }
{
    let reader = Reader {
        belongs,
        storing,
        ..receiving.reader
    };
    Receiving {
        reader,
        ..receiving
    }
}

// A command whose place is cleared away is neither stored nor compared.
fn cleared_away(receiving: Receiving, deed: Deed) -> Receiving
    ensures { result ≡ cleared_away receiving deed }
{
    match deed {
        Deed::ClearAll => with_reader(receiving, false, false),
        Deed::Leave | Deed::Enqueue(_) | Deed::TakeBack(_) | Deed::ResetAll => receiving,
    }
}

pub fn received(receiving: Receiving, receive: Receive) -> Receiving
    requires { RingFit rx_size receiving.rx }
    ensures { result ≡ received_of receiving receive }
{
    match receive {
        Receive::LeaveRx => receiving,
        Receive::PopRx => Receiving {
            rx: state::popped(receiving.rx, 256),
            ..receiving
        },
        Receive::StopRx => with_reader(receiving, receiving.reader.belongs, false),
        Receive::EmptyRx => Receiving {
            rx: Ring {
                count: 0,
                ..receiving.rx
            },
            reader: Reader {
                storing: false,
                ..receiving.reader
            },
        },
        Receive::ResetRx => Receiving {
            rx: Ring {
                count: 0,
                ..receiving.rx
            },
            reader: Reader {
                ear: Ear::Quiet,
                belongs: false,
                storing: false,
                stored: false,
            },
        },
    }
}

fn drdy_after(control: Control, count: u16, ended: bool) -> bool
    ensures { result ≡ pick (eqb count 0) true (pick (ltb control.regs.rxfflvl count || ended) false control.drdy) }
{
    let exceeded = control.regs.rxfflvl < count;
    (count == 0) | control.drdy & !exceeded & !ended
}

// DRDY after an event that leaves `count` words in RX; `ended`: an END came of a command that stored a word.
pub fn settled(control: Control, count: u16, ended: bool) -> Control
    ensures { result ≡ settled_of control count ended }
{
    Control {
        drdy: drdy_after(control, count, ended),
        ..control
    }
}

// SPICTRL bit 0.
fn is_silent(control: Control) -> bool
    ensures { result ≡ bit 0 control.regs.spictrl }
{
    control.regs.spictrl % 2 == 1
}

// STATUS is answered, taken after all effects, with its CRC by the frame's algorithm.
pub fn concluded(xmodem: bool, status: bool, control: Control, phase: Phase) -> Phase
    ensures { result ≡ concluded_of layouts xmodem status control phase }
{
    if !status {
        return phase;
    }
    if is_silent(control) {
        return Phase::Idle;
    }
    Phase::Answering {
        reply: Reply::Status(reading::status(control)),
        crc: command::crc_start(xmodem),
    }
}

fn awaits_command(phase: Phase) -> bool
    ensures { result ≡ awaits_command phase }
{
    matches!(phase, Phase::Idle)
}

fn is_collecting(phase: Phase) -> bool
    ensures { result ≡ is_collecting phase }
{
    matches!(phase, Phase::Collecting { .. })
}

// A frame's algorithm is the one in force at its command word (02 item 7).
pub fn xmodem_after(bridge: Bridge, after: Phase) -> bool
    ensures { result ≡ xmodem_after bridge after }
{
    if is_collecting(after) & awaits_command(bridge.frame.phase) {
        return registers::is_xmodem(bridge.control.regs);
    }
    bridge.frame.xmodem
}

// A host word marks the watchdog with the last reading.
pub fn marked(clock: Clock) -> Clock
    ensures { result ≡ marked_of clock }
{
    Clock {
        mark: clock.reading,
        ..clock
    }
}

// The one place where a host's event changes the bridge.
pub fn performed(bridge: Bridge, clock: Clock, plan: Plan) -> Bridge
    requires { (SendFit bridge.sending) × (Doable (stored bridge.sending plan.store) plan.deed) × (RingFit rx_size bridge.receiving.rx) }
    ensures { result ≡ performed_of layouts bridge clock plan }
{
    let sending = deeds::done(deeds::stored(bridge.sending, plan.store), plan.deed);
    let receiving = received(cleared_away(bridge.receiving, plan.deed), plan.receive);
    let control = settled(plan.control, receiving.rx.count, false);
    let held = plan.held;
    let frame = Frame {
        phase: concluded(bridge.frame.xmodem, plan.status, control, plan.phase),
        held,
        xmodem: xmodem_after(bridge, plan.phase),
    };
    Bridge {
        control,
        sending,
        receiving,
        frame,
        clock,
    }
}
