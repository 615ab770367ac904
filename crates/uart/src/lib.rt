// The set behind a 16450: the chip holds the set, the registers, and the reply text that waits for
// the receive register. Every call takes the chip that the one before returned.
#![tactic(auto)]

ghost use Rattle.std.specs.Prelude.{◌≡◌, ◌<◌, ◌^◌, length};
ghost use Rattle.at.specs.Processor.{command_mode};
ghost use Rattle.set.specs.Set as set;
ghost use Rattle.set.specs.Refusals.{cause_of_sound};
ghost use Rattle.uart.specs.Inbox.{closed, text_of_reply, came, received};
ghost use Rattle.uart.specs.Registers.{bit, address_of, RegisterAt, interrupt_number, given_number, line_status, modem_status, settled, pending_after, with_pending, with_enable, stored};
ghost use Rattle.uart.specs.Chip.{started, sound, dcd, moved, identification_of, value_of, chip_after, read, transmitted, written, write, outbox, lapsed, filled, buffer};

use keys::Key;
use queue::Queue;
use refusal::Refusal;
use reply::{Code, Reply};
use session::SessionState;
use set::Set;

// What the sheet's registers hold. Identification and the two status registers are worked out. By default as after master reset.
#[derive(Clone, Copy, Default)]
pub struct Registers {
    pub enable: u8,
    pub line: u8,
    pub modem: u8,
    pub scratch: u8,
    // transmitter empty is to be given
    pub pending: bool,
    // the carrier flag last handed in
    pub flag: bool,
    // DCD changed since modem status was read
    pub delta: bool,
}

// The text that waits, and whether some was lost since line status was read.
#[derive(Clone, Copy)]
pub struct Inbox {
    pub queue: Queue,
    pub overrun: bool,
}

// The eight registers, each at the address of its place here.
#[derive(Clone, Copy)]
enum Register {
    Data,
    Enable,
    Identification,
    LineControl,
    ModemControl,
    LineStatus,
    ModemStatus,
    Scratch,
}

// What may interrupt, by the number that identification reads.
#[derive(Clone, Copy)]
enum Interrupt {
    ModemStatus = 0,
    TransmitterEmpty = 2,
    Text = 4,
    LineStatus = 6,
}

#[derive(Clone, Copy)]
pub struct Chip {
    pub set: Set,
    pub registers: Registers,
    pub inbox: Inbox,
}

// The answers below differ from set's `Made`, `TypedAll` and `Filled` in what they hold. Their field says which, so that callers
// read `written.chip`; one type over it would say `value` for set and chip alike.

// A chip is handed out whatever the rate: at 8,000 where the rate is declined.
#[derive(Clone, Copy)]
pub struct Start {
    pub chip: Chip,
    pub checked: Result<(), Refusal>,
}

#[derive(Clone, Copy)]
pub struct Read {
    pub chip: Chip,
    pub value: u8,
}

#[derive(Clone, Copy)]
pub struct Written {
    pub chip: Chip,
    // bytes put into the outbox
    pub sent: usize,
}

#[derive(Clone, Copy)]
pub struct Fill {
    pub chip: Chip,
    // that of the last sample
    pub key: Option<Key>,
}

impl TryFrom<u8> for Register {
    type Error = Refusal;

    ghost try_from_gives = { RegisterAt };

    fn try_from(address: u8) -> Result<Register, Refusal> {
        match address {
            0 => Ok(Register::Data),
            1 => Ok(Register::Enable),
            2 => Ok(Register::Identification),
            3 => Ok(Register::LineControl),
            4 => Ok(Register::ModemControl),
            5 => Ok(Register::LineStatus),
            6 => Ok(Register::ModemStatus),
            7 => Ok(Register::Scratch),
            _ => Err(Refusal::Address),
        }
    }
}

impl From<Interrupt> for u8 {
    ghost from_gives = { λ interrupt number. number ≡ interrupt_number interrupt };

    #[tactic(auto, unfolding(crate::specs::Registers::interrupt_number))]
    fn from(interrupt: Interrupt) -> u8 {
        interrupt as u8
    }
}

impl Inbox {
    // One byte more; where no place is left it is lost.
    fn byte(&mut self, byte: u8)
        ensures { self.new ≡ came self.old byte }
    {
        self.overrun |= self.queue.push(byte).is_err();
    }

    fn bytes(&mut self, text: &[u8])
        ensures { self.new ≡ received self.old text.now }
    {
        for byte in text {
            self.byte(*byte);
        }
    }

    // A line of a reply, closed by CR and LF.
    fn line(&mut self, code: Code, s12: u8)
        ensures { self.new ≡ received self.old (closed code s12) }
    {
        let mut text = [0u8; 32];
        let n = code.write(s12, &mut text);
        self.bytes(&text[..n]);
        self.byte(b'\r');
        self.byte(b'\n');
    }

    #[tactic(auto, unfolding(crate::specs::Inbox::text_of_reply, crate::specs::Inbox::received))]
    fn take(&mut self, reply: Reply, s12: u8)
        ensures { self.new ≡ received self.old (text_of_reply reply s12) }
    {
        match reply {
            Reply::None => {}
            Reply::One(code) => self.line(code, s12),
            Reply::Two(first, second) => {
                self.line(first, s12);
                self.line(second, s12);
            }
        }
    }
}

// The bits of interrupt enable, by their places.
const TEXT: u32 = 0;

const TRANSMITTER_EMPTY: u32 = 1;

const LINE_STATUS: u32 = 2;

const MODEM_STATUS: u32 = 3;

// Whether the bit at this place is set.
fn is_set(value: u8, place: u32) -> bool
    requires { place < 8 }
    ensures { result ≡ bit (2 ^ place) value }
{
    value >> place & 1 == 1
}

#[tactic(auto, unfolding(crate::specs::Registers::line_status))]
fn line_status(overrun: bool, waits: bool) -> u8
    ensures { result ≡ line_status overrun waits }
{
    96 + u8::from(waits) + 2 * u8::from(overrun)
}

#[tactic(auto, unfolding(crate::specs::Registers::modem_status))]
fn modem_status(delta: bool, dcd: bool) -> u8
    ensures { result ≡ modem_status delta dcd }
{
    48 + 8 * u8::from(delta) + 128 * u8::from(dcd)
}

impl Registers {
    // The flag handed in last, and whether DCD changed.
    fn settle(&mut self, before: SessionState, after: SessionState, flag: bool)
        ensures { self.new ≡ settled self.old before after flag }
    {
        let was = control::heard_in(before, self.flag);
        let is = control::heard_in(after, flag);
        self.flag = flag;
        self.delta |= was != is;
    }

    // An identification read gives an interrupt: transmitter empty is then no longer pending.
    #[tactic(auto, unfolding(crate::specs::Registers::interrupt_number))]
    fn give(&mut self, given: Option<Interrupt>)
        ensures { self.new ≡ with_pending (pending_after (given_number given) self.old.pending) self.old }
    {
        if let Some(Interrupt::TransmitterEmpty) = given {
            self.pending = false;
        }
    }

    #[tactic(auto, unfolding(crate::specs::Registers::with_enable))]
    fn set_enable(&mut self, value: u8)
        ensures { self.new ≡ with_enable self.old value }
    {
        let rises = !is_set(self.enable, TRANSMITTER_EMPTY) && is_set(value, TRANSMITTER_EMPTY);
        self.enable = value % 16;
        self.pending |= rises;
    }

    // A write to a register that types nothing.
    #[tactic(auto, unfolding(crate::specs::Registers::stored))]
    fn store(&mut self, register: Register, value: u8)
        ensures { self.new ≡ stored self.old (address_of register) value }
    {
        match register {
            Register::Enable => self.set_enable(value),
            Register::LineControl => self.line = value,
            Register::ModemControl => self.modem = value % 32,
            Register::Scratch => self.scratch = value,
            Register::Data
            | Register::Identification
            | Register::LineStatus
            | Register::ModemStatus => {}
        }
    }
}

impl Chip {
    // A chip as after master reset, with a fresh set.
    #[tactic(auto, unfolding(crate::specs::Chip::started))]
    pub fn new(rate: u32) -> Start
        ensures { result ≡ started rate }
    {
        let made = Set::new(rate);
        let inbox = Inbox {
            queue: Queue::new(),
            overrun: false,
        };
        Start {
            chip: Chip {
                set: made.set,
                registers: Registers::default(),
                inbox,
            },
            checked: made.checked,
        }
    }

    // A sound set, and no more than 256 bytes of text waiting.
    #[tactic(auto, unfolding(crate::specs::Chip::sound))]
    pub fn sound(self) -> bool
        ensures { result ≡ sound self }
    {
        self.set.sound() && self.inbox.queue.ok()
    }

    // DCD: the flag last handed in, false in Idle.
    pub fn dcd(self) -> bool
        ensures { result ≡ dcd self }
    {
        control::heard_in(self.set.state(), self.registers.flag)
    }

    // The plain readers of the set inside.
    pub fn in_command_mode(self) -> bool
        ensures { result ≡ command_mode self.set.processor }
    {
        self.set.in_command_mode()
    }

    pub fn state(self) -> SessionState
        ensures { result ≡ self.set.session.state }
    {
        self.set.state()
    }

    pub fn stage(self) -> u8
        ensures { result ≡ self.set.session.shown }
    {
        self.set.stage()
    }

    pub fn m(self) -> u32
        ensures { result ≡ self.set.session.m }
    {
        self.set.m()
    }

    // The set moved on, with a reply, and with the flag last handed in.
    fn move_on(&mut self, set: Set, reply: Reply, flag: bool)
        ensures { self.new ≡ moved self.old set reply flag }
    {
        self.inbox.take(reply, set.s12());
        self.registers.settle(self.set.state(), set.state(), flag);
        self.set = set;
    }

    // The first that is enabled and is to be given.
    #[tactic(auto, unfolding(crate::specs::Registers::identification, crate::specs::Registers::interrupt_number))]
    fn interrupt(&self) -> Option<Interrupt>
        ensures { given_number result ≡ identification_of self.now }
    {
        let Registers {
            enable,
            pending,
            delta,
            ..
        } = self.registers;
        let waits = !self.inbox.queue.is_empty();
        if is_set(enable, LINE_STATUS) && self.inbox.overrun {
            Some(Interrupt::LineStatus)
        } else if is_set(enable, TEXT) && waits {
            Some(Interrupt::Text)
        } else if is_set(enable, TRANSMITTER_EMPTY) && pending {
            Some(Interrupt::TransmitterEmpty)
        } else if is_set(enable, MODEM_STATUS) && delta {
            Some(Interrupt::ModemStatus)
        } else {
            None
        }
    }

    // What a register reads: 1 of identification says that there is none to be given.
    #[tactic(auto, unfolding(crate::specs::Registers::value_at))]
    fn value(&self, register: Register) -> u8
        ensures { result ≡ value_of self.now (address_of register) }
    {
        match register {
            Register::Data => self.inbox.queue.oldest().unwrap_or(0),
            Register::Enable => self.registers.enable % 16,
            Register::Identification => self.interrupt().map_or(1, u8::from),
            Register::LineControl => self.registers.line,
            Register::ModemControl => self.registers.modem % 32,
            Register::LineStatus => line_status(self.inbox.overrun, !self.inbox.queue.is_empty()),
            Register::ModemStatus => modem_status(self.registers.delta, self.dcd()),
            Register::Scratch => self.registers.scratch,
        }
    }

    // What reading does: text leaves, transmitter empty is given, overrun ends, DCD's delta ends.
    #[tactic(auto, unfolding(crate::specs::Chip::chip_after))]
    fn after_read(&mut self, register: Register)
        ensures { self.new ≡ chip_after self.old (address_of register) }
    {
        match register {
            Register::Data => {
                let _ = self.inbox.queue.pop();
            }
            Register::Identification => {
                let given = self.interrupt();
                self.registers.give(given);
            }
            Register::LineStatus => self.inbox.overrun = false,
            Register::ModemStatus => self.registers.delta = false,
            Register::Enable | Register::LineControl | Register::ModemControl | Register::Scratch =>
                {}
        }
    }

    // The cause of a call that is declined for an unsound chip.
    fn sound_cause(&self) -> Result<(), Refusal>
        ensures { result ≡ cause_of_sound (sound self.now) }
    {
        if self.sound() {
            return Ok(());
        }
        Err(Refusal::Unsound)
    }

    // A register is read.
    #[tactic(auto, unfolding(crate::specs::Chip::read))]
    pub fn read(self, address: u8) -> Result<Read, Refusal>
        ensures { result ≡ read self address }
    {
        self.sound_cause()?;
        let register = Register::try_from(address)?;
        let value = self.value(register);
        let mut chip = self;
        chip.after_read(register);
        Ok(Read { chip, value })
    }

    // A register is written; a byte for address 0 is typed into the set.
    #[tactic(auto, unfolding(crate::specs::Chip::write, crate::specs::Chip::outbox))]
    pub fn write(
        self,
        address: u8,
        value: u8,
        carrier: bool,
        out: &mut [u8],
    ) -> Result<Written, Refusal>
        ensures value { result ≡ write self address value carrier (length out.old) }
        ensures out_after { out.new ≡ outbox self address value out.old }
    {
        self.sound_cause()?;
        match Register::try_from(address)? {
            Register::Data => self.transmit(value, carrier, out),
            register => Ok(self.store(register, value)),
        }
    }

    fn store(self, register: Register, value: u8) -> Written
        ensures { result ≡ written self (address_of register) value }
    {
        let mut chip = self;
        chip.registers.store(register, value);
        Written { chip, sent: 0 }
    }

    fn transmit(self, value: u8, carrier: bool, out: &mut [u8]) -> Result<Written, Refusal>
        ensures value { result ≡ transmitted self carrier (set.typed self.set value carrier (length out.old)) }
        ensures out_after { out.new ≡ set.outbox self.set value out.old }
    {
        let typed = self.set.feed(value, carrier, out)?;
        let mut chip = self;
        chip.move_on(typed.set, typed.reply, carrier);
        chip.registers.pending = true;
        Ok(Written {
            chip,
            sent: typed.sent,
        })
    }

    // Time passes, in nanoseconds.
    #[tactic(auto, unfolding(crate::specs::Chip::lapsed))]
    pub fn lapse(self, ns: u64, carrier: bool) -> Result<Chip, Refusal>
        ensures { result ≡ lapsed self ns carrier }
    {
        self.sound_cause()?;
        let lapsed = self.set.advance_time(ns, carrier)?;
        let mut chip = self;
        chip.move_on(lapsed.set, lapsed.reply, carrier);
        Ok(chip)
    }

    // Fills the buffer with what the house hears next.
    #[tactic(auto, unfolding(crate::specs::Chip::filled, crate::specs::Chip::buffer))]
    pub fn fill(self, out: &mut [f32]) -> Result<Fill, Refusal>
        ensures value { result ≡ filled self (length out.old) }
        ensures out_after { out.new ≡ buffer self out.old }
    {
        self.sound_cause()?;
        let filled = self.set.process_out(out)?;
        let mut chip = self;
        chip.move_on(filled.set, Reply::None, self.registers.flag);
        Ok(Fill {
            chip,
            key: filled.key,
        })
    }
}
