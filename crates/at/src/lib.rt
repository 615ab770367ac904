// The AT command interface, a port of at.rs: command lines, data mode's escape, the carrier.
// The processor goes in by value and comes back in the answer. It holds no session: what the call
// control has to do is part of the answer, and the caller does it.
#![tactic(auto)]

ghost use Rattle.std.specs.Prelude.{◌≡◌, ◌++◌, ◌+◌, ◌<◌, length, drop};
ghost use Rattle.ascii.specs.Front.{put};
ghost use Rattle.at.specs.Processor.{fresh, sound, online, unseen};
ghost use Rattle.at.specs.Answer.{outcome, quiet};
ghost use Rattle.at.specs.Command.{executed};
ghost use Rattle.at.specs.Escape.{guard_time, withheld, pluses_then, released, data_byte, escaped, waited};
ghost use Rattle.at.specs.Carrier.{down_for, polled};
ghost use Rattle.at.specs.At.{ended, command_byte, typed_byte, sent, lapse, forced_data};

use command::{Command, Line};
use reply::{Code, Reply};

// 20 ms: what S12 counts.
const S12_UNIT: u64 = 20_000_000;

// S12 when fresh and after ATZ: a second.
const FRESH_S12: u8 = 50;

// 700 ms: a carrier that is away for so long is lost.
const DCD_HOLD_TIME: u64 = 700_000_000;

// What the call control has to do.
#[derive(Clone, Copy)]
pub enum Control {
    Dial,
    Answer,
    Hangup,
}

#[derive(Clone, Copy)]
pub struct AtProcessor {
    pub in_command_mode: bool,
    pub cmd_buf: Line,
    // Nanoseconds since the last byte in data mode.
    pub idle: u64,
    // Pluses withheld as the beginning of an escape, 0 to 3.
    pub plus_count: u8,
    // 01's mark that the carrier was seen.
    pub carrier_up: bool,
    // Nanoseconds since a carrier that was seen went away.
    pub carrier_down_for: u64,
    // The guard time of an escape, in units of 20 ms.
    pub s12: u8,
}

// The answer to a command line or a lapse of time.
#[derive(Clone, Copy)]
pub struct Outcome {
    pub processor: AtProcessor,
    pub reply: Reply,
    pub control: Option<Control>,
}

// The answer to a typed byte. `sent` counts the bytes put at the outbox's front. `line` is the line
// that the byte ended, uppercased, or an empty one: a dial line's digits stand in it after ATDT.
#[derive(Clone, Copy)]
pub struct Fed {
    pub outcome: Outcome,
    pub sent: usize,
    pub line: Line,
}

impl AtProcessor {
    // A modem just switched on.
    pub fn new() -> Self
        ensures { result ≡ fresh }
    {
        AtProcessor {
            in_command_mode: true,
            cmd_buf: Line::new(),
            idle: 0,
            plus_count: 0,
            carrier_up: false,
            carrier_down_for: 0,
            s12: FRESH_S12,
        }
    }

    // The processor's part of 01's "Sound".
    #[tactic(auto, unfolding(crate::specs::Processor::sound))]
    pub fn sound(self) -> bool
        ensures { result ≡ sound self }
    {
        self.cmd_buf.sound() && self.plus_count <= 3 && self.carrier_down_for < DCD_HOLD_TIME
    }

    #[tactic(auto, unfolding(crate::specs::At::forced_data))]
    pub fn force_data_mode(self) -> Self
        ensures { result ≡ forced_data self }
    {
        self.go_online()
    }

    // One byte typed at the terminal. What it sends goes to the front of `out`. Where that does not
    // fit, nothing changes; 01 declines so short an outbox beforehand.
    #[tactic(auto, unfolding(crate::specs::At::typed_byte, crate::specs::At::sent))]
    pub fn feed(self, byte: u8, carrier: bool, out: &mut [u8]) -> Fed
        ensures value { result ≡ typed_byte self byte carrier (length out.old) }
        ensures out_after { out.new ≡ put (sent self byte) out.old }
    {
        if self.in_command_mode {
            self.feed_command_byte(byte, carrier)
        } else {
            self.feed_data_byte(byte, out)
        }
    }

    // `ns` nanoseconds pass: an escape may be complete, the carrier may have come or gone.
    #[tactic(auto, unfolding(crate::specs::At::lapse))]
    pub fn advance_time(self, ns: u64, carrier: bool) -> Outcome
        ensures { result ≡ lapse self ns carrier }
    {
        self.advance_idle(ns).poll_carrier(ns, carrier)
    }

    #[tactic(auto, unfolding(crate::specs::Escape::waited, crate::specs::Processor::added))]
    fn advance_idle(self, ns: u64) -> Self
        ensures { result ≡ waited self ns }
    {
        if self.in_command_mode {
            return self;
        }
        AtProcessor {
            idle: self.idle.saturating_add(ns),
            ..self
        }
        .complete_escape()
    }

    // The silence before and after an escape, and the longest pause inside one.
    fn guard_time(self) -> u64
        ensures { result ≡ guard_time self }
    {
        u64::from(self.s12) * S12_UNIT
    }

    // The three pluses were the signal and no data: they are not sent.
    #[tactic(auto, unfolding(crate::specs::Escape::escaped))]
    fn complete_escape(self) -> Self
        ensures { result ≡ escaped self }
    {
        if self.plus_count == 3 && self.idle >= self.guard_time() {
            return AtProcessor {
                in_command_mode: true,
                idle: 0,
                plus_count: 0,
                ..self
            };
        }
        self
    }

    // A carrier that comes is announced in data mode alone.
    #[tactic(auto, unfolding(crate::specs::Carrier::polled, crate::specs::Processor::added))]
    fn poll_carrier(self, ns: u64, carrier: bool) -> Outcome
        ensures { result ≡ polled self ns carrier }
    {
        match (carrier, self.carrier_up) {
            (true, seen) => {
                let reply = if seen || self.in_command_mode {
                    Reply::None
                } else {
                    Reply::One(Code::Connect)
                };
                let heard = AtProcessor {
                    carrier_up: true,
                    carrier_down_for: 0,
                    ..self
                };
                heard.gives(reply, None)
            }
            (false, true) => self.carrier_down(self.carrier_down_for.saturating_add(ns)),
            (false, false) => self.gives(Reply::None, None),
        }
    }

    // A short dropout does not end the call.
    #[tactic(auto, unfolding(crate::specs::Carrier::down_for))]
    fn carrier_down(self, down: u64) -> Outcome
        ensures { result ≡ down_for self down }
    {
        if down < DCD_HOLD_TIME {
            let waiting = AtProcessor {
                carrier_up: true,
                carrier_down_for: down,
                ..self
            };
            return waiting.gives(Reply::None, None);
        }
        let hung_up = AtProcessor {
            in_command_mode: true,
            idle: 0,
            plus_count: 0,
            carrier_up: false,
            carrier_down_for: 0,
            ..self
        };
        hung_up.gives(Reply::One(Code::NoCarrier), Some(Control::Hangup))
    }

    #[tactic(auto, unfolding(crate::specs::At::command_byte))]
    fn feed_command_byte(self, byte: u8, carrier: bool) -> Fed
        ensures { result ≡ command_byte self byte carrier }
    {
        match byte {
            b'\n' => self.silent(),
            b'\r' => self.end_line(carrier),
            _ => {
                let cmd_buf = self.cmd_buf.push(byte);
                AtProcessor { cmd_buf, ..self }.silent()
            }
        }
    }

    #[tactic(auto, unfolding(crate::specs::At::ended, crate::specs::Command::executed))]
    fn end_line(self, carrier: bool) -> Fed
        ensures { result ≡ ended self carrier }
    {
        if self.cmd_buf.len == 0 {
            return self.silent();
        }
        let line = self.cmd_buf.to_uppercase();
        let emptied = AtProcessor {
            cmd_buf: Line::new(),
            ..self
        };
        let outcome = match line.command() {
            Some(command) => emptied.execute(command, carrier),
            None => emptied.gives(Reply::One(Code::Error), None),
        };
        Fed {
            outcome,
            sent: 0,
            line,
        }
    }

    #[tactic(auto, unfolding(crate::specs::Command::executed))]
    fn execute(self, command: Command, carrier: bool) -> Outcome
        ensures { result ≡ executed (Some command) carrier self }
    {
        match command {
            Command::At => self.gives(Reply::One(Code::Ok), None),
            Command::Atz => {
                let reset = AtProcessor {
                    idle: 0,
                    plus_count: 0,
                    s12: FRESH_S12,
                    ..self
                };
                reset.gives(Reply::One(Code::Ok), None)
            }
            Command::Ati => self.gives(Reply::Two(Code::Identification, Code::Ok), None),
            Command::Ata => self
                .forget_carrier()
                .go_online()
                .gives(Reply::One(Code::Ok), Some(Control::Answer)),
            Command::Ath => self.forget_carrier().gives(
                Reply::Two(Code::Ok, Code::NoCarrier),
                Some(Control::Hangup),
            ),
            Command::Ato => self.resume(carrier),
            Command::Atdt => self
                .forget_carrier()
                .go_online()
                .gives(Reply::One(Code::Ok), Some(Control::Dial)),
            Command::AskS12 => self.gives(Reply::Two(Code::S12, Code::Ok), None),
            Command::SetS12(n) => AtProcessor { s12: n, ..self }.gives(Reply::One(Code::Ok), None),
        }
    }

    // ATO returns to a call that is still there.
    #[tactic(auto, unfolding(crate::specs::Command::executed))]
    fn resume(self, carrier: bool) -> Outcome
        ensures { result ≡ executed (Some Command.Ato) carrier self }
    {
        if carrier {
            self.go_online().gives(Reply::One(Code::Connect), None)
        } else {
            self.gives(Reply::One(Code::Error), None)
        }
    }

    // The answer to a typed byte that needs none.
    fn silent(self) -> Fed
        ensures { result ≡ quiet self }
    {
        Fed {
            outcome: self.gives(Reply::None, None),
            sent: 0,
            line: Line::new(),
        }
    }

    fn gives(self, reply: Reply, control: Option<Control>) -> Outcome
        ensures { result ≡ outcome self reply control }
    {
        Outcome {
            processor: self,
            reply,
            control,
        }
    }

    fn go_online(self) -> Self
        ensures { result ≡ online self }
    {
        AtProcessor {
            in_command_mode: false,
            idle: 0,
            plus_count: 0,
            ..self
        }
    }

    fn forget_carrier(self) -> Self
        ensures { result ≡ unseen self }
    {
        AtProcessor {
            carrier_up: false,
            ..self
        }
    }

    // A byte continues an escape or breaks it. The byte that breaks one is sent after the withheld
    // pluses, and opens no other, even if it is a plus.
    #[tactic(auto, unfolding(crate::specs::Escape::data_byte))]
    fn feed_data_byte(self, byte: u8, out: &mut [u8]) -> Fed
        ensures value { result ≡ data_byte self byte (length out.old) }
        ensures out_after { out.new ≡ put (released self byte) out.old }
    {
        if self.continues_run(byte) {
            let waiting = AtProcessor {
                idle: 0,
                plus_count: self.plus_count + 1,
                ..self
            };
            return waiting.silent();
        }
        let held = usize::from(self.plus_count);
        if out.len() <= held {
            return self.silent();
        }
        send(held, byte, out);
        let processor = AtProcessor {
            idle: 0,
            plus_count: 0,
            ..self
        };
        Fed {
            sent: held + 1,
            ..processor.silent()
        }
    }

    #[tactic(auto, unfolding(crate::specs::Escape::withheld))]
    fn continues_run(self, byte: u8) -> bool
        ensures { result ≡ withheld self byte }
    {
        let guard = self.guard_time();
        byte == b'+'
            && match self.plus_count {
                0 => self.idle >= guard,
                1 | 2 => self.idle <= guard,
                _ => false,
            }
    }
}

// Puts the withheld pluses, then the byte, at the front of `out`.
fn send(pluses: usize, byte: u8, out: &mut [u8])
    requires { pluses < length out.old }
    ensures { out.new ≡ pluses_then pluses byte ++ drop (pluses + 1) out.old }
{
    out[..pluses].fill(b'+');
    out[pluses] = byte;
}
