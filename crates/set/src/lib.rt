// The calling set: the rate, the AT processor, the session, and the sender with the bytes that wait
// for it, in one value. Every call takes the set that the one before returned, answers always, and a
// call that is declined changes nothing.
#![tactic(auto)]

ghost use Rattle.std.specs.Prelude.{◌≡◌, ◌*◌, ◌≤◌, true, length, drop};
ghost use Rattle.ascii.specs.Front.{put};
ghost use Rattle.command.specs.Line as command_line;
ghost use Rattle.at.specs.At.{sent};
ghost use Rattle.at.specs.Processor.{command_mode};
ghost use Rattle.set.specs.Refusals.{cause_of_sound};
ghost use Rattle.set.specs.Sound.{sound};
ghost use Rattle.set.specs.Set.{s12_of, obeyed, fresh_set, creation_cause, made, typing_cause, byte_typed, typed, outbox, sending_for, lapsed, forced, is_up_in, raised_if, fill_cause, fill, buffer, set_filled, queuing_cause, byte_queued, rung};
ghost use Rattle.set.specs.String.{set_by, sent_by, codes_by, at_front, string_cause, typed_all, outbox_all, codes_all};

use at::{AtProcessor, Control, Outcome};
use command::Line;
use keys::{Digits, Key};
use refusal::Refusal;
use reply::Reply;
use sender::Sending;
use session::{Session, SessionState};

// The shortest outbox that a typed byte takes, and the longest buffer that a fill takes.
const MIN_OUTBOX: usize = 4;

const MAX_FILL: usize = 65536;

// The longest string typed in a call.
const MAX_STRING: usize = 256;

const MAX_SAMPLES: u32 = 5_000_000;

#[derive(Clone, Copy)]
pub struct Set {
    pub rate: u32,
    pub processor: AtProcessor,
    pub session: Session,
    pub sending: Sending,
}

// A set is handed out whatever the rate: at 8,000 where the rate is declined.
#[derive(Clone, Copy)]
pub struct Made {
    pub set: Set,
    pub checked: Result<(), Refusal>,
}

// A call that is declined hands no set out: the caller's own is as it was.
#[derive(Clone, Copy)]
pub struct Typed {
    pub set: Set,
    pub reply: Reply,
    // bytes put into the outbox
    pub sent: usize,
}

#[derive(Clone, Copy)]
pub struct TypedAll {
    pub set: Set,
    // bytes put into the outbox
    pub sent: usize,
}

#[derive(Clone, Copy)]
pub struct Lapsed {
    pub set: Set,
    pub reply: Reply,
}

// As session's, with the set in its place. The field is named for what it holds: of one type for both, callers would read
// `filled.value.session`.
#[derive(Clone, Copy)]
pub struct Filled {
    pub set: Set,
    // that of the last sample
    pub key: Option<Key>,
}

// Dial, answer and hang-up empty the queue.
fn sending_for(control: Option<Control>, sending: Sending) -> Sending
    ensures { result ≡ sending_for control sending }
{
    match control {
        None => sending,
        Some(Control::Dial | Control::Answer | Control::Hangup) => sending.emptied(),
    }
}

// State 3 is the line up.
#[tactic(auto, unfolding(session::specs::Session::state_number))]
fn is_up(state: SessionState) -> bool
    ensures { result ≡ is_up_in state }
{
    state == SessionState::Connected
}

// The sender is fresh at the moment the line goes up.
fn raised_if(up: bool, sending: Sending, rate: u32) -> Sending
    ensures { result ≡ raised_if up sending rate }
{
    if up {
        return sending.raised(rate);
    }
    sending
}

// Creation is declined outside the rate's limits.
#[tactic(auto, unfolding(crate::specs::Set::creation_cause))]
fn creation_cause(rate: u32) -> Result<(), Refusal>
    ensures { result ≡ creation_cause rate }
{
    if soundness::rate_ok(rate) {
        return Ok(());
    }
    Err(Refusal::Rate)
}

impl Set {
    // A fresh set: Idle, with the fresh AT processor. At a rate outside the limits it is unsound, and every call declines it.
    pub fn fresh(rate: u32) -> Set
        ensures { result ≡ fresh_set rate }
    {
        Set {
            rate,
            processor: AtProcessor::new(),
            session: Session::new(),
            sending: Sending::new(rate),
        }
    }

    // The fresh set at the rate, or at 8,000 where the rate is declined.
    #[tactic(auto, unfolding(crate::specs::Set::made, crate::specs::Refusals::accepted))]
    pub fn new(rate: u32) -> Made
        ensures { result ≡ made rate }
    {
        let checked = creation_cause(rate);
        let set = Set::fresh(if checked.is_ok() { rate } else { 8000 });
        Made { set, checked }
    }

    // 01's list. Every call but the plain readers asks it first.
    #[tactic(auto, unfolding(crate::specs::Sound::sound))]
    pub fn sound(self) -> bool
        ensures { result ≡ sound self }
    {
        let session = self.session;
        let digits = session.digits;
        if digits.len > 76 {
            return false;
        }
        soundness::sound_state(session.stage, digits.held(), self.rate)
            & (self.processor.sound()
                & ((session.m <= MAX_SAMPLES)
                    & ((session.shown <= 9)
                        & soundness::sending::sending_ok(self.sending, self.rate))))
    }

    // The cause of a call that is declined for an unsound set alone.
    pub fn sound_cause(self) -> Result<(), Refusal>
        ensures { result ≡ cause_of_sound (sound self) }
    {
        if self.sound() {
            return Ok(());
        }
        Err(Refusal::Unsound)
    }

    #[tactic(auto, unfolding(crate::specs::Set::typing_cause))]
    fn typing_cause(self, room: usize) -> Result<(), Refusal>
        ensures { result ≡ typing_cause self room }
    {
        self.sound_cause()?;
        if room < MIN_OUTBOX {
            return Err(Refusal::Outbox);
        }
        Ok(())
    }

    // One byte typed at the panel.
    #[tactic(auto, unfolding(crate::specs::Set::typed, crate::specs::Set::outbox, crate::specs::Refusals::accepted))]
    pub fn feed(self, byte: u8, carrier: bool, out: &mut [u8]) -> Result<Typed, Refusal>
        ensures value { result ≡ typed self byte carrier (length out.old) }
        ensures out_after { out.new ≡ outbox self byte out.old }
    {
        self.typing_cause(out.len())?;
        Ok(self.take_byte(byte, carrier, out))
    }

    // The byte alone, with no check: `feed_all` checks once for all of its bytes.
    #[tactic(auto, unfolding(control::specs::Control::heard))]
    fn take_byte(self, byte: u8, carrier: bool, out: &mut [u8]) -> Typed
        ensures value { result ≡ byte_typed self byte carrier (length out.old) }
        ensures out_after { out.new ≡ put (sent self.processor byte) out.old }
    {
        let heard = control::heard_in(self.session.state, carrier);
        let fed = self.processor.feed(byte, heard, out);
        Typed {
            set: self.after(fed.outcome, fed.line),
            reply: fed.outcome.reply,
            sent: fed.sent,
        }
    }

    // The processor moved on, and what it asks of the call control done. A dial line has its digits after ATDT.
    // In each caller, so that no set is copied for a call.
    #[inline(always)]
    fn after(self, outcome: Outcome, line: Line) -> Set
        ensures { result ≡ obeyed self outcome (drop 4 (command_line.typed line)) }
    {
        Set {
            processor: outcome.processor,
            session: control::apply(outcome.control, self.session, line, self.rate),
            sending: sending_for(outcome.control, self.sending),
            ..self
        }
    }

    #[tactic(auto, unfolding(crate::specs::String::string_cause))]
    fn string_cause(self, n: usize, room: usize, places: usize) -> Result<(), Refusal>
        ensures { result ≡ string_cause self n room places }
    {
        self.sound_cause()?;
        if n > MAX_STRING {
            return Err(Refusal::StringLength);
        }
        if room < 4 * n || places < 3 * n {
            return Err(Refusal::StringRoom);
        }
        Ok(())
    }

    // A whole string typed at the panel, as its bytes typed singly. Byte i has three places of `codes`,
    // from 3i: its two codes, 0 for none, and the S12 after it.
    #[tactic(auto, unfolding(crate::specs::String::typed_all, crate::specs::String::outbox_all, crate::specs::String::codes_all, crate::specs::Refusals::accepted))]
    pub fn feed_all(
        self,
        bytes: &[u8],
        carrier: bool,
        out: &mut [u8],
        codes: &mut [u8],
    ) -> Result<TypedAll, Refusal>
        ensures value { result ≡ typed_all self bytes.now carrier (length out.old) (length codes.old) }
        ensures out_after { out.new ≡ outbox_all self bytes.now carrier out.old (length codes.old) }
        ensures codes_after { codes.new ≡ codes_all self bytes.now carrier (length out.old) codes.old }
    {
        self.string_cause(bytes.len(), out.len(), codes.len())?;
        Ok(self.take_bytes(bytes, carrier, out, codes))
    }

    // The three places are counted: behind a loop over `chunks_exact_mut` a proof knows the length of `codes`, and nothing of what was written.
    fn take_bytes(self, bytes: &[u8], carrier: bool, out: &mut [u8], codes: &mut [u8]) -> TypedAll
        requires is_sound { sound self ≡ true }
        requires few { length bytes.now ≤ 256 }
        requires outbox_room { 4 * length bytes.now ≤ length out.old }
        requires codes_room { 3 * length bytes.now ≤ length codes.old }
        ensures set_value { result.set ≡ set_by self bytes.now carrier }
        ensures sent_value { result.sent ≡ length (sent_by self bytes.now carrier) }
        ensures out_after { out.new ≡ at_front (sent_by self bytes.now carrier) out.old }
        ensures codes_after { codes.new ≡ at_front (codes_by self bytes.now carrier) codes.old }
    {
        let mut s = self;
        let mut at: usize = 0;
        for (i, byte) in bytes.iter().enumerate() {
            let t = s.take_byte(*byte, carrier, &mut out[at..]);
            let reply = t.reply;
            let next = t.set;
            let place = 3 * i;
            codes[place] = reply.first();
            codes[place + 1] = reply.second();
            codes[place + 2] = next.s12();
            at += t.sent;
            s = next;
        }
        TypedAll { set: s, sent: at }
    }

    // Time passes, in nanoseconds.
    #[tactic(auto, unfolding(crate::specs::Set::lapsed, crate::specs::Set::lapse_cause, control::specs::Control::heard))]
    pub fn advance_time(self, ns: u64, carrier: bool) -> Result<Lapsed, Refusal>
        ensures { result ≡ lapsed self ns carrier }
    {
        self.sound_cause()?;
        let heard = control::heard_in(self.session.state, carrier);
        let lapsed = self.processor.advance_time(ns, heard);
        Ok(Lapsed {
            set: self.after(lapsed, Line::new()),
            reply: lapsed.reply,
        })
    }

    #[tactic(auto, unfolding(crate::specs::Set::forced, crate::specs::Set::forced_cause))]
    pub fn force_data_mode(self) -> Result<Set, Refusal>
        ensures { result ≡ forced self }
    {
        self.sound_cause()?;
        let processor = self.processor.force_data_mode();
        Ok(Set { processor, ..self })
    }

    #[tactic(auto, unfolding(crate::specs::Set::fill_cause))]
    fn fill_cause(self, b: usize) -> Result<(), Refusal>
        ensures { result ≡ fill_cause self b }
    {
        self.sound_cause()?;
        if b > MAX_FILL {
            return Err(Refusal::Length);
        }
        Ok(())
    }

    // Fills the buffer with what the house hears next.
    #[tactic(auto, unfolding(crate::specs::Set::fill, crate::specs::Set::buffer, crate::specs::Refusals::accepted))]
    pub fn process_out(self, out: &mut [f32]) -> Result<Filled, Refusal>
        ensures value { result ≡ fill self (length out.old) }
        ensures out_after { out.new ≡ buffer self out.old }
    {
        self.fill_cause(out.len())?;
        let session = self.session;
        let sending = self.sending;
        if is_up(session.state) {
            let played = sending.fill(out);
            return Ok(Filled {
                set: Set {
                    sending: played,
                    ..self
                },
                key: None,
            });
        }
        let filled = session.process_out(self.rate, out);
        let next = filled.session;
        let raised = raised_if(is_up(next.state), sending, self.rate);
        Ok(Filled {
            set: Set {
                session: next,
                sending: raised,
                ..self
            },
            key: filled.key,
        })
    }

    // The set that a fill leaves, declined or not.
    pub fn after_fill(self, out: &mut [f32]) -> Set
        ensures value { result ≡ set_filled self (fill self (length out.old)) }
        ensures buffer_after { out.new ≡ buffer self out.old }
    {
        self.process_out(out).map_or(self, |filled| filled.set)
    }

    #[tactic(auto, unfolding(crate::specs::Set::queuing_cause))]
    fn queuing_cause(self) -> Result<(), Refusal>
        ensures { result ≡ queuing_cause self }
    {
        self.sound_cause()?;
        if self.sending.queue.is_full() {
            return Err(Refusal::QueueFull);
        }
        Ok(())
    }

    // A byte for the sender, which begins its frame when the line is up and free for it.
    #[tactic(auto, unfolding(crate::specs::Set::byte_queued))]
    pub fn queue_byte(self, byte: u8) -> Result<Set, Refusal>
        ensures { result ≡ byte_queued self byte }
    {
        self.queuing_cause()?;
        let sending = self.sending.queue_byte(byte);
        Ok(Set { sending, ..self })
    }

    #[tactic(auto, unfolding(crate::specs::Set::rung, crate::specs::Set::ring_cause))]
    pub fn ring_number(self) -> Result<u8, Refusal>
        ensures { result ≡ rung self }
    {
        self.sound_cause()?;
        Ok(self.session.ring_number())
    }

    // The plain readers.
    pub fn in_command_mode(self) -> bool
        ensures { result ≡ command_mode self.processor }
    {
        self.processor.in_command_mode
    }

    pub fn state(self) -> SessionState
        ensures { result ≡ self.session.state }
    {
        self.session.state
    }

    // The number of the stage shown; 0 for none.
    pub fn stage(self) -> u8
        ensures { result ≡ self.session.shown }
    {
        self.session.shown
    }

    pub fn m(self) -> u32
        ensures { result ≡ self.session.m }
    {
        self.session.m
    }

    // The guard time of an escape, in units of 20 ms.
    pub fn s12(self) -> u8
        ensures { result ≡ s12_of self }
    {
        self.processor.s12
    }

    pub fn rate(self) -> u32
        ensures { result ≡ self.rate }
    {
        self.rate
    }

    pub fn digits(self) -> Digits
        ensures { result ≡ self.session.digits }
    {
        self.session.digits
    }
}
