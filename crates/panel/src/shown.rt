// A line's call on the set, with what is printed of its answer.
ghost use Rattle.std.specs.Prelude.{◌≡◌, ◌*◌, ◌≤◌, true, ◌&&◌, leb, eqb, length};
ghost use Rattle.text.specs.Page.{add_of};
ghost use Rattle.set.specs.Set.{made, typed, lapsed, forced, fill, byte_queued};
ghost use Rattle.refusal.specs.Refusal.{number_of, answer_number};
ghost use Rattle.reply.specs.declared.Reply.TheVariants as reply;
ghost use Rattle.set.specs.String.{typed_all};
ghost use Rattle.deframe.specs.Read.{marks_of};
ghost use Rattle.deframe.specs.Unframe.{unframe_of};
ghost use Rattle.cue.specs.Cue.{cued};
ghost use Rattle.panel.specs.Wall.{shown_of, nothing_shown, made_shown, typed_shown, lapsed_shown, forced_shown, filled_shown, cued_shown, string_shown, bits_shown, frame_shown, lit_shown, queued_shown, if_room, shown_after, line_of};

use crate::bits;
use console::lines::Call;
use console::stream::Answers;
use deframe::Reading;
use keys::Key;
use refusal::Refusal;
use reply::Reply;
use report::Report;
use set::Set;

// What `tap`'s second line tells of a call.
#[derive(Clone, Copy)]
pub enum Second {
    // the ring, and how many bytes of the outbox were filled
    Sent(usize),
    // the same of a set that was made
    Made,
    // the ring, and how many samples were filled; the key of the last is kept
    Filled { n: usize, key: Option<Key> },
    // the cue's sample and its key
    Cued { sample: u64, key: Option<Key> },
    // the ring, and how many bytes of the outbox and places of the code buffer were filled
    String { sent: usize, places: usize },
    // how many bits were taken, and how many bytes of the outbox filled
    Bits { taken: usize, given: usize },
    // a frame's byte, or none
    Frame(Result<u8, Refusal>),
    // the key that is kept
    Lit,
}

// What is printed of a call.
#[derive(Clone, Copy)]
pub struct Told {
    pub report: Report,
    pub second: Second,
}

#[derive(Clone, Copy)]
pub struct Shown {
    pub set: Set,
    // other lines than calls print nothing
    pub told: Option<Told>,
}

pub fn after(
    set: Set,
    call: Call,
    reading: Reading,
    string: &[u8],
    outbox: &mut [u8],
    codes: &mut [u8],
    samples: &mut [f32],
) -> Shown
    ensures { result ≡ shown_after (length outbox.old) (length codes.old) (length samples.old) string.now reading set call }
{
    match call {
        Call::Rate(rate) => made(rate),
        Call::Typed {
            byte,
            carrier,
            outbox: n,
        } => typed(set, byte, carrier, n, outbox),
        Call::Lapse { ns, carrier } => lapsed(set, ns, carrier),
        Call::Fill(n) => filled(set, n, samples),
        Call::ForcedData => forced(set),
        Call::Cue(position) => cued(set, position),
        Call::Kept(_) => nothing(set),
        Call::String {
            carrier,
            outbox: n,
            codes: places,
        } => typed_all(set, string, carrier, n, places, outbox, codes),
        Call::Bits(_) => bits_read(set, reading),
        Call::Frame => framed(set, string),
        Call::Key => lit(set),
        Call::Queued(byte) => queued(set, byte),
    }
}

// Puts the line on the page, if there is one.
pub fn put_line(answers: &mut Answers, shown: Shown)
    ensures { answers.new ≡ add_of answers.old (line_of shown) }
{
    match shown.told {
        Some(told) => report::page::put_report(answers, told.report),
        None => {}
    }
}

fn made(rate: u32) -> Shown
    ensures { result ≡ made_shown (made rate) }
{
    let made = Set::new(rate);
    show(made.set, made.checked, Reply::None, Second::Made)
}

// Into the outbox's first `n` bytes.
fn typed(set: Set, byte: u8, carrier: bool, n: usize, outbox: &mut [u8]) -> Shown
    ensures { result ≡ if_room (leb n (length outbox.old)) set (typed_shown set (typed set byte carrier n)) }
{
    if n > outbox.len() {
        return nothing(set);
    }
    feed(set, byte, carrier, &mut outbox[..n])
}

fn feed(set: Set, byte: u8, carrier: bool, outbox: &mut [u8]) -> Shown
    ensures { result ≡ typed_shown set (typed set byte carrier (length outbox.old)) }
{
    match set.feed(byte, carrier, outbox) {
        Ok(typed) => show(typed.set, Ok(()), typed.reply, Second::Sent(typed.sent)),
        Err(refusal) => declined(set, refusal, Second::Sent(0)),
    }
}

fn lapsed(set: Set, ns: u64, carrier: bool) -> Shown
    ensures { result ≡ lapsed_shown set (lapsed set ns carrier) }
{
    match set.advance_time(ns, carrier) {
        Ok(lapsed) => show(lapsed.set, Ok(()), lapsed.reply, Second::Sent(0)),
        Err(refusal) => declined(set, refusal, Second::Sent(0)),
    }
}

fn forced(set: Set) -> Shown
    ensures { result ≡ forced_shown set (forced set) }
{
    match set.force_data_mode() {
        Ok(forced) => show(forced, Ok(()), Reply::None, Second::Sent(0)),
        Err(refusal) => declined(set, refusal, Second::Sent(0)),
    }
}

// The first `n` samples.
fn filled(set: Set, n: usize, samples: &mut [f32]) -> Shown
    ensures { result ≡ if_room (leb n (length samples.old)) set (filled_shown set n (fill set n)) }
{
    if n > samples.len() {
        return nothing(set);
    }
    fill(set, &mut samples[..n])
}

fn fill(set: Set, samples: &mut [f32]) -> Shown
    ensures { result ≡ filled_shown set (length samples.old) (fill set (length samples.old)) }
{
    // A value that no call writes shows which samples a refused fill leaves alone.
    samples.fill(1.23);
    let n = samples.len();
    match set.process_out(samples) {
        Ok(filled) => {
            let key = filled.key;
            show(filled.set, Ok(()), Reply::None, Second::Filled { n, key })
        }
        Err(refusal) => {
            let key = None;
            declined(set, refusal, Second::Filled { n, key })
        }
    }
}

// The cue leaves the set as it was.
fn cued(set: Set, position: u8) -> Shown
    ensures { result ≡ cued_shown set (cued set position) }
{
    match cue::cue(set, position as u32) {
        Ok(cued) => {
            let sample = cued.sample;
            let key = cued.key;
            show(set, Ok(()), Reply::None, Second::Cued { sample, key })
        }
        Err(refusal) => {
            let sample = 0;
            let key = None;
            declined(set, refusal, Second::Cued { sample, key })
        }
    }
}

// Into the outbox's first `n` bytes and the code buffer's first `m`.
fn typed_all(
    set: Set,
    string: &[u8],
    carrier: bool,
    n: usize,
    m: usize,
    outbox: &mut [u8],
    codes: &mut [u8],
) -> Shown
    ensures { result ≡ if_room (leb n (length outbox.old) && leb m (length codes.old)) set (string_shown set (length string.now) (typed_all set string.now carrier n m)) }
{
    if n > outbox.len() {
        return nothing(set);
    }
    if m > codes.len() {
        return nothing(set);
    }
    feed_all(set, string, carrier, &mut outbox[..n], &mut codes[..m])
}

// Three places of `codes` a byte. A string that was accepted has at most 256.
fn feed_all(set: Set, string: &[u8], carrier: bool, outbox: &mut [u8], codes: &mut [u8]) -> Shown
    ensures { result ≡ string_shown set (length string.now) (typed_all set string.now carrier (length outbox.old) (length codes.old)) }
{
    match set.feed_all(string, carrier, outbox, codes) {
        Ok(all) => {
            let sent = all.sent;
            let places = 3 * string.len();
            show(
                all.set,
                Ok(()),
                Reply::None,
                Second::String { sent, places },
            )
        }
        Err(refusal) => {
            let sent = 0;
            let places = 0;
            declined(set, refusal, Second::String { sent, places })
        }
    }
}

// The reader leaves the set as it was.
fn bits_read(set: Set, reading: Reading) -> Shown
    ensures { result ≡ bits_shown set reading }
{
    let taken = reading.taken;
    let given = reading.given;
    show(set, Ok(()), Reply::None, Second::Bits { taken, given })
}

// A string of ten is a frame or is declined; one of another length is no call.
fn framed(set: Set, string: &[u8]) -> Shown
    ensures { result ≡ frame_shown (eqb (length string.now) 10) set (unframe_of (marks_of string.now)) }
{
    if string.len() == 10 {
        return unframed(set, deframe::unframe(bits::ten(string)));
    }
    nothing(set)
}

fn unframed(set: Set, answer: Result<u8, Refusal>) -> Shown
    ensures { result ≡ frame_shown true set answer }
{
    match answer {
        Ok(_) => show(set, Ok(()), Reply::None, Second::Frame(answer)),
        Err(refusal) => declined(set, refusal, Second::Frame(answer)),
    }
}

// No call is made.
fn lit(set: Set) -> Shown
    ensures { result ≡ lit_shown set }
{
    show(set, Ok(()), Reply::None, Second::Lit)
}

// It sends nothing now: the byte is heard once the line is up.
fn queued(set: Set, byte: u8) -> Shown
    ensures { result ≡ queued_shown set (byte_queued set byte) }
{
    match set.queue_byte(byte) {
        Ok(queued) => show(queued, Ok(()), Reply::None, Second::Sent(0)),
        Err(refusal) => declined(set, refusal, Second::Sent(0)),
    }
}

// A call that is declined leaves the set as it was.
fn declined(set: Set, refusal: Refusal, second: Second) -> Shown
    ensures { result ≡ shown_of set (number_of refusal) reply.None second }
{
    show(set, Err(refusal), Reply::None, second)
}

fn nothing(set: Set) -> Shown
    ensures { result ≡ nothing_shown set }
{
    Shown { set, told: None }
}

fn show(set: Set, answer: Result<(), Refusal>, reply: Reply, second: Second) -> Shown
    ensures { result ≡ shown_of set (answer_number answer) reply second }
{
    let report = Report {
        refusal: refusal::answer_number(&answer),
        in_command_mode: set.in_command_mode(),
        state: u8::from(set.state()),
        stage: set.stage(),
        m: set.m(),
        first: reply.first(),
        second: reply.second(),
    };
    Shown {
        set,
        told: Some(Told { report, second }),
    }
}
