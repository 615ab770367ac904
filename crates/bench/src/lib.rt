// What the benchmark times, for tests/bench to link. No export holds a set between two calls, so
// each makes a set, dials, plays up to a sample, and then does one thing many times over.
#![tactic(auto)]

ghost use Rattle.std.specs.Prelude.{◌≤◌};

use deframe::Deframer;
use set::Set;

// A set at the rate that dialled the digits, as `call` makes one: no program's crate lies under a library for C.
fn dialled(rate: u32, digits: &[u8]) -> Set {
    let made = Set::new(rate);
    let set = typed(typed(made.set, b"ATDT"), digits);
    typed(set, b"\r")
}

fn typed(mut set: Set, bytes: &[u8]) -> Set {
    let mut outbox = [0; 4];
    for byte in bytes {
        set = set
            .feed(*byte, false, &mut outbox)
            .map_or(set, |typed| typed.set);
    }
    set
}

// The whole of out, in fills of at most part samples.
fn filled(mut set: Set, part: usize, out: &mut [f32]) -> Set {
    if part > 0 {
        for samples in out.chunks_mut(part) {
            set = set.after_fill(samples);
        }
    }
    set
}

// A set that dialled the digits and played skip samples.
fn played(rate: u32, digits: &[u8], skip: usize) -> Set {
    let mut set = dialled(rate, digits);
    let mut scratch = [0.0; 4096];
    for _ in 0..skip / 4096 {
        set = set.after_fill(&mut scratch);
    }
    // an empty fill would change the stage shown
    if skip % 4096 > 0 {
        set = set.after_fill(&mut scratch[..skip % 4096]);
    }
    set
}

// Fills out, turns times from the same set; answers m after the last.
#[unsafe(no_mangle)]
pub extern "C" fn bench_fills(
    rate: u32,
    digits: &[u8],
    skip: usize,
    part: usize,
    turns: u64,
    out: &mut [f32],
) -> u32 {
    let set = played(rate, digits, skip);
    let mut m = 0;
    for _ in 0..turns {
        m = filled(set, part, out).m();
    }
    m
}

// The set with all 256 places of its queue taken.
fn queued(mut set: Set) -> Set {
    for _ in 0..256 {
        set = set.queue_byte(b'U').unwrap_or(set);
    }
    set
}

// As `bench_fills`, with 256 bytes queued; answers how many wait after the last.
#[unsafe(no_mangle)]
pub extern "C" fn bench_sent(
    rate: u32,
    digits: &[u8],
    skip: usize,
    part: usize,
    turns: u64,
    out: &mut [f32],
) -> u64 {
    let set = queued(played(rate, digits, skip));
    let mut left = 0;
    for _ in 0..turns {
        left = filled(set, part, out).sending.queue.len;
    }
    left as u64
}

// Empty fills, each of the set that the one before returned.
#[unsafe(no_mangle)]
pub extern "C" fn bench_empty_fills(rate: u32, digits: &[u8], skip: usize, turns: u64) -> u32 {
    let mut set = played(rate, digits, skip);
    for _ in 0..turns {
        set = set.after_fill(&mut []);
    }
    set.m()
}

// Bytes typed in data mode, each into the outbox; answers how many the last one sent.
#[unsafe(no_mangle)]
pub extern "C" fn bench_bytes(rate: u32, digits: &[u8], skip: usize, turns: u64) -> u64 {
    let mut set = played(rate, digits, skip);
    let mut outbox = [0; 4];
    let mut sent = 0;
    for _ in 0..turns {
        if let Ok(typed) = set.feed(b'A', true, &mut outbox) {
            set = typed.set;
            sent = typed.sent;
        }
    }
    sent as u64
}

// Strings of eleven bytes typed in data mode; answers how many the last one sent.
#[unsafe(no_mangle)]
pub extern "C" fn bench_strings(rate: u32, digits: &[u8], skip: usize, turns: u64) -> u64 {
    let mut set = played(rate, digits, skip);
    let mut outbox = [0; 44];
    let mut codes = [0; 33];
    let mut sent = 0;
    for _ in 0..turns {
        if let Ok(typed) = set.feed_all(b"ATDT5551234", true, &mut outbox, &mut codes) {
            set = typed.set;
            sent = typed.sent;
        }
    }
    sent as u64
}

// Soundness, asked of a set whose count is another each time; answers how often it held.
#[unsafe(no_mangle)]
pub extern "C" fn bench_sound(rate: u32, digits: &[u8], skip: usize, turns: u64) -> u64 {
    let mut set = played(rate, digits, skip);
    let mut held = 0;
    for i in 0..turns {
        set.session.m = (i % 4_000_000) as u32;
        held += u64::from(set.sound());
    }
    held
}

// A list of bits read from idle into a buffer of 512 bytes; answers how many bytes the last one gave.
#[unsafe(no_mangle)]
pub extern "C" fn bench_bits(bits: &[u8], turns: u64) -> u64 {
    let mut out = [0; 512];
    let mut given = 0;
    for _ in 0..turns {
        given = Deframer::new().read(bits, &mut out).given;
    }
    given as u64
}
