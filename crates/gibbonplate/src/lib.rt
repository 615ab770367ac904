// The set for C programs, under the names of include/gibbonplate.h. A set lies in memory that the caller lends: seven arrays, which the
// header has in one struct. Each function here is the set's call between a load and a store, and a declined call leaves the memory as it was.
#![tactic(auto)]

ghost use Rattle.std.specs.Prelude.{◌≡◌, ◌≤◌, length};
ghost use Rattle.ascii.specs.Front.{put, put_length};
ghost use Rattle.keys.specs.Keys.{digits_of};
ghost use Rattle.schedule.specs.Time.{min_rate, max_rate};
ghost use Rattle.schedule.specs.Length.{max_digits};
ghost use Rattle.passage.specs.Overture.{HasLength};
ghost use Rattle.plan.specs.Plan.{plan_refusal_number, plan_cause, stage_samples, total_samples, BoundsOf};
ghost use Rattle.handset.specs.Call.{EarpieceIs};
ghost use Rattle.reply.specs.Texts.{text_of};
ghost use Rattle.at.specs.Processor.{command_mode};
ghost use Rattle.session.specs.Session.{state_number};
ghost use Rattle.gibbonplate.specs.Memory.{memory, loaded};
ghost use Rattle.gibbonplate.specs.Calls.{NewCall, FeedCall, StringCall, TimeCall, ForceCall, QueueCall, FillCall, RingCall, CueCall, key_numbers, letter, held_count};

use keys::Key;
use memory::MARKS;
use set::Set;

mod memory;
mod plain;

#[unsafe(no_mangle)]
pub extern "C" fn gibbonplate_new_in(
    longs: &mut [u64; 6],
    counts: &mut [u32; 4],
    reals: &mut [f64; 11],
    marks: &mut [u8; MARKS],
    line: &mut [u8; 80],
    keys: &mut [u8; 76],
    queue: &mut [u8; 256],
    rate: u32,
) -> u8
    ensures { NewCall (memory longs.new counts.new reals.new marks.new line.new keys.new queue.new) rate result }
{
    let made = Set::new(rate);
    memory::store(made.set, longs, counts, reals, marks, line, keys, queue);
    refusal::answer_number(&made.checked)
}

#[unsafe(no_mangle)]
pub extern "C" fn gibbonplate_feed_in(
    longs: &mut [u64; 6],
    counts: &mut [u32; 4],
    reals: &mut [f64; 11],
    marks: &mut [u8; MARKS],
    line: &mut [u8; 80],
    keys: &mut [u8; 76],
    queue: &mut [u8; 256],
    byte: u8,
    carrier: bool,
    out: &mut [u8],
    codes: &mut [u8; 2],
    sent: &mut usize,
) -> u8
    ensures { FeedCall (memory longs.old counts.old reals.old marks.old line.old keys.old queue.old) (memory longs.new counts.new reals.new marks.new line.new keys.new queue.new) byte carrier out.old out.new codes.new sent.new result }
{
    let set = memory::load(longs, counts, reals, marks, line, keys, queue);
    match set.feed(byte, carrier, out) {
        Ok(typed) => {
            let reply = typed.reply;
            *codes = [reply.first(), reply.second()];
            *sent = typed.sent;
            memory::store(typed.set, longs, counts, reals, marks, line, keys, queue);
            0
        }
        Err(refusal) => {
            *codes = [0, 0];
            *sent = 0;
            u8::from(refusal)
        }
    }
}

#[unsafe(no_mangle)]
pub extern "C" fn gibbonplate_feed_all_in(
    longs: &mut [u64; 6],
    counts: &mut [u32; 4],
    reals: &mut [f64; 11],
    marks: &mut [u8; MARKS],
    line: &mut [u8; 80],
    keys: &mut [u8; 76],
    queue: &mut [u8; 256],
    bytes: &[u8],
    carrier: bool,
    out: &mut [u8],
    codes: &mut [u8],
    sent: &mut usize,
) -> u8
    ensures { StringCall (memory longs.old counts.old reals.old marks.old line.old keys.old queue.old) (memory longs.new counts.new reals.new marks.new line.new keys.new queue.new) bytes.now carrier out.old out.new codes.old codes.new sent.new result }
{
    let set = memory::load(longs, counts, reals, marks, line, keys, queue);
    match set.feed_all(bytes, carrier, out, codes) {
        Ok(all) => {
            *sent = all.sent;
            memory::store(all.set, longs, counts, reals, marks, line, keys, queue);
            0
        }
        Err(refusal) => {
            *sent = 0;
            u8::from(refusal)
        }
    }
}

#[unsafe(no_mangle)]
pub extern "C" fn gibbonplate_advance_time_in(
    longs: &mut [u64; 6],
    counts: &mut [u32; 4],
    reals: &mut [f64; 11],
    marks: &mut [u8; MARKS],
    line: &mut [u8; 80],
    keys: &mut [u8; 76],
    queue: &mut [u8; 256],
    ns: u64,
    carrier: bool,
    codes: &mut [u8; 2],
) -> u8
    ensures { TimeCall (memory longs.old counts.old reals.old marks.old line.old keys.old queue.old) (memory longs.new counts.new reals.new marks.new line.new keys.new queue.new) ns carrier codes.new result }
{
    let set = memory::load(longs, counts, reals, marks, line, keys, queue);
    match set.advance_time(ns, carrier) {
        Ok(lapsed) => {
            let reply = lapsed.reply;
            *codes = [reply.first(), reply.second()];
            memory::store(lapsed.set, longs, counts, reals, marks, line, keys, queue);
            0
        }
        Err(refusal) => {
            *codes = [0, 0];
            u8::from(refusal)
        }
    }
}

#[unsafe(no_mangle)]
pub extern "C" fn gibbonplate_force_data_mode_in(
    longs: &mut [u64; 6],
    counts: &mut [u32; 4],
    reals: &mut [f64; 11],
    marks: &mut [u8; MARKS],
    line: &mut [u8; 80],
    keys: &mut [u8; 76],
    queue: &mut [u8; 256],
) -> u8
    ensures { ForceCall (memory longs.old counts.old reals.old marks.old line.old keys.old queue.old) (memory longs.new counts.new reals.new marks.new line.new keys.new queue.new) result }
{
    let set = memory::load(longs, counts, reals, marks, line, keys, queue);
    match set.force_data_mode() {
        Ok(forced) => {
            memory::store(forced, longs, counts, reals, marks, line, keys, queue);
            0
        }
        Err(refusal) => u8::from(refusal),
    }
}

#[unsafe(no_mangle)]
pub extern "C" fn gibbonplate_queue_byte_in(
    longs: &mut [u64; 6],
    counts: &mut [u32; 4],
    reals: &mut [f64; 11],
    marks: &mut [u8; MARKS],
    line: &mut [u8; 80],
    keys: &mut [u8; 76],
    queue: &mut [u8; 256],
    byte: u8,
) -> u8
    ensures { QueueCall (memory longs.old counts.old reals.old marks.old line.old keys.old queue.old) (memory longs.new counts.new reals.new marks.new line.new keys.new queue.new) byte result }
{
    let set = memory::load(longs, counts, reals, marks, line, keys, queue);
    match set.queue_byte(byte) {
        Ok(queued) => {
            memory::store(queued, longs, counts, reals, marks, line, keys, queue);
            0
        }
        Err(refusal) => u8::from(refusal),
    }
}

// Row and column; C has no Option, and 255 is no row.
fn key_numbers(key: Option<Key>) -> [u8; 2]
    ensures { result ≡ key_numbers key }
{
    match key {
        Some(Key { row, column }) => [row, column],
        None => [255, 255],
    }
}

#[unsafe(no_mangle)]
pub extern "C" fn gibbonplate_process_out_in(
    longs: &mut [u64; 6],
    counts: &mut [u32; 4],
    reals: &mut [f64; 11],
    marks: &mut [u8; MARKS],
    line: &mut [u8; 80],
    keys: &mut [u8; 76],
    queue: &mut [u8; 256],
    samples: &mut [f32],
    key: &mut [u8; 2],
) -> u8
    ensures { FillCall (memory longs.old counts.old reals.old marks.old line.old keys.old queue.old) (memory longs.new counts.new reals.new marks.new line.new keys.new queue.new) samples.old samples.new key.new result }
{
    let set = memory::load(longs, counts, reals, marks, line, keys, queue);
    match set.process_out(samples) {
        Ok(filled) => {
            *key = key_numbers(filled.key);
            memory::store(filled.set, longs, counts, reals, marks, line, keys, queue);
            0
        }
        Err(refusal) => {
            *key = key_numbers(None);
            u8::from(refusal)
        }
    }
}

#[unsafe(no_mangle)]
pub extern "C" fn gibbonplate_ring_in(
    longs: &[u64; 6],
    counts: &[u32; 4],
    reals: &[f64; 11],
    marks: &[u8; MARKS],
    line: &[u8; 80],
    keys: &[u8; 76],
    queue: &[u8; 256],
    ring: &mut u8,
) -> u8
    ensures { RingCall (memory longs.now counts.now reals.now marks.now line.now keys.now queue.now) ring.new result }
{
    let set = memory::load(longs, counts, reals, marks, line, keys, queue);
    let rung = set.ring_number();
    *ring = rung.unwrap_or(0);
    refusal::answer_number(&rung)
}

#[unsafe(no_mangle)]
pub extern "C" fn gibbonplate_cue_in(
    longs: &[u64; 6],
    counts: &[u32; 4],
    reals: &[f64; 11],
    marks: &[u8; MARKS],
    line: &[u8; 80],
    keys: &[u8; 76],
    queue: &[u8; 256],
    position: u32,
    sample: &mut u64,
    key: &mut [u8; 2],
) -> u8
    ensures { CueCall (memory longs.now counts.now reals.now marks.now line.now keys.now queue.now) position sample.new key.new result }
{
    let set = memory::load(longs, counts, reals, marks, line, keys, queue);
    match cue::cue(set, position) {
        Ok(cued) => {
            *sample = cued.sample;
            *key = key_numbers(cued.key);
            0
        }
        Err(refusal) => {
            *sample = 0;
            *key = key_numbers(None);
            u8::from(refusal)
        }
    }
}

// 01's letter, which C is given as a number.
fn letter(command: bool) -> u8
    ensures { result ≡ letter command }
{
    if command {
        return b'C';
    }
    b'D'
}

// C has no Option: 0 where a set that is unsound has more digits than there are places.
fn held_count(len: usize) -> usize
    ensures { result ≡ held_count len }
{
    if len <= 76 {
        return len;
    }
    0
}

#[unsafe(no_mangle)]
pub extern "C" fn gibbonplate_mode_in(
    longs: &[u64; 6],
    counts: &[u32; 4],
    reals: &[f64; 11],
    marks: &[u8; MARKS],
    line: &[u8; 80],
    keys: &[u8; 76],
    queue: &[u8; 256],
) -> u8
    ensures { result ≡ letter (command_mode (loaded (memory longs.now counts.now reals.now marks.now line.now keys.now queue.now)).processor) }
{
    let set = memory::load(longs, counts, reals, marks, line, keys, queue);
    letter(set.in_command_mode())
}

#[unsafe(no_mangle)]
pub extern "C" fn gibbonplate_state_in(
    longs: &[u64; 6],
    counts: &[u32; 4],
    reals: &[f64; 11],
    marks: &[u8; MARKS],
    line: &[u8; 80],
    keys: &[u8; 76],
    queue: &[u8; 256],
) -> u8
    ensures { result ≡ state_number (loaded (memory longs.now counts.now reals.now marks.now line.now keys.now queue.now)).session.state }
{
    let set = memory::load(longs, counts, reals, marks, line, keys, queue);
    u8::from(set.state())
}

#[unsafe(no_mangle)]
pub extern "C" fn gibbonplate_stage_in(
    longs: &[u64; 6],
    counts: &[u32; 4],
    reals: &[f64; 11],
    marks: &[u8; MARKS],
    line: &[u8; 80],
    keys: &[u8; 76],
    queue: &[u8; 256],
) -> u8
    ensures { result ≡ (loaded (memory longs.now counts.now reals.now marks.now line.now keys.now queue.now)).session.shown }
{
    let set = memory::load(longs, counts, reals, marks, line, keys, queue);
    set.stage()
}

#[unsafe(no_mangle)]
pub extern "C" fn gibbonplate_m_in(
    longs: &[u64; 6],
    counts: &[u32; 4],
    reals: &[f64; 11],
    marks: &[u8; MARKS],
    line: &[u8; 80],
    keys: &[u8; 76],
    queue: &[u8; 256],
) -> u32
    ensures { result ≡ (loaded (memory longs.now counts.now reals.now marks.now line.now keys.now queue.now)).session.m }
{
    let set = memory::load(longs, counts, reals, marks, line, keys, queue);
    set.m()
}

#[unsafe(no_mangle)]
pub extern "C" fn gibbonplate_s12_in(
    longs: &[u64; 6],
    counts: &[u32; 4],
    reals: &[f64; 11],
    marks: &[u8; MARKS],
    line: &[u8; 80],
    keys: &[u8; 76],
    queue: &[u8; 256],
) -> u8
    ensures { result ≡ (loaded (memory longs.now counts.now reals.now marks.now line.now keys.now queue.now)).processor.s12 }
{
    let set = memory::load(longs, counts, reals, marks, line, keys, queue);
    set.s12()
}

#[unsafe(no_mangle)]
pub extern "C" fn gibbonplate_rate_in(
    longs: &[u64; 6],
    counts: &[u32; 4],
    reals: &[f64; 11],
    marks: &[u8; MARKS],
    line: &[u8; 80],
    keys: &[u8; 76],
    queue: &[u8; 256],
) -> u32
    ensures { result ≡ (loaded (memory longs.now counts.now reals.now marks.now line.now keys.now queue.now)).rate }
{
    let set = memory::load(longs, counts, reals, marks, line, keys, queue);
    set.rate()
}

#[unsafe(no_mangle)]
pub extern "C" fn gibbonplate_digits_in(
    longs: &[u64; 6],
    counts: &[u32; 4],
    reals: &[f64; 11],
    marks: &[u8; MARKS],
    line: &[u8; 80],
    keys: &[u8; 76],
    queue: &[u8; 256],
    digits: &mut [u8; 76],
) -> usize
    ensures value { result ≡ held_count (loaded (memory longs.now counts.now reals.now marks.now line.now keys.now queue.now)).session.digits.len }
    ensures digits_after { digits.new ≡ (loaded (memory longs.now counts.now reals.now marks.now line.now keys.now queue.now)).session.digits.keys }
{
    let set = memory::load(longs, counts, reals, marks, line, keys, queue);
    let held = set.digits();
    let places = held.keys;
    *digits = places;
    held_count(held.len)
}

#[unsafe(no_mangle)]
pub extern "C" fn gibbonplate_write_reply(code: u8, s12: u8, out: &mut [u8]) -> usize
    ensures value { result ≡ put_length (text_of code s12) (length out.old) }
    ensures out_after { out.new ≡ put (text_of code s12) out.old }
{
    reply::write_reply(code, s12, out)
}

// The length of a call before the call. It needs no set.
#[unsafe(no_mangle)]
pub extern "C" fn gibbonplate_plan_refusal(digits: &[u8], rate: u32) -> u8
    ensures { result ≡ plan_refusal_number (plan_cause (length digits.now) rate) }
{
    refusal::answer_number(&plan::plan_refusal(digits, rate))
}

#[unsafe(no_mangle)]
pub extern "C" fn gibbonplate_stage_samples(digits: &[u8], rate: u32, stage: u32) -> u32
    ensures { result ≡ stage_samples digits.now rate stage }
{
    plan::stage_samples(digits, rate, stage)
}

#[unsafe(no_mangle)]
pub extern "C" fn gibbonplate_total_samples(digits: &[u8], rate: u32) -> u32
    ensures value { result ≡ total_samples digits.now rate }
    ensures has_length { min_rate ≤ rate → rate ≤ max_rate → length digits.now ≤ max_digits → HasLength (digits_of digits.now) rate result }
    ensures bounds_of { min_rate ≤ rate → rate ≤ max_rate → length digits.now ≤ max_digits → BoundsOf rate (length (digits_of digits.now)) result }
{
    plan::total_samples(digits, rate)
}

// The samples of a call that follow those passed over, in 16-bit whole numbers. It needs no set either.
#[unsafe(no_mangle)]
pub extern "C" fn gibbonplate_earpiece(digits: &[u8], rate: u32, pass: u64, out: &mut [i16]) -> u8
    ensures { EarpieceIs digits.now rate pass out.old out.new result }
{
    refusal::answer_number(&handset::earpiece(digits, rate, pass, out))
}
