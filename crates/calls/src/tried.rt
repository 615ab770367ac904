// A line of output for each call, or for each set: what was answered, and the buffer after it.
ghost use Rattle.std.specs.Prelude.{◌≤◌};

use keys::Key;
use queue::Queue;
use refusal::Refusal;
use reply::Reply;
use set::Set;
use text::Page;

// What is told of a call, or of a set.
pub type Entry = Page<512>;

// All calls on a set.
pub fn calls(output: &impl Print, name: &[u8], set: Set) {
    let mut page = Entry::new();
    page.put(name);
    put_typed(&mut page, set, b'1', 8);
    put_string(&mut page, set, b"1\n", 16, 8);
    put_time(&mut page, set);
    put_forced(&mut page, set);
    put_queued(&mut page, set);
    put_filled(&mut page, set);
    put_readers(&mut page, set);
    put_number(&mut page, b" s12 ", u64::from(set.s12()));
    put_cue(&mut page, set, 0);
    end(output, &mut page);
}

// The buffer's first `n` bytes are lent.
pub(crate) fn reply(output: &impl Print, code: u8, s12: u8, n: usize)
    requires { n ≤ 28 }
{
    let mut page = Entry::new();
    let mut buffer = [b'.'; 28];
    let length = reply::write_reply(code, s12, &mut buffer[..n]);
    put_number(&mut page, b"reply ", u64::from(code));
    put_number(&mut page, b" s12 ", u64::from(s12));
    put_number(&mut page, b" room ", n as u64);
    put_number(&mut page, b" length ", length as u64);
    put_word(&mut page, &buffer);
    end(output, &mut page);
}

pub fn cue(output: &impl Print, name: &[u8], set: Set, position: u32) {
    let mut page = Entry::new();
    page.put(name);
    put_cue(&mut page, set, position);
    end(output, &mut page);
}

pub fn digits(output: &impl Print, name: &[u8], set: Set) {
    let mut page = Entry::new();
    let digits = set.digits();
    page.put(name);
    put_number(&mut page, b" digits ", digits.len as u64);
    for key in &digits.keys[..3] {
        put_number(&mut page, b" key ", u64::from(*key));
    }
    end(output, &mut page);
}

pub fn made(output: &impl Print, rate: u32) {
    let mut page = Entry::new();
    let made = Set::new(rate);
    put_number(&mut page, b"rate ", u64::from(rate));
    put_answer(&mut page, b" made ", &made.checked);
    put_number(&mut page, b" at ", u64::from(made.set.rate()));
    end(output, &mut page);
}

pub(crate) fn typed(output: &impl Print, name: &[u8], set: Set, byte: u8, n: usize)
    requires { n ≤ 8 }
{
    let mut page = Entry::new();
    page.put(name);
    put_typed(&mut page, set, byte, n);
    end(output, &mut page);
}

// The outbox's first `n` bytes and the code buffer's first `m` are lent.
pub(crate) fn string(output: &impl Print, name: &[u8], set: Set, string: &[u8], n: usize, m: usize)
    requires n_bound { n ≤ 16 }
    requires m_bound { m ≤ 12 }
{
    let mut page = Entry::new();
    page.put(name);
    put_string(&mut page, set, string, n, m);
    end(output, &mut page);
}

// A fill of two samples, and what the sender and the bytes that wait have become.
pub fn sender(output: &impl Print, name: &[u8], set: Set) {
    let mut page = Entry::new();
    let queued = set.queue_byte(b'Q').unwrap_or(set);
    page.put(name);
    put_sending(&mut page, set);
    page.put(b", Q queued:");
    put_sending(&mut page, queued);
    end(output, &mut page);
}

fn put_sending(page: &mut Entry, set: Set) {
    let mut samples = [1.23f32; 2];
    let after = set.after_fill(&mut samples);
    put_samples(page, &samples);
    put_number(page, b" m ", u64::from(after.m()));
    put_waiting(page, after);
    put_frame(page, after)
}

fn put_samples(page: &mut Entry, samples: &[f32]) {
    for sample in samples {
        put_bits(page, u64::from(samples::bits(*sample)), 8);
    }
}

// The byte that the sender has, how many bits of its frame are begun, and whether an edge is next.
fn put_frame(page: &mut Entry, set: Set) {
    let sender = set.sending.sender;
    put_bits(page, u64::from(sender.byte), 2);
    put_number(page, b" begun ", u64::from(sender.begun));
    if sender.edge {
        page.put(b" edge");
    }
}

// A fill of 65,537 samples: the hash is that of the buffer as it was.
pub fn fill_long(output: &impl Print, set: Set) {
    let mut page = Entry::new();
    let mut samples = [1.23f32; 65537];
    let before = samples::fnv::hash_samples(samples::fnv::OFFSET, &samples);
    let answer = set.process_out(&mut samples);
    let key = answer.map_or(None, |filled| filled.key);
    let after = samples::fnv::hash_samples(samples::fnv::OFFSET, &samples);
    put_answer(&mut page, b"fill of 65537 ", &answer);
    put_bits(&mut page, before, 16);
    put_bits(&mut page, after, 16);
    put_key(&mut page, key);
    end(output, &mut page);
}

fn put_typed(page: &mut Entry, set: Set, byte: u8, n: usize)
    requires { n ≤ 8 }
{
    let mut outbox = [b'.'; 8];
    let answer = set.feed(byte, false, &mut outbox[..n]);
    let reply = answer.map_or(Reply::None, |typed| typed.reply);
    let sent = answer.map_or(0, |typed| typed.sent);
    put_answer(page, b" typed ", &answer);
    put_number(page, b" codes ", u64::from(reply.first()));
    put_number(page, b" ", u64::from(reply.second()));
    put_number(page, b" sent ", sent as u64);
    put_word(page, &outbox)
}

fn put_string(page: &mut Entry, set: Set, string: &[u8], n: usize, m: usize)
    requires n_bound { n ≤ 16 }
    requires m_bound { m ≤ 12 }
{
    let mut outbox = [b'.'; 16];
    let mut codes = [b'.'; 12];
    let answer = set.feed_all(string, false, &mut outbox[..n], &mut codes[..m]);
    let sent = answer.map_or(0, |typed| typed.sent);
    put_answer(page, b" string ", &answer);
    put_number(page, b" sent ", sent as u64);
    put_word(page, &outbox);
    put_codes(page, &codes)
}

fn put_codes(page: &mut Entry, codes: &[u8]) {
    page.put(b" codes ");
    page.put_bytes(codes);
}

fn put_time(page: &mut Entry, set: Set) {
    let answer = set.advance_time(1, false);
    put_answer(page, b" time ", &answer)
}

fn put_forced(page: &mut Entry, set: Set) {
    let answer = set.force_data_mode();
    put_answer(page, b" forced ", &answer)
}

fn put_queued(page: &mut Entry, set: Set) {
    let answer = set.queue_byte(b'Q');
    put_answer(page, b" queued ", &answer);
    put_waiting(page, answer.unwrap_or(set))
}

// How many bytes wait, and what the first two places and the last hold.
fn put_waiting(page: &mut Entry, set: Set) {
    let Queue { bytes, len } = set.sending.queue;
    put_number(page, b" waiting ", len as u64);
    page.put_byte(b' ');
    page.put_bytes(&[bytes[0], bytes[1], bytes[255]])
}

fn put_filled(page: &mut Entry, set: Set) {
    let mut samples = [1.23f32; 2];
    let answer = set.process_out(&mut samples);
    let key = answer.map_or(None, |filled| filled.key);
    put_answer(page, b" fill ", &answer);
    put_samples(page, &samples);
    put_key(page, key)
}

// The readers that work their answer out.
fn put_readers(page: &mut Entry, set: Set) {
    put_worked_out(page, b" ring ", set.ring_number());
    put_worked_out(page, b" icon ", edges::icon(set));
}

// 0 where it is declined.
fn put_worked_out(page: &mut Entry, label: &[u8], answer: Result<u8, Refusal>) {
    put_answer(page, label, &answer);
    put_number(page, b" ", u64::from(answer.unwrap_or(0)));
}

fn put_cue(page: &mut Entry, set: Set, position: u32) {
    let cued = cue::cue(set, position);
    let key = cued.map_or(None, |cued| cued.key);
    let sample = cued.map_or(0, |cued| cued.sample);
    put_answer(page, b" cue ", &cued);
    put_number(page, b" ", sample);
    put_key(page, key)
}

// Its row and its column.
fn put_key(page: &mut Entry, key: Option<Key>) {
    match key {
        Some(Key { row, column }) => {
            put_number(page, b" key ", u64::from(row));
            put_number(page, b"", u64::from(column))
        }
        None => page.put(b" key -"),
    }
}

// The refusal's number, or 0.
fn put_answer<T>(page: &mut Entry, label: &[u8], answer: &Result<T, Refusal>) {
    put_number(page, label, u64::from(refusal::answer_number(answer)));
}

pub fn put_number(page: &mut Entry, label: &[u8], number: u64) {
    page.put(label);
    page.put_decimal(number);
}

fn put_word(page: &mut Entry, word: &[u8]) {
    page.put_byte(b' ');
    page.put(word)
}

pub fn put_bits(page: &mut Entry, bits: u64, digits: usize) {
    page.put_byte(b' ');
    page.put_hex(bits, digits)
}

pub fn end(output: &impl Print, page: &mut Entry) {
    page.put_byte(b'\n');
    let _ = output.write_all(page.text());
}
