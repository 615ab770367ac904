// `tap`'s second line, written on a page.
use crate::shown::Second;
use console::stream::Answers;
use keys::Key;
use refusal::Refusal;
use set::Set;

// What the call's second line tells.
pub fn put_bits(
    answers: &mut Answers,
    set: Set,
    second: Second,
    lit: Option<Key>,
    outbox: &[u8],
    codes: &[u8],
    samples: &[f32],
) {
    match second {
        Second::Sent(sent) => put_sent(answers, set, outbox, sent),
        Second::Made => put_sent(answers, set, outbox, 0),
        Second::Filled { n, .. } => {
            put_sent(answers, set, outbox, 0);
            put_samples(answers, samples, n);
        }
        Second::Cued { sample, key } => {
            answers.put(b"# cue=");
            answers.put_decimal(sample);
            answers.put(b" key=");
            put_key(answers, key);
        }
        Second::Bits { taken, given } => {
            answers.put(b"# taken=");
            answers.put_decimal(taken as u64);
            answers.put(b" given=");
            put_front(answers, outbox, given);
        }
        Second::Frame(answer) => put_frame(answers, answer),
        Second::String { sent, places } => {
            put_sent(answers, set, outbox, sent);
            answers.put(b" codes=");
            put_front(answers, codes, places);
        }
        Second::Lit => {
            answers.put(b"# key=");
            put_key(answers, lit);
        }
    }
    answers.put_byte(b'\n');
}

// The ring and the bytes sent.
fn put_sent(answers: &mut Answers, set: Set, outbox: &[u8], sent: usize) {
    let ring = set.ring_number().unwrap_or(0);
    answers.put(b"# ring=");
    answers.put_decimal(ring as u64);
    answers.put(b" sent=");
    put_front(answers, outbox, sent);
}

// Its row and its column. call and calls write their own: what the three share is text, which knows no key.
fn put_key(answers: &mut Answers, key: Option<Key>) {
    match key {
        Some(Key { row, column }) => {
            answers.put_decimal(row as u64);
            answers.put_decimal(column as u64);
        }
        None => answers.put_byte(b'-'),
    }
}

// The byte of a frame.
fn put_frame(answers: &mut Answers, answer: Result<u8, Refusal>) {
    answers.put(b"# byte=");
    match answer {
        Ok(byte) => answers.put_hex(byte as u64, 2),
        Err(_) => answers.put_byte(b'-'),
    }
}

// The buffer's first `n` bytes, in hexadecimal.
fn put_front(answers: &mut Answers, bytes: &[u8], n: usize) {
    if n <= bytes.len() {
        answers.put_bytes(&bytes[..n]);
    }
}

// The patterns of the first `n` samples up to 8, or a hash of more.
fn put_samples(answers: &mut Answers, samples: &[f32], n: usize) {
    answers.put(b" n=");
    answers.put_decimal(n as u64);
    if n > samples.len() {
        return;
    }
    let filled = &samples[..n];
    if n > 8 {
        answers.put(b" fnv=");
        answers.put_hex(samples::fnv::hash_samples(samples::fnv::OFFSET, filled), 16);
        return;
    }
    for sample in filled {
        answers.put_byte(b' ');
        answers.put_hex(samples::bits(*sample) as u64, 8);
    }
}
