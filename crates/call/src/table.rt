// What is printed of a call: a line for each stage and for each digit, its length T, when the line was up, and
// when a text was sent.
use crate::play;
use keys::Key;
use set::Set;
use std::fmt::Write;
use text::Page;

type Table = Page<8192>;

pub fn print(
    output: &impl Print,
    errors: &impl Print,
    firsts: &[u32; 11],
    dialled: Set,
    up: u32,
    sent: Option<u32>,
) {
    let mut page = Table::new();
    let rate = dialled.rate();
    page.put(b"stage  name         first   samples   seconds\n");
    put_stages(&mut page, firsts, rate);
    put_digits(&mut page, dialled);
    put_end(&mut page, firsts[10].saturating_sub(1), rate, up);
    put_sent(&mut page, up, sent, rate);
    if let Err(why) = output.write_all(page.text()) {
        console::stream::fail(errors, b"call: standard output cannot be written", why);
    }
}

fn put_stages(page: &mut Table, firsts: &[u32; 11], rate: u32) {
    // by place, which is the number that is printed
    for stage in 1..10 {
        let first = firsts[stage];
        put_stage(page, stage, first);
        put_length(page, firsts[stage + 1].saturating_sub(first), rate);
    }
    put_stage(page, 10, firsts[10]);
    page.put_byte(b'\n');
}

fn put_stage(page: &mut Table, stage: usize, first: u32) {
    let name = name(stage);
    let _ = write!(page, "{stage:5}  {name:9}{first:9}");
}

// The Rust's names, by 01's numbers, which are the places in `firsts`: a Stage would be made of its number first.
fn name(stage: usize) -> &'static str {
    match stage {
        1 => "OffHook",
        2 => "DialTone",
        3 => "Dialling",
        4 => "Ringback",
        5 => "Ci",
        6 => "Ansam",
        7 => "CmJm",
        8 => "Cj",
        9 => "Training",
        _ => "Connected",
    }
}

fn put_length(page: &mut Table, samples: u32, rate: u32) {
    let _ = write!(page, "{samples:10}");
    put_seconds(page, samples, rate, 10);
}

// How long so many samples last, at the line's end.
fn put_seconds(page: &mut Table, samples: u32, rate: u32, width: usize) {
    let mut word = Page::<20>::new();
    word.put_seconds(samples, rate);
    put_right(page, word.text(), width);
    page.put_byte(b'\n');
}

fn put_digits(page: &mut Table, dialled: Set) {
    let digits = dialled.digits();
    let keys = digits.held();
    if !keys.is_empty() {
        page.put(b"digit  key          first             seconds\n");
        put_keys(page, dialled, keys);
    }
}

fn put_keys(page: &mut Table, dialled: Set, keys: &[u8]) {
    for (i, digit) in keys.iter().enumerate() {
        let (key, sample) = match cue::cue(dialled, play::at_most(i, u32::MAX)) {
            Ok(cued) => (cued.key, cued.sample),
            Err(_) => (None, 0),
        };
        put_key(page, *digit, key, sample, dialled.rate());
    }
}

// A digit, the row and the column of its key, its first sample, and how long after the call's first that is.
fn put_key(page: &mut Table, digit: u8, key: Option<Key>, sample: u64, rate: u32) {
    put_right(page, &[digit], 5);
    let _ = match key {
        Some(Key { row, column }) => write!(page, "{row:4}{column}"),
        None => write!(page, "    -"),
    };
    let _ = write!(page, "{sample:15}");
    let first = play::at_most(sample as usize, u32::MAX);
    put_seconds(page, first.saturating_sub(1), rate, 20);
}

// A word, with spaces in front up to a width. A width of `write!` is of text, and a key may be a byte that is no text.
fn put_right(page: &mut Table, word: &[u8], width: usize) {
    for _ in word.len()..width {
        page.put_byte(b' ');
    }
    page.put(word);
}

fn put_end(page: &mut Table, total: u32, rate: u32, up: u32) {
    let _ = write!(page, "T is {total} samples, ");
    page.put_seconds(total, rate);
    let _ = writeln!(page, " seconds\nthe line was up at sample {up}");
}

// The last sample of the fill in which the text's last frame ended, of a call that has one.
fn put_sent(page: &mut Table, up: u32, sent: Option<u32>, rate: u32) {
    if let Some(sent) = sent {
        let last = up.wrapping_add(sent);
        let _ = write!(page, "TEXT was sent by sample {last}, ");
        page.put_seconds(last, rate);
        page.put(b" seconds\n");
    }
}
