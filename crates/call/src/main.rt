// Makes a call: types the dial line, fills buffers of uneven lengths until the line is up, writes the
// samples up to T to a WAV file, and prints when each stage and each digit came. With a text it goes on
// until that was sent, and writes all samples.
#![tactic(auto)]

mod play;
mod stages;
mod table;
mod talk;

use console::stream::has_word;
use recording::words::{Words, Wrong};
use recording::{Target, words};
use std::env::{Env, FillError};
use std::rt::Files;
use text::Page;

fn main(rt: HostRuntime) {
    let errors = rt.stderr();
    if !has_word(&rt, 1) {
        let target = target(&rt, &errors, b"call.wav");
        call(&target, b"5551234", 48000, b"");
        return;
    }
    if has_word(&rt, 3) && !has_word(&rt, 5) {
        if let Err(wrong) = with_words(&rt, &errors) {
            wrong.say(&errors, b"call");
        }
        return;
    }
    words::say(
        &errors,
        b"call",
        b"it takes DIGITS RATE FILE or DIGITS RATE FILE TEXT, or nothing for 5551234 48000 call.wav",
    );
}

fn with_words(rt: &(impl Env + Files + Print), errors: &impl Print) -> Result<(), Wrong> {
    let Words { digits, rate, path } = Words::read(rt)?;
    let text = text(rt)?;
    let target = target(rt, errors, path.text());
    call(&target, digits.text(), rate.hertz, text.text());
    Ok(())
}

// A word that is missing is no text, as an empty one is.
fn text(words: &impl Env) -> Result<Page<4096>, Wrong> {
    match words::word(words, 4) {
        Ok(text) => Ok(text),
        Err(FillError::NotPresent) => Ok(Page::new()),
        Err(FillError::TooLong) => Err(Wrong::LongText),
    }
}

fn target<'a, R, E>(rt: &'a R, errors: &'a E, path: &'a [u8]) -> Target<'a, R, E> {
    Target {
        rt,
        errors,
        program: b"call",
        path,
    }
}

// The fills are made twice: a WAV file's header, which comes first, has to know how many samples follow.
fn call<R: Files + Print, E: Print>(
    target: &Target<R, E>,
    digits: &[u8],
    rate: u32,
    message: &[u8],
) {
    let mut samples = [0.0f32; 4096];
    let mut firsts = [0u32; 11];
    let dialled = play::dial(rate, digits);
    let end = stages::find_all(dialled, &mut samples, &mut firsts);
    let up = end.set;
    let sent = talk::length(up, end.fills, message, &mut samples);
    let total = firsts[10].saturating_sub(1);
    let all = with_sent(total, up.m(), sent);
    if target.write(|file| play::record(file, dialled, message, all, &mut samples)) {
        table::print(target.rt, target.errors, &firsts, dialled, up.m(), sent);
    }
}

// T, or with samples sent after the line went up all there are: none is left out between the two.
fn with_sent(total: u32, up: u32, sent: Option<u32>) -> u32 {
    sent.map_or(total, |sent| up.wrapping_add(sent))
}
