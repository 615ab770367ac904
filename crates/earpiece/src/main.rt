// Writes a call's earpiece, the T samples of its keys, dial tone and ringback, to a WAV file of 16-bit samples.
#![tactic(auto)]

use console::stream::has_word;
use recording::words::{Words, Wrong};
use recording::{Target, words};
use std::env::Env;
use std::io;
use std::io::Write;
use std::rt::Files;
use text::Page;

// How many samples are made and written at once.
const SAMPLES: usize = 4096;

fn main(rt: HostRuntime) {
    let errors = rt.stderr();
    if !has_word(&rt, 1) {
        write(&rt, &errors, b"5551234", 8000, b"earpiece.wav");
        return;
    }
    if has_word(&rt, 3) && !has_word(&rt, 4) {
        if let Err(wrong) = with_words(&rt, &errors) {
            wrong.say(&errors, b"earpiece");
        }
        return;
    }
    words::say(
        &errors,
        b"earpiece",
        b"it takes DIGITS RATE FILE, or nothing for 5551234 8000 earpiece.wav",
    );
}

fn with_words(rt: &(impl Env + Files), errors: &impl Print) -> Result<(), Wrong> {
    let Words { digits, rate, path } = Words::read(rt)?;
    write(rt, errors, digits.text(), rate.hertz, path.text());
    Ok(())
}

fn write(rt: &impl Files, errors: &impl Print, digits: &[u8], rate: u32, path: &[u8]) {
    let program = b"earpiece";
    let target = Target {
        rt,
        errors,
        program,
        path,
    };
    target.write(|file| record(file, digits, rate));
}

// Writes the header and, in buffers, the T samples behind it.
fn record(file: &mut impl Write, digits: &[u8], rate: u32) -> io::Result<()> {
    let mut samples = [0i16; SAMPLES];
    let mut bytes = Page::<8192>::new();
    let total = plan::total_samples(digits, rate);
    let header = samples::page::header::<i16>(total, rate);
    file.write_all(header.text())?;
    for pass in (0..total).step_by(SAMPLES) {
        let count = SAMPLES.min((total - pass) as usize);
        let part = &mut samples[..count];
        handset::earpiece(digits, rate, u64::from(pass), part).map_err(|_| refused())?;
        bytes.clear();
        samples::page::put_samples(&mut bytes, part);
        file.write_all(bytes.text())?;
    }
    Ok(())
}

// The samples of a call that its plan takes are refused none.
fn refused() -> io::Error {
    io::Error::other("its samples were refused")
}
