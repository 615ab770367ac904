// The oscillator that is lent, in and out of range: the sample's bits, and the record's after the call.
ghost use Rattle.std.specs.Prelude.{◌≡◌};
ghost use Rattle.std.specs.Float.{binary64};
ghost use Rattle.std.specs.Float.Ieee.{to_bits};
ghost use Rattle.nco.specs.Lent.{lent_sample, lent_nco};

use crate::tried;
use math::TAU;
use nco::Nco;

pub fn oscillators(output: &impl Print) {
    twice(output, 0.5, 0.25);
    one(output, b"lent at phase 0", 0.0, 0.25);
    one(output, b"lent below TAU", 6.283185307179585, 0.25);
    one(output, b"lent at TAU", TAU, 0.25);
    one(output, b"lent below 0", -0.5, 0.25);
    one(output, b"lent at no number", f64::NAN, 0.25);
    one(output, b"lent with step 0", 0.5, 0.0);
    one(output, b"lent with step TAU", 0.5, TAU);
    one(output, b"lent with step below 0", 0.5, -0.25);
    one(output, b"lent with no number for a step", 0.5, f64::NAN);
}

// The record is lent again as the first call left it.
fn twice(output: &impl Print, phase: f64, step: f64) {
    let (sample, first) = stepped(at_8000(phase, step));
    let (again, second) = stepped(first);
    line(output, b"lent", sample, first);
    line(output, b"lent again", again, second);
}

fn one(output: &impl Print, name: &[u8], phase: f64, step: f64) {
    let (sample, after) = stepped(at_8000(phase, step));
    line(output, name, sample, after);
}

fn at_8000(phase: f64, step: f64) -> Nco {
    Nco {
        phase,
        step,
        rate: 8000.0,
    }
}

// The one function that lends a record; a proof of the others follows their code by itself.
fn stepped(nco: Nco) -> (f64, Nco)
    ensures { (result.0 ≡ lent_sample nco) × (result.1 ≡ lent_nco nco) }
{
    let mut lent = nco;
    let sample = nco::lent::next_lent(&mut lent);
    (sample, lent)
}

fn line(output: &impl Print, name: &[u8], sample: f64, nco: Nco) {
    let mut page = tried::Entry::new();
    page.put(name);
    put_float(&mut page, b" sample", sample);
    put_float(&mut page, b" phase", nco.phase);
    put_float(&mut page, b" step", nco.step);
    put_float(&mut page, b" rate", nco.rate);
    tried::end(output, &mut page);
}

fn put_float(page: &mut tried::Entry, label: &[u8], number: f64) {
    page.put(label);
    tried::put_bits(page, bits(number), 16)
}

// The bit pattern of a float. A NaN has one pattern here.
fn bits(number: f64) -> u64
    ensures { result ≡ to_bits binary64 number }
{
    if number.is_nan() {
        0x7ff8_0000_0000_0000
    } else {
        number.to_bits()
    }
}
