// 01's list of what makes a set sound, each at its edge: the last that is, and the first that is not.
use crate::{sets, tried};
use math::TAU;
use nco::Nco;
use stage::StageState;

pub fn processors(output: &impl Print) {
    tried::calls(output, b"rate 8000", sets::rate(8000));
    tried::calls(output, b"rate 7999", sets::rate(7999));
    tried::calls(output, b"rate 192001", sets::rate(192001));
    tried::calls(output, b"line of 81", sets::line(81, false));
    tried::calls(output, b"line of 80 that ran over", sets::line(80, true));
    tried::calls(output, b"line of 79 that ran over", sets::line(79, true));
    tried::calls(output, b"4 pluses", sets::pluses(4));
    tried::calls(output, b"down for 699999999 ns", sets::down_for(699999999));
    tried::calls(output, b"down for 700000000 ns", sets::down_for(700000000));
}

pub fn sessions(output: &impl Print) {
    tried::calls(output, b"76 digits", sets::digits(b'1', 76));
    tried::calls(output, b"77 digits", sets::digits(b'1', 77));
    tried::calls(output, b"a digit E", sets::digits(b'E', 1));
    tried::calls(output, b"m 5000000", sets::m(5000000));
    tried::calls(output, b"m 5000001", sets::m(5000001));
    tried::calls(output, b"shown stage 9", sets::shown(9));
    tried::calls(output, b"shown stage 10", sets::shown(10));
}

pub fn oscillators(output: &impl Print) {
    tried::calls(output, b"oscillator", sets::oscillator(0.0, 0.0, 8000.0));
    tried::calls(output, b"phase TAU", sets::oscillator(TAU, 0.0, 8000.0));
    tried::calls(
        output,
        b"phase below 0",
        sets::oscillator(-0.5, 0.0, 8000.0),
    );
    tried::calls(
        output,
        b"phase no number",
        sets::oscillator(f64::NAN, 0.0, 8000.0),
    );
    tried::calls(output, b"step TAU", sets::oscillator(0.0, TAU, 8000.0));
    tried::calls(
        output,
        b"step no number",
        sets::oscillator(0.0, f64::NAN, 8000.0),
    );
    tried::calls(
        output,
        b"oscillator at 8001",
        sets::oscillator(0.0, 0.0, 8001.0),
    );
}

pub fn symbols(output: &impl Print) {
    let step = schedule::symbol_step(8000);
    tried::calls(output, b"symbol phase 0.5", in_ci(0, 0.5, step));
    tried::calls(output, b"symbol phase 1", in_ci(0, 1.0, step));
    tried::calls(output, b"another symbol step", in_ci(0, 0.0, 0.5));
    tried::calls(output, b"59 bits of Ci", in_ci(59, 0.0, step));
    tried::calls(output, b"60 bits of Ci", in_ci(60, 0.0, step));
}

fn in_ci(done: u16, phase: f64, step: f64) -> set::Set {
    sets::stage(StageState::Ci(sets::channel(done, phase, step)))
}

pub fn counts(output: &impl Print) {
    tried::calls(
        output,
        b"80 bits of CmJm",
        sets::stage(StageState::CmJm(sets::sent(80))),
    );
    tried::calls(
        output,
        b"300 bits of Training",
        sets::stage(StageState::Training(sets::sent(300))),
    );
    tried::calls(output, b"60 bits of Cj, 599 zeros", in_cj(60, 599));
    tried::calls(output, b"60 bits of Cj, 600 zeros", in_cj(60, 600));
    tried::calls(output, b"61 bits of Cj", in_cj(61, 0));
}

// The largest number of bits that a channel can count.
pub fn most_bits(output: &impl Print) {
    let most = sets::sent(65535);
    tried::calls(
        output,
        b"65535 bits of Ci",
        sets::stage(StageState::Ci(most)),
    );
    tried::calls(
        output,
        b"65535 bits of CmJm",
        sets::stage(StageState::CmJm(most)),
    );
    tried::calls(output, b"65535 bits of Cj", in_cj(65535, 0));
    tried::calls(
        output,
        b"65535 bits of Training",
        sets::stage(StageState::Training(most)),
    );
}

fn in_cj(done: u16, silence_n: u32) -> set::Set {
    let fsk = sets::sent(done);
    sets::stage(StageState::Cj { fsk, silence_n })
}

pub fn ends(output: &impl Print) {
    let a = sets::tone();
    let b = sets::tone();
    tried::calls(
        output,
        b"OffHook at 400",
        sets::stage(StageState::OffHook { rng: 1, n: 400 }),
    );
    tried::calls(
        output,
        b"DialTone at 8000",
        sets::stage(StageState::DialTone { a, b, n: 8000 }),
    );
    tried::calls(output, b"Dialling at 3199", in_dialling(1, 3199));
    tried::calls(output, b"Dialling at 3200", in_dialling(1, 3200));
    tried::calls(output, b"digit position 2", in_dialling(2, 0));
    tried::calls(output, b"Ringback at 32000", in_ringback(32000, 1));
    tried::calls(output, b"ring 0", in_ringback(0, 0));
    tried::calls(output, b"ring 2", in_ringback(0, 2));
    tried::calls(output, b"ring 3", in_ringback(0, 3));
    tried::calls(
        output,
        b"Ansam at 24000",
        sets::stage(StageState::Ansam {
            carrier: a,
            env: b,
            n: 24000,
        }),
    );
}

fn in_dialling(digit_i: u64, n: u32) -> set::Set {
    let a = sets::tone();
    let b = sets::tone();
    sets::stage(StageState::Dialling {
        digit_i,
        in_tone: true,
        a,
        b,
        n,
    })
}

fn in_ringback(n: u32, ring: u8) -> set::Set {
    let a = sets::tone();
    let b = sets::tone();
    sets::stage(StageState::Ringback { a, b, n, ring })
}

// 02, E10: more than 256 waiting, a sender out of 01's ranges, and more than a frame's ten bits.
pub fn senders(output: &impl Print) {
    let mark = Nco::new(1270.0, 8000.0);
    let step = schedule::symbol_step(8000);
    tried::calls(output, b"255 waiting", sets::waiting(255));
    tried::calls(output, b"256 waiting", sets::waiting(256));
    tried::calls(output, b"257 waiting", sets::waiting(257));
    tried::calls(output, b"10 bits begun", sets::begun(10, true));
    tried::calls(output, b"11 bits begun", sets::begun(11, true));
    tried::calls(output, b"sender", sets::sender(mark, 0.0, step));
    tried::calls(
        output,
        b"sender at symbol phase 1",
        sets::sender(mark, 1.0, step),
    );
    tried::calls(
        output,
        b"sender with another symbol step",
        sets::sender(mark, 0.0, 0.5),
    );
    tried::calls(
        output,
        b"sender's phase TAU",
        sets::sender(Nco { phase: TAU, ..mark }, 0.0, step),
    );
    tried::calls(
        output,
        b"sender's step below 0",
        sets::sender(Nco { step: -0.5, ..mark }, 0.0, step),
    );
    tried::calls(
        output,
        b"sender at 8001",
        sets::sender(Nco::new(1270.0, 8001.0), 0.0, step),
    );
}
