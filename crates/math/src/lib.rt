// The numbers of 01, "Floats": S and E for libm's `sin` and `exp`, `floor` and `round` worked out from bits, and `as f32`.
#![tactic(auto)]

ghost use Rattle.std.specs.Prelude.{◌≡◌, fold as folded_by, cond, ◌&&◌, ◌<◌, ◌≤◌, ◌^◌, ◌/◌, ◌%◌, leb};
ghost use Rattle.std.specs.Float.Ieee.{le, lt};
ghost use Rattle.std.specs.Float.Ieee.Nearest.{closest};
ghost use Rattle.math.specs.Float.{zero, one, tau};
ghost use Rattle.math.specs.Sine.{lowered, folded, stepped, quarter_wave, signed, full_wave, sine};
ghost use Rattle.math.specs.Decay.{squared, decay};
ghost use Rattle.math.specs.Whole.{floor_of, round_of};
ghost use Rattle.math.specs.Narrow.{narrowed};
ghost use Rattle.math.specs.Steps.{twice, narrow_bits};

use std::cmp::Ordering;

pub const TAU: f64 = 6.283185307179586;

const H: f64 = 3.141592653589793;

const Q: f64 = 1.5707963267948966;

// One step of either series.
fn series_step(p: f64, z: f64, c: f64) -> f64
    ensures { result ≡ stepped z p c }
{
    1.0 - (z / c) * p
}

fn lower(x: f64) -> f64
    ensures { result ≡ lowered x }
{
    if x >= H { x - H } else { x }
}

#[tactic(auto, unfolding(crate::specs::Sine::folded))]
fn fold(y: f64) -> f64
    ensures { result ≡ folded y }
{
    if y > Q { H - y } else { y }
}

// The step for each divisor in turn, from 1. The compiler unrolls it, and two sines keep the lanes of one division.
fn series(z: f64, divisors: &[f64]) -> f64
    ensures { result ≡ folded_by (stepped z) one divisors.now }
{
    divisors.iter().fold(1.0, |p, c| series_step(p, z, *c))
}

#[tactic(auto, unfolding(crate::specs::Sine::quarter_wave, crate::specs::Sine::series))]
fn quarter_wave(y: f64) -> f64
    ensures { result ≡ quarter_wave y }
{
    y * series(y * y, &[210.0, 156.0, 110.0, 72.0, 42.0, 20.0, 6.0])
}

fn sign(x: f64, r: f64) -> f64
    ensures { result ≡ signed x r }
{
    if x >= H { -r } else { r }
}

// A phase or a step is in [0, TAU).
pub fn phase_in_range(x: f64) -> bool
    ensures { result ≡ (le zero x && lt x tau) }
{
    x >= 0.0 && x < TAU
}

// S without its guard.
fn full_wave(x: f64) -> f64
    ensures { result ≡ full_wave x }
{
    sign(x, quarter_wave(fold(lower(x))))
}

// S. Each choice is between two values that are worked out already, so that two sines share the lanes of one division.
#[tactic(auto, unfolding(crate::specs::Sine::sine))]
pub fn sin(x: f64) -> f64
    ensures { result ≡ sine x }
{
    let r = full_wave(x);
    if phase_in_range(x) { r } else { 0.0 }
}

// The rare way out of `sin_both`, a call by itself.
#[cold]
#[inline(never)]
fn sin_rares(a: f64, b: f64) -> (f64, f64)
    ensures { (result.0 ≡ sine a) × (result.1 ≡ sine b) }
{
    (sin(a), sin(b))
}

// Two sines with one test for both: their values meet after it, which is where the compiler starts to pair lanes. Of itself it
// would call this for each pair, which takes a fifth longer.
#[inline(always)]
#[tactic(auto, unfolding(crate::specs::Sine::sine))]
pub fn sin_both(a: f64, b: f64) -> (f64, f64)
    ensures { (result.0 ≡ sine a) × (result.1 ≡ sine b) }
{
    if phase_in_range(a) && phase_in_range(b) {
        (full_wave(a), full_wave(b))
    } else {
        sin_rares(a, b)
    }
}

fn square_eight_times(mut p: f64) -> f64
    ensures { result ≡ squared 8 p }
{
    for _ in 0..8_u8 {
        p = p * p;
    }
    p
}

// 01's E: the exponential of -u.
#[tactic(auto, unfolding(crate::specs::Decay::decay, crate::specs::Sine::series))]
pub fn exp(u: f64) -> f64
    ensures { result ≡ decay u }
{
    if u >= 0.0 && u < 8.0 {
        square_eight_times(series(u / 256.0, &[4.0, 3.0, 2.0, 1.0]))
    } else {
        0.0
    }
}

// Twice x without its fraction, from x's bits: floor and round both follow from it.
fn double(x: f64) -> u64
    ensures { result ≡ twice x }
{
    if !x.is_nan() {
        let b = x.to_bits();
        if b < 0x8000_0000_0000_0000 {
            let e = b / 0x10_0000_0000_0000;
            if e < 1022 {
                return 0;
            }
            if e < 1074 {
                return (0x10_0000_0000_0000 + b % 0x10_0000_0000_0000) >> (1074 - e);
            }
        }
    }
    0
}

pub fn floor(x: f64) -> u64
    ensures { result ≡ floor_of x }
{
    double(x) / 2
}

// Half away from zero.
pub fn round(x: f64) -> u64
    ensures { result ≡ round_of x }
{
    (double(x) + 1) / 2
}

// a / b to the nearest whole number, a tie to the even one.
fn nearest(a: u64, b: u64) -> u64
    requires divisor { 0 < b }
    requires divisor_bound { b ≤ 2 ^ 62 }
    requires dividend_bound { a < 2 ^ 62 }
    ensures { result ≡ closest a b }
{
    let q = a / b;
    let r = a % b * 2;
    match r.cmp(&b) {
        Ordering::Less => q,
        Ordering::Equal => q + q % 2,
        Ordering::Greater => q + 1,
    }
}

// The bits of a result below the `f32`'s normal range, from the exponent's field and the digits of the `f64`.
fn narrow_subnormal(e: u64, t: u64) -> u64
    requires below_normal { e < 897 }
    requires digits { t < 2 ^ 52 }
    ensures { result ≡ narrow_bits e t }
{
    if e >= 873 {
        nearest(0x10_0000_0000_0000 + t, 1 << (926 - e))
    } else {
        0
    }
}

// The `f32` bits of the `f64` bits m, below 2, neither with a sign. In the normal range one sum rebiases the exponent and rounds.
fn narrow_bits(m: u64) -> u64
    requires { m < 2 ^ 62 }
    ensures { result ≡ narrow_bits (m / 2 ^ 52) (m % 2 ^ 52) }
{
    if m >= 0x3810_0000_0000_0000 {
        (m - 0x37ff_ffff_f000_0001 + m / 0x2000_0000 % 2) / 0x2000_0000
    } else {
        narrow_subnormal(m / 0x10_0000_0000_0000, m % 0x10_0000_0000_0000)
    }
}

// The sign's bit in an `f32`.
fn sign_bit(b: u64) -> u64
    ensures { result ≡ cond (leb (2 ^ 63) b) (2 ^ 31) 0 }
{
    if b >= 0x8000_0000_0000_0000 {
        0x8000_0000
    } else {
        0
    }
}

// `as f32`, for samples: magnitude 2 or more, or not a number, gives 0.0.
pub fn narrow(x: f64) -> f32
    ensures { result ≡ narrowed x }
{
    if !x.is_nan() {
        let b = x.to_bits();
        let m = b % 0x8000_0000_0000_0000;
        if m < 0x4000_0000_0000_0000 {
            let p = sign_bit(b) + narrow_bits(m);
            return f32::from_bits(p as u32);
        }
    }
    0.0
}
