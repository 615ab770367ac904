// Runs: samples in a row that sound alike, found where they are with the clocks of the schedule, however many come before them.
ghost use Rattle.std.specs.Prelude.{◌≡◌, ◌<◌, ◌≤◌, length, slice_index};
ghost use Rattle.schedule.specs.Length.{dialling_length};
ghost use Rattle.plan.specs.Call.{call_digits};
ghost use Rattle.handset.specs.Sound.{key_sound, ring_sound};
ghost use Rattle.handset.specs.Runs.{edges_of, rung_before, silent_run, dial_tone_run, Placed, DialledRun, RungRun, IsRun};

use crate::{Edges, Run, Tones};
use keys::Key;
use plan::Call;
use schedule::Rate;

// Q.23's, in whole hertz.
const ROWS: [u32; 4] = [697, 770, 852, 941];

const COLUMNS: [u32; 4] = [1209, 1336, 1477, 1633];

// 0 past the last: a key may be of any row and column.
fn hertz(tones: &[u32; 4], place: u8) -> u32
    ensures { result ≡ slice_index tones.now place }
{
    tones.get(place as usize).copied().unwrap_or(0)
}

fn key_sound(key: Option<Key>) -> Option<Tones>
    ensures { result ≡ key_sound key }
{
    let Key { row, column } = key?;
    Some(Tones {
        low: hertz(&ROWS, row),
        high: hertz(&COLUMNS, column),
    })
}

fn ring_sound(on: bool) -> Option<Tones>
    ensures { result ≡ ring_sound on }
{
    on.then_some(Tones {
        low: 400,
        high: 450,
    })
}

// Where the stages that sound begin, and where the last of them ends.
pub fn edges(call: &Call) -> Edges
    ensures { result ≡ edges_of call.now.rate.hertz (length (call_digits call.now)) }
{
    let [click, tone, dialling, ringback] = call.before_bits();
    let dial = click + tone;
    let ring = dial + dialling;
    let end = ring + ringback;
    Edges {
        tone: click,
        dial,
        ring,
        end,
    }
}

fn silent(count: usize) -> Run
    ensures { result ≡ silent_run count }
{
    Run {
        sound: None,
        steps: 0,
        count,
    }
}

fn dial_tone(n: u32, count: usize) -> Run
    ensures { result ≡ dial_tone_run n count }
{
    Run {
        sound: Some(Tones {
            low: 350,
            high: 450,
        }),
        steps: n,
        count,
    }
}

// A digit's oscillators are fresh at its first sample.
fn dialled(call: &Call, n: u32, left: usize) -> Run
    requires { (n < dialling_length call.now.rate.hertz (length (call_digits call.now))) × (0 < left) × (left ≤ 65536) }
    ensures { DialledRun (call_digits call.now) call.now.rate.hertz n left result }
{
    let rate = call.rate.hertz;
    let phase = schedule::dialling_phase(schedule::seconds(n, rate));
    let digit = phase.digit;
    let tone = phase.tone;
    let more = runs::dialling_run(digit, tone, n, rate, left - 1);
    let start = passage::samples_of_digits(digit, call.rate) as u32;
    let sound = key_sound(tones::dialled_key(call.digits(), digit, tone));
    Run {
        sound,
        steps: n - start,
        count: more + 1,
    }
}

// The samples in tone among the first n of Ringback, burst by burst; bursts and gaps say how long they are, so no `for` can count them.
fn rung(n: u32, rate: Rate) -> u32
    requires { n ≤ 768000 }
    ensures { result ≡ rung_before rate.hertz n }
{
    let mut at: u32 = 0;
    let mut k: u32 = 0;
    while at < n {
        let progress = schedule::ring_progress(schedule::seconds(at, rate.hertz));
        let on = schedule::ringback_gate(progress.time);
        let count = runs::ring_run(at, rate.hertz, (n - at) as usize) as u32;
        if on {
            k += count;
        }
        at += count;
    }
    k
}

fn rung_run(rate: Rate, n: u32, left: usize) -> Run
    requires { (n ≤ 768000) × (0 < left) × (left ≤ 65536) }
    ensures { RungRun rate.hertz n left result }
{
    let progress = schedule::ring_progress(schedule::seconds(n, rate.hertz));
    let sound = ring_sound(schedule::ringback_gate(progress.time));
    let steps = rung(n, rate);
    let count = runs::ring_run(n, rate.hertz, left);
    Run {
        sound,
        steps,
        count,
    }
}

// The run that a sample begins, `place` samples after the first, of as many as are left of its stage and of a buffer.
pub fn at(call: &Call, edges: Edges, place: u32, left: usize) -> Run
    requires { Placed (call_digits call.now) call.now.rate.hertz edges left }
    ensures { IsRun (call_digits call.now) call.now.rate.hertz place left result }
{
    if place < edges.tone {
        silent(left.min((edges.tone - place) as usize))
    } else if place < edges.dial {
        dial_tone(place - edges.tone, left.min((edges.dial - place) as usize))
    } else if place < edges.ring {
        dialled(
            call,
            place - edges.dial,
            left.min((edges.ring - place) as usize),
        )
    } else if place < edges.end {
        rung_run(
            call.rate,
            place - edges.ring,
            left.min((edges.end - place) as usize),
        )
    } else {
        silent(left)
    }
}
