// The overture over a lent buffer. Each kind of stage has a writer, which plays a run of samples
// over which the stage's clock tells the same; the loops that play hold their oscillators in locals.
// Where a stage ends, the rest of the buffer is lent on to the next stage's writer.
#![tactic(auto)]

ghost use Rattle.std.specs.Prelude.{◌≡◌, Float, leb, true, ◌≤◌, ◌<◌, length};
ghost use Rattle.schedule.specs.Length.{cj_bits};
ghost use Rattle.schedule.specs.Time.{time_at, saturating_inc};
ghost use Rattle.stage.specs.declared.StageState.TheVariants.{OffHook, DialTone, Ringback, Ansam, Cj, Connected};
ghost use Rattle.stage.specs.Next.{dial_state, onward};
ghost use Rattle.tones.specs.declared.Mixed.{Mixed};
ghost use Rattle.nco.specs.declared.Nco.{Nco};
ghost use Rattle.fsk.specs.Channel.{next_channel};
ghost use Rattle.fsk.specs.Played.{Source, PlayedIs};
ghost use Rattle.tones.specs.Mixed.{gated_of, answer_of};
ghost use Rattle.tones.specs.Samples.{shifted, click_sample};
ghost use Rattle.overture.specs.Iteration.{after, samples, shown_after, zeros};
ghost use Rattle.overture.specs.declared.Sent.{Sent};
ghost use Rattle.overture.specs.Writers.{WroteIs, SentIs, AllSent, mixing, clicking};

use fsk::{FskChannel, Keyed, Modulator};
use nco::Nco;
use stage::{Shown, StageState};
use tones::{Dial, Mixed};

// The state after the samples written, whether its stage ended with them, and how many they are: state and count are
// there in both cases, so no Option.
#[derive(Clone, Copy)]
pub struct Wrote {
    pub state: StageState,
    pub ended: bool,
    pub written: usize,
}

impl Wrote {
    // Of a stage that ends at a count: it stands at k after the samples written.
    fn counted(state: StageState, k: u32, end: u64, written: usize) -> Wrote
        ensures { result ≡ record { state = state; ended = leb end k; written = written } }
    {
        Wrote {
            state,
            ended: k as u64 >= end,
            written,
        }
    }
}

// The channel after the bits written, and how many samples they are.
#[derive(Clone, Copy)]
pub struct Sent {
    pub fsk: FskChannel,
    pub written: usize,
}

// Two oscillators after the samples played. It has names, and no bare pair, for the definitions to speak of.
#[derive(Clone, Copy)]
pub struct Pair {
    pub a: Nco,
    pub b: Nco,
}

// The click's noise after the samples played, and the stage's count.
#[derive(Clone, Copy)]
pub struct Click {
    pub rng: u64,
    pub n: u32,
}

// Zeros in the whole buffer.
pub fn silence(out: &mut [f32])
    ensures { out.new ≡ zeros (length out.old) }
{
    out.fill(0.0);
}

// Samples over the whole part, and what is in hand after them. In each caller, so that the loop holds it in registers.
#[inline(always)]
fn play<X: Copy, F: Fn(X) -> (f64, X)>(step: F, first: X, out: &mut [f32]) -> X
    requires { F.IsAlwaysCallable step }
    ensures { (f : Source X) → ((x : X) (s : Float) (y : X) → F.post step x (s, y) → (s ≡ f.sample x) × (y ≡ f.next x))
        → PlayedIs f (length out.old) first out.old out.new result }
{
    let mut x = first;
    for sample in out.iter_mut() {
        let (made, next) = step(x);
        *sample = math::narrow(made);
        x = next;
    }
    x
}

impl Click {
    // One sample, and the click after it.
    #[tactic(auto, using(schedule::proofs::Count::saturating_inc_is))]
    fn step(self, rate: u32) -> (f64, Click)
        ensures { (result.0 ≡ click_sample (shifted self.rng) (time_at rate self.n)) × (result.1 ≡ record { rng = shifted self.rng; n = saturating_inc self.n }) }
    {
        let rng = tones::shift(self.rng);
        let sample = tones::click_sample(rng, schedule::seconds(self.n, rate));
        let n = self.n.saturating_add(1);
        (sample, Click { rng, n })
    }
}

fn play_click(first: Click, rate: u32, out: &mut [f32]) -> Click
    ensures { PlayedIs (clicking rate) (length out.old) first out.old out.new result }
{
    play(|click: Click| click.step(rate), first, out)
}

// Two oscillators, mixed sample by sample.
#[inline(always)]
fn play_mixed<F: Fn(Nco, Nco) -> Mixed>(mix: F, first: Pair, out: &mut [f32]) -> Pair
    requires { F.IsAlwaysCallable mix }
    ensures { (f : Nco → Nco → Mixed) → ((x y : Nco) (m : Mixed) → F.post mix x y m → m ≡ f x y)
        → PlayedIs (mixing f) (length out.old) first out.old out.new result }
{
    play(
        |pair: Pair| {
            let m = mix(pair.a, pair.b);
            (m.sample, Pair { a: m.a, b: m.b })
        },
        first,
        out,
    )
}

fn play_tones(first: Pair, out: &mut [f32]) -> Pair
    ensures { PlayedIs (mixing (gated_of true)) (length out.old) first out.old out.new result }
{
    play_mixed(tones::two_tones, first, out)
}

// In tone, or in a gap, in which they rest.
fn play_gated(on: bool, first: Pair, out: &mut [f32]) -> Pair
    ensures { PlayedIs (mixing (gated_of on)) (length out.old) first out.old out.new result }
{
    if on {
        return play_tones(first, out);
    }
    silence(out);
    first
}

// ANSam at one sign.
fn play_answer(first: Pair, sign: f64, out: &mut [f32]) -> Pair
    ensures { PlayedIs (mixing (λ x y. answer_of x y sign)) (length out.old) first out.old out.new result }
{
    play_mixed(|x, y| tones::answer_tone(x, y, sign), first, out)
}

// A payload's bits on their channel, of which `total` are sent.
#[derive(Clone, Copy)]
struct Bits<'a> {
    fsk: FskChannel,
    payload: &'a [u8],
    total: u16,
}

impl Keyed for Bits<'_> {
    ghost modulator_of = { λ bits. bits.fsk.modulator };

    ghost next_of = { λ bits. record bits { fsk = next_channel bits.fsk bits.payload.now } };

    ghost ends = { λ bits. leb bits.total bits.fsk.done };

    fn modulator(self) -> Modulator {
        self.fsk.modulator
    }

    fn moved(self) -> Self {
        Bits {
            fsk: self.fsk.moved(self.payload),
            ..self
        }
    }

    fn ended(self) -> bool {
        self.fsk.done >= self.total
    }
}

// Bits, until all are done or the part is full: the four stages that send some share this.
fn write_bits(fsk: FskChannel, payload: &[u8], total: u16, out: &mut [f32]) -> Sent
    ensures { SentIs fsk payload.now total out.old out.new result }
{
    let bits = Bits {
        fsk,
        payload,
        total,
    };
    let (last, written) = fsk::play(bits, out);
    Sent {
        fsk: last.fsk,
        written,
    }
}

// A stage that ends with its bits; `at` makes its state of the channel.
fn write_all_bits<F: FnOnce(FskChannel) -> StageState>(
    at: F,
    fsk: FskChannel,
    payload: &[u8],
    total: u16,
    out: &mut [f32],
) -> Wrote
    requires { F.IsAlwaysCallable at }
    ensures { (w : Sent) × AllSent fsk payload.now total out.old out.new (F.post at) w result }
{
    let w = write_bits(fsk, payload, total, out);
    Wrote {
        state: at(w.fsk),
        ended: w.fsk.done >= total,
        written: w.written,
    }
}

// A call that is heard: its digits, and the rate that it is played at.
#[derive(Clone, Copy)]
struct Call<'a> {
    digits: &'a [u8],
    rate: u32,
}

impl Call<'_> {
    // The state, or the next stage's first where it ended.
    fn next_state(&self, wrote: Wrote) -> StageState
        ensures { result ≡ onward wrote.ended wrote.state self.now.digits.now self.now.rate }
    {
        if wrote.ended {
            let last = wrote.state.stage();
            return stage::enter_state(last.next(), self.digits, self.rate);
        }
        wrote.state
    }

    fn write_off_hook(&self, rng: u64, n: u32, out: &mut [f32]) -> Wrote
        ensures { WroteIs (OffHook rng n) self.now.digits.now self.now.rate out.old out.new result }
    {
        let end = schedule::stage_samples_for(stage::OFF_HOOK_S, self.rate);
        let count = runs::samples_left(n, end, out.len());
        let Click { rng, n } = play_click(Click { rng, n }, self.rate, &mut out[..count]);
        Wrote::counted(StageState::OffHook { rng, n }, n, end, count)
    }

    fn write_dial_tone(&self, a: Nco, b: Nco, n: u32, out: &mut [f32]) -> Wrote
        ensures { WroteIs (DialTone a b n) self.now.digits.now self.now.rate out.old out.new result }
    {
        let end = schedule::stage_samples_for(stage::DIAL_TONE_S, self.rate);
        let count = runs::samples_left(n, end, out.len());
        let p = play_tones(Pair { a, b }, &mut out[..count]);
        let k = runs::saturating_add(n, count);
        let state = StageState::DialTone {
            a: p.a,
            b: p.b,
            n: k,
        };
        Wrote::counted(state, k, end, count)
    }

    // One sample where there is room, with which digit and tone may change and the stage may end.
    fn write_dialled(&self, dial: Dial, n: u32, out: &mut [f32]) -> Wrote
        ensures { WroteIs (dial_state dial n) self.now.digits.now self.now.rate out.old out.new result }
    {
        let k = n.saturating_add(1);
        let d = tones::dial_step(dial, k, self.digits, self.rate);
        let x = d.dial;
        let written = out.len().min(1);
        out[..written].fill(math::narrow(d.sample));
        let state = StageState::Dialling {
            digit_i: x.digit,
            in_tone: x.tone,
            a: x.a,
            b: x.b,
            n: k,
        };
        Wrote {
            state,
            ended: d.finished,
            written,
        }
    }

    // A run of one digit's tone or gap, where one is known.
    fn write_dialling(&self, dial: Dial, n: u32, out: &mut [f32]) -> Wrote
        ensures { WroteIs (dial_state dial n) self.now.digits.now self.now.rate out.old out.new result }
    {
        let i = dial.digit;
        let on = dial.tone;
        if i < self.digits.len() as u64 {
            let count = runs::dialling_run(i, on, n, self.rate, out.len());
            if count > 0 {
                let first = Pair {
                    a: dial.a,
                    b: dial.b,
                };
                let p = play_gated(on, first, &mut out[..count]);
                let k = runs::saturating_add(n, count);
                return Wrote {
                    state: StageState::Dialling {
                        digit_i: i,
                        in_tone: on,
                        a: p.a,
                        b: p.b,
                        n: k,
                    },
                    ended: false,
                    written: count,
                };
            }
        }
        self.write_dialled(dial, n, out)
    }

    fn write_ringback(&self, a: Nco, b: Nco, n: u32, ring: u8, out: &mut [f32]) -> Wrote
        ensures { WroteIs (Ringback a b n ring) self.now.digits.now self.now.rate out.old out.new result }
    {
        let end = schedule::stage_samples_for(stage::RING_STAGE_S, self.rate);
        let left = runs::samples_left(n, end, out.len());
        let count = runs::ring_run(n, self.rate, left);
        let progress = schedule::ring_progress(schedule::seconds(n, self.rate));
        let on = schedule::ringback_gate(progress.time);
        let p = play_gated(on, Pair { a, b }, &mut out[..count]);
        let k = runs::saturating_add(n, count);
        let state = StageState::Ringback {
            a: p.a,
            b: p.b,
            n: k,
            ring: progress.ring,
        };
        Wrote::counted(state, k, end, count)
    }

    fn write_ansam(&self, carrier: Nco, env: Nco, n: u32, out: &mut [f32]) -> Wrote
        ensures { WroteIs (Ansam carrier env n) self.now.digits.now self.now.rate out.old out.new result }
    {
        let end = schedule::stage_samples_for(stage::ANSAM_S, self.rate);
        let left = runs::samples_left(n, end, out.len());
        let count = runs::reversal_run(n, self.rate, left);
        let sign = schedule::reversal_sign(schedule::seconds(n, self.rate));
        let first = Pair { a: carrier, b: env };
        let p = play_answer(first, sign, &mut out[..count]);
        let k = runs::saturating_add(n, count);
        let state = StageState::Ansam {
            carrier: p.a,
            env: p.b,
            n: k,
        };
        Wrote::counted(state, k, end, count)
    }

    // Cj's bits; where they end, its zeros are another call's.
    fn write_cj_bits(&self, fsk: FskChannel, n: u32, out: &mut [f32]) -> Wrote
        requires { fsk.done < cj_bits }
        ensures { WroteIs (Cj fsk n) self.now.digits.now self.now.rate out.old out.new result }
    {
        let w = write_bits(fsk, &frame::CJ_PAYLOAD, schedule::CJ_BITS, out);
        Wrote {
            state: StageState::Cj {
                fsk: w.fsk,
                silence_n: n,
            },
            ended: false,
            written: w.written,
        }
    }

    // Cj's zeros, once its bits are done.
    fn write_cj_silence(&self, fsk: FskChannel, n: u32, out: &mut [f32]) -> Wrote
        requires { cj_bits ≤ fsk.done }
        ensures { WroteIs (Cj fsk n) self.now.digits.now self.now.rate out.old out.new result }
    {
        let end = schedule::stage_samples_for(stage::CJ_SILENCE_S, self.rate);
        let count = runs::samples_left(n, end, out.len());
        silence(&mut out[..count]);
        let k = runs::saturating_add(n, count);
        let state = StageState::Cj { fsk, silence_n: k };
        Wrote::counted(state, k, end, count)
    }

    fn write_cj(&self, fsk: FskChannel, n: u32, out: &mut [f32]) -> Wrote
        ensures { WroteIs (Cj fsk n) self.now.digits.now self.now.rate out.old out.new result }
    {
        if fsk.done < schedule::CJ_BITS {
            return self.write_cj_bits(fsk, n, out);
        }
        self.write_cj_silence(fsk, n, out)
    }

    // A connected line's zeros.
    fn write_connected(&self, out: &mut [f32]) -> Wrote
        ensures { WroteIs Connected self.now.digits.now self.now.rate out.old out.new result }
    {
        let room = out.len();
        silence(out);
        Wrote {
            state: StageState::Connected,
            ended: false,
            written: room,
        }
    }

    // Writes samples of the state's stage until the stage ends or the part is full.
    fn write_stage(&self, state: StageState, out: &mut [f32]) -> Wrote
        ensures { WroteIs state self.now.digits.now self.now.rate out.old out.new result }
    {
        match state {
            StageState::OffHook { rng, n } => self.write_off_hook(rng, n, out),
            StageState::DialTone { a, b, n } => self.write_dial_tone(a, b, n, out),
            StageState::Dialling {
                digit_i,
                in_tone,
                a,
                b,
                n,
            } => self.write_dialling(
                Dial {
                    digit: digit_i,
                    tone: in_tone,
                    a,
                    b,
                },
                n,
                out,
            ),
            StageState::Ringback { a, b, n, ring } => { self.write_ringback(a, b, n, ring, out) }
            StageState::Ci(fsk) => write_all_bits(
                StageState::Ci,
                fsk,
                &frame::CI_PAYLOAD,
                schedule::CI_BITS,
                out,
            ),
            StageState::Ansam { carrier, env, n } => self.write_ansam(carrier, env, n, out),
            StageState::CmJm(fsk) => write_all_bits(
                StageState::CmJm,
                fsk,
                &frame::CMJM_PAYLOAD,
                schedule::CMJM_BITS,
                out,
            ),
            StageState::Cj { fsk, silence_n } => self.write_cj(fsk, silence_n, out),
            StageState::Training(fsk) => write_all_bits(
                StageState::Training,
                fsk,
                &frame::TRAINING_PAYLOAD,
                schedule::TRAINING_BITS,
                out,
            ),
            StageState::Connected => self.write_connected(out),
        }
    }
}

// The state after a fill, and what is shown of its last sample; after an empty fill the stage of the next one, and no key.
#[derive(Clone, Copy)]
pub struct Filled {
    pub state: StageState,
    pub shown: Shown,
}

// Fills the buffer with the samples that follow the state. Where a stage ends, the rest of the
// buffer, from its first unwritten sample, is lent on to the next stage's writer. Each run says how long it is, so no `for` counts them.
pub fn read(state: StageState, digits: &[u8], rate: u32, out: &mut [f32]) -> Filled
    ensures out_after { out.new ≡ samples (length out.old) state digits.now rate }
    ensures state_value { result.state ≡ after (length out.old) state digits.now rate }
    ensures shown_value { result.shown ≡ shown_after (length out.old) state digits.now rate }
{
    let call = Call { digits, rate };
    let mut s = state;
    let mut shown = s.waiting();
    let mut at: usize = 0;
    while at < out.len() {
        shown = s.shown(digits);
        let w = call.write_stage(s, &mut out[at..]);
        at += w.written;
        s = call.next_state(w);
    }
    Filled { state: s, shown }
}
