// A numerically controlled oscillator. Its phase runs on when the frequency changes, so a change makes no click.
#![tactic(auto)]

ghost use Rattle.std.specs.Prelude.{◌≡◌};
ghost use Rattle.nco.specs.Nco.{advanced, fresh_nco, retuned, sample_of, stepped_nco};

use math::TAU;
pub use math::phase_in_range;

pub mod lent;

#[derive(Clone, Copy)]
pub struct Nco {
    pub phase: f64,
    pub step: f64,
    pub rate: f64,
}

// The phase after one sample.
#[tactic(auto, unfolding(crate::specs::Nco::advanced))]
pub fn advance(phase: f64, step: f64) -> f64
    ensures { result ≡ advanced step phase }
{
    let x = phase + step;
    if x >= TAU { x - TAU } else { x }
}

impl Nco {
    pub fn new(freq: f64, rate: f64) -> Nco
        ensures { result ≡ fresh_nco freq rate }
    {
        Nco {
            phase: 0.0,
            step: (TAU * freq) / rate,
            rate,
        }
    }

    pub fn set_freq(self, freq: f64) -> Nco
        ensures { result ≡ retuned self freq }
    {
        Nco {
            step: (TAU * freq) / self.rate,
            ..self
        }
    }

    // The oscillator after one sample.
    pub fn moved(self) -> Nco
        ensures { result ≡ stepped_nco self }
    {
        Nco {
            phase: advance(self.phase, self.step),
            ..self
        }
    }

    pub fn next(&mut self) -> f64
        ensures { (result ≡ sample_of self.old) × (self.new ≡ stepped_nco self.old) }
    {
        let sample = math::sin(self.phase);
        *self = self.moved();
        sample
    }
}
