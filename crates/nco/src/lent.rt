// An oscillator record lent by reference, and stepped there.
ghost use Rattle.std.specs.Prelude.{◌≡◌};
ghost use Rattle.nco.specs.Lent.{lent_sample, lent_nco};

use crate::Nco;

// One sample of the record that is lent, which is then the one after it. With phase or step outside [0, TAU) it is 0.0, and the
// record stays.
#[tactic(auto, unfolding(crate::specs::Lent::lent_sample, crate::specs::Lent::lent_nco))]
pub fn next_lent(nco: &mut Nco) -> f64
    ensures { (result ≡ lent_sample nco.old) × (nco.new ≡ lent_nco nco.old) }
{
    if crate::phase_in_range(nco.phase) && crate::phase_in_range(nco.step) {
        nco.next()
    } else {
        0.0
    }
}
