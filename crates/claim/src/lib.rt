// Demand 3: the claim about every list of calls, as a promise about the fresh set that is handed out.
#![tactic(auto)]

ghost use Rattle.std.specs.Prelude.{◌≡◌};
ghost use Rattle.set.specs.Set.{made};
ghost use Rattle.claim.specs.Strings.{Claim};
ghost use Rattle.claim.specs.Before.{Unset};

use set::{Made, Set};

// A fresh set at a rate; at 8,000 where the rate is declined. Whatever calls follow, each on the
// set that the one before returned, the claim holds of them; and while none ends an S12 line, each
// is answered as it was before S12.
pub fn start(rate: u32) -> Made
    ensures value { result ≡ made rate }
    ensures claim { Claim result.set }
    ensures unset { Unset result.set }
{
    Set::new(rate)
}
