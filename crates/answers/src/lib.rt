// Demand 1, as a promise about every set, sound or not: whatever call is made on it answers, and one
// that is declined changes nothing.
#![tactic(auto)]

ghost use Rattle.std.specs.Prelude.{◌≡◌};
ghost use Rattle.set.specs.Sound.{sound};
ghost use Rattle.answers.specs.Answers.{Answers};

use set::Set;

// Whether the set is sound. Either way every call on it has its answer.
pub fn is_sound(set: Set) -> bool
    ensures value { result ≡ sound set }
    ensures answers { Answers set }
{
    set.sound()
}
