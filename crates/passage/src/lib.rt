// How an overture goes through its stages, which is theorems about definitions: what runs in here is where a digit begins.
#![tactic(auto)]

ghost use Rattle.std.specs.Prelude.{◌≡◌, cond, nat_le};
ghost use Rattle.schedule.specs.Length.{max_digits};
ghost use Rattle.passage.specs.Lengths.{samples_of_digits};

use schedule::Rate;

// Of Dialling, the samples before those of a digit: none, or those of the digits before it. 0 past the digits that a call may have.
pub fn samples_of_digits(digit: u64, rate: Rate) -> u64
    ensures { result ≡ cond (nat_le digit max_digits) (samples_of_digits rate.hertz digit) 0 }
{
    if digit == 0 {
        return 0;
    }
    schedule::dialling_samples(digit, rate.hertz)
}
