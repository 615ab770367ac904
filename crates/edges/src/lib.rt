// Which icon a set shows, and which sample is a stage's first, found from that. A set is a value, so a fill
// that went past a stage's beginning can be made again, shorter.
#![tactic(auto)]

ghost use Rattle.std.specs.Prelude.{◌≡◌, ◌≤◌, leb, length};
ghost use Rattle.set.specs.Set.{buffer};
ghost use Rattle.edges.specs.Icon.{icon_of, shown, icon_after, IsFirst, FirstIs};

use refusal::Refusal;
use session::SessionState;
use set::Set;

// The number of the icon shown: the stage's, or 10 once the line is up. It is worked out of two fields, so
// the set is checked.
#[tactic(auto, unfolding(crate::specs::Icon::shown))]
pub fn icon(set: Set) -> Result<u8, Refusal>
    ensures { result ≡ shown set }
{
    set.sound_cause()?;
    Ok(icon_number(set))
}

#[tactic(auto, unfolding(crate::specs::Icon::icon_of, crate::specs::Icon::icon_if, session::specs::Session::state_number))]
fn icon_number(set: Set) -> u8
    ensures { result ≡ icon_of set }
{
    if set.state() == SessionState::Connected {
        return 10;
    }
    set.stage()
}

// Which of the buffer's samples is the first of a stage whose icon, or a later one, is shown once they are
// filled. Shorter fills find it, so the buffer is filled anew behind them.
pub fn first_sample(set: Set, stage: u8, samples: &mut [f32]) -> Result<usize, Refusal>
    ensures first_is { FirstIs set stage (length samples.old) result }
    ensures samples_after { samples.new ≡ buffer set samples.old }
{
    set.process_out(samples)?;
    let sample = search(set, stage, samples);
    let _ = set.process_out(samples);
    Ok(sample)
}

// By halving: with `low` samples the stage is not reached, with `high` samples it is.
fn search(set: Set, stage: u8, samples: &mut [f32]) -> usize
    ensures { IsFirst set stage (length samples.old) result }
{
    let mut low = 0;
    let mut high = samples.len();
    while high - low > 1 {
        let middle = low + (high - low) / 2;
        if shows(set, stage, middle, samples) {
            high = middle;
        } else {
            low = middle;
        }
    }
    high
}

// Whether a stage's icon, or a later one, is shown once `n` samples of the buffer are filled.
#[tactic(auto, unfolding(crate::specs::Icon::icon_after))]
fn shows(set: Set, stage: u8, n: usize, samples: &mut [f32]) -> bool
    requires { n ≤ length samples.old }
    ensures { result ≡ leb stage (icon_after set n) }
{
    stage <= icon_number(set.after_fill(&mut samples[..n]))
}
