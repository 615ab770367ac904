// When each stage of a call came, by what the set showed.
use crate::play;
use set::Set;

// The set whose line is up, and how many fills it took.
#[derive(Clone, Copy)]
pub struct Up {
    pub set: Set,
    pub fills: u32,
}

// Makes the fills until the line is up, and notes the first sample of each stage at its number.
pub fn find_all(set: Set, samples: &mut [f32], firsts: &mut [u32]) -> Up {
    let mut s = set;
    // A proved loop has to end: no overture takes as many fills as this one allows.
    for fill in 0..u32::MAX {
        if !play::is_dialling(s) {
            return Up {
                set: s,
                fills: fill,
            };
        }
        s = find_in(s, play::length(fill), samples, firsts);
    }
    Up {
        set: s,
        fills: u32::MAX,
    }
}

// An empty fill shows the stage of the sample after it, so what is searched is one sample at least.
fn find_in(set: Set, n: usize, samples: &mut [f32], firsts: &mut [u32]) -> Set {
    let some = n.max(1);
    if some > samples.len() {
        return set;
    }
    let next = set.after_fill(&mut samples[..n]);
    note(
        set,
        edges::icon(set).unwrap_or(0),
        edges::icon(next).unwrap_or(0),
        &mut samples[..some],
        firsts,
    );
    next
}

// Notes the stages that a fill reached.
fn note(set: Set, before: u8, after: u8, samples: &mut [f32], firsts: &mut [u32]) {
    for passed in before..after {
        let stage = passed + 1;
        let found = edges::first_sample(set, stage, samples).unwrap_or(0);
        let first = set.m().wrapping_add(play::at_most(found, u32::MAX));
        if let Some(noted) = firsts.get_mut(usize::from(stage)) {
            *noted = first;
        }
    }
}
