//! Where a place may stand.

/// For how many places hints are made at once.
pub const PLACES_AT_ONCE: usize = 16;

/// How many bits of a path a step has.
const STEP_BITS: u32 = 5;

/// A step, or the last one of a path.
const STEP_MASK: u64 = 31;

/// How many steps a path has at most.
pub const STEPS: u32 = 12;

/// A guess where a place stands in an index, so that it needn't be searched again. The index looks whether it stands
/// there, and searches where it doesn't. So a hint may be wrong, or older than a change of the index: then it costs
/// time, and no answer depends on it. What it says is the index's own.
#[derive(Clone, Copy, Debug)]
pub struct Hint {
    // A tree's way from the root, five bits for each child, the root's first; the index in the leaf is the last one.
    path: u64,
}

impl Hint {
    /// One that says nothing.
    pub fn none() -> Hint {
        Hint { path: u64::MAX }
    }

    /// The one that begins with the step, and goes on by the others after it. Of more than twelve the last are lost.
    pub fn step_then(step: usize, others: Hint) -> Hint {
        Hint {
            path: others.path << STEP_BITS | (step as u64) & STEP_MASK,
        }
    }

    /// This one with another step after so many. From the twelfth on it stays as it is.
    pub fn with_step(self, depth: u32, step: usize) -> Hint {
        if depth >= STEPS {
            return self;
        }
        let shift = depth * STEP_BITS;
        Hint {
            path: self.path & !(STEP_MASK << shift) | ((step as u64) & STEP_MASK) << shift,
        }
    }

    /// Its first step.
    pub fn first(self) -> usize {
        (self.path & STEP_MASK) as usize
    }

    /// What follows its first step.
    pub fn rest(self) -> Hint {
        Hint {
            path: self.path >> STEP_BITS,
        }
    }
}
