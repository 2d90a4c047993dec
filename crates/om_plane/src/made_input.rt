//! A large input that a number determines, and its summary.

ghost use Rattle.std.specs.Prelude.{◌≤◌, IfOk};
ghost use Rattle.om_plane.specs.MadeInputs.{IsMade};

use om_make::{summary, vectors};
use om_reply::Answer;
use om_signs::{MAX_DRAWN, MIN_DRAWN, NoMemory};
use std::alloc::Global;
use std::thread::Threads;

/// The `count` vectors that a number determines, and the counts of their summary. `count` is from [`MIN_DRAWN`] to
/// [`MAX_DRAWN`].
pub fn make_input<R: Threads + Sync>(
    rt: &R,
    alloc: Global,
    seed: u32,
    count: u8,
) -> Result<Answer, NoMemory>
    requires low { MIN_DRAWN ≤ count }
    requires high { count ≤ MAX_DRAWN }
    ensures { IfOk result (IsMade seed count) }
{
    let made = vectors(seed, count);
    let tally = summary(rt, alloc, &made)?;
    Ok(Answer::Made {
        vectors: made,
        tally,
    })
}
