//! How much the calling thread works alone before threads are started.

/// The time that it takes to start the threads of a search, in nanoseconds.
const START: u64 = 250_000;

/// How many numbers the calling thread handles alone, if each takes about `cost` nanoseconds.
pub fn numbers_alone(cost: u64) -> u64 {
    START / cost.max(1)
}
