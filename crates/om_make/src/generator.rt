ghost use Rattle.std.specs.Prelude.{◌≡◌, ◌+◌, ◌≤◌, unsigned_abs};
ghost use Rattle.om_make.specs.Generator.{following, draw_of, nth_state, vector_drawn_from};

use om_vectors::Vector;

/// The factor by which a state is multiplied.
const MULTIPLIER: u64 = 69_069;

/// The number of states.
const STATES: u64 = 1 << 32;

/// The number by which a draw divides a state, so that it ignores the low 16 bits, which repeat after few steps.
const DROPPED: u32 = 1 << 16;

/// The number of different draws.
const CHOICES: u32 = 19;

/// The greatest draw; the least is its negative.
const GREATEST: i64 = 9;

/// A generator of numbers, given by its state. The next state is 69,069 times the state, plus 1, modulo 2^32.
#[derive(Drop)]
pub struct Generator {
    pub state: u32,
}

impl Generator {
    /// The next draw, from -9 to 9: the next state without its low 16 bits, modulo 19, minus 9.
    fn draw(&mut self) -> i64
        ensures state { self.new.state ≡ following self.old.state }
        ensures value { result ≡ draw_of self.new.state }
        ensures size { unsigned_abs result ≤ unsigned_abs GREATEST }
    {
        self.state = ((MULTIPLIER * u64::from(self.state) + 1) % STATES) as u32;
        i64::from(self.state / DROPPED % CHOICES) - GREATEST
    }

    /// The vector of the next three draws.
    pub fn vector(&mut self) -> Vector
        ensures state { self.new.state ≡ nth_state self.old.state 3 }
        ensures value { result ≡ vector_drawn_from self.old.state }
    {
        let x = self.draw();
        let y = self.draw();
        let z = self.draw();
        Vector::new(x, y, z).unwrap()
    }
}
