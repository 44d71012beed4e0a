//! Numbers that are drawn one after the other.

ghost use Rattle.std.specs.Prelude.{◌≡◌, ◌<◌};
ghost use Rattle.trial_maker.specs.Draws.{next_number, draw};

/// By what a number is multiplied to make the next one.
const MULTIPLIER: u64 = 6364136223846793005;

/// What is then added.
const INCREMENT: u64 = 1442695040888963407;

/// A linear congruential generator: the number from which the next one is made.
#[derive(Drop)]
pub struct Draws {
    pub number: u64,
}

/// The number behind a number.
fn next_number(number: u64) -> u64
    ensures { result ≡ next_number number }
{
    number.wrapping_mul(MULTIPLIER).wrapping_add(INCREMENT)
}

impl Draws {
    /// A draw of `n`.
    pub fn draw(&mut self, n: u64) -> u64
        requires { 0 < n }
        ensures value { result ≡ (draw n self.old.number).0 }
        ensures number { self.new.number ≡ (draw n self.old.number).1 }
        ensures below { result < n }
    {
        self.number = next_number(self.number);
        (self.number >> 33) % n
    }
}
