//! The generator of numbers.

ghost use Rattle.std.specs.Prelude.{◌≡◌, IfOk};
ghost use Rattle.flow_demo.specs.Draws.{drawn, next_state, first_draws};

use std::alloc::{AllocError, Global};
use std::marker::Model;

/// A linear congruential generator. Contracts see its state.
#[derive(Debug, Drop)]
pub(crate) struct Draws {
    state: u64,
}

impl Model for Draws {
    ghost use Rattle.std.specs.Prelude.{ℕ};

    ghost Value = { ℕ };

    ghost view = { λ d. d.state };
}

impl Draws {
    /// The generator whose first state is a number.
    pub(crate) fn new(seed: u32) -> Draws
        ensures { result ≡ seed }
    {
        Draws {
            state: u64::from(seed),
        }
    }

    /// The next draw, of 31 bits.
    #[tactic(auto, unfolding(crate::specs::Draws::next_state))]
    pub(crate) fn draw(&mut self) -> u32
        ensures state { self.new ≡ next_state self.old }
        ensures drawn { result ≡ drawn self.new }
    {
        self.state = self
            .state
            .wrapping_mul(6364136223846793005)
            .wrapping_add(1442695040888963407);
        (self.state >> 33) as u32
    }
}

/// The first draws of a seed, so many, each of 31 bits.
pub fn first_draws(alloc: Global, seed: u32, count: usize) -> Result<Vec<u32>, AllocError>
    ensures { IfOk result (λ draws. draws.items ≡ first_draws seed count) }
{
    let mut generator = Draws::new(seed);
    let mut draws = Vec::new(alloc);
    for _ in 0..count {
        draws.push(generator.draw())?;
    }
    Ok(draws)
}
