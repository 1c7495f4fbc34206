//! The generation of each number.

ghost use Rattle.std.specs.Prelude.{◌≡◌, ◌≢◌, ◌<◌, ℕ, IfOk, length};
ghost use Rattle.model.specs.Generations.{GivesAll, next_generation};
ghost use Rattle.handles.specs.Handles.{generation_in};

use std::alloc::{AllocError, Global};

/// The generations: a number's own count and the count that all share are its generation together,
/// up to the greatest one.
#[derive(Drop)]
pub(crate) struct Generations {
    /// How often each number was given to a new object.
    given: Vec<u32>,
    /// How often a snapshot was restored, which may have given each number anew.
    restored: u32,
}

impl Generations {
    /// So many numbers, each of generation 0.
    pub(crate) fn new(alloc: Global, numbers: u32) -> Result<Generations, AllocError>
        ensures numbers { IfOk result (λ g. length g.given.items ≡ numbers) }
        ensures none { IfOk result (λ g. (n : ℕ) → generation_in g n ≡ 0) }
    {
        let given = vec![in alloc; 0u32; numbers as usize]?;
        Ok(Generations { given, restored: 0 })
    }

    /// A number's generation.
    pub(crate) fn of(&self, number: u32) -> u32
        ensures { result ≡ generation_in self.now number }
    {
        let given = match self.given.get(number as usize) {
            Some(given) => *given,
            None => 0,
        };
        given.saturating_add(self.restored)
    }

    /// A number is given to a new object: it gets its next generation, as far as it has a count.
    pub(crate) fn give(&mut self, number: u32)
        ensures numbers { length self.new.given.items ≡ length self.old.given.items }
        ensures next { number < length self.old.given.items → generation_in self.new number
            ≡ next_generation (generation_in self.old number) }
        ensures others { (n : ℕ) → n ≢ number
            → generation_in self.new n ≡ generation_in self.old n }
    {
        if let Some(given) = self.given.get_mut(number as usize) {
            *given = given.saturating_add(1);
        }
    }

    /// Each number may have got another object: it gets its next generation.
    pub(crate) fn give_all(&mut self)
        ensures numbers { length self.new.given.items ≡ length self.old.given.items }
        ensures next { GivesAll (generation_in self.old) (generation_in self.new) }
    {
        self.restored = self.restored.saturating_add(1);
    }
}
