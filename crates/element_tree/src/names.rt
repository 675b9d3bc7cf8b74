ghost use Rattle.std.specs.Prelude.{◌≡◌, List, [], ◌∷◌, length, is_ok, if◌then◌else◌, MatchOption};

use preorder::NoMemory;
use std::alloc::Global;
use std::marker::Model;

// The names of the open elements, of which the innermost is taken first.
#[derive(Drop)]
pub struct Names<'a> {
    names: Vec<&'a [u8]>,
}

impl<'a> Model for Names<'a> {
    ghost use Rattle.std.specs.Prelude.{ℕ, List, map, reverse};

    ghost Value = { List (List ℕ) };

    ghost view = { λ s. reverse (map (λ n. n.now) s.names.items) };
}

impl<'a> Names<'a> {
    pub fn new(alloc: Global) -> Names<'a>
        ensures { result ≡ [] }
    {
        Names {
            names: Vec::new(alloc),
        }
    }

    pub fn len(&self) -> usize
        ensures { result ≡ length self.now }
    {
        self.names.len()
    }

    pub fn push(&mut self, name: &'a [u8]) -> Result<(), NoMemory>
        ensures { self.new ≡ (if is_ok result then name.now ∷ self.old else self.old) }
    {
        self.names.push(name)?;
        Ok(())
    }

    pub fn pop(&mut self) -> Option<&'a [u8]>
        ensures { MatchOption result ((self.old ≡ []) × (self.new ≡ []))
            (λ n. self.old ≡ n.now ∷ self.new) }
    {
        self.names.pop()
    }
}
