//! A list of numbers that is taken from its front.
ghost use Rattle.std.specs.Prelude.{◌≡◌, [], ◌∷◌, MatchOption};

use std::marker::Model;

/// A list that is taken from its front.
#[derive(Drop)]
pub struct Queue {
    words: Vec<u64>,
    next: usize,
}

impl Model for Queue {
    ghost use Rattle.std.specs.Prelude.{ℕ, List, drop};

    ghost Value = { List ℕ };

    ghost view = { λ q. drop q.next q.words.items };
}

impl Queue {
    /// The numbers of a list.
    pub fn new(words: Vec<u64>) -> Self
        ensures { result ≡ words.items }
    {
        Queue { words, next: 0 }
    }

    /// Takes the first word.
    pub fn take(&mut self) -> Option<u64>
        ensures { MatchOption result ((self.old ≡ []) × (self.new ≡ [])) (λ w. self.old ≡ w ∷ self.new) }
    {
        if self.next < self.words.len() {
            let word = self.words[self.next];
            self.next += 1;
            Some(word)
        } else {
            None
        }
    }
}
