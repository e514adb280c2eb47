//! Lists that contracts see as lists of numbers.
ghost use Rattle.std.specs.Prelude.{◌≡◌, ◌++◌, [], ◌∷◌, OnOk, OnErr};
ghost use Rattle.std.specs.Str.{bytes_eq};
ghost use Rattle.std.specs.Cmp.{partial_equiv_from_equiv};
ghost use Rattle.std.specs.Cmp.Lexicographic.{nat_list_eq_equiv};

use std::alloc::{AllocError, Global};
use std::marker::Model;
use std::mem;

/// A list of words.
#[derive(Debug, Drop)]
pub struct Words {
    items: Vec<u64>,
}

impl Model for Words {
    ghost use Rattle.std.specs.Prelude.{List, ℕ};

    ghost Value = { List ℕ };

    ghost view = { λ list. list.items.items };
}

impl Words {
    /// The empty list. It allocates nothing yet.
    pub fn new(alloc: Global) -> Self
        ensures { result ≡ [] }
    {
        Words {
            items: Vec::new(alloc),
        }
    }

    /// The list of a vector's items.
    pub fn from_vec(items: Vec<u64>) -> Self
        ensures { result ≡ items.items }
    {
        Words { items }
    }

    /// Adds a word at the end. Where memory is short, the list stays as it was.
    pub fn push(&mut self, word: u64) -> Result<(), AllocError>
        ensures ok { OnOk result (self.new ≡ self.old ++ word ∷ []) }
        ensures err { OnErr result (self.new ≡ self.old) }
    {
        self.items.push(word)?;
        Ok(())
    }

    /// The items as a slice.
    pub fn as_slice(&self) -> &[u64]
        ensures { result.now ≡ self.now }
    {
        self.items.as_slice()
    }

    /// The items as a vector. The list is left empty, and nothing is allocated.
    pub fn take(&mut self) -> Vec<u64>
        ensures items { result.items ≡ self.old }
        ensures left { self.new ≡ [] }
    {
        let alloc = *self.items.allocator();
        mem::replace(&mut self.items, Vec::new(alloc))
    }
}

impl Clone for Words {
    ghost is_clone = { λ list copy. copy ≡ list };

    fn clone(&self) -> Result<Self, AllocError> {
        Ok(Words {
            items: self.items.clone()?,
        })
    }
}

impl PartialEq for Words {
    ghost eq = { λ a b. bytes_eq a b };

    ghost laws = { partial_equiv_from_equiv nat_list_eq_equiv };

    fn eq(&self, other: &Self) -> bool {
        self.items == other.items
    }
}

impl Eq for Words {
    ghost laws = { nat_list_eq_equiv };
}

/// A list of numbers below 2^128.
#[derive(Debug, Drop)]
pub struct Numbers {
    items: Vec<u128>,
}

impl Model for Numbers {
    ghost use Rattle.std.specs.Prelude.{List, ℕ};

    ghost Value = { List ℕ };

    ghost view = { λ list. list.items.items };
}

impl Numbers {
    /// The empty list. It allocates nothing yet.
    pub fn new(alloc: Global) -> Self
        ensures { result ≡ [] }
    {
        Numbers {
            items: Vec::new(alloc),
        }
    }

    /// The list of a vector's items.
    pub fn from_vec(items: Vec<u128>) -> Self
        ensures { result ≡ items.items }
    {
        Numbers { items }
    }

    /// Adds a number at the end. Where memory is short, the list stays as it was.
    pub fn push(&mut self, number: u128) -> Result<(), AllocError>
        ensures ok { OnOk result (self.new ≡ self.old ++ number ∷ []) }
        ensures err { OnErr result (self.new ≡ self.old) }
    {
        self.items.push(number)?;
        Ok(())
    }

    /// The items as a slice.
    pub fn as_slice(&self) -> &[u128]
        ensures { result.now ≡ self.now }
    {
        self.items.as_slice()
    }

    /// The items as a vector. The list is left empty, and nothing is allocated.
    pub fn take(&mut self) -> Vec<u128>
        ensures items { result.items ≡ self.old }
        ensures left { self.new ≡ [] }
    {
        let alloc = *self.items.allocator();
        mem::replace(&mut self.items, Vec::new(alloc))
    }
}

impl Clone for Numbers {
    ghost is_clone = { λ list copy. copy ≡ list };

    fn clone(&self) -> Result<Self, AllocError> {
        Ok(Numbers {
            items: self.items.clone()?,
        })
    }
}

impl PartialEq for Numbers {
    ghost eq = { λ a b. bytes_eq a b };

    ghost laws = { partial_equiv_from_equiv nat_list_eq_equiv };

    fn eq(&self, other: &Self) -> bool {
        self.items == other.items
    }
}

impl Eq for Numbers {
    ghost laws = { nat_list_eq_equiv };
}

/// A list of places, as row numbers or indices.
#[derive(Debug, Drop)]
pub struct Places {
    items: Vec<u32>,
}

impl Model for Places {
    ghost use Rattle.std.specs.Prelude.{List, ℕ};

    ghost Value = { List ℕ };

    ghost view = { λ list. list.items.items };
}

impl Places {
    /// The empty list. It allocates nothing yet.
    pub fn new(alloc: Global) -> Self
        ensures { result ≡ [] }
    {
        Places {
            items: Vec::new(alloc),
        }
    }

    /// The list of a vector's items.
    pub fn from_vec(items: Vec<u32>) -> Self
        ensures { result ≡ items.items }
    {
        Places { items }
    }

    /// Adds a place at the end. Where memory is short, the list stays as it was.
    pub fn push(&mut self, place: u32) -> Result<(), AllocError>
        ensures ok { OnOk result (self.new ≡ self.old ++ place ∷ []) }
        ensures err { OnErr result (self.new ≡ self.old) }
    {
        self.items.push(place)?;
        Ok(())
    }

    /// The items as a slice.
    pub fn as_slice(&self) -> &[u32]
        ensures { result.now ≡ self.now }
    {
        self.items.as_slice()
    }
}

impl Clone for Places {
    ghost is_clone = { λ list copy. copy ≡ list };

    fn clone(&self) -> Result<Self, AllocError> {
        Ok(Places {
            items: self.items.clone()?,
        })
    }
}

impl PartialEq for Places {
    ghost eq = { λ a b. bytes_eq a b };

    ghost laws = { partial_equiv_from_equiv nat_list_eq_equiv };

    fn eq(&self, other: &Self) -> bool {
        self.items == other.items
    }
}

impl Eq for Places {
    ghost laws = { nat_list_eq_equiv };
}
