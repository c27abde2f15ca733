//! Names and numbers that are looked up by value, in the order in which they were added.
ghost use Rattle.std.specs.Prelude.{◌≡◌, ◌<◌, ◌==◌, ◌++◌, ◌∷◌, [], None, ℕ, List, IfOk, IfSome};
ghost use Rattle.std.specs.Prelude.{OnOk, OnErr, length, map, not, if◌then◌else◌};
ghost use Rattle.std.specs.List.{list_any};
ghost use Rattle.fab_config.specs.Names.{place};

use fab_base::NoMemory;
use indexmap::IndexSet;
use std::alloc::Global;
use std::marker::Model;

/// Distinct names, in the order of insertion.
pub(crate) struct NameIndex {
    names: IndexSet<Vec<u8>>,
}

impl Drop for NameIndex {
    // By hand, so that it is dropped by one call.
    fn drop(self) {
        let NameIndex { names: _names } = self;
    }
}

impl Model for NameIndex {
    ghost Value = { List (List ℕ) };

    ghost view = { λ i. map (λ n. n.items) i.names.keys };
}

impl NameIndex {
    pub(crate) fn new(alloc: Global) -> NameIndex
        ensures { result ≡ [] }
    {
        NameIndex {
            names: IndexSet::new(alloc),
        }
    }

    /// The place of a name.
    pub(crate) fn place(&self, name: &[u8]) -> Option<usize>
        ensures value { result ≡ place name.now self.now }
        ensures range { IfSome result (λ p. p < length self.now) }
    {
        self.names.get_index_of(name)
    }

    /// Appends a name that isn't there.
    pub(crate) fn push(&mut self, alloc: Global, name: &[u8]) -> Result<(), NoMemory>
        requires { place name.now self.old ≡ None }
        ensures ok { OnOk result (self.new ≡ self.old ++ name.now ∷ []) }
        ensures err { OnErr result (self.new ≡ self.old) }
    {
        self.names.insert(name.to_vec(alloc)?)?;
        Ok(())
    }
}

/// Distinct numbers, in the order of insertion.
pub(crate) struct NumberIndex {
    numbers: IndexSet<u64>,
}

impl Drop for NumberIndex {
    // By hand, so that it is dropped by one call.
    fn drop(self) {
        let NumberIndex { numbers: _numbers } = self;
    }
}

impl Model for NumberIndex {
    ghost Value = { List ℕ };

    ghost view = { λ i. i.numbers.keys };
}

impl NumberIndex {
    pub(crate) fn new(alloc: Global) -> NumberIndex
        ensures { result ≡ [] }
    {
        NumberIndex {
            numbers: IndexSet::new(alloc),
        }
    }

    /// Appends a number unless it is there, and says whether it is new.
    pub(crate) fn add(&mut self, number: u64) -> Result<bool, NoMemory>
        ensures fresh { IfOk result (λ fresh. fresh ≡ not (list_any (λ y. number == y) self.old)) }
        ensures added { IfOk result (λ fresh. self.new
            ≡ (if fresh then self.old ++ number ∷ [] else self.old)) }
    {
        Ok(self.numbers.insert(number)?)
    }
}
