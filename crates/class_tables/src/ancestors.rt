ghost use Rattle.std.specs.Prelude.{◌≡◌, ◌↔◌, [], IsTrue, ◌-◌, ◌≤◌, min, ◌++◌, length, replicate, slice_index};
ghost use Rattle.class_tables.specs.Kept.{first_eight};
ghost use Rattle.class_tables.specs.Ancestors.{ancestors_of};

use crate::types::Ancestors;

impl Default for Ancestors {
    ghost is_default = { λ none. ancestors_of none ≡ [] };

    fn default() -> Ancestors {
        Ancestors {
            count: 0,
            first: [0; 8],
        }
    }
}

impl Ancestors {
    pub fn new(given: &[u32]) -> Ancestors
        ensures { ancestors_of result ≡ first_eight given.now }
    {
        let kept = given.len().min(8);
        let mut first = [0; 8];
        first[..kept].copy_from_slice(&given[..kept]);
        Ancestors {
            count: given.len(),
            first,
        }
    }

    pub fn len(&self) -> usize
        ensures { result ≡ length (ancestors_of self.now) }
    {
        self.count
    }

    pub fn is_empty(&self) -> bool
        ensures { IsTrue result ↔ (ancestors_of self.now ≡ []) }
    {
        self.len() == 0
    }

    /// The ancestor at a position; 0 behind the last.
    // No `Option`: by the rules 0 is no class.
    pub fn at(&self, position: usize) -> u32
        ensures value { result ≡ slice_index (ancestors_of self.now) position }
        ensures beyond { 8 ≤ position → result ≡ 0 }
    {
        self.first.get(position).copied().unwrap_or(0)
    }

    /// How many it keeps.
    pub fn kept(&self) -> usize
        ensures { result ≡ min (length (ancestors_of self.now)) 8 }
    {
        self.len().min(8)
    }

    /// Those that it keeps.
    pub(crate) fn first(&self) -> &[u32]
        ensures { ancestors_of self.now ≡ result.now ++ replicate (length (ancestors_of self.now) - 8) 0 }
    {
        &self.first[..self.kept()]
    }
}
