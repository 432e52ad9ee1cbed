ghost use Rattle.std.specs.Prelude.{◌≡◌, ◌≤◌, ℕ, length, slice_index};

/// The ancestors of a class, in the order in which find del tries them.
///
/// It keeps the first 8. Of those beyond it only knows how many they were, and they read 0, which is no class: a row that was given
/// more than 8 can be built, and is a bad row.
// No `ArrayVec`: it counts more than it keeps, and is copied. No `Model`: a struct that holds one is not copied when it is used twice.
#[derive(Clone, Copy, Debug, PartialEq, Eq)]
pub struct Ancestors {
    pub(crate) count: usize,
    pub(crate) first: [u32; 8],
    ghost room: { length first ≡ 8 },
    ghost blank: { (k : ℕ) → count ≤ k → slice_index first k ≡ 0 },
}

/// A row of a class table.
#[derive(Clone, Copy, Debug, Default, PartialEq, Eq)]
pub struct ClassRow {
    /// How many slots objects of the class have.
    pub members: u32,
    /// Whether they have a dictionary.
    pub dictionary: bool,
    pub weak: bool,
    pub immutable: bool,
    /// Whether the class has a del of its own.
    pub del: bool,
    pub ancestors: Ancestors,
}

/// Up to 64 rows.
// No `ArrayVec`: its statements would be trusted beside the standard library's. No `Model`: it would hide what is so of every table.
#[derive(Debug, Drop)]
pub struct SearchingTable {
    pub(crate) rows: [ClassRow; 64],
    pub(crate) last: u32,
    ghost few: { last ≤ 64 },
    ghost room: { length rows ≡ 64 },
}
