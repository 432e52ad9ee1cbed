ghost use Rattle.std.specs.Prelude.{◌≡◌, ◌^◌, ◌<◌, ◌≤◌, ℕ, length, slice_index};
ghost use Rattle.std.specs.List.{All};

/// A number, and no edges.
#[derive(Clone, Copy, PartialEq, Eq, Debug)]
pub struct Note {
    pub number: u64,
}

/// One edge, which tracing does not visit.
// No `Model` here and in `Row`: the law of `Payload` would speak of any number, and it is false past 32 bits.
#[derive(Clone, Copy, PartialEq, Eq, Debug)]
pub struct Cell {
    pub(crate) edge: u32,
    ghost name: { edge < 2 ^ 32 },
}

/// Up to 8 edges, which tracing visits.
// No `ArrayVec`, which is not `Copy`. What lies beyond the width is 0, so that equal rows have equal edges.
#[derive(Clone, Copy, PartialEq, Eq, Debug)]
pub struct Row {
    pub(crate) width: u32,
    pub(crate) edges: [u32; 8],
    ghost few: { width ≤ 8 },
    ghost room: { length edges ≡ 8 },
    ghost names: { All (λ e. e < 2 ^ 32) edges },
    ghost blank: { (k : ℕ) → width ≤ k → slice_index edges k ≡ 0 },
}

/// Either of two payloads; nested, any of several.
// Not `either::Either`: this says by its name what it is, and is no reason to rest on one more crate.
#[derive(Clone, Copy, PartialEq, Eq, Debug, Drop)]
pub enum Mixed<A, B> {
    Left(A),
    Right(B),
}
