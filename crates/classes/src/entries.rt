/// What is read of a class, but for the ancestors themselves.
// Not one type with a table's own rows: those have ancestors, and this counts them.
#[derive(Clone, Copy, Debug, Default, PartialEq, Eq)]
pub struct Entries {
    /// How many slots objects of the class have.
    pub members: u32,
    /// Whether they have a dictionary.
    pub dictionary: bool,
    pub weak: bool,
    pub immutable: bool,
    /// Whether the class has a del of its own.
    pub del: bool,
    /// How many ancestors it has.
    pub ancestor_count: usize,
}
