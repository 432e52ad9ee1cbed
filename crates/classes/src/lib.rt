//! Class tables, by their meaning.
#![tactic(auto)]

ghost use Rattle.std.specs.Prelude.{◌≡◌, List, length, slice_index};
ghost use Rattle.classes.specs.Entries.{entries_of};
ghost use Rattle.classes.specs.Rows.{Class, class_at, find_del, set_del, after_set_del};

use refusal::Fault;

mod entries;
mod good;

pub use entries::Entries;
pub use good::{good_rows, is_known};

/// Rows of classes, numbered from 1. A class that is the number of no row reads 0 and false throughout.
pub trait ClassTable {
    ghost rows: { Self → List Class };

    /// The number of the last row.
    fn last(&self) -> u32
        ensures { result ≡ length (rows self.now) };

    /// The entries of the class's row.
    fn entries(&self, class: u32) -> Entries
        ensures { result ≡ entries_of (class_at (rows self.now) class) };

    /// The ancestor at a position; 0 behind the last.
    // No `Option` here and in `find_del`: by the rules 0 is no class.
    fn ancestor(&self, class: u32, position: usize) -> u32
        ensures { result ≡ slice_index (class_at (rows self.now) class).ancestors position };

    /// The class whose del objects of the class run: itself, or its first ancestor that has one, or 0, which is no class.
    fn find_del(&mut self, class: u32) -> u32
        ensures value { result ≡ find_del (rows self.old) class }
        ensures same { rows self.new ≡ rows self.old };

    /// Says whether the class has a del of its own. Refuses a class that is the number of no row, and an immutable one.
    fn set_del(&mut self, class: u32, del: bool) -> Result<(), Fault>
        ensures reply { result ≡ set_del (rows self.old) class }
        ensures after { rows self.new ≡ after_set_del (rows self.old) class del };

    /// How many slots objects of the class have.
    fn members(&self, class: u32) -> u32
        ensures { result ≡ (class_at (rows self.now) class).members }
    {
        self.entries(class).members
    }

    /// Whether its objects have a dictionary.
    fn has_dictionary(&self, class: u32) -> bool
        ensures { result ≡ (class_at (rows self.now) class).dictionary }
    {
        self.entries(class).dictionary
    }

    fn is_weak(&self, class: u32) -> bool
        ensures { result ≡ (class_at (rows self.now) class).weak }
    {
        self.entries(class).weak
    }

    fn is_immutable(&self, class: u32) -> bool
        ensures { result ≡ (class_at (rows self.now) class).immutable }
    {
        self.entries(class).immutable
    }

    /// Whether the class has a del of its own.
    fn has_del(&self, class: u32) -> bool
        ensures { result ≡ (class_at (rows self.now) class).del }
    {
        self.entries(class).del
    }

    fn ancestor_count(&self, class: u32) -> usize
        ensures { result ≡ length (class_at (rows self.now) class).ancestors }
    {
        self.entries(class).ancestor_count
    }
}
