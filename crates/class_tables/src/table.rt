ghost use Rattle.std.specs.Prelude.{◌≡◌, ◌≤◌, length, map, MatchOption, MatchResult};
ghost use Rattle.classes.specs.Rows.{find_del, set_del, after_set_del};
ghost use Rattle.class_tables.specs.Kept.{class_of, rows_of, Has, HasNone, Builds};

use crate::types::{ClassRow, SearchingTable};
use classes::{ClassTable, Entries};
use refusal::{Fault, Refusal};

impl SearchingTable {
    /// Refuses more than 64 rows.
    pub fn new(given: &[ClassRow]) -> Result<SearchingTable, Fault>
        ensures { Builds rows_of given.now result }
    {
        if given.len() > 64 {
            return Err(Fault {
                refusal: Refusal::BadTable,
                argument: 0,
            });
        }
        let mut rows = [ClassRow::default(); 64];
        rows[..given.len()].copy_from_slice(given);
        Ok(SearchingTable {
            rows,
            last: given.len() as u32,
        })
    }

    fn rows(&self) -> &[ClassRow]
        ensures { map class_of result.now ≡ rows_of self.now }
    {
        &self.rows[..self.last as usize]
    }

    fn row(&self, class: u32) -> Option<&ClassRow>
        ensures { MatchOption result (HasNone (rows_of self.now) class) (λ row. Has (rows_of self.now) class (class_of row.now)) }
    {
        // Tested at once: `checked_sub` and `get` alone compare once more at each call.
        if class == 0 || class > self.last {
            return None;
        }
        self.rows().get(class as usize - 1)
    }

    /// Finds the class whose del objects of a class run, and changes nothing.
    pub fn del_of(&self, class: u32) -> u32
        ensures { result ≡ find_del (rows_of self.now) class }
    {
        let Some(row) = self.row(class) else {
            return 0;
        };
        if row.del {
            return class;
        }
        row.ancestors
            .first()
            .iter()
            .find(|&&ancestor| self.has_del(ancestor))
            .copied()
            .unwrap_or(0)
    }
}

impl ClassTable for SearchingTable {
    ghost rows = { rows_of };

    fn last(&self) -> u32
        ensures last { result ≡ length (rows_of self.now) }
        ensures few { result ≤ 64 }
    {
        self.last
    }

    fn entries(&self, class: u32) -> Entries {
        self.row(class).map(Entries::from).unwrap_or_default()
    }

    fn ancestor(&self, class: u32, position: usize) -> u32 {
        self.row(class).map_or(0, |row| row.ancestors.at(position))
    }

    fn find_del(&mut self, class: u32) -> u32
        ensures value { result ≡ find_del (rows_of self.old) class }
        ensures same { self.new ≡ self.old }
    {
        self.del_of(class)
    }

    fn set_del(&mut self, class: u32, del: bool) -> Result<(), Fault>
        ensures reply { result ≡ set_del (rows_of self.old) class }
        ensures after { rows_of self.new ≡ after_set_del (rows_of self.old) class del }
        ensures refused { MatchResult result (λ _. Unit {0}) (λ _. self.new ≡ self.old) }
    {
        let Some(row) = self.row(class) else {
            return Err(Fault {
                refusal: Refusal::NoClass,
                argument: 1,
            });
        };
        if row.immutable {
            return Err(Fault {
                refusal: Refusal::FixedClass,
                argument: 1,
            });
        }
        self.rows[class as usize - 1].del = del;
        Ok(())
    }
}
