ghost use Rattle.std.specs.Prelude.{◌≡◌, ◌≤◌, length, MatchResult};
ghost use Rattle.classes.specs.Rows.{find_del, set_del, after_set_del};
ghost use Rattle.class_tables.specs.Kept.{rows_of, Builds};
ghost use Rattle.class_settled.specs.Answers.{Settled};
ghost use Rattle.class_settled.specs.Table.{settled_rows};

use crate::table::SettledTable;
use class_tables::{ClassRow, SearchingTable};
use classes::{ClassTable, Entries};
use refusal::Fault;
use std::array;

/// Works out all answers.
fn settle(rows: &SearchingTable) -> [u32; 64]
    ensures { Settled (rows_of rows.now) result }
{
    array::from_fn(|i| rows.del_of(i as u32 + 1))
}

impl SettledTable {
    /// Refuses more than 64 rows.
    pub fn new(given: &[ClassRow]) -> Result<SettledTable, Fault>
        ensures { Builds settled_rows given.now result }
    {
        let rows = SearchingTable::new(given)?;
        let answers = settle(&rows);
        Ok(SettledTable { rows, answers })
    }
}

impl ClassTable for SettledTable {
    ghost rows = { settled_rows };

    // `last`, `entries` and `ancestor` are passed on one by one: Rust has no shorter form for it.
    fn last(&self) -> u32
        ensures last { result ≡ length (settled_rows self.now) }
        ensures few { result ≤ 64 }
    {
        self.rows.last()
    }

    fn entries(&self, class: u32) -> Entries {
        self.rows.entries(class)
    }

    fn ancestor(&self, class: u32, position: usize) -> u32 {
        self.rows.ancestor(class, position)
    }

    fn find_del(&mut self, class: u32) -> u32
        ensures value { result ≡ find_del (settled_rows self.old) class }
        ensures same { self.new ≡ self.old }
    {
        // Class 0 wraps to a place that there is not.
        self.answers
            .get(class.wrapping_sub(1) as usize)
            .copied()
            .unwrap_or(0)
    }

    fn set_del(&mut self, class: u32, del: bool) -> Result<(), Fault>
        ensures reply { result ≡ set_del (settled_rows self.old) class }
        ensures after { settled_rows self.new ≡ after_set_del (settled_rows self.old) class del }
        ensures refused { MatchResult result (λ _. Unit {0}) (λ _. self.new ≡ self.old) }
    {
        self.rows.set_del(class, del)?;
        self.answers = settle(&self.rows);
        Ok(())
    }
}
