ghost use Rattle.class_tables.specs.Kept.{rows_of};
ghost use Rattle.class_settled.specs.Answers.{Settled};

use class_tables::SearchingTable;

/// Up to 64 rows, with the answer of find del for every number that a row can have.
// The answers stand beside the rows and not in them: the rows are another table's own. No `Model`: it would hide what is so of them.
#[derive(Debug, Drop)]
pub struct SettledTable {
    pub(crate) rows: SearchingTable,
    pub(crate) answers: [u32; 64],
    ghost settled: { Settled (rows_of rows) answers },
}
