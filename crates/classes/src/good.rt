ghost use Rattle.std.specs.Prelude.{◌≡◌, length};
ghost use Rattle.classes.specs.Rows.{class_at, known, all_known, good_row, plain_weak, good_rows};

use crate::{ClassTable, Entries};

/// Whether the class is the number of a row.
// This and what follows are no methods of the trait: no table has a better way to look at its rows.
pub fn is_known<T: ClassTable>(table: &T, class: u32) -> bool
    ensures { result ≡ known (T.rows table.now) class }
{
    class != 0 && class <= table.last()
}

/// Whether each ancestor of the class is the number of a row.
fn knows_ancestors<T: ClassTable>(table: &T, class: u32) -> bool
    ensures { result ≡ all_known (T.rows table.now) (class_at (T.rows table.now) class).ancestors }
{
    let count = table.ancestor_count(class);
    (0..count).all(|position| is_known(table, table.ancestor(class, position)))
}

fn is_good<T: ClassTable>(table: &T, class: u32) -> bool
    ensures { result ≡ good_row (T.rows table.now) (class_at (T.rows table.now) class) }
{
    table.members(class) <= 8 && table.ancestor_count(class) <= 8 && knows_ancestors(table, class)
}

/// Whether the class is that of plain weak references.
fn is_plain_weak<T: ClassTable>(table: &T, class: u32) -> bool
    ensures { result ≡ plain_weak (class_at (T.rows table.now) class) }
{
    let plain_weak = Entries {
        weak: true,
        immutable: true,
        ..Entries::default()
    };
    table.entries(class) == plain_weak
}

/// Whether a core can be opened over the table.
pub fn good_rows<T: ClassTable>(table: &T) -> bool
    ensures { result ≡ good_rows (T.rows table.now) }
{
    let last = table.last();
    last != 0 && is_plain_weak(table, 1) && (0..last).all(|i| is_good(table, i + 1))
}
