ghost use Rattle.std.specs.Prelude.{◌≡◌};

use crate::types::ClassRow;
use classes::Entries;

impl From<&ClassRow> for Entries {
    ghost use Rattle.classes.specs.Entries.{entries_of};
    ghost use Rattle.class_tables.specs.Kept.{class_of};

    ghost from_gives = { λ row entries. entries ≡ entries_of (class_of row.now) };

    fn from(row: &ClassRow) -> Entries {
        Entries {
            members: row.members,
            dictionary: row.dictionary,
            weak: row.weak,
            immutable: row.immutable,
            del: row.del,
            ancestor_count: row.ancestors.len(),
        }
    }
}
