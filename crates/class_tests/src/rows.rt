use class_tables::{Ancestors, ClassRow};

/// The row of plain weak references.
pub(crate) fn weak() -> ClassRow {
    ClassRow {
        weak: true,
        immutable: true,
        ..ClassRow::default()
    }
}

/// A row with these ancestors, and nothing else.
pub(crate) fn with_ancestors(ancestors: &[u32]) -> ClassRow {
    ClassRow {
        ancestors: Ancestors::new(ancestors),
        ..ClassRow::default()
    }
}

/// A row with a del of its own, and nothing else.
pub(crate) fn with_del() -> ClassRow {
    ClassRow {
        del: true,
        ..ClassRow::default()
    }
}
