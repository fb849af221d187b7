// How much the files have room for.

/// The entries of the catalog: one for each table, and for each dropped one that isn't cleaned away.
pub const CATALOG_ENTRIES: u32 = 32;

/// The most pages that the file of pages counts.
pub const MOST_PAGES: u32 = 30_000;
