//! Tests of a schema.
ghost use Rattle.std.specs.Prelude.{◌≡◌, ◌↔◌, [], Any, IsTrue, codes};
ghost use Rattle.rp_book_schema.specs.Entry.{book_schema, entry_column, entry_columns, entry_table, no_schema};

use sqlite_schema::schema::{Column, Kind, Schema, Stamps, Table};
use sqlite_value::keys::Collation;
use sqlite_value::value::Value;

/// Returns whether `column` is strict, has `name`, `kind`, binary collation and no default, and is NOT NULL iff
/// `needed`.
fn is_column(column: &Column, name: &[u8], kind: Kind, needed: bool) -> bool
    ensures { IsTrue result → column.now ≡ entry_column name.now kind needed }
{
    column.name.as_slice() == name
        && column.kind == kind
        && column.is_strict
        && column.not_null == needed
        && matches!(column.default, Value::Null)
        && column.collation == Collation::Binary
}

/// Returns whether `columns` are those of the table of entries.
fn are_columns(columns: &[Column]) -> bool
    ensures { IsTrue result → columns.now ≡ entry_columns }
{
    match columns {
        [number, first, last, added, who, deed, lines] => is_column(
            number,
            b"number",
            Kind::Integer,
            false,
        ) && is_column(first, b"first", Kind::Integer, true)
            && is_column(last, b"last", Kind::Integer, true)
            && is_column(added, b"added", Kind::Text, true)
            && is_column(who, b"who", Kind::Text, false)
            && is_column(deed, b"deed", Kind::Text, false)
            && is_column(lines, b"lines", Kind::Text, true),
        _ => false,
    }
}

/// Returns whether no default of a table reads the time.
fn is_unstamped(stamps: &Stamps) -> bool
    ensures { IsTrue result → stamps.now ≡ record { places = []; terms = []; formats = [] } }
{
    stamps.places.is_empty() && stamps.terms.roots.is_empty() && stamps.formats.is_empty()
}

/// Returns whether `table` is the table of entries.
fn is_entry_table(table: &Table) -> bool
    ensures { IsTrue result → table.now ≡ entry_table }
{
    table.name.as_slice() == b"entry".as_slice()
        && table.tree == 0
        && are_columns(table.columns.as_slice())
        && table.key == Some(0)
        && table.primary.as_slice() == [0].as_slice()
        && table.uniques.is_empty()
        && table.orders.is_empty()
        && table.checks.roots.is_empty()
        && table.references.is_empty()
        && table.computed.is_empty()
        && is_unstamped(&table.stamps)
        && !table.is_counted
}

/// Returns whether `schema` is that of a book.
pub fn is_book(schema: &Schema) -> bool
    ensures { IsTrue result → schema.now ≡ book_schema }
{
    match schema.tables.as_slice() {
        [table] => is_entry_table(table) && schema.indexes.is_empty() && schema.views.is_empty(),
        _ => false,
    }
}

/// Returns whether `schema` is that of an empty database.
pub fn is_empty(schema: &Schema) -> bool
    ensures { IsTrue result → schema.now ≡ no_schema }
{
    schema.tables.is_empty() && schema.indexes.is_empty() && schema.views.is_empty()
}

/// Returns whether `schema` has a table of entries, of any layout.
pub fn has_entries(schema: &Schema) -> bool
    ensures { IsTrue result ↔ Any (λ table. table.name ≡ codes "entry") schema.now.tables }
{
    schema
        .tables
        .as_slice()
        .iter()
        .any(|table| table.name.as_slice() == b"entry".as_slice())
}
