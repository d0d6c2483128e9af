#![tactic(auto)]
//! The table of a book in an SQLite database, and the statements on it, each in a function of its own.
//!
//! The table `entry` has a row for each time that lines were added. Its columns are:
//!
//! * the number of the entry, and the numbers of its first and last line as the report echoes them;
//! * the time, who added the lines and under which deed, if given;
//! * the lines, each with its line end.
ghost use Rattle.std.specs.Prelude.{◌≡◌, ◌≤◌, OnOk, OnErr, IfOk, option_map};
ghost use Rattle.sqlite.specs.Values.{bound};
ghost use Rattle.sqlite.specs.State.{HasCleanDisk, IsUnchanged, Survives};
ghost use Rattle.sqlite_trees.specs.View.{doubt};
ghost use Rattle.sqlite.specs.Held.{state};
ghost use Rattle.rp_book_schema.specs.Entry.{AddsEntry, Fields, GainsEntry, LeavesCommit, ListsEntries, MakesTable, book_schema, entries_in, entry_values, fields_of, no_schema};

mod schema;

pub use schema::{has_entries, is_book, is_empty};
use sqlite::types::{ToSql, ValueRef};
use sqlite::{Alter, Connection, Error, Row};

/// Creates the table `entry` in an empty database.
pub fn create<S: Alter>(conn: &mut Connection<S>) -> Result<usize, Error>
    ensures makes { HasCleanDisk (state S.Store conn.new) → (state S.Store conn.old).now.schema ≡ no_schema
        → OnOk result (MakesTable (state S.Store conn.old) (state S.Store conn.new)) }
{
    conn.execute(
        "CREATE TABLE entry (number INTEGER PRIMARY KEY, first INTEGER NOT NULL, last INTEGER NOT NULL, added TEXT NOT NULL, who TEXT, deed TEXT, lines TEXT NOT NULL) STRICT",
        &[],
    )
}

/// Adds an entry with the given values of its columns.
fn insert_values<S: Alter>(
    conn: &mut Connection<S>,
    values: [ValueRef<'_>; 7],
) -> Result<usize, Error>
    ensures adds { HasCleanDisk (state S.Store conn.new) → (state S.Store conn.old).now.schema ≡ book_schema → (entry : Fields)
        → bound values.entry ≡ entry_values entry → OnOk result (AddsEntry (state S.Store conn.old) (state S.Store conn.new) entry) }
    ensures clean { doubt (state S.Store conn.old).is_clean ≤ doubt (state S.Store conn.new).is_clean }
    ensures fails { HasCleanDisk (state S.Store conn.new) → OnErr result (LeavesCommit (state S.Store conn.old) (state S.Store conn.new)) }
    ensures survives { (state S.Store conn.old).now.schema ≡ book_schema → (entry : Fields) → bound values.entry ≡ entry_values entry
        → Survives (state S.Store conn.old) (state S.Store conn.new) (λ db. GainsEntry (entries_in (state S.Store conn.old).now.trees) (entries_in db) entry) }
{
    conn.execute(
        "INSERT INTO entry (number, first, last, added, who, deed, lines) VALUES (?1, ?2, ?3, ?4, ?5, ?6, ?7)",
        &values,
    )
}

/// Adds the entry `number`, of the lines from `first` to `last` of the script: the time `added`, `who` added it and
/// under which `deed`, if given, and `lines`, byte for byte.
pub fn insert<'x, S: Alter>(
    conn: &mut Connection<S>,
    number: u32,
    first: u32,
    last: u32,
    added: &'x str,
    who: Option<&'x str>,
    deed: Option<&'x str>,
    lines: &'x [u8],
) -> Result<usize, Error>
    ensures adds { HasCleanDisk (state S.Store conn.new) → (state S.Store conn.old).now.schema ≡ book_schema
        → OnOk result (AddsEntry (state S.Store conn.old) (state S.Store conn.new)
        (fields_of number first last added.now (option_map (λ t. t.now) who.entry) (option_map (λ t. t.now) deed.entry) lines.now)) }
    ensures clean { doubt (state S.Store conn.old).is_clean ≤ doubt (state S.Store conn.new).is_clean }
    ensures fails { HasCleanDisk (state S.Store conn.new) → OnErr result (LeavesCommit (state S.Store conn.old) (state S.Store conn.new)) }
    ensures survives { (state S.Store conn.old).now.schema ≡ book_schema → Survives (state S.Store conn.old) (state S.Store conn.new)
        (λ db. GainsEntry (entries_in (state S.Store conn.old).now.trees) (entries_in db)
        (fields_of number first last added.now (option_map (λ t. t.now) who.entry) (option_map (λ t. t.now) deed.entry) lines.now)) }
{
    let values = [
        number.to_sql(),
        first.to_sql(),
        last.to_sql(),
        added.to_sql(),
        who.to_sql(),
        deed.to_sql(),
        ValueRef::Text(lines),
    ];
    insert_values(conn, values)
}

/// Returns the columns of all entries, in the order of their numbers.
pub fn select<S: Alter>(conn: &mut Connection<S>) -> Result<Vec<Row>, Error>
    ensures lists { HasCleanDisk (state S.Store conn.new) → (state S.Store conn.old).now.schema ≡ book_schema
        → IfOk result (λ rows. ListsEntries (entries_in (state S.Store conn.old).now.trees) rows.items) }
    ensures same { HasCleanDisk (state S.Store conn.new) → (state S.Store conn.old).now.schema ≡ book_schema
        → OnOk result (IsUnchanged (state S.Store conn.old) (state S.Store conn.new)) }
{
    conn.query_all(
        "SELECT number, first, last, added, who, deed, lines FROM entry ORDER BY number",
        &[],
    )
}
