//! A database that is made a book, or opened as one.
ghost use Rattle.std.specs.Prelude.{◌≡◌, [], Bool, IfOk, IfSome, IsTrue, List, OnOk, Some, ℕ, pos};
ghost use Rattle.sqlite.specs.declared.types.Value.TheVariants.{Int, Text};
ghost use Rattle.sqlite.specs.Order.{column};
ghost use Rattle.sqlite.specs.State.{HasCleanDisk};
ghost use Rattle.sqlite.specs.Held.{Held, state};
ghost use Rattle.rp_book.specs.Act.{act_of};
ghost use Rattle.rp_book.specs.Kept.{RecoversOnly, MayRecover};
ghost use Rattle.rp_disk_book.specs.Kept.{IsKept, contents_of};
ghost use Rattle.rp_disk_book.specs.Disk.{RecoverableFromDatabase, HasRead, IsBookUntil, GainsRow, ShowsAct};

use crate::book::DiskBook;
use crate::contents::{Contents, MOST_BYTES};
use rp_book::{Act, has_end, line_numbers};
use rp_book_schema::{create, has_entries, is_book, is_empty, select};
use sqlite::types::ValueRef;
use sqlite::{Alter, Connection, Error, Row};
use std::alloc::{AllocError, Global};

/// Why a connection is no book.
#[derive(Clone, Copy)]
pub enum OpenFault {
    /// The database has another schema, without a table `entry`, or its entries are none of a book.
    NoBook,
    /// The database has a table `entry`, and another schema.
    Layout,
    /// The database that is to be made a book has tables already.
    Taken,
    /// SQLite refused.
    Sqlite(Error),
}

impl From<Error> for OpenFault {
    fn from(error: Error) -> Self {
        match error {
            Error::SqliteFailure(_) => OpenFault::Sqlite(error),
            _ => OpenFault::NoBook,
        }
    }
}

impl From<AllocError> for OpenFault {
    fn from(error: AllocError) -> Self {
        OpenFault::Sqlite(Error::from(error))
    }
}

/// Returns the lines of an entry.
fn lines_of(row: &Row) -> Option<&[u8]>
    ensures { IfSome result (λ lines. column row.now 6 ≡ Text lines.now) }
{
    match row.get_ref(6) {
        Ok(ValueRef::Text(lines)) => Some(lines),
        _ => None,
    }
}

/// Refuses an entry that does not show the number in a column.
fn expect_number(row: &Row, place: usize, number: u32) -> Result<(), OpenFault>
    ensures { OnOk result (column row.now place ≡ Int (pos number)) }
{
    let found: u32 = row.get(place)?;
    if found != number {
        return Err(OpenFault::NoBook);
    }
    Ok(())
}

/// Returns the act of an entry with the number, whose lines have these numbers and this end.
fn act_of(row: &Row, number: u32, first: u32, last: u32, end: usize) -> Result<Act, OpenFault>
    ensures shows { IfOk result (λ act. ShowsAct number row.now (act_of act)) }
    ensures first { IfOk result (λ act. act.first ≡ first) }
    ensures last { IfOk result (λ act. act.last ≡ last) }
    ensures end { IfOk result (λ act. act.end ≡ end) }
{
    expect_number(row, 0, number)?;
    expect_number(row, 1, first)?;
    expect_number(row, 2, last)?;
    let added = row.get(3)?;
    let who = row.get(4)?;
    let deed = row.get(5)?;
    Ok(Act {
        first,
        last,
        end,
        added,
        who,
        deed,
    })
}

/// Takes an entry: its number is the next one, its lines have their ends, and it has their numbers.
fn push_entry(row: &Row, contents: &mut Contents) -> Result<(), OpenFault>
    requires { IsKept (contents_of contents.old) }
    ensures kept { OnOk result (IsKept (contents_of contents.new)) }
    ensures gained { OnOk result (GainsRow row.now (contents_of contents.old) (contents_of contents.new)) }
{
    let Some(lines) = lines_of(row) else {
        return Err(OpenFault::NoBook);
    };
    if !has_end(lines) || lines.len() > MOST_BYTES - contents.script.len() {
        return Err(OpenFault::NoBook);
    }
    let (first, last) = line_numbers(&contents.script, contents.lines, lines);
    let end = contents.script.len() + lines.len();
    let number = contents.next_number();
    contents.reserve(lines)?;
    let act = act_of(row, number, first, last, end)?;
    contents.push(act, lines);
    Ok(())
}

/// Returns what a book with these entries has in memory.
fn read_entries(alloc: Global, rows: &[Row]) -> Result<Contents, OpenFault>
    ensures kept { IfOk result (λ contents. IsKept (contents_of contents)) }
    ensures read { IfOk result (λ contents. HasRead rows.now [] (contents_of contents)) }
{
    let mut contents = Contents::new(alloc);
    for row in rows {
        push_entry(row, &mut contents)?;
    }
    Ok(contents)
}

impl<S: Alter + Drop> DiskBook<S> {
    /// Makes an empty database a book. As long as the disk returned what was written, the next one who opens the
    /// database finds a book without lines and no other.
    pub fn create(alloc: Global, mut conn: Connection<S>) -> Result<DiskBook<S>, OpenFault>
        ensures empty { IfOk result (λ book. (book.script ≡ []) × (book.faults ≡ 0)) }
        ensures acts { IfOk result (λ book. book.acts ≡ []) }
        ensures only { IfOk result (λ book. RecoversOnly (RecoverableFromDatabase (state S.Store book.conn)) (Some book.script)) }
        ensures leaves { IfOk result (λ book. HasCleanDisk (state S.Store book.conn) → MayRecover (RecoverableFromDatabase (state S.Store book.conn)) (Some book.script)) }
    {
        if !is_empty(conn.schema()) || !conn.is_autocommit() {
            return Err(OpenFault::Taken);
        }
        create(&mut conn)?;
        Ok(DiskBook {
            conn,
            contents: Contents::new(alloc),
            faults: 0,
        })
    }

    /// Reads the script of a database that is a book. Where the database is one that a crash could leave of a book that
    /// was open before, the script is one of those that this book said the next open may find. As long as the disk
    /// returned what was written, the next one who opens the database finds this script and no other.
    pub fn open(alloc: Global, mut conn: Connection<S>) -> Result<DiskBook<S>, OpenFault>
        ensures sound { IfOk result (λ book. book.faults ≡ 0) }
        ensures found { IfOk result (λ book. HasCleanDisk (state S.Store book.conn) → (before : Held S) → HasCleanDisk (state S.Store before)
            → (state S.Store before).may_leave (state S.Store conn).committed.trees
            → (test : List ℕ → Bool) → RecoverableFromDatabase (state S.Store before) test → IsTrue (test book.script)) }
        ensures only { IfOk result (λ book. RecoversOnly (RecoverableFromDatabase (state S.Store book.conn)) (Some book.script)) }
        ensures leaves { IfOk result (λ book. HasCleanDisk (state S.Store book.conn) → MayRecover (RecoverableFromDatabase (state S.Store book.conn)) (Some book.script)) }
    {
        if !is_book(conn.schema()) || !conn.is_autocommit() {
            return Err(other_fault(&conn));
        }
        let rows = select(&mut conn)?;
        let contents = read_entries(alloc, &rows)?;
        Ok(DiskBook {
            conn,
            contents,
            faults: 0,
        })
    }

    /// Returns the script. Until a write failed, and as long as the disk returns what was written, the last commit of
    /// the database holds it with its acts and nothing else.
    pub fn script(&self) -> &[u8]
        ensures value { result.now ≡ self.now.script }
        ensures held { IsBookUntil self.now.faults (state S.Store self.now.conn) self.now.acts self.now.script }
    {
        self.contents.script.as_slice()
    }

    /// Returns the connection, for what no clause speaks of.
    pub fn into_connection(self) -> Connection<S> {
        let DiskBook {
            conn,
            contents: _,
            faults: _,
        } = self;
        conn
    }
}

/// Returns what a database is that is no book.
fn other_fault<S: Alter>(conn: &Connection<S>) -> OpenFault {
    if has_entries(conn.schema()) {
        OpenFault::Layout
    } else {
        OpenFault::NoBook
    }
}
