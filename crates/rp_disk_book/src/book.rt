ghost use Rattle.std.specs.Prelude.{◌≡◌, ◌≤◌, Some};
ghost use Rattle.sqlite.specs.Held.{state};
ghost use Rattle.sqlite.specs.State.{HasCleanDisk};
ghost use Rattle.rp_disk_book.specs.Disk.{RecoverableFromDatabase};

use crate::contents::Contents;
use rp_book::{Act, Book, BookFault, Entry};
use rp_book_schema::insert;
use sqlite::{Alter, Connection, Error, ErrorCode};
use std::alloc::{AllocError, Global};
use std::marker::Model;

/// A book in a database that is open. The script and its acts stand in memory too. After a failure of the disk it takes
/// no more lines.
#[derive(Drop)]
pub struct DiskBook<S: Alter> {
    pub(crate) conn: Connection<S>,
    pub(crate) contents: Contents,
    pub(crate) faults: u64,
}

impl<S: Alter> Model for DiskBook<S> {
    ghost use Rattle.std.specs.Prelude.{map};
    ghost use Rattle.sqlite.specs.Held.{state};
    ghost use Rattle.rp_book.specs.Act.{act_of};
    ghost use Rattle.rp_disk_book.specs.Kept.{IsKept, contents_of};
    ghost use Rattle.rp_disk_book.specs.Disk.{Opened, opened_code, IsBookUntil};

    ghost Value = { Opened S };

    ghost coded = { opened_code S.code };

    ghost view = { λ b. record {
      conn = b.conn;
      script = b.contents.script.items;
      acts = map act_of b.contents.acts.items;
      faults = b.faults;
    } };

    ghost invariant = { λ b. IsKept (contents_of b.contents)
        × IsBookUntil b.faults (state S.Store b.conn) (map act_of b.contents.acts.items) b.contents.script.items };
}

/// Returns why the book failed, from what SQLite says.
fn fault_of(error: Error) -> BookFault {
    match error {
        Error::SqliteFailure(ErrorCode::OutOfMemory) => BookFault::Memory(AllocError),
        Error::SqliteFailure(ErrorCode::DiskFull) => BookFault::Full,
        _ => BookFault::Disk,
    }
}

impl<S: Alter> Book for DiskBook<S> {
    ghost script = { λ b. Some b.script };

    ghost acts = { λ b. Some b.acts };

    ghost recoverable = { λ b. RecoverableFromDatabase (state S.Store b.conn) };

    ghost has_honest_disk = { λ b. HasCleanDisk (state S.Store b.conn) };

    ghost faults = { λ b. b.faults };

    fn text(&self) -> &[u8] {
        self.contents.script.as_slice()
    }

    fn acts(&self) -> &[Act] {
        self.contents.acts.as_slice()
    }

    fn add(&mut self, alloc: Global, lines: &[u8], entry: Entry<'_>) -> Result<(), BookFault> {
        if self.faults > 0 {
            self.faults = self.faults.saturating_add(1);
            return Err(BookFault::Disk);
        }
        let number = self.contents.next_number();
        let act = self.contents.prepare(alloc, lines, entry)?;
        if let Err(error) = insert(
            &mut self.conn,
            number,
            act.first,
            act.last,
            entry.added,
            entry.who,
            entry.deed,
            lines,
        ) {
            drop(act);
            self.faults = 1;
            return Err(fault_of(error));
        }
        self.contents.push(act, lines);
        Ok(())
    }
}
