//! Why the file at a path cannot be opened as a database.

use std::alloc::{AllocError, Global};
use std::fs;
use std::io::{ErrorKind, Read};
use std::os::unix::fs::MetadataExt;

/// How an SQLite database begins.
const MAGIC: &[u8] = b"SQLite format 3\0";

/// Why the file at a path cannot be opened.
#[derive(Clone, Copy)]
pub enum PathFault {
    /// There is no such file or folder.
    Missing,
    /// The path names a folder, a device or the like.
    NoFile,
    /// The file or its log has another name in a folder, or is a link.
    Linked,
    /// SQLite left a journal next to the file.
    Journal,
    /// The file, its log or its folder may not be read and written.
    Denied,
}

/// Returns whether there is a file at `path`.
pub fn is_there(rt: &HostRuntime, path: &str) -> bool {
    fs::metadata(rt, path).is_ok()
}

/// Returns the name of the log of the database at `path`.
pub fn log_of(alloc: Global, path: &str) -> Result<String, AllocError> {
    format!(in alloc; "{path}-wal")
}

/// Returns whether the file at `path` begins as an SQLite database.
pub fn begins_as_database(rt: &HostRuntime, path: &str) -> bool {
    let Ok(mut file) = fs::open(rt, path) else {
        return false;
    };
    let mut front = [0u8; 16];
    let Ok(count) = file.read(&mut front) else {
        return false;
    };
    count == MAGIC.len() && front.as_slice() == MAGIC
}

/// Returns whether something other than a file with one name is at `path`.
fn is_linked(rt: &HostRuntime, path: &str) -> bool {
    match fs::symlink_metadata(rt, path) {
        Ok(found) => !found.is_file() || found.nlink() > 1,
        Err(_) => false,
    }
}

/// Returns why the file at `path`, which is there, cannot be opened with its log and its journal.
fn fault_beside(rt: &HostRuntime, log: &str, journal: &str) -> PathFault {
    if is_linked(rt, log) {
        PathFault::Linked
    } else if is_there(rt, journal) {
        PathFault::Journal
    } else {
        PathFault::Denied
    }
}

/// Returns why a file that is there, with one name, cannot be opened.
fn fault_of_file(rt: &HostRuntime, path: &str) -> PathFault {
    match (
        log_of(rt.alloc(), path),
        format!(in rt.alloc(); "{path}-journal"),
    ) {
        (Ok(log), Ok(journal)) => fault_beside(rt, log.as_str(), journal.as_str()),
        _ => PathFault::Denied,
    }
}

/// Returns the folder of the file at `path`.
fn folder_of(path: &str) -> &str {
    match path.rsplit_once('/') {
        Some(("", _)) => "/",
        Some((folder, _)) => folder,
        None => ".",
    }
}

/// Returns why the file at `path`, if it is not there, cannot be made, or else cannot be opened.
pub fn making_fault(rt: &HostRuntime, path: &str) -> PathFault {
    match path_fault(rt, path) {
        PathFault::Missing if is_there(rt, folder_of(path)) => PathFault::Denied,
        fault => fault,
    }
}

/// Returns why the file at `path` cannot be opened for reading and writing.
pub fn path_fault(rt: &HostRuntime, path: &str) -> PathFault {
    match fs::metadata(rt, path) {
        Err(error) if error.kind() == ErrorKind::PermissionDenied => PathFault::Denied,
        Err(_) => PathFault::Missing,
        Ok(found) if !found.is_file() => PathFault::NoFile,
        Ok(found) if found.nlink() > 1 => PathFault::Linked,
        Ok(_) => fault_of_file(rt, path),
    }
}
