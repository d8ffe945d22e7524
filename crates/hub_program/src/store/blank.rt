//! Begins the database file of a new store.

use crate::advice::folder_of;
use std::fs::{File, Metadata};
use std::io::{ErrorKind, Write};
use std::os::unix::fs::MetadataExt;
use std::{fs, io};

/// The size of a page in bytes. In an empty file the database makes pages of 4,096 bytes, and where
/// there is a page it keeps its size. With smaller pages a message is stored in less time, because
/// each commit writes whole pages and computes their digests.
const PAGE: u64 = 2_048;

/// The start of a database in SQLite's format, with one page and no table: the header of the file,
/// and the header of the page. All other bytes are 0.
const HEADERS: &[u8] = b"SQLite format 3\0\
\x08\x00\x02\x02\x00\x40\x20\x20\x00\x00\x00\x01\x00\x00\x00\x01\
\x00\x00\x00\x00\x00\x00\x00\x00\x00\x00\x00\x00\x00\x00\x00\x00\
\x00\x00\x00\x00\x00\x00\x00\x00\x00\x00\x00\x00\x00\x00\x00\x00\
\x00\x00\x00\x00\x00\x00\x00\x00\x00\x00\x00\x00\x00\x00\x00\x00\
\x00\x00\x00\x00\x00\x00\x00\x00\x00\x00\x00\x00\x00\x00\x00\x01\
\x00\x2e\x63\x01\x0d\x00\x00\x00\x00\x08\x00\x00";

/// Begins the file as one blank page, if nothing has its path. The page is written under another
/// name first, so a crash leaves no file at the path, or the blank page. A file that another
/// program creates meanwhile is kept. If anything fails, opening the store creates the file, with
/// larger pages.
///
/// If a run was killed before it could remove the other name of the file, that name is removed.
pub fn begin(rt: &HostRuntime, path: &str) {
    let Ok(part) = format!(in rt.alloc(); "{path}.new") else {
        return;
    };
    let _ = match fs::symlink_metadata(rt, path) {
        Ok(found) => remove_second_name(rt, path, &found, &part),
        Err(error) if error.kind() == ErrorKind::NotFound => begin_as(rt, path, &part),
        Err(error) => Err(error),
    };
}

/// Removes the part file if it is another name of the file at the path: a database with two names
/// can't be opened.
fn remove_second_name(
    rt: &HostRuntime,
    path: &str,
    found: &Metadata,
    part: &str,
) -> io::Result<()> {
    let other = fs::symlink_metadata(rt, part)?;
    if other.dev() == found.dev() && other.ino() == found.ino() {
        fs::remove_file(rt, part)?;
        File::open(rt, folder_of(path))?.sync_all()?;
    }
    Ok(())
}

/// Writes the page to the part file, and links the path to it.
fn begin_as(rt: &HostRuntime, path: &str, part: &str) -> io::Result<()> {
    let mut file = File::create_new(rt, part)?;
    if write_page(&mut file).is_ok() {
        let _ = fs::hard_link(rt, part, path);
    }
    fs::remove_file(rt, part)?;
    File::open(rt, folder_of(path))?.sync_all()
}

fn write_page(file: &mut File) -> io::Result<()> {
    file.write_all(HEADERS)?;
    file.set_len(PAGE)?;
    file.sync_all()
}
