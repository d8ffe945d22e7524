//! Writes the bytes of a database file to an output.
ghost use Rattle.std.specs.Prelude.{◌≡◌, IfOk, IsTrue, OnOk};
ghost use Rattle.std.specs.Io.KnownBytes.{Appends};

use sqlite_disk::Disk;
use std::alloc::Global;
use std::io::{ErrorKind, Write};

/// Why the bytes of a file were not written.
#[derive(Clone, Copy, Debug, PartialEq, Eq)]
pub enum PourFault {
    /// There is no memory for the bytes.
    NoMemory,
    /// The file could not be read.
    ReadFailed,
    /// The output could not be written. It may have the first part of the bytes.
    WriteFailed(ErrorKind),
}

/// Writes all bytes of a file to the output. They are read into memory first. The file stays as it
/// was. Faults, in this order: ReadFailed, if the length can't be read; NoMemory; ReadFailed;
/// WriteFailed.
pub fn pour<D: Disk, W: Write>(alloc: Global, file: &mut D, output: &mut W) -> Result<(), PourFault>
    requires { IsTrue (D.Disk.is_usable file.old) }
    // If the disk returned the bytes written to it, the output has grown by exactly the file's
    // bytes.
    ensures whole { OnOk result (IsTrue (D.Disk.is_clean file.new)
        → Appends (W.contents output.old) (W.contents output.new) (D.Disk.seen file.old)) }
    ensures same { D.Disk.seen file.new ≡ D.Disk.seen file.old }
{
    let bytes = read_whole(alloc, file)?;
    match output.write_all(bytes.as_slice()) {
        Ok(()) => Ok(()),
        Err(error) => Err(PourFault::WriteFailed(error.kind())),
    }
}

/// Reads all bytes of a file.
fn read_whole<D: Disk>(alloc: Global, file: &mut D) -> Result<Vec<u8>, PourFault>
    requires { IsTrue (D.Disk.is_usable file.old) }
    ensures whole { IfOk result
        (λ bytes. IsTrue (D.Disk.is_clean file.new) → bytes.items ≡ D.Disk.seen file.old) }
    ensures same { D.Disk.seen file.new ≡ D.Disk.seen file.old }
{
    let Ok(length) = file.len() else {
        return Err(PourFault::ReadFailed);
    };
    let Ok(mut bytes) = vec![in alloc; 0u8; length] else {
        return Err(PourFault::NoMemory);
    };
    match file.read_at(0, bytes.as_mut_slice()) {
        Ok(()) => Ok(bytes),
        Err(_) => Err(PourFault::ReadFailed),
    }
}
