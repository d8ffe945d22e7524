//! The `help:` lines about files: the cause of a fault, and what the user can do.

use codes_core::add_quoted;
use line_files::GapFault;
use posting_core::EntryNo;
use station_core::Refusal;
use std::alloc::{AllocError, Global};
use std::io::ErrorKind;
use table_core::{LabelFault, SheetFault};

/// The text of a `help:` line. None if nothing more is known, or if there is no memory for the
/// text.
pub type Advice = Option<String>;

/// Returns the advice on a file that cannot be read.
pub fn on_file(alloc: Global, path: &str, kind: ErrorKind) -> Advice {
    match kind {
        ErrorKind::NotFound => format!(in alloc; "{path} does not exist").ok(),
        ErrorKind::PermissionDenied => format!(in alloc;
            "you have no permission to read {path}"
        ).ok(),
        ErrorKind::IsADirectory => format!(in alloc; "{path} is a folder").ok(),
        _ => format!(in alloc; "{path} cannot be read").ok(),
    }
}

/// Returns the advice on a file that cannot be written.
pub fn on_target(alloc: Global, path: &str, kind: ErrorKind) -> Advice {
    match kind {
        ErrorKind::NotFound => {
            format!(in alloc; "the folder {} does not exist", folder_of(path)).ok()
        }
        ErrorKind::StorageFull | ErrorKind::QuotaExceeded | ErrorKind::FileTooLarge => {
            format!(in alloc; "{path} cannot be written: the disk is full").ok()
        }
        ErrorKind::PermissionDenied | ErrorKind::ReadOnlyFilesystem => {
            format!(in alloc; "you have no permission to write {path}").ok()
        }
        _ => format!(in alloc; "{path} cannot be written").ok(),
    }
}

/// Returns the advice on a log that cannot be opened.
pub fn on_log(alloc: Global, path: &str, kind: ErrorKind) -> Advice {
    match kind {
        ErrorKind::NotFound => format!(in alloc;
            "the folder of {path} does not exist: create it, or name another file"
        ).ok(),
        ErrorKind::PermissionDenied | ErrorKind::ReadOnlyFilesystem => format!(in alloc;
            "you have no permission to write {path}: name another file"
        ).ok(),
        ErrorKind::IsADirectory => format!(in alloc; "{path} is a folder: name a file").ok(),
        _ => format!(in alloc; "{path} cannot be written: name another file").ok(),
    }
}

/// Returns the advice on a log that is one of the desk's other files.
pub fn on_taken_log(alloc: Global, log: &str, other: &str) -> Advice {
    format!(in alloc;
        "{log} is the file {other}, which a log would spoil: name a file of its own"
    ).ok()
}

/// Returns the advice on a log in which a line could not be written.
pub fn on_lost_line(alloc: Global, path: Option<&str>) -> Advice {
    let path = path?;
    format!(in alloc;
        "{path} cannot be written: make room on its disk, start the desk again, and scan the last \
         line again"
    )
    .ok()
}

/// Returns the advice on a serving with more or fewer files than stations.
pub fn on_feeds(alloc: Global, stations: u32, files: usize) -> Advice {
    format!(in alloc;
        "stations: {stations}, files: {files}; name a file for each station, in the setup's order"
    ).ok()
}

/// Returns the advice on a desk whose station can't send messages.
pub fn on_station(alloc: Global, name: &str, refusal: Refusal) -> Advice {
    match refusal {
        Refusal::SignedOff => {
            format!(in alloc; "{name} has signed off for good: use another station").ok()
        }
        _ => on_value(
            alloc,
            name,
            "a station of the setup; capitals and dashes count",
        ),
    }
}

/// Returns the advice on a station that has no number to fill.
pub fn on_gap(alloc: Global, name: &str, fault: GapFault) -> Advice {
    match fault {
        GapFault::KnownLoan => format!(in alloc;
            "loan LO0000.1 is agreed: send a move of a thing that is not in the setup instead"
        ).ok(),
        _ => format!(in alloc; "{name} has posted its last number: use another station").ok(),
    }
}

/// Returns the advice on a seal or a receipt that can't be made, for a record of so many entries.
pub fn on_unposted(alloc: Global, entries: EntryNo, upto: Option<EntryNo>) -> Advice {
    match upto {
        Some(upto) if upto <= entries => format!(in alloc;
            "ENTRY is not one of the first {upto} entries"
        ).ok(),
        _ => format!(in alloc; "entries on record: {entries}").ok(),
    }
}

/// Returns the advice on a check together with arguments that it has no use for.
pub fn on_check_alone(alloc: Global, others: &str) -> Advice {
    format!(in alloc; "--check takes a file alone: leave out {others}").ok()
}

/// Returns the advice on an argument that is not what it has to be.
pub fn on_value(alloc: Global, value: &str, wanted: &str) -> Advice {
    let mut text = String::new(alloc);
    add_quoted(&mut text, value).ok()?;
    text.push_str(" is not ").ok()?;
    text.push_str(wanted).ok()?;
    Some(text)
}

/// Returns the path of the file's folder.
pub fn folder_of(path: &str) -> &str {
    match path.rsplit_once('/') {
        Some(("", _)) => "/",
        Some((folder, _)) => folder,
        None => ".",
    }
}

/// Returns the advice on a file that is no table.
pub fn on_sheet(alloc: Global, path: &str, fault: SheetFault) -> Advice {
    match fault {
        SheetFault::Utf16 => {
            format!(in alloc; "{path} is UTF-16 text: save it as CSV in UTF-8").ok()
        }
        SheetFault::Empty => {
            format!(in alloc; "the first line of {path} is empty: begin it with a heading").ok()
        }
        SheetFault::TwoSeparators => format!(in alloc;
            "the heading of {path} has more than one of comma, semicolon and tab: use one"
        ).ok(),
        _ => on_encoding(alloc, path),
    }
}

/// Returns the advice on a faulty file of labels: the row that is wrong, and what to do.
pub fn on_labels(alloc: Global, path: &str, rows: &[Vec<String>], fault: LabelFault) -> Advice {
    let number = fault.row()?;
    let row = rows.get(number.checked_sub(1)? as usize)?;
    let mut text = format!(in alloc; "{path} row {number}: ").ok()?;
    add_on_label_row(&mut text, row, fault).ok()?;
    Some(text)
}

/// Appends the error in a row of labels.
fn add_on_label_row(
    text: &mut String,
    row: &[String],
    fault: LabelFault,
) -> Result<(), AllocError> {
    for at in 0..row.len() {
        if at > 0 {
            text.push_str(", ")?;
        }
        add_quoted(text, row[at].as_str())?;
    }
    text.push_str(match fault {
        LabelFault::Heading => ": the first row must have label and code, each once",
        LabelFault::Fields(_) => " has a label without a code, or a code without a label",
        LabelFault::Repeated(_) => ": an earlier row has this label: delete one of them",
        _ => ": the label is the code of a thing or a place: delete the row",
    })
}

/// Returns the advice on a file that is not UTF-8.
pub fn on_encoding(alloc: Global, path: &str) -> Advice {
    format!(in alloc; "{path} is not UTF-8 text: save it as CSV in UTF-8").ok()
}
