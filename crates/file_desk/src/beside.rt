//! New files beside another one.

use crate::unsaved::Unsaved;
use std::alloc::{AllocError, Global};
use std::fs::{File, OpenOptions};
use std::io::ErrorKind;
use std::os::unix::fs::OpenOptionsExt;
use std::path::{Path, PathBuf};
use std::rt::Files;

/// How many names are tried. A save that was killed leaves one that is taken from then on.
const MOST_NAMES: u32 = 10_000;

/// A new file, which nobody but its owner may read as yet.
#[derive(Drop)]
pub struct Beside {
    pub path: PathBuf,
    pub file: File,
}

/// The name of this number for a file beside a path: `STACK.new`, `STACK.new1`, `STACK.new2`, .. Where that is too
/// long, it loses as many bytes of `STACK` as it has behind it, or up to three more, so that no character is cut.
fn name(
    alloc: Global,
    path: Path<'_>,
    number: u32,
    is_too_long: bool,
) -> Result<PathBuf, AllocError> {
    let end = if number == 0 {
        String::from_str(alloc, ".new")?
    } else {
        format!(in alloc; ".new{number}")?
    };
    let stack = path.file_name().unwrap_or("");
    let most = if is_too_long {
        stack.len().saturating_sub(end.len())
    } else {
        stack.len()
    };
    let mut name = String::new(alloc);
    for char in stack.chars() {
        if name.len().saturating_add(char.len_utf8()) > most {
            break;
        }
        name.push(char)?;
    }
    name.push_str(end.as_str())?;
    path.with_file_name(alloc, name.as_str())
}

/// Makes a file beside a path, under the first name that is free. What stands there already isn't opened or followed.
pub fn made_beside<R: Files<File = File> + AllocGlobal>(
    rt: &R,
    path: &str,
) -> Result<Beside, Unsaved> {
    let mut how = OpenOptions::new();
    how.write(true).create_new(true).mode(0o600);
    let mut is_too_long = false;
    for number in 0..MOST_NAMES {
        let path = name(rt.alloc(), Path::new(path), number, is_too_long)?;
        match how.open(rt, path.as_path()) {
            Ok(file) => return Ok(Beside { path, file }),
            Err(error) => match error.kind() {
                ErrorKind::AlreadyExists => {}
                ErrorKind::InvalidFilename if !is_too_long => is_too_long = true,
                _ => return Err(Unsaved::from(error)),
            },
        }
    }
    Err(Unsaved::NoName)
}
