//! Why a text isn't saved.

use std::alloc::AllocError;
use std::error::Error;
use std::io::ErrorKind;
use std::{fmt, io};

/// Why a text isn't saved. What the file had stands.
#[derive(Debug, Drop)]
pub enum Unsaved {
    /// The file isn't the one that was read or last saved, or has another size or time.
    Changed,
    /// Another program holds a lock on the file, as one that saves it does.
    Locked,
    /// What was read, or what is there now, is no plain file.
    NotPlain,
    /// Each name that a new file may have is taken.
    NoName,
    /// The system failed.
    Failed(io::Error),
}

impl From<io::Error> for Unsaved {
    fn from(error: io::Error) -> Unsaved {
        Unsaved::Failed(error)
    }
}

impl From<AllocError> for Unsaved {
    fn from(_e: AllocError) -> Unsaved {
        Unsaved::Failed(io::Error::from(ErrorKind::OutOfMemory))
    }
}

/// Plain words for what often goes wrong.
fn words(kind: ErrorKind) -> Option<&'static str> {
    match kind {
        ErrorKind::PermissionDenied => Some("no permission"),
        ErrorKind::ReadOnlyFilesystem => Some("the disk can only be read"),
        ErrorKind::StorageFull | ErrorKind::WriteZero => Some("no space left"),
        ErrorKind::QuotaExceeded => Some("no space left for this user"),
        ErrorKind::FileTooLarge => Some("the file would be too large"),
        ErrorKind::InvalidFilename => Some("the path is too long"),
        ErrorKind::NotFound | ErrorKind::NotADirectory => Some("its folder is gone"),
        ErrorKind::OutOfMemory => Some("out of memory"),
        _ => None,
    }
}

impl fmt::Display for Unsaved {
    fn fmt<W: fmt::Write>(&self, f: &mut fmt::Formatter<W>) -> fmt::Result {
        match self {
            Unsaved::Changed => f.write_str("another program changed the file"),
            Unsaved::Locked => f.write_str("another program has locked the file"),
            Unsaved::NotPlain => f.write_str("it isn't a plain file"),
            Unsaved::NoName => f.write_str("all names for a new file beside it are taken"),
            Unsaved::Failed(error) => match words(error.kind()) {
                Some(words) => f.write_str(words),
                None => write!(f, "{error}"),
            },
        }
    }
}

impl Error for Unsaved {}
