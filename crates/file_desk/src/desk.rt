//! A desk that keeps what is saved in a file.

ghost use Rattle.std.specs.Prelude.{◌≡◌};
ghost use Rattle.file_desk.specs.FileDesks.{failures_of, seen_file};

use crate::saving::{Saved, save};
use crate::state::FileState;
use bstr::BStr;
use devices::{BytesFault, Desk, Watched, bytes_of};
use ht_values::Text;
use log::{Log, info, warn};
use object_table::{Id, Stack};
use std::fs::File;
use std::rt::Files;

/// Keeps the text of the last stack that is saved in the file of this path, and logs each message, as `mouseUp 5`, and,
/// as warnings, why a text isn't saved, why a line faulted or was refused where it is to, and that a session ends with
/// changes that weren't saved.
///
/// The text is written piece by piece, so a save takes no memory for the whole text. It goes to a new file beside it,
/// with `.new` behind its name, which is synced to the disk and renamed; then the folder is synced. So the file has the
/// old text or the new one, whole; where any step fails it has the old one, and nothing stays beside it. Where the path
/// is a symbolic link, this is done to the file that it leads to. Nothing is saved where the file isn't the one that
/// was read or last saved, by its identity, its size and the time when it was written, where it may not be written, and
/// where what was read or what is there is no plain file. What has the name of the new file stays as it is, and the
/// next name is taken. The permissions and the group of the file are those it had; its owner is who saves, and for the
/// administrator the one it had. Access lists and other attributes can't be kept, and other names of the file keep the
/// old text.
#[derive(Drop)]
pub struct FileDesk<'a, R> {
    rt: &'a R,
    program: &'a str,
    path: &'a str,
    last: FileState,
    has_saved: bool,
    explains: bool,
    failures: u64,
}

impl<'a, R> FileDesk<'a, R> {
    /// The desk over a file, for the program of this name. The state is that of the file as it was opened to be read.
    /// It takes no memory.
    pub fn new(rt: &'a R, program: &'a str, path: &'a str, read: FileState) -> FileDesk<'a, R>
        ensures { failures_of result ≡ 0 }
    {
        FileDesk {
            rt,
            program,
            path,
            last: read,
            has_saved: false,
            explains: false,
            failures: 0,
        }
    }

    /// The same desk, which hears why lines faulted or were refused, and logs it, or doesn't.
    pub fn explaining(self, explains: bool) -> FileDesk<'a, R>
        ensures { failures_of result ≡ failures_of self.entry }
    {
        FileDesk { explains, ..self }
    }
}

/// Tells what a save left undone.
fn tell<R: Log>(rt: &R, program: &str, saved: &Saved) {
    if !saved.has_group {
        warn!(rt; "{program}: saved, but the file couldn't keep its group");
    }
    if !saved.is_synced {
        warn!(rt; "{program}: saved, but the folder couldn't be synced to the disk");
    }
}

/// Whether a file holds this text; also where there is no memory to see it.
fn holds<R: Files<File = File> + AllocGlobal>(rt: &R, path: &str, text: &[u8]) -> bool {
    let Ok(file) = File::open(rt, path) else {
        return false;
    };
    match bytes_of(rt.alloc(), &mut Watched::new(file), text.len()) {
        Ok(bytes) => bytes.as_slice() == text,
        Err(BytesFault::Memory) => true,
        Err(BytesFault::TooMany | BytesFault::Device) => false,
    }
}

impl<R: Files<File = File> + Log + AllocGlobal> Desk for FileDesk<'_, R> {
    ghost seen = { seen_file };

    fn keep(&mut self, stack: &Stack) -> bool {
        match save(self.rt, self.path, &self.last, stack) {
            Ok(saved) => {
                tell(self.rt, self.program, &saved);
                self.last = saved.state;
                self.has_saved = true;
                true
            }
            Err(reason) => {
                let program = self.program;
                warn!(self.rt; "{program}: not saved: {reason}");
                self.failures = self.failures.saturating_add(1);
                false
            }
        }
    }

    fn sent(&mut self, name: &Text, object: Id) {
        info!(self.rt; "{} {}", BStr::new(name.as_slice()), object);
    }

    fn explains(&self) -> bool {
        self.explains
    }

    fn explain(&mut self, text: &[u8]) {
        warn!(self.rt; "{}", BStr::new(text));
    }

    /// It says where the text is neither the one that was read nor the one in the file, to which it was saved.
    fn leave(&mut self, text: &[u8], is_as_read: bool) {
        let is_kept = if self.has_saved {
            holds(self.rt, self.path, text)
        } else {
            is_as_read
        };
        if !is_kept {
            let program = self.program;
            warn!(self.rt; "{program}: changes weren't saved");
        }
    }

    fn failures(&self) -> u64 {
        self.failures
    }
}
