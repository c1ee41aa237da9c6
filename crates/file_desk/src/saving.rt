//! The text of a stack in the place of a file's, whole or not at all, and never in the place of another program's.

ghost use Rattle.object_table.specs.WellFormed.{IsWellFormed};

use crate::beside::{Beside, made_beside};
use crate::state::FileState;
use crate::unsaved::Unsaved;
use object_table::Stack;
use stack_file::write_to;
use std::alloc::Global;
use std::fs::{File, OpenOptions, Permissions, TryLockError};
use std::io::{Error, ErrorKind};
use std::os::unix::fs::{PermissionsExt, fchown};
use std::path::{Path, PathBuf};
use std::rt::Files;
use std::{fs, io};

/// What came of a save.
#[derive(Drop)]
pub struct Saved {
    /// The file as it was written.
    pub state: FileState,
    /// Whether it has the group that it had.
    pub has_group: bool,
    /// Whether its folder was synced to the disk after the rename.
    pub is_synced: bool,
}

/// The path of the file that a path leads to, where it is a symbolic link.
fn led_to<R: Files + AllocGlobal>(rt: &R, path: &str) -> io::Result<Option<PathBuf>> {
    match fs::symlink_metadata(rt, path) {
        Ok(metadata) if metadata.is_symlink() => Ok(Some(rt.canonicalize(rt.alloc(), path)?)),
        _ => Ok(None),
    }
}

/// The state of what stands under a path, if anything does. A link isn't followed.
fn state_there<R: Files>(rt: &R, path: &str) -> io::Result<Option<FileState>> {
    match fs::symlink_metadata(rt, path) {
        Ok(metadata) => Ok(Some(FileState::new(metadata))),
        Err(error) if error.kind() == ErrorKind::NotFound => Ok(None),
        Err(error) => Err(error),
    }
}

/// Opens a file for writing, as one who may not write it can't, and locks it until it is closed. Nothing is written.
fn locked<R: Files<File = File>>(rt: &R, path: &str) -> Result<File, Unsaved> {
    let file = OpenOptions::new().write(true).open(rt, path)?;
    match file.try_lock() {
        Err(TryLockError::WouldBlock) => Err(Unsaved::Locked),
        // A file system may have no locks.
        _ => Ok(file),
    }
}

/// The file under a path, locked, and its state. The lock goes as this does.
#[derive(Drop)]
struct Held {
    state: FileState,
    _file: File,
}

/// The file under a path, where one is there. It has to be in this state.
fn hold<R: Files<File = File>>(
    rt: &R,
    path: &str,
    last: &FileState,
) -> Result<Option<Held>, Unsaved> {
    let Some(there) = state_there(rt, path)? else {
        return Ok(None);
    };
    if !there.is_plain() {
        return Err(Unsaved::NotPlain);
    }
    // Looked at before it is locked, so that one that can't save it doesn't keep one that can from it.
    if !there.is_same(last) {
        return Err(Unsaved::Changed);
    }
    let file = locked(rt, path)?;
    let state = FileState::new(file.metadata()?);
    if !state.is_same(last) {
        return Err(Unsaved::Changed);
    }
    Ok(Some(Held { state, _file: file }))
}

/// Gives a new file the owner, the group and the mode of another one, and says whether it has the group.
///
/// Only the administrator may give a file to another owner, and others may give it only to a group of theirs. Without
/// the group, a group may do no more than everybody.
fn give(file: &File, like: &FileState) -> io::Result<bool> {
    let now = FileState::new(file.metadata()?);
    let has_owner = now.owner() == like.owner();
    let has_both = has_owner && now.group() == like.group()
        || fchown(file, Some(like.owner()), Some(like.group())).is_ok();
    let has_group = has_both
        || now.group() == like.group()
        || fchown(file, None, Some(like.group())).is_ok();
    let mode = if has_group {
        like.mode()
    } else {
        like.mode() & (0o7707 | (like.mode() & 0o007) << 3)
    };
    file.set_permissions(Permissions::from_mode(mode))?;
    Ok(has_group)
}

/// Writes the text of a stack to a new file, which nobody may read before it has the mode of another one, and syncs it
/// to the disk.
fn fill(alloc: Global, mut file: File, like: &FileState, stack: &Stack) -> io::Result<Saved>
    requires { IsWellFormed stack.now.content }
{
    let has_group = give(&file, like)?;
    write_to(alloc, stack, &mut file)?;
    file.sync_all()?;
    Ok(Saved {
        state: FileState::new(file.metadata()?),
        has_group,
        is_synced: false,
    })
}

/// Renames a new file to a path, if what stands there is as it was.
fn take_place<R: Files>(
    rt: &R,
    beside: Path<'_>,
    path: &str,
    due: Option<&FileState>,
) -> Result<(), Unsaved> {
    let is_as_it_was = match (state_there(rt, path)?, due) {
        (Some(state), Some(due)) => state.is_same(due),
        (None, None) => true,
        _ => false,
    };
    if !is_as_it_was {
        return Err(Unsaved::Changed);
    }
    Ok(fs::rename(rt, beside, path)?)
}

/// Whether the folder of a file is synced to the disk, and with it the file's name.
fn is_synced<R: Files<File = File>>(rt: &R, path: &str) -> bool {
    let folder = match Path::new(path).parent() {
        Some(folder) if !folder.as_os_str().is_empty() => folder,
        _ => Path::new("."),
    };
    match File::open(rt, folder) {
        Ok(folder) => folder.sync_all().is_ok(),
        Err(_) => false,
    }
}

/// Puts the text of a stack in the place of a file that is no link, by a file beside it.
fn replace<R: Files<File = File> + AllocGlobal>(
    rt: &R,
    path: &str,
    last: &FileState,
    stack: &Stack,
) -> Result<Saved, Unsaved>
    requires { IsWellFormed stack.now.content }
{
    let held = hold(rt, path, last)?;
    let now = held.as_ref().map(|held| &held.state);
    let Beside { path: beside, file } = made_beside(rt, path)?;
    let saved = match fill(rt.alloc(), file, now.unwrap_or(last), stack) {
        Ok(saved) => take_place(rt, beside.as_path(), path, now).map(|()| saved),
        Err(error) => Err(Unsaved::from(error)),
    };
    match saved {
        Ok(saved) => Ok(Saved {
            is_synced: is_synced(rt, path),
            ..saved
        }),
        Err(reason) => {
            let _ = fs::remove_file(rt, beside.as_path());
            Err(reason)
        }
    }
}

/// Puts the text of a stack in the place of a file's, where the file is still as it was last, and says how it is then.
///
/// The file has the old text or the new one, whole, whatever happens; where the save fails, as it does where it is out
/// of memory, it has the old one. It takes no memory for the whole text. A file that isn't there any more is made
/// again. Nothing that stands there and isn't the file as it was last is removed or written: the new text goes to a new
/// file, and what stands there is looked at right before the rename. Programs that save as this one does exclude one
/// another by a lock; of another one, what it writes between that look and the rename is lost.
pub fn save<R: Files<File = File> + AllocGlobal>(
    rt: &R,
    path: &str,
    last: &FileState,
    stack: &Stack,
) -> Result<Saved, Unsaved>
    requires { IsWellFormed stack.now.content }
{
    if !last.is_plain() {
        return Err(Unsaved::NotPlain);
    }
    match led_to(rt, path)? {
        Some(target) => replace(rt, target.as_str(), last, stack),
        None => replace(rt, path, last, stack),
    }
}
