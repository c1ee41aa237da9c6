//! What tells whether a file is still the one that was read or saved.

ghost use Rattle.std.specs.Prelude.{◌≡◌, ◌↔◌, IsTrue};
ghost use Rattle.std.specs.Fs.{file_type, metadata_len, IsFile};
ghost use Rattle.file_desk.specs.FileStates.{metadata_of};

use std::fs::Metadata;
use std::os::unix::fs::MetadataExt;

/// A file as it was when it was looked at: which one it is, its size, when it was last written, and who may use it.
#[derive(Clone, Drop)]
pub struct FileState {
    metadata: Metadata,
}

impl FileState {
    /// The state that the metadata of a file tell. They are asked for before the file is read, so that a change while
    /// it is read shows later.
    pub fn new(metadata: Metadata) -> FileState
        ensures { metadata_of result ≡ metadata }
    {
        FileState { metadata }
    }

    /// Whether it is a plain file, and so no folder, pipe or device.
    pub fn is_plain(&self) -> bool
        ensures { IsTrue result ↔ IsFile (file_type (metadata_of self.now)) }
    {
        self.metadata.is_file()
    }

    /// Whether both are one plain file, of one size, last written at one time.
    pub fn is_same(&self, other: &FileState) -> bool
        ensures plain { IsTrue result → IsFile (file_type (metadata_of self.now))
            × IsFile (file_type (metadata_of other.now)) }
        ensures size { IsTrue result → metadata_len (metadata_of self.now) ≡ metadata_len (metadata_of other.now) }
    {
        let (mine, its) = (&self.metadata, &other.metadata);
        mine.is_file()
            && its.is_file()
            && mine.len() == its.len()
            && mine.dev() == its.dev()
            && mine.ino() == its.ino()
            && mine.mtime() == its.mtime()
            && mine.mtime_nsec() == its.mtime_nsec()
    }

    /// Who owns the file.
    pub(crate) fn owner(&self) -> u32 {
        self.metadata.uid()
    }

    /// The group of the file.
    pub(crate) fn group(&self) -> u32 {
        self.metadata.gid()
    }

    /// What the owner, the group and all others may do, as twelve bits.
    pub(crate) fn mode(&self) -> u32 {
        self.metadata.mode() & 0o7777
    }
}
