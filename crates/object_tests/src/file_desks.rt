//! The desk over a file, on files of the folder in which the tests run.

use devices::Desk;
use file_desk::{FileDesk, FileState, Plain};
use log::{LevelFilter, Log, Logged};
use stack_file::read;
use std::alloc::Global;
use std::fs;
use std::fs::File;
use std::rt::Files;

/// What is done with files and the desk, or holds of them.
enum DeskStep<'a> {
    Write(&'a str, &'a str),
    Folder(&'a str),
    /// The file that a link leads to, and the link.
    Link(&'a str, &'a str),
    /// A save of the stack of a name, and whether it is kept.
    Keep(&'a str, bool),
    /// How many saves have failed.
    Failures(u64),
    Text(&'a str, &'a str),
    /// A file that has the text of the stack of a name.
    Stack(&'a str, &'a str),
    IsThere(&'a str, bool),
    IsLink(&'a str),
    Remove(&'a str),
    RemoveFolder(&'a str),
}

/// The text of a small stack behind its name.
const REST: &str = "\nscript 0\nbackgrounds 1\n\
background 1\nname |\ncantDelete false\nscript 0\nparts 0\n\
cards 1\ncard 2 1\nname |\ncantDelete false\nscript 0\nparts 0\nend\n";

/// The text of the stack of a name; none where memory is refused.
fn text_of(alloc: Global, name: &str) -> Option<String> {
    format!(in alloc; "htstack 2\nnext 3\nname |{name}{}", REST).ok()
}

/// Whether a desk keeps the stack of a name; none where that stack isn't to be had.
fn keeps<D: Desk>(alloc: Global, desk: &mut D, name: &str) -> Option<bool> {
    let text = text_of(alloc, name)?;
    match read(alloc, text.as_bytes()) {
        Ok(stack) => Some(desk.keep(&stack)),
        Err(_) => None,
    }
}

fn has_text<R: Files + AllocGlobal>(rt: &R, path: &str, due: &str) -> bool {
    matches!(fs::read_to_string(rt, path), Ok(text) if text.as_str() == due)
}

/// Whether a file has the text of the stack of a name.
fn has_stack<R: Files + AllocGlobal>(rt: &R, path: &str, name: &str) -> bool {
    matches!(text_of(rt.alloc(), name), Some(text) if has_text(rt, path, text.as_str()))
}

/// Whether a step on files alone is done, or holds.
fn is_done<R: Files + AllocGlobal>(rt: &R, step: &DeskStep<'_>) -> bool {
    match step {
        DeskStep::Write(path, text) => fs::write(rt, path, *text).is_ok(),
        DeskStep::Folder(path) => fs::create_dir(rt, path).is_ok(),
        DeskStep::Link(file, path) => rt.symlink(file, path).is_ok(),
        DeskStep::Text(path, due) => has_text(rt, path, due),
        DeskStep::Stack(path, name) => has_stack(rt, path, name),
        DeskStep::IsThere(path, due) =>
            matches!(fs::exists(rt, path), Ok(is_there) if is_there == *due),
        DeskStep::IsLink(path) => {
            matches!(fs::symlink_metadata(rt, path), Ok(metadata) if metadata.is_symlink())
        }
        DeskStep::Remove(path) => fs::remove_file(rt, path).is_ok(),
        DeskStep::RemoveFolder(path) => fs::remove_dir(rt, path).is_ok(),
        DeskStep::Keep(_, _) | DeskStep::Failures(_) => false,
    }
}

/// Whether a step is done at a desk, or holds of it or of files.
fn is_so<R: Files + AllocGlobal, D: Desk>(rt: &R, desk: &mut D, step: &DeskStep<'_>) -> bool {
    match step {
        DeskStep::Keep(name, kept) => keeps(rt.alloc(), desk, name) == Some(*kept),
        DeskStep::Failures(count) => desk.failures() == *count,
        _ => is_done(rt, step),
    }
}

fn are_so<R: Files + AllocGlobal, D: Desk>(rt: &R, desk: &mut D, steps: &[DeskStep<'_>]) -> bool {
    for step in steps {
        if !is_so(rt, desk, step) {
            return false;
        }
    }
    true
}

/// The path of a desk, what is done before it is made over the file that stands there, and what is done then.
struct Row<'a> {
    path: &'a str,
    before: &'a [DeskStep<'a>],
    steps: &'a [DeskStep<'a>],
}

const ROWS: &[Row<'static>] = &[
    // A save replaces the file, and so does the next one.
    Row {
        path: "alone.stack",
        before: &[DeskStep::Write("alone.stack", "old")],
        steps: &[
            DeskStep::Keep("new", true),
            DeskStep::Stack("alone.stack", "new"),
            DeskStep::IsThere("alone.stack.new", false),
            DeskStep::Keep("newer", true),
            DeskStep::Stack("alone.stack", "newer"),
            DeskStep::IsThere("alone.stack.new", false),
            DeskStep::Failures(0),
            DeskStep::Remove("alone.stack"),
        ],
    },
    // Whatever file, link or folder has the name of the new file, it stays as it is.
    Row {
        path: "taken.stack",
        before: &[
            DeskStep::Write("taken.stack", "old"),
            DeskStep::Write("taken.stack.new", "of another"),
        ],
        steps: &[
            DeskStep::Keep("new", true),
            DeskStep::Stack("taken.stack", "new"),
            DeskStep::Failures(0),
            DeskStep::Text("taken.stack.new", "of another"),
            DeskStep::IsThere("taken.stack.new1", false),
            DeskStep::Remove("taken.stack"),
            DeskStep::Remove("taken.stack.new"),
        ],
    },
    Row {
        path: "linked.stack",
        before: &[
            DeskStep::Write("linked.stack", "old"),
            DeskStep::Write("another.txt", "other"),
            DeskStep::Link("another.txt", "linked.stack.new"),
        ],
        steps: &[
            DeskStep::Keep("new", true),
            DeskStep::Stack("linked.stack", "new"),
            DeskStep::Failures(0),
            DeskStep::IsLink("linked.stack.new"),
            DeskStep::Text("another.txt", "other"),
            DeskStep::Remove("linked.stack"),
            DeskStep::Remove("linked.stack.new"),
            DeskStep::Remove("another.txt"),
        ],
    },
    Row {
        path: "twice.stack",
        before: &[
            DeskStep::Write("twice.stack", "old"),
            DeskStep::Folder("twice.stack.new"),
            DeskStep::Link("nowhere", "twice.stack.new1"),
        ],
        steps: &[
            DeskStep::Keep("new", true),
            DeskStep::Stack("twice.stack", "new"),
            DeskStep::Failures(0),
            DeskStep::IsThere("twice.stack.new", true),
            DeskStep::IsLink("twice.stack.new1"),
            DeskStep::IsThere("nowhere", false),
            DeskStep::IsThere("twice.stack.new2", false),
            DeskStep::Remove("twice.stack"),
            DeskStep::RemoveFolder("twice.stack.new"),
            DeskStep::Remove("twice.stack.new1"),
        ],
    },
    // What another program wrote since is left, and counted as a failure each time.
    Row {
        path: "changed.stack",
        before: &[DeskStep::Write("changed.stack", "old")],
        steps: &[
            DeskStep::Write("changed.stack", "of another"),
            DeskStep::Keep("new", false),
            DeskStep::Text("changed.stack", "of another"),
            DeskStep::IsThere("changed.stack.new", false),
            DeskStep::Keep("new", false),
            DeskStep::Failures(2),
            DeskStep::Remove("changed.stack"),
        ],
    },
    // So is what it wrote after a save.
    Row {
        path: "changed_later.stack",
        before: &[DeskStep::Write("changed_later.stack", "old")],
        steps: &[
            DeskStep::Keep("new", true),
            DeskStep::Write("changed_later.stack", "of another"),
            DeskStep::Keep("newer", false),
            DeskStep::Text("changed_later.stack", "of another"),
            DeskStep::Failures(1),
            DeskStep::Remove("changed_later.stack"),
        ],
    },
    // And what it put in the place of the file.
    Row {
        path: "folder.stack",
        before: &[DeskStep::Write("folder.stack", "old")],
        steps: &[
            DeskStep::Remove("folder.stack"),
            DeskStep::Folder("folder.stack"),
            DeskStep::Keep("new", false),
            DeskStep::IsThere("folder.stack.new", false),
            DeskStep::RemoveFolder("folder.stack"),
            // A file that is gone is made again, so a later save works.
            DeskStep::Keep("new", true),
            DeskStep::Stack("folder.stack", "new"),
            DeskStep::Failures(1),
            DeskStep::Remove("folder.stack"),
        ],
    },
    // A link stays, and its file is replaced.
    Row {
        path: "link.stack",
        before: &[
            DeskStep::Write("target.stack", "old"),
            DeskStep::Link("target.stack", "link.stack"),
        ],
        steps: &[
            DeskStep::Keep("new", true),
            DeskStep::Stack("target.stack", "new"),
            DeskStep::IsLink("link.stack"),
            DeskStep::Remove("link.stack"),
            DeskStep::Remove("target.stack"),
        ],
    },
    // A path that is a folder is left.
    Row {
        path: "folder_itself.stack",
        before: &[DeskStep::Folder("folder_itself.stack")],
        steps: &[
            DeskStep::Keep("new", false),
            DeskStep::Failures(1),
            DeskStep::IsThere("folder_itself.stack.new", false),
            DeskStep::RemoveFolder("folder_itself.stack"),
        ],
    },
];

/// The state of the file under a path, as it is before the file is read.
fn state_of<R: Files>(rt: &R, path: &str) -> Option<FileState> {
    match fs::metadata(rt, path) {
        Ok(metadata) => Some(FileState::new(metadata)),
        Err(_) => None,
    }
}

/// Whether all is done and holds, with a desk that logs to a logger.
fn is_right<R: Files + AllocGlobal, L: Files<File = File> + Log + AllocGlobal>(
    rt: &R,
    logger: &L,
    row: &Row<'_>,
) -> bool {
    for step in row.before {
        if !is_done(rt, step) {
            return false;
        }
    }
    let Some(state) = state_of(rt, row.path) else {
        return false;
    };
    let mut desk = FileDesk::new(logger, "object_tests", row.path, state);
    are_so(rt, &mut desk, row.steps)
}

#[test]
fn a_save_replaces_the_file_or_leaves_it(rt: HostRuntime) {
    let logger = Logged::new(&rt, LevelFilter::Off, Plain(&rt));
    for row in ROWS {
        assert!(rt; is_right(&rt, &logger, row), "{}", row.path);
    }
}

#[test]
fn of_two_desks_over_one_file_the_first_one_saves(rt: HostRuntime) {
    let path = "shared.stack";
    let logger = Logged::new(&rt, LevelFilter::Off, Plain(&rt));
    assert!(rt; fs::write(&rt, path, "old").is_ok());
    let state = state_of(&rt, path).expect(&rt, "the file is there");
    let again = state_of(&rt, path).expect(&rt, "the file is there");
    assert!(rt; state.is_plain() && state.is_same(&again));
    let mut first = FileDesk::new(&logger, "object_tests", path, state);
    let mut second = FileDesk::new(&logger, "object_tests", path, again);
    assert!(rt; keeps(rt.alloc(), &mut first, "first") == Some(true));
    assert!(rt; keeps(rt.alloc(), &mut second, "second") == Some(false));
    assert!(rt; keeps(rt.alloc(), &mut first, "first again") == Some(true));
    assert!(rt; has_stack(&rt, path, "first again"));
    assert!(rt; fs::remove_file(&rt, path).is_ok());
}
