//! Where a run stopped: what is told of a fault beside its number. No clause speaks of it, and no answer depends on it.

use ht_grammar::HandlerKind;
use ht_values::{Text, Value};
use object_table::Id;
use std::alloc::Global;
use std::cell::{OnceCell, Ref, RefCell, RefMut};

/// How many of the innermost calls are kept, beside the outermost.
const MOST_CALLS: usize = 16;

/// Texts that are run and stand in no script.
#[derive(Clone, Copy, PartialEq, Eq, Debug)]
pub enum TextUse {
    /// That of `do`.
    Do,
    /// That of `value`.
    Value,
    /// That of `send`.
    Send,
    /// One that an external asks for.
    CallBack,
}

/// A call that was open as the run stopped.
#[derive(Drop)]
pub enum OpenCall {
    /// A handler in the script of an object.
    Handler {
        object: Id,
        kind: HandlerKind,
        name: Text,
        /// Where the statement begins that didn't end, in bytes from the beginning of the script.
        place: Option<usize>,
        /// Whether the object still has the script in which the handler stands.
        is_current: bool,
    },
    /// A text that was run.
    Text {
        text_use: TextUse,
        text: Text,
        place: Option<usize>,
    },
}

/// What wasn't in the grammar.
#[derive(Drop)]
pub enum Unread {
    /// The script of the first of these objects whose script isn't.
    Script(Vec<Id>),
    /// A text, which couldn't be read from this place on.
    Text {
        text_use: TextUse,
        text: Text,
        place: usize,
    },
}

/// What is remembered of a stop.
#[derive(Drop)]
pub struct Stopped {
    /// The calls that were open, the innermost first: at most sixteen, and the outermost behind them.
    pub calls: Vec<OpenCall>,
    /// How many calls between the last two are left out.
    pub left_out: usize,
    /// Where the statement begins that didn't end, in what was run outside of all these calls.
    pub place: Option<usize>,
    /// What wasn't in the grammar, where that stopped the run.
    pub unread: Option<Unread>,
    /// The texts that were meant: a name that nobody handles, what is no number, what is sought.
    pub meant: Vec<Text>,
}

/// Remembers why and where a run stops, from the inside outwards. What is remembered stands in a box, which the first
/// note makes, so that a run in which nothing is noted takes no memory for it. It never fails: what there is no memory
/// for is left out.
pub struct Trace {
    alloc: Global,
    stopped: OnceCell<Box<RefCell<Stopped>>>,
}

/// Written here and not derived, so that no crate above proves anew how it is dropped.
impl Drop for Trace {
    fn drop(self) {
        let Trace {
            alloc: _,
            stopped: _,
        } = self;
    }
}

fn nothing(alloc: Global) -> Stopped {
    Stopped {
        calls: Vec::new(alloc),
        left_out: 0,
        place: None,
        unread: None,
        meant: Vec::new(alloc),
    }
}

impl Trace {
    /// A run that goes on. It takes no memory.
    pub fn new(alloc: Global) -> Trace {
        Trace {
            alloc,
            stopped: OnceCell::new(),
        }
    }

    /// What is remembered; `None` where nothing was noted, and while it is being written.
    pub fn stopped(&self) -> Option<Ref<'_, Stopped>> {
        self.stopped.get()?.try_borrow().ok()
    }

    /// The run goes on: what was remembered is forgotten.
    pub fn forget(&self) {
        if let Some(stopped) = self.stopped.get() {
            let _ = stopped.try_replace(nothing(self.alloc));
        }
    }

    /// What is remembered, to be added to; `None` where there is no memory for its box.
    #[inline(never)]
    fn noted(&self) -> Option<RefMut<'_, Stopped>> {
        if self.stopped.get().is_none() {
            let stopped = Box::new(self.alloc, RefCell::new(nothing(self.alloc))).ok()?;
            let _ = self.stopped.set(stopped);
        }
        self.stopped.get()?.try_borrow_mut().ok()
    }

    /// A statement that begins at this place doesn't end. The innermost one of what is run is kept.
    pub fn reach(&self, place: usize) {
        if let Some(mut stopped) = self.noted() {
            if stopped.place.is_none() {
                stopped.place = Some(place);
            }
        }
    }

    /// The handler of an object doesn't end.
    pub fn leave_handler(&self, object: Id, kind: HandlerKind, name: &Text, is_current: bool) {
        let Ok(name) = name.try_clone(self.alloc) else {
            return;
        };
        let place = self.left();
        self.leave(OpenCall::Handler {
            object,
            kind,
            name,
            place,
            is_current,
        });
    }

    /// A text that is run doesn't end.
    pub fn leave_text(&self, text_use: TextUse, text: &Text) {
        let Ok(text) = text.try_clone(self.alloc) else {
            return;
        };
        let place = self.left();
        self.leave(OpenCall::Text {
            text_use,
            text,
            place,
        });
    }

    /// One of these objects, the first, has a script that isn't in the grammar.
    pub fn unread_script(&self, path: &[Id]) {
        if let Ok(path) = Vec::from_slice(self.alloc, path) {
            self.read_not(Unread::Script(path));
        }
    }

    /// A text that is to be run isn't in the grammar from a place on.
    pub fn unread_text(&self, text_use: TextUse, text: &Text, place: usize) {
        if let Ok(text) = text.try_clone(self.alloc) {
            self.read_not(Unread::Text {
                text_use,
                text,
                place,
            });
        }
    }

    /// This value was meant.
    pub fn mean(&self, value: &Value) {
        if let Ok(copy) = value.try_clone(self.alloc) {
            if let Ok(text) = copy.into_text(self.alloc) {
                self.add_meant(text);
            }
        }
    }

    /// This text was meant.
    pub fn mean_text(&self, text: &Text) {
        if let Ok(text) = text.try_clone(self.alloc) {
            self.add_meant(text);
        }
    }

    fn add_meant(&self, text: Text) {
        if let Some(mut stopped) = self.noted() {
            let _ = stopped.meant.push(text);
        }
    }

    fn read_not(&self, unread: Unread) {
        if let Some(mut stopped) = self.noted() {
            stopped.unread = Some(unread);
        }
    }

    /// The place of the statement in what is left now.
    fn left(&self) -> Option<usize> {
        let mut stopped = self.noted()?;
        let place = stopped.place;
        stopped.place = None;
        place
    }

    /// Adds a call. Past the sixteenth the last one is the outermost so far.
    fn leave(&self, call: OpenCall) {
        if let Some(mut stopped) = self.noted() {
            if stopped.calls.len() > MOST_CALLS {
                let _ = stopped.calls.pop();
                stopped.left_out = stopped.left_out.saturating_add(1);
            }
            let _ = stopped.calls.push(call);
        }
    }
}
