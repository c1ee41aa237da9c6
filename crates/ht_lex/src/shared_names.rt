//! Names that a text has more than once.

ghost use Rattle.std.specs.Prelude.{◌≡◌, ◌≤◌, length, IfSome};
ghost use Rattle.ht_values.specs.declared.text.TheConstants.{LIMIT};

use crate::stop::to_name;
use ht_values::Name;
use std::alloc::Global;
use std::cell::RefCell;
use std::rc::Rc;

/// How long a name is at most that is shared, in bytes. Longer ones are passed over before anything is looked up.
const LONGEST: usize = 2;

/// A text shares its names of one byte from so many short names on. Before that, room for them takes longer than it
/// saves.
const SOME: usize = 32;

/// A text shares its names of two bytes too from so many short names on.
const MANY: usize = 1_000;

/// A place for each name of one byte, which is at its byte.
const ONES: usize = 256;

/// With those, a place for each name of two bytes.
const PLACES: usize = ONES + 64 * 64;

/// The names of a text, as they come, and its other words, which are kept as names are. In a long text each of at most
/// two bytes takes memory once: these are the ones that a text has room for most often.
pub(crate) struct SharedNames {
    names: RefCell<Names>,
}

/// How many short names there were, and each at its place once there were enough; else none.
struct Names {
    count: usize,
    places: Vec<Option<Rc<Name>>>,
}

/// Written here and not derived, so that it is proved once how they are dropped.
impl Drop for Names {
    fn drop(self) {
        let Names {
            count: _,
            places: _,
        } = self;
    }
}

/// Written here and not derived, so that no reader of a text has it in its frame.
impl Drop for SharedNames {
    #[inline(never)]
    fn drop(self) {
        let SharedNames { names: _ } = self;
    }
}

impl SharedNames {
    /// No name yet. It takes no memory.
    pub(crate) fn new(alloc: Global) -> SharedNames {
        let places = Vec::new(alloc);
        SharedNames {
            names: RefCell::new(Names { count: 0, places }),
        }
    }

    /// The next name, if it is shared. Where memory is refused, it isn't.
    #[inline(always)]
    pub(crate) fn next(&self, alloc: Global, bytes: &[u8]) -> Option<Rc<Name>>
        requires { length bytes.now ≤ LIMIT }
        ensures { IfSome result (λ name. name.value ≡ bytes.now) }
    {
        if bytes.len() > LONGEST {
            return None;
        }
        self.next_short(alloc, bytes)
    }

    /// The next name that isn't longer than those which are shared.
    #[inline(never)]
    fn next_short(&self, alloc: Global, bytes: &[u8]) -> Option<Rc<Name>>
        requires { length bytes.now ≤ LIMIT }
        ensures { IfSome result (λ name. name.value ≡ bytes.now) }
    {
        match self.names.try_borrow_mut() {
            Ok(mut names) => names.next(alloc, bytes),
            Err(_) => None,
        }
    }
}

impl Names {
    /// The next name, if it has a place.
    fn next(&mut self, alloc: Global, bytes: &[u8]) -> Option<Rc<Name>>
        requires { length bytes.now ≤ LIMIT }
        ensures { IfSome result (λ name. name.value ≡ bytes.now) }
    {
        self.count_one();
        let place = self.places.get_mut(place_of(bytes))?;
        shared(alloc, place, bytes)
    }

    /// Counts a name, and makes room where there are enough. Where memory is refused, fewer names are shared.
    fn count_one(&mut self) {
        self.count = self.count.saturating_add(1);
        if self.count == SOME || self.count == MANY {
            self.make_room();
        }
    }

    /// Makes room for what so many names share. It is out of line: most names find it made.
    #[inline(never)]
    fn make_room(&mut self) {
        let room = if self.count < MANY { ONES } else { PLACES };
        let _ = self.places.resize(room, None);
    }
}

/// The name whose place is this one: that which stands there, if it is the same, else one that stands there from now
/// on.
#[inline(always)]
fn shared(alloc: Global, place: &mut Option<Rc<Name>>, bytes: &[u8]) -> Option<Rc<Name>>
    requires { length bytes.now ≤ LIMIT }
    ensures { IfSome result (λ name. name.value ≡ bytes.now) }
{
    let there = share(place, bytes);
    if there.is_some() {
        return there;
    }
    placed(alloc, place, bytes)
}

/// A name that stands at a place from now on. It is out of line: most names stand there.
#[inline(never)]
fn placed(alloc: Global, place: &mut Option<Rc<Name>>, bytes: &[u8]) -> Option<Rc<Name>>
    requires { length bytes.now ≤ LIMIT }
    ensures { IfSome result (λ name. name.value ≡ bytes.now) }
{
    let name = Rc::new(alloc, to_name(alloc, bytes).ok()?).ok()?;
    *place = name.clone().ok();
    Some(name)
}

/// The name that stands at a place, if it is spelled so.
fn share(place: &Option<Rc<Name>>, bytes: &[u8]) -> Option<Rc<Name>>
    ensures { IfSome result (λ name. name.value ≡ bytes.now) }
{
    match place {
        Some(name) => {
            if name.text().as_slice() == bytes {
                name.clone().ok()
            } else {
                None
            }
        }
        None => None,
    }
}

/// Where a name of one byte or two stands, each at a place of its own, and what has no byte. Longer ones have no place.
fn place_of(bytes: &[u8]) -> usize {
    match bytes {
        [] => 0,
        [byte] => usize::from(*byte),
        [first, second] => ONES + 64 * code(*first) + code(*second),
        _ => PLACES,
    }
}

/// A number below 63 for each byte that names have.
fn code(byte: u8) -> usize
    ensures { result ≤ 62 }
{
    match byte {
        b'a'..=b'z' => usize::from(byte - b'a'),
        b'A'..=b'Z' => usize::from(byte - b'A') + 26,
        b'0'..=b'9' => usize::from(byte - b'0') + 52,
        _ => 62,
    }
}
