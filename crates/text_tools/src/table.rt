//! Table: a command that keeps values under keys.

ghost use Rattle.std.specs.Prelude.{◌≡◌, ◌<◌, [], length, position, take, IfOk, IfSome, OnErr};
ghost use Rattle.ht_values.specs.Text.{same};
ghost use Rattle.xkit.specs.Steps.{Takes};
ghost use Rattle.text_tools.specs.Lookup.{delete_turn, done, entered, get_turn, place_of as place_of_key, put_turn};
ghost use Rattle.text_tools.specs.Lookup.{table_turn, with_entry};

use externals::{Ask, Input, Patch, Texts};
use ht_values::Text;
use std::alloc::Global;
use xkit::{Cells, TurnResult, changed, unchanged};

/// How many keys there are at most.
const PLACES: usize = 32;

/// Whether two texts are the same, case ignored.
fn is_same(a: &[u8], b: &[u8]) -> bool
    ensures { result ≡ same a.now b.now }
{
    a.eq_ignore_ascii_case(b)
}

/// The first place with this key; that of the empty key is free.
fn place_of(cells: &Cells, key: &[u8]) -> Option<usize>
    requires { length cells.now ≡ 64 }
    ensures value { result ≡ place_of_key key.now cells.now }
    ensures within { IfSome result (λ i. i < 32) }
{
    first_with(keys(cells), key)
}

/// The cells of the keys.
fn keys(cells: &Cells) -> &[Text]
    requires { length cells.now ≡ 64 }
    ensures value { result.now ≡ take 32 cells.now }
    ensures count { length result.now ≡ 32 }
{
    let texts = cells.as_slice();
    &texts[..PLACES]
}

/// The first of the keys that is the same.
fn first_with(keys: &[Text], key: &[u8]) -> Option<usize>
    ensures value { result ≡ position (λ k. same k key.now) keys.now }
    ensures within { IfSome result (λ i. i < length keys.now) }
{
    keys.iter().position(|other| is_same(other.as_slice(), key))
}

/// One turn, by the verb of the start.
pub(crate) fn turned(cells: &mut Cells, alloc: Global, input: &Input) -> TurnResult
    requires { length cells.old ≡ 64 }
    ensures ok { IfOk result (λ r. Takes (table_turn cells.old input.now) cells.old cells.new r.0 r.1) }
    ensures err { OnErr result (cells.new ≡ cells.old) }
    ensures count { length cells.new ≡ length cells.old }
{
    match input {
        Input::Start(args) => started(cells, alloc, args),
        Input::Answer(_, _) => Ok(unchanged(alloc, Ask::Fail)),
    }
}

fn started(cells: &mut Cells, alloc: Global, args: &Texts) -> TurnResult
    requires { length cells.old ≡ 64 }
    ensures ok { IfOk result (λ r. Takes (table_turn cells.old (Input.Start args.now)) cells.old cells.new r.0 r.1) }
    ensures err { OnErr result (cells.new ≡ cells.old) }
    ensures count { length cells.new ≡ length cells.old }
{
    let count = args.len();
    if count == 3 && is_same(args.at(0).as_slice(), b"put") {
        put(cells, alloc, args.at(1), args.at(2))
    } else if count == 2 && is_same(args.at(0).as_slice(), b"get") {
        get(cells, alloc, args.at(1))
    } else if count == 2 && is_same(args.at(0).as_slice(), b"delete") {
        delete(cells, alloc, args.at(1))
    } else {
        Ok(unchanged(alloc, Ask::Fail))
    }
}

fn put(cells: &mut Cells, alloc: Global, key: &Text, value: &Text) -> TurnResult
    requires { length cells.old ≡ 64 }
    ensures ok { IfOk result (λ r. Takes (put_turn cells.old key.now value.now) cells.old cells.new r.0 r.1) }
    ensures err { OnErr result (cells.new ≡ cells.old) }
    ensures count { length cells.new ≡ length cells.old }
{
    if key.len() == 0 {
        return Ok(unchanged(alloc, Ask::Fail));
    }
    match place_of(cells, key.as_slice()) {
        Some(place) => {
            let kept = value.try_clone(alloc)?;
            changed(
                cells,
                alloc,
                PLACES + place,
                kept,
                Ask::Done(Text::new(alloc), false),
            )
        }
        None => enter(cells, alloc, key, value),
    }
}

/// A new key takes the first free place.
fn enter(cells: &mut Cells, alloc: Global, key: &Text, value: &Text) -> TurnResult
    requires { length cells.old ≡ 64 }
    ensures ok { IfOk result (λ r. Takes
        (entered cells.old key.now value.now (place_of_key [] cells.old)) cells.old cells.new
        r.0 r.1) }
    ensures err { OnErr result (cells.new ≡ cells.old) }
    ensures count { length cells.new ≡ length cells.old }
{
    match place_of(cells, b"") {
        Some(place) => {
            let key = key.try_clone(alloc)?;
            let value = value.try_clone(alloc)?;
            set_entry(cells, alloc, place, key, value)
        }
        None => Ok(unchanged(alloc, Ask::Fail)),
    }
}

/// A place gets a key with a value. The plan takes all the memory first, so nothing is half done.
fn set_entry(cells: &mut Cells, alloc: Global, place: usize, key: Text, value: Text) -> TurnResult
    requires cells { length cells.old ≡ 64 }
    requires place { place < 32 }
    ensures ok { IfOk result (λ r. Takes (done [] (with_entry cells.old place key value)) cells.old cells.new r.0 r.1) }
    ensures err { OnErr result (cells.new ≡ cells.old) }
    ensures count { length cells.new ≡ length cells.old }
{
    let mut plan = Patch::new(alloc);
    cells.plan(&mut plan, place, key)?;
    cells.plan(&mut plan, PLACES + place, value)?;
    let patch = cells.carry_out(plan);
    Ok((Ask::Done(Text::new(alloc), false), patch))
}

fn get(cells: &Cells, alloc: Global, key: &Text) -> TurnResult
    requires { length cells.now ≡ 64 }
    ensures { IfOk result (λ r. Takes (get_turn cells.now (place_of_key key.now cells.now)) cells.now
        cells.now r.0 r.1) }
{
    let value = match place_of(cells, key.as_slice()) {
        Some(place) => cells.at(PLACES + place).try_clone(alloc)?,
        None => Text::new(alloc),
    };
    Ok(unchanged(alloc, Ask::Done(value, false)))
}

fn delete(cells: &mut Cells, alloc: Global, key: &Text) -> TurnResult
    requires { length cells.old ≡ 64 }
    ensures ok { IfOk result (λ r. Takes
        (delete_turn cells.old (place_of_key key.now cells.old)) cells.old cells.new r.0 r.1) }
    ensures err { OnErr result (cells.new ≡ cells.old) }
    ensures count { length cells.new ≡ length cells.old }
{
    match place_of(cells, key.as_slice()) {
        Some(place) => set_entry(cells, alloc, place, Text::new(alloc), Text::new(alloc)),
        None => Ok(unchanged(alloc, Ask::Done(Text::new(alloc), false))),
    }
}
