//! Values at pairs of a part and a card.

ghost use Rattle.std.specs.Prelude.{◌≡◌, true, false, length, nat_eq, OnOk, OnErr, OnSome, is_some, option_copied};
ghost use Rattle.std.specs.FinMap as map;
ghost use Rattle.std.specs.FinSet as set;
ghost use Rattle.std.specs.List.{AllByRecursion};
ghost use Rattle.object_table.specs.Maps.{put_option};
ghost use Rattle.object_table.specs.Opened.{values_in, open_in, with_parts, StayOpen};
ghost use Rattle.object_table.specs.Pairs.{Pair};
ghost use Rattle.object_table.specs.Rows.{entry_at, entries_of};
ghost use Rattle.object_table.specs.Slots.{slot_at};

use crate::ids::Id;
use crate::pages::Pages;
use crate::row::Row;
use std::alloc::{AllocError, Global};
use std::collections::BTreeSet;
use std::marker::Model;

/// The values that stand at pairs of the ids of a part and a card. A pair has to be open to have one, and an open pair
/// may have none. Each card with an open pair has a row, so that what a card has stands side by side; and a pair is
/// found in a few steps, whichever ids others have.
#[derive(Drop)]
pub(crate) struct PairTable<X> {
    rows: Vec<(Id, Row<X>)>,
    numbers: Pages,
    /// How many pairs are open.
    opened: usize,
    /// How many that may be until it is worth a look which can be closed.
    most: usize,
}

/// So many open pairs aren't looked through.
const FEW_PAIRS: usize = 100_000;

impl<X> Model for PairTable<X> {
    ghost use Rattle.std.specs.Prelude.{ℕ, List, Option};
    ghost use Rattle.object_table.specs.Rows.{ids_in, AreApart};
    ghost use Rattle.object_table.specs.Slots.{AreNumbered};

    ghost Value = { List (ℕ × List (ℕ × Option X)) };

    ghost view = { λ t. t.rows.items };

    ghost invariant = { λ t. AreNumbered t.numbers.pages.items t.rows.items × AreApart (ids_in t.rows.items) };
}

/// The row with a number.
fn row_with<X>(rows: &[(Id, Row<X>)], number: u32) -> Option<&Row<X>>
    ensures { option_copied result ≡ slot_at rows.now number }
{
    let place = (number as usize).checked_sub(1)?;
    Some(&rows.get(place)?.1)
}

impl<X: Drop> PairTable<X> {
    /// The table of no pairs. It takes no memory.
    pub(crate) fn new(alloc: Global) -> PairTable<X>
        ensures values { values_in (entries_of result) ≡ map.empty }
        ensures room { open_in (entries_of result) ≡ set.empty }
    {
        PairTable {
            rows: Vec::new(alloc),
            numbers: Pages::new(alloc),
            opened: 0,
            most: FEW_PAIRS,
        }
    }

    pub(crate) fn get(&self, part: Id, card: Id) -> Option<&X>
        ensures value { option_copied result ≡ map.get (values_in (entries_of self.now)) (part, card) }
        ensures room { OnSome result (set.contains (open_in (entries_of self.now)) (part, card) ≡ true) }
    {
        row_with(&self.rows, self.numbers.get(card))?.get(part)
    }

    /// Has a row for a card.
    fn reach(&mut self, card: Id) -> Result<(), AllocError>
        ensures entries { entries_of self.new ≡ entries_of self.old }
        ensures ok { OnOk result (is_some (entry_at self.new card) ≡ true) }
    {
        if self.numbers.get(card) > 0 {
            return Ok(());
        }
        let alloc = *self.rows.allocator();
        self.rows.reserve(1)?;
        let Ok(number) = u32::try_from(self.rows.len() + 1) else {
            return Err(AllocError);
        };
        self.numbers.set(card, number)?;
        self.rows.push_reserved((card, Row::new(alloc)));
        Ok(())
    }

    pub(crate) fn open(&mut self, part: Id, card: Id) -> Result<(), AllocError>
        ensures values { values_in (entries_of self.new) ≡ values_in (entries_of self.old) }
        ensures room { OnOk result (open_in (entries_of self.new)
            ≡ set.insert (open_in (entries_of self.old)) (part, card)) }
        ensures inside { OnOk result (set.contains (open_in (entries_of self.new)) (part, card) ≡ true) }
        ensures err { OnErr result (open_in (entries_of self.new) ≡ open_in (entries_of self.old)) }
    {
        self.reach(card)?;
        let place = self.numbers.get(card) as usize - 1;
        let more = self.rows[place].1.open(part)?;
        self.opened = self.opened.saturating_add(more);
        Ok(())
    }

    /// Opens the pair of each of these parts and a card. Where there is none the card gets no row.
    pub(crate) fn open_each(&mut self, parts: &[Id], card: Id) -> Result<(), AllocError>
        ensures values { values_in (entries_of self.new) ≡ values_in (entries_of self.old) }
        ensures room { OnOk result (open_in (entries_of self.new)
            ≡ with_parts (open_in (entries_of self.old)) parts.now card) }
        ensures inside { OnOk result (AllByRecursion (λ part.
            set.contains (open_in (entries_of self.new)) (part, card) ≡ true) parts.now) }
        ensures err { OnErr result (open_in (entries_of self.new) ≡ open_in (entries_of self.old)) }
    {
        if parts.is_empty() {
            return Ok(());
        }
        self.reach(card)?;
        let place = self.numbers.get(card) as usize - 1;
        let more = self.rows[place].1.open_each(parts)?;
        self.opened = self.opened.saturating_add(more);
        Ok(())
    }

    /// Whether so many pairs are open, by the last look, that it is worth another.
    pub(crate) fn has_many_pairs(&self) -> bool {
        self.most < self.opened
    }

    /// How many pairs are open.
    fn pair_count(&self) -> usize {
        self.rows
            .iter()
            .fold(0, |count: usize, row| count.saturating_add(row.1.len()))
    }

    /// Closes what is open of a card, if none of it has a value.
    fn close(&mut self, card: Id)
        requires { is_some (entry_at self.old card) ≡ true }
        ensures values { values_in (entries_of self.new) ≡ values_in (entries_of self.old) }
        ensures others { (p : Pair) → nat_eq card p.1 ≡ false
            → set.contains (open_in (entries_of self.new)) p ≡ set.contains (open_in (entries_of self.old)) p }
        ensures count { length self.new ≡ length self.old }
    {
        let alloc = *self.rows.allocator();
        let place = self.numbers.get(card) as usize - 1;
        if self.rows[place].1.is_vacant() {
            self.rows[place].1 = Row::new(alloc);
        }
    }

    /// Closes what is open of cards that aren't among these, if none of it has a value.
    pub(crate) fn close_others(&mut self, cards: &BTreeSet<Id>)
        ensures values { values_in (entries_of self.new) ≡ values_in (entries_of self.old) }
        ensures room { StayOpen cards.now (open_in (entries_of self.old)) (open_in (entries_of self.new)) }
    {
        for place in 0..self.rows.len() {
            let card = self.rows[place].0;
            if !cards.contains(&card) {
                self.close(card);
            }
        }
        self.opened = self.pair_count();
        self.most = self.opened.saturating_mul(2).max(FEW_PAIRS);
    }

    /// Each pair with a value is open. It does nothing.
    pub(crate) fn law_of_room(&self)
        ensures { (p : Pair) → is_some (map.get (values_in (entries_of self.now)) p) ≡ true
            → set.contains (open_in (entries_of self.now)) p ≡ true }
    {
        let _ = &self.rows;
    }

    pub(crate) fn swap(&mut self, part: Id, card: Id, value: &mut Option<X>)
        requires { set.contains (open_in (entries_of self.old)) (part, card) ≡ true }
        ensures value { value.new ≡ map.get (values_in (entries_of self.old)) (part, card) }
        ensures values { values_in (entries_of self.new)
            ≡ put_option (values_in (entries_of self.old)) (part, card) value.old }
        ensures room { open_in (entries_of self.new) ≡ open_in (entries_of self.old) }
    {
        let place = self.numbers.get(card) as usize - 1;
        self.rows[place].1.swap(part, value);
    }
}
