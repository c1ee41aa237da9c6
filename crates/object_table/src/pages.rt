//! Numbers at ids.

ghost use Rattle.std.specs.Prelude.{◌≡◌, ◌==◌, ◌<◌, ◌≤◌, ℕ, [], length, slice_index_or, OnOk, OnErr, if◌then◌else◌};
ghost use Rattle.object_table.specs.Pages.{number_at};

use crate::ids::Id;
use std::alloc::{AllocError, Global};
use std::marker::Model;

/// How many ids side by side share a page.
const PAGE: usize = 64;

/// The numbers at ids side by side, 0 where none was set: of none of them yet, or of each.
#[derive(Drop)]
struct Page {
    numbers: Vec<u32>,
}

impl Model for Page {
    ghost use Rattle.std.specs.Prelude.{List, ℕ};

    ghost Value = { List ℕ };

    ghost view = { λ p. p.numbers.items };
}

impl Page {
    fn new(alloc: Global) -> Page
        ensures { result ≡ [] }
    {
        Page {
            numbers: Vec::new(alloc),
        }
    }

    fn get(&self, at: usize) -> u32
        ensures { result ≡ slice_index_or self.now at 0 }
    {
        self.numbers.get(at).copied().unwrap_or(0)
    }

    /// Has a number at each of its ids.
    fn fill(&mut self) -> Result<(), AllocError>
        ensures same { (q : ℕ) → slice_index_or self.new q 0 ≡ slice_index_or self.old q 0 }
        ensures ok { OnOk result (64 ≤ length self.new) }
    {
        if self.numbers.len() < PAGE {
            self.numbers.resize(PAGE, 0)?;
        }
        Ok(())
    }

    #[tactic(auto, using(crate::proofs::Paged::written))]
    fn set(&mut self, at: usize, number: u32) -> Result<(), AllocError>
        requires { at < 64 }
        ensures ok { OnOk result ((q : ℕ) → slice_index_or self.new q 0
            ≡ (if q == at then number else slice_index_or self.old q 0)) }
        ensures err { OnErr result ((q : ℕ) → slice_index_or self.new q 0 ≡ slice_index_or self.old q 0) }
    {
        self.fill()?;
        self.numbers[at] = number;
        Ok(())
    }
}

/// Numbers at ids, 0 where none was set, in pages of ids side by side. A page takes memory once one of its ids has a
/// number. So an id is found in two steps, whichever others have numbers, and ids far apart take a page each.
#[derive(Drop)]
pub(crate) struct Pages {
    pages: Vec<Page>,
}

impl Pages {
    /// No id has a number. It takes no memory.
    pub(crate) fn new(alloc: Global) -> Pages
        ensures { result.pages.items ≡ [] }
    {
        Pages {
            pages: Vec::new(alloc),
        }
    }

    pub(crate) fn get(&self, id: Id) -> u32
        ensures { result ≡ number_at self.now.pages.items id }
    {
        let id = id as usize;
        match self.pages.get(id / PAGE) {
            Some(page) => page.get(id % PAGE),
            None => 0,
        }
    }

    #[tactic(auto, using(crate::proofs::Paged::number_written, crate::proofs::Paged::number_same))]
    pub(crate) fn set(&mut self, id: Id, number: u32) -> Result<(), AllocError>
        ensures ok { OnOk result ((q : ℕ) → number_at self.new.pages.items q
            ≡ (if q == id then number else number_at self.old.pages.items q)) }
        ensures err { OnErr result ((q : ℕ) → number_at self.new.pages.items q ≡ number_at self.old.pages.items q) }
    {
        let id = id as usize;
        self.reach(id / PAGE)?;
        self.pages[id / PAGE].set(id % PAGE, number)
    }

    /// Adds empty pages until this one is there.
    fn reach(&mut self, page: usize) -> Result<(), AllocError>
        ensures same { (q : ℕ) → number_at self.new.pages.items q ≡ number_at self.old.pages.items q }
        ensures ok { OnOk result (page < length self.new.pages.items) }
    {
        let alloc = *self.pages.allocator();
        'reach: while self.pages.len() <= page {
            self.pages.push(Page::new(alloc))?;
        }
        Ok(())
    }
}
