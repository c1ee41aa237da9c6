//! References to objects, and what `the number of` counts.

ghost use Rattle.std.specs.Prelude.{◌≡◌, ◌+◌, ◌≤◌};
ghost use Rattle.ht_grammar.specs.Trees as t;
ghost use Rattle.ht_grammar.specs.Depth.{which_depth, selector_depth, owner_depth, part_depth, ref_depth, count_depth};
ghost use Rattle.ht_grammar.specs.Depth.{max_depth};
ghost use Rattle.ht_tree.specs.View.{which_of, selector_of, owner_of, part_of, ref_of, count_of};

use crate::expr::Expr;
use ht_grammar::Layer;
use ht_lex::Ordinal;
use ht_values::{ChunkKind, PartKind};

/// Which object: by its id, or by its number or name.
#[cycle(tree)]
pub enum Which {
    ById(Expr),
    ByText(Expr),
}

/// Written here and not derived, so that no crate above proves anew how it is dropped.
impl Drop for Which {
    #[cycle(tree)]
    fn drop(self) {
        match self {
            Which::ById(_) => {}
            Which::ByText(_) => {}
        }
    }
}

/// Which card or background.
#[cycle(tree)]
pub enum Selector {
    This,
    Next,
    Previous,
    Nth(Ordinal),
    Which(Which),
}

/// Written here and not derived, so that no crate above proves anew how it is dropped.
impl Drop for Selector {
    #[cycle(tree)]
    fn drop(self) {
        match self {
            Selector::This => {}
            Selector::Next => {}
            Selector::Previous => {}
            Selector::Nth(_) => {}
            Selector::Which(_) => {}
        }
    }
}

/// The card or background on which a part is looked for.
#[cycle(tree)]
pub enum Owner {
    NoOwner,
    OnCard(Box<Selector>),
    OnBackground(Box<Selector>),
}

/// Written here and not derived, so that no crate above proves anew how it is dropped.
impl Drop for Owner {
    #[cycle(tree)]
    fn drop(self) {
        match self {
            Owner::NoOwner => {}
            Owner::OnCard(_) => {}
            Owner::OnBackground(_) => {}
        }
    }
}

/// A button or a field, with the layer that is written before it.
#[cycle(tree)]
pub enum Part {
    Plain(Option<Layer>, PartKind, Which, Owner),
    Nth(Ordinal, Option<Layer>, PartKind, Owner),
}

/// Written here and not derived, so that no crate above proves anew how it is dropped.
impl Drop for Part {
    #[cycle(tree)]
    fn drop(self) {
        match self {
            Part::Plain(_, _, _, _) => {}
            Part::Nth(_, _, _, _) => {}
        }
    }
}

/// A reference to an object.
#[cycle(tree)]
pub enum Ref {
    Me,
    Target,
    ThisStack,
    Card(Selector),
    Background(Selector),
    Part(Part),
}

/// Written here and not derived, so that no crate above proves anew how it is dropped.
impl Drop for Ref {
    #[cycle(tree)]
    fn drop(self) {
        match self {
            Ref::Me => {}
            Ref::Target => {}
            Ref::ThisStack => {}
            Ref::Card(_) => {}
            Ref::Background(_) => {}
            Ref::Part(_) => {}
        }
    }
}

/// What `the number of` counts, or the object whose number it is.
#[cycle(tree)]
pub enum Count {
    PiecesOf(ChunkKind, Expr),
    Cards,
    Backgrounds,
    Parts(Option<Layer>, PartKind),
    OfObject(Box<Ref>),
}

/// Written here and not derived, so that no crate above proves anew how it is dropped.
impl Drop for Count {
    #[cycle(tree)]
    fn drop(self) {
        match self {
            Count::PiecesOf(_, _) => {}
            Count::Cards => {}
            Count::Backgrounds => {}
            Count::Parts(_, _) => {}
            Count::OfObject(_) => {}
        }
    }
}

impl Which {
    /// The depth of the id, number or name.
    pub fn depth(&self) -> usize
        ensures value { result ≡ which_depth (which_of self.now) }
        ensures limit { result ≤ max_depth }
    {
        match self {
            Which::ById(id) => id.depth(),
            Which::ByText(text) => text.depth(),
        }
    }
}

impl Selector {
    /// The depth of the id, number or name, 0 where there is none.
    pub fn depth(&self) -> usize
        ensures value { result ≡ selector_depth (selector_of self.now) }
        ensures limit { result ≤ max_depth }
    {
        match self {
            Selector::This | Selector::Next | Selector::Previous | Selector::Nth(_) => 0,
            Selector::Which(which) => which.depth(),
        }
    }
}

impl Owner {
    /// One more than the depth of its card or background, 0 where there is none.
    pub fn depth(&self) -> usize
        ensures value { result ≡ owner_depth (owner_of self.now) }
        ensures limit { result ≤ max_depth + 1 }
    {
        match self {
            Owner::NoOwner => 0,
            Owner::OnCard(selector) => selector.depth() + 1,
            Owner::OnBackground(selector) => selector.depth() + 1,
        }
    }
}

impl Part {
    pub fn kind(&self) -> PartKind
        ensures { result ≡ t.kind_of_part (part_of self.now) }
    {
        match self {
            Part::Plain(_, kind, _, _) => *kind,
            Part::Nth(_, _, kind, _) => *kind,
        }
    }

    /// The card or background that it is looked for on.
    pub fn owner(&self) -> &Owner
        ensures { owner_of result.now ≡ t.owner_of (part_of self.now) }
    {
        match self {
            Part::Plain(_, _, _, owner) => owner,
            Part::Nth(_, _, _, owner) => owner,
        }
    }

    /// One more than the depth of its id, number or name and of its owner.
    pub fn depth(&self) -> usize
        ensures value { result ≡ part_depth (part_of self.now) }
        ensures limit { result ≤ max_depth + 2 }
    {
        match self {
            Part::Plain(_, _, which, owner) => which.depth().max(owner.depth()) + 1,
            Part::Nth(_, _, _, owner) => owner.depth() + 1,
        }
    }
}

impl Ref {
    /// One more than the depth of what it is referred to by.
    pub fn depth(&self) -> usize
        ensures value { result ≡ ref_depth (ref_of self.now) }
        ensures limit { result ≤ max_depth + 2 }
    {
        match self {
            Ref::Me | Ref::Target | Ref::ThisStack => 1,
            Ref::Card(selector) => selector.depth() + 1,
            Ref::Background(selector) => selector.depth() + 1,
            Ref::Part(part) => part.depth(),
        }
    }
}

impl Count {
    pub(crate) fn depth(&self) -> usize
        ensures value { result ≡ count_depth (count_of self.now) }
        ensures limit { result ≤ max_depth + 2 }
    {
        match self {
            Count::PiecesOf(_, text) => text.depth(),
            Count::Cards | Count::Backgrounds | Count::Parts(_, _) => 0,
            Count::OfObject(reference) => reference.depth(),
        }
    }
}
