//! References to objects.

ghost use Rattle.std.specs.Prelude.{◌<◌, ◌+◌, suc};
ghost use Rattle.ht_lex.specs.Token.{first_kind, later};
ghost use Rattle.ht_grammar.specs.Trees as t;
ghost use Rattle.ht_grammar.specs.Depth.{which_depth, selector_depth, owner_depth, part_depth, ref_depth};
ghost use Rattle.ht_grammar.specs.Reading as spec;
ghost use Rattle.ht_tree.specs.View.{which_of, selector_of, owner_of, part_of, ref_of};
ghost use Rattle.ht_expressions.specs.Answer.{Reads};
ghost use Rattle.ht_expressions.specs.Fronts.{front_view};
ghost use Rattle.ht_expressions.specs.Nests.{Nests};

use crate::front::{PartFront, eat_of, part_front, referenced_layer};
use crate::grammar::{Grammar, Level};
use ht_grammar::Layer;
use ht_lex::{Cursor, Key, Ordinal, Stop, TokenKind, is_same};
use ht_tree::{Expr, Owner, Part, Ref, Selector, Which};
use ht_values::PartKind;
use std::alloc::Global;

impl<F: Fn(Global, &mut Cursor<'_>, Level, usize) -> Result<Expr, Stop>> Grammar<F> {
    /// An id, or a number or name.
    #[tactic(auto, unfolding(ht_grammar::specs::Reading::which_at))]
    fn which(&self, tokens: &mut Cursor<'_>) -> Result<Which, Stop>
        requires { Nests self.now.depth (F.pre self.now.read) (F.post self.now.read) }
        ensures { Reads which_of which_depth self.now.depth
            (spec.which_at (spec.read self.now.depth) self.now.depth tokens.old) result tokens.new }
    {
        match tokens.peek() {
            Some(TokenKind::Key(Key::Id)) => {
                tokens.skip();
                let id = self.read(tokens, Level::Primary)?;
                Ok(Which::ById(id))
            }
            _ => {
                let text = self.read(tokens, Level::Primary)?;
                Ok(Which::ByText(text))
            }
        }
    }

    /// A card or a background. Its word is the second token, or the first.
    #[tactic(auto, unfolding(ht_grammar::specs::Reading::selector_at))]
    pub(crate) fn selector(&self, tokens: &mut Cursor<'_>) -> Result<Selector, Stop>
        requires { Nests self.now.depth (F.pre self.now.read) (F.post self.now.read) }
        ensures { Reads selector_of selector_depth self.now.depth
            (spec.selector_at (spec.read self.now.depth) self.now.depth tokens.old) result tokens.new }
    {
        let kind = tokens.peek();
        tokens.skip();
        match kind {
            Some(TokenKind::Key(Key::This)) => {
                tokens.skip();
                Ok(Selector::This)
            }
            Some(TokenKind::Key(Key::Next)) => {
                tokens.skip();
                Ok(Selector::Next)
            }
            Some(TokenKind::Key(Key::Previous)) => {
                tokens.skip();
                Ok(Selector::Previous)
            }
            Some(TokenKind::Key(Key::Ordinal(ordinal))) => {
                tokens.skip();
                Ok(Selector::Nth(ordinal))
            }
            _ => Ok(Selector::Which(self.which(tokens)?)),
        }
    }

    /// A card or a background that a part stands on.
    fn owning_selector(&self, tokens: &mut Cursor<'_>) -> Result<Selector, Stop>
        requires { Nests self.now.depth (F.pre self.now.read) (F.post self.now.read) }
        ensures { Reads selector_of (λ p. suc (selector_depth p)) self.now.depth
            (spec.fitting (spec.read self.now.depth) self.now.depth (λ p. suc (selector_depth p))
            (spec.selector_at (spec.read self.now.depth) self.now.depth tokens.old)) result tokens.new }
    {
        let selector = self.selector(tokens)?;
        let fits = selector.depth() < self.depth;
        fits.then_some(selector).ok_or(Stop::Syntax)
    }

    /// The owner after `of` or `in`, where a card or a background comes and no part on it.
    #[tactic(auto, unfolding(ht_grammar::specs::Reading::owner_at))]
    fn owner(&self, tokens: &mut Cursor<'_>) -> Result<Owner, Stop>
        requires { Nests self.now.depth (F.pre self.now.read) (F.post self.now.read) }
        ensures { Reads owner_of owner_depth self.now.depth
            (spec.owner_at (spec.read self.now.depth) self.now.depth tokens.old) result tokens.new }
    {
        let before = tokens.mark();
        if !eat_of(tokens) {
            return Ok(Owner::NoOwner);
        }
        match referenced_layer(tokens) {
            None => {
                *tokens = before;
                Ok(Owner::NoOwner)
            }
            Some(layer) => {
                let selector = self.owning_selector(tokens)?;
                match layer {
                    Layer::Card => Ok(Owner::OnCard(Box::new(self.alloc, selector)?)),
                    Layer::Background => {
                        Ok(Owner::OnBackground(Box::new(self.alloc, selector)?))
                    }
                }
            }
        }
    }

    /// A part by its id, number or name, after its kind.
    #[tactic(auto, unfolding(ht_grammar::specs::Reading::part_end))]
    fn part_end(&self, tokens: &mut Cursor<'_>, front: PartFront) -> Result<Part, Stop>
        requires { Nests self.now.depth (F.pre self.now.read) (F.post self.now.read) }
        ensures { Reads part_of part_depth (self.now.depth + 1)
            (spec.part_end (spec.read self.now.depth) self.now.depth (front_view front) tokens.old) result tokens.new }
    {
        let which = self.which(tokens)?;
        let owner = self.owner(tokens)?;
        Ok(Part::Plain(front.layer, front.kind, which, owner))
    }

    /// A part by an ordinal, after its kind.
    #[tactic(auto, unfolding(ht_grammar::specs::Reading::nth_end))]
    fn nth_end(
        &self,
        tokens: &mut Cursor<'_>,
        ordinal: Ordinal,
        front: PartFront,
    ) -> Result<Part, Stop>
        requires { Nests self.now.depth (F.pre self.now.read) (F.post self.now.read) }
        ensures { Reads part_of part_depth (self.now.depth + 1)
            (spec.nth_end (spec.read self.now.depth) self.now.depth ordinal (front_view front) tokens.old) result
            tokens.new }
    {
        let owner = self.owner(tokens)?;
        Ok(Part::Nth(ordinal, front.layer, front.kind, owner))
    }

    /// A button or a field.
    #[tactic(auto, unfolding(ht_grammar::specs::Reading::part_at))]
    pub(crate) fn part(&self, tokens: &mut Cursor<'_>) -> Result<Part, Stop>
        requires { Nests self.now.depth (F.pre self.now.read) (F.post self.now.read) }
        ensures { Reads part_of part_depth (self.now.depth + 1)
            (spec.part_at (spec.read self.now.depth) self.now.depth tokens.old) result tokens.new }
    {
        match tokens.peek() {
            Some(TokenKind::Key(Key::Ordinal(ordinal))) => {
                tokens.skip();
                match part_front(tokens) {
                    Some(front) => self.nth_end(tokens, ordinal, front),
                    None => Err(Stop::Syntax),
                }
            }
            _ => match part_front(tokens) {
                Some(front) => self.part_end(tokens, front),
                None => Err(Stop::Syntax),
            },
        }
    }

    /// A field.
    #[tactic(auto, unfolding(ht_grammar::specs::Reading::field_at))]
    pub(crate) fn field(&self, tokens: &mut Cursor<'_>) -> Result<Part, Stop>
        requires { Nests self.now.depth (F.pre self.now.read) (F.post self.now.read) }
        ensures { Reads part_of part_depth (self.now.depth + 1)
            (spec.field_at (spec.read self.now.depth) self.now.depth tokens.old) result tokens.new }
    {
        let part = self.part(tokens)?;
        let is_field = matches!(part.kind(), PartKind::Field);
        is_field.then_some(part).ok_or(Stop::Syntax)
    }

    /// A card, a background or a part, by its layer's word in front.
    fn reference_on(&self, tokens: &mut Cursor<'_>, layer: Option<Layer>) -> Result<Ref, Stop>
        requires { Nests self.now.depth (F.pre self.now.read) (F.post self.now.read) }
        ensures { Reads ref_of ref_depth (self.now.depth + 1)
            (spec.ref_of_layer (spec.read self.now.depth) self.now.depth layer tokens.old) result tokens.new }
    {
        match layer {
            Some(layer) => {
                let selector = self.selector(tokens)?;
                match layer {
                    Layer::Card => Ok(Ref::Card(selector)),
                    Layer::Background => Ok(Ref::Background(selector)),
                }
            }
            None => Ok(Ref::Part(self.part(tokens)?)),
        }
    }

    /// A reference to an object.
    #[tactic(auto, unfolding(ht_grammar::specs::Reading::ref_at))]
    fn reference(&self, tokens: &mut Cursor<'_>) -> Result<Ref, Stop>
        requires { Nests self.now.depth (F.pre self.now.read) (F.post self.now.read) }
        ensures { Reads ref_of ref_depth (self.now.depth + 1)
            (spec.ref_at (spec.read self.now.depth) self.now.depth tokens.old) result tokens.new }
    {
        match tokens.peek() {
            Some(TokenKind::Key(Key::Me)) => {
                tokens.skip();
                Ok(Ref::Me)
            }
            Some(TokenKind::Key(Key::The)) => {
                tokens.skip();
                target(tokens)
            }
            Some(TokenKind::Key(Key::This)) => self.this(tokens),
            _ => {
                let layer = referenced_layer(tokens);
                self.reference_on(tokens, layer)
            }
        }
    }

    /// A reference at `this`.
    fn this(&self, tokens: &mut Cursor<'_>) -> Result<Ref, Stop>
        requires { Nests self.now.depth (F.pre self.now.read) (F.post self.now.read) }
        ensures { Reads ref_of ref_depth (self.now.depth + 1)
            (spec.this_by (spec.read self.now.depth) self.now.depth (first_kind (later tokens.old)) tokens.old) result
            tokens.new }
    {
        match tokens.second() {
            Some(TokenKind::Key(Key::Stack)) => {
                tokens.skip();
                tokens.skip();
                Ok(Ref::ThisStack)
            }
            _ => {
                let layer = referenced_layer(tokens);
                self.reference_on(tokens, layer)
            }
        }
    }

    /// A reference that is a part of something.
    #[tactic(auto, unfolding(ht_grammar::specs::Reading::inner_ref))]
    pub(crate) fn inner_reference(&self, tokens: &mut Cursor<'_>) -> Result<Ref, Stop>
        requires { Nests self.now.depth (F.pre self.now.read) (F.post self.now.read) }
        ensures { Reads ref_of ref_depth self.now.depth
            (spec.inner_ref (spec.read self.now.depth) self.now.depth tokens.old) result tokens.new }
    {
        let reference = self.reference(tokens)?;
        let fits = reference.depth() <= self.depth;
        fits.then_some(reference).ok_or(Stop::Syntax)
    }
}

/// `target`, after `the`.
fn target(tokens: &mut Cursor<'_>) -> Result<Ref, Stop>
    ensures { Reads ref_of ref_depth 1 (spec.target_by (spec.read 0) 0 (first_kind tokens.old) tokens.old) result
        tokens.new }
{
    match tokens.peek() {
        Some(TokenKind::Name) => {
            if is_same(tokens.take(), b"target") {
                Ok(Ref::Target)
            } else {
                Err(Stop::Syntax)
            }
        }
        _ => Err(Stop::Syntax),
    }
}
