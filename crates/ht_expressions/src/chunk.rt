//! Factors: chunks, counts, properties and what `the` begins; and what stands before a factor.

ghost use Rattle.std.specs.Prelude.{◌<◌, ◌+◌, Option};
ghost use Rattle.ht_lex.specs.Token.{first_kind, first_text, later};
ghost use Rattle.ht_grammar.specs.Trees as t;
ghost use Rattle.ht_grammar.specs.Depth.{chunk_depth, count_depth, max_depth};
ghost use Rattle.ht_grammar.specs.Fronts as f;
ghost use Rattle.ht_grammar.specs.Expressions as e;
ghost use Rattle.ht_grammar.specs.Reading as spec;
ghost use Rattle.ht_tree.specs.View.{chunk_of, count_of};
ghost use Rattle.ht_expressions.specs.Answer.{Reads, ReadsExpr};
ghost use Rattle.ht_expressions.specs.Nests.{Nests};

use crate::contextual_keywords::{function_of, prop_front, run_prop, short_of};
use crate::front::{article, eat_of};
use crate::grammar::{Grammar, Level, WHOLE, to_expr};
use ht_grammar::{FunctionWord, Layer};
use ht_lex::{Cursor, Key, Ordinal, Stop, TokenKind, is_same};
use ht_tree::{Bounds, Chunk, Count, Expr, ExprKind};
use ht_values::{ChunkKind, Prop, UnOp};
use std::alloc::Global;

/// A piece by an ordinal, after it.
fn nth_chunk(tokens: &mut Cursor<'_>, ordinal: Ordinal) -> Result<Chunk, Stop>
    ensures { Reads chunk_of chunk_depth 0 (spec.nth_by (spec.read 0) 0 (first_kind tokens.old) ordinal tokens.old)
        result tokens.new }
{
    match tokens.peek() {
        Some(TokenKind::Key(Key::Piece(piece))) => {
            tokens.skip();
            Ok(Chunk::NthPiece(ordinal, piece))
        }
        _ => Err(Stop::Syntax),
    }
}

/// A piece by an ordinal.
fn ordinal_chunk(tokens: &mut Cursor<'_>) -> Result<Chunk, Stop>
    ensures { Reads chunk_of chunk_depth 0 (spec.ordinal_by (spec.read 0) 0 (first_kind tokens.old) tokens.old) result
        tokens.new }
{
    match tokens.peek() {
        Some(TokenKind::Key(Key::Ordinal(ordinal))) => {
            tokens.skip();
            nth_chunk(tokens, ordinal)
        }
        _ => Err(Stop::Syntax),
    }
}

impl<F: Fn(Global, &mut Cursor<'_>, Level, usize) -> Result<Expr, Stop>> Grammar<F> {
    /// The pieces by their first index, and their last one after `to`.
    fn chunk_from(&self, tokens: &mut Cursor<'_>, piece: ChunkKind) -> Result<Chunk, Stop>
        requires { Nests self.now.depth (F.pre self.now.read) (F.post self.now.read) }
        ensures { Reads chunk_of chunk_depth self.now.depth
            (spec.and_then (spec.read self.now.depth e.whole tokens.old)
            (λ i r. spec.piece_by (spec.read self.now.depth) self.now.depth (first_kind r) piece i r))
            result tokens.new }
    {
        let first = self.read(tokens, WHOLE)?;
        match tokens.peek() {
            Some(TokenKind::Key(Key::To)) => {
                tokens.skip();
                let last = self.read(tokens, WHOLE)?;
                let bounds = Box::new(self.alloc, Bounds { first, last })?;
                Ok(Chunk::Pieces(piece, bounds))
            }
            _ => Ok(Chunk::Piece(piece, first)),
        }
    }

    /// Which pieces: what stands before `of` and the text.
    #[tactic(auto, unfolding(ht_grammar::specs::Reading::chunk_at))]
    pub(crate) fn chunk_head(&self, tokens: &mut Cursor<'_>) -> Result<Chunk, Stop>
        requires { Nests self.now.depth (F.pre self.now.read) (F.post self.now.read) }
        ensures { Reads chunk_of chunk_depth self.now.depth
            (spec.chunk_at (spec.read self.now.depth) self.now.depth tokens.old) result tokens.new }
    {
        match tokens.peek() {
            Some(TokenKind::Key(Key::Piece(piece))) => {
                tokens.skip();
                self.chunk_from(tokens, piece)
            }
            Some(TokenKind::Key(Key::The)) => {
                tokens.skip();
                ordinal_chunk(tokens)
            }
            _ => ordinal_chunk(tokens),
        }
    }

    /// `of` or `in`, and a factor.
    fn factor_of(&self, tokens: &mut Cursor<'_>) -> Result<Expr, Stop>
        requires { Nests self.now.depth (F.pre self.now.read) (F.post self.now.read) }
        ensures { ReadsExpr self.now.depth
            (spec.of_part (spec.read self.now.depth) self.now.depth (spec.read self.now.depth e.factor)
            (f.after_of tokens.old)) result tokens.new }
    {
        if !eat_of(tokens) {
            return Err(Stop::Syntax);
        }
        self.read(tokens, Level::Factor)
    }

    /// Pieces of a factor's text.
    #[tactic(auto, unfolding(ht_grammar::specs::Reading::chunk_form))]
    fn chunk_form(&self, tokens: &mut Cursor<'_>) -> Result<Expr, Stop>
        requires nests { Nests self.now.depth (F.pre self.now.read) (F.post self.now.read) }
        requires shallow { self.now.depth < max_depth }
        ensures { ReadsExpr (self.now.depth + 1) (spec.chunk_form (spec.read self.now.depth) self.now.depth tokens.old)
            result tokens.new }
    {
        let chunk = self.chunk_head(tokens)?;
        let text = self.factor_of(tokens)?;
        to_expr(self.alloc, ExprKind::Chunk(chunk, text))
    }

    /// An object whose number is asked.
    fn object_asked(&self, tokens: &mut Cursor<'_>) -> Result<Count, Stop>
        requires { Nests self.now.depth (F.pre self.now.read) (F.post self.now.read) }
        ensures { Reads count_of count_depth self.now.depth
            (spec.made t.of_object (spec.inner_ref (spec.read self.now.depth) self.now.depth tokens.old)) result
            tokens.new }
    {
        let reference = self.inner_reference(tokens)?;
        Ok(Count::OfObject(Box::new(self.alloc, reference)?))
    }

    /// Parts of a layer, or an object, at the layer's word.
    fn layered_count(&self, tokens: &mut Cursor<'_>, layer: Layer) -> Result<Count, Stop>
        requires { Nests self.now.depth (F.pre self.now.read) (F.post self.now.read) }
        ensures { Reads count_of count_depth self.now.depth
            (spec.layered_count (spec.read self.now.depth) self.now.depth (first_kind (later tokens.old)) layer
            tokens.old) result tokens.new }
    {
        match tokens.second() {
            Some(TokenKind::Key(Key::Parts(kind))) => {
                tokens.skip();
                tokens.skip();
                Ok(Count::Parts(Some(layer), kind))
            }
            _ => self.object_asked(tokens),
        }
    }

    /// What is counted, or the object whose number is asked.
    #[tactic(auto, unfolding(ht_grammar::specs::Reading::count_at))]
    fn count(&self, tokens: &mut Cursor<'_>) -> Result<Count, Stop>
        requires { Nests self.now.depth (F.pre self.now.read) (F.post self.now.read) }
        ensures { Reads count_of count_depth self.now.depth
            (spec.count_at (spec.read self.now.depth) self.now.depth tokens.old) result tokens.new }
    {
        match tokens.peek() {
            Some(TokenKind::Key(Key::Pieces(piece))) => {
                tokens.skip();
                let text = self.factor_of(tokens)?;
                Ok(Count::PiecesOf(piece, text))
            }
            Some(TokenKind::Key(Key::Cards)) => {
                tokens.skip();
                Ok(Count::Cards)
            }
            Some(TokenKind::Key(Key::Backgrounds)) => {
                tokens.skip();
                Ok(Count::Backgrounds)
            }
            Some(TokenKind::Key(Key::Parts(kind))) => {
                tokens.skip();
                Ok(Count::Parts(None, kind))
            }
            Some(TokenKind::Key(Key::Card)) => self.layered_count(tokens, Layer::Card),
            Some(TokenKind::Key(Key::Background)) => self.layered_count(tokens, Layer::Background),
            _ => self.object_asked(tokens),
        }
    }

    /// What comes after `number`.
    #[tactic(auto, unfolding(ht_grammar::specs::Reading::number_form))]
    fn number_form(&self, tokens: &mut Cursor<'_>) -> Result<Expr, Stop>
        requires nests { Nests self.now.depth (F.pre self.now.read) (F.post self.now.read) }
        requires shallow { self.now.depth < max_depth }
        ensures { ReadsExpr (self.now.depth + 1) (spec.number_form (spec.read self.now.depth) self.now.depth tokens.old)
            result tokens.new }
    {
        if !eat_of(tokens) {
            return Err(Stop::Syntax);
        }
        let count = self.count(tokens)?;
        to_expr(self.alloc, ExprKind::NumberOf(count))
    }

    /// A property at its name, if there is one.
    fn property(&self, tokens: &mut Cursor<'_>, prop: Option<Prop>) -> Result<Expr, Stop>
        requires nests { Nests self.now.depth (F.pre self.now.read) (F.post self.now.read) }
        requires shallow { self.now.depth < max_depth }
        ensures { ReadsExpr (self.now.depth + 1)
            (spec.property_by (spec.read self.now.depth) self.now.depth prop tokens.old) result tokens.new }
    {
        let Some(prop) = prop else {
            return Err(Stop::Syntax);
        };
        tokens.skip();
        if !eat_of(tokens) {
            return Err(Stop::Syntax);
        }
        let reference = Box::new(self.alloc, self.inner_reference(tokens)?)?;
        to_expr(self.alloc, ExprKind::Property(prop, reference))
    }

    /// The short form of a property at its name.
    fn short_property(&self, tokens: &mut Cursor<'_>, prop: Option<Prop>) -> Result<Expr, Stop>
        requires nests { Nests self.now.depth (F.pre self.now.read) (F.post self.now.read) }
        requires shallow { self.now.depth < max_depth }
        ensures { ReadsExpr (self.now.depth + 1)
            (spec.short_by (spec.read self.now.depth) self.now.depth prop tokens.old) result tokens.new }
    {
        match prop {
            None => Err(Stop::Syntax),
            Some(prop) => self.property(tokens, short_of(prop)),
        }
    }

    /// A function at its name, if there is one.
    fn function(
        &self,
        tokens: &mut Cursor<'_>,
        function: Option<FunctionWord>,
    ) -> Result<Expr, Stop>
        requires nests { Nests self.now.depth (F.pre self.now.read) (F.post self.now.read) }
        requires shallow { self.now.depth < max_depth }
        ensures { ReadsExpr (self.now.depth + 1)
            (spec.function_by (spec.read self.now.depth) self.now.depth function tokens.old) result tokens.new }
    {
        let Some(function) = function else {
            return Err(Stop::Syntax);
        };
        tokens.skip();
        let operand = self.factor_of(tokens)?;
        to_expr(self.alloc, ExprKind::Function(function, operand))
    }

    /// A property or a function, at its name.
    fn named_form(&self, tokens: &mut Cursor<'_>) -> Result<Expr, Stop>
        requires nests { Nests self.now.depth (F.pre self.now.read) (F.post self.now.read) }
        requires shallow { self.now.depth < max_depth }
        ensures { ReadsExpr (self.now.depth + 1)
            (spec.prop_or (spec.read self.now.depth) self.now.depth (f.prop_front tokens.old) (first_text tokens.old)
            tokens.old) result tokens.new }
    {
        let prop = prop_front(tokens);
        if prop.is_some() {
            return self.property(tokens, prop);
        }
        match run_prop(tokens.text()) {
            Some(prop) => {
                tokens.skip();
                to_expr(self.alloc, ExprKind::RunProperty(prop))
            }
            None => {
                let function = function_of(tokens.text());
                self.function(tokens, function)
            }
        }
    }

    /// What `the` begins, at a name.
    fn the_name(&self, tokens: &mut Cursor<'_>) -> Result<Expr, Stop>
        requires nests { Nests self.now.depth (F.pre self.now.read) (F.post self.now.read) }
        requires shallow { self.now.depth < max_depth }
        ensures { ReadsExpr (self.now.depth + 1)
            (spec.the_name (spec.read self.now.depth) self.now.depth (first_text tokens.old) tokens.old) result
            tokens.new }
    {
        let name = tokens.text();
        if is_same(name, b"result") {
            tokens.skip();
            to_expr(self.alloc, ExprKind::Result)
        } else if is_same(name, b"target") {
            tokens.skip();
            to_expr(self.alloc, ExprKind::Target)
        } else if is_same(name, b"short") {
            tokens.skip();
            let prop = prop_front(tokens);
            self.short_property(tokens, prop)
        } else {
            self.named_form(tokens)
        }
    }

    /// What `the` begins, from there on.
    fn the_form(&self, tokens: &mut Cursor<'_>) -> Result<Expr, Stop>
        requires nests { Nests self.now.depth (F.pre self.now.read) (F.post self.now.read) }
        requires shallow { self.now.depth < max_depth }
        ensures { ReadsExpr (self.now.depth + 1)
            (spec.the_by (spec.read self.now.depth) self.now.depth (first_kind (later tokens.old)) tokens.old
            (later tokens.old)) result tokens.new }
    {
        match tokens.second() {
            Some(TokenKind::Key(Key::Number)) => {
                tokens.skip();
                tokens.skip();
                self.number_form(tokens)
            }
            Some(TokenKind::Key(Key::Id)) => {
                tokens.skip();
                let prop = prop_front(tokens);
                self.property(tokens, prop)
            }
            Some(TokenKind::Name) => {
                tokens.skip();
                self.the_name(tokens)
            }
            _ => self.chunk_form(tokens),
        }
    }

    /// The text of a field.
    fn field_form(&self, tokens: &mut Cursor<'_>) -> Result<Expr, Stop>
        requires nests { Nests self.now.depth (F.pre self.now.read) (F.post self.now.read) }
        requires shallow { self.now.depth < max_depth }
        ensures { ReadsExpr (self.now.depth + 1)
            (spec.made t.field (spec.field_at (spec.read self.now.depth) self.now.depth tokens.old)) result tokens.new }
    {
        let field = self.field(tokens)?;
        to_expr(self.alloc, ExprKind::Field(field))
    }

    /// A chunk or a field, at an ordinal.
    fn ordinal_form(&self, tokens: &mut Cursor<'_>) -> Result<Expr, Stop>
        requires nests { Nests self.now.depth (F.pre self.now.read) (F.post self.now.read) }
        requires shallow { self.now.depth < max_depth }
        ensures { ReadsExpr (self.now.depth + 1)
            (spec.ordinal_form (spec.read self.now.depth) self.now.depth (first_kind (later tokens.old)) tokens.old)
            result tokens.new }
    {
        match tokens.second() {
            Some(TokenKind::Key(Key::Piece(_))) => self.chunk_form(tokens),
            _ => self.field_form(tokens),
        }
    }

    /// A primary, or a form that a reserved word begins.
    #[tactic(auto, unfolding(ht_grammar::specs::Reading::factor_at))]
    pub(crate) fn factor(&self, tokens: &mut Cursor<'_>) -> Result<Expr, Stop>
        requires nests { Nests self.now.depth (F.pre self.now.read) (F.post self.now.read) }
        requires shallow { self.now.depth < max_depth }
        ensures { ReadsExpr (self.now.depth + 1) (spec.factor_at (spec.read self.now.depth) self.now.depth tokens.old)
            result tokens.new }
    {
        match tokens.peek() {
            Some(TokenKind::Key(Key::Piece(_))) => self.chunk_form(tokens),
            Some(TokenKind::Key(Key::Ordinal(_))) => self.ordinal_form(tokens),
            Some(TokenKind::Key(Key::Part(_))) => self.field_form(tokens),
            Some(TokenKind::Key(Key::Card)) => self.field_form(tokens),
            Some(TokenKind::Key(Key::Background)) => self.field_form(tokens),
            Some(TokenKind::Key(Key::Number)) => {
                tokens.skip();
                self.number_form(tokens)
            }
            Some(TokenKind::Key(Key::The)) => self.the_form(tokens),
            _ => self.primary(tokens),
        }
    }

    /// Whether an object is there, after `there`.
    fn there(&self, tokens: &mut Cursor<'_>) -> Result<Expr, Stop>
        requires nests { Nests self.now.depth (F.pre self.now.read) (F.post self.now.read) }
        requires shallow { self.now.depth < max_depth }
        ensures { ReadsExpr (self.now.depth + 1)
            (spec.there_by (spec.read self.now.depth) self.now.depth (first_kind tokens.old) tokens.old) result
            tokens.new }
    {
        match tokens.peek() {
            Some(TokenKind::Key(Key::Is)) => {
                tokens.skip();
                let Some(is_absent) = article(tokens) else {
                    return Err(Stop::Syntax);
                };
                let reference = Box::new(self.alloc, self.inner_reference(tokens)?)?;
                to_expr(self.alloc, ExprKind::ThereIs(is_absent, reference))
            }
            _ => Err(Stop::Syntax),
        }
    }

    /// A factor, or a unary operator before one. Parentheses, which often stand after such an operator, are told here, and
    /// take one call less.
    #[tactic(auto, unfolding(ht_grammar::specs::Reading::prefixed_at, ht_grammar::specs::Reading::factor_at, ht_grammar::specs::Reading::primary_at))]
    pub(crate) fn prefixed(&self, tokens: &mut Cursor<'_>) -> Result<Expr, Stop>
        requires nests { Nests self.now.depth (F.pre self.now.read) (F.post self.now.read) }
        requires shallow { self.now.depth < max_depth }
        ensures { ReadsExpr (self.now.depth + 1) (spec.prefixed_at (spec.read self.now.depth) self.now.depth tokens.old)
            result tokens.new }
    {
        match tokens.peek() {
            Some(TokenKind::Key(Key::Minus)) => {
                tokens.skip();
                self.unary(tokens, UnOp::Minus)
            }
            Some(TokenKind::Key(Key::Not)) => {
                tokens.skip();
                self.unary(tokens, UnOp::Not)
            }
            Some(TokenKind::Key(Key::There)) => {
                tokens.skip();
                self.there(tokens)
            }
            Some(TokenKind::Key(Key::LeftParen)) => self.in_parens(tokens),
            _ => self.factor(tokens),
        }
    }
}
