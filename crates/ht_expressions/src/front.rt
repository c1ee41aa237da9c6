//! What stands in front of a reference: layers, kinds of parts, articles and `of`.

ghost use Rattle.std.specs.Prelude.{◌≡◌, Some, None, true, false};
ghost use Rattle.ht_lex.specs.Token.{first_kind, first_text, later};
ghost use Rattle.ht_grammar.specs.Fronts as f;
ghost use Rattle.ht_grammar.specs.Reading as spec;
ghost use Rattle.ht_expressions.specs.Answer.{Takes};
ghost use Rattle.ht_expressions.specs.Fronts.{front_view};

use crate::contextual_keywords::is_article;
use ht_grammar::Layer;
use ht_lex::{Cursor, Key, TokenKind, is_same};
use ht_values::PartKind;

/// The layer that is written before a part, and the part's kind.
#[derive(Clone, Copy, Debug)]
pub(crate) struct PartFront {
    pub layer: Option<Layer>,
    pub kind: PartKind,
}

/// Goes past `of` or `in`, and tells whether one was there.
#[tactic(auto, using(crate::proofs::Peeks::of_there, crate::proofs::Peeks::in_there))]
pub fn eat_of(tokens: &mut Cursor<'_>) -> bool
    ensures found { result ≡ true → f.after_of tokens.old ≡ Some tokens.new }
    ensures none { result ≡ false → f.after_of tokens.old ≡ None }
    ensures stays { result ≡ false → tokens.new ≡ tokens.old }
{
    match tokens.peek() {
        Some(TokenKind::Key(Key::Of)) => {
            tokens.skip();
            true
        }
        Some(TokenKind::Key(Key::In)) => {
            tokens.skip();
            true
        }
        _ => false,
    }
}

/// Goes past `the`, if it is there.
pub fn skip_the(tokens: &mut Cursor<'_>)
    ensures { tokens.new ≡ f.past_the tokens.old }
{
    if let Some(TokenKind::Key(Key::The)) = tokens.peek() {
        tokens.skip();
    }
}

/// The layer whose word this is.
fn layer_of(kind: Option<TokenKind>) -> Option<Layer>
    ensures { result ≡ spec.layer_by kind }
{
    match kind {
        Some(TokenKind::Key(Key::Card)) => Some(Layer::Card),
        Some(TokenKind::Key(Key::Background)) => Some(Layer::Background),
        _ => None,
    }
}

fn part_kind_of(kind: Option<TokenKind>) -> Option<PartKind>
    ensures { result ≡ spec.part_kind_by kind }
{
    match kind {
        Some(TokenKind::Key(Key::Part(part))) => Some(part),
        _ => None,
    }
}

/// The layer, unless a part comes next.
fn unless_part(next: Option<TokenKind>, layer: Option<Layer>) -> Option<Layer>
    ensures { result ≡ spec.unless_part next layer }
{
    match next {
        Some(TokenKind::Key(Key::Part(_))) => None,
        _ => layer,
    }
}

/// Whether the tokens refer to a card or to a background, and not to a part on that layer.
#[tactic(auto, unfolding(ht_grammar::specs::Reading::referenced_layer))]
pub fn referenced_layer(tokens: &Cursor<'_>) -> Option<Layer>
    ensures { result ≡ spec.referenced_layer tokens.now }
{
    match tokens.peek() {
        Some(TokenKind::Key(Key::Card)) => unless_part(tokens.second(), Some(Layer::Card)),
        Some(TokenKind::Key(Key::Background)) => unless_part(
            tokens.second(),
            Some(Layer::Background),
        ),
        Some(TokenKind::Key(Key::This)) => layer_of(tokens.second()),
        Some(TokenKind::Key(Key::Next)) => layer_of(tokens.second()),
        Some(TokenKind::Key(Key::Previous)) => layer_of(tokens.second()),
        Some(TokenKind::Key(Key::Ordinal(_))) => unless_part(
            tokens.third(),
            layer_of(tokens.second()),
        ),
        _ => None,
    }
}

/// Goes past the kind of a part, after its layer.
fn part_front_on(tokens: &mut Cursor<'_>, layer: Option<Layer>) -> Option<PartFront>
    ensures { Takes front_view (spec.layered_by (spec.part_kind_by (first_kind tokens.old)) layer tokens.old) result
        tokens.new }
{
    match part_kind_of(tokens.peek()) {
        Some(kind) => {
            tokens.skip();
            Some(PartFront { layer, kind })
        }
        None => None,
    }
}

/// Goes past `button`, `card field`, and the like.
#[tactic(auto, unfolding(ht_grammar::specs::Reading::part_front))]
pub(crate) fn part_front(tokens: &mut Cursor<'_>) -> Option<PartFront>
    ensures { Takes front_view (spec.part_front tokens.old) result tokens.new }
{
    match layer_of(tokens.peek()) {
        None => part_front_on(tokens, None),
        Some(layer) => {
            tokens.skip();
            part_front_on(tokens, Some(layer))
        }
    }
}

/// Goes past `a` or `an`: it answers false. After `not`, or at `no`, it answers true.
#[tactic(auto, unfolding(ht_grammar::specs::Reading::article))]
pub(crate) fn article(tokens: &mut Cursor<'_>) -> Option<bool>
    ensures { Takes (λ b. b) (spec.article tokens.old) result tokens.new }
{
    match tokens.peek() {
        Some(TokenKind::Name) => {
            let word = tokens.take();
            if is_article(word) {
                Some(false)
            } else if is_same(word, b"no") {
                Some(true)
            } else {
                None
            }
        }
        Some(TokenKind::Key(Key::Not)) => {
            tokens.skip();
            article_after_not(tokens)
        }
        _ => None,
    }
}

fn article_after_not(tokens: &mut Cursor<'_>) -> Option<bool>
    ensures { Takes (λ b. b) (spec.article_not (first_kind tokens.old) (first_text tokens.old) (later tokens.old))
        result tokens.new }
{
    match tokens.peek() {
        Some(TokenKind::Name) => {
            let word = tokens.take();
            if is_article(word) { Some(true) } else { None }
        }
        _ => None,
    }
}
