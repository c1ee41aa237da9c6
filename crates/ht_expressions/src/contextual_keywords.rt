//! Names with a meaning that aren't reserved.

ghost use Rattle.std.specs.Prelude.{◌≡◌, Some};
ghost use Rattle.ht_values.specs.Text.{entry};
ghost use Rattle.ht_lex.specs.declared.key.TokenKind.TheVariants as kind;
ghost use Rattle.ht_grammar.specs.Fronts as f;

use ht_grammar::{FunctionWord, RunProp};
use ht_lex::{Cursor, Key, TokenKind, is_same};
use ht_values::{Prop, ValueType};

/// Whether it is `a` or `an`.
pub(crate) fn is_article(word: &[u8]) -> bool
    ensures { result ≡ f.is_article word.now }
{
    is_same(word, b"a") || is_same(word, b"an")
}

fn prop_named(name: &[u8]) -> Option<Prop>
    ensures { result ≡ entry f.prop_names name.now }
{
    if is_same(b"name", name) {
        Some(Prop::Name)
    } else if is_same(b"script", name) {
        Some(Prop::Script)
    } else if is_same(b"visible", name) {
        Some(Prop::Visible)
    } else if is_same(b"hilite", name) {
        Some(Prop::Hilite)
    } else if is_same(b"sharedHilite", name) {
        Some(Prop::SharedHilite)
    } else if is_same(b"lockText", name) {
        Some(Prop::LockText)
    } else if is_same(b"sharedText", name) {
        Some(Prop::SharedText)
    } else if is_same(b"cantDelete", name) {
        Some(Prop::CantDelete)
    } else {
        None
    }
}

/// The property that the first token names.
#[tactic(auto, unfolding(ht_grammar::specs::Fronts::prop_front))]
pub fn prop_front(tokens: &Cursor<'_>) -> Option<Prop>
    ensures { result ≡ f.prop_front tokens.now }
{
    match tokens.peek() {
        Some(TokenKind::Key(Key::Id)) => Some(Prop::Id),
        Some(TokenKind::Name) => prop_named(tokens.text()),
        _ => None,
    }
}

/// The short form of a property that has one.
pub(crate) fn short_of(prop: Prop) -> Option<Prop>
    ensures { result ≡ f.short_of prop }
{
    match prop {
        Prop::Name => Some(Prop::ShortName),
        Prop::Id => Some(Prop::ShortId),
        _ => None,
    }
}

/// The property of the run with this name.
#[tactic(auto, unfolding(ht_grammar::specs::Fronts::run_prop))]
pub fn run_prop(name: &[u8]) -> Option<RunProp>
    ensures { result ≡ f.run_prop name.now }
{
    if is_same(b"itemDelimiter", name) {
        Some(RunProp::ItemDelimiter)
    } else if is_same(b"lockMessages", name) {
        Some(RunProp::LockMessages)
    } else if is_same(b"editBkgnd", name) {
        Some(RunProp::EditBkgnd)
    } else {
        None
    }
}

/// The function that `the` calls by this name.
#[tactic(auto, unfolding(ht_grammar::specs::Fronts::function_of))]
pub(crate) fn function_of(name: &[u8]) -> Option<FunctionWord>
    ensures { result ≡ f.function_of name.now }
{
    if is_same(b"abs", name) {
        Some(FunctionWord::Abs)
    } else if is_same(b"charToNum", name) {
        Some(FunctionWord::CharToNum)
    } else if is_same(b"numToChar", name) {
        Some(FunctionWord::NumToChar)
    } else if is_same(b"length", name) {
        Some(FunctionWord::Length)
    } else if is_same(b"value", name) {
        Some(FunctionWord::Value)
    } else {
        None
    }
}

/// The type that the first token names.
#[tactic(auto, unfolding(ht_grammar::specs::Fronts::type_front))]
fn type_front(tokens: &Cursor<'_>) -> Option<ValueType>
    ensures { result ≡ f.type_front tokens.now }
{
    match tokens.peek() {
        Some(TokenKind::Key(Key::Number)) => Some(ValueType::Number),
        Some(TokenKind::Name) => type_named(tokens.text()),
        _ => None,
    }
}

fn type_named(name: &[u8]) -> Option<ValueType>
    ensures { result ≡ f.type_by (Some kind.Name) name.now }
{
    if is_same(name, b"integer") {
        Some(ValueType::Integer)
    } else if is_same(name, b"logical") {
        Some(ValueType::Logical)
    } else {
        None
    }
}

/// The type after `a` or `an`.
#[tactic(auto, unfolding(ht_grammar::specs::Fronts::asked_type))]
pub(crate) fn asked_type(tokens: &Cursor<'_>) -> Option<ValueType>
    ensures { result ≡ f.asked_type tokens.now }
{
    match tokens.peek() {
        Some(TokenKind::Name) => {
            let mut ahead = tokens.mark();
            if is_article(ahead.take()) {
                type_front(&ahead)
            } else {
                None
            }
        }
        _ => None,
    }
}
