//! What of a stack's scripts isn't in the grammar, and which messages nothing handles.

use crate::hint::{bytes_of, write_hint};
use crate::location::{location_in, write_location, write_pointed};
use crate::object::write_object;
use crate::page::Page;
use externals::External;
use ht_grammar::HandlerKind;
use ht_lex::{Key, Span, TokenKind, Tokens, lex};
use ht_parse::{ParseError, Script, parse_script};
use ht_values::Text;
use msg_path::{BuiltIn, is_system_message};
use object_table::{Id, Object, Stack};
use std::alloc::{AllocError, Global};

/// What was found in the scripts of a stack.
#[derive(Drop)]
pub struct Checked {
    /// A line for each script that isn't in the grammar, with its line and a caret below, and for each message that
    /// nothing handles.
    pub page: Page,
    /// Whether each script is in the grammar.
    pub reads: bool,
}

/// A name that a script handles.
#[derive(Drop)]
struct Known {
    kind: HandlerKind,
    name: Text,
}

/// What is known while the scripts of a stack are looked at.
#[derive(Drop)]
struct Survey<'a, E> {
    alloc: Global,
    stack: &'a Stack,
    externals: &'a [E],
    card: Id,
    known: Vec<Known>,
    checked: Checked,
}

/// The objects of a stack: itself, then each background and each card with its parts.
fn objects(alloc: Global, stack: &Stack) -> Result<Vec<Id>, AllocError> {
    let mut found = Vec::new(alloc);
    found.push(0)?;
    for id in 1..stack.next_id() {
        if stack.object(id).is_some() {
            found.push(id)?;
        }
    }
    Ok(found)
}

impl<E: External> Survey<'_, E> {
    /// Adds the handlers of a script to the names that are known.
    fn learn(&mut self, script: &Script) -> Result<(), AllocError> {
        for handler in &script.handlers {
            let name = handler.name.try_clone(self.alloc)?;
            self.known.push(Known {
                kind: handler.kind,
                name,
            })?;
        }
        Ok(())
    }

    /// Tells of a script that isn't in the grammar.
    fn tell_unread(&mut self, id: Id, script: &Text, at: usize) {
        self.checked.reads = false;
        let place = location_in(script.as_slice(), at);
        let page = &mut self.checked.page;
        write_object(page, self.alloc, self.stack, self.card, id);
        page.word(b", ");
        write_location(page, place, true);
        page.word(b": not in the grammar");
        write_pointed(page, place);
        write_hint(page, self.alloc, script, at);
        page.word(b"\n");
    }

    /// Reads the script of an object: its handlers are known then, or it is told of.
    fn read(&mut self, id: Id, object: &Object) -> Result<(), AllocError> {
        match parse_script(self.alloc, &object.script) {
            Ok(script) => self.learn(&script),
            Err(ParseError::Syntax(at)) => {
                self.tell_unread(id, &object.script, at);
                Ok(())
            }
            Err(ParseError::Memory) => Err(AllocError),
        }
    }

    /// Whether something handles a message: a script, an external of the program, or what is built in or ignored.
    fn is_handled(&self, kind: HandlerKind, name: &Text) -> bool {
        for known in &self.known {
            if known.kind == kind && known.name.same(name) {
                return true;
            }
        }
        let is_ignored = kind == HandlerKind::Command && is_system_message(name);
        is_ignored || answers(self.externals, kind, name) || BuiltIn::named(kind, name).is_some()
    }

    /// Tells of a message that nothing handles.
    fn tell_unhandled(&mut self, id: Id, script: &[u8], at: usize, name: &Text) {
        let page = &mut self.checked.page;
        write_object(page, self.alloc, self.stack, self.card, id);
        page.word(b", ");
        write_location(page, location_in(script, at), false);
        page.word(b": nothing handles ");
        page.spelled(name.as_slice());
        page.word(b"\n");
    }

    /// Looks at the messages that a script sends.
    fn look(&mut self, id: Id, script: &Text) -> Result<(), AllocError> {
        let Ok(tokens) = lex(self.alloc, script) else {
            return Ok(());
        };
        for number in 0..tokens.len() {
            if let Some((kind, span)) = sent_at(&tokens, number) {
                let bytes = bytes_of(script.as_slice(), &span);
                let Ok(name) = Text::from_slice(self.alloc, bytes) else {
                    return Err(AllocError);
                };
                if !self.is_handled(kind, &name) {
                    let at = usize::from(span.start);
                    self.tell_unhandled(id, script.as_slice(), at, &name);
                }
            }
        }
        Ok(())
    }
}

/// Whether one of these externals answers such messages of a name.
fn answers<E: External>(externals: &[E], kind: HandlerKind, name: &Text) -> bool {
    let is_function = kind == HandlerKind::Function;
    for external in externals {
        if external.is_function() == is_function && external.name().same(name) {
            return true;
        }
    }
    false
}

/// The token before one.
fn before(spans: &[Span], number: usize) -> Option<TokenKind> {
    let span = spans.get(number.checked_sub(1)?)?;
    Some(span.kind)
}

/// Whether a statement begins behind a token.
fn begins_statement(before: Option<TokenKind>) -> bool {
    matches!(
        before,
        None | Some(TokenKind::Eol)
            | Some(TokenKind::Key(Key::Then))
            | Some(TokenKind::Key(Key::Else))
    )
}

/// The message that is sent by the name at a place: a command where a statement begins, and a function where a
/// parenthesis follows the name within one.
fn sent_at(tokens: &Tokens<'_>, number: usize) -> Option<(HandlerKind, Span)> {
    let spans = tokens.spans();
    let span = spans.get(number)?;
    if span.kind != TokenKind::Name {
        return None;
    }
    let before = before(spans, number);
    if begins_statement(before) {
        return Some((HandlerKind::Command, *span));
    }
    let after = spans.get(number.checked_add(1)?)?;
    let is_call = after.kind == TokenKind::Key(Key::LeftParen);
    is_call.then_some((HandlerKind::Function, *span))
}

/// Looks at each script of a stack and runs nothing: which aren't in the grammar, and which messages nothing handles,
/// these externals neither, that those send that are. An error where memory was refused.
pub fn check<E: External>(
    alloc: Global,
    stack: &Stack,
    externals: &[E],
) -> Result<Checked, AllocError> {
    let ids = objects(alloc, stack)?;
    let mut survey = Survey {
        alloc,
        stack,
        externals,
        card: stack.card_at(1).unwrap_or(0),
        known: Vec::new(alloc),
        checked: Checked {
            page: Page::new(alloc),
            reads: true,
        },
    };
    for id in &ids {
        if let Some(object) = stack.object(*id) {
            survey.read(*id, object)?;
        }
    }
    for id in &ids {
        if let Some(object) = stack.object(*id) {
            if parse_script(alloc, &object.script).is_ok() {
                survey.look(*id, &object.script)?;
            }
        }
    }
    Ok(survey.checked)
}
