//! Scripts, messages and texts that are typed, written plainly.

use crate::trees::expression::{print_exprs, print_part};
use crate::trees::printed::Printed;
use crate::trees::statement::print_lines;
use ht_grammar::HandlerKind;
use ht_tree::{Handler, Message, Script, Typing};

fn print_handler(out: &mut Printed, handler: &Handler) {
    match handler.kind {
        HandlerKind::Command => out.word("(on "),
        HandlerKind::Function => out.word("(function "),
    }
    out.text(&handler.name);
    out.word(" (");
    for (place, parameter) in handler.parameters.written().iter().enumerate() {
        out.listed(place, parameter);
    }
    out.word(") ");
    print_lines(out, &handler.lines);
    out.word(")");
}

/// Prints the handlers of a script in braces.
pub fn print_script(out: &mut Printed, script: &Script) {
    out.word("{");
    for handler in script.handlers.iter() {
        print_handler(out, handler);
    }
    out.word("}");
}

/// Prints a message: its name, and its arguments.
pub fn print_message(out: &mut Printed, message: &Message) {
    out.word("(message ");
    out.text(&message.name);
    print_exprs(out, &message.arguments);
    out.word(")");
}

/// Prints the text that is typed, and its field.
pub fn print_typing(out: &mut Printed, typing: &Typing) {
    out.word("(type \"");
    out.text(&typing.text);
    out.word("\" ");
    print_part(out, &typing.field);
    out.word(")");
}
