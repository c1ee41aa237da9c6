//! Expressions and references, written plainly.

use crate::trees::printed::Printed;
use ht_grammar::Layer;
use ht_tree::{
    Binary, Chain, Chunk, Count, Expr, ExprForm, ExprKind, Exprs, Owner, Part, Ref, Selector, Which,
};
use ht_values::{Op, Text, Value};

/// Prints an expression: a number, a name or a constant as its word, a text in quotes, all else in parentheses.
#[cycle(print)]
pub fn print_expr(out: &mut Printed, expr: &Expr) {
    match expr.form() {
        ExprForm::Number(number) => out.value(&Value::of_number(number)),
        ExprForm::Digits(digits) => out.text(digits),
        ExprForm::Quoted(text) => print_quoted(out, text),
        ExprForm::Constant(constant) => out.named("", &constant, ""),
        ExprForm::Name(name) => out.text(name.text()),
        ExprForm::BareCall(name) => {
            out.word("(call ");
            out.text(name.text());
            out.word(")");
        }
        ExprForm::CallOf(call) => print_call_of(out, "(call ", call.name.text(), &call.argument),
        ExprForm::Paren(inner) => {
            out.word("(paren ");
            print_expr(out, inner);
            out.word(")");
        }
        ExprForm::UnaryOfName(op, name) => {
            out.named("(", &op, " ");
            out.text(name.text());
            out.word(")");
        }
        ExprForm::UnaryOfNumber(op, number) => {
            out.named("(", &op, " ");
            out.value(&Value::of_number(number));
            out.word(")");
        }
        ExprForm::Unary(unary) => {
            out.named("(", &unary.op, " ");
            print_expr(out, &unary.operand);
            out.word(")");
        }
        ExprForm::Binary(binary) => {
            let Binary { op, left, right } = binary;
            print_binary(out, op, left, right);
        }
        ExprForm::LeftNested(both) => {
            out.named("(", &both.second, " ");
            print_binary(out, &both.first, &both.left, &both.middle);
            out.word(" ");
            print_expr(out, &both.right);
            out.word(")");
        }
        ExprForm::RightNested(both) => {
            out.named("(", &both.first, " ");
            print_expr(out, &both.left);
            out.word(" ");
            print_binary(out, &both.second, &both.middle, &both.right);
            out.word(")");
        }
        ExprForm::Chain(chain) => print_chain(out, chain),
        ExprForm::Kind(kind) => print_kind(out, kind),
    }
}

/// Prints operators, each of which joins what those before it give.
#[cycle(print)]
fn print_chain(out: &mut Printed, chain: &Chain) {
    for later in chain.joined.iter().rev() {
        out.named("(", &later.op, " ");
    }
    print_binary(out, &chain.op, &chain.left, &chain.right);
    for joined in &chain.joined {
        out.word(" ");
        print_expr(out, &joined.operand);
        out.word(")");
    }
}

/// Prints an operator with its operands.
#[cycle(print)]
fn print_binary(out: &mut Printed, op: &Op, left: &Expr, right: &Expr) {
    out.named("(", op, " ");
    print_expr(out, left);
    out.word(" ");
    print_expr(out, right);
    out.word(")");
}

/// Prints a name with the arguments that it is called with, behind an opening word.
#[cycle(print)]
pub fn print_call(out: &mut Printed, opening: &str, name: &Text, arguments: &Exprs) {
    out.word(opening);
    out.text(name);
    print_exprs(out, arguments);
    out.word(")");
}

/// Prints a name with the one argument that it is called with, behind an opening word.
#[cycle(print)]
pub fn print_call_of(out: &mut Printed, opening: &str, name: &Text, argument: &Expr) {
    out.word(opening);
    out.text(name);
    out.word(" ");
    print_expr(out, argument);
    out.word(")");
}

/// Prints an expression of any other kind.
#[cycle(print)]
fn print_kind(out: &mut Printed, kind: &ExprKind) {
    match kind {
        ExprKind::Return => out.word("Return"),
        ExprKind::Result => out.word("(the-result)"),
        ExprKind::Target => out.word("(the-target)"),
        ExprKind::RunProperty(property) => out.named("(the ", property, ")"),
        ExprKind::Call(name, arguments) => print_call(out, "(call ", name, arguments),
        ExprKind::CallOf(name, only) => print_call_of(out, "(call ", name, only),
        ExprKind::ThereIs(none, reference) => {
            out.opening(if *none { "there-is-no" } else { "there-is-a" });
            print_ref(out, reference);
            out.word(")");
        }
        ExprKind::Chunk(chunk, text) => {
            out.word("(chunk ");
            print_chunk(out, chunk);
            out.word(" ");
            print_expr(out, text);
            out.word(")");
        }
        ExprKind::Field(part) => {
            out.word("(text-of ");
            print_part(out, part);
            out.word(")");
        }
        ExprKind::NumberOf(count) => {
            out.word("(number-of ");
            print_count(out, count);
            out.word(")");
        }
        ExprKind::Property(property, reference) => {
            out.named("(the ", property, " ");
            print_ref(out, reference);
            out.word(")");
        }
        ExprKind::Function(function, operand) => {
            out.named("(the ", function, " ");
            print_expr(out, operand);
            out.word(")");
        }
    }
}

/// Prints a text in quotes.
fn print_quoted(out: &mut Printed, text: &Text) {
    out.word("\"");
    out.text(text);
    out.word("\"");
}

/// Prints expressions, each after a space.
#[cycle(print)]
pub fn print_exprs(out: &mut Printed, exprs: &Exprs) {
    let mut rest = exprs.items.as_slice();
    while let [first, later @ ..] = rest {
        out.word(" ");
        print_expr(out, first);
        rest = later;
    }
}

/// Prints which pieces of a text.
#[cycle(print)]
pub fn print_chunk(out: &mut Printed, chunk: &Chunk) {
    match chunk {
        Chunk::Piece(piece, index) => {
            out.named("(", piece, " ");
            print_expr(out, index);
            out.word(")");
        }
        Chunk::Pieces(piece, bounds) => {
            out.named("(", piece, " ");
            print_expr(out, &bounds.first);
            out.word(" ");
            print_expr(out, &bounds.last);
            out.word(")");
        }
        Chunk::NthPiece(ordinal, piece) => {
            out.named("(", ordinal, " ");
            out.named("", piece, ")");
        }
    }
}

#[cycle(print)]
fn print_which(out: &mut Printed, which: &Which) {
    match which {
        Which::ById(id) => {
            out.word("(id ");
            print_expr(out, id);
            out.word(")");
        }
        Which::ByText(text) => print_expr(out, text),
    }
}

/// Prints which card or background.
#[cycle(print)]
pub fn print_selector(out: &mut Printed, selector: &Selector) {
    match selector {
        Selector::This => out.word("this"),
        Selector::Next => out.word("next"),
        Selector::Previous => out.word("previous"),
        Selector::Nth(ordinal) => out.named("", ordinal, ""),
        Selector::Which(which) => print_which(out, which),
    }
}

/// Prints a layer and a space, where there is a layer.
fn print_layer(out: &mut Printed, layer: &Option<Layer>) {
    match layer {
        None => {}
        Some(layer) => out.named("", layer, " "),
    }
}

#[cycle(print)]
fn print_owner(out: &mut Printed, owner: &Owner) {
    match owner {
        Owner::NoOwner => {}
        Owner::OnCard(selector) => {
            out.word(" of (Card ");
            print_selector(out, selector);
            out.word(")");
        }
        Owner::OnBackground(selector) => {
            out.word(" of (Background ");
            print_selector(out, selector);
            out.word(")");
        }
    }
}

/// Prints a part: its layer, kind, number or name, and owner.
#[cycle(print)]
pub fn print_part(out: &mut Printed, part: &Part) {
    out.word("(");
    match part {
        Part::Plain(layer, kind, which, owner) => {
            print_layer(out, layer);
            out.named("", kind, " ");
            print_which(out, which);
            print_owner(out, owner);
        }
        Part::Nth(ordinal, layer, kind, owner) => {
            out.named("", ordinal, " ");
            print_layer(out, layer);
            out.named("", kind, "");
            print_owner(out, owner);
        }
    }
    out.word(")");
}

/// Prints a reference to an object.
#[cycle(print)]
pub fn print_ref(out: &mut Printed, reference: &Ref) {
    match reference {
        Ref::Me => out.word("(me)"),
        Ref::Target => out.word("(the-target)"),
        Ref::ThisStack => out.word("(this-stack)"),
        Ref::Card(selector) => {
            out.word("(Card ");
            print_selector(out, selector);
            out.word(")");
        }
        Ref::Background(selector) => {
            out.word("(Background ");
            print_selector(out, selector);
            out.word(")");
        }
        Ref::Part(part) => print_part(out, part),
    }
}

#[cycle(print)]
fn print_count(out: &mut Printed, count: &Count) {
    match count {
        Count::PiecesOf(piece, text) => {
            out.named("", piece, "s ");
            print_expr(out, text);
        }
        Count::Cards => out.word("Cards"),
        Count::Backgrounds => out.word("Backgrounds"),
        Count::Parts(layer, kind) => {
            print_layer(out, layer);
            out.named("", kind, "s");
        }
        Count::OfObject(reference) => print_ref(out, reference),
    }
}
