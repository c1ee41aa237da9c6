//! Containers and statements, written plainly.

use crate::trees::expression::{
    print_call, print_call_of, print_chunk, print_expr, print_part, print_ref, print_selector,
};
use crate::trees::printed::Printed;
use ht_tree::{
    Chunk, Container, ContainerKind, Counting, Destination, Expr, Head, Ref, Stmt, StmtForm,
    StmtKind, Stmts,
};
use ht_values::Text;

/// Prints a container: a variable as its name, all else in parentheses.
fn print_container(out: &mut Printed, container: &Container) {
    match container.kind() {
        ContainerKind::Variable(name) => out.text(name.text()),
        ContainerKind::Field(part) => {
            out.word("(text-of ");
            print_part(out, part);
            out.word(")");
        }
        ContainerKind::Chunk(chunk, whole) => {
            out.word("(chunk ");
            print_chunk(out, chunk);
            out.word(" ");
            print_container(out, whole);
            out.word(")");
        }
    }
}

/// Prints a word and an expression, in parentheses.
fn print_one(out: &mut Printed, word: &str, value: &Expr) {
    out.opening(word);
    print_expr(out, value);
    out.word(")");
}

/// Prints a word, an expression and a container, in parentheses.
fn print_into(out: &mut Printed, word: &str, value: &Expr, container: &Container) {
    out.opening(word);
    print_expr(out, value);
    out.word(" ");
    print_container(out, container);
    out.word(")");
}

/// Prints a word, a container and an expression, in parentheses.
fn print_by(out: &mut Printed, word: &str, container: &Container, value: &Expr) {
    out.opening(word);
    print_container(out, container);
    out.word(" ");
    print_expr(out, value);
    out.word(")");
}

/// Prints an object, a space, an expression and a closing parenthesis.
fn print_to(out: &mut Printed, reference: &Ref, value: &Expr) {
    print_ref(out, reference);
    out.word(" ");
    print_expr(out, value);
    out.word(")");
}

fn print_delete(out: &mut Printed, chunk: &Chunk, container: &Container) {
    out.word("(delete ");
    print_chunk(out, chunk);
    out.word(" ");
    print_container(out, container);
    out.word(")");
}

fn print_send(out: &mut Printed, message: &Expr, reference: &Ref) {
    out.word("(send ");
    print_expr(out, message);
    out.word(" ");
    print_ref(out, reference);
    out.word(")");
}

/// Prints a word and the name of a message, in parentheses.
fn print_message_name(out: &mut Printed, word: &str, name: &Text) {
    out.opening(word);
    out.text(name);
    out.word(")");
}

fn print_go(out: &mut Printed, destination: &Destination) {
    match destination {
        Destination::ToCard(selector) => {
            out.word("(go Card ");
            print_selector(out, selector);
        }
        Destination::ToBackground(selector) => {
            out.word("(go Background ");
            print_selector(out, selector);
        }
    }
    out.word(")");
}

/// Prints a word, the variable of a `repeat`, and the numbers from which and to which it counts, in parentheses.
fn print_counted(out: &mut Printed, word: &str, counting: &Counting) {
    out.opening(word);
    out.text(counting.name.text());
    out.word(" ");
    print_expr(out, &counting.from);
    out.word(" ");
    print_expr(out, &counting.to);
    out.word(")");
}

/// Prints how often `repeat` does its lines.
fn print_head(out: &mut Printed, head: &Head) {
    match head {
        Head::Forever => out.word("forever"),
        Head::Times(times) => print_one(out, "times", times),
        Head::While(condition) => print_one(out, "while", condition),
        Head::Until(condition) => print_one(out, "until", condition),
        Head::CountedUp(counting) => print_counted(out, "up", counting),
        Head::CountedDown(counting) => print_counted(out, "down", counting),
    }
}

/// Prints a statement in parentheses: its word, and its parts in the order of the tree.
#[cycle(print_lines)]
fn print_stmt(out: &mut Printed, stmt: &Stmt) {
    let kind = match stmt.form() {
        StmtForm::Bare(name) => return print_message_name(out, "command", name.text()),
        StmtForm::CommandOf(call) => {
            return print_call_of(out, "(command ", call.name.text(), &call.argument);
        }
        StmtForm::Command(call) => {
            return print_call(out, "(command ", call.name.text(), &call.arguments);
        }
        StmtForm::Kind(kind) => kind,
    };
    match kind {
        StmtKind::Put(value) => print_one(out, "put", value),
        StmtKind::PutIn(place, value, container) => {
            out.named("(put-", place, " ");
            print_expr(out, value);
            out.word(" ");
            print_container(out, container);
            out.word(")");
        }
        StmtKind::Get(value) => print_one(out, "get", value),
        StmtKind::Set(property, reference, value) => {
            out.named("(set ", property, " ");
            print_to(out, reference, value);
        }
        StmtKind::SetRun(property, value) => {
            out.named("(set ", property, " ");
            print_expr(out, value);
            out.word(")");
        }
        StmtKind::Add(value, container) => print_into(out, "add", value, container),
        StmtKind::Subtract(value, container) => print_into(out, "subtract", value, container),
        StmtKind::Multiply(container, value) => print_by(out, "multiply", container, value),
        StmtKind::Divide(container, value) => print_by(out, "divide", container, value),
        StmtKind::Delete(chunk, container) => print_delete(out, chunk, container),
        StmtKind::Do(value) => print_one(out, "do", value),
        StmtKind::Send(message, reference) => print_send(out, message, reference),
        StmtKind::Go(destination) => print_go(out, destination),
        StmtKind::Global(names) => {
            out.word("(global ");
            for (place, name) in names.items.iter().enumerate() {
                out.listed(place, name.text());
            }
            out.word(")");
        }
        StmtKind::ExitRepeat => out.word("(exit-repeat)"),
        StmtKind::NextRepeat => out.word("(next-repeat)"),
        StmtKind::ExitToHyperCard => out.word("(exit-to-HyperCard)"),
        StmtKind::Exit(name) => print_message_name(out, "exit", name),
        StmtKind::Pass(name) => print_message_name(out, "pass", name),
        StmtKind::ReturnNothing => out.word("(return)"),
        StmtKind::ReturnValue(value) => print_one(out, "return", value),
        StmtKind::Command(name, arguments) => print_call(out, "(command ", name, arguments),
        StmtKind::CommandOf(name, only) => print_call_of(out, "(command ", name, only),
        StmtKind::When(condition, branches) => {
            out.word("(if ");
            print_expr(out, condition);
            out.word(" ");
            print_lines(out, &branches.lines);
            out.word(" ");
            print_lines(out, &branches.otherwise);
            out.word(")");
        }
        StmtKind::Repeat(head, lines) => {
            out.word("(repeat ");
            print_head(out, head);
            out.word(" ");
            print_lines(out, lines);
            out.word(")");
        }
    }
}

/// Prints statements in brackets, with spaces between.
#[cycle(print_lines)]
pub fn print_lines(out: &mut Printed, lines: &Stmts) {
    out.word("[");
    let mut rest = lines.items.as_slice();
    while let [first, later @ ..] = rest {
        print_stmt(out, first);
        if !later.is_empty() {
            out.word(" ");
        }
        rest = later;
    }
    out.word("]");
}
