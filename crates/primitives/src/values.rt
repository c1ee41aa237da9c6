//! Values and parsing. A call that computes or parses may also be out of memory, which is `Stop::Memory`.

ghost use Rattle.std.specs.Prelude.{◌≡◌, ℕ, List, pos, [], ◌∷◌, Ok, Err, IfOk, IfErr, IfSome, OnOk, OnErr};
ghost use Rattle.ht_values.specs.Functions.{built_in as built_in_of};
ghost use Rattle.ht_values.specs.Number.{number_of as number_of_text};
ghost use Rattle.ht_values.specs.Operators.{binary as binary_of, unary as unary_of, truth_of as truth_of_text};
ghost use Rattle.ht_values.specs.Text.{numeral as numeral_of};
ghost use Rattle.ht_lex.specs.Constants.{constant_text as text_of_constant};
ghost use Rattle.ht_grammar.specs.Trees as tree;
ghost use Rattle.ht_grammar.specs.Reads.{ReadsExpr, ReadsLines, ReadsMessage};
ghost use Rattle.ht_tree.specs.ScriptView.{message_of};
ghost use Rattle.ht_tree.specs.StatementView.{stmts_of};
ghost use Rattle.change_journal.specs.History.{History};
ghost use Rattle.meaning.specs.declared.frame.Frame.{Frame};
ghost use Rattle.meaning.specs.Meaning.{Meets, Val};
ghost use Rattle.meaning.specs.State.{RunState, run_property_set};
ghost use Rattle.meaning.specs.Repeats.{counter_of, goes_on as goes_on_of};
ghost use Rattle.meaning.specs.Values.{Parses, Yields};
ghost use Rattle.primitives.specs.Blocks.{EndsBlock, EndsRepeat};
ghost use Rattle.primitives.specs.Given.{how_given, given};
ghost use Rattle.primitives.specs.Views.{read_as};

use crate::arguments::Arguments;
use crate::joins::join_values;
use ht_grammar::RunProp;
use ht_lex::Constant;
use ht_parse::ParseError;
use ht_tree::{Expr, Message, Stmt, Stmts};
use ht_values::{
    Failure, Fault, Func, Op, Text, UnOp, Value, binary, built_in, number_by, truth_by, unary,
};
use itoa::Buffer;
use meaning::{Budget, Counter, Stop, TextUse, Way};
use object_references::Referent;
use std::alloc::AllocError;
use std::rc::Rc;

/// What an operator gives of two numbers, where that is a number or a truth value. It takes no memory.
#[inline]
pub(crate) fn by_numbers(op: Op, left: i64, right: i64) -> Option<Value>
    ensures { IfSome result (λ v. binary_of op (numeral_of left) (numeral_of right) ≡ Ok v) }
{
    match number_by(op, left, right) {
        Some(number) => Some(Value::of_number(number)),
        None => Some(Value::of_truth(truth_by(op, left, right)?)),
    }
}

/// What an operator gives of two operands that are kept as numbers, where that is a number or a truth value.
#[inline]
fn of_numbers(op: Op, left: &Value, right: &Value) -> Option<Value>
    ensures { IfSome result (λ v. binary_of op left.now right.now ≡ Ok v) }
{
    let x = left.kept_number()?;
    let y = right.kept_number()?;
    by_numbers(op, x, y)
}

/// Writes what an operator gives of two operands over the left one, so that a frame has no place for a third value; or
/// the first fault. Two numbers are computed with as such, and what is joined is lent.
#[tactic(auto, using(meaning::proofs::Rules::yields_rules), unfolding(ht_values::specs::Operators::binary))]
#[inline(never)]
pub fn apply(run: &Budget, op: Op, left: &mut Value, right: &Value) -> Result<(), Stop>
    ensures { Yields (binary_of op left.old right.now) (given result left.new) }
{
    match op {
        Op::Join => join_values(run, left, b"", right),
        Op::JoinSpaced => join_values(run, left, b" ", right),
        _ => compute(run, op, left, right),
    }
}

/// Writes what an operator gives of two operands over the left one. Two numbers are computed with as such.
#[tactic(auto, using(meaning::proofs::Rules::yields_rules))]
#[inline(always)]
fn compute(run: &Budget, op: Op, left: &mut Value, right: &Value) -> Result<(), Stop>
    ensures { Yields (binary_of op left.old right.now) (given result left.new) }
{
    match of_numbers(op, left, right) {
        Some(value) => {
            *left = value;
            Ok(())
        }
        None => apply_to_any(run, op, left, right),
    }
}

/// Writes what an operator gives of two operands, whatever they are, over the left one; or the first fault.
#[tactic(auto, using(meaning::proofs::Rules::yields_rules))]
#[inline(never)]
fn apply_to_any(run: &Budget, op: Op, left: &mut Value, right: &Value) -> Result<(), Stop>
    ensures { Yields (binary_of op left.old right.now) (given result left.new) }
{
    match binary(run.alloc(), op, left, right) {
        Ok(value) => {
            *left = value;
            Ok(())
        }
        Err(Failure::Fault(fault)) => {
            run.trace().mean(left);
            run.trace().mean(right);
            Err(Stop::Fault(fault))
        }
        Err(Failure::Memory) => Err(Stop::Memory),
    }
}

/// Writes what an operator gives of one operand over it, or its fault. It takes no memory.
#[tactic(auto, using(meaning::proofs::Rules::yields_rules))]
#[inline(never)]
pub fn apply_one(run: &Budget, op: UnOp, operand: &mut Value) -> Result<(), Stop>
    ensures { Yields (unary_of op operand.old) (given result operand.new) }
{
    match unary(op, operand) {
        Ok(value) => {
            *operand = value;
            Ok(())
        }
        Err(fault) => {
            run.trace().mean(operand);
            Err(Stop::Fault(fault))
        }
    }
}

/// What a function gives of its arguments, or its first fault.
#[tactic(auto, using(meaning::proofs::Rules::yields_rules))]
#[inline(never)]
pub fn call_function(run: &Budget, function: Func, values: &Arguments) -> Result<Value, Stop>
    ensures { Yields (built_in_of function values.now) result }
{
    match built_in(run.alloc(), function, values.as_slice()) {
        Ok(value) => Ok(value),
        Err(Failure::Fault(fault)) => {
            mean_all(run, values);
            Err(Stop::Fault(fault))
        }
        Err(Failure::Memory) => Err(Stop::Memory),
    }
}

/// Remembers that these values were meant.
fn mean_all(run: &Budget, values: &Arguments) {
    for value in values.as_slice() {
        run.trace().mean(value);
    }
}

/// The number that a value means, or the fault that it means none. It takes no memory.
#[tactic(auto, using(meaning::proofs::Rules::yields_rules))]
#[inline(never)]
pub fn number(run: &Budget, value: &Value) -> Result<i64, Stop>
    ensures { Yields (number_of_text value.now) result }
{
    match value.number() {
        Ok(number) => Ok(number),
        Err(fault) => {
            run.trace().mean(value);
            Err(Stop::Fault(fault))
        }
    }
}

/// The truth value that a value means, or the fault that it means none. It takes no memory.
#[tactic(auto, using(meaning::proofs::Rules::yields_rules))]
#[inline(never)]
pub fn truth(run: &Budget, value: &Value) -> Result<bool, Stop>
    ensures { Yields (truth_of_text value.now) result }
{
    match value.truth() {
        Ok(truth) => Ok(truth),
        Err(fault) => {
            run.trace().mean(value);
            Err(Stop::Fault(fault))
        }
    }
}

/// A count as a value, its decimal numeral.
pub(crate) fn numeral(run: &Budget, count: usize) -> Result<Value, AllocError>
    ensures { IfOk result (λ t. t ≡ numeral_of (pos count)) }
{
    let mut buffer = Buffer::new();
    let text = Text::fitting(run.alloc(), buffer.format(count).as_bytes())?;
    Ok(Value::of_text(text))
}

/// Sets a property of the run. `BadArgument` where the delimiter isn't one byte, `NotLogical` where another property
/// isn't `true` or `false`; then nothing changes. It takes no memory.
pub fn set_run_property(run: &mut Budget, property: RunProp, text: &Text) -> Result<(), Fault>
    ensures ok { OnOk result (run_property_set run.old property text.now ≡ Ok run.new) }
    ensures fault { IfErr result (λ e. run_property_set run.old property text.now ≡ Err e) }
    ensures err { OnErr result (run.new ≡ run.old) }
{
    match run.set_property(property, text) {
        Ok(()) => Ok(()),
        Err(fault) => {
            run.trace().mean_text(text);
            Err(fault)
        }
    }
}

/// The empty value. It takes no memory.
pub fn empty(run: &Budget) -> Value
    ensures { result ≡ [] }
{
    Value::of_text(Text::new(run.alloc()))
}

/// What `there is` says of an object that was looked for. That there is none is an answer, any other stop isn't.
#[tactic(auto, using(meaning::proofs::Rules::val_there_is_rules))]
#[inline(never)]
pub fn there(run: &Budget, is_no: bool, met: Result<Referent, Stop>) -> Result<Value, Stop>
    ensures { (w w1 : History) (r r1 : RunState) (f : Frame) (d : ℕ) (sought : tree.Ref)
        → Meets w r f d sought met w1 r1 → Val w r f d (tree.there_is is_no sought) result w1 r1 }
{
    match met {
        Ok(_) => Ok(Value::of_truth(!is_no)),
        Err(Stop::Fault(Fault::NoSuchObject)) => {
            run.trace().forget();
            Ok(Value::of_truth(is_no))
        }
        Err(stop) => Err(stop),
    }
}

/// The value of a constant.
pub(crate) fn constant_value(run: &Budget, constant: Constant) -> Result<Value, AllocError>
    ensures { IfOk result (λ v. v ≡ text_of_constant constant) }
{
    Ok(Value::of_text(Text::fitting(run.alloc(), constant.bytes())?))
}

/// The value of the constant `return`.
pub(crate) fn return_sign(run: &Budget) -> Result<Value, AllocError>
    ensures { IfOk result (λ v. v ≡ 13 ∷ []) }
{
    Ok(Value::of_text(Text::fitting(run.alloc(), b"\r")?))
}

/// Whether a repeat goes on that wants its condition to be so.
pub fn goes_on(wanted: bool, truth: bool) -> bool
    ensures { result ≡ goes_on_of wanted truth }
{
    if wanted { truth } else { !truth }
}

/// Whether a repeat ends by the end of its lines, which is then how it ends. That changes where it stands: a copy of it
/// would take room in the frame of each repeat.
#[tactic(auto, using(crate::proofs::Blocks::repeat_rules))]
#[inline(always)]
pub fn ends_repeat(ended: &mut Result<Way, Stop>) -> bool
    ensures { (v : List ℕ) → EndsRepeat (how_given ended.old v) result (how_given ended.new v) }
{
    match ended {
        Ok(Way::Next | Way::NextRepeat) => false,
        Ok(Way::ExitRepeat) => {
            *ended = Ok(Way::Next);
            true
        }
        Ok(Way::Exit | Way::Pass | Way::Returns) | Err(_) => true,
    }
}

/// The numbers from one value to another, up or down; the fault of the first that means no number. It takes no memory.
#[tactic(auto, using(meaning::proofs::Rules::yields_rules))]
#[inline(never)]
pub fn counter(run: &Budget, from: &Value, to: &Value, is_down: bool) -> Result<Counter, Stop>
    ensures { Yields (counter_of from.now to.now is_down) result }
{
    match (from.number(), to.number()) {
        (Ok(at), Ok(bound)) => Ok(Counter::new(at, bound, is_down)),
        (Err(fault), _) => {
            run.trace().mean(from);
            Err(Stop::Fault(fault))
        }
        (Ok(_), Err(fault)) => {
            run.trace().mean(to);
            Err(Stop::Fault(fault))
        }
    }
}

/// The same stop, which is remembered to come in a statement.
#[inline(never)]
pub fn stopping(run: &Budget, stmt: &Stmt, stop: Stop) -> Stop
    ensures { result ≡ stop }
{
    run.trace().reach(stmt.place());
    stop
}

/// Whether the end of a statement ends its block. It is looked at where it stands.
#[tactic(auto, using(crate::proofs::Blocks::block_rules))]
#[inline(always)]
pub fn ends_block(ended: Result<Way, Stop>) -> bool
    ensures { (v : List ℕ) → EndsBlock (how_given ended v) result }
{
    match ended {
        Ok(Way::Next) => false,
        Ok(_) => true,
        Err(_) => true,
    }
}

/// The same stop, which is remembered to leave a text that is run.
#[inline(never)]
pub fn leaving_text(run: &Budget, text_use: TextUse, text: &Text, stop: Stop) -> Stop
    ensures { result ≡ stop }
{
    run.trace().leave_text(text_use, text);
    stop
}

/// The expression that a text is, or the fault of syntax.
#[tactic(auto, using(meaning::proofs::Rules::parses_rules))]
#[inline(never)]
pub fn expression(run: &Budget, text_use: TextUse, text: &Text) -> Result<Rc<Expr>, Stop>
    ensures { Parses ReadsExpr text.now (read_as (λ x. x.value) result) }
{
    match run.texts().expression(run.alloc(), text) {
        Ok(e) => Ok(e),
        Err(ParseError::Syntax(place)) => {
            run.trace().unread_text(text_use, text, place);
            Err(Stop::Fault(Fault::Syntax))
        }
        Err(ParseError::Memory) => Err(Stop::Memory),
    }
}

/// The lines that a text is, or the fault of syntax.
#[tactic(auto, using(meaning::proofs::Rules::parses_rules))]
#[inline(never)]
pub fn lines(run: &Budget, text_use: TextUse, text: &Text) -> Result<Rc<Stmts>, Stop>
    ensures { Parses ReadsLines text.now (read_as (λ x. stmts_of x.value.items.items) result) }
{
    match run.texts().lines(run.alloc(), text) {
        Ok(lines) => Ok(lines),
        Err(ParseError::Syntax(place)) => {
            run.trace().unread_text(text_use, text, place);
            Err(Stop::Fault(Fault::Syntax))
        }
        Err(ParseError::Memory) => Err(Stop::Memory),
    }
}

/// The message that a text is, or the fault of syntax.
#[tactic(auto, using(meaning::proofs::Rules::parses_rules))]
#[inline(never)]
pub fn message(run: &Budget, text: &Text) -> Result<Rc<Message>, Stop>
    ensures { Parses ReadsMessage text.now (read_as (λ x. message_of x.value) result) }
{
    match run.texts().message(run.alloc(), text) {
        Ok(message) => Ok(message),
        Err(ParseError::Syntax(place)) => {
            run.trace().unread_text(TextUse::Send, text, place);
            Err(Stop::Fault(Fault::Syntax))
        }
        Err(ParseError::Memory) => Err(Stop::Memory),
    }
}
