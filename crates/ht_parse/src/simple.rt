//! Statements on one line.

ghost use Rattle.std.specs.Prelude.{◌≡◌, ◌<◌, ◌≤◌, ◌+◌, length, Some, None, if◌then◌else◌};
ghost use Rattle.ht_values.specs.declared.text.TheConstants.{LIMIT};
ghost use Rattle.ht_lex.specs.Stops.{Gives};
ghost use Rattle.ht_lex.specs.declared.key.Key.TheVariants as k;
ghost use Rattle.ht_lex.specs.Token.{first_kind, first_text, later};
ghost use Rattle.ht_grammar.specs.Trees as t;
ghost use Rattle.ht_grammar.specs.Statements as s;
ghost use Rattle.ht_grammar.specs.Depth.{container_depth, destination_depth, stmt_depth, depth, max_depth};
ghost use Rattle.ht_grammar.specs.Ends as ends;
ghost use Rattle.ht_grammar.specs.Expressions as e;
ghost use Rattle.ht_grammar.specs.Fronts as f;
ghost use Rattle.ht_grammar.specs.Grammar.{at_large};
ghost use Rattle.ht_grammar.specs.Reading as r;
ghost use Rattle.ht_grammar.specs.Lines as spec;
ghost use Rattle.ht_tree.specs.StatementView.{destination_of, stmt_of};
ghost use Rattle.ht_tree.specs.View.{exprs_of};
ghost use Rattle.ht_expressions.specs.Answer.{Reads, ReadsExpr};
ghost use Rattle.ht_parse.specs.Contexts.{context_of};

use crate::container::{container, names};
use crate::context::Context;
use crate::line_words::{begins_expr, skip_to};
use ht_expressions::{
    WHOLE, arguments, eat_of, prop_front, read, reference, referenced_layer, run_prop, selector,
    skip_the,
};
use ht_grammar::{Layer, RunProp};
use ht_lex::{Cursor, Key, Stop, TokenKind, is_same, to_text};
use ht_tree::{
    Container, ContainerKind, Destination, Expr, Exprs, Names, Selector, Stmt, StmtKind,
};
use ht_values::{Prop, Where};
use std::alloc::Global;

/// Where `put` puts, by the word after its value.
fn place_of(kind: Option<TokenKind>) -> Option<Where>
    ensures { result ≡ spec.place_front 0 at_large kind }
{
    match kind {
        Some(TokenKind::Key(Key::Into)) => Some(Where::Into),
        Some(TokenKind::Key(Key::Before)) => Some(Where::Before),
        Some(TokenKind::Key(Key::After)) => Some(Where::After),
        _ => None,
    }
}

/// The property of the run that the first token names.
fn run_prop_front(tokens: &Cursor<'_>) -> Option<RunProp>
    ensures { result ≡ spec.run_prop_front tokens.now }
{
    match tokens.peek() {
        Some(TokenKind::Name) => run_prop(tokens.text()),
        _ => None,
    }
}

/// The rules of statements whose parts have at most `depth` levels, for one that begins at a place of the text.
#[derive(Clone, Copy)]
pub(crate) struct Simple {
    pub alloc: Global,
    pub depth: usize,
    pub place: usize,
}

impl Simple {
    /// A whole expression.
    pub(crate) fn expr(&self, tokens: &mut Cursor<'_>) -> Result<Expr, Stop>
        requires { self.now.depth ≤ max_depth }
        ensures { ReadsExpr self.now.depth (r.read self.now.depth e.whole tokens.old) result tokens.new }
    {
        read(self.alloc, tokens, WHOLE, self.depth)
    }

    fn container(&self, tokens: &mut Cursor<'_>) -> Result<Container, Stop>
        requires { self.now.depth ≤ max_depth }
        ensures { Reads (λ c. c) container_depth self.now.depth (spec.container self.now.depth tokens.old) result
            tokens.new }
    {
        container(self.alloc, tokens, self.depth)
    }

    pub(crate) fn stmt(&self, kind: StmtKind) -> Result<Stmt, Stop>
        requires { stmt_depth (stmt_of kind) ≤ max_depth }
        ensures { Gives (stmt_of kind) result }
    {
        Ok(Stmt::new(self.alloc, kind, self.place)?)
    }

    /// After the value of `put`.
    fn put_end(&self, tokens: &mut Cursor<'_>, value: Expr) -> Result<Stmt, Stop>
        requires shallow { self.now.depth < max_depth }
        requires fits { depth value ≤ self.now.depth }
        ensures { Reads (λ s. s) stmt_depth (self.now.depth + 1)
            (spec.put_by self.now.depth at_large (spec.place_front self.now.depth at_large (first_kind tokens.old))
            value tokens.old) result tokens.new }
    {
        match place_of(tokens.peek()) {
            None => self.stmt(StmtKind::Put(value)),
            Some(place) => {
                tokens.skip();
                let container = self.container(tokens)?;
                self.stmt(StmtKind::PutIn(place, value, container))
            }
        }
    }

    fn put(&self, tokens: &mut Cursor<'_>) -> Result<Stmt, Stop>
        requires { self.now.depth < max_depth }
        ensures { Reads (λ s. s) stmt_depth (self.now.depth + 1)
            (r.and_then (r.read self.now.depth e.whole tokens.old)
            (λ v m. spec.put_by self.now.depth at_large (spec.place_front self.now.depth at_large (first_kind m)) v m))
            result tokens.new }
    {
        let value = self.expr(tokens)?;
        self.put_end(tokens, value)
    }

    fn get(&self, tokens: &mut Cursor<'_>) -> Result<Stmt, Stop>
        requires { self.now.depth < max_depth }
        ensures { Reads (λ s. s) stmt_depth (self.now.depth + 1)
            (r.made s.get (r.read self.now.depth e.whole tokens.old)) result tokens.new }
    {
        let value = self.expr(tokens)?;
        self.stmt(StmtKind::Get(value))
    }

    /// A value after this key.
    pub(crate) fn value_after(&self, tokens: &mut Cursor<'_>, key: Key) -> Result<Expr, Stop>
        requires { self.now.depth ≤ max_depth }
        ensures { ReadsExpr self.now.depth (spec.after_key key (r.read self.now.depth e.whole) tokens.old) result
            tokens.new }
    {
        if !tokens.eat(key) {
            return Err(Stop::Syntax);
        }
        self.expr(tokens)
    }

    /// A container after this key.
    fn container_after(&self, tokens: &mut Cursor<'_>, key: Key) -> Result<Container, Stop>
        requires { self.now.depth ≤ max_depth }
        ensures { Reads (λ c. c) container_depth self.now.depth
            (spec.after_key key (spec.container self.now.depth) tokens.old) result tokens.new }
    {
        if !tokens.eat(key) {
            return Err(Stop::Syntax);
        }
        self.container(tokens)
    }

    /// A property of an object, at its name.
    fn set_prop(&self, tokens: &mut Cursor<'_>, prop: Prop) -> Result<Stmt, Stop>
        requires { self.now.depth < max_depth }
        ensures { Reads (λ s. s) stmt_depth (self.now.depth + 1)
            (spec.set_by self.now.depth at_large (Some prop) tokens.old) result tokens.new }
    {
        tokens.skip();
        if !eat_of(tokens) {
            return Err(Stop::Syntax);
        }
        let reference = Box::new(self.alloc, reference(self.alloc, tokens, self.depth)?)?;
        let value = self.value_after(tokens, Key::To)?;
        self.stmt(StmtKind::Set(prop, reference, value))
    }

    /// A property of the run, at its name.
    fn set_run(&self, tokens: &mut Cursor<'_>) -> Result<Stmt, Stop>
        requires { self.now.depth < max_depth }
        ensures { Reads (λ s. s) stmt_depth (self.now.depth + 1)
            (spec.set_run_by self.now.depth at_large (spec.run_prop_front tokens.old) tokens.old) result tokens.new }
    {
        let Some(prop) = run_prop_front(tokens) else {
            return Err(Stop::Syntax);
        };
        tokens.skip();
        let value = self.value_after(tokens, Key::To)?;
        self.stmt(StmtKind::SetRun(prop, value))
    }

    /// What is set, after `set` and `the`.
    fn set(&self, tokens: &mut Cursor<'_>) -> Result<Stmt, Stop>
        requires { self.now.depth < max_depth }
        ensures { Reads (λ s. s) stmt_depth (self.now.depth + 1)
            (spec.set_by self.now.depth at_large (f.prop_front tokens.old) tokens.old) result tokens.new }
    {
        match prop_front(tokens) {
            Some(prop) => self.set_prop(tokens, prop),
            None => self.set_run(tokens),
        }
    }

    fn add(&self, tokens: &mut Cursor<'_>) -> Result<Stmt, Stop>
        requires { self.now.depth < max_depth }
        ensures { Reads (λ s. s) stmt_depth (self.now.depth + 1)
            (r.and_then (r.read self.now.depth e.whole tokens.old)
            (λ v. spec.after_key k.To (λ m. r.made (s.add v) (spec.container self.now.depth m)))) result tokens.new }
    {
        let value = self.expr(tokens)?;
        let container = self.container_after(tokens, Key::To)?;
        self.stmt(StmtKind::Add(value, container))
    }

    fn subtract(&self, tokens: &mut Cursor<'_>) -> Result<Stmt, Stop>
        requires { self.now.depth < max_depth }
        ensures { Reads (λ s. s) stmt_depth (self.now.depth + 1)
            (r.and_then (r.read self.now.depth e.whole tokens.old)
            (λ v. spec.after_key k.From (λ m. r.made (s.subtract v) (spec.container self.now.depth m)))) result
            tokens.new }
    {
        let value = self.expr(tokens)?;
        let container = self.container_after(tokens, Key::From)?;
        self.stmt(StmtKind::Subtract(value, container))
    }

    fn multiply(&self, tokens: &mut Cursor<'_>) -> Result<Stmt, Stop>
        requires { self.now.depth < max_depth }
        ensures { Reads (λ s. s) stmt_depth (self.now.depth + 1)
            (r.and_then (spec.container self.now.depth tokens.old)
            (λ c. spec.after_key k.By (λ m. r.made (s.multiply c) (r.read self.now.depth e.whole m))))
            result tokens.new }
    {
        let container = self.container(tokens)?;
        let value = self.value_after(tokens, Key::By)?;
        self.stmt(StmtKind::Multiply(container, value))
    }

    fn divide(&self, tokens: &mut Cursor<'_>) -> Result<Stmt, Stop>
        requires { self.now.depth < max_depth }
        ensures { Reads (λ s. s) stmt_depth (self.now.depth + 1)
            (r.and_then (spec.container self.now.depth tokens.old)
            (λ c. spec.after_key k.By (λ m. r.made (s.divide c) (r.read self.now.depth e.whole m)))) result tokens.new }
    {
        let container = self.container(tokens)?;
        let value = self.value_after(tokens, Key::By)?;
        self.stmt(StmtKind::Divide(container, value))
    }

    /// Only a chunk is deleted.
    fn delete(&self, tokens: &mut Cursor<'_>) -> Result<Stmt, Stop>
        requires { self.now.depth < max_depth }
        ensures { Reads (λ s. s) stmt_depth (self.now.depth + 1)
            (r.and_then (spec.container self.now.depth tokens.old) spec.deleted) result tokens.new }
    {
        let container = self.container(tokens)?;
        match container.into_kind() {
            ContainerKind::Chunk(chunk, whole) => self.stmt(StmtKind::Delete(chunk, whole)),
            ContainerKind::Variable(_) => Err(Stop::Syntax),
            ContainerKind::Field(_) => Err(Stop::Syntax),
        }
    }

    fn do_(&self, tokens: &mut Cursor<'_>) -> Result<Stmt, Stop>
        requires { self.now.depth < max_depth }
        ensures { Reads (λ s. s) stmt_depth (self.now.depth + 1)
            (r.made s.do_ (r.read self.now.depth e.whole tokens.old)) result tokens.new }
    {
        let text = self.expr(tokens)?;
        self.stmt(StmtKind::Do(text))
    }

    fn send(&self, tokens: &mut Cursor<'_>) -> Result<Stmt, Stop>
        requires { self.now.depth < max_depth }
        ensures { Reads (λ s. s) stmt_depth (self.now.depth + 1)
            (r.and_then (r.read self.now.depth e.whole tokens.old)
            (λ v. spec.after_key k.To (λ m. r.made (s.send v) (r.inner_ref (r.read self.now.depth) self.now.depth m))))
            result tokens.new }
    {
        let text = self.expr(tokens)?;
        if !tokens.eat(Key::To) {
            return Err(Stop::Syntax);
        }
        let reference = Box::new(self.alloc, reference(self.alloc, tokens, self.depth)?)?;
        self.stmt(StmtKind::Send(text, reference))
    }

    /// A card or a background, by the layer's word in front; without one a card.
    fn destination_on(&self, tokens: &mut Cursor<'_>) -> Result<Destination, Stop>
        requires { self.now.depth < max_depth }
        ensures { Reads destination_of destination_depth (self.now.depth + 1)
            (spec.destination_by self.now.depth at_large (r.referenced_layer tokens.old) tokens.old) result tokens.new }
    {
        match referenced_layer(tokens) {
            Some(layer) => {
                let selector = selector(self.alloc, tokens, self.depth)?;
                match layer {
                    Layer::Card => Ok(Destination::ToCard(selector)),
                    Layer::Background => Ok(Destination::ToBackground(selector)),
                }
            }
            None => bare_destination(tokens),
        }
    }

    #[tactic(auto, unfolding(ht_grammar::specs::Lines::destination_at))]
    fn destination(&self, tokens: &mut Cursor<'_>) -> Result<Destination, Stop>
        requires { self.now.depth < max_depth }
        ensures { Reads destination_of destination_depth self.now.depth
            (spec.destination_at self.now.depth at_large tokens.old) result tokens.new }
    {
        let destination = self.destination_on(tokens)?;
        let fits = destination.depth() <= self.depth;
        fits.then_some(destination).ok_or(Stop::Syntax)
    }

    fn go(&self, tokens: &mut Cursor<'_>) -> Result<Stmt, Stop>
        requires { self.now.depth < max_depth }
        ensures { Reads (λ s. s) stmt_depth (self.now.depth + 1)
            (r.made s.go (spec.destination_at self.now.depth at_large tokens.old)) result tokens.new }
    {
        let destination = self.destination(tokens)?;
        self.stmt(StmtKind::Go(destination))
    }

    /// Names, after `global`.
    fn global(&self, tokens: &mut Cursor<'_>, turns: usize) -> Result<Stmt, Stop>
        requires { self.now.depth < max_depth }
        ensures { Reads (λ s. s) stmt_depth (self.now.depth + 1) (r.made s.global (spec.names_at turns tokens.old))
            result tokens.new }
    {
        let spellings = names(self.alloc, tokens, turns)?;
        let names = Names::new(self.alloc, &spellings)?;
        self.stmt(StmtKind::Global(names))
    }

    /// `HyperCard`, after `exit to`.
    fn exit_to(&self, tokens: &mut Cursor<'_>) -> Result<Stmt, Stop>
        requires { self.now.depth < max_depth }
        ensures { Reads (λ s. s) stmt_depth (self.now.depth + 1)
            (spec.hypercard_by self.now.depth at_large (first_kind tokens.old) tokens.old) result tokens.new }
    {
        match tokens.peek() {
            Some(TokenKind::Name) => {
                if is_same(tokens.take(), b"HyperCard") {
                    self.stmt(StmtKind::ExitToHyperCard)
                } else {
                    Err(Stop::Syntax)
                }
            }
            _ => Err(Stop::Syntax),
        }
    }

    /// After `exit`.
    fn exit(&self, tokens: &mut Cursor<'_>, context: Context<'_>) -> Result<Stmt, Stop>
        requires { self.now.depth < max_depth }
        ensures { Reads (λ s. s) stmt_depth (self.now.depth + 1)
            (spec.exit_by self.now.depth (context_of context.entry) (first_kind tokens.old) tokens.old) result
            tokens.new }
    {
        match tokens.peek() {
            Some(TokenKind::Key(Key::Repeat)) => {
                if !context.in_repeat {
                    return Err(Stop::Syntax);
                }
                tokens.skip();
                self.stmt(StmtKind::ExitRepeat)
            }
            Some(TokenKind::Key(Key::To)) => {
                tokens.skip();
                self.exit_to(tokens)
            }
            Some(TokenKind::Name) => {
                let name = tokens.take();
                if !context.names_handler(name) {
                    return Err(Stop::Syntax);
                }
                self.stmt(StmtKind::Exit(to_text(self.alloc, name)?))
            }
            _ => Err(Stop::Syntax),
        }
    }

    /// After `next`.
    fn next(&self, tokens: &mut Cursor<'_>, context: Context<'_>) -> Result<Stmt, Stop>
        requires { self.now.depth < max_depth }
        ensures { Reads (λ s. s) stmt_depth (self.now.depth + 1)
            (spec.after_key k.Repeat (λ c. if (context_of context.entry).in_repeat then Some (s.next_repeat, c) else
            None) tokens.old) result tokens.new }
    {
        if !tokens.eat(Key::Repeat) {
            return Err(Stop::Syntax);
        }
        if !context.in_repeat {
            return Err(Stop::Syntax);
        }
        self.stmt(StmtKind::NextRepeat)
    }

    /// After `pass`.
    fn pass(&self, tokens: &mut Cursor<'_>, context: Context<'_>) -> Result<Stmt, Stop>
        requires { self.now.depth < max_depth }
        ensures { Reads (λ s. s) stmt_depth (self.now.depth + 1)
            (spec.pass_by self.now.depth (context_of context.entry) (first_kind tokens.old) tokens.old) result
            tokens.new }
    {
        match tokens.peek() {
            Some(TokenKind::Name) => {
                let name = tokens.take();
                if !context.names_handler(name) {
                    return Err(Stop::Syntax);
                }
                self.stmt(StmtKind::Pass(to_text(self.alloc, name)?))
            }
            _ => Err(Stop::Syntax),
        }
    }

    /// After `return`, in a handler.
    fn return_(&self, tokens: &mut Cursor<'_>) -> Result<Stmt, Stop>
        requires { self.now.depth < max_depth }
        ensures { Reads (λ s. s) stmt_depth (self.now.depth + 1)
            (if spec.begins_expr (first_kind tokens.old) then r.made s.return_value
            (r.read self.now.depth e.whole tokens.old) else Some (s.return_nothing, tokens.old)) result tokens.new }
    {
        if begins_expr(tokens.peek()) {
            let value = self.expr(tokens)?;
            self.stmt(StmtKind::ReturnValue(value))
        } else {
            self.stmt(StmtKind::ReturnNothing)
        }
    }

    /// A command, at its name.
    fn command(&self, tokens: &mut Cursor<'_>) -> Result<Stmt, Stop>
        requires { self.now.depth < max_depth }
        ensures { Reads (λ s. s) stmt_depth (self.now.depth + 1)
            (if spec.begins_expr (first_kind (later tokens.old)) then r.made (s.command (first_text tokens.old))
            (r.list_at (r.read self.now.depth) self.now.depth (length tokens.old) t.none (later tokens.old)) else Some
            (s.command (first_text tokens.old) t.none, later tokens.old)) result tokens.new }
    {
        if !begins_expr(tokens.second()) {
            return self.bare_command(tokens);
        }
        let turns = tokens.left();
        let name = tokens.take();
        let arguments = arguments(self.alloc, tokens, turns, self.depth)?;
        self.command_with(tokens, name, arguments)
    }

    /// A command with these arguments. It takes less memory if the text shares its name.
    fn command_with(&self, tokens: &Cursor<'_>, name: &[u8], arguments: Exprs) -> Result<Stmt, Stop>
        requires short { length name.now ≤ LIMIT }
        requires fits { stmt_depth (s.command name.now (exprs_of arguments.items.items)) ≤ max_depth }
        ensures { Gives (s.command name.now (exprs_of arguments.items.items)) result }
    {
        match tokens.shared_name(self.alloc, name) {
            Some(name) => Ok(Stmt::command(self.alloc, name, arguments, self.place)?),
            None => {
                let name = to_text(self.alloc, name)?;
                self.stmt(StmtKind::command(name, arguments))
            }
        }
    }

    /// A command without arguments. It takes no memory if the text shares its name.
    fn bare_command(&self, tokens: &mut Cursor<'_>) -> Result<Stmt, Stop>
        requires { self.now.depth < max_depth }
        ensures value { Gives (s.command (first_text tokens.old) t.none) result }
        ensures after { tokens.new ≡ later tokens.old }
    {
        let name = tokens.take();
        match tokens.shared_name(self.alloc, name) {
            Some(name) => Ok(Stmt::bare(name, self.place)),
            None => {
                let name = to_text(self.alloc, name)?;
                self.stmt(StmtKind::Command(name, Exprs::new(self.alloc)))
            }
        }
    }

    /// A statement on one line.
    #[tactic(auto, unfolding(ht_grammar::specs::Lines::simple_at, ht_grammar::specs::Lines::destination_at))]
    pub(crate) fn statement(
        &self,
        tokens: &mut Cursor<'_>,
        context: Context<'_>,
    ) -> Result<Stmt, Stop>
        requires { self.now.depth < max_depth }
        ensures { Reads (λ s. s) stmt_depth (self.now.depth + 1)
            (spec.simple_at self.now.depth (context_of context.entry) tokens.old) result tokens.new }
    {
        let kind = tokens.peek();
        if let Some(TokenKind::Name) = kind {
            return self.command(tokens);
        }
        let turns = tokens.left();
        tokens.skip();
        match kind {
            Some(TokenKind::Key(Key::Put)) => self.put(tokens),
            Some(TokenKind::Key(Key::Get)) => self.get(tokens),
            Some(TokenKind::Key(Key::Set)) => {
                skip_the(tokens);
                self.set(tokens)
            }
            Some(TokenKind::Key(Key::Add)) => self.add(tokens),
            Some(TokenKind::Key(Key::Subtract)) => self.subtract(tokens),
            Some(TokenKind::Key(Key::Multiply)) => self.multiply(tokens),
            Some(TokenKind::Key(Key::Divide)) => self.divide(tokens),
            Some(TokenKind::Key(Key::Delete)) => self.delete(tokens),
            Some(TokenKind::Key(Key::Do)) => self.do_(tokens),
            Some(TokenKind::Key(Key::Send)) => self.send(tokens),
            Some(TokenKind::Key(Key::Go)) => {
                skip_to(tokens);
                self.go(tokens)
            }
            Some(TokenKind::Key(Key::Global)) => self.global(tokens, turns),
            Some(TokenKind::Key(Key::Exit)) => self.exit(tokens, context),
            Some(TokenKind::Key(Key::Next)) => self.next(tokens, context),
            Some(TokenKind::Key(Key::Pass)) => self.pass(tokens, context),
            Some(TokenKind::Key(Key::Return)) => {
                if context.handler.is_none() {
                    return Err(Stop::Syntax);
                }
                self.return_(tokens)
            }
            _ => Err(Stop::Syntax),
        }
    }
}

/// A card by its place alone.
fn bare_destination(tokens: &mut Cursor<'_>) -> Result<Destination, Stop>
    ensures { Reads destination_of destination_depth 1
        (spec.bare_destination 0 at_large (first_kind tokens.old) tokens.old) result tokens.new }
{
    let kind = tokens.peek();
    tokens.skip();
    match kind {
        Some(TokenKind::Key(Key::This)) => Ok(Destination::ToCard(Selector::This)),
        Some(TokenKind::Key(Key::Next)) => Ok(Destination::ToCard(Selector::Next)),
        Some(TokenKind::Key(Key::Previous)) => Ok(Destination::ToCard(Selector::Previous)),
        Some(TokenKind::Key(Key::Ordinal(ordinal))) => Ok(Destination::ToCard(Selector::Nth(
            ordinal,
        ))),
        _ => Err(Stop::Syntax),
    }
}
