//! The texts that were met last, with their trees.

ghost use Rattle.std.specs.Prelude.{◌≡◌, IfErr, IfOk, IfSome, true};
ghost use Rattle.ht_grammar.specs.Reads.{ReadsExpr, ReadsLines, ReadsMessage};
ghost use Rattle.ht_tree.specs.ScriptView.{message_of};
ghost use Rattle.ht_tree.specs.StatementView.{stmts_of};
ghost use Rattle.ht_parse.specs.Answer.{Parses};
ghost use Rattle.ht_parse.specs.OnlyTree.{IsOnlyTree};
ghost use Rattle.ht_parse.specs.declared.error.ParseError.TheVariants.{Memory};

use crate::error::ParseError;
use crate::parse::{parse_expr, parse_lines, parse_message};
use ht_tree::{Expr, Message, Stmts};
use ht_values::Text;
use std::alloc::Global;
use std::cell::RefCell;
use std::marker::Model;
use std::rc::Rc;

/// How many texts of a kind are kept at most. Each costs a comparison where a text is new.
const MOST_KEPT: usize = 4;

/// How many bytes these texts may have together: a long one, and short ones beside it.
const MOST_KEPT_BYTES: usize = 32_000;

/// What a text is read as.
trait Tree: Drop {
    ghost use Rattle.std.specs.Prelude.{ℕ, List};

    // That the text is read as this tree, and as no other.
    ghost is_of: { Self → List ℕ → Type 0 };
}

impl Tree for Stmts {
    ghost is_of = { λ lines text. IsOnlyTree ReadsLines text (stmts_of lines.items.items) };
}

impl Tree for Message {
    ghost is_of = { λ message text. IsOnlyTree ReadsMessage text (message_of message) };
}

impl Tree for Expr {
    ghost is_of = { λ expr text. IsOnlyTree ReadsExpr text expr };
}

/// A text that was met, with its tree if it was parsed. Contracts see it as the text.
#[derive(Drop)]
struct MetText<T: Tree> {
    text: Text,
    tree: Option<Rc<T>>,
}

impl<T: Tree> Model for MetText<T> {
    ghost use Rattle.std.specs.Prelude.{ℕ, List, IfSome};

    ghost Value = { List ℕ };

    ghost view = { λ m. m.text };

    ghost invariant = { λ m. IfSome m.tree (λ tree. T.is_of tree.value m.text) };
}

impl<T: Tree> MetText<T> {
    /// Whether this is the text that is asked for.
    fn is(&self, text: &Text) -> bool
        ensures { result ≡ true → self.now ≡ text.now }
    {
        self.text.as_slice() == text.as_slice()
    }

    /// The tree, shared, if this is the text that is asked for, and it was parsed.
    fn tree_of(&self, text: &Text) -> Option<Rc<T>>
        ensures { IfSome result (λ tree. T.is_of tree.value text.now) }
    {
        match &self.tree {
            Some(tree) if self.is(text) => tree.clone().ok(),
            _ => None,
        }
    }
}

/// The texts of a kind that were met last, the oldest first.
#[derive(Drop)]
struct Recent<T: Tree> {
    texts: RefCell<Vec<MetText<T>>>,
}

impl<T: Tree> Recent<T> {
    /// No texts. It takes no memory.
    fn new(alloc: Global) -> Recent<T> {
        Recent {
            texts: RefCell::new(Vec::new(alloc)),
        }
    }

    /// The tree of a text, if it is kept.
    fn get(&self, text: &Text) -> Option<Rc<T>>
        ensures { IfSome result (λ tree. T.is_of tree.value text.now) }
    {
        let texts = self.texts.try_borrow().ok()?;
        for kept in texts.as_slice() {
            let tree = kept.tree_of(text);
            if tree.is_some() {
                return tree;
            }
        }
        None
    }

    /// Whether a text is kept, with its tree or without.
    fn has(&self, text: &Text) -> bool {
        match self.texts.try_borrow() {
            Ok(texts) => texts.iter().any(|met| met.is(text)),
            Err(_) => false,
        }
    }

    /// Makes room for a new text: the oldest goes where there are too many, and all go where these are too long. So the
    /// tree of the new one, which is parsed next, takes the memory of those. One that is kept without a tree is new.
    fn make_room(&self, new: &Text) {
        if let Ok(mut texts) = self.texts.try_borrow_mut() {
            texts.retain(|met| !met.is(new));
            let mut bytes = new.len();
            for met in texts.as_slice() {
                bytes = bytes.saturating_add(met.text.len());
            }
            if bytes > MOST_KEPT_BYTES {
                texts.clear();
            } else if texts.len() == MOST_KEPT {
                let _ = texts.remove(0);
            }
        }
    }

    /// Keeps a text, for which there is room. Where it is out of memory, the text isn't kept.
    fn keep(&self, met: MetText<T>) {
        if let Ok(mut texts) = self.texts.try_borrow_mut() {
            let _ = texts.push(met);
        }
    }

    /// Whether a text is met for the first time, by what is kept. It is then kept without a tree, if there is memory.
    fn meet(&self, alloc: Global, text: &Text) -> bool {
        if self.has(text) {
            return false;
        }
        self.make_room(text);
        if let Ok(text) = text.try_clone(alloc) {
            self.keep(MetText { text, tree: None });
        }
        true
    }

    /// A tree shared, which is kept with its text if there is memory for both.
    fn kept(&self, alloc: Global, text: &Text, tree: T) -> Result<Rc<T>, ParseError>
        requires { T.is_of tree text.now }
        ensures shared { IfOk result (λ shared. shared.value ≡ tree) }
        ensures memory { IfErr result (λ error. error ≡ Memory) }
    {
        let Ok(tree) = Rc::new(alloc, tree) else {
            return Err(ParseError::Memory);
        };
        if let (Ok(text), Some(tree)) = (text.try_clone(alloc), tree.clone().ok()) {
            let tree = Some(tree);
            self.keep(MetText { text, tree });
        }
        Ok(tree)
    }
}

/// The texts that a run has met last, with their trees: a text that it reads again and again is parsed once.
#[derive(Drop)]
pub struct RecentTexts {
    lines: Recent<Stmts>,
    messages: Recent<Message>,
    expressions: Recent<Expr>,
}

impl RecentTexts {
    /// No texts. It takes no memory.
    pub fn new(alloc: Global) -> RecentTexts {
        RecentTexts {
            lines: Recent::new(alloc),
            messages: Recent::new(alloc),
            expressions: Recent::new(alloc),
        }
    }

    /// The lines that a text is, as `parse_lines` gives them.
    pub fn lines(&self, alloc: Global, text: &Text) -> Result<Rc<Stmts>, ParseError>
        ensures { Parses (λ x. stmts_of x.value.items.items) ReadsLines text.now result }
    {
        match self.lines.get(text) {
            Some(lines) => Ok(lines),
            None => {
                self.lines.make_room(text);
                self.lines.kept(alloc, text, parse_lines(alloc, text)?)
            }
        }
    }

    /// The message that a text is, as `parse_message` gives it.
    pub fn message(&self, alloc: Global, text: &Text) -> Result<Rc<Message>, ParseError>
        ensures { Parses (λ x. message_of x.value) ReadsMessage text.now result }
    {
        match self.messages.get(text) {
            Some(message) => Ok(message),
            None => {
                self.messages.make_room(text);
                self.messages.kept(alloc, text, parse_message(alloc, text)?)
            }
        }
    }

    /// Whether a text is met as an expression for the first time, so far as that is remembered: one that comes again is
    /// worth a tree. No clause says which texts are remembered.
    pub fn meet_expression(&self, alloc: Global, text: &Text) -> bool {
        self.expressions.meet(alloc, text)
    }

    /// The expression that a text is, as `parse_expr` gives it.
    pub fn expression(&self, alloc: Global, text: &Text) -> Result<Rc<Expr>, ParseError>
        ensures { Parses (λ x. x.value) ReadsExpr text.now result }
    {
        match self.expressions.get(text) {
            Some(expr) => Ok(expr),
            None => {
                self.expressions.make_room(text);
                self.expressions.kept(alloc, text, parse_expr(alloc, text)?)
            }
        }
    }
}
