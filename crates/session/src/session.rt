//! A session: a world, and the lines that it takes.

ghost use Rattle.std.specs.Prelude.{◌≡◌, ◌≤◌, ◌==◌, ◌&&◌, [], nat_le, length, true, OnOk, IfOk, IfErr};
ghost use Rattle.std.specs.Prelude.{IsErr, IsErrOf, MatchBool, Some, None, map, option_map, slice_index_or};
ghost use Rattle.object_table.specs.WellFormed.{IsWellFormed};
ghost use Rattle.journal_entries.specs.State.{seen_by, seen_at, titles_of, has_name, index_of};
ghost use Rattle.change_journal.specs.History.{IsHistory, FollowTable, plugged, unplugged};
ghost use Rattle.session.specs.Moves.{MovesTo, undone, redone, undone_to};
ghost use Rattle.session.specs.Opening.{open_fault, opened};
ghost use Rattle.session.specs.Stamped.{numbers_of, DescendFrom};
ghost use Rattle.stack_text.specs.declared.sheets.Version.TheVariants.{Second as second};
ghost use Rattle.stack_text.specs.Laws.{Spells};
ghost use Rattle.stack_text.specs.Listing.{spelling};
ghost use Rattle.session.specs.TakesLine.{TakesLine, Performs, LineMayRunOut};
ghost use Rattle.session.specs.Commands.{command_in as command_by};
ghost use Rattle.session.specs.declared.limits.TheConstants.{LONGEST_LINE};
ghost use Rattle.session.specs.Replies.{ShowsCells, cells_named};
ghost use Rattle.session.specs.Replies.{shown_reply, moved_reply, typed_reply};

use crate::command::{Command, Reading, behind_name, command_in, is_dot_line, second_word};
use crate::fault::OpenError;
use crate::limits::{LAST_NUMBER, LONGEST_LINE, MOST_STEPS};
use crate::moves::{go_back, go_back_to, go_forth};
use crate::queries::{
    card_shown, cells_shown, external_named, globals_shown, history_shown, stack_shown,
};
use crate::reply::{Bytes, Ending, Refusal, Reply, StackText, ended, refused};
use crate::running::obey;
use change_journal::{MOST_DEPTH, PlugError, World};
use externals::{External, HasTable};
use ht_values::Text;
use meaning::{Sent, Shown};
use object_table::{Id, Stack};
use stack_file::write;
use std::alloc::{AllocError, Global};
use std::marker::Model;

/// A world with the number of lines that it took, and how many steps a command may take.
pub struct Session<E: External> {
    alloc: Global,
    world: World<E>,
    lines: u32,
    steps: u32,
}

/// Written here and not derived, so that no crate above proves anew how it is dropped.
impl<E: External> Drop for Session<E> {
    fn drop(self) {
        let Session {
            alloc: _,
            world: _,
            lines: _,
            steps: _,
        } = self;
    }
}

impl<E: External> Model for Session<E> {
    ghost use Rattle.std.specs.Prelude.{◌≡◌, ◌≤◌, None};
    ghost use Rattle.session.specs.declared.limits.TheConstants.{LAST_NUMBER};
    ghost use Rattle.session.specs.Stamped.{AreStamped};
    ghost use Rattle.session.specs.SessionView.{SessionView, coded_session_view};

    ghost Value = { SessionView };

    ghost coded = { coded_session_view };

    ghost view = { λ s. record { history = s.world.history; lines = s.lines; steps = s.steps } };

    ghost invariant = { λ s. (s.world.history.start ≡ None) × (s.lines ≤ LAST_NUMBER)
        × AreStamped s.lines s.world.history };
}

fn moved(alloc: Global, outcome: Result<(), Refusal>) -> Reply
    ensures { result ≡ moved_reply outcome }
{
    match outcome {
        Ok(()) => ended(alloc, Ending::Ok),
        Err(refusal) => refused(alloc, refusal),
    }
}

fn looked(alloc: Global, outcome: Result<Shown, AllocError>) -> Reply
    ensures { result ≡ shown_reply outcome }
{
    match outcome {
        Ok(shown) => Reply {
            shown,
            sent: Sent::new(alloc),
            ending: Ending::Ok,
        },
        Err(_) => refused(alloc, Refusal::NoMemory),
    }
}

fn typed(alloc: Global, outcome: Result<Reply, Refusal>) -> Reply
    ensures { result ≡ typed_reply outcome }
{
    match outcome {
        Ok(reply) => reply,
        Err(refusal) => refused(alloc, refusal),
    }
}

/// The cells of the external that has this name; it is no command where none has.
fn cells<E: External>(alloc: Global, world: &World<E>, name: &[u8]) -> Reply
    ensures { ShowsCells (cells_named world.now.history.now name.now) world.now.history result world.now.history }
{
    match external_named(world, name) {
        Some(number) => looked(alloc, cells_shown(alloc, world.external(number))),
        None => refused(alloc, Refusal::BadCommand),
    }
}

/// Does what a dot line says, as the line of this number, with so many steps where it is a command of a user.
fn obey_dot_line<E: External>(
    alloc: Global,
    world: &mut World<E>,
    steps: u32,
    number: u32,
    line: &[u8],
) -> Reply
    requires closed { world.old.history.start ≡ None }
    requires stamped { DescendFrom world.old.history.stamp (numbers_of world.old.history.past) }
    requires short { length line.now ≤ LONGEST_LINE }
    ensures performed { Performs steps line.now number
        (command_by line.now) world.old.history result world.new.history }
    ensures closed { world.new.history.start ≡ None }
{
    let Some(command) = command_in(line) else {
        return refused(alloc, Refusal::BadCommand);
    };
    match command {
        Command::Undo(places) => moved(alloc, go_back(world, places)),
        Command::Redo(places) => moved(alloc, go_forth(world, places)),
        Command::UndoTo(line) => moved(alloc, go_back_to(world, line)),
        Command::Show => looked(alloc, stack_shown(alloc, world)),
        Command::Globals => looked(alloc, globals_shown(alloc, world)),
        Command::Where => looked(alloc, card_shown(alloc, world)),
        Command::Cells => cells(alloc, world, second_word(line)),
        Command::History => looked(alloc, history_shown(alloc, world)),
        Command::Save => ended(alloc, Ending::Save(StackText::of(world.stack()))),
        Command::Act(reading) => {
            let text = behind_name(line);
            typed(alloc, obey(alloc, world, steps, number, reading, text))
        }
        Command::Quit => ended(alloc, Ending::Quit),
    }
}

/// Whether a number is from 1 to the greatest one.
fn is_within(number: u32, greatest: u32) -> bool
    ensures { result ≡ (nat_le 1 number && nat_le number greatest) }
{
    1 <= number && number <= greatest
}

impl<E: External> Session<E> {
    /// A session of one state: the stack, no global, its first card, and the externals with their
    /// cells of now. A command may take as many steps, 1 to 10,000,000; at most `depth` places, 1 to
    /// 1,000,000, can be undone. Where it isn't opened the stack and the externals come back. It takes
    /// no memory.
    pub fn open(
        alloc: Global,
        stack: Stack,
        externals: Vec<E>,
        steps: u32,
        depth: u32,
    ) -> Result<Session<E>, (OpenError, Stack, Vec<E>)>
        requires { IsWellFormed stack.content }
        ensures ok { IfOk result (λ s.
            (open_fault steps depth (map E.title externals.items) ≡ None)
            × (s ≡ opened stack.content
            (map (seen_by E.title E.sort E.answers_calls E.cells) externals.items)
            (map E.log externals.items) steps depth)) }
        ensures err { IfErr result (λ e.
            (open_fault steps depth (map E.title externals.items) ≡ Some e.0)
            × (e.1 ≡ stack) × (e.2.items ≡ externals.items)) }
    {
        if !is_within(steps, MOST_STEPS) {
            return Err((OpenError::BadSteps, stack, externals));
        }
        if !is_within(depth, MOST_DEPTH) {
            return Err((OpenError::BadDepth, stack, externals));
        }
        match World::open(alloc, stack, externals, depth) {
            Ok(world) => Ok(Session {
                alloc,
                world,
                lines: 0,
                steps,
            }),
            Err((_, stack, externals)) => Err((OpenError::DuplicateName, stack, externals)),
        }
    }

    /// The stack at the cursor.
    pub fn stack(&self) -> &Stack
        ensures content { result.now.content ≡ self.now.history.now.stack }
        ensures well_formed { IsWellFormed result.now.content }
    {
        self.world.stack()
    }

    /// The card that is current at the cursor.
    pub fn current(&self) -> Id
        ensures { result ≡ self.now.history.now.current }
    {
        self.world.current()
    }

    /// The spelling of the stack at the cursor, from which that stack is read back.
    pub fn saved(&self) -> Result<Bytes, AllocError>
        ensures text { IfOk result (λ bytes. bytes ≡ spelling second self.now.history.now.stack) }
        ensures spells { IfOk result (λ bytes. Spells bytes self.now.history.now.stack) }
    {
        Ok(Bytes::new(write(self.alloc, self.world.stack())?))
    }

    /// What holds of every state of the list, at any time: the stack is well formed, the globals have folded names and
    /// texts, the current card is one of the stack's, and each external is as its kind has it. It does nothing.
    pub fn law_of_states(&self)
        ensures { IsHistory self.now.history }
    {
        self.world.law_of_states();
    }

    /// Each external has a log, at any time. It does nothing.
    pub fn law_of_logs(&self)
        ensures { length self.now.history.logs ≡ length self.now.history.now.externals }
    {
        self.world.law_of_logs();
    }

    /// Adds an external, with its cells of now, to every place of the history. `DuplicateName` where
    /// another has a name that is the same, `Memory` where it is out of memory; either hands the external
    /// back, and then nothing changes.
    pub fn plug(&mut self, external: E) -> Result<(), (PlugError, E)>
        ensures ok { OnOk result (self.new ≡ record self.old {
          history = plugged self.old.history
              (seen_by E.title E.sort E.answers_calls E.cells external) (E.log external);
        }) }
        ensures err { IfErr result (λ e. (e.1 ≡ external) × (self.new ≡ self.old)) }
        ensures duplicate { IfErr result (λ e. e.0 ≡ PlugError.DuplicateName
            → has_name (E.title external) (titles_of self.old.history.now.externals) ≡ true) }
        ensures apart { has_name (E.title external) (titles_of self.old.history.now.externals) ≡ true
            → IfErr result (λ e. e.0 ≡ PlugError.DuplicateName) × IsErr result }
    {
        self.world.plug(external)
    }

    /// Takes out the external whose name is the same, and hands it out as it is: it takes no turn. The
    /// history is then the present state alone, which keeps its number. Where no external has the name
    /// nothing changes.
    pub fn unplug(&mut self, name: &Text) -> Option<E>
        ensures history { self.new ≡ record self.old { history = unplugged name.now self.old.history } }
        ensures external { option_map (seen_by E.title E.sort E.answers_calls E.cells) result
            ≡ option_map (seen_at self.old.history.now)
            (index_of name.now (titles_of self.old.history.now.externals)) }
        ensures log { option_map E.log result
            ≡ option_map (λ i. slice_index_or self.old.history.logs i [])
            (index_of name.now (titles_of self.old.history.now.externals)) }
    {
        self.world.unplug(name)
    }

    /// The externals in the order of plugging, with their cells of now.
    pub fn close(self) -> Vec<E>
        ensures seen { map (seen_by E.title E.sort E.answers_calls E.cells) result.items
            ≡ self.history.now.externals }
        ensures logs { map E.log result.items ≡ self.history.logs }
    {
        let Session {
            alloc: _,
            world,
            lines: _,
            steps: _,
        } = self;
        world.close()
    }

    /// Answers a line: a dot line, or each other one as HyperTalk, with the steps of a command. Each line is counted,
    /// up to 9,999,999. A command that is run adds a place, also where it changes nothing or ends by a fault, which
    /// keeps what was done before it. The refusals: 5 for a line over 30,000 bytes, then 3 for a dot line that says
    /// nothing and for another that isn't in the grammar, 1 and 2 where there is no such place, 6 where a text is typed
    /// into a locked field, and 4 where a growth of memory was refused; after 4 and 6 nothing is left of what the line
    /// did, but for turns that externals took. A line that saves takes no memory: the text that is to be kept is that
    /// of the stack at the cursor, and it isn't made here.
    pub fn line(&mut self, line: &[u8]) -> Reply
        ensures step { TakesLine line.now self.old result self.new }
        ensures memory { result.ending ≡ Ending.Refused Refusal.NoMemory → LineMayRunOut line.now }
    {
        self.lines = (self.lines + 1).min(LAST_NUMBER);
        if LONGEST_LINE < line.len() {
            return refused(self.alloc, Refusal::LineTooLong);
        }
        if is_dot_line(line) {
            return obey_dot_line(self.alloc, &mut self.world, self.steps, self.lines, line);
        }
        let outcome = obey(
            self.alloc,
            &mut self.world,
            self.steps,
            self.lines,
            Reading::Lines,
            line,
        );
        typed(self.alloc, outcome)
    }

    /// Goes back by as many places. `BadCommand` for none, `NothingToUndo` where there are fewer.
    pub fn undo(&mut self, places: u32) -> Result<(), Refusal>
        ensures moved { MatchBool (places == 0)
            (IsErrOf result Refusal.BadCommand × (self.new ≡ self.old))
            (MovesTo (undone places self.old.history) Refusal.NothingToUndo
            self.old.history result self.new.history) }
        ensures rest { self.new ≡ record self.old { history = self.new.history } }
    {
        if places == 0 {
            return Err(Refusal::BadCommand);
        }
        go_back(&mut self.world, places)
    }

    /// Goes forth by as many places. `BadCommand` for none, `NothingToRedo` where there are fewer.
    pub fn redo(&mut self, places: u32) -> Result<(), Refusal>
        ensures moved { MatchBool (places == 0)
            (IsErrOf result Refusal.BadCommand × (self.new ≡ self.old))
            (MovesTo (redone places self.old.history) Refusal.NothingToRedo
            self.old.history result self.new.history) }
        ensures rest { self.new ≡ record self.old { history = self.new.history } }
    {
        if places == 0 {
            return Err(Refusal::BadCommand);
        }
        go_forth(&mut self.world, places)
    }

    /// Goes back to the last state, up to the cursor, whose number is at most this. `NothingToUndo`
    /// where that is the cursor's own, or there is none.
    pub fn undo_to(&mut self, line: u32) -> Result<(), Refusal>
        ensures moved { MovesTo (undone_to line self.old.history) Refusal.NothingToUndo
            self.old.history result self.new.history }
        ensures rest { self.new ≡ record self.old { history = self.new.history } }
    {
        go_back_to(&mut self.world, line)
    }
}

impl<E: HasTable> Session<E> {
    /// Each turn of a log is the one that the table of the externals' type has, where it has one, at any time. It does
    /// nothing.
    pub fn law_of_table(&self)
        ensures { FollowTable E.turn_table self.now.history }
    {
        self.world.law_of_table();
    }
}
