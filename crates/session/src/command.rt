//! What a dot line says.

ghost use Rattle.std.specs.Prelude.{◌≡◌, ◌<◌, ◌≤◌, ◌==◌, ◌∷◌, length, option_map};
ghost use Rattle.std.specs.List.{position, position_or_len};
ghost use Rattle.session.specs.Commands as commands;
ghost use Rattle.session.specs.Commands.{after_spaces as from_first_word, behind_name as from_first_space};
ghost use Rattle.session.specs.Commands.{is as is_word, is_dot_line as begins_with_dot, second, words, word_and_rest};
ghost use Rattle.session.specs.Commands.{places, named, counted, to_line, worded, acted_in as acted_by};

use stack_file::number_at;

/// How a text is read that says what a user does.
#[derive(Clone, Copy)]
pub enum Reading {
    /// As lines of HyperTalk.
    Lines,
    /// Not at all: `.open` says it.
    Opening,
    /// As the reference of `.click`.
    Reference,
    /// As what stands behind `.type`.
    Typing,
}

/// What a dot line says.
#[derive(Clone, Copy)]
pub enum Command {
    Undo(u32),
    Redo(u32),
    UndoTo(u32),
    Show,
    Globals,
    Where,
    Cells,
    History,
    Save,
    /// What stands behind the name is read so and done.
    Act(Reading),
    Quit,
}

/// Whether a line begins with a dot.
pub fn is_dot_line(line: &[u8]) -> bool
    ensures { result ≡ begins_with_dot line.now }
{
    line.first() == Some(&b'.')
}

/// What a dot line says, or `None` where it says nothing.
pub fn command_in(line: &[u8]) -> Option<Command>
    ensures { result ≡ commands.command_in line.now }
{
    let (name, rest) = next_word(line)?;
    if is(name, b".click") {
        return Some(Command::Act(Reading::Reference));
    }
    if is(name, b".type") {
        return Some(Command::Act(Reading::Typing));
    }
    worded_in(name, rest)
}

/// What a dot line says whose words stand between spaces: the name, and what follows it.
fn worded_in(name: &[u8], rest: &[u8]) -> Option<Command>
    ensures { result ≡ worded (name.now ∷ words rest.now) }
{
    let Some((second, rest)) = next_word(rest) else {
        return named_in(name);
    };
    let Some((third, rest)) = next_word(rest) else {
        return counted_in(name, second);
    };
    match next_word(rest) {
        None => to_line_in(name, second, third),
        Some(_) => None,
    }
}

fn after_spaces(line: &[u8]) -> &[u8]
    ensures { result.now ≡ from_first_word line.now }
{
    let mut bytes = line;
    while let [b' ', rest @ ..] = bytes {
        bytes = rest;
    }
    bytes
}

fn space_in(bytes: &[u8]) -> Option<usize>
    ensures { result ≡ position (λ b. b == 32) bytes.now }
{
    bytes.iter().position(|b| *b == b' ')
}

fn word_length(bytes: &[u8]) -> usize
    ensures value { result ≡ position_or_len (λ b. b == 32) bytes.now }
    ensures within { result ≤ length bytes.now }
{
    match space_in(bytes) {
        Some(end) => end,
        None => bytes.len(),
    }
}

/// The first word, and what follows it.
fn next_word(line: &[u8]) -> Option<(&[u8], &[u8])>
    ensures { words line.now ≡ word_and_rest result }
{
    let bytes = after_spaces(line);
    if bytes.is_empty() {
        return None;
    }
    let end = word_length(bytes);
    Some((&bytes[..end], &bytes[end..]))
}

fn places_in(word: &[u8]) -> Option<u32>
    ensures { result ≡ places word.now }
{
    let number = number_at(word)?;
    if number == 0 { None } else { Some(number) }
}

fn is(word: &[u8], name: &[u8]) -> bool
    ensures { result ≡ is_word word.now name.now }
{
    word == name
}

fn named_in(name: &[u8]) -> Option<Command>
    ensures { result ≡ named name.now }
{
    if is(name, b".undo") {
        Some(Command::Undo(1))
    } else if is(name, b".redo") {
        Some(Command::Redo(1))
    } else if is(name, b".show") {
        Some(Command::Show)
    } else if is(name, b".globals") {
        Some(Command::Globals)
    } else if is(name, b".where") {
        Some(Command::Where)
    } else if is(name, b".history") {
        Some(Command::History)
    } else if is(name, b".save") {
        Some(Command::Save)
    } else if is(name, b".open") {
        Some(Command::Act(Reading::Opening))
    } else if is(name, b".quit") {
        Some(Command::Quit)
    } else {
        None
    }
}

/// `.undo K`, `.redo K` and `.cells NAME`
fn counted_in(name: &[u8], word: &[u8]) -> Option<Command>
    ensures { result ≡ counted name.now word.now }
{
    if is(name, b".undo") {
        return Some(Command::Undo(places_in(word)?));
    }
    if is(name, b".redo") {
        return Some(Command::Redo(places_in(word)?));
    }
    if is(name, b".cells") {
        return Some(Command::Cells);
    }
    None
}

/// `.undo to N`
fn to_line_in(name: &[u8], to: &[u8], word: &[u8]) -> Option<Command>
    ensures { result ≡ to_line name.now to.now word.now }
{
    if is(name, b".undo") && is(to, b"to") {
        return Some(Command::UndoTo(number_at(word)?));
    }
    None
}

/// What stands behind the name of a dot line, from the first space on.
pub fn behind_name(line: &[u8]) -> &[u8]
    ensures text { result.now ≡ from_first_space line.now }
    ensures short { length result.now ≤ length line.now }
{
    &line[word_length(line)..]
}

/// The text of a line that says what a user does, and how it is read: a line without a dot whole, of `.click` and
/// `.type` what stands behind the name, of `.open` nothing that is read. `None` for every other dot line.
pub fn acted_in(line: &[u8]) -> Option<(Reading, &[u8])>
    ensures { option_map (λ read. (read.0, read.1.now)) result ≡ acted_by line.now }
{
    if !is_dot_line(line) {
        return Some((Reading::Lines, line));
    }
    match command_in(line) {
        Some(Command::Act(reading)) => Some((reading, behind_name(line))),
        _ => None,
    }
}

/// The word behind the name of a dot line; empty where there is none.
pub fn second_word(line: &[u8]) -> &[u8]
    ensures { result.now ≡ second (words line.now) }
{
    match next_word(line) {
        Some((_, rest)) => match next_word(rest) {
            Some((word, _)) => word,
            None => b"",
        },
        None => b"",
    }
}
