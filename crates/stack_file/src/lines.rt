//! Lines of a text, read one after the other, each by its form.

ghost use Rattle.std.specs.Prelude.{◌≡◌, ◌<◌, codes, length, [], IfOk};
ghost use Rattle.stack_text.specs.Reading.{Gives, next_line, or_bad_line, line_after, exactly, name_at, number_after};
ghost use Rattle.stack_text.specs.Reading.{count_after, flag_after, flag_at, count_at, piece_at, pair_at, part_header};
ghost use Rattle.stack_text.specs.Reading.{new_id, version_at, nothing_left};
ghost use Rattle.stack_text.specs.Words.{number_at as number_of};
ghost use Rattle.stack_text.specs.declared.fault.FileError.TheVariants.{BadLine, BadId};
ghost use Rattle.stack_text.specs.declared.fault.ReadError.TheVariants.{File};

use crate::forms::{
    card_in, count_in, flag_in, hilite_in, name_in, number_in, part_in, piece_count_in, piece_in,
    place_of, text_in, version_in,
};
use crate::placed::PlacedIds;
use ht_values::PartKind;
use object_table::ObjectName;
use stack_text::{FileError, ReadError, Version};
use std::alloc::Global;
use std::marker::Model;

/// The greatest number of objects, the stack not counted.
pub(crate) const MOST_OBJECTS: u32 = 10_000;

/// What is left of a text, the number of the line that was read last, and the ids so far.
#[derive(Drop)]
pub(crate) struct Lines<'a> {
    bytes: &'a [u8],
    number: u64,
    used: PlacedIds,
}

impl<'a> Model for Lines<'a> {
    ghost use Rattle.std.specs.Prelude.{◌+◌, ◌<◌, ◌^◌, length};
    ghost use Rattle.stack_text.specs.Reading.{Position, coded_position};

    ghost Value = { Position };

    ghost coded = { coded_position };

    ghost view = { λ l. record { bytes = l.bytes.now; number = l.number; used = l.used } };

    ghost invariant = { λ l. l.number + length l.bytes.now < 2 ^ 63 };
}

impl<'a> Lines<'a> {
    pub(crate) fn new(alloc: Global, bytes: &'a [u8]) -> Lines<'a>
        ensures { result ≡ record { bytes = bytes.now; number = 0; used = [] } }
    {
        Lines {
            bytes,
            number: 0,
            used: PlacedIds::new(alloc),
        }
    }

    #[tactic(auto, unfolding(stack_text::specs::Reading::next_line))]
    fn next_line(&mut self) -> Result<&'a [u8], ReadError>
        ensures { Gives (λ x. (x.now, self.new)) result (next_line self.old) }
    {
        match place_of(self.bytes, b'\n') {
            Some(end) => {
                let line = &self.bytes[..end];
                self.bytes = &self.bytes[end + 1..];
                self.number += 1;
                Ok(line)
            }
            None => Err(ReadError::File(FileError::Truncated)),
        }
    }

    fn bad_line(&self) -> ReadError
        ensures { result ≡ File (BadLine self.now.number) }
    {
        ReadError::File(FileError::BadLine(self.number))
    }

    /// What a line says, or that it is bad.
    fn or_bad_line<T>(&self, found: Option<T>) -> Result<T, ReadError>
        ensures { Gives (λ x. (x, self.now)) result (or_bad_line found self.now) }
    {
        match found {
            Some(value) => Ok(value),
            None => Err(self.bad_line()),
        }
    }

    pub(crate) fn bad_id(&self) -> ReadError
        ensures { result ≡ File (BadId self.now.number) }
    {
        ReadError::File(FileError::BadId(self.number))
    }

    /// A line that has these bytes and no others.
    #[tactic(auto, unfolding(stack_text::specs::Reading::exactly))]
    pub(crate) fn exactly(&mut self, form: &[u8]) -> Result<(), ReadError>
        ensures { Gives (λ x. (tt, self.new)) result (exactly form.now self.old) }
    {
        let line = self.next_line()?;
        if line == form {
            Ok(())
        } else {
            Err(self.bad_line())
        }
    }

    #[tactic(auto, unfolding(stack_text::specs::Reading::number_after))]
    pub(crate) fn number_after(&mut self, prefix: &[u8]) -> Result<u32, ReadError>
        ensures { Gives (λ x. (x, self.new)) result (number_after prefix.now self.old) }
    {
        let line = self.next_line()?;
        self.or_bad_line(number_in(line, prefix))
    }

    /// The first line, which tells the version of the text.
    pub(crate) fn version(&mut self) -> Result<Version, ReadError>
        ensures { Gives (λ x. (x, self.new)) result (line_after (codes "htstack ") version_at self.old) }
    {
        let line = self.next_line()?;
        self.or_bad_line(version_in(line))
    }

    /// A number that is no less than the least. One over the most is too many.
    #[tactic(auto, unfolding(stack_text::specs::Reading::count_after))]
    pub(crate) fn count_after(
        &mut self,
        prefix: &[u8],
        least: u32,
        most: u32,
    ) -> Result<u32, ReadError>
        ensures { Gives (λ x. (x, self.new)) result (count_after prefix.now least most self.old) }
    {
        let line = self.next_line()?;
        match count_in(line, prefix, least) {
            None => Err(self.bad_line()),
            Some(count) if most < count => Err(ReadError::File(FileError::TooMany)),
            Some(count) => Ok(count),
        }
    }

    #[tactic(auto, unfolding(stack_text::specs::Reading::flag_after))]
    pub(crate) fn flag_after(&mut self, prefix: &[u8]) -> Result<bool, ReadError>
        ensures { Gives (λ x. (x, self.new)) result (flag_after prefix.now self.old) }
    {
        let line = self.next_line()?;
        self.or_bad_line(flag_in(line, prefix))
    }

    #[tactic(auto, unfolding(stack_text::specs::Reading::name_at))]
    pub(crate) fn name(&mut self, alloc: Global) -> Result<ObjectName, ReadError>
        ensures { Gives (λ x. (x, self.new)) result (name_at self.old) }
    {
        let line = self.next_line()?;
        let name = self.or_bad_line(name_in(alloc, line)?)?;
        Ok(ObjectName::new(name))
    }

    /// How many pieces a text has.
    pub(crate) fn piece_count(&mut self, prefix: &[u8]) -> Result<u32, ReadError>
        ensures { Gives (λ x. (x, self.new)) result (line_after prefix.now count_at self.old) }
    {
        let line = self.next_line()?;
        self.or_bad_line(piece_count_in(line, prefix))
    }

    /// A piece that is shorter than the room, and not empty where it is alone.
    pub(crate) fn piece(
        &mut self,
        alloc: Global,
        alone: bool,
        room: usize,
    ) -> Result<Vec<u8>, ReadError>
        ensures value { Gives (λ x. (x.items, self.new)) result
            (line_after (codes "|") (piece_at alone room) self.old) }
        ensures short { IfOk result (λ x. length x.items < room) }
    {
        let line = self.next_line()?;
        match piece_in(alloc, alone, room, line)? {
            Some(piece) => Ok(piece),
            None => Err(self.bad_line()),
        }
    }

    /// A card's id and that of its background.
    pub(crate) fn card_head(&mut self) -> Result<(u32, u32), ReadError>
        ensures { Gives (λ x. (x, self.new)) result
            (line_after (codes "card ") (pair_at number_of number_of) self.old) }
    {
        let line = self.next_line()?;
        self.or_bad_line(card_in(line))
    }

    /// A field's id and the number of its text's pieces.
    pub(crate) fn text_head(&mut self) -> Result<(u32, u32), ReadError>
        ensures { Gives (λ x. (x, self.new)) result
            (line_after (codes "text ") (pair_at number_of count_at) self.old) }
    {
        let line = self.next_line()?;
        self.or_bad_line(text_in(line))
    }

    /// A button's id and whether it is lit.
    pub(crate) fn hilite_head(&mut self) -> Result<(u32, bool), ReadError>
        ensures { Gives (λ x. (x, self.new)) result
            (line_after (codes "hilite ") (pair_at number_of flag_at) self.old) }
    {
        let line = self.next_line()?;
        self.or_bad_line(hilite_in(line))
    }

    /// The kind and the id of a part.
    pub(crate) fn part_head(&mut self) -> Result<(PartKind, u32), ReadError>
        ensures { Gives (λ x. (x, self.new)) result (line_after [] part_header self.old) }
    {
        let line = self.next_line()?;
        self.or_bad_line(part_in(line))
    }

    /// Takes the id of the next object, which has to be new and below `next`; whether nothing else
    /// in its line is wrong.
    #[tactic(auto, unfolding(stack_text::specs::Reading::new_id))]
    pub(crate) fn new_id(&mut self, next: u32, id: u32, else_right: bool) -> Result<(), ReadError>
        ensures { Gives (λ x. (tt, self.new)) result (new_id next id else_right self.old) }
    {
        if MOST_OBJECTS as usize <= self.used.len() {
            return Err(ReadError::File(FileError::TooMany));
        }
        if !else_right || id == 0 || next <= id || self.used.contains(id) {
            return Err(self.bad_id());
        }
        self.used.push(id)?;
        Ok(())
    }

    /// Nothing is left.
    pub(crate) fn nothing_left(&self) -> Result<(), ReadError>
        ensures { Gives (λ x. (tt, self.now)) result (nothing_left self.now) }
    {
        if self.bytes.is_empty() {
            Ok(())
        } else {
            Err(ReadError::File(FileError::BadLine(self.number + 1)))
        }
    }
}
