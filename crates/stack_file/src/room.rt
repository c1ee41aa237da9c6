//! Room for what is kept for parts, made before it is put.

ghost use Rattle.std.specs.Prelude.{◌≡◌, OnOk};

use crate::sheets::SheetLines;
use object_table::{Id, Stack};
use stack_text::PartContent;
use std::alloc::{AllocError, Global};

/// The parts for which texts and hilites are kept on a card, or on card 0 for all cards.
#[derive(Drop)]
struct KeptParts {
    texts: Vec<Id>,
    hilites: Vec<Id>,
}

impl KeptParts {
    fn new(alloc: Global) -> KeptParts {
        KeptParts {
            texts: Vec::new(alloc),
            hilites: Vec::new(alloc),
        }
    }

    fn add(&mut self, part: Id, content: &PartContent) -> Result<(), AllocError> {
        match content {
            PartContent::Nothing => {}
            PartContent::Written(_) => self.texts.push(part)?,
            PartContent::Lit(_) => self.hilites.push(part)?,
        }
        Ok(())
    }

    fn add_sheet(&mut self, sheet: &SheetLines) -> Result<(), AllocError> {
        for keeping in &sheet.keepings {
            self.add(keeping.part, &keeping.content)?;
        }
        for part in &sheet.parts {
            self.add(part.id, &part.content)?;
        }
        Ok(())
    }

    /// Makes room for them in the order of their ids, so that each goes to the end of what the card has, and moves
    /// nothing.
    fn open(&mut self, stack: &mut Stack, card: Id) -> Result<(), AllocError>
        ensures { OnOk result (stack.new.content ≡ stack.old.content) }
    {
        self.texts.sort_unstable();
        self.hilites.sort_unstable();
        stack.open_texts(&self.texts, card)?;
        stack.open_hilites(&self.hilites, card)
    }
}

fn open_backgrounds(
    stack: &mut Stack,
    alloc: Global,
    backgrounds: &[SheetLines],
) -> Result<(), AllocError>
    ensures { OnOk result (stack.new.content ≡ stack.old.content) }
{
    let mut shared = KeptParts::new(alloc);
    for background in backgrounds {
        shared.add_sheet(background)?;
    }
    shared.open(stack, 0)
}

fn open_card(stack: &mut Stack, alloc: Global, card: &SheetLines) -> Result<(), AllocError>
    ensures { OnOk result (stack.new.content ≡ stack.old.content) }
{
    let mut own = KeptParts::new(alloc);
    own.add_sheet(card)?;
    own.open(stack, card.id)
}

/// Makes room for all that is kept for parts: what they share, and what each card has.
pub(crate) fn open_sheets(
    stack: &mut Stack,
    alloc: Global,
    backgrounds: &[SheetLines],
    cards: &[SheetLines],
) -> Result<(), AllocError>
    ensures { OnOk result (stack.new.content ≡ stack.old.content) }
{
    open_backgrounds(stack, alloc, backgrounds)?;
    for card in cards {
        open_card(stack, alloc, card)?;
    }
    Ok(())
}
