//! A boxed external of any type is an external.

use crate::external::{Ask, External, HasTable, Input};
use crate::patch::Patch;
use ht_values::Text;
use std::alloc::{AllocError, Global};

impl External for Box<dyn External> {
    ghost title = { λ b. (External-box b).title b.value };

    ghost sort = { λ b. (External-box b).sort b.value };

    ghost answers_calls = { λ b. (External-box b).answers_calls b.value };

    ghost cells = { λ b. (External-box b).cells b.value };

    ghost log = { λ b. (External-box b).log b.value };

    fn name(&self) -> &Text {
        (**self).name()
    }

    fn kind(&self) -> u32 {
        (**self).kind()
    }

    fn is_function(&self) -> bool {
        (**self).is_function()
    }

    fn cell_count(&self) -> usize {
        (**self).cell_count()
    }

    fn cell(&self, i: usize) -> &Text {
        (**self).cell(i)
    }

    fn turn(&mut self, alloc: Global, input: &Input) -> Result<(Ask, Patch), AllocError> {
        (**self).turn(alloc, input)
    }

    fn flip(&mut self, patch: &mut Patch) {
        (**self).flip(patch)
    }
}

/// A box hides the type that it holds, so it says nothing of turns.
impl HasTable for Box<dyn External> {
    ghost use Rattle.externals.specs.Turns.{no_table};

    ghost turn_table = { no_table };

    ghost follows = { λ _ i d within. tt };
}
