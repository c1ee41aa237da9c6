//! Containers: where a text is put.

ghost use Rattle.std.specs.Prelude.{◌≡◌, ◌≤◌, IfOk};
ghost use Rattle.ht_grammar.specs.Depth.{container_depth, max_depth};
ghost use Rattle.ht_tree.specs.ContainerView.{container_of};

use crate::chunk::Chunk;
use crate::reference::Part;
use ht_values::Name;
use std::alloc::{AllocError, Global};
use std::marker::Model;

/// Where a text is put, at most 100 levels deep.
#[cycle(container)]
pub struct Container {
    kind: Box<ContainerKind>,
    depth: u8,
}

const _: () = prove!(size_of::<ContainerKind>() <= 56);

/// Written here and not derived, so that no crate above proves anew how a tree is dropped.
impl Drop for Container {
    #[cycle(container)]
    fn drop(self) {
        let Container { kind: _, depth: _ } = self;
    }
}

/// What a container is, with its parts.
#[cycle(container)]
#[derive(Drop)]
pub enum ContainerKind {
    Variable(Name),
    Field(Part),
    /// Pieces of a container's text.
    Chunk(Chunk, Container),
}

impl Model for Container {
    ghost use Rattle.std.specs.Prelude.{◌≡◌, ◌≤◌};
    ghost use Rattle.ht_grammar.specs.Trees as t;

    ghost Value = { t.Container };

    ghost use Rattle.std.specs.Prelude.{List};
    ghost use Rattle.std.specs.Coded.{codes, code_by};
    ghost use Rattle.ht_tree.specs.Codes.{coded_chunk, coded_part};
    ghost use Rattle.ht_tree.specs.ContainerCode.{Mark, container_marks, container_at, container_back};

    ghost coded = { code_by (List Mark)
        (Prim.hlevel (codes, coded_chunk (Prim.hlevel codes), coded_part (Prim.hlevel codes))) container_marks
        container_at container_back };

    ghost use Rattle.ht_grammar.specs.Depth.{container_depth, max_depth};
    ghost use Rattle.ht_tree.specs.ContainerView.{container_of};

    ghost view = { λ c. container_of c.kind.value };

    ghost invariant = { λ c. (c.depth ≡ container_depth (container_of c.kind.value)) × (c.depth ≤ max_depth) };

    ghost size = { container_depth };

    ghost use Rattle.ht_tree.specs.ContainerFalls.{container_falls};

    ghost size_decreases = { λ c h. container_falls c.kind.value };
}

impl Container {
    /// The container of a kind, which is at most 100 levels deep.
    pub fn new(alloc: Global, kind: ContainerKind) -> Result<Container, AllocError>
        requires { container_depth (container_of kind) ≤ max_depth }
        ensures { IfOk result (λ made. made ≡ container_of kind) }
    {
        let depth = kind.depth() as u8;
        let kind = Box::new(alloc, kind)?;
        Ok(Container { kind, depth })
    }

    /// Its kind, with its parts.
    pub fn kind(&self) -> &ContainerKind
        ensures { container_of result.now ≡ self.now }
    {
        &self.kind
    }

    /// The kind alone, with its parts.
    pub fn into_kind(self) -> ContainerKind
        ensures { container_of result ≡ self }
    {
        let Container { kind, depth: _ } = self;
        Box::into_inner(kind)
    }

    /// The greatest number of nodes on a way down, at most 100.
    pub fn depth(&self) -> usize
        ensures value { result ≡ container_depth self.now }
        ensures limit { result ≤ max_depth }
    {
        self.depth as usize
    }
}

impl ContainerKind {
    fn depth(&self) -> usize
        ensures { result ≡ container_depth (container_of self.now) }
    {
        match self {
            ContainerKind::Variable(_) => 1,
            ContainerKind::Field(part) => part.depth(),
            ContainerKind::Chunk(chunk, text) => chunk.depth().max(text.depth()) + 1,
        }
    }
}
