//! What is pending on a renderer.
ghost use Rattle.std.specs.Prelude.{◌≡◌, ◌↔◌, ◌<◌, false, [], length, IfOk, OnOk, OnErr};
ghost use Rattle.std.specs.List.{AllByRecursion as Each};
ghost use Rattle.tbr_commands.specs.Begun.{begins, ends_nothing, counted, MorePasses};
ghost use Rattle.tbr_commands.specs.Request.{request_of};
ghost use Rattle.tbr_program.specs.Progress.{nothing_pending, renderers_of, with_cell, without_cells};

use std::alloc::{AllocError, Global};
use std::marker::Model;
use std::mem;
use tbr_commands::{Begun, Request};
use tbr_decor::TextDecorator;
use tbr_model::CharWidth;
use tbr_renderer::SubRenderer;
use tbr_tagged::{CellAlign, OutOfMemory};

/// What has begun on a renderer and not ended, and the cells that wait there for their row.
#[derive(Drop)]
pub struct Pending<D: TextDecorator, W: CharWidth> {
    begun: Begun,
    /// Each with the rows that it spans.
    cells: Vec<(SubRenderer<D, W>, usize)>,
    /// How their texts are aligned.
    aligns: Vec<CellAlign>,
}

impl<D: TextDecorator, W: CharWidth> Model for Pending<D, W> {
    ghost use Rattle.std.specs.Prelude.{◌≡◌, ◌<◌, List, length};
    ghost use Rattle.tbr_program.specs.Progress.{Pending};

    ghost Value = { Pending D D.Annotation.Meaning (List D.Annotation.Meaning) };

    ghost view = { λ p. record { begun = p.begun; cells = p.cells.items; aligns = p.aligns.items } };

    ghost use Rattle.std.specs.List.{AllByRecursion as Each};

    ghost invariant = { λ p. Each (λ cell. 0 < cell.1) p.cells.items
        × (length p.aligns.items ≡ length p.cells.items) };
}

impl<D: TextDecorator, W: CharWidth> Pending<D, W> {
    /// Nothing begun, and no cell.
    pub fn nothing(alloc: Global) -> Pending<D, W>
        ensures { result ≡ nothing_pending }
    {
        Pending {
            begun: Begun::nothing(),
            cells: Vec::new(alloc),
            aligns: Vec::new(alloc),
        }
    }

    /// Whether a request ends what wasn't begun, or was ended already.
    pub fn lacks(&self, request: &Request) -> bool
        ensures { result ≡ ends_nothing self.now.begun (request_of request.now) }
    {
        self.begun.lacks(request)
    }

    /// Counts what a request begins or ends. It refuses where a count passes `usize`, and changes nothing then.
    pub fn note(&mut self, request: &Request) -> Result<(), OutOfMemory>
        ensures counts { OnOk result
            (self.new ≡ record self.old { begun = counted self.old.begun (request_of request.now) }) }
        ensures passes { OnErr result (MorePasses self.old.begun (begins (request_of request.now))) }
        ensures left { OnErr result (self.new ≡ self.old) }
    {
        self.begun.note(request)
    }

    /// Whether a cell waits.
    pub fn has_cells(&self) -> bool
        ensures { (result ≡ false) ↔ (self.now.cells ≡ []) }
    {
        !self.cells.is_empty()
    }

    /// The cells that wait, each with the rows that it spans.
    pub fn cells(&self) -> &Vec<(SubRenderer<D, W>, usize)>
        ensures { result.now.items ≡ self.now.cells }
    {
        &self.cells
    }

    /// Adds a renderer to the cells that wait, with the rows that it spans and the alignment of its texts. It asks for
    /// at least 1 row. Where memory is refused, the cell is dropped.
    pub fn add_cell(
        &mut self,
        cell: SubRenderer<D, W>,
        span: usize,
        align: CellAlign,
    ) -> Result<(), AllocError>
        requires { 0 < span }
        ensures waits { OnOk result (self.new ≡ with_cell self.old cell span align) }
        ensures left { OnErr result (self.new ≡ self.old) }
    {
        self.aligns.reserve(1)?;
        self.cells.push((cell, span))?;
        self.aligns.push_reserved(align);
        Ok(())
    }

    /// Takes the waiting cells, each with the rows that it spans, and how their texts are aligned. After that no cell
    /// waits.
    pub fn take_cells(&mut self, alloc: Global) -> (Vec<(SubRenderer<D, W>, usize)>, Vec<CellAlign>)
        ensures cells { result.0.items ≡ self.old.cells }
        ensures aligns { result.1.items ≡ self.old.aligns }
        ensures rest { self.new ≡ without_cells self.old }
        ensures spans { Each (λ cell. 0 < cell.1) result.0.items }
        ensures count { length result.1.items ≡ length result.0.items }
    {
        let cells = mem::replace(&mut self.cells, Vec::new(alloc));
        let aligns = mem::replace(&mut self.aligns, Vec::new(alloc));
        (cells, aligns)
    }

    /// Takes the renderers of the waiting cells, without their spans and alignments. After that no cell waits. Where
    /// memory is refused, they are dropped.
    pub fn take_renderers(&mut self, alloc: Global) -> Result<Vec<SubRenderer<D, W>>, AllocError>
        ensures cells { IfOk result (λ cells. cells.items ≡ renderers_of self.old.cells) }
        ensures rest { self.new ≡ without_cells self.old }
    {
        let cells = mem::replace(&mut self.cells, Vec::new(alloc));
        self.aligns = Vec::new(alloc);
        cells.into_iter().map(|(cell, _)| cell).collect(alloc)
    }
}
