//! A renderer of a stack, and the links that are open in it.
ghost use Rattle.std.specs.Prelude.{◌≡◌, length, OnOk, OnErr};
ghost use Rattle.std.specs.Borrow.{Lends, sem};
ghost use Rattle.tbr_stack.specs.contracts.level.Level.{the_row};
ghost use Rattle.tbr_stack.specs.Stack.{new_level};
ghost use Rattle.tbr_stack.specs.Links.{opened, closed, first_open};

use std::alloc::Global;
use std::marker::Model;
use tbr_tagged::OutOfMemory;

/// A renderer of a stack, and the links that are open in it.
#[derive(Debug, Drop)]
pub(crate) struct Level<R> {
    renderer: R,
    /// For each open link the place of its target, counted from 1, in the order in which links were opened.
    open_links: Vec<usize>,
}

impl<R> Model for Level<R> {
    ghost use Rattle.std.specs.Prelude.{reverse};
    ghost use Rattle.tbr_stack.specs.Stack.{Level};

    ghost Value = { Level R };

    ghost view = { λ l. record { renderer = l.renderer; open_links = reverse l.open_links.items } };
}

impl<R> Level<R> {
    /// A renderer in which no link is open. It takes no memory.
    pub(crate) fn new(alloc: Global, renderer: R) -> Level<R>
        ensures { result ≡ new_level renderer }
    {
        Level {
            renderer,
            open_links: Vec::new(alloc),
        }
    }

    /// The renderer.
    pub(crate) fn renderer(&self) -> &R
        ensures { result.now ≡ self.now.renderer }
    {
        &self.renderer
    }

    /// The renderer, to be changed.
    pub(crate) fn renderer_mut(&mut self) -> &mut R
        ensures* writes_back { sem 𝓛 (Lends (the_row R.row) R.row self.entry result
            (λ r. record self.old { renderer = r })) }
        ensures renderer { result.now ≡ self.old.renderer }
    {
        &mut self.renderer
    }

    /// The renderer alone.
    pub(crate) fn into_renderer(self) -> R
        ensures { result ≡ self.renderer }
    {
        let Level { renderer, .. } = self;
        renderer
    }

    /// Opens a link to the target at a place. Where memory is refused, nothing changes.
    pub(crate) fn open(&mut self, place: usize) -> Result<(), OutOfMemory>
        ensures ok { OnOk result (self.new ≡ opened place self.old) }
        ensures err { OnErr result (self.new ≡ self.old) }
    {
        self.open_links.push(place)?;
        Ok(())
    }

    /// Closes the link that was opened last, if one is open.
    pub(crate) fn close(&mut self)
        ensures { self.new ≡ closed self.old }
    {
        let _ = self.open_links.pop();
    }

    /// The place of the target of the link that was opened last, if one is open.
    pub(crate) fn last_open(&self) -> Option<usize>
        ensures { result ≡ first_open self.now.open_links }
    {
        self.open_links.last().copied()
    }

    /// How many links are open.
    pub(crate) fn open_links(&self) -> usize
        ensures { result ≡ length self.now.open_links }
    {
        self.open_links.len()
    }
}
