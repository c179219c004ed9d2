//! A stack of renderers.
ghost use Rattle.std.specs.Prelude.{◌≡◌, ◌<◌, Some, length, map, chars, OnOk, OnErr, IfOk, IfErr};
ghost use Rattle.std.specs.Borrow.{Lends, sem};
ghost use Rattle.tbr_tagged.specs.View.{chars_of};
ghost use Rattle.tbr_tagged.specs.declared.Error.TheVariants as E;
ghost use Rattle.tbr_stack.specs.contracts.stack.Stack.{the_row};
ghost use Rattle.tbr_stack.specs.Links.{first_open, open_links, with_link, without_open_link};
ghost use Rattle.tbr_stack.specs.Stack.{new_stack, top_of, below, with_top, pushed};

use crate::level::Level;
use std::alloc::Global;
use std::fmt;
use std::marker::Model;
use tbr_renderer::SubRenderer;
use tbr_tagged::{Error, OutOfMemory, UnicodeColumns};

/// Renderers on a stack, and the targets of the links that were started in them.
pub type TextRenderer<D, W = UnicodeColumns> = Stack<SubRenderer<D, W>>;

/// Values on a stack, and the targets of the links that were started in them.
///
/// A renderer for a block inside is pushed, and popped where the block ends. Text is added to the top.
#[derive(Drop)]
pub struct Stack<R> {
    alloc: Global,
    /// The top comes last.
    levels: Vec<Level<R>>,
    links: Vec<String>,
    /// How many tables are open inside one another. It is kept for callers, and not read.
    pub table_depth: usize,
}

impl<R> Model for Stack<R> {
    ghost use Rattle.tbr_stack.specs.Stack.{Stack};

    ghost Value = { Stack R };

    ghost use Rattle.tbr_stack.specs.View.{stack_of};

    ghost view = { λ s. stack_of s };
}

/// Shows its levels, the top last, the targets, and the depth of tables.
impl<R: fmt::Debug> fmt::Debug for Stack<R> {
    fn fmt<W: fmt::Write>(&self, f: &mut fmt::Formatter<W>) -> fmt::Result {
        f.debug_struct("Stack")
            .field("levels", &self.levels)
            .field("links", &self.links)
            .field("table_depth", &self.table_depth)
            .finish()
    }
}

impl<R: Drop> Stack<R> {
    /// A stack of one renderer, without links. It refuses only where memory is refused.
    pub fn new(alloc: Global, renderer: R) -> Result<Stack<R>, Error>
        ensures stack { IfOk result (λ s. s ≡ new_stack renderer) }
        ensures memory { IfErr result (λ e. e ≡ E.OutOfMemory) }
    {
        let mut stack = Stack {
            alloc,
            levels: Vec::new(alloc),
            links: Vec::new(alloc),
            table_depth: 0,
        };
        stack.push(renderer)?;
        Ok(stack)
    }

    /// Puts a renderer on top.
    ///
    /// It refuses only where memory is refused. The stack is then as it was, and the renderer is dropped.
    pub fn push(&mut self, renderer: R) -> Result<(), Error>
        ensures ok { OnOk result (self.new ≡ pushed renderer self.old) }
        ensures memory { IfErr result (λ e. e ≡ E.OutOfMemory) }
        ensures err { OnErr result (self.new ≡ self.old) }
    {
        self.levels.push(Level::new(self.alloc, renderer))?;
        Ok(())
    }

    /// Takes the top. It asks for a depth of at least 1.
    ///
    /// The links that are open in it are forgotten, but their targets stay.
    pub fn pop(&mut self) -> R
        requires { 0 < length self.old.levels }
        ensures top { top_of self.old ≡ Some result }
        ensures below { self.new ≡ below self.old }
    {
        self.levels.pop().unwrap().into_renderer()
    }

    /// The top. It asks for a depth of at least 1.
    pub fn top(&self) -> &R
        requires { 0 < length self.now.levels }
        ensures { top_of self.now ≡ Some result.now }
    {
        self.levels[self.levels.len() - 1].renderer()
    }

    /// The top, to be changed. It asks for a depth of at least 1.
    ///
    /// Whatever it is changed to is then the top of the stack, and all else stays as it was.
    pub fn top_mut(&mut self) -> &mut R
        requires { 0 < length self.old.levels }
        ensures* writes_back { sem 𝓛 (Lends (the_row R.row) R.row self.entry result (with_top self.old)) }
        ensures top { top_of self.old ≡ Some result.now }
    {
        let last = self.levels.len() - 1;
        self.levels[last].renderer_mut()
    }

    /// How many renderers the stack has. The calls that speak of the top ask for at least 1.
    pub fn depth(&self) -> usize
        ensures { result ≡ length self.now.levels }
    {
        self.levels.len()
    }

    /// How many links are open in the top. It asks for a depth of at least 1.
    pub fn open_links(&self) -> usize
        requires { 0 < length self.now.levels }
        ensures { result ≡ length (open_links self.now) }
    {
        self.levels[self.levels.len() - 1].open_links()
    }

    /// The allocator.
    pub(crate) fn alloc(&self) -> Global {
        self.alloc
    }

    /// The place of the target of the link that was opened last in the top, if one is open there.
    pub(crate) fn last_open_link(&self) -> Option<usize>
        requires { 0 < length self.now.levels }
        ensures { result ≡ first_open (open_links self.now) }
    {
        self.levels[self.levels.len() - 1].last_open()
    }

    /// Opens a link in the top. Where memory is refused, nothing changes.
    pub(crate) fn open_link(&mut self, target: &str) -> Result<(), OutOfMemory>
        requires { 0 < length self.old.levels }
        ensures ok { OnOk result (self.new ≡ with_link (chars target.now) self.old) }
        ensures err { OnErr result (self.new ≡ self.old) }
    {
        let target = String::from_str(self.alloc, target)?;
        self.links.reserve(1)?;
        let place = self.links.len() + 1;
        let last = self.levels.len() - 1;
        self.levels[last].open(place)?;
        self.links.push(target)?;
        Ok(())
    }

    /// Closes the link that was opened last in the top, if one is open there.
    pub(crate) fn close_link(&mut self)
        requires { 0 < length self.old.levels }
        ensures { self.new ≡ without_open_link self.old }
    {
        let last = self.levels.len() - 1;
        self.levels[last].close();
    }

    /// The only renderer, and the targets of all links in the order in which these were started. It asks for a depth of
    /// exactly 1.
    pub fn into_inner(self) -> (R, Vec<String>)
        requires { length self.levels ≡ 1 }
        ensures renderer { top_of self ≡ Some result.0 }
        ensures links { map chars_of result.1.items ≡ self.links }
    {
        let Stack {
            mut levels,
            links,
            ..
        } = self;
        (levels.pop().unwrap().into_renderer(), links)
    }
}
