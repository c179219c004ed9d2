//! Levels that are open.
ghost use Rattle.std.specs.Prelude.{◌≡◌, ◌≢◌, ◌↔◌, ◌<◌, ℕ, true, None, Some, [], ◌∷◌, length, OnOk, IfSome, IfNone};
ghost use Rattle.tbr_tagged.specs.declared.CellAlign.{CellAlign as Align};
ghost use Rattle.tbr_program.specs.Progress.{opener, IsSpanned};
ghost use Rattle.tbr_program.specs.declared.opened.Opener.{Opener as By};

use crate::pending::Pending;
use std::alloc::{AllocError, Global};
use std::marker::Model;
use tbr_decor::TextDecorator;
use tbr_model::CharWidth;
use tbr_tagged::CellAlign;

/// The command that opened a level.
#[derive(Clone, Copy, Debug, PartialEq, Eq)]
pub enum Opener {
    /// `sub`: the level is appended to the one below it.
    Sub,
    /// `cell`: the level waits in the one below it as a cell.
    Cell {
        /// The rows that it spans, at least 1.
        span: usize,
        /// How its texts are aligned.
        align: CellAlign,
    },
}

/// A level that is open.
#[derive(Drop)]
struct Opened<D: TextDecorator, W: CharWidth> {
    by: Opener,
    /// What is pending on the level below it.
    below: Pending<D, W>,
}

impl<D: TextDecorator, W: CharWidth> Model for Opened<D, W> {
    ghost use Rattle.std.specs.Prelude.{List};
    ghost use Rattle.tbr_program.specs.Progress.{Opened};

    ghost Value = { Opened D D.Annotation.Meaning (List D.Annotation.Meaning) };

    ghost view = { λ o. record { by = o.by; below = o.below } };
}

/// The levels that are open.
#[derive(Drop)]
pub struct OpenLevels<D: TextDecorator, W: CharWidth> {
    /// The innermost comes last.
    levels: Vec<Opened<D, W>>,
}

impl<D: TextDecorator, W: CharWidth> Model for OpenLevels<D, W> {
    ghost use Rattle.std.specs.Prelude.{List, reverse};
    ghost use Rattle.tbr_program.specs.Progress.{Opened, IsSpanned};

    ghost Value = { List (Opened D D.Annotation.Meaning (List D.Annotation.Meaning)) };

    ghost use Rattle.std.specs.List.{AllByRecursion as Each};

    ghost view = { λ o. reverse o.levels.items };

    ghost invariant = { λ o. Each (λ level. IsSpanned level.by) o.levels.items };
}

impl<D: TextDecorator, W: CharWidth> OpenLevels<D, W> {
    /// No level.
    pub fn none(alloc: Global) -> OpenLevels<D, W>
        ensures { result ≡ [] }
    {
        OpenLevels {
            levels: Vec::new(alloc),
        }
    }

    /// Whether no level is open.
    pub fn is_empty(&self) -> bool
        ensures { (result ≡ true) ↔ (self.now ≡ []) }
    {
        self.levels.is_empty()
    }

    /// How many levels are open.
    pub fn len(&self) -> usize
        ensures { result ≡ length self.now }
    {
        self.levels.len()
    }

    /// Whether `sub` opened the innermost level.
    pub fn is_sub(&self) -> bool
        ensures { (result ≡ true) ↔ (opener self.now ≡ Some Opener.Sub) }
    {
        matches!(self.opener(), Some(Opener::Sub))
    }

    /// The rows that the innermost level spans and how its texts are aligned, if `cell` opened it.
    pub fn cell(&self) -> Option<(usize, CellAlign)>
        ensures found { IfSome result (λ cell. opener self.now ≡ Some (Opener.Cell cell.0 cell.1)) }
        ensures spans { IfSome result (λ cell. 0 < cell.0) }
        ensures none { IfNone result ((span : ℕ) (align : Align) →
            opener self.now ≢ Some (Opener.Cell span align)) }
    {
        match self.opener()? {
            Opener::Sub => None,
            Opener::Cell { span, align } => Some((span, align)),
        }
    }

    /// What opened the innermost level, if one is open.
    fn opener(&self) -> Option<Opener>
        ensures by { result ≡ opener self.now }
        ensures spans { IfSome result (λ by. IsSpanned by) }
    {
        Some(self.levels.last()?.by)
    }

    /// Opens a level above one on which `below` is pending. Where memory is refused, `below` is dropped.
    pub fn open(&mut self, by: Opener, below: Pending<D, W>) -> Result<(), AllocError>
        requires { IsSpanned by }
        ensures { OnOk result (self.new ≡ record { by = by; below = below } ∷ self.old) }
    {
        self.levels.push(Opened { by, below })?;
        Ok(())
    }

    /// Closes the innermost level, and answers what is pending on the one below it. A level must be open.
    pub fn close(&mut self) -> Pending<D, W>
        requires { opener self.old ≢ None }
        ensures { (by : By) × (self.old ≡ record { by = by; below = result } ∷ self.new) }
    {
        let Opened { below, .. } = self.levels.pop().unwrap();
        below
    }
}
