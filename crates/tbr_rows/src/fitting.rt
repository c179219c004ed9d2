//! Whether a row fits.
ghost use Rattle.std.specs.Prelude.{◌≡◌, ℕ, Bool, List, [], ◌∷◌};
ghost use Rattle.tbr_rows.specs.Cells.{AreApart, row_fits, spots_from};
ghost use Rattle.tbr_rows.specs.Fitting.{fits_with};

use crate::line_set::LineSet;
use std::collections::linked_list;
use std::marker::Model;
use tbr_tags::Tag;

/// A test whether a row has a place for each cell that overhangs. It gets the row's own cells one after another, and
/// takes no memory.
#[derive(Drop)]
pub struct Fitting<'a, T: Eq> {
    first: Option<&'a LineSet<T>>,
    rest: linked_list::Iter<'a, LineSet<T>>,
    at: usize,
    fits: bool,
}

impl<'a, T: Eq> Model for Fitting<'a, T> {
    ghost use Rattle.tbr_rows.specs.Cells.{AreApart};
    ghost use Rattle.tbr_rows.specs.Fitting.{Fitting, waiting_cells};

    ghost Value = { Fitting T };

    ghost view = { λ f. record { waiting = waiting_cells f.first f.rest; at = f.at; fits = f.fits } };

    ghost invariant = { λ f. AreApart f.at (waiting_cells f.first f.rest) };
}

impl<'a, T: Tag> Fitting<'a, T> {
    /// A test of these overhanging cells, before any of the row's own.
    pub(crate) fn of(mut cells: linked_list::Iter<'a, LineSet<T>>) -> Fitting<'a, T>
        requires { AreApart 0 cells }
        ensures { (own : List (ℕ × Bool)) → fits_with result own ≡ row_fits cells.entry (spots_from 0 own) }
    {
        Fitting {
            first: cells.next(),
            rest: cells,
            at: 0,
            fits: true,
        }
    }

    /// Adds the row's next cell, by its width in columns, and whether it has no line.
    pub fn add(&mut self, width: usize, is_blank: bool)
        ensures { (more : List (ℕ × Bool)) →
            fits_with self.new more ≡ fits_with self.old ((width, is_blank) ∷ more) }
    {
        let Some(first) = self.first else {
            return;
        };
        if first.place == self.at {
            self.fits = self.fits && first.width == width && is_blank;
            self.first = self.rest.next();
        }
        // The place is counted only while a cell waits after this one, so no place passes `usize`.
        if let Some(next) = self.first {
            if next.place - self.at > width {
                self.at += width + 1;
            } else {
                self.fits = false;
            }
        }
    }

    /// Whether a row of the cells so far fits.
    pub fn fits(&self) -> bool
        ensures { result ≡ fits_with self.now [] }
    {
        self.fits
    }
}
