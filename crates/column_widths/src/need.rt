//! What one column needs.
ghost use Rattle.std.specs.Prelude.{◌≡◌, ◌+◌, ◌^◌, ◌<◌};
ghost use Rattle.column_widths.specs.Needs.{width_of, widened};
ghost use Rattle.column_widths.specs.Widths.{slack};

/// One of the two widths that a column needs.
#[derive(Clone, Copy)]
pub enum Bound {
    Least,
    Greatest,
}

/// The widths that a column needs at least, and at most.
#[derive(Clone, Copy)]
pub struct Need {
    pub least: usize,
    pub greatest: usize,
}

impl Need {
    /// One of its two widths.
    pub fn width(&self, bound: Bound) -> usize
        ensures { result ≡ width_of bound self.now }
    {
        match bound {
            Bound::Least => self.least,
            Bound::Greatest => self.greatest,
        }
    }

    /// Makes it need this much more. What it needs at most is never below what it needs at least.
    pub fn widen(&mut self, bound: Bound, by: usize)
        requires { width_of bound self.old + by < 2 ^ 64 }
        ensures { self.new ≡ widened bound by self.old }
    {
        match bound {
            Bound::Least => {
                self.least += by;
                self.greatest = self.greatest.max(self.least);
            }
            Bound::Greatest => self.greatest += by,
        }
    }

    /// How many columns of text it can use beyond what it needs at least.
    pub fn slack(&self) -> usize
        ensures { result ≡ slack self.now }
    {
        self.greatest.saturating_sub(self.least)
    }
}
