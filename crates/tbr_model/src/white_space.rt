//! How white space is treated.
ghost use Rattle.std.specs.Prelude.{◌≡◌};
ghost use Rattle.tbr_model.specs.WhiteSpace.{preserves};
ghost use Rattle.tbr_model.specs.declared.white_space.WhiteSpace.TheVariants.{Normal};

/// How white space is treated.
#[derive(Clone, Copy, PartialEq, Eq, Debug)]
pub enum WhiteSpace {
    /// Stretches of white space count as one space, and lines are broken between words.
    Normal,
    /// White space and newlines stay, and lines are broken at newlines and where they are full.
    Pre,
    /// White space and newlines stay, and lines are broken between words too.
    PreWrap,
}

impl Default for WhiteSpace {
    ghost is_default = { λ mode. mode ≡ Normal };

    /// `Normal`: stretches of white space count as one space.
    fn default() -> WhiteSpace {
        WhiteSpace::Normal
    }
}

impl WhiteSpace {
    /// Whether white space and newlines stay as they are.
    pub fn preserve_whitespace(self) -> bool
        ensures { result ≡ preserves self }
    {
        match self {
            WhiteSpace::Normal => false,
            WhiteSpace::Pre | WhiteSpace::PreWrap => true,
        }
    }
}
