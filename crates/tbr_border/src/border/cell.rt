//! The cells of a border.
ghost use Rattle.std.specs.Prelude.{◌≡◌};
ghost use Rattle.tbr_border.specs.Cell as model;

/// A cell of a horizontal border, by the lines that reach out of it.
#[derive(Clone, Copy, PartialEq, Eq, Debug)]
pub enum BorderSegHoriz {
    /// `─`: to the left and to the right.
    Horiz,
    /// `┴`: to the left, to the right and up.
    JoinAbove,
    /// `┬`: to the left, to the right and down.
    JoinBelow,
    /// `┼`: to all four sides.
    JoinCross,
    /// `│`: up and down.
    Vert,
    /// `/`, which parts cells that are below each other.
    HorizVert,
    /// `┤`: up, down and to the left.
    JoinLeft,
    /// `├`: up, down and to the right.
    JoinRight,
    /// `┌`: down and to the right.
    CornerTL,
    /// `┐`: down and to the left.
    CornerTR,
    /// `└`: up and to the right.
    CornerBL,
    /// `┘`: up and to the left.
    CornerBR,
}

/// The side of a border from which a line joins it.
#[derive(Clone, Copy)]
pub(crate) enum Side {
    Above,
    Below,
}

impl BorderSegHoriz {
    /// Removes the arm to the left. If a single arm is left, its opposite is added. It takes no memory.
    pub fn chop_left(&mut self)
        ensures { model.cell_of self.new ≡ model.chopped_left (model.cell_of self.old) }
    {
        *self = match *self {
            BorderSegHoriz::JoinBelow => BorderSegHoriz::CornerTL,
            BorderSegHoriz::JoinAbove => BorderSegHoriz::CornerBL,
            BorderSegHoriz::JoinCross => BorderSegHoriz::JoinRight,
            BorderSegHoriz::JoinLeft | BorderSegHoriz::CornerTR | BorderSegHoriz::CornerBR => {
                BorderSegHoriz::Vert
            }
            cell => cell,
        };
    }

    /// Removes the arm to the right. If a single arm is left, its opposite is added. It takes no memory.
    pub fn chop_right(&mut self)
        ensures { model.cell_of self.new ≡ model.chopped_right (model.cell_of self.old) }
    {
        *self = match *self {
            BorderSegHoriz::JoinBelow => BorderSegHoriz::CornerTR,
            BorderSegHoriz::JoinAbove => BorderSegHoriz::CornerBR,
            BorderSegHoriz::JoinCross => BorderSegHoriz::JoinLeft,
            BorderSegHoriz::JoinRight | BorderSegHoriz::CornerTL | BorderSegHoriz::CornerBL => {
                BorderSegHoriz::Vert
            }
            cell => cell,
        };
    }

    /// Adds the arm on a side.
    pub(crate) fn join(&mut self, side: Side)
        ensures { model.cell_of self.new ≡ model.joined (model.side_of side) (model.cell_of self.old) }
    {
        *self = match side {
            Side::Above => self.with_arm_up(),
            Side::Below => self.with_arm_down(),
        };
    }

    /// The cell after a line joins it from above. The slash stays.
    fn with_arm_up(self) -> BorderSegHoriz
        ensures { model.cell_of result ≡ model.joined model.above (model.cell_of self) }
    {
        match self {
            BorderSegHoriz::Horiz => BorderSegHoriz::JoinAbove,
            BorderSegHoriz::JoinBelow => BorderSegHoriz::JoinCross,
            BorderSegHoriz::CornerTL => BorderSegHoriz::JoinRight,
            BorderSegHoriz::CornerTR => BorderSegHoriz::JoinLeft,
            cell => cell,
        }
    }

    /// The cell after a line joins it from below. The slash stays.
    fn with_arm_down(self) -> BorderSegHoriz
        ensures { model.cell_of result ≡ model.joined model.below (model.cell_of self) }
    {
        match self {
            BorderSegHoriz::Horiz => BorderSegHoriz::JoinBelow,
            BorderSegHoriz::JoinAbove => BorderSegHoriz::JoinCross,
            BorderSegHoriz::CornerBL => BorderSegHoriz::JoinRight,
            BorderSegHoriz::CornerBR => BorderSegHoriz::JoinLeft,
            cell => cell,
        }
    }

    /// Whether the cell joins a border into which its own border is merged from that side.
    pub(crate) fn merges(self, side: Side) -> bool
        ensures { result ≡ model.merges (model.side_of side) (model.cell_of self) }
    {
        match self {
            BorderSegHoriz::JoinAbove | BorderSegHoriz::JoinBelow | BorderSegHoriz::JoinCross => {
                true
            }
            BorderSegHoriz::CornerTL | BorderSegHoriz::CornerTR => matches!(side, Side::Above),
            BorderSegHoriz::CornerBL | BorderSegHoriz::CornerBR => matches!(side, Side::Below),
            _ => false,
        }
    }

    /// The character that draws the cell.
    pub(crate) fn character(self) -> char
        ensures { result ≡ model.character (model.cell_of self) }
    {
        match self {
            BorderSegHoriz::Horiz => '─',
            BorderSegHoriz::JoinAbove => '┴',
            BorderSegHoriz::JoinBelow => '┬',
            BorderSegHoriz::JoinCross => '┼',
            BorderSegHoriz::Vert => '│',
            BorderSegHoriz::HorizVert => '/',
            BorderSegHoriz::JoinLeft => '┤',
            BorderSegHoriz::JoinRight => '├',
            BorderSegHoriz::CornerTL => '┌',
            BorderSegHoriz::CornerTR => '┐',
            BorderSegHoriz::CornerBL => '└',
            BorderSegHoriz::CornerBR => '┘',
        }
    }

    /// What is above the cell: `│` above `┴`, `┼`, `└` and `┘`, and a space above others.
    pub(crate) fn line_above(self) -> char
        ensures { result ≡ model.line_above (model.cell_of self) }
    {
        match self {
            BorderSegHoriz::JoinAbove
            | BorderSegHoriz::JoinCross
            | BorderSegHoriz::CornerBL
            | BorderSegHoriz::CornerBR => '│',
            _ => ' ',
        }
    }
}
