//! How much room a text can use.
ghost use Rattle.std.specs.Prelude.{◌≡◌};
ghost use Rattle.tbr_c.specs.Arguments.{extent_of};

use column_widths::Room;

/// `tbr_extent`.
#[repr(C)]
#[derive(Clone, Copy, Drop)]
pub struct Extent {
    pub longest_word: usize,
    pub widest_line: usize,
}

impl Extent {
    /// The extent of what takes this room.
    pub fn of(room: Room) -> Extent
        ensures { result ≡ extent_of room }
    {
        Extent {
            longest_word: room.least,
            widest_line: room.greatest,
        }
    }
}
