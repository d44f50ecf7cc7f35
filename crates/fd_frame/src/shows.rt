//! What the image of a frame is read from.
ghost use Rattle.std.specs.Prelude.{◌≡◌, ◌<◌, ◌≤◌, ◌+◌, length, map};
ghost use Rattle.std.specs.List.{range_with_len};
ghost use Rattle.fd_events.specs.Image.{colour_at};

use fd_events::EventTable;
use fd_tile::Piece;

/// A frame at a position, whose image is read row by row.
pub trait Shows {
    ghost use Rattle.fd_frame.specs.State.{State};

    /// The table, and the position.
    ghost state: { Self → State };

    /// The table, with its flags as they are now.
    fn table(&self) -> &EventTable
        ensures { result.now ≡ (state self.now).table };

    /// The colours of row y at the position, from column x to the right border of the tile there.
    #[doc(hidden)]
    fn row_from(&self, x: u32, y: u32) -> Piece
        requires column { x < (state self.now).table.width }
        requires row { y < (state self.now).table.height }
        ensures some { 0 < length result.items }
        ensures inside { x + length result.items ≤ (state self.now).table.width }
        ensures colours { result.items ≡ map (λ column. colour_at (state self.now).table (state self.now).position column y)
            (range_with_len x (length result.items)) };
}
