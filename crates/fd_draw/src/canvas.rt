ghost use Rattle.std.specs.Prelude.{◌≡◌, ◌-◌, ◌*◌, false, true};
ghost use Rattle.fd_tile.specs.Tile.{IsTileImage};

use crate::run::Run;
use fd_tile::{Place, Tile};
use fd_undo::UndoStack;

/// What drawing changes: a tile that has its memory, and its undo records, whose top frame has been begun.
#[derive(Drop)]
pub(crate) struct Canvas<'a> {
    pub tile: &'a mut Tile,
    pub undo: &'a mut UndoStack,
    ghost made: { tile.now.made ≡ true },
    ghost filled: { IsTileImage tile.now },
    ghost begun: { undo.now.frame_left ≡ false },
}

impl Canvas<'_> {
    ghost use Rattle.fd_draw.specs.Written.{as_it_is};
    ghost use Rattle.fd_draw.specs.Writing.{HasRoom, HasRows, HasRun, WritesRegion, WritesRun, keep_each, place_on, rows_between};

    /// Keeps the pixels of a run. It stands in its caller, as runs of a pixel or two are common under the depth test.
    #[inline(always)]
    pub(crate) fn keep_run(&mut self, run: Run)
        requires run { HasRun run (place_on self.old) }
        requires room { HasRoom 1 (run.right - run.left) self.old.undo.now }
        ensures { WritesRun 1 run as_it_is keep_each self.old self.new }
    {
        let place = self.tile.place();
        let start = (run.left - place.left) as usize;
        let end = (run.right - place.left) as usize;
        self.undo.keep_known(
            run.left,
            run.y,
            &self.tile.row(run.y)[start..end],
            &self.tile.depth_row(run.y)[start..end],
            self.tile.flat_depth(),
        );
    }

    /// Keeps the rows from `top` up to `bottom`.
    pub(crate) fn keep_rows(&mut self, top: u32, bottom: u32)
        requires rows { HasRows top bottom (place_on self.old) }
        requires room { HasRoom 1 ((bottom - top) * (place_on self.old).width) self.old.undo.now }
        ensures { WritesRegion 1 ((bottom - top) * (place_on self.old).width) (rows_between top bottom) as_it_is keep_each self.old self.new }
    {
        let height = bottom - top;
        let strip = Place {
            top,
            height,
            ..self.tile.place()
        };
        let (colours, depths) = (
            self.tile.rows(top, height),
            self.tile.depth_rows(top, height),
        );
        self.undo
            .keep_place(strip, colours, depths, self.tile.flat_depth());
    }
}
