ghost use Rattle.std.specs.Prelude.{◌≡◌, true};
ghost use Rattle.fd_undo.specs.Whole.{HaveAllRows};

use crate::span::Span;
use fd_tile::Place;

/// Whether some spans are seen to have all rows of a place: each has whole rows, and none begins below those that the ones before it have.
#[tactic(auto, using(crate::proofs::KeptAt::have_all_rows_steps))]
pub(crate) fn have_all_rows(spans: &[Span], place: Place) -> bool
    ensures { result ≡ true → HaveAllRows place spans.now }
{
    // the rows from the top down to this one are there
    let mut y = place.top;
    for span in spans {
        if span.x() != place.left || span.len() != place.width as usize || span.y() > y {
            return false;
        }
        y = y.max(span.bottom());
        if y - place.top >= place.height {
            return true;
        }
    }
    false
}
