//! Second pass: the colours before and after each entry, from what the pixel went through.
ghost use Rattle.std.specs.Prelude.{◌≡◌, ◌<◌, length};
ghost use Rattle.fd_history.specs.Settled.{drawn_count, settled};

use crate::entry::Entry;
use fd_blend::Colour;
use fd_cover::Verdict;

/// How many of some entries were drawn.
pub(crate) fn count_drawn(entries: &[Entry]) -> usize
    ensures { result ≡ drawn_count entries.now }
{
    let mut count = 0;
    for entry in entries {
        if entry.verdict == Verdict::Drawn {
            count += 1;
        }
    }
    count
}

/// Gives each entry its colours before and after: the pixel has the first colour at first, and each entry that was drawn leads to the next one.
pub(crate) fn settle(entries: &mut [Entry], pixels: &[(Colour, u16)])
    requires { drawn_count entries.old < length pixels.now }
    ensures { entries.new ≡ settled entries.old pixels.now }
{
    let mut passed = 0;
    for entry in entries.iter_mut() {
        entry.before = pixels[passed].0;
        if entry.verdict == Verdict::Drawn {
            passed += 1;
        }
        entry.after = pixels[passed].0;
    }
}
