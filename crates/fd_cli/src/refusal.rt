//! The line of a refusal.
ghost use Rattle.std.specs.Prelude.{◌≡◌, ◌≤◌, length};
ghost use Rattle.fd_cli.specs.ReplyText.{refusal_line};

use fd_session::SessionFault;

/// The line of a refusal.
pub(crate) fn refusal_line(fault: SessionFault) -> &'static [u8]
    ensures line { result.now ≡ refusal_line fault }
    ensures short { length result.now ≤ 64 }
{
    match fault {
        SessionFault::AtEnd => b"refused 1 at end\n",
        SessionFault::AtStart => b"refused 2 at start\n",
        SessionFault::NoSuchPosition => b"refused 3 no such position\n",
        SessionFault::NoSuchEvent => b"refused 4 no such event\n",
        SessionFault::AlreadySo => b"refused 5 already so\n",
        SessionFault::NoSuchPixel => b"refused 6 no such pixel\n",
        SessionFault::Memory => b"refused 7 memory\n",
    }
}
