use fd_device::{Device, Progress, Sink, Source};
use fd_screen::{Prompt, Screen};
use std::test::Fail;

/// What errors got: the notice of an image at the head of a reply, and no other.
#[test]
fn images_to_a_terminal_are_announced(rt: HostRuntime) -> Result<(), Fail> {
    let mut errors = Vec::new(rt.alloc());
    let mut screen = Screen::new(Device::new(Vec::new(rt.alloc())), &mut errors, true, false);
    for reply in [b"at 1\n".as_slice(), b"pam 4\n", b"P7\n"] {
        let _ = screen.put(reply)?;
        let _ = screen.put(b"P7\n")?;
        screen.flush()?;
    }
    screen.on_the_way(1, 2);
    drop(screen);
    assert_eq!(rt; errors.len(), 210);
    Ok(())
}

/// A move's line is taken away before its reply.
#[test]
fn a_long_move_shows_how_far_it_has_come(rt: HostRuntime) -> Result<(), Fail> {
    let mut errors = Vec::new(rt.alloc());
    let mut screen = Screen::new(Device::new(Vec::new(rt.alloc())), &mut errors, false, true);
    screen.on_the_way(1, 2);
    let _ = screen.put(b"pam 4\n")?;
    let _ = screen.put(b"at 2\n")?;
    assert_eq!(rt; screen.failures(), 0);
    drop(screen);
    assert_eq!(rt;
        errors.as_slice(),
        b"\rframedbg: at 1 of 2\r\x1b[K".as_slice()
    );
    Ok(())
}

/// It is said once, before the first read, to somebody who types.
#[test]
fn commands_are_waited_for(rt: HostRuntime) -> Result<(), Fail> {
    for (is_typed, len) in [(false, 0), (true, 101)] {
        let mut errors = Vec::new(rt.alloc());
        let mut prompt = Prompt::new(Device::new(b"step\n".as_slice()), &mut errors, is_typed);
        let mut buffer = [0; 8];
        assert_eq!(rt; prompt.fill(&mut buffer)?, 5);
        assert_eq!(rt; prompt.fill(&mut buffer)?, 0);
        assert!(rt; prompt.ended());
        assert_eq!(rt; prompt.failures(), 0);
        assert_eq!(rt; errors.len(), len);
    }
    Ok(())
}
