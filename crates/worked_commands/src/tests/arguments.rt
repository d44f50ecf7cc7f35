use clap::error::ErrorKind;
use fd_arguments::read_arguments;
use fd_words::Request;
use std::test::Fail;

#[test]
fn what_words_ask_for(rt: HostRuntime) -> Result<(), Fail> {
    let run = read_arguments(rt.alloc(), &["framedbg", "run", "a.json"])?;
    assert_eq!(rt; run.request, Request::Run { workers: 4 });
    assert!(rt; run.capture == "a.json");
    let few = read_arguments(rt.alloc(), &["framedbg", "run", "--workers", "1", "b.json"])?;
    assert_eq!(rt; few.request, Request::Run { workers: 1 });
    assert!(rt; few.capture == "b.json");
    let last = read_arguments(rt.alloc(), &["framedbg", "image", "--workers=64", "a.json"])?;
    assert_eq!(rt;
        last.request,
        Request::Image {
            workers: 64,
            at: None
        }
    );
    let words = ["framedbg", "image", "--at", "4294967295", "c.json"];
    let at = read_arguments(rt.alloc(), &words)?;
    let position = Some(4_294_967_295);
    assert_eq!(rt;
        at.request,
        Request::Image {
            workers: 4,
            at: position
        }
    );
    assert!(rt; at.capture == "c.json");
    let events = read_arguments(rt.alloc(), &["framedbg", "events", "--", "--d.json"])?;
    assert_eq!(rt; events.request, Request::Events);
    assert!(rt; events.capture == "--d.json");
    Ok(())
}

#[test]
fn words_that_ask_for_no_run(rt: HostRuntime) {
    for (words, kind) in [
        (
            ["framedbg", "--help", "a"].as_slice(),
            ErrorKind::DisplayHelp,
        ),
        (["framedbg", "run", "-h"].as_slice(), ErrorKind::DisplayHelp),
        (
            ["framedbg", "--version"].as_slice(),
            ErrorKind::DisplayVersion,
        ),
        (["framedbg"].as_slice(), ErrorKind::MissingSubcommand),
        (
            ["framedbg", "look", "a"].as_slice(),
            ErrorKind::InvalidSubcommand,
        ),
        (
            ["framedbg", "run"].as_slice(),
            ErrorKind::MissingRequiredArgument,
        ),
        (
            ["framedbg", "run", "a", "b"].as_slice(),
            ErrorKind::UnknownArgument,
        ),
        (
            ["framedbg", "events", "--at", "1", "a"].as_slice(),
            ErrorKind::UnknownArgument,
        ),
        (
            ["framedbg", "run", "--workers", "0", "a"].as_slice(),
            ErrorKind::ValueValidation,
        ),
        (
            ["framedbg", "run", "--workers", "65", "a"].as_slice(),
            ErrorKind::ValueValidation,
        ),
        (
            ["framedbg", "image", "--at", "4294967296", "a"].as_slice(),
            ErrorKind::ValueValidation,
        ),
    ] {
        match read_arguments(rt.alloc(), words) {
            Ok(_) => assert!(rt; false),
            Err(error) => assert_eq!(rt; error.kind(), kind),
        }
    }
}
