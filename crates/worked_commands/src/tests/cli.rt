use crate::tests::cli::captures::{
    ADDED_TWICE, ALPHA_SCALED, CULLED_THEN_SCISSORED, DEPTH_TEST, INDEXED, LINEAR_RED, MANY_TILES,
    MASKED_AND_SCISSORED, NO_EVENTS, ONE_CLEAR, PICTURE, TWO_TRIANGLES, WIDEST,
};
use crate::tests::cli::devices::{Limited, Pieces};
use fd_capture::CaptureFault;
use fd_cli::{Ending, image, list_events, serve};
use fd_device::{Device, Sink};
use std::process::Abort;
use std::test::Fail;
use std::thread::Threads;

mod captures;
mod command_line;
mod devices;
mod failing_devices;
mod image_files;
mod performing;

/// What these lines of input write, whatever the number of workers.
fn expect_replies<T: Abort + Threads + Sync + AllocGlobal>(
    rt: &T,
    capture: &str,
    input: &[u8],
    text: &[u8],
) {
    let capture = capture.as_bytes();
    for workers in [1, 2, 64] {
        let mut source = Device::new(Pieces::of(input, 5));
        let mut sink = Device::new(Limited::of(rt.alloc(), 100_000, 100));
        let ended = serve(rt, rt.alloc(), capture, workers, &mut source, &mut sink);
        let written = sink.into_inner();
        assert_eq!(rt; written.bytes.as_slice(), text);
        assert_eq!(rt; ended, Ending::Done);
    }
}

#[test]
fn one_clear_from_bytes_to_bytes(rt: HostRuntime) {
    let text =
        b"at 1\npam 69\nP7\nWIDTH 1\nHEIGHT 1\nDEPTH 4\nMAXVAL 255\nTUPLTYPE RGB_ALPHA\nENDHDR\n\x0a\x14\x1e\x28bye\n";
    expect_replies(&rt, ONE_CLEAR, b"step\nshow\nquit\n", text);
}

#[test]
fn back_restores_a_fresh_target(rt: HostRuntime) {
    let text =
        b"at 1\nat 0\npam 69\nP7\nWIDTH 1\nHEIGHT 1\nDEPTH 4\nMAXVAL 255\nTUPLTYPE RGB_ALPHA\nENDHDR\n\0\0\0\0";
    expect_replies(&rt, ONE_CLEAR, b"step\nback\nshow\n", text);
}

#[test]
fn no_events_refuse_every_move(rt: HostRuntime) {
    let input = b"step\nback\ngoto 0\ngoto 1\non 1\nshow\n";
    let text =
        b"refused 1 at end\nrefused 2 at start\nat 0\nrefused 3 no such position\nrefused 4 no such event\npam 69\nP7\nWIDTH 1\nHEIGHT 1\nDEPTH 4\nMAXVAL 255\nTUPLTYPE RGB_ALPHA\nENDHDR\n\0\0\0\0";
    expect_replies(&rt, NO_EVENTS, input, text);
}

#[test]
fn the_shared_edge_is_drawn_once(rt: HostRuntime) {
    let input = b"goto 1\npixel 0 0\npixel 1 0\npixel 0 1\npixel 1 1\npixel 2 0\n";
    let text =
        b"at 1\npixel 255 0 0 255\npixel 0 255 0 255\npixel 0 255 0 255\npixel 0 255 0 255\nrefused 6 no such pixel\n";
    expect_replies(&rt, TWO_TRIANGLES, input, text);
    let stepped = b"step\npixel 0 0\npixel 1 0\npixel 0 1\npixel 1 1\npixel 2 0\n";
    expect_replies(&rt, TWO_TRIANGLES, stepped, text);
}

/// Two flat triangles half a pixel high, of which the first one's top edge, and the second one's bottom edge, goes through centres.
#[test]
fn top_is_inclusive_bottom_is_not(rt: HostRuntime) {
    let capture =
        r#"{"format":"framedbg","version":1,"width":2,"height":2,"events":[{"kind":"draw","interp":"flat","vertices":[
{"x":0,"y":32768,"color":[1,0,0,255]},{"x":131072,"y":32768,"color":[1,0,0,255]},{"x":0,"y":98304,"color":[1,0,0,255]},
{"x":131072,"y":32768,"color":[2,0,0,255]},{"x":131072,"y":98304,"color":[2,0,0,255]},{"x":0,"y":98304,"color":[2,0,0,255]}]}]}"#;
    let input = b"step\npixel 0 0\npixel 1 0\npixel 0 1\npixel 1 1\nhistory 0 0\nhistory 1 0\n";
    let text =
        b"at 1\npixel 1 0 0 255\npixel 1 0 0 255\npixel 0 0 0 0\npixel 0 0 0 0\nhistory 1\n1 0 drawn 1 0 0 255 0 0 0 0 1 0 0 255\nhistory 1\n1 0 drawn 1 0 0 255 0 0 0 0 1 0 0 255\n";
    expect_replies(&rt, capture, input, text);
}

#[test]
fn mask_and_scissor_leave_clears_alone(rt: HostRuntime) {
    let input =
        b"goto 4\npixel 0 0\npixel 1 0\npixel 0 1\npixel 1 1\ngoto 5\npixel 0 0\npixel 1 1\nstate\n";
    let text =
        b"at 4\npixel 9 9 9 9\npixel 9 9 9 9\npixel 9 9 9 9\npixel 9 9 9 9\nat 5\npixel 200 9 202 9\npixel 9 9 9 9\nstate cull none ccw 0 scissor 1 rect 0 0 1 1 blend 0 ONE ZERO ADD ONE ZERO ADD mask 5 factor 255 255 255 255\n";
    expect_replies(&rt, MASKED_AND_SCISSORED, input, text);
    let stepped = b"step\nstep\nstep\nstep\npixel 0 0\nstep\npixel 0 0\npixel 1 1\n";
    let told = b"at 1\nat 2\nat 3\nat 4\npixel 9 9 9 9\nat 5\npixel 200 9 202 9\npixel 9 9 9 9\n";
    expect_replies(&rt, MASKED_AND_SCISSORED, stepped, told);
}

#[test]
fn going_back_and_forth_gives_the_same_bytes(rt: HostRuntime) {
    let input = b"goto 5\nshow\ngoto 0\ngoto 5\nshow\n";
    let text =
        b"at 5\npam 81\nP7\nWIDTH 2\nHEIGHT 2\nDEPTH 4\nMAXVAL 255\nTUPLTYPE RGB_ALPHA\nENDHDR\n\xc8\x09\xca\x09\x09\x09\x09\x09\x09\x09\x09\x09\x09\x09\x09\x09at 0\nat 5\npam 81\nP7\nWIDTH 2\nHEIGHT 2\nDEPTH 4\nMAXVAL 255\nTUPLTYPE RGB_ALPHA\nENDHDR\n\xc8\x09\xca\x09\x09\x09\x09\x09\x09\x09\x09\x09\x09\x09\x09\x09";
    expect_replies(&rt, MASKED_AND_SCISSORED, input, text);
}

#[test]
fn a_blend_state_switched_off_and_on(rt: HostRuntime) {
    let input = b"goto 2\npixel 0 0\noff 1\npixel 0 0\non 1\npixel 0 0\non 1\n";
    let text =
        b"at 2\npixel 100 50 25 128\nat 2\npixel 200 100 50 128\nat 2\npixel 100 50 25 128\nrefused 5 already so\n";
    expect_replies(&rt, ALPHA_SCALED, input, text);
    let told = b"at 1\nat 2\npixel 100 50 25 128\n";
    expect_replies(&rt, ALPHA_SCALED, b"step\nstep\npixel 0 0\n", told);
}

#[test]
fn each_triangle_of_a_draw_has_an_entry(rt: HostRuntime) {
    let text =
        b"at 2\nhistory 2\n2 0 drawn 10 10 10 10 0 0 0 0 10 10 10 10\n2 1 drawn 10 10 10 10 10 10 10 10 20 20 20 20\n";
    expect_replies(&rt, ADDED_TWICE, b"goto 2\nhistory 0 0\n", text);
}

#[test]
fn the_widest_target(rt: HostRuntime) {
    let input = b"goto 1\npixel 16382 0\npixel 16383 0\n";
    let text = b"at 1\npixel 7 7 7 7\npixel 0 0 0 0\n";
    expect_replies(&rt, WIDEST, input, text);
}

#[test]
fn scissor_and_its_state_line(rt: HostRuntime) {
    let capture = r#"{"format":"framedbg","version":1,"width":2,"height":2,"events":[
{"kind":"raster","cull":"none","front_ccw":false,"scissor":true},
{"kind":"scissor","rect":[0,0,1,1]},
{"kind":"draw","interp":"flat","vertices":[{"x":0,"y":0,"color":[200,201,202,203]},{"x":262144,"y":0,"color":[200,201,202,203]},{"x":0,"y":262144,"color":[200,201,202,203]}]}
]}"#;
    let input = b"state\nstep\nstep\nstep\npixel 0 0\npixel 1 1\nstate\n";
    let text =
        b"state cull back ccw 0 scissor 0 rect 0 0 0 0 blend 0 ONE ZERO ADD ONE ZERO ADD mask 15 factor 255 255 255 255\nat 1\nat 2\nat 3\npixel 200 201 202 203\npixel 0 0 0 0\nstate cull none ccw 0 scissor 1 rect 0 0 1 1 blend 0 ONE ZERO ADD ONE ZERO ADD mask 15 factor 255 255 255 255\n";
    expect_replies(&rt, capture, input, text);
}

#[test]
fn culled_and_scissored_draws_leave_the_pixel(rt: HostRuntime) {
    let input = b"goto 1\npixel 0 0\ngoto 3\npixel 0 0\ngoto 4\npixel 0 0\ngoto 5\npixel 0 0\n";
    let text =
        b"at 1\npixel 0 0 0 0\nat 3\npixel 0 0 0 0\nat 4\npixel 0 0 0 0\nat 5\npixel 3 4 5 6\n";
    expect_replies(&rt, CULLED_THEN_SCISSORED, input, text);
}

#[test]
fn linear_red_rounds_to_nearest(rt: HostRuntime) {
    let text = b"at 1\npixel 64 0 0 255\n";
    expect_replies(&rt, LINEAR_RED, b"goto 1\npixel 0 0\n", text);
}

#[test]
fn history_of_a_linear_draw(rt: HostRuntime) {
    let text = b"at 1\nhistory 1\n1 0 drawn 64 0 0 255 0 0 0 0 64 0 0 255\n";
    expect_replies(&rt, LINEAR_RED, b"goto 1\nhistory 0 0\n", text);
}

#[test]
fn history_names_culled_and_scissored(rt: HostRuntime) {
    let input = b"history 0 0\nhistory 1 0\ngoto 5\nhistory 0 0\noff 5\nhistory 0 0\n";
    let text =
        b"history 0\nrefused 6 no such pixel\nat 5\nhistory 3\n1 0 culled 1 1 1 1 0 0 0 0 0 0 0 0\n3 0 scissored 2 2 2 2 0 0 0 0 0 0 0 0\n5 0 drawn 3 4 5 6 0 0 0 0 3 4 5 6\nat 5\nhistory 2\n1 0 culled 1 1 1 1 0 0 0 0 0 0 0 0\n3 0 scissored 2 2 2 2 0 0 0 0 0 0 0 0\n";
    expect_replies(&rt, CULLED_THEN_SCISSORED, input, text);
    let text = b"at 1\nhistory 1\n1 - drawn 10 20 30 40 0 0 0 0 10 20 30 40\n";
    expect_replies(&rt, ONE_CLEAR, b"step\nhistory 0 0\n", text);
}

#[test]
fn indices_name_the_vertices(rt: HostRuntime) -> Result<(), Fail> {
    let input = b"goto 1\npixel 0 0\npixel 1 0\npixel 0 1\npixel 1 1\nevents\n";
    let text =
        b"at 1\npixel 255 0 0 255\npixel 0 255 0 255\npixel 0 255 0 255\npixel 0 255 0 255\nevents 1 at 1\n1 on draw 2 flat\n";
    expect_replies(&rt, INDEXED, input, text);
    let (front, back) = INDEXED.split_once("1,3,2]").ok_or("no indices")?;
    let seven = format!(in rt.alloc(); "{front}1,3,2,0]{back}")?;
    expect_replies(&rt, seven.as_str(), input, text);
    let fourth = format!(in rt.alloc(); "{front}1,3,4]{back}")?;
    let fault = CaptureFault::BadField { number: 1 };
    expect_refused(&rt, fourth.as_str(), fault);
    Ok(())
}

#[test]
fn bad_lines_get_named_faults(rt: HostRuntime) -> Result<(), Fail> {
    let mut input = Vec::from_slice(rt.alloc(), b"\nSTEP\nstep 1\ngoto -1\ngoto 4294967296\n")?;
    input.extend_from_slice(&[b'a'; 257])?;
    input.extend_from_slice(b"\n  step  \r\n")?;
    let text =
        b"bad 1 unknown command\nbad 1 unknown command\nbad 2 arguments\nbad 2 arguments\nbad 2 arguments\nbad 3 line too long\nat 1\n";
    expect_replies(&rt, ONE_CLEAR, input.as_slice(), text);
    Ok(())
}

#[test]
fn malicious_command_lines(rt: HostRuntime) -> Result<(), Fail> {
    let mut input = Vec::from_slice(rt.alloc(), &[b'a'; 256])?;
    input.extend_from_slice(b"\nstep")?;
    input.extend_from_slice(&[b' '; 252])?;
    input.extend_from_slice(b"\r\ngoto 0000000000\ngoto 00000000000\n\xff")?;
    let text = b"bad 1 unknown command\nat 1\nat 0\nbad 2 arguments\nbad 1 unknown command\n";
    expect_replies(&rt, ONE_CLEAR, input.as_slice(), text);
    Ok(())
}

#[test]
fn the_event_list_shows_flags(rt: HostRuntime) {
    let switched =
        b"at 0\nevents 5 at 0\n1 on raster none 0 1\n2 on scissor 0 0 1 1\n3 off blend 0 ONE ZERO ADD ONE ZERO ADD 5\n4 on clear 9 9 9 9\n5 on draw 1 flat\n";
    expect_replies(&rt, MASKED_AND_SCISSORED, b"off 3\nevents\n", switched);
    let text =
        b"events 5 at 0\n1 on raster none 0 1\n2 on scissor 0 0 1 1\n3 on blend 0 ONE ZERO ADD ONE ZERO ADD 5\n4 on clear 9 9 9 9\n5 on draw 1 flat\n";
    assert_eq!(rt; text.len(), 133);
    for room in 0..134usize {
        let mut sink = Device::new(Limited::of(rt.alloc(), room, 7));
        let ended = list_events(rt.alloc(), MASKED_AND_SCISSORED.as_bytes(), &mut sink);
        let ending = if room < 133 {
            Ending::Write { sent: room as u64 }
        } else {
            Ending::Done
        };
        assert_eq!(rt; ended, ending);
        let written = sink.into_inner();
        assert_eq!(rt; written.bytes.as_slice(), &text[..room]);
        assert_eq!(rt; written.flushes, if room < 133 { 0 } else { 1 });
    }
}

#[test]
fn markers_factors_and_negative_numbers(rt: HostRuntime) {
    let capture = r#"{"format":"framedbg","version":1,"width":1,"height":1,"events":[
{"kind":"marker","name":"a b"},
{"kind":"marker","name":""},
{"kind":"scissor","rect":[-2147483648,-1,0,2147483647]},
{"kind":"blend","enable":true,"rgb":["INV_BLEND_FACTOR","INV_DEST_ALPHA","REV_SUBTRACT"],"alpha":["INV_BLEND_FACTOR","INV_DEST_ALPHA","REV_SUBTRACT"],"mask":0},
{"kind":"factor","color":[0,1,2,3]}]}"#;
    let text =
        b"at 5\nevents 5 at 5\n1 on marker a b\n2 on marker \n3 on scissor -2147483648 -1 0 2147483647\n4 on blend 1 INV_BLEND_FACTOR INV_DEST_ALPHA REV_SUBTRACT INV_BLEND_FACTOR INV_DEST_ALPHA REV_SUBTRACT 0\n5 on factor 0 1 2 3\n";
    expect_replies(&rt, capture, b"goto 5\nevents\n", text);
}

#[test]
fn a_nearer_triangle_wins(rt: HostRuntime) {
    let input =
        b"goto 3\npixel 0 0\ngoto 5\npixel 0 0\ngoto 3\npixel 0 0\noff 2\npixel 0 0\npixel 1 0\n";
    let text =
        b"at 3\npixel 1 1 1 1 1000\nat 5\npixel 2 2 2 2 2000\nat 3\npixel 1 1 1 1 1000\nat 3\npixel 2 2 2 2 2000\nrefused 6 no such pixel\n";
    expect_replies(&rt, DEPTH_TEST, input, text);
}

#[test]
fn history_shows_depths(rt: HostRuntime) {
    let text =
        b"at 5\nhistory 4\n2 0 drawn 1 1 1 1 0 0 0 0 1 1 1 1 1000 65535 1000\n3 0 depthfailed 2 2 2 2 1 1 1 1 1 1 1 1 2000 1000 1000\n4 - drawn 0 0 0 0 1 1 1 1 1 1 1 1 65535 1000 65535\n5 0 drawn 2 2 2 2 1 1 1 1 2 2 2 2 2000 65535 2000\nstate cull back ccw 0 scissor 0 rect 0 0 0 0 blend 0 ONE ZERO ADD ONE ZERO ADD mask 15 factor 255 255 255 255 depth 1 1 LESS\nevents 5 at 5\n1 on depth 1 1 LESS\n2 on draw 1 flat\n3 on draw 1 flat\n4 on depth_clear 65535\n5 on draw 1 flat\n";
    expect_replies(
        &rt,
        DEPTH_TEST,
        b"goto 5\nhistory 0 0\nstate\nevents\n",
        text,
    );
}

/// What a picture has no colour for is neither blended nor given a depth: outside of its box, and at its hole.
#[test]
fn a_picture_is_drawn_where_it_has_texels(rt: HostRuntime) {
    let input =
        b"goto 4\npixel 0 0\npixel 1 0\npixel 2 0\npixel 0 1\npixel 1 1\npixel 2 1\ngoto 5\npixel 1 0\npixel 1 1\nback\nback\npixel 2 0\ngoto 5\noff 4\npixel 2 1\n";
    let text =
        b"at 4\npixel 10 20 30 40 65535\npixel 255 0 0 255 1000\npixel 55 35 15 128 1000\npixel 10 20 30 40 65535\npixel 10 20 30 40 65535\npixel 10 20 30 0 1000\nat 5\npixel 255 0 0 255 1000\npixel 1 2 3 255 2000\nat 4\nat 3\npixel 10 20 30 40 65535\nat 5\nat 5\npixel 1 2 3 255 2000\n";
    expect_replies(&rt, PICTURE, input, text);
}

#[test]
fn history_shows_what_was_discarded(rt: HostRuntime) {
    let text =
        b"at 5\nhistory 3\n1 - drawn 10 20 30 40 0 0 0 0 10 20 30 40 0 65535 65535\n4 0 discarded 0 0 0 0 10 20 30 40 10 20 30 40 1000 65535 65535\n5 0 drawn 1 2 3 255 10 20 30 40 1 2 3 255 2000 65535 2000\nhistory 3\n1 - drawn 10 20 30 40 0 0 0 0 10 20 30 40 0 65535 65535\n4 0 drawn 100 50 0 128 10 20 30 40 55 35 15 128 1000 65535 1000\n5 0 depthfailed 1 2 3 255 55 35 15 128 55 35 15 128 2000 1000 1000\nevents 5 at 5\n1 on clear 10 20 30 40\n2 on blend 1 SRC_ALPHA INV_SRC_ALPHA ADD ONE ZERO ADD 15\n3 on depth 1 1 LESS\n4 on draw 1 picture\n5 on draw 1 flat\n";
    expect_replies(
        &rt,
        PICTURE,
        b"goto 5\nhistory 1 1\nhistory 2 0\nevents\n",
        text,
    );
}

/// How a capture is refused, and that nothing is then written.
fn expect_refused(rt: &(impl Abort + AllocGlobal), capture: &str, fault: CaptureFault) {
    let mut sink = Device::new(Limited::of(rt.alloc(), 100, 100));
    let ended = list_events(rt.alloc(), capture.as_bytes(), &mut sink);
    assert_eq!(rt; ended, Ending::Capture(fault));
    assert_eq!(rt; sink.into_inner().bytes.len(), 0);
}

#[test]
fn versions_and_their_members(rt: HostRuntime) -> Result<(), Fail> {
    let alloc = rt.alloc();
    let (front, back) = ONE_CLEAR.split_once(r#""version":1"#).ok_or("no version")?;
    let second = format!(in alloc; "{front}\"version\":2{back}")?;
    let text =
        b"at 1\npam 69\nP7\nWIDTH 1\nHEIGHT 1\nDEPTH 4\nMAXVAL 255\nTUPLTYPE RGB_ALPHA\nENDHDR\n\x0a\x14\x1e\x28bye\n";
    expect_replies(&rt, second.as_str(), b"step\nshow\nquit\n", text);
    let ninth = format!(in alloc; "{front}\"version\":9{back}")?;
    expect_refused(&rt, ninth.as_str(), CaptureFault::Version);
    let (front, back) = DEPTH_TEST.split_once(r#""z":1000,"#).ok_or("no depth")?;
    let without = format!(in alloc; "{front}{back}")?;
    let fault = CaptureFault::BadField { number: 2 };
    expect_refused(&rt, without.as_str(), fault);
    let (front, back) = DEPTH_TEST.split_once(r#""version":2"#).ok_or("no version")?;
    let first = format!(in alloc; "{front}\"version\":1{back}")?;
    let fault = CaptureFault::UnknownEvent { number: 1 };
    expect_refused(&rt, first.as_str(), fault);
    Ok(())
}

/// Moves on 64 tiles, which several workers share where there are several.
#[test]
fn moves_over_many_tiles(rt: HostRuntime) {
    let input =
        b"goto 4\npixel 100 100\npixel 255 255\npixel 0 254\noff 3\npixel 100 100\ngoto 6\npixel 127 127\npixel 128 128\nback\nback\npixel 0 0\non 3\npixel 0 0\n";
    let text =
        b"at 4\npixel 11 22 3 4\npixel 1 2 3 4\npixel 11 22 3 4\nat 4\npixel 1 22 3 4\nat 6\npixel 5 6 37 8\npixel 5 6 7 8\nat 5\nat 4\npixel 1 22 3 4\nat 4\npixel 11 22 3 4\n";
    expect_replies(&rt, MANY_TILES, input, text);
}

#[test]
fn image_at_a_position(rt: HostRuntime) {
    let shown =
        b"P7\nWIDTH 1\nHEIGHT 1\nDEPTH 4\nMAXVAL 255\nTUPLTYPE RGB_ALPHA\nENDHDR\n\x0a\x14\x1e\x28".as_slice();
    let fresh =
        b"P7\nWIDTH 1\nHEIGHT 1\nDEPTH 4\nMAXVAL 255\nTUPLTYPE RGB_ALPHA\nENDHDR\n\0\0\0\0".as_slice();
    let none = b"".as_slice();
    for (at, room, ending, text) in [
        (None, 100, Ending::Done, shown),
        (Some(1), 100, Ending::Done, shown),
        (Some(0), 100, Ending::Done, fresh),
        (Some(9), 100, Ending::NoSuchPosition, none),
        (None, 68, Ending::Write { sent: 68 }, &shown[..68]),
        (None, 0, Ending::Write { sent: 0 }, none),
    ] {
        for workers in [1, 2, 64] {
            let mut sink = Device::new(Limited::of(rt.alloc(), room, 9));
            let capture = ONE_CLEAR.as_bytes();
            let ended = image(&rt, rt.alloc(), capture, workers, at, &mut sink);
            assert_eq!(rt; ended, ending);
            let written = sink.into_inner();
            assert_eq!(rt; written.bytes.as_slice(), text);
            assert_eq!(rt; written.flushes, if ended == Ending::Done { 1 } else { 0 });
        }
    }
    let mut sink = Device::new(Limited::of(rt.alloc(), 100, 9));
    let ended = image(&rt, rt.alloc(), b"[]", 1, None, &mut sink);
    assert_eq!(rt; ended, Ending::Capture(CaptureFault::NotCapture));
    assert_eq!(rt; sink.failures(), 0);
    assert_eq!(rt; sink.into_inner().bytes.len(), 0);
}
