use fd_blend::{BlendOp, BlendState, Colour, Factor, Mask, Part};
use fd_capture::{CaptureFault, read};
use fd_cover::{Cull, Depth, Func, Interp, Raster, Rect, Tri};
use fd_events::{Draw, Event, EventTable};
use fd_snap::Snapped;
use std::alloc::Global;
use std::process::Abort;
use std::test::Fail;

mod pictures;

/// One clear of one pixel.
const CAPTURE: &str =
    "{\"format\":\"framedbg\",\"version\":1,\"width\":1,\"height\":1,\"events\":[{\"kind\":\"clear\",\"color\":[10,20,30,40]}]}";

/// What stands before and after the events of a capture.
const HEAD: &str = "{\"format\":\"framedbg\",\"version\":1,\"width\":1,\"height\":1,\"events\":[";

const TAIL: &str = "]}";

const MARKER: &str = "{\"kind\":\"marker\",\"name\":\"\"}";

/// The capture with the first such text in it replaced.
fn changed(alloc: Global, old: &str, new: &str) -> Result<String, Fail> {
    let (before, after) = CAPTURE
        .split_once(old)
        .ok_or("the capture has no such text")?;
    Ok(format!(in alloc; "{before}{new}{after}")?)
}

/// The capture with other events.
fn with_events(alloc: Global, events: &str) -> Result<String, Fail> {
    let (head, tail) = (HEAD, TAIL);
    Ok(format!(in alloc; "{head}{events}{tail}")?)
}

/// So many times the same text, separated by commas.
fn listed(alloc: Global, item: &str, number: usize) -> Result<String, Fail> {
    let mut list = String::new(alloc);
    for place in 0..number {
        if place > 0 {
            list.push(',')?;
        }
        list.push_str(item)?;
    }
    Ok(list)
}

fn fault_of(alloc: Global, text: &str) -> Option<CaptureFault> {
    read(alloc, text.as_bytes()).err()
}

#[test]
fn one_clear(rt: HostRuntime) -> Result<(), Fail> {
    let table = read(rt.alloc(), CAPTURE.as_bytes())?;
    assert_eq!(rt; (table.width(), table.height(), table.len()), (1, 1, 1));
    assert!(rt; matches!(table.event(1), Event::Clear(colour) if *colour == rgba(10, 20, 30, 40)));
    assert!(rt; table.is_on(1));
    Ok(())
}

const BAD: Option<CaptureFault> = Some(CaptureFault::BadField { number: 1 });

/// A text of the capture, what stands in its place, and the fault.
const REFUSED_CAPTURES: [(&str, &str, CaptureFault); 4] = [
    ("40]}]}", "40]}]", CaptureFault::NotJson),
    (CAPTURE, "[]", CaptureFault::NotCapture),
    ("\"version\":1", "\"version\":9", CaptureFault::Version),
    ("\"width\":1", "\"width\":0", CaptureFault::Size),
];

/// Events, and the fault.
const REFUSED_EVENTS: [(&str, CaptureFault); 4] = [
    (
        "{\"kind\":\"draw\",\"interp\":\"flat\",\"vertices\":[{\"x\":1.5,\"y\":0,\"color\":[1,2,3,4]}]}",
        CaptureFault::BadField { number: 1 },
    ),
    (
        "{\"kind\":\"marker\",\"name\":\"\"},{\"kind\":\"warp\"}",
        CaptureFault::UnknownEvent { number: 2 },
    ),
    (
        "{\"kind\":\"warp\"},{\"kind\":\"clear\"}",
        CaptureFault::UnknownEvent { number: 1 },
    ),
    (
        "{\"kind\":\"blend\",\"enable\":true,\"rgb\":[\"ONE\",\"ZERO\",\"ADD\"],\"alpha\":[\"SRC_COLOR\",\"ZERO\",\"ADD\"],\"mask\":15}",
        CaptureFault::BadField { number: 1 },
    ),
];

#[test]
fn refused_captures_and_their_faults(rt: HostRuntime) -> Result<(), Fail> {
    let alloc = rt.alloc();
    for (old, new, fault) in REFUSED_CAPTURES {
        let text = changed(alloc, old, new)?;
        assert_eq!(rt; fault_of(alloc, &text), Some(fault), "{new}");
    }
    // Neither was accepted before the limits grew.
    let wide = changed(alloc, "\"width\":1", "\"width\":2049")?;
    assert_eq!(rt; fault_of(alloc, &wide), None);
    let markers = with_events(alloc, &listed(alloc, MARKER, 65_537)?)?;
    assert_eq!(rt; fault_of(alloc, &markers), None);
    for (events, fault) in REFUSED_EVENTS {
        let text = with_events(alloc, events)?;
        assert_eq!(rt; fault_of(alloc, &text), Some(fault), "{events}");
    }
    let spaces = vec![in alloc; b' '; 67_108_865]?;
    assert_eq!(rt; read(alloc, &spaces).err(), Some(CaptureFault::TooLong));
    assert_eq!(rt;
        read(alloc, &spaces[1..]).err(),
        Some(CaptureFault::NotJson)
    );
    Ok(())
}

/// A text of the capture, what stands in its place, and the fault, if there is one.
const MALICIOUS_CAPTURES: [(&str, &str, Option<CaptureFault>); 10] = [
    (CAPTURE, "null", Some(CaptureFault::NotCapture)),
    (CAPTURE, "{}", Some(CaptureFault::NotCapture)),
    (
        "\"version\":1",
        "\"version\":1.0",
        Some(CaptureFault::Version),
    ),
    ("\"width\":1", "\"width\":1e0", Some(CaptureFault::Size)),
    ("10,20,30,40", "10,20,30", BAD),
    ("10,20,30,40", "10,20,30,256", BAD),
    ("10,20,30,40", "10,20,30,-1", BAD),
    ("\"color\"", "\"x\":[],\"color\"", None),
    ("\"clear\"", "5", BAD),
    ("\"kind\":\"clear\",", "", BAD),
];

/// An event, and the fault, if there is one.
const MALICIOUS_EVENTS: [(&str, Option<CaptureFault>); 7] = [
    (
        "{\"kind\":\"marker\",\"name\":\"12345678901234567890123456789012345678901234567890123456789012345\"}",
        BAD,
    ),
    ("{\"kind\":\"marker\",\"name\":\"\\u001f\"}", BAD),
    ("{\"kind\":\"marker\",\"name\":\"\u{7f}\"}", BAD),
    (
        "{\"kind\":\"marker\",\"name\":\"\u{e4}\u{e4}\u{e4}\u{e4}\u{e4}\u{e4}\u{e4}\u{e4}\u{e4}\u{e4}\u{e4}\u{e4}\u{e4}\u{e4}\u{e4}\u{e4}\u{e4}\u{e4}\u{e4}\u{e4}\u{e4}\u{e4}\u{e4}\u{e4}\u{e4}\u{e4}\u{e4}\u{e4}\u{e4}\u{e4}\u{e4}\u{e4}\"}",
        None,
    ),
    ("{\"kind\":\"scissor\",\"rect\":[0,0,0,2147483648]}", BAD),
    (
        "{\"kind\":\"blend\",\"enable\":true,\"rgb\":[\"ONE\",\"ONE\",\"ADD\"],\"alpha\":[\"ONE\",\"ZERO\",\"ADD\"],\"mask\":16}",
        BAD,
    ),
    (
        "{\"kind\":\"draw\",\"interp\":\"flat\",\"vertices\":[],\"indices\":null}",
        BAD,
    ),
];

#[test]
fn malicious_captures(rt: HostRuntime) -> Result<(), Fail> {
    let alloc = rt.alloc();
    for len in 0..CAPTURE.len() {
        let refused = read(alloc, &CAPTURE.as_bytes()[..len]).err();
        assert_eq!(rt; refused, Some(CaptureFault::NotJson), "{len} bytes");
    }
    assert_eq!(rt; read(alloc, b"\xff").err(), Some(CaptureFault::NotJson));
    for (old, new, fault) in MALICIOUS_CAPTURES {
        let text = changed(alloc, old, new)?;
        assert_eq!(rt; fault_of(alloc, &text), fault, "{new}");
    }
    for (event, fault) in MALICIOUS_EVENTS {
        let text = with_events(alloc, event)?;
        assert_eq!(rt; fault_of(alloc, &text), fault, "{event}");
    }
    let deep = nested_capture(alloc, 200 + DEPTH)?;
    assert_eq!(rt; fault_of(alloc, &deep), Some(CaptureFault::NotJson));
    Ok(())
}

/// So many arrays, each in the one before.
fn nest(alloc: Global, depth: usize) -> Result<String, Fail> {
    let mut text = String::new(alloc);
    for _ in 0..depth {
        text.push('[')?;
    }
    for _ in 0..depth {
        text.push(']')?;
    }
    Ok(text)
}

/// How deep a member of an event stands in a capture.
const DEPTH: usize = 3;

/// The capture with an unknown member in its event, in all nested so deep.
fn nested_capture(alloc: Global, depth: usize) -> Result<String, Fail> {
    let nested = nest(alloc, depth.saturating_sub(DEPTH))?;
    let member = format!(in alloc; "\"x\":{nested},\"color\"")?;
    changed(alloc, "\"color\"", &member)
}

/// Both sides of a limit: a capture that is accepted, and one that is refused for this fault.
#[derive(Drop)]
struct Limit {
    name: &'static str,
    within: String,
    beyond: String,
    fault: CaptureFault,
}

/// The limits of one event's members: an event within, and one beyond.
const MEMBER_LIMITS: [(&str, &str); 13] = [
    (
        "{\"kind\":\"clear\",\"color\":[0,0,0,0]}",
        "{\"kind\":\"clear\",\"color\":[-1,0,0,0]}",
    ),
    (
        "{\"kind\":\"clear\",\"color\":[0,0,0,255]}",
        "{\"kind\":\"clear\",\"color\":[0,0,0,256]}",
    ),
    (
        "{\"kind\":\"factor\",\"color\":[0,0,0,0]}",
        "{\"kind\":\"factor\",\"color\":[0,0,0,0,0]}",
    ),
    (
        "{\"kind\":\"scissor\",\"rect\":[-2147483648,0,0,0]}",
        "{\"kind\":\"scissor\",\"rect\":[-2147483649,0,0,0]}",
    ),
    (
        "{\"kind\":\"scissor\",\"rect\":[0,0,0,2147483647]}",
        "{\"kind\":\"scissor\",\"rect\":[0,0,0,2147483648]}",
    ),
    (
        "{\"kind\":\"scissor\",\"rect\":[0,0,0,0]}",
        "{\"kind\":\"scissor\",\"rect\":[0,0,0]}",
    ),
    (
        "{\"kind\":\"scissor\",\"rect\":[0,0,0,0]}",
        "{\"kind\":\"scissor\",\"rect\":[0,0,0,0,0]}",
    ),
    (
        "{\"kind\":\"blend\",\"enable\":true,\"rgb\":[\"ONE\",\"ONE\",\"ADD\"],\"alpha\":[\"ONE\",\"ZERO\",\"ADD\"],\"mask\":0}",
        "{\"kind\":\"blend\",\"enable\":true,\"rgb\":[\"ONE\",\"ONE\",\"ADD\"],\"alpha\":[\"ONE\",\"ZERO\",\"ADD\"],\"mask\":-1}",
    ),
    (
        "{\"kind\":\"blend\",\"enable\":true,\"rgb\":[\"ONE\",\"ONE\",\"ADD\"],\"alpha\":[\"ONE\",\"ZERO\",\"ADD\"],\"mask\":15}",
        "{\"kind\":\"blend\",\"enable\":true,\"rgb\":[\"ONE\",\"ONE\",\"ADD\"],\"alpha\":[\"ONE\",\"ZERO\",\"ADD\"],\"mask\":16}",
    ),
    (
        "{\"kind\":\"draw\",\"interp\":\"flat\",\"vertices\":[{\"x\":0,\"y\":0,\"color\":[1,2,3,4]}],\"indices\":[0]}",
        "{\"kind\":\"draw\",\"interp\":\"flat\",\"vertices\":[{\"x\":0,\"y\":0,\"color\":[1,2,3,4]}],\"indices\":[1]}",
    ),
    (
        "{\"kind\":\"marker\",\"name\":\"1234567890123456789012345678901234567890123456789012345678901234\"}",
        "{\"kind\":\"marker\",\"name\":\"12345678901234567890123456789012345678901234567890123456789012345\"}",
    ),
    (
        "{\"kind\":\"marker\",\"name\":\" \"}",
        "{\"kind\":\"marker\",\"name\":\"\\u001f\"}",
    ),
    (
        "{\"kind\":\"marker\",\"name\":\"~\\u0080\"}",
        "{\"kind\":\"marker\",\"name\":\"\\u007f\"}",
    ),
];

/// A draw of so many vertices and indices.
fn draw_of(alloc: Global, vertices: usize, indices: usize) -> Result<String, Fail> {
    let vertices = listed(alloc, "{\"x\":1,\"y\":-2,\"color\":[1,2,3,4]}", vertices)?;
    let indices = listed(alloc, "0", indices)?;
    let event = format!(in alloc;
        "{{\"kind\":\"draw\",\"interp\":\"flat\",\"vertices\":[{vertices}],\"indices\":[{indices}]}}"
    )?;
    with_events(alloc, &event)
}

/// The capture, filled up by white space to so many bytes.
fn filled_up(alloc: Global, len: usize) -> Result<Vec<u8>, Fail> {
    let mut bytes = vec![in alloc; b' '; len]?;
    for (place, byte) in bytes.iter_mut().zip(CAPTURE.as_bytes()) {
        *place = *byte;
    }
    Ok(bytes)
}

/// The limits of a capture's other members: a text of the capture, what stands in its place within the limit and beyond it, and the fault.
const HEAD_LIMITS: [(&str, &str, &str, CaptureFault); 4] = [
    (
        "\"version\":1",
        "\"version\":1",
        "\"version\":0",
        CaptureFault::Version,
    ),
    (
        "\"version\":1",
        "\"version\":3",
        "\"version\":4",
        CaptureFault::Version,
    ),
    (
        "\"width\":1",
        "\"width\":1",
        "\"width\":0",
        CaptureFault::Size,
    ),
    (
        "\"height\":1",
        "\"height\":1",
        "\"height\":0",
        CaptureFault::Size,
    ),
];

fn limits_of_captures_as_a_whole(alloc: Global) -> Result<Vec<Limit>, Fail> {
    let mut limits = Vec::new(alloc);
    for (name, within, beyond, fault) in HEAD_LIMITS {
        limits.push(Limit {
            name,
            within: changed(alloc, name, within)?,
            beyond: changed(alloc, name, beyond)?,
            fault,
        })?;
    }
    limits.push(Limit {
        name: "depth",
        within: nested_capture(alloc, 127)?,
        beyond: nested_capture(alloc, 128)?,
        fault: CaptureFault::NotJson,
    })?;
    Ok(limits)
}

fn limits_of_events(alloc: Global) -> Result<Vec<Limit>, Fail> {
    let fault = CaptureFault::BadField { number: 1 };
    let mut limits = Vec::new(alloc);
    for (within, beyond) in MEMBER_LIMITS {
        limits.push(Limit {
            name: beyond,
            within: with_events(alloc, within)?,
            beyond: with_events(alloc, beyond)?,
            fault,
        })?;
    }
    limits.push(Limit {
        name: "vertices",
        within: draw_of(alloc, 196_608, 0)?,
        beyond: draw_of(alloc, 196_609, 0)?,
        fault,
    })?;
    limits.push(Limit {
        name: "indices",
        within: draw_of(alloc, 1, 196_608)?,
        beyond: draw_of(alloc, 1, 196_609)?,
        fault,
    })?;
    Ok(limits)
}

fn check_limits(rt: &impl Abort, alloc: Global, limits: Vec<Limit>) {
    for limit in &limits {
        assert_eq!(rt; fault_of(alloc, &limit.within), None, "{}", limit.name);
        let fault = Some(limit.fault);
        assert_eq!(rt; fault_of(alloc, &limit.beyond), fault, "{}", limit.name);
    }
}

#[test]
fn limits_of_captures(rt: HostRuntime) -> Result<(), Fail> {
    let alloc = rt.alloc();
    check_limits(&rt, alloc, limits_of_captures_as_a_whole(alloc)?);
    check_limits(&rt, alloc, limits_of_events(alloc)?);
    let longest = filled_up(alloc, 67_108_864)?;
    assert_eq!(rt; read(alloc, &longest).err(), None);
    let too_long = filled_up(alloc, 67_108_865)?;
    assert_eq!(rt; read(alloc, &too_long).err(), Some(CaptureFault::TooLong));
    Ok(())
}

/// The limits that are larger than they were: a text of the capture, and what stands in its place within the limit and beyond it.
const LARGER_SIDES: [(&str, &str, &str); 2] = [
    ("\"width\":1", "\"width\":16384", "\"width\":16385"),
    ("\"height\":1", "\"height\":16384", "\"height\":16385"),
];

/// Coordinates within the limit, and beyond it.
const LARGER_COORDINATES: [(&str, &str); 4] = [
    (
        "\"x\":1073741824,\"y\":-1073741824",
        "\"x\":1073741825,\"y\":-1073741824",
    ),
    (
        "\"x\":-1073741824,\"y\":1073741824",
        "\"x\":-1073741825,\"y\":1073741824",
    ),
    ("\"x\":0,\"y\":1073741824", "\"x\":0,\"y\":1073741825"),
    ("\"x\":0,\"y\":-1073741824", "\"x\":0,\"y\":-1073741825"),
];

/// A draw of one vertex with these coordinates.
fn vertex_at(alloc: Global, coordinates: &str) -> Result<String, Fail> {
    let event = format!(in alloc;
        "{{\"kind\":\"draw\",\"interp\":\"flat\",\"vertices\":[{{{coordinates},\"color\":[1,2,3,4]}}]}}"
    )?;
    with_events(alloc, &event)
}

#[test]
fn larger_limits_of_captures(rt: HostRuntime) -> Result<(), Fail> {
    let alloc = rt.alloc();
    let mut limits = Vec::new(alloc);
    for (name, within, beyond) in LARGER_SIDES {
        limits.push(Limit {
            name,
            within: changed(alloc, name, within)?,
            beyond: changed(alloc, name, beyond)?,
            fault: CaptureFault::Size,
        })?;
    }
    for (within, beyond) in LARGER_COORDINATES {
        limits.push(Limit {
            name: beyond,
            within: vertex_at(alloc, within)?,
            beyond: vertex_at(alloc, beyond)?,
            fault: CaptureFault::BadField { number: 1 },
        })?;
    }
    limits.push(Limit {
        name: "events",
        within: with_events(alloc, &listed(alloc, MARKER, 1_000_000)?)?,
        beyond: with_events(alloc, &listed(alloc, MARKER, 1_000_001)?)?,
        fault: CaptureFault::TooMany,
    })?;
    check_limits(&rt, alloc, limits);
    Ok(())
}

/// A capture of version 2: a farther triangle is drawn after a nearer one, and again after the depths were cleared.
const DEPTH_TEST: &str =
    "{\"format\":\"framedbg\",\"version\":2,\"width\":1,\"height\":1,\"events\":[
    {\"kind\":\"depth\",\"enable\":true,\"write\":true,\"func\":\"LESS\"},
    {\"kind\":\"draw\",\"interp\":\"flat\",\"vertices\":[
        {\"x\":0,\"y\":0,\"z\":1000,\"color\":[1,1,1,1]},
        {\"x\":131072,\"y\":0,\"z\":1000,\"color\":[1,1,1,1]},
        {\"x\":0,\"y\":131072,\"z\":1000,\"color\":[1,1,1,1]}]},
    {\"kind\":\"draw\",\"interp\":\"flat\",\"vertices\":[
        {\"x\":0,\"y\":0,\"z\":2000,\"color\":[2,2,2,2]},
        {\"x\":131072,\"y\":0,\"z\":2000,\"color\":[2,2,2,2]},
        {\"x\":0,\"y\":131072,\"z\":2000,\"color\":[2,2,2,2]}]},
    {\"kind\":\"depth_clear\",\"depth\":65535},
    {\"kind\":\"draw\",\"interp\":\"flat\",\"vertices\":[
        {\"x\":0,\"y\":0,\"z\":2000,\"color\":[2,2,2,2]},
        {\"x\":131072,\"y\":0,\"z\":2000,\"color\":[2,2,2,2]},
        {\"x\":0,\"y\":131072,\"z\":2000,\"color\":[2,2,2,2]}]}]}";

/// The capture of version 2 with a text in it replaced.
fn changed_depth(alloc: Global, old: &str, new: &str) -> Result<String, Fail> {
    let (before, after) = DEPTH_TEST
        .split_once(old)
        .ok_or("the capture has no such text")?;
    Ok(format!(in alloc; "{before}{new}{after}")?)
}

/// What version 2 has beside version 1: a text of the capture of version 2, what stands in its place, and the fault, if there is one.
const VERSIONS_AND_THEIR_MEMBERS: [(&str, &str, Option<CaptureFault>); 18] = [
    (
        "\"version\":2",
        "\"version\":9",
        Some(CaptureFault::Version),
    ),
    ("\"version\":2,", "", Some(CaptureFault::Version)),
    (
        "\"version\":2",
        "\"version\":2.0",
        Some(CaptureFault::Version),
    ),
    (
        "\"version\":2",
        "\"version\":1",
        Some(CaptureFault::UnknownEvent { number: 1 }),
    ),
    ("\"z\":1000,", "", SECOND),
    ("\"z\":2000,", "", THIRD),
    ("\"z\":1000", "\"z\":0", None),
    ("\"z\":1000", "\"z\":-1", SECOND),
    ("\"z\":1000", "\"z\":65535", None),
    ("\"z\":1000", "\"z\":65536", SECOND),
    ("\"z\":1000", "\"z\":1000.0", SECOND),
    ("\"depth\":65535", "\"depth\":0", None),
    ("\"depth\":65535", "\"depth\":-1", FOURTH),
    ("\"depth\":65535", "\"depth\":65536", FOURTH),
    ("\"LESS\"", "\"less\"", BAD),
    ("\"write\":true", "\"write\":1", BAD),
    ("\"enable\":true,", "", BAD),
    // The last version counts, and it stands behind the events.
    ("]}]}]}", "]}]}],\"version\":1}", UNKNOWN),
];

const SECOND: Option<CaptureFault> = Some(CaptureFault::BadField { number: 2 });

const THIRD: Option<CaptureFault> = Some(CaptureFault::BadField { number: 3 });

const FOURTH: Option<CaptureFault> = Some(CaptureFault::BadField { number: 4 });

/// In version 1 these members are ignored, and these kinds unknown.
const IGNORED_IN_VERSION_ONE: [(&str, Option<CaptureFault>); 4] = [
    (
        "{\"kind\":\"draw\",\"interp\":\"flat\",\"vertices\":[{\"x\":0,\"y\":0,\"z\":65536,\"color\":[1,2,3,4]}]}",
        None,
    ),
    (
        "{\"kind\":\"draw\",\"interp\":\"flat\",\"vertices\":[{\"x\":0,\"y\":0,\"z\":[],\"color\":[1,2,3,4]}]}",
        None,
    ),
    ("{\"kind\":\"depth\"}", UNKNOWN),
    ("{\"kind\":\"depth_clear\",\"depth\":0}", UNKNOWN),
];

const UNKNOWN: Option<CaptureFault> = Some(CaptureFault::UnknownEvent { number: 1 });

#[test]
fn versions_and_their_members(rt: HostRuntime) -> Result<(), Fail> {
    let alloc = rt.alloc();
    let second = changed(alloc, "\"version\":1", "\"version\":2")?;
    let table = read(alloc, second.as_bytes())?;
    assert_eq!(rt; (table.version(), table.len()), (2, 1));
    assert!(rt; matches!(table.event(1), Event::Clear(colour) if *colour == rgba(10, 20, 30, 40)));
    let behind = changed(alloc, "]}]}", "]}],\"version\":2}")?;
    let table = read(alloc, behind.as_bytes())?;
    assert_eq!(rt; (table.version(), table.len()), (2, 1));
    let table = read(
        alloc,
        changed_depth(alloc, "\"z\":1000", "\"z\":7")?.as_bytes(),
    )?;
    assert_eq!(rt; table.len(), 5);
    let set = Depth {
        enable: true,
        write: true,
        func: Func::Less,
    };
    assert!(rt; matches!(table.event(1), Event::SetDepth(depth) if *depth == set));
    let Event::Draw(draw) = table.event(2) else {
        return Err(Fail::from("draw"));
    };
    assert_eq!(rt; draw.triangles(), 1);
    assert_eq!(rt; draw.depths(0), [7, 1000, 1000]);
    assert!(rt; matches!(table.event(4), Event::DepthClear(65535)));
    for (old, new, fault) in VERSIONS_AND_THEIR_MEMBERS {
        let text = changed_depth(alloc, old, new)?;
        assert_eq!(rt; fault_of(alloc, &text), fault, "{new}");
    }
    for (event, fault) in IGNORED_IN_VERSION_ONE {
        let text = with_events(alloc, event)?;
        assert_eq!(rt; fault_of(alloc, &text), fault, "{event}");
    }
    Ok(())
}

/// An event of each kind.
const EVERY_KIND: &str =
    "{\"kind\":\"raster\",\"cull\":\"none\",\"front_ccw\":true,\"scissor\":false},
    {\"kind\":\"scissor\",\"rect\":[-2147483648,0,2147483647,4]},
    {\"kind\":\"blend\",\"enable\":true,\"rgb\":[\"SRC_COLOR\",\"INV_DEST_ALPHA\",\"REV_SUBTRACT\"],\"alpha\":[\"ONE\",\"ZERO\",\"MAX\"],\"mask\":5},
    {\"kind\":\"factor\",\"color\":[1,2,3,4]},
    {\"kind\":\"clear\",\"color\":[5,6,7,8]},
    {\"kind\":\"draw\",\"interp\":\"linear\",\"vertices\":[
        {\"x\":0,\"y\":0,\"color\":[1,1,1,1]},
        {\"x\":536870912,\"y\":128,\"color\":[2,2,2,2]},
        {\"x\":-536870912,\"y\":384,\"color\":[3,3,3,3]}],\"indices\":[2,1,0,0]},
    {\"kind\":\"marker\",\"name\":\"the end\"}";

#[test]
fn every_kind(rt: HostRuntime) -> Result<(), Fail> {
    let table = read(rt.alloc(), with_events(rt.alloc(), EVERY_KIND)?.as_bytes())?;
    assert_eq!(rt; table.len(), 7);
    let raster = Raster {
        cull: Cull::None,
        front_ccw: true,
        scissor: false,
    };
    let rect = Rect {
        left: i32::MIN,
        top: 0,
        right: i32::MAX,
        bottom: 4,
    };
    assert!(rt; matches!(table.event(1), Event::SetRaster(set) if *set == raster));
    assert!(rt; matches!(table.event(2), Event::SetScissor(set) if *set == rect));
    let Event::SetBlend(blend) = table.event(3) else {
        return Err(Fail::from("blend"));
    };
    check_blend(&rt, blend);
    assert!(rt; matches!(table.event(4), Event::SetFactor(colour) if *colour == rgba(1, 2, 3, 4)));
    assert!(rt; matches!(table.event(5), Event::Clear(colour) if *colour == rgba(5, 6, 7, 8)));
    let Event::Draw(draw) = table.event(6) else {
        return Err(Fail::from("draw"));
    };
    check_draw(&rt, draw);
    assert!(rt; matches!(table.event(7), Event::Marker(label) if label.as_str() == "the end"));
    Ok(())
}

fn check_blend(rt: &impl Abort, blend: &BlendState) {
    let rgb = Part {
        src: Factor::SrcColor,
        dst: Factor::InvDestAlpha,
        op: BlendOp::RevSubtract,
    };
    let alpha = Part {
        src: Factor::One,
        dst: Factor::Zero,
        op: BlendOp::Max,
    };
    assert!(rt; blend.enable());
    assert_eq!(rt; (blend.rgb(), blend.alpha()), (rgb, alpha));
    assert_eq!(rt; Some(blend.mask()), Mask::from_bits(5));
}

fn check_draw(rt: &impl Abort, draw: &Draw) {
    assert_eq!(rt; (draw.triangles(), draw.interp()), (1, Interp::Linear));
    let corners = triangle((-(1 << 21), 2), (1 << 21, 0), (0, 0));
    assert_eq!(rt; Some(draw.tri(0)), corners);
    let colours = [rgba(3, 3, 3, 3), rgba(2, 2, 2, 2), rgba(1, 1, 1, 1)];
    assert_eq!(rt; draw.colours(0), colours);
}

fn rgba(r: u8, g: u8, b: u8, a: u8) -> Colour {
    Colour { r, g, b, a }
}

/// A triangle by its corners in 1/256 pixel.
fn triangle(a: (i32, i32), b: (i32, i32), c: (i32, i32)) -> Option<Tri> {
    Some(Tri {
        a: Snapped::new(a.0, a.1)?,
        b: Snapped::new(b.0, b.1)?,
        c: Snapped::new(c.0, c.1)?,
    })
}

const RED: Colour = Colour {
    r: 255,
    g: 0,
    b: 0,
    a: 255,
};

const GREEN: Colour = Colour {
    r: 0,
    g: 255,
    b: 0,
    a: 255,
};

/// The corners and the first colours of the two triangles of a capture's only draw.
fn two_triangles(table: &EventTable) -> Option<[(Tri, Colour); 2]> {
    if table.len() != 1 {
        return None;
    }
    let Event::Draw(draw) = table.event(1) else {
        return None;
    };
    if draw.triangles() != 2 {
        return None;
    }
    let [first, _, _] = draw.colours(0);
    let [second, _, _] = draw.colours(1);
    Some([(draw.tri(0), first), (draw.tri(1), second)])
}

/// Two triangles by four vertices and these indices.
fn indexed(alloc: Global, indices: &str) -> Result<String, Fail> {
    let event = format!(in alloc;
        "{{\"kind\":\"draw\",\"interp\":\"flat\",\"vertices\":[
        {{\"x\":0,\"y\":0,\"color\":[255,0,0,255]}},{{\"x\":131072,\"y\":0,\"color\":[0,255,0,255]}},
        {{\"x\":0,\"y\":131072,\"color\":[255,0,0,255]}},{{\"x\":131072,\"y\":131072,\"color\":[255,0,0,255]}}],\"indices\":[{indices}]}}"
    )?;
    with_events(alloc, &event)
}

#[test]
fn indices_name_the_vertices(rt: HostRuntime) -> Result<(), Fail> {
    let alloc = rt.alloc();
    let upper = triangle((0, 0), (512, 0), (0, 512)).ok_or("a triangle")?;
    let lower = triangle((512, 0), (512, 512), (0, 512)).ok_or("a triangle")?;
    let drawn = Some([(upper, RED), (lower, GREEN)]);
    for indices in ["0,1,2,1,3,2", "0,1,2,1,3,2,0"] {
        let table = read(alloc, indexed(alloc, indices)?.as_bytes())?;
        assert_eq!(rt; two_triangles(&table), drawn, "{indices}");
    }
    let refused = fault_of(alloc, &indexed(alloc, "0,1,2,1,3,2,4")?);
    assert_eq!(rt; refused, BAD);
    Ok(())
}

/// Events with a member that is missing or not what its kind asks for.
const BAD_EVENTS: [&str; 17] = [
    "5",
    "[]",
    "{\"kind\":null}",
    "{\"kind\":\"clear\",\"color\":[1,2,3,4e0]}",
    "{\"kind\":\"clear\",\"color\":[1,2,3,9223372036854775808]}",
    "{\"kind\":\"factor\",\"colour\":[1,2,3,4]}",
    "{\"kind\":\"raster\",\"cull\":\"None\",\"front_ccw\":true,\"scissor\":false}",
    "{\"kind\":\"raster\",\"cull\":\"none\",\"front_ccw\":0,\"scissor\":false}",
    "{\"kind\":\"scissor\",\"rect\":{\"left\":0,\"top\":0,\"right\":0,\"bottom\":0}}",
    "{\"kind\":\"blend\",\"enable\":false,\"rgb\":[\"ONE\",\"ONE\",\"ADD\"],\"alpha\":[\"ONE\",\"INV_DEST_COLOR\",\"MIN\"],\"mask\":15}",
    "{\"kind\":\"blend\",\"enable\":true,\"rgb\":[\"ONE\",\"ONE\"],\"alpha\":[\"ONE\",\"ZERO\",\"ADD\"],\"mask\":15}",
    "{\"kind\":\"draw\",\"interp\":\"flat\",\"vertices\":[{\"x\":0,\"color\":[1,2,3,4]}]}",
    "{\"kind\":\"draw\",\"interp\":\"flat\",\"vertices\":[],\"indices\":[4294967296]}",
    "{\"kind\":\"draw\",\"interp\":\"cubic\",\"vertices\":[]}",
    "{\"kind\":\"draw\",\"interp\":\"flat\"}",
    "{\"kind\":\"draw\",\"vertices\":[]}",
    "{\"kind\":\"marker\"}",
];

#[test]
fn bad_fields(rt: HostRuntime) -> Result<(), Fail> {
    for event in BAD_EVENTS {
        let text = with_events(rt.alloc(), event)?;
        assert_eq!(rt; fault_of(rt.alloc(), &text), BAD, "{event}");
    }
    let empty = "{\"kind\":\"draw\",\"interp\":\"flat\",\"vertices\":[],\"indices\":[]}";
    assert_eq!(rt;
        fault_of(rt.alloc(), &with_events(rt.alloc(), empty)?),
        None
    );
    Ok(())
}
