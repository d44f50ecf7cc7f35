//! Captures of version 3.
use super::*;

/// A draw of one triangle with a picture of two by two texels, of which the third is a hole.
const PICTURE: &str =
    r#"{"format":"framedbg","version":3,"width":3,"height":2,"events":[{"kind":"draw","interp":"picture","vertices":[
{"x":0,"y":0,"z":7},{"x":524288,"y":0,"z":7},{"x":0,"y":524288,"z":7}],
"picture":{"left":1,"top":0,"width":2,"height":2,"texels":"/wAA/2QyAIABAgMEAADIAA==","holes":"BA=="}}]}"#;

/// The capture with the first such text in it replaced.
fn changed_picture(alloc: Global, old: &str, new: &str) -> Result<String, Fail> {
    let (before, after) = PICTURE
        .split_once(old)
        .ok_or("the capture has no such text")?;
    Ok(format!(in alloc; "{before}{new}{after}")?)
}

#[test]
fn a_picture_with_a_hole(rt: HostRuntime) -> Result<(), Fail> {
    let table = read(rt.alloc(), PICTURE.as_bytes())?;
    assert_eq!(rt; (table.version(), table.len()), (3, 1));
    let Event::Draw(draw) = table.event(1) else {
        return Err(Fail::from("draw"));
    };
    if draw.triangles() != 1 {
        return Err(Fail::from("one triangle"));
    }
    assert_eq!(rt; draw.depths(0), [7, 7, 7]);
    let picture = draw.picture().ok_or("a picture")?;
    assert_eq!(rt; picture.texel(1, 0), Some(rgba(255, 0, 0, 255)));
    assert_eq!(rt; picture.texel(2, 0), Some(rgba(100, 50, 0, 128)));
    assert_eq!(rt; picture.texel(1, 1), None);
    assert_eq!(rt; picture.texel(2, 1), Some(rgba(0, 0, 200, 0)));
    assert_eq!(rt;
        (
            picture.texel(0, 0),
            picture.texel(3, 0),
            picture.texel(2, 2)
        ),
        (None, None, None)
    );
    Ok(())
}

/// A text of the capture, what stands in its place, and the fault, if there is one.
const PICTURES_AND_THEIR_MEMBERS: [(&str, &str, Option<CaptureFault>); 33] = [
    (
        "\"version\":3",
        "\"version\":4",
        Some(CaptureFault::Version),
    ),
    ("\"version\":3", "\"version\":2", BAD),
    ("\"version\":3", "\"version\":1", BAD),
    ("\"left\":1", "\"left\":16383", None),
    ("\"left\":1", "\"left\":16384", BAD),
    ("\"left\":1", "\"left\":-1", BAD),
    ("\"left\":1", "\"left\":1.0", BAD),
    ("\"left\":1,", "", BAD),
    ("\"top\":0", "\"top\":16383", None),
    ("\"top\":0", "\"top\":16384", BAD),
    ("\"width\":2", "\"width\":0", BAD),
    ("\"width\":2", "\"width\":1", BAD),
    ("2,\"height\":2", "1,\"height\":4", None),
    ("2,\"height\":2", "16385,\"height\":2", BAD),
    // In JSON a slash may be escaped. Base64 has one spelling, and four bytes are a texel.
    ("\"/wAA", "\"\\/wAA", None),
    ("\"/wAA", "\"_wAA", BAD),
    ("\"/wAA", "\" /wAA", BAD),
    ("\"/wAA", "\"/wAA\\n", BAD),
    ("IAA==\"", "IAA\"", BAD),
    ("IAA==\"", "IAB==\"", BAD),
    ("IAA==\"", "IAAA\"", BAD),
    ("IAA==\"", "I\"", BAD),
    ("\"texels\":", "\"texel\":", BAD),
    ("\"holes\":", "\"hole\":", None),
    ("\"BA==\"", "null", BAD),
    ("\"BA==\"", "\"\"", BAD),
    ("\"BA==\"", "\"BAA=\"", BAD),
    // Left-over bits are ignored, and so is a colour.
    ("\"BA==\"", "\"9A==\"", None),
    ("\"z\":7", "\"z\":7,\"color\":\"red\"", None),
    ("\"z\":7", "\"color\":[1,2,3,4]", BAD),
    ("\"picture\":{", "\"image\":{", BAD),
    ("\"picture\":{", "\"picture\":[],\"image\":{", BAD),
    ("\"interp\":\"picture\"", "\"interp\":\"flat\"", BAD),
];

/// Draws without a picture, whose member of this name isn't looked at.
const UNSEEN_PICTURES: [&str; 2] = [
    "{\"kind\":\"draw\",\"interp\":\"flat\",\"vertices\":[],\"picture\":{\"left\":-1}}",
    "{\"kind\":\"clear\",\"color\":[1,2,3,4],\"picture\":null}",
];

#[test]
fn pictures_and_their_members(rt: HostRuntime) -> Result<(), Fail> {
    let alloc = rt.alloc();
    for (old, new, fault) in PICTURES_AND_THEIR_MEMBERS {
        let text = changed_picture(alloc, old, new)?;
        assert_eq!(rt; fault_of(alloc, &text), fault, "{old} as {new}");
    }
    for event in UNSEEN_PICTURES {
        for version in [1, 3] {
            let text = format!(in alloc;
                "{{\"events\":[{event}],\"format\":\"framedbg\",\"version\":{version},\"width\":1,\"height\":1}}"
            )?;
            assert_eq!(rt; fault_of(alloc, &text), None, "{event}");
        }
    }
    Ok(())
}
