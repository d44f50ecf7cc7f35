//! The captures of the tests, and sessions over them.
ghost use Rattle.std.specs.Prelude.{◌≤◌};

use fd_blend::Colour;
use fd_capture::read;
use fd_session::Session;
use std::alloc::Global;
use std::test::Fail;

/// A clear on two tiles.
pub(crate) const TWO_TILES: &str =
    r#"{"format":"framedbg","version":1,"width":33,"height":1,"events":[
{"kind":"clear","color":[1,2,3,4]}]}"#;

/// 33 triangles, in turn in the first and in the last of the four cells of 32 pixels.
pub(crate) const TWO_CELLS: &str =
    r#"{"format":"framedbg","version":1,"width":64,"height":64,"events":[
{"kind":"draw","interp":"flat","vertices":[{"x":0,"y":0,"color":[7,7,7,7]},{"x":262144,"y":0,"color":[7,7,7,7]},
{"x":0,"y":262144,"color":[7,7,7,7]},{"x":2621440,"y":2621440,"color":[7,7,7,7]},
{"x":2883584,"y":2621440,"color":[7,7,7,7]},{"x":2621440,"y":2883584,"color":[7,7,7,7]}],"indices":[
0,1,2,3,4,5,0,1,2,3,4,5,0,1,2,3,4,5,0,1,2,3,4,5,0,1,2,3,4,5,0,1,2,3,4,5,0,1,2,3,4,5,0,1,2,3,4,5,
0,1,2,3,4,5,0,1,2,3,4,5,0,1,2,3,4,5,0,1,2,3,4,5,0,1,2,3,4,5,0,1,2,3,4,5,0,1,2,3,4,5,0,1,2,3,4,5,0,1,2]}]}"#;

/// A scissor and a mask, a clear, and a draw on two by two pixels.
pub(crate) const MASKED: &str = r#"{"format":"framedbg","version":1,"width":2,"height":2,"events":[
{"kind":"raster","cull":"none","front_ccw":false,"scissor":true},
{"kind":"scissor","rect":[0,0,1,1]},
{"kind":"blend","enable":false,"rgb":["ONE","ZERO","ADD"],"alpha":["ONE","ZERO","ADD"],"mask":5},
{"kind":"clear","color":[9,9,9,9]},
{"kind":"draw","interp":"flat","vertices":[{"x":0,"y":0,"color":[200,201,202,203]},
{"x":262144,"y":0,"color":[200,201,202,203]},{"x":0,"y":262144,"color":[200,201,202,203]}]}]}"#;

/// A blend state and a draw on one pixel.
pub(crate) const BLENDED: &str = r#"{"format":"framedbg","version":1,"width":1,"height":1,"events":[
{"kind":"blend","enable":true,"rgb":["SRC_ALPHA","ZERO","ADD"],"alpha":["ONE","ZERO","ADD"],"mask":15},
{"kind":"draw","interp":"flat","vertices":[{"x":0,"y":0,"color":[200,100,50,128]},
{"x":131072,"y":0,"color":[200,100,50,128]},{"x":0,"y":131072,"color":[200,100,50,128]}]}]}"#;

/// A culled, a scissored and a drawn triangle on one pixel.
pub(crate) const THREE_VERDICTS: &str =
    r#"{"format":"framedbg","version":1,"width":1,"height":1,"events":[
{"kind":"draw","interp":"flat","vertices":[{"x":0,"y":0,"color":[1,1,1,1]},
{"x":0,"y":131072,"color":[1,1,1,1]},{"x":131072,"y":0,"color":[1,1,1,1]}]},
{"kind":"raster","cull":"back","front_ccw":false,"scissor":true},
{"kind":"draw","interp":"flat","vertices":[{"x":0,"y":0,"color":[2,2,2,2]},
{"x":131072,"y":0,"color":[2,2,2,2]},{"x":0,"y":131072,"color":[2,2,2,2]}]},
{"kind":"scissor","rect":[0,0,1,1]},
{"kind":"draw","interp":"flat","vertices":[{"x":0,"y":0,"color":[3,4,5,6]},
{"x":131072,"y":0,"color":[3,4,5,6]},{"x":0,"y":131072,"color":[3,4,5,6]}]}]}"#;

/// A nearer triangle, a farther one that fails the depth test, and that one again after a clear of the depth.
pub(crate) const DEPTH_TEST: &str =
    r#"{"format":"framedbg","version":2,"width":1,"height":1,"events":[
{"kind":"depth","enable":true,"write":true,"func":"LESS"},
{"kind":"draw","interp":"flat","vertices":[{"x":0,"y":0,"z":1000,"color":[1,1,1,1]},
{"x":131072,"y":0,"z":1000,"color":[1,1,1,1]},{"x":0,"y":131072,"z":1000,"color":[1,1,1,1]}]},
{"kind":"draw","interp":"flat","vertices":[{"x":0,"y":0,"z":2000,"color":[2,2,2,2]},
{"x":131072,"y":0,"z":2000,"color":[2,2,2,2]},{"x":0,"y":131072,"z":2000,"color":[2,2,2,2]}]},
{"kind":"depth_clear","depth":65535},
{"kind":"draw","interp":"flat","vertices":[{"x":0,"y":0,"z":2000,"color":[2,2,2,2]},
{"x":131072,"y":0,"z":2000,"color":[2,2,2,2]},{"x":0,"y":131072,"z":2000,"color":[2,2,2,2]}]}]}"#;

/// A near triangle on the left, a picture behind it whose lower texels are holes, and a farther triangle, on two by two pixels.
pub(crate) const PICTURE: &str = r#"{"format":"framedbg","version":3,"width":2,"height":2,"events":[
{"kind":"depth","enable":true,"write":true,"func":"LESS"},
{"kind":"draw","interp":"flat","vertices":[{"x":0,"y":0,"z":1000,"color":[9,9,9,9]},
{"x":65536,"y":0,"z":1000,"color":[9,9,9,9]},{"x":0,"y":131072,"z":1000,"color":[9,9,9,9]},
{"x":65536,"y":0,"z":1000,"color":[9,9,9,9]},{"x":65536,"y":131072,"z":1000,"color":[9,9,9,9]},
{"x":0,"y":131072,"z":1000,"color":[9,9,9,9]}]},
{"kind":"draw","interp":"picture","vertices":[{"x":0,"y":0,"z":2000},{"x":262144,"y":0,"z":2000},{"x":0,"y":262144,"z":2000}],
"picture":{"left":0,"top":0,"width":2,"height":2,"texels":"yGQA//8ACjMoUHgABwcH/w==","holes":"DA=="}},
{"kind":"draw","interp":"flat","vertices":[{"x":0,"y":0,"z":3000,"color":[3,3,3,3]},
{"x":262144,"y":0,"z":3000,"color":[3,3,3,3]},{"x":0,"y":262144,"z":3000,"color":[3,3,3,3]}]}]}"#;

pub(crate) const fn colour(r: u8, g: u8, b: u8, a: u8) -> Colour {
    Colour { r, g, b, a }
}

pub(crate) const FRESH: Colour = Colour {
    r: 0,
    g: 0,
    b: 0,
    a: 0,
};

pub(crate) fn session(alloc: Global, capture: &str, workers: u32) -> Result<Session, Fail>
    requires { (1 ≤ workers) × (workers ≤ 64) }
{
    let table = read(alloc, capture.as_bytes())?;
    match Session::start(alloc, table, workers) {
        Ok(session) => Ok(session),
        Err(_) => Err(Fail::from("memory")),
    }
}
