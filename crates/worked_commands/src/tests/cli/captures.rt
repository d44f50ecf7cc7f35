//! Captures of the tests.

/// One clear.
pub(crate) const ONE_CLEAR: &str =
    r#"{"format":"framedbg","version":1,"width":1,"height":1,"events":[{"kind":"clear","color":[10,20,30,40]}]}"#;

/// No events.
pub(crate) const NO_EVENTS: &str =
    r#"{"format":"framedbg","version":1,"width":1,"height":1,"events":[]}"#;

/// Two triangles with a common edge.
pub(crate) const TWO_TRIANGLES: &str =
    r#"{"format":"framedbg","version":1,"width":2,"height":2,"events":[{"kind":"draw","interp":"flat","vertices":[{"x":0,"y":0,"color":[255,0,0,255]},{"x":131072,"y":0,"color":[255,0,0,255]},{"x":0,"y":131072,"color":[255,0,0,255]},{"x":131072,"y":0,"color":[0,255,0,255]},{"x":131072,"y":131072,"color":[0,255,0,255]},{"x":0,"y":131072,"color":[0,255,0,255]}]}]}"#;

/// A scissor and a mask, a clear and a draw.
pub(crate) const MASKED_AND_SCISSORED: &str =
    r#"{"format":"framedbg","version":1,"width":2,"height":2,"events":[
{"kind":"raster","cull":"none","front_ccw":false,"scissor":true},
{"kind":"scissor","rect":[0,0,1,1]},
{"kind":"blend","enable":false,"rgb":["ONE","ZERO","ADD"],"alpha":["ONE","ZERO","ADD"],"mask":5},
{"kind":"clear","color":[9,9,9,9]},
{"kind":"draw","interp":"flat","vertices":[{"x":0,"y":0,"color":[200,201,202,203]},{"x":262144,"y":0,"color":[200,201,202,203]},{"x":0,"y":262144,"color":[200,201,202,203]}]}
]}"#;

/// A blend that adds, and a draw of two equal triangles.
pub(crate) const ADDED_TWICE: &str =
    r#"{"format":"framedbg","version":1,"width":1,"height":1,"events":[
{"kind":"blend","enable":true,"rgb":["ONE","ONE","ADD"],"alpha":["ONE","ONE","ADD"],"mask":15},
{"kind":"draw","interp":"flat","vertices":[{"x":0,"y":0,"color":[10,10,10,10]},{"x":131072,"y":0,"color":[10,10,10,10]},{"x":0,"y":131072,"color":[10,10,10,10]},
{"x":0,"y":0,"color":[10,10,10,10]},{"x":131072,"y":0,"color":[10,10,10,10]},{"x":0,"y":131072,"color":[10,10,10,10]}]}
]}"#;

/// A triangle over all but one pixel of the widest target.
pub(crate) const WIDEST: &str =
    r#"{"format":"framedbg","version":1,"width":16384,"height":1,"events":[
{"kind":"draw","interp":"flat","vertices":[{"x":0,"y":0,"color":[7,7,7,7]},{"x":1073741824,"y":0,"color":[7,7,7,7]},{"x":0,"y":1073741824,"color":[7,7,7,7]}]}
]}"#;

/// A blend that scales by alpha, and a draw.
pub(crate) const ALPHA_SCALED: &str =
    r#"{"format":"framedbg","version":1,"width":1,"height":1,"events":[
{"kind":"blend","enable":true,"rgb":["SRC_ALPHA","ZERO","ADD"],"alpha":["ONE","ZERO","ADD"],"mask":15},
{"kind":"draw","interp":"flat","vertices":[{"x":0,"y":0,"color":[200,100,50,128]},{"x":131072,"y":0,"color":[200,100,50,128]},{"x":0,"y":131072,"color":[200,100,50,128]}]}
]}"#;

/// A draw that is culled, one that is scissored, and one that is drawn.
pub(crate) const CULLED_THEN_SCISSORED: &str =
    r#"{"format":"framedbg","version":1,"width":1,"height":1,"events":[
{"kind":"draw","interp":"flat","vertices":[{"x":0,"y":0,"color":[1,1,1,1]},{"x":0,"y":131072,"color":[1,1,1,1]},{"x":131072,"y":0,"color":[1,1,1,1]}]},
{"kind":"raster","cull":"back","front_ccw":false,"scissor":true},
{"kind":"draw","interp":"flat","vertices":[{"x":0,"y":0,"color":[2,2,2,2]},{"x":131072,"y":0,"color":[2,2,2,2]},{"x":0,"y":131072,"color":[2,2,2,2]}]},
{"kind":"scissor","rect":[0,0,1,1]},
{"kind":"draw","interp":"flat","vertices":[{"x":0,"y":0,"color":[3,4,5,6]},{"x":131072,"y":0,"color":[3,4,5,6]},{"x":0,"y":131072,"color":[3,4,5,6]}]}
]}"#;

/// A linear draw of one pixel.
pub(crate) const LINEAR_RED: &str =
    r#"{"format":"framedbg","version":1,"width":1,"height":1,"events":[{"kind":"draw","interp":"linear","vertices":[{"x":0,"y":0,"color":[0,0,0,255]},{"x":131072,"y":0,"color":[0,0,0,255]},{"x":0,"y":131072,"color":[255,0,0,255]}]}]}"#;

/// Two triangles by indices.
pub(crate) const INDEXED: &str =
    r#"{"format":"framedbg","version":1,"width":2,"height":2,"events":[{"kind":"draw","interp":"flat","vertices":[{"x":0,"y":0,"color":[255,0,0,255]},{"x":131072,"y":0,"color":[0,255,0,255]},{"x":0,"y":131072,"color":[255,0,0,255]},{"x":131072,"y":131072,"color":[255,0,0,255]}],"indices":[0,1,2,1,3,2]}]}"#;

/// With the depth test on: a triangle, the same one farther away, a clear of depths, and the farther one again.
pub(crate) const DEPTH_TEST: &str =
    r#"{"format":"framedbg","version":2,"width":1,"height":1,"events":[
{"kind":"depth","enable":true,"write":true,"func":"LESS"},
{"kind":"draw","interp":"flat","vertices":[{"x":0,"y":0,"z":1000,"color":[1,1,1,1]},{"x":131072,"y":0,"z":1000,"color":[1,1,1,1]},{"x":0,"y":131072,"z":1000,"color":[1,1,1,1]}]},
{"kind":"draw","interp":"flat","vertices":[{"x":0,"y":0,"z":2000,"color":[2,2,2,2]},{"x":131072,"y":0,"z":2000,"color":[2,2,2,2]},{"x":0,"y":131072,"z":2000,"color":[2,2,2,2]}]},
{"kind":"depth_clear","depth":65535},
{"kind":"draw","interp":"flat","vertices":[{"x":0,"y":0,"z":2000,"color":[2,2,2,2]},{"x":131072,"y":0,"z":2000,"color":[2,2,2,2]},{"x":0,"y":131072,"z":2000,"color":[2,2,2,2]}]}
]}"#;

/// A picture of two by two texels, of which the third is a hole, is blended with a clear under the depth test, and a farther triangle drawn after it.
pub(crate) const PICTURE: &str = r#"{"format":"framedbg","version":3,"width":3,"height":2,"events":[
{"kind":"clear","color":[10,20,30,40]},
{"kind":"blend","enable":true,"rgb":["SRC_ALPHA","INV_SRC_ALPHA","ADD"],"alpha":["ONE","ZERO","ADD"],"mask":15},
{"kind":"depth","enable":true,"write":true,"func":"LESS"},
{"kind":"draw","interp":"picture","vertices":[{"x":0,"y":0,"z":1000},{"x":524288,"y":0,"z":1000},{"x":0,"y":524288,"z":1000}],
"picture":{"left":1,"top":0,"width":2,"height":2,"texels":"/wAA/2QyAIABAgMEAADIAA==","holes":"BA=="}},
{"kind":"draw","interp":"flat","vertices":[{"x":0,"y":0,"z":2000,"color":[1,2,3,255]},{"x":524288,"y":0,"z":2000,"color":[1,2,3,255]},{"x":0,"y":524288,"z":2000,"color":[1,2,3,255]}]}
]}"#;

/// A target of 64 tiles: a clear, two halves of it drawn over one another, and a clear that hides all but what is drawn behind it.
pub(crate) const MANY_TILES: &str =
    r#"{"format":"framedbg","version":1,"width":256,"height":256,"events":[
{"kind":"clear","color":[1,2,3,4]},
{"kind":"blend","enable":true,"rgb":["ONE","ONE","ADD"],"alpha":["ONE","ONE","ADD"],"mask":15},
{"kind":"draw","interp":"flat","vertices":[{"x":0,"y":0,"color":[10,0,0,0]},{"x":16777216,"y":0,"color":[10,0,0,0]},{"x":0,"y":16777216,"color":[10,0,0,0]}]},
{"kind":"draw","interp":"flat","vertices":[{"x":0,"y":0,"color":[0,20,0,0]},{"x":16777216,"y":0,"color":[0,20,0,0]},{"x":0,"y":16777216,"color":[0,20,0,0]}]},
{"kind":"clear","color":[5,6,7,8]},
{"kind":"draw","interp":"flat","vertices":[{"x":0,"y":0,"color":[0,0,30,0]},{"x":16777216,"y":0,"color":[0,0,30,0]},{"x":0,"y":16777216,"color":[0,0,30,0]}]}
]}"#;
