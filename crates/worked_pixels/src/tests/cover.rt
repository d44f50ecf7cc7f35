ghost use Rattle.std.specs.Prelude.{◌<◌, ◌≤◌};
ghost use Rattle.fd_snap.specs.Limits.{most_pixels};

use fd_blend::Colour;
use fd_cover::{
    Bounds, Cull, Depth, Func, Interp, Raster, Rect, Scanlines, Tri, Verdict, covers, depth_at,
    depth_row, row_span, shade, shade_row, verdict_at,
};
use fd_snap::Snapped;
use std::process::Abort;
use std::test::Fail;

/// A triangle by its vertices in half pixels.
fn triangle(vertices: [(i32, i32); 3]) -> Result<Tri, Fail> {
    let [a, b, c] = vertices;
    Ok(Tri {
        a: vertex(a)?,
        b: vertex(b)?,
        c: vertex(c)?,
    })
}

fn vertex(halves: (i32, i32)) -> Result<Snapped, Fail> {
    let x = halves.0.checked_mul(128).ok_or("x in range")?;
    let y = halves.1.checked_mul(128).ok_or("y in range")?;
    Ok(Snapped::new(x, y).ok_or("in range")?)
}

fn expect_covered(rt: &impl Abort, triangle: &Tri, expected: [bool; 4]) {
    assert_eq!(rt; covers(triangle, 0, 0), expected[0]);
    assert_eq!(rt; covers(triangle, 1, 0), expected[1]);
    assert_eq!(rt; covers(triangle, 0, 1), expected[2]);
    assert_eq!(rt; covers(triangle, 1, 1), expected[3]);
}

#[test]
fn the_shared_edge_is_covered_once(rt: HostRuntime) -> Result<(), Fail> {
    let red = triangle([(0, 0), (4, 0), (0, 4)])?;
    let green = triangle([(4, 0), (4, 4), (0, 4)])?;
    expect_covered(&rt, &red, [true, false, false, false]);
    expect_covered(&rt, &green, [false, true, true, true]);
    Ok(())
}

#[test]
fn top_is_inclusive_bottom_is_not(rt: HostRuntime) -> Result<(), Fail> {
    let first = triangle([(0, 1), (4, 1), (0, 3)])?;
    let second = triangle([(4, 1), (4, 3), (0, 3)])?;
    expect_covered(&rt, &first, [true, true, false, false]);
    expect_covered(&rt, &second, [false, false, false, false]);
    Ok(())
}

#[test]
fn a_triangle_of_no_area_covers_nothing(rt: HostRuntime) -> Result<(), Fail> {
    let line = triangle([(0, 0), (2, 2), (4, 4)])?;
    expect_covered(&rt, &line, [false, false, false, false]);
    Ok(())
}

#[test]
fn a_triangle_of_no_area_has_no_box(rt: HostRuntime) -> Result<(), Fail> {
    let line = triangle([(0, 0), (2, 2), (4, 4)])?;
    assert!(rt; Bounds::of(&line).is_empty());
    let counter_clockwise = triangle([(0, 0), (0, 4), (4, 0)])?;
    assert_eq!(rt; Bounds::of(&counter_clockwise).right, 2);
    Ok(())
}

/// Of a triangle with legs of 64 pixels the long edge goes through the pixels with x + y = 63.
#[test]
fn boxes_beyond_an_edge_are_missed(rt: HostRuntime) -> Result<(), Fail> {
    for corners in [[(0, 0), (128, 0), (0, 128)], [(0, 128), (128, 0), (0, 0)]] {
        let triangle = triangle(corners)?;
        assert!(rt; Scanlines::of(&triangle, 32).misses(32, 64, 31));
        assert!(rt; !Scanlines::of(&triangle, 31).misses(31, 64, 31));
        assert!(rt; !Scanlines::of(&triangle, 0).misses(0, 32, 31));
        assert!(rt; Scanlines::of(&triangle, 0).misses(64, 96, 31));
    }
    Ok(())
}

#[test]
fn row_spans_of_a_small_triangle(rt: HostRuntime) -> Result<(), Fail> {
    let triangle = triangle([(0, 0), (4, 0), (0, 4)])?;
    assert_eq!(rt; row_span(&triangle, 0, 0, 2), Some((0, 1)));
    assert_eq!(rt; row_span(&triangle, 1, 0, 2), None);
    Ok(())
}

#[test]
fn row_spans_of_a_large_triangle(rt: HostRuntime) -> Result<(), Fail> {
    let triangle = triangle([(0, 0), (4096, 0), (0, 4096)])?;
    assert_eq!(rt; row_span(&triangle, 0, 0, 2048), Some((0, 2047)));
    assert_eq!(rt; row_span(&triangle, 2046, 0, 2048), Some((0, 1)));
    assert_eq!(rt; row_span(&triangle, 2047, 0, 2048), None);
    assert_eq!(rt; row_span(&triangle, 0, 100, 200), Some((100, 200)));
    assert_eq!(rt; row_span(&triangle, 1900, 100, 200), Some((100, 147)));
    Ok(())
}

#[test]
fn a_triangle_over_the_widest_target(rt: HostRuntime) -> Result<(), Fail> {
    let triangle = triangle([(0, 0), (32768, 0), (0, 32768)])?;
    assert_eq!(rt; row_span(&triangle, 0, 0, 16384), Some((0, 16383)));
    assert_eq!(rt; row_span(&triangle, 16382, 0, 16384), Some((0, 1)));
    assert_eq!(rt; row_span(&triangle, 16383, 0, 16384), None);
    assert!(rt; covers(&triangle, 2048, 2048) && covers(&triangle, 16382, 0));
    assert!(rt; !covers(&triangle, 16383, 0) && !covers(&triangle, 8192, 8192));
    assert!(rt; covers(&triangle, 12345, 678));
    assert_eq!(rt; depth_at(&triangle, &[0, 65535, 0], 12345, 678), 49381);
    let black = Colour::default();
    let red = Colour { r: 255, ..black };
    assert_eq!(rt;
        shade(&triangle, &[black, red, black], Interp::Linear, 12345, 678).r,
        192
    );
    Ok(())
}

/// The first run of covered pixels of a row, found by asking at each pixel.
fn walked_span(triangle: &Tri, y: u32, x0: u32, x1: u32) -> Option<(u32, u32)>
    requires row { y < most_pixels }
    requires columns { x1 ≤ most_pixels }
{
    let mut span = None;
    for x in x0..x1 {
        if covers(triangle, x, y) {
            span = match span {
                None => Some((x, x + 1)),
                Some((left, right)) if right == x => Some((left, x + 1)),
                Some(run) => Some(run),
            };
        }
    }
    span
}

/// The next of a sequence of numbers without a pattern (a linear congruential generator).
fn next(seed: &mut u32) -> u32 {
    *seed = seed.wrapping_mul(1664525).wrapping_add(1013904223);
    *seed >> 16
}

/// A vertex in and around a target of 16 by 16 pixels, in steps of `unit` / 256 pixel.
fn any_vertex(seed: &mut u32, unit: u32) -> Result<Snapped, Fail>
    requires { 0 < unit }
{
    let x = (next(seed) % 6144 / unit * unit) as i32 - 1024;
    let y = (next(seed) % 6144 / unit * unit) as i32 - 1024;
    Ok(Snapped::new(x, y).ok_or("in range")?)
}

fn expect_equal_spans(rt: &impl Abort, seed: &mut u32, unit: u32) -> Result<(), Fail>
    requires { 0 < unit }
{
    for _ in 0..500 {
        let triangle = Tri {
            a: any_vertex(seed, unit)?,
            b: any_vertex(seed, unit)?,
            c: any_vertex(seed, unit)?,
        };
        for y in 0..16 {
            for (left, right) in [(0, 16), (3, 9)] {
                let walked = walked_span(&triangle, y, left, right);
                assert_eq!(rt; row_span(&triangle, y, left, right), walked);
                let mut rows = Scanlines::of(&triangle, y);
                rows.down();
                assert_eq!(rt;
                    rows.span(left, right),
                    walked_span(&triangle, y + 1, left, right)
                );
            }
        }
    }
    Ok(())
}

#[test]
fn row_spans_equal_a_walk(rt: HostRuntime) -> Result<(), Fail> {
    let mut seed = 1;
    expect_equal_spans(&rt, &mut seed, 1)?;
    expect_equal_spans(&rt, &mut seed, 64)?;
    expect_equal_spans(&rt, &mut seed, 128)?;
    expect_equal_spans(&rt, &mut seed, 256)
}

#[test]
fn bounds_of_triangles(rt: HostRuntime) -> Result<(), Fail> {
    let square = Bounds {
        left: 0,
        top: 0,
        right: 2,
        bottom: 2,
    };
    let strip = Bounds {
        left: 0,
        top: 3,
        right: 2,
        bottom: 5,
    };
    assert_eq!(rt; Bounds::of(&triangle([(0, 0), (4, 0), (0, 4)])?), square);
    assert_eq!(rt; Bounds::of(&triangle([(-9, 7), (3, 8), (1, 9)])?), strip);
    assert!(rt; Bounds::of(&triangle([(-9, 0), (-1, 4), (-1, 9)])?).is_empty());
    assert_eq!(rt;
        square.join(strip),
        Bounds {
            left: 0,
            top: 0,
            right: 2,
            bottom: 5
        }
    );
    assert_eq!(rt; strip.join(Bounds::empty()), strip);
    let both = square.join(strip);
    assert!(rt; both.meets(strip) && both.meet(strip) == strip && strip.count() == 4);
    assert!(rt; !strip.meets(square) && strip.meet(square).count() == 0);
    assert!(rt; strip.holds(1, 3) && !strip.holds(2, 3) && !strip.holds(0, 2));
    Ok(())
}

/// The depth test on, with writes.
fn depth_test(func: Func) -> Depth {
    Depth {
        enable: true,
        write: true,
        func,
    }
}

#[test]
fn the_first_verdict_counts(rt: HostRuntime) -> Result<(), Fail> {
    let clockwise = triangle([(0, 0), (4, 0), (0, 4)])?;
    let counter_clockwise = triangle([(0, 0), (0, 4), (4, 0)])?;
    let back = Raster {
        cull: Cull::Back,
        front_ccw: false,
        scissor: true,
    };
    let nothing = Rect {
        left: 0,
        top: 0,
        right: 0,
        bottom: 0,
    };
    let pixel = Rect {
        left: 0,
        top: 0,
        right: 1,
        bottom: 1,
    };
    let less = depth_test(Func::Less);
    let depths = [1000, 1000, 1000];
    for (triangle, rect, stored, x, expected) in [
        (&clockwise, &pixel, 1001, 0, Verdict::Drawn),
        (&clockwise, &pixel, 1000, 0, Verdict::DepthFailed),
        (&clockwise, &nothing, 1000, 0, Verdict::Scissored),
        (&counter_clockwise, &nothing, 1000, 0, Verdict::Culled),
        (&counter_clockwise, &nothing, 1000, 1, Verdict::Missed),
    ] {
        assert_eq!(rt;
            verdict_at(triangle, &depths, &back, rect, &less, stored, x, x),
            expected
        );
    }
    let off = Depth {
        enable: false,
        ..less
    };
    assert_eq!(rt;
        verdict_at(&clockwise, &depths, &back, &pixel, &off, 0, 0, 0),
        Verdict::Drawn
    );
    Ok(())
}

#[test]
fn clockwise_is_front_unless_said_otherwise(rt: HostRuntime) -> Result<(), Fail> {
    let clockwise = triangle([(0, 0), (4, 0), (0, 4)])?;
    let counter_clockwise = triangle([(0, 0), (0, 4), (4, 0)])?;
    for (cull, front_ccw, expected) in [
        (Cull::None, false, [false, false]),
        (Cull::Front, false, [true, false]),
        (Cull::Back, false, [false, true]),
        (Cull::None, true, [false, false]),
        (Cull::Front, true, [false, true]),
        (Cull::Back, true, [true, false]),
    ] {
        let raster = Raster {
            cull,
            front_ccw,
            scissor: false,
        };
        assert_eq!(rt; raster.culls(&clockwise), expected[0]);
        assert_eq!(rt; raster.culls(&counter_clockwise), expected[1]);
    }
    Ok(())
}

#[test]
fn depths_compare_as_each_function_says(rt: HostRuntime) {
    for (func, expected) in [
        (Func::Never, [false, false, false]),
        (Func::Less, [true, false, false]),
        (Func::Equal, [false, true, false]),
        (Func::LessEqual, [true, true, false]),
        (Func::Greater, [false, false, true]),
        (Func::NotEqual, [true, false, true]),
        (Func::GreaterEqual, [false, true, true]),
        (Func::Always, [true, true, true]),
    ] {
        let test = depth_test(func);
        assert_eq!(rt; test.passes(499, 500), expected[0]);
        assert_eq!(rt; test.passes(500, 500), expected[1]);
        assert_eq!(rt; test.passes(501, 500), expected[2]);
        let off = Depth {
            enable: false,
            ..test
        };
        assert!(rt; off.passes(501, 500));
    }
}

#[test]
fn depths_are_stored_by_tests_that_write(rt: HostRuntime) {
    for (enable, write, expected) in [
        (false, false, 500),
        (false, true, 500),
        (true, false, 500),
        (true, true, 499),
    ] {
        let test = Depth {
            enable,
            write,
            func: Func::Less,
        };
        assert_eq!(rt; test.stored_past(499, 500), expected);
    }
}

#[test]
fn linear_depth_rounds_to_nearest(rt: HostRuntime) -> Result<(), Fail> {
    let triangle = triangle([(0, 0), (4, 0), (0, 4)])?;
    assert!(rt; covers(&triangle, 0, 0));
    assert_eq!(rt; depth_at(&triangle, &[0, 0, 65535], 0, 0), 16384);
    Ok(())
}

#[test]
fn linear_red_rounds_to_nearest(rt: HostRuntime) -> Result<(), Fail> {
    let triangle = triangle([(0, 0), (4, 0), (0, 4)])?;
    let black = Colour {
        r: 0,
        g: 0,
        b: 0,
        a: 255,
    };
    let red = Colour {
        r: 255,
        g: 0,
        b: 0,
        a: 255,
    };
    assert!(rt; covers(&triangle, 0, 0));
    assert_eq!(rt;
        shade(&triangle, &[black, black, red], Interp::Linear, 0, 0),
        Colour {
            r: 64,
            g: 0,
            b: 0,
            a: 255
        }
    );
    assert_eq!(rt;
        shade(&triangle, &[red, black, black], Interp::Flat, 0, 0),
        red
    );
    Ok(())
}

/// Any colour.
fn any_colour(seed: &mut u32) -> Colour {
    Colour {
        r: (next(seed) % 256) as u8,
        g: (next(seed) % 256) as u8,
        b: (next(seed) % 256) as u8,
        a: (next(seed) % 256) as u8,
    }
}

/// Any depth.
fn any_depth(seed: &mut u32) -> u16 {
    (next(seed) % 65536) as u16
}

fn expect_equal_rows(
    rt: &impl Abort,
    triangle: &Tri,
    colours: &[Colour; 3],
    depths: &[u16; 3],
    x0: u32,
    y0: u32,
)
    requires column { x0 < 16352 }
    requires row { y0 < 16368 }
{
    for y in y0..y0 + 16 {
        if let Some((left, right)) = row_span(triangle, y, x0, x0 + 32) {
            let mut row = [colours[0]; 32];
            let row = &mut row[..(right - left) as usize];
            shade_row(triangle, colours, Interp::Linear, left, y, row);
            let mut deep = [0; 32];
            let deep = &mut deep[..(right - left) as usize];
            depth_row(triangle, depths, left, y, deep);
            for i in 0..row.len() {
                let x = left + i as u32;
                assert_eq!(rt; row[i], shade(triangle, colours, Interp::Linear, x, y));
                assert_eq!(rt; deep[i], depth_at(triangle, depths, x, y));
            }
        }
    }
}

/// Three of whatever a sequence gives.
fn three_colours(seed: &mut u32) -> [Colour; 3] {
    [any_colour(seed), any_colour(seed), any_colour(seed)]
}

fn three_depths(seed: &mut u32) -> [u16; 3] {
    [any_depth(seed), any_depth(seed), any_depth(seed)]
}

#[test]
fn a_row_has_the_colours_and_depths_of_its_pixels(rt: HostRuntime) -> Result<(), Fail> {
    let mut seed: u32 = 5;
    for unit in [1u32, 64, 256] {
        for _ in 0..60u32 {
            let triangle = Tri {
                a: any_vertex(&mut seed, unit)?,
                b: any_vertex(&mut seed, unit)?,
                c: any_vertex(&mut seed, unit)?,
            };
            let colours = three_colours(&mut seed);
            let depths = three_depths(&mut seed);
            expect_equal_rows(&rt, &triangle, &colours, &depths, 0, 0);
            expect_equal_rows(&rt, &triangle, &colours, &[depths[0]; 3], 0, 0);
        }
    }
    Ok(())
}

#[test]
fn a_row_of_the_largest_triangle(rt: HostRuntime) -> Result<(), Fail> {
    let triangle = Tri {
        a: Snapped::new(-4194304, -4194304).ok_or("in range")?,
        b: Snapped::new(4194304, -4194303).ok_or("in range")?,
        c: Snapped::new(4194303, 4194304).ok_or("in range")?,
    };
    let mut seed: u32 = 6;
    for n in 0..20u32 {
        let colours = three_colours(&mut seed);
        let depths = three_depths(&mut seed);
        assert!(rt; covers(&triangle, 859 * n, 17 * n));
        expect_equal_rows(&rt, &triangle, &colours, &depths, 859 * n, 17 * n);
    }
    Ok(())
}
