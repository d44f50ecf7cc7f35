use fd_blend::{
    BlendFault, BlendOp, BlendState, Brush, Colour, Factor, Mask, Part, blend, blend_row,
};
use std::process::Abort;
use std::test::Fail;

mod table;

const FACTORS: [Factor; 12] = [
    Factor::Zero,
    Factor::One,
    Factor::SrcColor,
    Factor::InvSrcColor,
    Factor::SrcAlpha,
    Factor::InvSrcAlpha,
    Factor::DestAlpha,
    Factor::InvDestAlpha,
    Factor::DestColor,
    Factor::InvDestColor,
    Factor::BlendFactor,
    Factor::InvBlendFactor,
];

const OPERATIONS: [BlendOp; 5] = [
    BlendOp::Add,
    BlendOp::Subtract,
    BlendOp::RevSubtract,
    BlendOp::Min,
    BlendOp::Max,
];

const CORNERS: [u8; 6] = [0, 1, 127, 128, 254, 255];

const WHITE: Colour = Colour {
    r: 255,
    g: 255,
    b: 255,
    a: 255,
};

/// The part that leaves the source.
const COPY: Part = Part {
    src: Factor::One,
    dst: Factor::Zero,
    op: BlendOp::Add,
};

fn colour(r: u8, g: u8, b: u8, a: u8) -> Colour {
    Colour { r, g, b, a }
}

fn part(src: Factor, dst: Factor, op: BlendOp) -> Part {
    Part { src, dst, op }
}

fn state(rgb: Part, alpha: Part, mask: u8) -> Result<BlendState, Fail> {
    let mask = Mask::from_bits(mask).ok_or("no mask")?;
    Ok(BlendState::new(true, rgb, alpha, mask)?)
}

/// A part for all four channels, or for the colour channels alone where the alpha part refuses it.
fn everywhere(part: Part) -> Result<BlendState, Fail> {
    let mask = Mask::from_bits(15).ok_or("no mask")?;
    match BlendState::new(true, part, part, mask) {
        Ok(state) => Ok(state),
        Err(BlendFault::ColourFactorInAlpha) => Ok(BlendState::new(true, part, COPY, mask)?),
    }
}

#[test]
fn half_transparent_red_over_blue(rt: HostRuntime) -> Result<(), Fail> {
    let over = state(
        part(Factor::SrcAlpha, Factor::InvSrcAlpha, BlendOp::Add),
        COPY,
        15,
    )?;
    let blue = colour(0, 0, 255, 255);
    assert_eq!(rt;
        blend(&over, WHITE, colour(255, 0, 0, 128), blue),
        colour(128, 0, 127, 128)
    );
    assert_eq!(rt;
        blend(&over, WHITE, colour(254, 1, 255, 128), blue),
        colour(127, 1, 255, 128)
    );
    Ok(())
}

#[test]
fn sums_clamp_at_both_ends(rt: HostRuntime) -> Result<(), Fail> {
    let source = colour(200, 200, 200, 200);
    let destination = colour(100, 100, 100, 100);
    for (factor, op, expected) in [
        (Factor::One, BlendOp::Add, 255),
        (Factor::One, BlendOp::RevSubtract, 0),
        (Factor::One, BlendOp::Subtract, 100),
        (Factor::Zero, BlendOp::Min, 100),
        (Factor::Zero, BlendOp::Max, 200),
    ] {
        let state = everywhere(part(factor, factor, op))?;
        assert_eq!(rt;
            blend(&state, WHITE, source, destination),
            colour(expected, expected, expected, expected)
        );
    }
    Ok(())
}

#[test]
fn blend_factor_and_its_inverse(rt: HostRuntime) -> Result<(), Fail> {
    let rgb = part(Factor::BlendFactor, Factor::Zero, BlendOp::Add);
    let alpha = part(Factor::InvBlendFactor, Factor::Zero, BlendOp::Add);
    let factor = colour(128, 0, 255, 127);
    let src = colour(200, 200, 200, 200);
    let dst = colour(9, 9, 9, 9);
    assert_eq!(rt;
        blend(&state(rgb, alpha, 15)?, factor, src, dst),
        colour(100, 0, 200, 100)
    );
    assert_eq!(rt;
        blend(&state(rgb, alpha, 6)?, factor, src, dst),
        colour(9, 0, 200, 9)
    );
    Ok(())
}

#[test]
fn a_colour_factor_is_refused_in_the_alpha_part_alone(rt: HostRuntime) {
    let minimum = part(Factor::SrcColor, Factor::Zero, BlendOp::Min);
    assert_eq!(rt;
        BlendState::new(false, COPY, minimum, Mask::RED),
        Err(BlendFault::ColourFactorInAlpha)
    );
    assert!(rt; BlendState::new(false, minimum, COPY, Mask::RED).is_ok());
    assert_eq!(rt; Mask::from_bits(16), None);
    assert!(rt; Mask::from_bits(15).is_some());
}

/// A byte that is different at most places.
fn byte(place: usize, step: usize) -> u8 {
    (place.wrapping_mul(step) % 256) as u8
}

/// Rows of all lengths that a pair of pixels, a tile's row and its neighbours make, against the blends of their places.
fn expect_equal_row(
    rt: &impl Abort,
    state: &BlendState,
    factor: Colour,
    src: &[Colour; 65],
    before: &[Colour; 65],
) {
    for len in [0, 1, 7, 31, 32, 33, 65] {
        let mut dst = *before;
        blend_row(state, factor, &src[..len], &mut dst[..len]);
        for place in 0..65 {
            let expected = if place < len {
                blend(state, factor, src[place], before[place])
            } else {
                before[place]
            };
            assert_eq!(rt; dst[place], expected, "at {place} of {len}");
        }
    }
}

#[test]
fn blend_row_equals_blend(rt: HostRuntime) -> Result<(), Fail> {
    let factor = colour(128, 0, 255, 77);
    let mut src = [WHITE; 65];
    let mut before = [WHITE; 65];
    for place in 0..65 {
        src[place] = colour(
            byte(place, 37),
            byte(place, 101),
            byte(place, 5),
            byte(place, 77),
        );
        before[place] = colour(
            byte(place, 59),
            byte(place, 3),
            byte(place, 91),
            byte(place, 113),
        );
    }
    for op in OPERATIONS {
        let rgb = part(Factor::SrcAlpha, Factor::InvDestColor, op);
        let alpha = part(Factor::InvBlendFactor, Factor::DestAlpha, op);
        for (enable, mask) in [(true, 15), (true, 10), (false, 15), (false, 5)] {
            let mask = Mask::from_bits(mask).ok_or("no mask")?;
            let state = BlendState::new(enable, rgb, alpha, mask)?;
            expect_equal_row(&rt, &state, factor, &src, &before);
        }
    }
    Ok(())
}

/// One source over rows of several lengths, against its blends with their pixels.
fn expect_brushed_row(rt: &impl Abort, state: &BlendState, source: Colour, before: &[Colour; 33]) {
    let factor = colour(128, 0, 255, 77);
    let brush = Brush::of(state, factor, source);
    for len in [0, 1, 2, 31, 32] {
        let mut dst = *before;
        brush.draw(&mut dst[..len]);
        for place in 0..33 {
            let expected = if place < len {
                blend(state, factor, source, before[place])
            } else {
                before[place]
            };
            assert_eq!(rt; dst[place], expected, "at {place} of {len}");
        }
    }
}

#[test]
fn a_brush_equals_blend(rt: HostRuntime) -> Result<(), Fail> {
    let mut before = [WHITE; 33];
    for place in 0..33 {
        before[place] = colour(
            byte(place, 59),
            byte(place, 3),
            byte(place, 91),
            byte(place, 113),
        );
    }
    let over = part(Factor::SrcAlpha, Factor::InvSrcAlpha, BlendOp::Add);
    let added = part(Factor::One, Factor::One, BlendOp::Add);
    let seen = part(Factor::DestAlpha, Factor::Zero, BlendOp::Add);
    let less = part(Factor::BlendFactor, Factor::One, BlendOp::RevSubtract);
    for (rgb, alpha) in [(over, added), (added, over), (over, seen), (less, added)] {
        for (enable, mask) in [(true, 15), (true, 10), (false, 15), (false, 5)] {
            let mask = Mask::from_bits(mask).ok_or("no mask")?;
            let state = BlendState::new(enable, rgb, alpha, mask)?;
            expect_brushed_row(&rt, &state, colour(200, 100, 255, 77), &before);
        }
    }
    Ok(())
}

/// The red of a blend in which the channels of each colour are alike.
fn red_at(part: Part, point: &[u8; 5]) -> Result<u8, Fail> {
    let [s, src_alpha, d, dst_alpha, f] = *point;
    let state = everywhere(part)?;
    let src = colour(s, s, s, src_alpha);
    let dst = colour(d, d, d, dst_alpha);
    Ok(blend(&state, colour(f, f, f, 255 - f), src, dst).r)
}

#[test]
fn each_factor_pair_at_six_points(rt: HostRuntime) -> Result<(), Fail> {
    let mut rows = table::VALUES.iter();
    for src in FACTORS {
        for dst in FACTORS {
            let row = rows.next().ok_or("a row for each pair")?;
            for (place, point) in table::POINTS.iter().enumerate() {
                assert_eq!(rt; red_at(part(src, dst, BlendOp::Add), point)?, row[place]);
                assert_eq!(rt;
                    red_at(part(src, dst, BlendOp::Subtract), point)?,
                    row[6 + place]
                );
                assert_eq!(rt;
                    red_at(part(src, dst, BlendOp::RevSubtract), point)?,
                    row[12 + place]
                );
                assert_eq!(rt;
                    red_at(part(src, dst, BlendOp::Min), point)?,
                    table::MIN[place]
                );
                assert_eq!(rt;
                    red_at(part(src, dst, BlendOp::Max), point)?,
                    table::MAX[place]
                );
            }
        }
    }
    Ok(())
}

/// FNV-1a of 32 bits, one byte further.
fn digested(digest: u32, byte: u8) -> u32 {
    (digest ^ u32::from(byte)).wrapping_mul(16777619)
}

/// The digest of red and alpha over the whole grid of the corners.
fn grid_digest(state: &BlendState) -> u32 {
    let mut digest = 2166136261;
    for s in CORNERS {
        for src_alpha in CORNERS {
            for d in CORNERS {
                for dst_alpha in CORNERS {
                    for f in CORNERS {
                        let src = colour(s, s, s, src_alpha);
                        let dst = colour(d, d, d, dst_alpha);
                        let result = blend(state, colour(f, f, f, 255 - f), src, dst);
                        digest = digested(digested(digest, result.r), result.a);
                    }
                }
            }
        }
    }
    digest
}

#[test]
fn each_factor_pair_and_operation_over_the_grid_of_corners(rt: HostRuntime) -> Result<(), Fail> {
    let mut digests = table::DIGESTS.iter();
    for src in FACTORS {
        for dst in FACTORS {
            for op in OPERATIONS {
                let state = everywhere(part(src, dst, op))?;
                let expected = digests
                    .next()
                    .ok_or("a digest for each pair and operation")?;
                assert_eq!(rt; grid_digest(&state), *expected, "{src:?} {dst:?} {op:?}");
            }
        }
    }
    Ok(())
}
