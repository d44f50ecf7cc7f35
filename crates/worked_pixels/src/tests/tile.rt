ghost use Rattle.fd_tile.specs.Place.{HasRow};
ghost use Rattle.std.specs.Prelude.{IsTrue};

use fd_blend::Colour;
use fd_tile::{Grid, Place, Tile};
use std::process::Abort;
use std::test::Fail;

const NOTHING: Colour = Colour {
    r: 0,
    g: 0,
    b: 0,
    a: 0,
};

const RED: Colour = Colour {
    r: 255,
    g: 0,
    b: 0,
    a: 255,
};

/// Checks the colour and the depth of a pixel.
fn expect_pixel(
    rt: &impl Abort,
    tile: &Tile,
    at: (u32, u32),
    colour: Colour,
    depth: u16,
) -> Result<(), Fail> {
    let (x, y) = at;
    if !tile.place().holds(x, y) {
        return Err("a pixel of the tile".into());
    }
    assert_eq!(rt;
        (tile.get(x, y), tile.depth(x, y)),
        (colour, depth),
        "{x} {y}"
    );
    Ok(())
}

/// Whether a tile has a row.
fn has_row(tile: &Tile, y: u32) -> bool
    ensures { IsTrue result → HasRow tile.now.place y }
{
    let place = tile.place();
    place.top <= y && y - place.top < place.height
}

/// Checks the colours of a row that is five pixels wide, from each of its columns on.
fn expect_row(rt: &impl Abort, tile: &Tile, y: u32, colours: &[Colour; 5]) -> Result<(), Fail> {
    for column in 0..5 {
        let x = tile.place().left.saturating_add(column);
        if !tile.place().holds(x, y) {
            return Err("a pixel of the tile".into());
        }
        assert_eq!(rt;
            tile.row_from(x, y).as_slice(),
            &colours[column as usize..],
            "row {y} from {x}"
        );
    }
    Ok(())
}

/// Gives a pixel of a tile that is made a colour.
fn colour_pixel(tile: &mut Tile, at: (u32, u32), colour: Colour) -> Result<(), Fail> {
    let (x, y) = at;
    if !tile.is_made() || !tile.place().holds(x, y) {
        return Err("a pixel of the tile".into());
    }
    tile.set(x, y, colour);
    Ok(())
}

/// Gives such a pixel a depth, of a tile that is deep.
fn sink_pixel(tile: &mut Tile, at: (u32, u32), depth: u16) -> Result<(), Fail> {
    let (x, y) = at;
    if !tile.is_made() || !tile.is_deep() || !tile.place().holds(x, y) {
        return Err("a pixel of the tile".into());
    }
    tile.set_depth(x, y, depth);
    Ok(())
}

/// Gives the last pixel of a row of such a tile a colour, and a depth if there is one, by what is lent of it.
fn end_row(tile: &mut Tile, y: u32, colour: Colour, depth: Option<u16>) -> Result<(), Fail> {
    if !tile.is_made() || !tile.is_deep() || !has_row(tile, y) {
        return Err("a row of the tile".into());
    }
    if let Some(last) = tile.row_mut(y).last_mut() {
        *last = colour;
    }
    if let Some(depth) = depth {
        if let Some(last) = tile.depth_row_mut(y).last_mut() {
            *last = depth;
        }
    }
    Ok(())
}

const UPPER_RIGHT: Place = Place {
    left: 64,
    top: 32,
    width: 32,
    height: 7,
};

#[test]
fn a_fresh_tile_has_no_colour_and_is_deep(rt: HostRuntime) -> Result<(), Fail> {
    let tile = Tile::fresh(rt.alloc(), UPPER_RIGHT)?;
    assert_eq!(rt; tile.place(), UPPER_RIGHT);
    for y in 32..39 {
        for x in 64..96 {
            expect_pixel(&rt, &tile, (x, y), NOTHING, 65535)?;
        }
    }
    Ok(())
}

#[test]
fn a_pixel_is_written_alone(rt: HostRuntime) -> Result<(), Fail> {
    let mut tile = Tile::fresh(rt.alloc(), UPPER_RIGHT)?;
    colour_pixel(&mut tile, (65, 38), RED)?;
    expect_pixel(&rt, &tile, (66, 38), NOTHING, 65535)?;
    expect_pixel(&rt, &tile, (65, 37), NOTHING, 65535)?;
    end_row(&mut tile, 37, RED, None)?;
    expect_pixel(&rt, &tile, (95, 37), RED, 65535)?;
    assert_eq!(rt; tile.flat_depth(), Some(65535));
    sink_pixel(&mut tile, (65, 38), 1000)?;
    assert_eq!(rt; tile.flat_depth(), None);
    expect_pixel(&rt, &tile, (66, 38), NOTHING, 65535)?;
    expect_pixel(&rt, &tile, (65, 37), NOTHING, 65535)?;
    end_row(&mut tile, 37, RED, Some(0))?;
    expect_pixel(&rt, &tile, (95, 37), RED, 0)?;
    expect_pixel(&rt, &tile, (65, 38), RED, 1000)?;
    expect_pixel(&rt, &tile, (94, 37), NOTHING, 65535)
}

const SMALL: Place = Place {
    left: 32,
    top: 64,
    width: 5,
    height: 4,
};

#[test]
fn a_blank_tile_is_alike_until_it_is_made(rt: HostRuntime) -> Result<(), Fail> {
    let mut tile = Tile::blank(rt.alloc(), SMALL);
    assert!(rt; !tile.is_made());
    expect_pixel(&rt, &tile, (36, 67), NOTHING, 65535)?;
    assert!(rt; !tile.is_deep());
    tile.fill_colours(RED);
    tile.deepen()?;
    tile.fill_depths(7);
    expect_row(&rt, &tile, 66, &[RED; 5])?;
    assert_eq!(rt; tile.flat_colour(), Some(RED));
    expect_pixel(&rt, &tile, (32, 64), RED, 7)?;
    tile.make()?;
    assert!(rt; tile.is_made());
    expect_row(&rt, &tile, 64, &[RED; 5])?;
    for x in 32..37 {
        expect_pixel(&rt, &tile, (x, 67), RED, 7)?;
    }
    assert_eq!(rt; tile.flat_colour(), Some(RED));
    colour_pixel(&mut tile, (33, 65), NOTHING)?;
    expect_row(&rt, &tile, 65, &[RED, NOTHING, RED, RED, RED])
}

/// Before a tile is deep its depths are the greatest, and none other is written.
#[test]
fn a_tile_is_deep_when_depths_are_written(rt: HostRuntime) -> Result<(), Fail> {
    let mut tile = Tile::blank(rt.alloc(), SMALL);
    tile.make()?;
    tile.fill_depths(65535);
    assert!(rt; !tile.is_deep());
    assert_eq!(rt; tile.depth_row(67), [65535; 5].as_slice());
    assert_eq!(rt; tile.depth_rows(65, 2), [65535; 10].as_slice());
    tile.deepen()?;
    assert!(rt; tile.is_deep());
    assert_eq!(rt; tile.flat_depth(), Some(65535));
    sink_pixel(&mut tile, (33, 65), 7)?;
    expect_pixel(&rt, &tile, (33, 65), NOTHING, 7)?;
    expect_pixel(&rt, &tile, (34, 65), NOTHING, 65535)?;
    tile.renew();
    assert!(rt; !tile.is_deep());
    expect_pixel(&rt, &tile, (33, 65), NOTHING, 65535)
}

#[test]
fn a_made_tile_is_alike_until_it_is_drawn_on(rt: HostRuntime) -> Result<(), Fail> {
    let mut tile = Tile::fresh(rt.alloc(), SMALL)?;
    tile.fill_colours(RED);
    colour_pixel(&mut tile, (33, 65), NOTHING)?;
    assert_eq!(rt; tile.flat_colour(), None);
    expect_row(&rt, &tile, 65, &[RED, NOTHING, RED, RED, RED])?;
    tile.fill_colours(NOTHING);
    tile.deepen()?;
    tile.fill_depths(9);
    expect_row(&rt, &tile, 66, &[NOTHING; 5])?;
    expect_pixel(&rt, &tile, (36, 67), NOTHING, 9)?;
    assert_eq!(rt; tile.flat_depth(), Some(9));
    Ok(())
}

#[test]
fn several_rows_are_put_at_once(rt: HostRuntime) -> Result<(), Fail> {
    let mut tile = Tile::fresh(rt.alloc(), SMALL)?;
    let mut colours = [RED; 10];
    colours[7] = NOTHING;
    tile.put_rows(65, 2, &colours);
    tile.put_rows(68, 0, &[]);
    expect_row(&rt, &tile, 64, &[NOTHING; 5])?;
    expect_row(&rt, &tile, 65, &[RED; 5])?;
    expect_row(&rt, &tile, 66, &[RED, RED, NOTHING, RED, RED])?;
    expect_row(&rt, &tile, 67, &[NOTHING; 5])?;
    assert_eq!(rt; tile.flat_depth(), Some(65535));
    Ok(())
}

/// Checks where a tile of a grid lies, where there is such a tile.
fn expect_place(rt: &impl Abort, grid: &Grid, tile: usize, place: Place) -> Result<(), Fail> {
    if tile >= grid.count() {
        return Err("a tile of the grid".into());
    }
    assert_eq!(rt; grid.place(tile), place, "tile {tile}");
    Ok(())
}

#[test]
fn borders_cut_the_last_tiles(rt: HostRuntime) -> Result<(), Fail> {
    let Some(grid) = Grid::new(70, 33) else {
        return Err(Fail::from("a refused size"));
    };
    assert_eq!(rt; grid.count(), 6);
    let first = Place {
        left: 0,
        top: 0,
        width: 32,
        height: 32,
    };
    let last = Place {
        left: 64,
        top: 32,
        width: 6,
        height: 1,
    };
    expect_place(&rt, &grid, 0, first)?;
    expect_place(&rt, &grid, 5, last)?;
    assert_eq!(rt; grid.tile_of(63, 31), 1);
    assert_eq!(rt; grid.tile_of(64, 32), 5);
    assert!(rt; Grid::new(16384, 1).is_some());
    assert!(rt; Grid::new(1, 16385).is_none());
    assert!(rt; Grid::new(0, 1).is_none());
    Ok(())
}
