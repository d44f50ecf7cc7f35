ghost use Rattle.std.specs.Prelude.{◌≡◌, ◌+◌, ◌-◌, ◌*◌, ◌^◌, ◌<◌, ◌≤◌, length, drop, slice_index_or, replicate, Some, None, IfSome, ℕ, ◌≢◌, true, false};
ghost use Rattle.std.specs.Prelude.{if◌then◌else◌};
ghost use Rattle.fd_snap.specs.Limits.{most_pixels};
ghost use Rattle.fd_blend.specs.Channel.{fresh};
ghost use Rattle.fd_tile.specs.Place.{IsTilePlace};
ghost use Rattle.fd_undo.specs.Packed.{unmarked, len_of, rows_of_len};
ghost use Rattle.fd_undo.specs.Span.{IsGrown, IsRowOf, IsSpanOf};
ghost use Rattle.fd_undo.specs.Rows.{no_span, span_holds, row_colours, listed_colours, colours_in, depths_listed, row_depths, listed_depths, depths_in};

use fd_blend::Colour;
use fd_tile::Place;
use std::marker::Model;

/// Added to a span's row where each pixel of a row has a colour in the stack's list, and to its length where each has a depth there.
const LISTED: u16 = 1 << 15;

/// A length above this one is that of several rows: 32 more for each row but the first, and the pixels of a row but one.
const LONGEST: u16 = 1 << 14;

/// Neighbouring pixels of a row, and those right below them in more rows. Their colours stand in the stack's list: one for all, or one for each, row after
/// row. Their one depth is here, or their depths stand in another list.
#[derive(Clone, Copy)]
pub(crate) struct Span {
    x: u16,
    // a whole stack has one for each row that was drawn, so it is kept small
    marked_y: u16,
    marked_len: u16,
    depth: u16,
}

impl Model for Span {
    ghost use Rattle.fd_undo.specs.Span.{Span, span_code};

    ghost Value = { Span };

    ghost coded = { span_code };

    ghost use Rattle.fd_undo.specs.Packed.{unpacked, packed, packed_again, IsPacked};

    ghost view = { unpacked };

    ghost invariant = { IsPacked };

    ghost inverse = { packed };

    ghost inverse_ok = { packed_again };
}

impl Default for Span {
    /// A span without pixels.
    fn default() -> Span {
        Span {
            x: 0,
            marked_y: 0,
            marked_len: 0,
            depth: 0,
        }
    }
}

impl Span {
    /// The span that begins at pixel (x, y), with a length without its mark. With one colour for all it has one in the stack's list, and else as many as it
    /// has pixels; without one depth for all it has as many of them.
    fn marked(x: u32, y: u32, len: u16, one_colour: bool, same_depth: Option<u16>) -> Span
        requires right { x ≤ most_pixels }
        requires bottom { y ≤ most_pixels }
        requires unmarked { len < 2 ^ 15 }
        requires several { 16384 < len → 16416 ≤ len }
        ensures { result ≡ record { x = x; y = y; len = len_of len; rows = rows_of_len len; one_colour = one_colour; same_depth = same_depth } }
    {
        let colour_mark = if one_colour { 0 } else { LISTED };
        let (depth_mark, depth) = match same_depth {
            Some(depth) => (0, depth),
            None => (LISTED, 0),
        };
        Span {
            x: x as u16,
            marked_y: y as u16 + colour_mark,
            marked_len: len + depth_mark,
            depth,
        }
    }

    /// The span of row y from column x on.
    fn new(x: u32, y: u32, len: usize, one_colour: bool, same_depth: Option<u16>) -> Span
        requires right { x + len ≤ most_pixels }
        requires bottom { y ≤ most_pixels }
        ensures { result ≡ record { x = x; y = y; len = len; rows = 1; one_colour = one_colour; same_depth = same_depth } }
    {
        Span::marked(x, y, len as u16, one_colour, same_depth)
    }

    /// The span of row y from column x on with these colours and depths, where it may be known that all depths are this one.
    pub(crate) fn of(x: u32, y: u32, old: &[Colour], depths: &[u16], known: Option<u16>) -> Span
        requires equal { length depths.now ≡ length old.now }
        requires right { x + length old.now ≤ most_pixels }
        requires bottom { y ≤ most_pixels }
        requires known { IfSome known (λ depth. depths.now ≡ replicate (length depths.now) depth) }
        ensures column { result.x ≡ x }
        ensures row { result.y ≡ y }
        ensures values { IsRowOf old.now depths.now result }
    {
        let (one_colour, same_depth) = (is_one_colour(old), known_depth(depths, known));
        Span::new(x, y, old.len(), one_colour, same_depth)
    }

    /// The span of a whole place.
    pub(crate) fn whole(place: Place, one_colour: bool, same_depth: Option<u16>) -> Span
        requires { IsTilePlace place }
        ensures { result ≡ record { x = place.left; y = place.top; len = place.width; rows = place.height; one_colour = one_colour; same_depth = same_depth } }
    {
        let (len, rows) = (place.width as u16, place.height as u16);
        let packed_len = if rows == 1 {
            len
        } else {
            LONGEST + 32 * (rows - 1) + (len - 1)
        };
        Span::marked(place.left, place.top, packed_len, one_colour, same_depth)
    }

    /// The span of a place with these colours and depths, which stand row after row, where it may be known that all depths are this one.
    pub(crate) fn of_place(place: Place, old: &[Colour], depths: &[u16], known: Option<u16>) -> Span
        requires placed { IsTilePlace place }
        requires counted { length old.now ≡ place.height * place.width }
        requires equal { length depths.now ≡ length old.now }
        requires known { IfSome known (λ depth. depths.now ≡ replicate (length depths.now) depth) }
        ensures { IsSpanOf place old.now depths.now result }
    {
        let (one_colour, same_depth) = (is_one_colour(old), known_depth(depths, known));
        Span::whole(place, one_colour, same_depth)
    }

    /// The column of its first pixel.
    pub(crate) fn x(&self) -> u32
        ensures { result ≡ self.now.x }
    {
        self.x as u32
    }

    /// Its first row.
    pub(crate) fn y(&self) -> u32
        ensures { result ≡ self.now.y }
    {
        unmarked(self.marked_y) as u32
    }

    /// How many pixels it has of each row.
    pub(crate) fn len(&self) -> usize
        ensures value { result ≡ self.now.len }
        ensures small { result < 2 ^ 16 }
    {
        len_of(unmarked(self.marked_len)) as usize
    }

    /// How many rows it has.
    pub(crate) fn rows(&self) -> u32
        ensures value { result ≡ self.now.rows }
        ensures some { 1 ≤ result }
    {
        rows_of_len(unmarked(self.marked_len)) as u32
    }

    /// The row below its last one.
    pub(crate) fn bottom(&self) -> u32
        ensures { result ≡ self.now.y + self.now.rows }
    {
        unmarked(self.marked_y) as u32 + rows_of_len(unmarked(self.marked_len)) as u32
    }

    /// How many pixels it has.
    pub(crate) fn pixels(&self) -> usize
        ensures { result ≡ self.now.rows * self.now.len }
    {
        let len = unmarked(self.marked_len);
        rows_of_len(len) as usize * len_of(len) as usize
    }

    /// This span with one row more, where that lies right below its own ones, is as long, and has its values listed as they have.
    pub(crate) fn with_row(&self, row: &Span) -> Option<Span>
        ensures { IfSome result (λ grown. IsGrown self.now row.now grown) }
    {
        if self.x != row.x {
            return None;
        }
        let plain = unmarked(self.marked_len);
        // of a span of one row the packed length is that of the row
        if plain <= LONGEST && self.marked_len != row.marked_len {
            return None;
        }
        let (len, rows) = (len_of(plain), rows_of_len(plain));
        if row.len() != len as usize || len < 1 || len > 32 || rows > 31 {
            return None;
        }
        if self.bottom() != row.y() || self.one_colour() != row.one_colour() {
            return None;
        }
        if self.same_depth() != row.same_depth() {
            return None;
        }
        Some(Span {
            marked_len: (self.marked_len - plain) + (LONGEST + 32 * rows + (len - 1)),
            ..*self
        })
    }

    /// Whether one colour in the stack's list is that of all pixels.
    pub(crate) fn one_colour(&self) -> bool
        ensures { result ≡ self.now.one_colour }
    {
        self.marked_y < LISTED
    }

    /// The depth of all pixels. Where it is `None` their depths stand in the stack's list.
    pub(crate) fn same_depth(&self) -> Option<u16>
        ensures { result ≡ self.now.same_depth }
    {
        (self.marked_len < LISTED).then_some(self.depth)
    }

    /// Whether pixel (x, y) is one of the span's.
    pub(crate) fn holds(&self, x: u32, y: u32) -> bool
        ensures { result ≡ span_holds self.now x y }
    {
        let left = self.x();
        self.y() <= y && y < self.bottom() && left <= x && ((x - left) as usize) < self.len()
    }

    /// How many colours of the stack's list are the span's.
    pub(crate) fn listed_colours(&self) -> usize
        ensures { result ≡ listed_colours self.now }
    {
        if self.one_colour() { 1 } else { self.pixels() }
    }

    /// How many depths of the stack's list are the span's.
    pub(crate) fn listed_depths(&self) -> usize
        ensures { result ≡ listed_depths self.now }
    {
        match self.same_depth() {
            Some(_) => 0,
            None => self.pixels(),
        }
    }

    /// How many colours in the list are those of one row more: none where it has the colour of all.
    pub(crate) fn more_colours(&self) -> usize
        ensures { result ≡ (if self.now.one_colour then 0 else self.now.len) }
    {
        if self.one_colour() { 0 } else { self.len() }
    }

    /// How many colours in the list are those of the rows above this one, from 0.
    pub(crate) fn colours_above(&self, row: u32) -> usize
        requires { row < self.now.rows }
        ensures value { result ≡ (if self.now.one_colour then 0 else row * self.now.len) }
        ensures behind { result + row_colours self.now ≤ listed_colours self.now }
    {
        if self.one_colour() {
            0
        } else {
            row as usize * self.len()
        }
    }

    /// The same of depths.
    pub(crate) fn depths_above(&self, row: u32) -> usize
        requires { row < self.now.rows }
        ensures value { result ≡ depths_listed self.now.same_depth (row * self.now.len) }
        ensures behind { result + row_depths self.now ≤ listed_depths self.now }
    {
        match self.same_depth() {
            Some(_) => 0,
            None => row as usize * self.len(),
        }
    }

    /// The colour of the pixel in this column, from 0, of a row whose colours in the list stand from `first` on.
    pub(crate) fn colour(&self, colours: &[Colour], first: usize, column: usize) -> Colour
        requires within { column < self.now.len }
        requires listed { first + row_colours self.now ≤ length colours.now }
        ensures { result ≡ slice_index_or (colours_in self.now (drop first colours.now)) column fresh }
    {
        if self.one_colour() {
            colours[first]
        } else {
            colours[first + column]
        }
    }

    /// The depth of the pixel in this column, from 0, of a row whose depths in the list stand from `first` on.
    pub(crate) fn depth(&self, depths: &[u16], first: usize, column: usize) -> u16
        requires within { column < self.now.len }
        requires listed { first + row_depths self.now ≤ length depths.now }
        ensures { result ≡ slice_index_or (depths_in self.now (drop first depths.now)) column 65535 }
    {
        match self.same_depth() {
            Some(depth) => depth,
            None => depths[first + column],
        }
    }
}

/// The last of some spans.
pub(crate) fn last_of(spans: &[Span]) -> Span
    requires { 0 < length spans.now }
    ensures { result ≡ slice_index_or spans.now (length spans.now - 1) no_span }
{
    spans[spans.len() - 1]
}

/// A row or a length without its mark.
fn unmarked(number: u16) -> u16
    ensures { result ≡ unmarked number }
{
    if number < LISTED {
        number
    } else {
        number - LISTED
    }
}

/// How many pixels of each row a length without its mark says.
fn len_of(len: u16) -> u16
    ensures { result ≡ len_of len }
{
    if len > LONGEST {
        (len - LONGEST) % 32 + 1
    } else {
        len
    }
}

/// How many rows a length without its mark says.
fn rows_of_len(len: u16) -> u16
    ensures { result ≡ rows_of_len len }
{
    if len > LONGEST {
        (len - LONGEST) / 32 + 1
    } else {
        1
    }
}

/// Whether all of these are one colour, and there are any.
fn is_one_colour(colours: &[Colour]) -> bool
    ensures alike { result ≡ true → (0 < length colours.now) × (colours.now ≡ replicate (length colours.now) (slice_index_or colours.now 0 fresh)) }
    ensures unlike { result ≡ false → 0 < length colours.now → (colour : Colour) → colours.now ≢ replicate (length colours.now) colour }
{
    let Some(&first) = colours.first() else {
        return false;
    };
    let mut same = true;
    // without an early end, so that many are compared at once
    for colour in colours {
        same &= colour.is_same(first);
    }
    same
}

/// The depth that all of these are, if they are all alike.
fn same_depth(depths: &[u16]) -> Option<u16>
    ensures alike { IfSome result (λ depth. depths.now ≡ replicate (length depths.now) depth) }
    ensures unlike { result ≡ None → (depth : ℕ) → depths.now ≢ replicate (length depths.now) depth }
{
    let first = depths.first().copied().unwrap_or_default();
    let mut same = true;
    // without an early end, so that many are compared at once
    for depth in depths {
        same &= *depth == first;
    }
    same.then_some(first)
}

/// The same where it may be known already, and then nothing is looked at.
fn known_depth(depths: &[u16], known: Option<u16>) -> Option<u16>
    requires { IfSome known (λ depth. depths.now ≡ replicate (length depths.now) depth) }
    ensures alike { IfSome result (λ depth. depths.now ≡ replicate (length depths.now) depth) }
    ensures unlike { result ≡ None → (depth : ℕ) → depths.now ≢ replicate (length depths.now) depth }
{
    match known {
        Some(depth) => Some(depth),
        None => same_depth(depths),
    }
}
