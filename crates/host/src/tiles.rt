// A host that reads a tile's heights as a text: decimals in rows.
ghost use Rattle.std.specs.Prelude.{◌≡◌, ℕ, ◌+◌, ◌^◌, ◌<◌, [], length, if◌then◌else◌, Some, None, nat_le};
ghost use Rattle.host.specs.Stream.{front, piece_text, separator_at};

use crate::NEWLINE;
use crate::source::Source;
use crate::text::TextHost;

const COMMA: u32 = ',' as u32;

// A tile of more heights is read as empty.
const MOST_HEIGHTS: usize = 4_294_967_296;

pub type TileHost<'t, 'o> = TextHost<'o, TileSource<'t>>;

impl<'t, 'o> TileHost<'t, 'o> {
    ghost use Rattle.host.specs.Host.{written, room};
    ghost use Rattle.host.specs.Tile.{tile_text};
    ghost use Rattle.host.specs.Tiles.{left};

    pub fn new(heights: &'t [i16], width: usize, out: &'o mut [u32]) -> TileHost<'t, 'o>
        ensures left { left result ≡ (if nat_le (length heights.now) (2 ^ 32) then tile_text width heights.now else []) }
        ensures written { written result ≡ [] }
        ensures room { room result ≡ length out.old }
        ensures out { result.out.buffer.now ≡ out.old }
    {
        TextHost::over(TileSource::new(heights, width), out)
    }
}

#[derive(Drop)]
pub struct TileSource<'t> {
    pieces: Pieces<'t>,
}

impl<'t> TileSource<'t> {
    ghost use Rattle.host.specs.Pieces.{unread};
    ghost use Rattle.host.specs.Tile.{tile_text};

    fn new(heights: &'t [i16], width: usize) -> TileSource<'t>
        ensures { unread result.pieces ≡ (if nat_le (length heights.now) (2 ^ 32) then tile_text width heights.now else []) }
    {
        let heights = if heights.len() <= MOST_HEIGHTS {
            heights
        } else {
            &[]
        };
        TileSource {
            pieces: Pieces {
                heights,
                width,
                index: 0,
                taken: 0,
            },
        }
    }
}

impl Source for TileSource<'_> {
    ghost use Rattle.host.specs.Pieces as pieces;

    ghost unread = { λ s. pieces.unread s.pieces };

    fn ahead(&self, i: usize) -> Option<u32> {
        let mut rest = i;
        for piece in self.pieces {
            let unread = piece.length();
            if rest < unread {
                return piece.character(rest);
            }
            rest -= unread;
        }
        None
    }

    fn take(&mut self) -> Option<u32> {
        let mut behind = self.pieces;
        let piece = behind.next()?;
        let c = piece.character(0);
        if piece.length() > 1 {
            self.pieces.taken += 1;
        } else {
            self.pieces = behind;
        }
        c
    }

    // Goes from height to height, and not from character to character.
    fn row_within(&self, most: usize) -> Option<usize> {
        let mut length = 0;
        for piece in self.pieces {
            let unread = piece.length();
            if piece.ends_row() {
                return sum_within(length, unread - 1, most);
            }
            length = sum_within(length, unread, most)?;
        }
        Some(length)
    }
}

// The sum of a and b, if it is at most `most`.
fn sum_within(a: usize, b: usize, most: usize) -> Option<usize>
    ensures { result ≡ (if nat_le (a + b) most then Some (a + b) else None) }
{
    a.checked_add(b).filter(|sum| *sum <= most)
}

// The pieces of a tile's text of which something is unread: each is a height with what stands behind it.
#[derive(Clone, Copy, Drop)]
struct Pieces<'t> {
    heights: &'t [i16],
    width: usize,
    // the index in the tile of the first of these heights
    index: usize,
    // how many characters of its piece are read
    taken: usize,
    ghost bounded: { index + length heights.now < 2 ^ 63 },
    ghost unread: { 0 < length heights.now → 0 < length (front width index taken heights.now) },
}

impl Iterator for Pieces<'_> {
    ghost use Rattle.std.specs.Iterator.{at_most};
    ghost use Rattle.host.specs.Pieces.{gives};

    type Item = Piece;

    ghost next_gives = { gives };

    ghost remaining = { λ s. at_most (length s.heights.now) };

    fn next(&mut self) -> Option<Piece> {
        let (height, rest) = self.heights.split_first()?;
        let piece = Piece {
            height: *height,
            width: self.width,
            index: self.index,
            last: rest.is_empty(),
            taken: self.taken,
        };
        self.heights = rest;
        self.index += 1;
        self.taken = 0;
        Some(piece)
    }
}

// A height with what stands behind it, which is told by a division only where it is asked for.
#[derive(Clone, Copy, Drop)]
struct Piece {
    height: i16,
    width: usize,
    // the height's index in the tile
    index: usize,
    // no height follows
    last: bool,
    taken: usize,
    ghost bounded: { index < 2 ^ 63 },
    ghost unread: { taken < length (piece_text height (separator_at width index last)) },
}

impl Piece {
    ghost use Rattle.std.specs.Prelude.{IsTrue, ◌↔◌};
    ghost use Rattle.host.specs.Pieces.{unread_of, separator_of};
    ghost use Rattle.host.specs.Text.{item};

    // What stands behind the height: nothing behind the last.
    #[tactic(auto, using(crate::proofs::Pieces::separators))]
    fn separator(&self) -> Option<u32>
        ensures { result ≡ separator_of self.now }
    {
        if self.last {
            None
        } else if (self.index + 1).is_multiple_of(self.width) {
            Some(NEWLINE)
        } else {
            Some(COMMA)
        }
    }

    // How many characters are unread.
    fn length(&self) -> usize
        ensures { result ≡ length (unread_of self.now) }
    {
        numeral::length(i64::from(self.height)) + usize::from(!self.last) - self.taken
    }

    // Character j of those unread.
    fn character(&self, j: usize) -> Option<u32>
        requires { j < length (unread_of self.now) }
        ensures { result ≡ item (unread_of self.now) j }
    {
        match numeral::character(i64::from(self.height), self.taken + j) {
            Some(digit) => Some(u32::from(digit)),
            None => self.separator(),
        }
    }

    fn ends_row(&self) -> bool
        ensures { IsTrue result ↔ (separator_of self.now ≡ Some 10) }
    {
        self.separator() == Some(NEWLINE)
    }
}
