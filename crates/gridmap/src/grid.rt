// A map's text behind a head that is right: whether its rows are, and where the open cells are.
ghost use Rattle.gridmap.specs.Small.{Small};

use super::{Spot, cells, header, neighbours};

// A text with what its head announces: how high and wide the map is, and the place of its first row's first byte.
#[derive(Clone, Copy)]
pub struct Grid<'a> {
    pub text: &'a [u8],
    pub height: usize,
    pub width: usize,
    pub rows: usize,
    pub ghost small: { Small height width rows },
}

// A place counts the bytes of the rows from the first row on, line feeds too.
impl Grid<'_> {
    ghost use Rattle.std.specs.Prelude.{◌≡◌, ◌^◌, ◌≤◌, ◌<◌, length};
    ghost use Rattle.laws.specs.Part.{overlaid};
    ghost use Rattle.gridmap.specs.Map.{byte_at, rows_right, open_at, place_of, state_of, state_count, places};
    ghost use Rattle.gridmap.specs.Passages.{free, linked};
    ghost use Rattle.gridmap.specs.Laws.{map_with, cell_found, cell_right, row_right, spot_at, spots_of};

    // The place of a row and a column.
    pub fn place_of(&self, row: usize, column: usize) -> usize
        requires { (row < 65536) × (column < 65536) }
        ensures { (result ≡ place_of (map_with self.now) row column) × (result < 2 ^ 32) }
    {
        row * (self.width + 1) + column
    }

    // The row and the column of a place.
    pub fn spot_at(&self, place: usize) -> Spot
        requires { place < places (map_with self.now) }
        ensures { result ≡ spot_at (map_with self.now) place }
    {
        let stride = self.width + 1;
        Spot {
            row: (place / stride) as u16,
            column: (place % stride) as u16,
        }
    }

    // How many places there are.
    pub fn places(&self) -> usize
        ensures { (result ≡ places (map_with self.now)) × (result ≤ 65792) }
    {
        self.height * (self.width + 1)
    }

    // The byte at a place; 0 past the end.
    pub fn byte_at(&self, place: usize) -> u8
        requires { place < 2 ^ 32 }
        ensures { result ≡ byte_at (map_with self.now) place }
    {
        header::byte(self.text, self.rows + place)
    }

    // Whether an open cell is at a place.
    #[tactic(auto, unfolding(crate::specs::Map::open_at))]
    pub fn is_open_at(&self, place: usize) -> bool
        requires { place < 2 ^ 32 }
        ensures { result ≡ open_at (map_with self.now) place }
    {
        cells::is_open(self.byte_at(place))
    }

    // Whether a cell is at a place.
    pub fn is_cell_at(&self, place: usize) -> bool
        requires { place < 2 ^ 32 }
        ensures { result ≡ cell_right (map_with self.now) place }
    {
        let b = self.byte_at(place);
        cells::is_open(b) || cells::is_closed(b)
    }

    // Whether a row is so many cells and a line feed.
    pub fn row_right(&self, row: usize) -> bool
        requires { row < self.now.height }
        ensures { result ≡ row_right (map_with self.now) row }
    {
        (0..self.width).all(|column| self.is_cell_at(self.place_of(row, column)))
            && self.byte_at(self.place_of(row, self.width)) == b'\n'
    }

    // Whether each row is right, and nothing comes after the last.
    #[tactic(auto, unfolding(crate::specs::Map::rows_right))]
    pub fn rows_right(&self) -> bool
        ensures { result ≡ rows_right (map_with self.now) }
    {
        self.text.len() == self.rows + self.places()
            && (0..self.height).all(|row| self.row_right(row))
    }

    // How many open cells come before a place.
    #[tactic(auto, unfolding(crate::specs::Map::state_of))]
    pub fn count_before(&self, place: usize) -> usize
        requires { place ≤ places (map_with self.now) }
        ensures { (result ≡ state_of (map_with self.now) place) × (result ≤ place) }
    {
        (0..place).filter(|&p| self.is_open_at(p)).count()
    }

    // How many cells are open.
    #[tactic(auto, unfolding(crate::specs::Map::state_count, crate::specs::Map::state_of))]
    pub fn count_open(&self) -> usize
        ensures { result ≡ state_count (map_with self.now) }
    {
        self.count_before(self.places())
    }

    // The place of a state's cell.
    #[tactic(auto, unfolding(crate::specs::Map::cells, crate::specs::Map::state_count))]
    pub fn cell_of(&self, state: usize) -> Option<usize>
        ensures { result ≡ cell_found (map_with self.now) state }
    {
        (0..self.places())
            .filter(|&place| self.is_open_at(place))
            .nth(state)
    }

    // The open cells, in their order, to the front of a slice, and how many they are.
    // By rows and columns, which takes no division, and line feeds too; the next place is kept beside, since it is the count in the end.
    pub fn put_spots(&self, spots: &mut [Spot]) -> usize
        requires { state_count (map_with self.now) ≤ length spots.old }
        ensures { (result ≡ state_count (map_with self.now)) × (spots.new ≡ overlaid 0 (spots_of (map_with self.now)) spots.old) }
    {
        let mut next = 0;
        for row in 0..self.height {
            for column in 0..self.width + 1 {
                if self.is_open_at(self.place_of(row, column)) {
                    spots[next] = Spot {
                        row: row as u16,
                        column: column as u16,
                    };
                    next += 1;
                }
            }
        }
        next
    }

    // Whether a cell is on the map, and open. Rows and columns count from 1.
    #[tactic(auto, unfolding(crate::specs::Passages::free))]
    pub fn free(&self, y: usize, x: usize) -> bool
        ensures { result ≡ free (map_with self.now) y x }
    {
        (1..=self.height).contains(&y)
            && (1..=self.width).contains(&x)
            && self.is_open_at(self.place_of(y - 1, x - 1))
    }

    // Whether a passage leads in a direction: on a diagonal, both cells beside the way are open too.
    #[tactic(auto, unfolding(crate::specs::Passages::linked))]
    pub fn is_linked(&self, y: usize, x: usize, d: usize) -> bool
        requires { ((1 ≤ y) × (y ≤ 256)) × ((1 ≤ x) × (x ≤ 257)) }
        ensures { result ≡ linked (map_with self.now) y x d }
    {
        let v = neighbours::row_to(d, y);
        let u = neighbours::column_to(d, x);
        self.free(v, u) && (!neighbours::is_diagonal(d) || (self.free(v, x) && self.free(y, u)))
    }
}
