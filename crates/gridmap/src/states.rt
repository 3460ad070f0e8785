// The states of a map, each with its cell, and the passages between them.
ghost use Rattle.std.specs.Prelude.{◌≡◌, ◌≤◌, length};
ghost use Rattle.gridmap.specs.Laws.{map_with, spots_of};

use super::{Grid, Spot, neighbours};

// A map with its open cells in their order, which is that of the states.
#[derive(Clone, Copy)]
pub struct States<'a> {
    pub grid: Grid<'a>,
    pub spots: &'a [Spot],
    pub ghost placed: { spots.now ≡ spots_of (map_with grid) },
    pub ghost few: { length spots.now ≤ 256 },
}

impl States<'_> {
    ghost use Rattle.std.specs.Prelude.{true, ◌*◌, ◌<◌};
    ghost use Rattle.laws.specs.Part.{overlaid};
    ghost use Rattle.gridmap.specs.Map.{place_of, state_of};
    ghost use Rattle.gridmap.specs.Passages.{row_here, column_here, is_passage, leads_to, passages_of, passages_many};
    ghost use Rattle.gridmap.specs.Laws.{OpenSpot};

    // The row and the column, from 1, that the j-th of all neighbours is beside.
    pub fn here(&self, j: usize) -> (usize, usize)
        requires { j < 8 * length self.now.spots.now }
        ensures row { (result.0 ≡ row_here (map_with self.now.grid) j) × (result.0 ≤ 256) }
        ensures column { (result.1 ≡ column_here (map_with self.now.grid) j) × (result.1 ≤ 257) }
    {
        let spot = self.spots[j / 8];
        (usize::from(spot.row) + 1, usize::from(spot.column) + 1)
    }

    // Whether the j-th of all neighbours is the end of a passage.
    #[tactic(auto, unfolding(crate::specs::Passages::is_passage))]
    pub fn is_passage(&self, j: usize) -> bool
        requires { j < 8 * length self.now.spots.now }
        ensures { result ≡ is_passage (map_with self.now.grid) j }
    {
        let (y, x) = self.here(j);
        self.grid.is_linked(y, x, j % 8)
    }

    // The state that the j-th of all neighbours is.
    pub fn leads_to(&self, j: usize) -> usize
        requires { (j < 8 * length self.now.spots.now) × (is_passage (map_with self.now.grid) j ≡ true) }
        ensures { (result ≡ leads_to (map_with self.now.grid) j) × (result < length self.now.spots.now) }
    {
        let (y, x) = self.here(j);
        let v = neighbours::row_to(j % 8, y);
        let u = neighbours::column_to(j % 8, x);
        self.state_of(Spot {
            row: (v - 1) as u16,
            column: (u - 1) as u16,
        })
    }

    // The state of an open cell, found by halving.
    pub fn state_of(&self, spot: Spot) -> usize
        requires { OpenSpot (map_with self.now.grid) spot }
        ensures { result ≡ state_of (map_with self.now.grid) (place_of (map_with self.now.grid) spot.row spot.column) }
    {
        let number = u32::from(spot);
        self.spots
            .partition_point(|other| u32::from(*other) < number)
    }

    // How many passages there are.
    #[tactic(auto, unfolding(crate::specs::Passages::passages_many))]
    pub fn count_passages(&self) -> usize
        ensures { (result ≡ passages_many (map_with self.now.grid)) × (result ≤ 2048) }
    {
        (0..8 * self.spots.len())
            .filter(|&j| self.is_passage(j))
            .count()
    }

    // The passages, each from, to, cost.
    // The next place is kept beside: what is written through `chunks_exact_mut` beside another iterator isn't known afterwards.
    #[tactic(auto, using(crate::specs::WritingLaws::puts_room))]
    pub fn put_passages(&self, passages: &mut [u32])
        requires { 3 * passages_many (map_with self.now.grid) ≤ length passages.old }
        ensures { passages.new ≡ overlaid 0 (passages_of (map_with self.now.grid)) passages.old }
    {
        let mut next = 0;
        for j in 0..8 * self.spots.len() {
            if self.is_passage(j) {
                let passage = [
                    (j / 8) as u32,
                    self.leads_to(j) as u32,
                    neighbours::cost_to(j % 8),
                ];
                passages[next..next + 3].copy_from_slice(&passage);
                next += 3;
            }
        }
    }
}
