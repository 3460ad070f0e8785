// Maps drawn as text, read as the passages and estimates of a task: the plain map text of the public octile grid benchmarks.
#![tactic(auto)]

ghost use Rattle.std.specs.Prelude.{◌≡◌};
ghost use Rattle.gridmap.specs.Reading.{read_map, spot_number, spot_of, state_at_spot};

mod cells;
mod check;
mod faults;
mod gaps;
mod grid;
mod header;
mod neighbours;
mod states;

pub use faults::MapFault;
use grid::Grid;
use states::States;

// A map that was read: how many of its cells are open, and how many passages they have.
#[derive(Clone, Copy, Debug, PartialEq, Eq)]
pub struct Survey {
    pub cells: u32,
    pub passages: u32,
}

// A cell by its row and column, both from 0. The column stands first: so the two lie in memory as the number below, and are read as one.
#[derive(Clone, Copy, Debug, PartialEq, Eq)]
pub struct Spot {
    pub column: u16,
    pub row: u16,
}

// Row times 65,536, plus column: a number that rises as the states do.
impl From<Spot> for u32 {
    ghost from_gives = { λ spot number. number ≡ spot_number spot };

    fn from(spot: Spot) -> u32 {
        u32::from(spot.row) * 65536 + u32::from(spot.column)
    }
}

// Reads a map: its passages to the front of one slice, its estimates to the front of the other.
pub fn read_map(
    text: &[u8],
    passages: &mut [u32],
    estimates: &mut [u32],
) -> Result<Survey, MapFault>
    ensures value { result ≡ (read_map text.now passages.old estimates.old).reply }
    ensures passages_after { passages.new ≡ (read_map text.now passages.old estimates.old).passages }
    ensures estimates_after { estimates.new ≡ (read_map text.now passages.old estimates.old).estimates }
{
    let grid = check::checked(text)?;
    let mut spots = [Spot { row: 0, column: 0 }; 256];
    let n = grid.put_spots(&mut spots);
    let states = States {
        grid,
        spots: &spots[..n],
    };
    let many = states.count_passages();
    if passages.len() < 3 * many || estimates.len() < n * n {
        return Err(MapFault::ShortSlice);
    }
    states.put_passages(passages);
    gaps::put_estimates(states.spots, estimates);
    Ok(Survey {
        cells: n as u32,
        passages: many as u32,
    })
}

// The row and column of a state.
#[tactic(auto, unfolding(crate::specs::Reading::spot_of))]
pub fn spot_of(text: &[u8], state: usize) -> Option<Spot>
    ensures { result ≡ spot_of text.now state }
{
    let grid = check::checked(text).ok()?;
    let place = grid.cell_of(state)?;
    Some(grid.spot_at(place))
}

// The state at a row and column.
#[tactic(auto, unfolding(crate::specs::Reading::state_at_spot))]
pub fn state_at(text: &[u8], row: usize, column: usize) -> Option<u16>
    ensures { result ≡ state_at_spot text.now row column }
{
    let grid = check::checked(text).ok()?;
    if row >= grid.height || column >= grid.width {
        return None;
    }
    let place = grid.place_of(row, column);
    if !grid.is_open_at(place) {
        return None;
    }
    Some(grid.count_before(place) as u16)
}
