// Whether a text is a map: the refusals 31 to 33.
ghost use Rattle.std.specs.Prelude.{◌≡◌, Ok, Err, MatchResult};
ghost use Rattle.gridmap.specs.Map.{map_of};
ghost use Rattle.gridmap.specs.Reading.{map_fault};
ghost use Rattle.gridmap.specs.Laws.{map_with};

use super::{Grid, MapFault, header};

// The map that a text is; or the first of 31 to 33 that applies.
#[tactic(auto, unfolding(crate::specs::Reading::map_fault, crate::specs::Map::count_right))]
pub fn checked(text: &[u8]) -> Result<Grid<'_>, MapFault>
    ensures { MatchResult result (λ grid. (grid.text ≡ text.entry) × (map_with grid ≡ map_of text.now) × (map_fault text.now ≡ Ok tt)) (λ fault. map_fault text.now ≡ Err fault) }
{
    let grid = header::head_of(text).ok_or(MapFault::BadHead)?;
    if !grid.rows_right() {
        return Err(MapFault::BadRows);
    }
    if !(1..=256).contains(&grid.count_open()) {
        return Err(MapFault::BadCount);
    }
    Ok(grid)
}
