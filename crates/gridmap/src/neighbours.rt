// The steps from a cell to its neighbours, clockwise from the north. Rows and columns count from 1 here.
ghost use Rattle.std.specs.Prelude.{◌≡◌, ◌≤◌};
ghost use Rattle.gridmap.specs.Passages.{is_diagonal, row_to, column_to, cost_to};

// A direction is a number, which rows and columns are told by: 0 N, 1 NE, 2 E, 3 SE, 4 S, 5 SW, 6 W, 7 NW.

// What a passage costs: straight, and on a diagonal.
pub const STRAIGHT: u32 = 1000;

pub const DIAGONAL: u32 = 1414;

// The row that a step leads to.
#[tactic(auto, unfolding(crate::specs::Passages::row_to))]
pub fn row_to(d: usize, y: usize) -> usize
    requires { (1 ≤ y) × (y ≤ 256) }
    ensures { result ≡ row_to d y }
{
    match d {
        7 | 0 | 1 => y - 1,
        3..=5 => y + 1,
        _ => y,
    }
}

// The column that a step leads to.
#[tactic(auto, unfolding(crate::specs::Passages::column_to))]
pub fn column_to(d: usize, x: usize) -> usize
    requires { (1 ≤ x) × (x ≤ 257) }
    ensures { result ≡ column_to d x }
{
    match d {
        5.. => x - 1,
        1..=3 => x + 1,
        _ => x,
    }
}

// Whether a direction is a diagonal.
pub fn is_diagonal(d: usize) -> bool
    ensures { result ≡ is_diagonal d }
{
    d % 2 == 1
}

// What a passage in a direction costs.
pub fn cost_to(d: usize) -> u32
    ensures { result ≡ cost_to d }
{
    if is_diagonal(d) { DIAGONAL } else { STRAIGHT }
}
