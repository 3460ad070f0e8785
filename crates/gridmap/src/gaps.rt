// The estimates of a map: how far two cells are apart where every cell is open.
ghost use Rattle.std.specs.Prelude.{◌≡◌, ◌+◌, ◌*◌, ◌≤◌, length};
ghost use Rattle.laws.specs.Part.{overlaid};
ghost use Rattle.laws.specs.Fill.{made};
ghost use Rattle.gridmap.specs.Estimates.{gap, octile};
ghost use Rattle.gridmap.specs.Laws.{apart, apart_from, table_of};

use super::Spot;

// How far two coordinates are apart.
#[tactic(auto, unfolding(crate::specs::Estimates::gap))]
pub fn gap(a: u16, b: u16) -> u16
    ensures { result ≡ gap a b }
{
    a.abs_diff(b)
}

// 1,000 times the larger plus 414 times the smaller.
#[tactic(auto, unfolding(crate::specs::Estimates::octile))]
pub fn octile(a: u16, b: u16) -> u32
    ensures { result ≡ octile a b }
{
    1000 * u32::from(a.max(b)) + 414 * u32::from(a.min(b))
}

// The estimate between two cells.
pub fn between(a: Spot, b: Spot) -> u32
    ensures { result ≡ apart a b }
{
    octile(gap(a.row, b.row), gap(a.column, b.column))
}

// The estimates from a cell to these cells.
// Sixteen bits, and a loop without a division: so the compiler makes several estimates at a time.
// By index: what is written through `iter_mut` beside another iterator isn't known afterwards.
pub fn put_estimates_from(from: Spot, spots: &[Spot], estimates: &mut [u32])
    requires { length estimates.old ≡ length spots.now }
    ensures { estimates.new ≡ made (apart_from from spots.now) (length spots.now) }
{
    for (b, to) in spots.iter().enumerate() {
        estimates[b] = between(from, *to);
    }
}

// The estimates between these cells, h(a,b) at a times n plus b.
pub fn put_estimates(spots: &[Spot], estimates: &mut [u32])
    requires { length spots.now * length spots.now ≤ length estimates.old }
    ensures { estimates.new ≡ overlaid 0 (table_of spots.now) estimates.old }
{
    let n = spots.len();
    for (a, from) in spots.iter().enumerate() {
        put_estimates_from(*from, spots, &mut estimates[a * n..a * n + n]);
    }
}
