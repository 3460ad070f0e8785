// The bytes of a map's rows.
ghost use Rattle.std.specs.Prelude.{◌≡◌};
ghost use Rattle.gridmap.specs.Map.{is_open, is_closed};

// Whether a byte is an open cell.
#[tactic(auto, unfolding(crate::specs::Map::is_open))]
pub fn is_open(b: u8) -> bool
    ensures { result ≡ is_open b }
{
    matches!(b, b'.' | b'G')
}

// Whether a byte is a closed cell.
#[tactic(auto, unfolding(crate::specs::Map::is_closed))]
pub fn is_closed(b: u8) -> bool
    ensures { result ≡ is_closed b }
{
    matches!(b, b'@' | b'O' | b'T')
}
