// Why a text isn't read as a map, and the number that document 02 gives each reason.
ghost use Rattle.std.specs.Prelude.{◌≡◌};
ghost use Rattle.gridmap.specs.Faults.{map_fault_number};

// What is wrong with a text, or with the slices that are lent for it: each with its number.
#[derive(Clone, Copy, Debug, PartialEq, Eq)]
pub enum MapFault {
    BadHead = 31,
    BadRows = 32,
    BadCount = 33,
    ShortSlice = 34,
}

impl From<MapFault> for u8 {
    ghost from_gives = { λ fault number. number ≡ map_fault_number fault };

    fn from(fault: MapFault) -> u8 {
        fault as u8
    }
}
