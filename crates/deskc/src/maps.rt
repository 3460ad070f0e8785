// What reading a map comes to, as numbers. The types are the map reader's, and numbers are what C takes, so these are functions and no `From`.
ghost use Rattle.std.specs.Prelude.{◌≡◌};
ghost use Rattle.deskc.specs.Maps.{survey_code, spot_code, state_code};

use gridmap::{MapFault, Spot, Survey};

// Cells times 2^32, plus passages; or the refusal's number.
pub fn survey_code(survey: Result<Survey, MapFault>) -> u64
    ensures { result ≡ survey_code survey }
{
    match survey {
        Ok(survey) => (u64::from(survey.cells) << 32) + u64::from(survey.passages),
        Err(fault) => u64::from(u8::from(fault)),
    }
}

// Row times 65,536, plus column; 4,294,967,295 where there is none.
pub fn spot_code(spot: Option<Spot>) -> u32
    ensures { result ≡ spot_code spot }
{
    spot.map_or(u32::MAX, u32::from)
}

// The state; 65,535 where there is none.
pub fn state_code(state: Option<u16>) -> u32
    ensures { result ≡ state_code state }
{
    u32::from(state.unwrap_or(u16::MAX))
}
