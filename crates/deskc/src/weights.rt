// Weights as a caller in C gives them, of any size.
ghost use Rattle.std.specs.Prelude.{◌≡◌};
ghost use Rattle.deskc.specs.Weights.{clamped};

// The weight that opening is asked with. It is never cut: what 16 bits can't hold stands as 65,535, which is out of range too.
pub fn clamp(weight: usize) -> u16
    ensures { result ≡ clamped weight }
{
    u16::try_from(weight).unwrap_or(u16::MAX)
}
