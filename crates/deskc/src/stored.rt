// How a machine's numbers stand in a row of 32-bit numbers: those of up to 32 bits in one place, keys in two.
ghost use Rattle.std.specs.Prelude.{◌≡◌, ℕ, List, ◌+◌, ◌≤◌, length, get_or};
ghost use Rattle.laws.specs.Part.{overlaid};
ghost use Rattle.deskc.specs.Row.{key_at, key_halves};
ghost use Rattle.deskc.specs.StoredLaws.{one, InOne, There, InTwo};

// The low half of a key is below this.
const HALF: u64 = 4_294_967_296;

pub trait Stored: Copy {
    // In how many places such a number stands.
    const PLACES: usize;

    ghost PLACES: { ℕ };

    // A row has such a number at its front, and which.
    ghost stands: { List ℕ → Type 0 };

    ghost stored: { List ℕ → Self };

    // What its places hold.
    ghost places: { Self → List ℕ };

    fn read(row: &[u32]) -> Self
        requires { stands row.now }
        ensures { result ≡ stored row.now };

    fn write(self, row: &mut [u32])
        requires { PLACES ≤ length row.old }
        ensures { row.new ≡ overlaid 0 (places self) row.old };

    ghost fills: { (x : Self) → length (places x) ≡ PLACES };
}

impl Stored for u8 {
    const PLACES: usize = 1;

    ghost PLACES = { 1 };

    ghost stands = { InOne 255 };

    ghost stored = { λ row. get_or row 0 0 };

    ghost places = { one };

    ghost fills = { Prim.search };

    fn read(row: &[u32]) -> u8 {
        row[0] as u8
    }

    fn write(self, row: &mut [u32]) {
        row[0] = u32::from(self);
    }
}

impl Stored for u16 {
    const PLACES: usize = 1;

    ghost PLACES = { 1 };

    ghost stands = { InOne 65535 };

    ghost stored = { λ row. get_or row 0 0 };

    ghost places = { one };

    ghost fills = { Prim.search };

    fn read(row: &[u32]) -> u16 {
        row[0] as u16
    }

    fn write(self, row: &mut [u32]) {
        row[0] = u32::from(self);
    }
}

impl Stored for u32 {
    const PLACES: usize = 1;

    ghost PLACES = { 1 };

    ghost stands = { There };

    ghost stored = { λ row. get_or row 0 0 };

    ghost places = { one };

    ghost fills = { Prim.search };

    fn read(row: &[u32]) -> u32 {
        row[0]
    }

    fn write(self, row: &mut [u32]) {
        row[0] = self;
    }
}

// The low half of a key first.
impl Stored for u64 {
    const PLACES: usize = 2;

    ghost PLACES = { 2 };

    ghost stands = { InTwo };

    ghost stored = { λ row. key_at row 0 };

    ghost places = { key_halves };

    ghost fills = { Prim.search };

    fn read(row: &[u32]) -> u64 {
        u64::from(row[0]) + HALF * u64::from(row[1])
    }

    fn write(self, row: &mut [u32]) {
        row[0] = (self % HALF) as u32;
        row[1] = (self / HALF) as u32;
    }
}
