// Text in a lent buffer, piece by piece, each behind what was put before it.
ghost use Rattle.std.specs.Prelude.{◌≡◌, [], ◌∷◌, ◌++◌, ◌≤◌, length};
ghost use Rattle.laws.specs.Ascii.{ascii};
ghost use Rattle.report.specs.Decimal.{decimal};
ghost use Rattle.report.specs.PageLaws.{Room, Written};

// A buffer, and the place in it where the next piece goes.
#[derive(Drop)]
pub struct Page<'a> {
    pub out: &'a mut [u8],
    pub at: usize,
}

impl Page<'_> {
    // One byte.
    pub fn byte(&mut self, byte: u8)
        requires { Room 1 self.old }
        ensures { Written (byte ∷ []) self.old self.new }
    {
        self.out[self.at] = byte;
        self.at += 1;
    }

    // A word.
    pub fn word(&mut self, word: &[u8])
        requires { Room (length word.now) self.old }
        ensures { Written word.now self.old self.new }
    {
        let end = self.at + word.len();
        self.out[self.at..end].copy_from_slice(word);
        self.at = end;
    }

    // A number in decimal.
    pub fn decimal(&mut self, n: u64)
        requires { Room 20 self.old }
        ensures { Written (decimal n) self.old self.new }
    {
        if n >= 10 {
            self.decimal(n / 10);
        }
        // A digit fits a byte, and `as` says it shorter than `try_from`.
        self.byte(b'0' + (n % 10) as u8);
    }

    // A number with a blank before it.
    pub fn number(&mut self, n: u64)
        requires { Room 21 self.old }
        ensures { Written (ascii " " ++ decimal n) self.old self.new }
    {
        self.byte(b' ');
        self.decimal(n);
    }
}
