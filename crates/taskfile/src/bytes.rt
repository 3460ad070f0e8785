// Little-endian numbers, as a file carries them.
ghost use Rattle.std.specs.Prelude.{◌≡◌, ◌+◌, ◌<◌, length};
ghost use Rattle.taskfile.specs.Bytes.{word, long};

// Two bytes, the low one first. For two and for four a function each, since what is read has a type of its own.
#[tactic(auto, using(crate::specs::BytesLaws::word_from))]
pub fn word(file: &[u8], at: usize) -> u16
    requires { at + 1 < length file.now }
    ensures { result ≡ word file.now at }
{
    u16::from_le_bytes([file[at], file[at + 1]])
}

// Four bytes, the lowest first.
#[tactic(auto, using(crate::specs::BytesLaws::long_from))]
pub fn long(file: &[u8], at: usize) -> u32
    requires { at + 3 < length file.now }
    ensures { result ≡ long file.now at }
{
    u32::from_le_bytes([file[at], file[at + 1], file[at + 2], file[at + 3]])
}
