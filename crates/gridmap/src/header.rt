// The head of a map's text: words, and two numbers.
ghost use Rattle.std.specs.Prelude.{◌≡◌, true, false, ◌+◌, ◌≤◌, length, IfSome, MatchOption};
ghost use Rattle.gridmap.specs.Text.{byte, is_word, digit, digits, size, head_right};
ghost use Rattle.gridmap.specs.Map.{map_of};
ghost use Rattle.gridmap.specs.Laws.{map_with, word_read, size_read};

use super::Grid;

// The byte at a place; 0 past the end, which no map has anywhere. Places in a head are at most 64, so that what is added to them fits.
#[tactic(auto, unfolding(crate::specs::Text::byte))]
pub fn byte(text: &[u8], i: usize) -> u8
    ensures { result ≡ byte text.now i }
{
    text.get(i).copied().unwrap_or(0)
}

// Whether a word stands at a place.
#[tactic(auto, unfolding(crate::specs::Text::is_word))]
pub fn is_word(text: &[u8], at: usize, word: &[u8]) -> bool
    requires { (at ≤ 64) × (length word.now ≤ 64) }
    ensures { result ≡ is_word text.now at word.now }
{
    word.iter()
        .enumerate()
        .all(|(i, b)| byte(text, at + i) == *b)
}

// The place behind a word, where it stands.
pub fn after_word(text: &[u8], at: usize, word: &[u8]) -> Option<usize>
    requires { (at ≤ 64) × (length word.now ≤ 64) }
    ensures { result ≡ word_read text.now at word.now }
{
    is_word(text, at, word).then_some(at + word.len())
}

// The digit at a place.
#[tactic(auto, unfolding(crate::specs::Text::digit))]
pub fn digit(text: &[u8], i: usize) -> Option<usize>
    ensures { (result ≡ digit text.now i) × IfSome result (λ digit. digit ≤ 9) }
{
    match byte(text, i) {
        b @ b'0'..=b'9' => Some(usize::from(b - b'0')),
        _ => None,
    }
}

// How many digits stand from a place on, three at most.
#[tactic(auto, unfolding(crate::specs::Text::digits))]
pub fn digits(text: &[u8], at: usize) -> usize
    requires { at ≤ 64 }
    ensures { (result ≡ digits text.now at) × (result ≤ 3) }
{
    (0..3).find(|&i| digit(text, at + i).is_none()).unwrap_or(3)
}

// The number that the digits from a place on make, three at most.
// A loop: `fold` asks that one digit more fits whatever was folded before it.
pub fn size(text: &[u8], at: usize) -> usize
    requires { at ≤ 64 }
    ensures { (result ≡ size text.now at) × (result ≤ 999) }
{
    let mut size = 0;
    for i in 0..3 {
        let Some(digit) = digit(text, at + i) else {
            return size;
        };
        size = 10 * size + digit;
    }
    size
}

// A number from 1 to 256 without leading zeros, and the place behind it, where one stands.
#[tactic(auto, unfolding(crate::specs::Text::is_size))]
pub fn size_at(text: &[u8], at: usize) -> Option<(usize, usize)>
    requires { at ≤ 64 }
    ensures { result ≡ size_read text.now at }
{
    let size = size(text, at);
    if byte(text, at) == b'0' || !(1..=256).contains(&size) {
        return None;
    }
    Some((size, at + digits(text, at)))
}

// The map that a head announces, where the head is right.
pub fn head_of(text: &[u8]) -> Option<Grid<'_>>
    ensures { MatchOption result (head_right text.now ≡ false) (λ grid. (grid.text ≡ text.entry) × (map_with grid ≡ map_of text.now) × (head_right text.now ≡ true)) }
{
    let at = after_word(text, 0, b"type octile\nheight ")?;
    let (height, at) = size_at(text, at)?;
    let at = after_word(text, at, b"\nwidth ")?;
    let (width, at) = size_at(text, at)?;
    let rows = after_word(text, at, b"\nmap\n")?;
    Some(Grid {
        text,
        height,
        width,
        rows,
    })
}
