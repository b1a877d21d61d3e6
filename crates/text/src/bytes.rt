// Bytes of a line or a book: where a mark stands next, and which word stands at a place.
ghost use Rattle.std.specs.Prelude.{◌≡◌, ◌+◌, ◌≤◌, [], ◌∷◌, length, drop};
ghost use Rattle.text.specs.Text.{space, begins as begins_with};
ghost use Rattle.text.specs.Numbers.{is_digit};
ghost use Rattle.text.specs.Expressions.{digit_count};
ghost use Rattle.text.specs.Spelling.{up_to};

// The place of the first such byte at or after `at`, or the end.
#[tactic(auto, using(crate::proofs::TextLaws::next_places))]
fn next_byte(bytes: &[u8], at: usize, byte: u8) -> usize
    requires { at ≤ length bytes.now }
    ensures { result ≡ at + up_to byte (drop at bytes.now) }
{
    let n = bytes.len();
    let mut i = at;
    // Four at a time: the test of the end costs as much as the byte's, and with `position` books took 5 percent longer.
    while i + 4 <= n {
        if bytes[i] == byte {
            return i;
        }
        if bytes[i + 1] == byte {
            return i + 1;
        }
        if bytes[i + 2] == byte {
            return i + 2;
        }
        if bytes[i + 3] == byte {
            return i + 3;
        }
        i += 4;
    }
    for j in i..n {
        if bytes[j] == byte {
            return j;
        }
    }
    n
}

// The end of the first field: the first space, or the end.
pub fn field_end(line: &[u8]) -> usize
    ensures { result ≡ up_to space line.now }
{
    next_byte(line, 0, b' ')
}

// The end of the line that begins at `at`: the next byte 10, or the end.
pub fn line_end(book: &[u8], at: usize) -> usize
    requires { at ≤ length book.now }
    ensures { result ≡ at + up_to 10 (drop at book.now) }
{
    next_byte(book, at, b'\n')
}

// The word stands at `at`.
#[tactic(auto, using(crate::proofs::WordLaws::at_place))]
pub fn begins(bytes: &[u8], at: usize, word: &[u8]) -> bool
    ensures { result ≡ begins_with word.now (drop at bytes.now) }
{
    bytes.get(at..).unwrap_or(&[]).starts_with(word)
}

// The byte stands at `at`.
#[tactic(auto, using(crate::proofs::WordLaws::at_place))]
pub fn has_byte(bytes: &[u8], at: usize, byte: u8) -> bool
    ensures { result ≡ begins_with (byte ∷ []) (drop at bytes.now) }
{
    bytes.get(at) == Some(&byte)
}

// A digit.
#[tactic(auto, unfolding(crate::specs::Numbers::is_digit))]
pub fn is_digit(byte: u8) -> bool
    ensures { result ≡ is_digit byte }
{
    byte.is_ascii_digit()
}

// The end of the digits that stand at `at`.
pub fn digits_end(bytes: &[u8], at: usize) -> usize
    requires { at ≤ length bytes.now }
    ensures { result ≡ at + digit_count (drop at bytes.now) }
{
    at + bytes[at..]
        .iter()
        .take_while(|byte| is_digit(**byte))
        .count()
}
