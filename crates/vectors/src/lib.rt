// Reading vectors from lines of text, for the program of cases.
#![tactic(auto)]

ghost use Rattle.std.specs.Prelude.{◌≡◌, ◌≢◌, ◌≤◌, ◌∷◌, ◌++◌, length, take, IfSome, IfNone, Contains};
ghost use Rattle.arrayvec.specs.ArrayVec.{array_vec_len};
ghost use Rattle.vectors.specs.Numbers.{with_digits, after_digits, after_space, first_numbers};

use arrayvec::ArrayVec;

// How many signal sets there are.
pub const SETS: usize = 65536;

// A number that a text begins with, and what follows the byte that ends it.
#[derive(Clone, Copy)]
struct Number<'a> {
    value: u32,
    rest: &'a [u8],
}

// The number that a text begins with, which goes on to the first byte that is no digit; what is over the largest number of
// 32 bits is cut to that.
fn number_at(text: &[u8]) -> Number
    ensures value { result.value ≡ with_digits 0 text.now }
    ensures rest { result.rest.now ≡ after_digits text.now }
    ensures within { length result.rest.now ≤ length text.now }
{
    let mut value = 0u32;
    for (i, byte) in text.iter().enumerate() {
        if !byte.is_ascii_digit() {
            return Number {
                value,
                rest: &text[i + 1..],
            };
        }
        value = value
            .saturating_mul(10)
            .saturating_add((*byte - b'0') as u32);
    }
    Number { value, rest: &[] }
}

// The signal set that a number of a vector gives.
pub fn signal_set(number: u32) -> u16 {
    (number as usize % SETS) as u16
}

// What a vector asks of a book: a condition and one number more, and the book.
#[derive(Clone, Copy)]
pub struct BookVector<'a> {
    pub condition: u32,
    pub number: u32,
    pub book: &'a [u8],
}

// The vector in the text after a command.
pub fn book_vector(text: &[u8]) -> BookVector
    ensures { length result.book.now ≤ length text.now }
{
    let condition = number_at(text);
    let number = number_at(condition.rest);
    BookVector {
        condition: condition.value,
        number: number.value,
        book: number.rest,
    }
}

// What follows the word that the line begins with, if it does.
pub fn after_word<'a>(line: &'a [u8], word: &[u8]) -> Option<&'a [u8]>
    ensures follows { IfSome result (λ rest. line.now ≡ word.now ++ rest.now) }
    ensures none { IfNone result (take (length word.now) line.now ≢ word.now) }
{
    if line.starts_with(word) {
        Some(&line[word.len()..])
    } else {
        None
    }
}

// The numbers of a text, each after one space, as far as there is room.
pub fn numbers<const N: usize>(text: &[u8]) -> ArrayVec<u32, N>
    ensures room { array_vec_len result ≤ N }
    ensures read { result.items ≡ first_numbers N (after_space text.now) }
{
    let mut numbers = ArrayVec::new();
    let mut rest = after_word(text, b" ").unwrap_or(text);
    // Not a `for`: where the next number begins is known once this one is read.
    while !rest.is_empty() && !numbers.is_full() {
        let number = number_at(rest);
        numbers.push(number.value);
        rest = number.rest;
    }
    numbers
}

// Puts a line end wherever `|` stands.
pub fn put_line_ends(text: &mut [u8]) {
    for byte in text {
        if *byte == b'|' {
            *byte = b'\n';
        }
    }
}

// The texts before and after the first such byte, if there is one.
pub fn parted(text: &[u8], byte: u8) -> Option<(&[u8], &[u8])>
    ensures parts { IfSome result (λ parts. text.now ≡ (parts.0).now ++ byte ∷ (parts.1).now) }
    ensures first { IfSome result (λ parts. ¬ Contains (parts.0).now byte) }
    ensures none { IfNone result (¬ Contains text.now byte) }
{
    let at = text.iter().position(|other| *other == byte)?;
    Some((&text[..at], &text[at + 1..]))
}
