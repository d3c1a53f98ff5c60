//! Words and numbers of a line.
#![tactic(auto)]

ghost use Rattle.std.specs.Prelude.{◌≡◌, ◌≢◌, ◌++◌, List, ℕ, [], MatchOption};
ghost use Rattle.text.specs.Numbers.{DigitOf, Limit, NumberOf, LineOf};

// A number that was read, and the bytes behind it.
#[derive(Clone, Copy)]
pub struct NumberRead<'a> {
    pub value: usize,
    pub rest: &'a [u8],
}

// Reads a digit.
#[inline]
fn digit(bytes: &[u8]) -> Option<NumberRead<'_>>
    ensures { DigitOf bytes.now result }
{
    let (first, rest) = bytes.split_first()?;
    if first.is_ascii_digit() {
        return Some(NumberRead {
            value: usize::from(*first - b'0'),
            rest,
        });
    }
    None
}

// Reads a number, 0 to most without leading zeros: a 0 ends it.
fn number(bytes: &[u8], most: usize) -> Option<NumberRead<'_>>
    requires { Limit most }
    ensures { NumberOf most [] bytes.now result }
{
    let mut read = digit(bytes)?;
    let leading_zero = read.value == 0;
    if leading_zero {
        return Some(read);
    }
    // No range counts the digits: the first byte that is none ends them.
    while let Some(NumberRead { value: d, rest }) = digit(read.rest) {
        let value = 10 * read.value + d;
        if most < value {
            return None;
        }
        read = NumberRead { value, rest };
    }
    Some(read)
}

// The bytes behind a word, where they begin with it. A loop of its own, for std's `strip_prefix` is a call for each word, and a long sheet
// takes a third more time to read by it.
#[inline]
pub fn behind<'a>(bytes: &'a [u8], word: &[u8]) -> Option<&'a [u8]>
    ensures cases { MatchOption result ((rest : List ℕ) → bytes.now ≢ word.now ++ rest) (λ rest. bytes.now ≡ word.now ++ rest.now) }
{
    if bytes.len() < word.len() {
        return None;
    }
    for (i, &byte) in word.iter().enumerate() {
        if bytes[i] != byte {
            return None;
        }
    }
    Some(&bytes[word.len()..])
}

// Reads a word and the number behind it.
pub fn number_after<'a>(bytes: &'a [u8], before: &[u8], most: usize) -> Option<NumberRead<'a>>
    requires { Limit most }
    ensures { NumberOf most before.now bytes.now result }
{
    number(behind(bytes, before)?, most)
}

// Reads a line of a word and one number.
pub fn one_number<'a>(bytes: &'a [u8], before: &[u8], most: usize) -> Option<NumberRead<'a>>
    requires { Limit most }
    ensures { LineOf most before.now bytes.now result }
{
    let NumberRead { value, rest } = number_after(bytes, before, most)?;
    let rest = behind(rest, b")\n")?;
    Some(NumberRead { value, rest })
}
