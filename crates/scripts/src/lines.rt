//! The lines, words and numbers of a script.
ghost use Rattle.std.specs.Prelude.{◌≡◌, false, true, ◌==◌, ◌∷◌, ◌++◌, ◌+◌, ◌-◌, ◌<◌, ◌≤◌, []};
ghost use Rattle.std.specs.Prelude.{ℕ, List};
ghost use Rattle.std.specs.Prelude.{length, position, take, None, Some, MatchOption, IfSome};
ghost use Rattle.std.specs.Prelude.{if◌then◌else◌};
ghost use Rattle.std.specs.Char.{is_ascii_digit};
ghost use Rattle.scripts.specs.Lines.{BeginsWithNumber, BeginsWithNoNumber, LeadingDigits};
ghost use Rattle.scripts.specs.Lines.{AllLeadingDigits, TooLarge, FirstNumber, FirstIsNoNumber};
ghost use Rattle.scripts.specs.Lines.{lines_of, cut_line_of, parts_of, parts_of_rest, words_of};
ghost use Rattle.scripts.specs.Lines.{words_of_rest, number_of, number_within, four_of};
ghost use Rattle.scripts.specs.Lines.{FourAreBytes};

use memchr::memchr;

/// The byte that ends a line.
pub const LINE_FEED: u8 = b'\n';

/// The byte between two words.
pub const SPACE: u8 = b' ';

/// The byte between two kinds of notes.
pub const COMMA: u8 = b',';

/// The digit 0.
pub const ZERO: u8 = b'0';

/// The first place of the byte. The crate looks at 32 bytes at once.
fn place_of(byte: u8, text: &[u8]) -> Option<usize>
    ensures { result ≡ position (λ b. b == byte) text.now }
{
    memchr(byte, text)
}

/// What follows a word that a text begins with; nothing where it begins with another word. For a
/// word that it knows, the compiler writes the steps out, but not the steps of `strip_prefix`.
#[inline(always)]
pub fn after_word<'t>(word: &[u8], text: &'t [u8]) -> Option<&'t [u8]>
    ensures { MatchOption result ((rest : List ℕ) → ¬ (text.now ≡ word.now ++ rest))
        (λ rest. text.now ≡ word.now ++ rest.now) }
{
    if text.len() < word.len() {
        return None;
    }
    if word.len() < 4 {
        return after_word_from(0, word, text);
    }
    if first_four(text) != first_four(word) {
        return None;
    }
    after_word_from(4, word, text)
}

/// The same, where the first `same` bytes of the two are the same.
#[inline(always)]
fn after_word_from<'t>(same: usize, word: &[u8], text: &'t [u8]) -> Option<&'t [u8]>
    requires within { (same ≤ length word.now) × (length word.now ≤ length text.now) }
    requires same { take same text.now ≡ take same word.now }
    ensures { MatchOption result ((rest : List ℕ) → ¬ (text.now ≡ word.now ++ rest))
        (λ rest. text.now ≡ word.now ++ rest.now) }
{
    for i in same..word.len() {
        if text[i] != word[i] {
            return None;
        }
    }
    Some(&text[word.len()..])
}

/// The first four bytes as one number: one test compares them all.
#[inline(always)]
fn first_four(text: &[u8]) -> u32
    requires { 4 ≤ length text.now }
    ensures value { result ≡ four_of text.now }
    ensures bytes { FourAreBytes text.now }
{
    let low = u32::from(text[0]) + 256 * u32::from(text[1]);
    low + 65_536 * u32::from(text[2]) + 16_777_216 * u32::from(text[3])
}

/// The first line, without its line feed, and what follows; `None` where there is no line feed.
pub fn next_line(text: &[u8]) -> Option<(&[u8], &[u8])>
    ensures lines { MatchOption result (lines_of text.now ≡ [])
        (λ split. lines_of text.now ≡ split.0.now ∷ lines_of split.1.now) }
    ensures cut { MatchOption result (cut_line_of text.now ≡ text.now)
        (λ split. cut_line_of text.now ≡ cut_line_of split.1.now) }
    ensures shorter { IfSome result (λ split. length split.1.now < length text.now) }
{
    match place_of(LINE_FEED, text) {
        None => None,
        Some(end) => Some((&text[..end], &text[end + 1..])),
    }
}

/// The first word, and what follows the space after it; `None` follows the last word.
pub fn next_word(text: &[u8]) -> (&[u8], Option<&[u8]>)
    ensures { words_of text.now ≡ result.0.now ∷ words_of_rest result.1 }
{
    next_part(SPACE, text)
}

/// The part before the first parting byte, and what follows that byte; `None` follows the last
/// part.
pub fn next_part(parting: u8, text: &[u8]) -> (&[u8], Option<&[u8]>)
    ensures part { parts_of (λ b. b == parting) text.now
        ≡ result.0.now ∷ parts_of_rest (λ b. b == parting) result.1 }
    ensures shorter { IfSome result.1 (λ rest. length rest.now < length text.now) }
{
    match place_of(parting, text) {
        None => (text, None),
        Some(end) => (&text[..end], Some(&text[end + 1..])),
    }
}

/// The number below 2^64 that a word spells, with no leading zero but for the number 0.
pub fn number(word: &[u8]) -> Option<u64>
    ensures { result ≡ number_of word.now }
{
    let (n, count) = all_digits(word, 0, 0)?;
    if count != word.len() || !spells(word, n, count) {
        return None;
    }
    Some(n)
}

/// That number, where it is in a range.
pub fn bounded_number(word: &[u8], least: u64, most: u64) -> Option<u64>
    ensures { result ≡ number_within least most word.now }
{
    number(word).filter(|n| least <= *n && *n <= most)
}

/// The number that a text begins with, before the byte `end`, and what follows that byte; nothing
/// where it begins with no such number. One pass over the digits finds their end too.
#[inline(always)]
pub fn number_before(end: u8, text: &[u8]) -> Option<(u64, &[u8])>
    requires { is_ascii_digit end ≡ false }
    ensures { MatchOption result (BeginsWithNoNumber end text.now)
        (λ found. BeginsWithNumber end text.now found.0 found.1.now) }
{
    let mut n = 0u64;
    let mut count = 0;
    // Where 20 bytes stand, nineteen digits fit, whichever they are, and the text does not end in
    // them. No step tests either, and the compiler writes the nineteen out. Most numbers have one.
    if text.len() >= 20 {
        let (byte, rest) = byte_after(1, text);
        if byte == end {
            let digit = digit_value(text[0])?;
            return Some((digit, rest));
        }
        'short: while count < 19 {
            let Some(digit) = digit_value(text[count]) else {
                return Some((n, ended(end, text, n, count)?));
            };
            n = 10 * n + digit;
            count += 1;
        }
    }
    let (n, count) = all_digits(text, n, count)?;
    Some((n, ended(end, text, n, count)?))
}

/// What follows the byte after all digits that a text begins with, where that byte is `end`. There
/// are `count` such digits, which spell this number.
#[inline(always)]
fn ended(end: u8, text: &[u8], number: u64, count: usize) -> Option<&[u8]>
    requires other { is_ascii_digit end ≡ false }
    requires digits { AllLeadingDigits text.now number count }
    ensures { MatchOption result (BeginsWithNoNumber end text.now)
        (λ rest. BeginsWithNumber end text.now number rest.now) }
{
    if count == text.len() || !spells(text, number, count) {
        return None;
    }
    let (byte, rest) = byte_after(count, text);
    if byte != end {
        return None;
    }
    Some(rest)
}

/// The value of a digit.
#[inline(always)]
fn digit_value(byte: u8) -> Option<u64>
    ensures digit { MatchOption result (is_ascii_digit byte ≡ false)
        (λ value. is_ascii_digit byte ≡ true) }
    ensures value { IfSome result (λ value. value ≡ byte - ZERO) }
    ensures small { IfSome result (λ value. value ≤ 9) }
{
    let value = u64::from(byte).wrapping_sub(u64::from(ZERO));
    if value > 9 {
        return None;
    }
    Some(value)
}

/// The number that the first part of a list spells, and what follows the comma after that part;
/// nothing where that part spells no number.
#[inline(always)]
pub fn next_number(list: &[u8]) -> Option<(u64, Option<&[u8]>)>
    ensures first { MatchOption result (FirstIsNoNumber list.now)
        (λ found. FirstNumber list.now found.0 found.1) }
    ensures shorter { IfSome result (λ found. IfSome found.1 (λ rest.
        length rest.now < length list.now)) }
{
    let (n, count) = all_digits(list, 0, 0)?;
    if !spells(list, n, count) {
        return None;
    }
    if count == list.len() {
        return Some((n, None));
    }
    let (byte, rest) = byte_after(count, list);
    if byte != COMMA {
        return None;
    }
    Some((n, Some(rest)))
}

/// The byte after `count` bytes, and what follows it.
#[inline(always)]
pub fn byte_after(count: usize, text: &[u8]) -> (u8, &[u8])
    requires { count < length text.now }
    ensures { text.now ≡ take count text.now ++ result.0 ∷ result.1.now }
{
    (text[count], &text[count + 1..])
}

/// Whether the digits that spell a number are a word for it: at least one digit, with no leading
/// zero but for the number 0.
#[inline(always)]
fn spells(text: &[u8], number: u64, count: usize) -> bool
    requires { LeadingDigits text.now number count }
    ensures { number_of (take count text.now) ≡ if result then Some number else None }
{
    match &text[..count] {
        [] | [ZERO, _, ..] => false,
        _ => true,
    }
}

/// The number that all leading digits of a text spell, and how many there are. The first `passed`
/// of them are passed already, and spell `front`. Nothing where the number is at least 2^64.
fn all_digits(text: &[u8], front: u64, passed: usize) -> Option<(u64, usize)>
    requires { LeadingDigits text.now front passed }
    ensures { MatchOption result (TooLarge text.now)
        (λ found. AllLeadingDigits text.now found.0 found.1) }
{
    let mut n = front;
    let mut count = passed;
    'long: while count < text.len() && text[count].is_ascii_digit() {
        n = n
            .checked_mul(10)?
            .checked_add(u64::from(text[count] - ZERO))?;
        count += 1;
    }
    Some((n, count))
}
