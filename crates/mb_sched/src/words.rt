//! The words of a line, each read for itself: numbers, names, and bytes in hexadecimal.

ghost use Rattle.std.specs.Prelude.{◌≡◌, ◌<◌, ◌≤◌, ◌+◌, ◌∷◌, [], ◌==◌, if◌then◌else◌, nat_le, true, length, MatchOption, IfSome, IfOk};
ghost use Rattle.std.specs.Char.{is_ascii_digit};
ghost use Rattle.std.specs.List.{list_all, position};
ghost use Rattle.std.specs.Str.{bytes_eq};
ghost use Rattle.mb_base.specs.Limits.{batch_limit};
ghost use Rattle.mb_base.specs.Shapes.{host_count, client_count};
ghost use Rattle.mb_sched.specs.Words.{pieces, words, texts, decimal_value, is_decimal, number_in, named, host_in, client_in, name_in, is_lower_hex_digit, is_hex, is_operation, bytes_of, operation_of, digest_of};

use arrayvec::ArrayVec;
use hex::{FromHex, FromHexError};
use mb_base::{Client, Host, Items, Key, NoMemory, Shape};
use mb_parts::{MAX_BATCH_REQUESTS, TEXT_LIMIT};
use mb_schedule::Name;
use std::alloc::Global;

/// Where the first separator stands.
fn find(text: &[u8], separator: u8) -> Option<usize>
    ensures { result ≡ position (λ byte. byte == separator) text.now }
{
    text.iter().position(|byte| *byte == separator)
}

/// What stands before the first separator, and what stands behind it if there is one.
pub(crate) fn cut(text: &[u8], separator: u8) -> (&[u8], Option<&[u8]>)
    ensures parts { MatchOption result.1
        ((pieces separator text.now ≡ text.now ∷ []) × (result.0.now ≡ text.now))
        (λ behind. pieces separator text.now ≡ result.0.now ∷ pieces separator behind.now) }
    ensures shorter { IfSome result.1 (λ behind. length behind.now < length text.now) }
{
    match find(text, separator) {
        Some(at) => (&text[..at], Some(&text[at + 1..])),
        None => (text, None),
    }
}

/// The most words of an event line: five, and the numbers of the messages of a whole batch.
const MAX_WORDS: usize = 5 + MAX_BATCH_REQUESTS as usize;

/// The words of a line that has no more than an event line may have.
pub(crate) fn words_of(line: &[u8]) -> Option<ArrayVec<&[u8], MAX_WORDS>>
    ensures { MatchOption result
        (5 + batch_limit < length (words line.now)) (λ list. texts list.items ≡ words line.now) }
{
    let mut list = ArrayVec::new();
    let mut rest = Some(line);
    while let Some(text) = rest {
        let (word, behind) = cut(text, b' ');
        if list.try_push(word).is_err() {
            return None;
        }
        rest = behind;
    }
    Some(list)
}

/// Whether a word is this one.
pub fn is_word(word: &[u8], text: &[u8]) -> bool
    ensures { result ≡ bytes_eq word.now text.now }
{
    word == text
}

fn are_digits(word: &[u8]) -> bool
    ensures { result ≡ list_all is_ascii_digit word.now }
{
    word.iter().all(|byte| byte.is_ascii_digit())
}

fn is_decimal(word: &[u8]) -> bool
    ensures { result ≡ is_decimal word.now }
{
    match word {
        [] => false,
        [digit] => digit.is_ascii_digit(),
        [first, ..] => *first != b'0' && are_digits(word),
    }
}

/// The value of decimal digits, where it is at most `high`.
fn value_up_to(high: u64, digits: &[u8]) -> Option<u64>
    requires { list_all is_ascii_digit digits.now ≡ true }
    ensures { result ≡ (if nat_le (decimal_value digits.now) high then Some (decimal_value digits.now) else None) }
{
    let mut value = 0u64;
    for digit in digits {
        let next = u128::from(value) * 10 + u128::from(*digit - b'0');
        if next > u128::from(high) {
            return None;
        }
        value = next as u64;
    }
    Some(value)
}

/// A number from `low` to `high`, without sign or leading zeros.
pub fn number_in(low: u64, high: u64, word: &[u8]) -> Option<u64>
    ensures value { result ≡ number_in low high word.now }
    ensures within { IfSome result (λ n. (low ≤ n) × (n ≤ high)) }
{
    if !is_decimal(word) {
        return None;
    }
    let value = value_up_to(high, word)?;
    if value < low {
        return None;
    }
    Some(value)
}

/// The number of a name: a letter, and a number below `count`.
fn named(letter: u8, count: u8, word: &[u8]) -> Option<u8>
    requires { 0 < count }
    ensures value { result ≡ named letter count word.now }
    ensures within { IfSome result (λ n. n < count) }
{
    match word {
        [first, digits @ ..] if *first == letter => {
            let number = number_in(0, u64::from(count - 1), digits)?;
            Some(number as u8)
        }
        _ => None,
    }
}

/// A host by its name, as `h2`.
pub(crate) fn host_in(shape: Shape, word: &[u8]) -> Option<Host>
    ensures { result ≡ host_in (host_count shape) word.now }
{
    named(b'h', shape.n(), word)
}

/// A client by its name, as `c2`.
pub(crate) fn client_in(shape: Shape, word: &[u8]) -> Option<Client>
    ensures { result ≡ client_in (client_count shape) word.now }
{
    named(b'c', shape.clients(), word)
}

/// A host or a client by its name.
pub(crate) fn name_in(shape: Shape, word: &[u8]) -> Option<Name>
    ensures { result ≡ name_in (host_count shape) (client_count shape) word.now }
{
    if let Some(host) = host_in(shape, word) {
        return Some(Name::Host(host));
    }
    let client = client_in(shape, word)?;
    Some(Name::Client(client))
}

fn is_lower_hex_digit(byte: u8) -> bool
    ensures { result ≡ is_lower_hex_digit byte }
{
    byte.is_ascii_digit() || (b'a' <= byte && byte <= b'f')
}

fn are_lower_hex_digits(word: &[u8]) -> bool
    ensures { result ≡ list_all is_lower_hex_digit word.now }
{
    word.iter().all(|byte| is_lower_hex_digit(*byte))
}

/// Whether a word is lower-case hexadecimal of at least one byte, or a dash for no bytes.
pub(crate) fn is_hex(word: &[u8]) -> bool
    ensures { result ≡ is_hex word.now }
{
    is_word(word, b"-") || (are_lower_hex_digits(word) && word.len() > 0 && word.len() % 2 == 0)
}

/// The same, of at most 1,024 bytes.
pub(crate) fn is_operation(word: &[u8]) -> bool
    ensures { result ≡ is_operation word.now }
{
    is_hex(word) && word.len() <= 2 * TEXT_LIMIT as usize
}

/// The bytes of a word in hexadecimal.
pub(crate) fn bytes_of(alloc: Global, word: &[u8]) -> Result<Option<Items<u8>>, NoMemory>
    ensures { IfOk result (λ bytes. bytes ≡ bytes_of word.now) }
{
    if !is_hex(word) {
        return Ok(None);
    }
    if is_word(word, b"-") {
        return Ok(Some(Items::new(alloc)));
    }
    match hex::decode(alloc, word) {
        Ok(bytes) => Ok(Some(Items::from_vec(bytes))),
        Err(FromHexError::OutOfMemory) => Err(NoMemory),
        Err(_) => Ok(None),
    }
}

/// The bytes of an operation or a result.
pub(crate) fn operation_of(alloc: Global, word: &[u8]) -> Result<Option<Items<u8>>, NoMemory>
    ensures { IfOk result (λ bytes. bytes ≡ operation_of word.now) }
{
    if !is_operation(word) {
        return Ok(None);
    }
    bytes_of(alloc, word)
}

/// 32 bytes in hexadecimal of either case.
pub(crate) fn digest_of(word: &[u8]) -> Option<Key>
    ensures { result ≡ digest_of word.now }
{
    <Key as FromHex>::from_hex(word).ok()
}
