//! Lines that begin with a keyword, each read for itself.

ghost use Rattle.std.specs.Prelude.{◌≡◌, ◌≤◌, IfOk};
ghost use Rattle.std.specs.Option.{option_copied};
ghost use Rattle.mb_sched.specs.Words.{number_in, digest_of};
ghost use Rattle.mb_sched.specs.Lines.{read_line, Answers};
ghost use Rattle.mb_sched.specs.TextLines.{exact_line, word_behind, keyword_line};

use crate::bad_text::BadText;
use crate::words::{digest_of, is_word, number_in, words_of};
use mb_base::Key;

/// The word behind a keyword, on a line of these two words.
pub(crate) fn word_behind<'a>(keyword: &[u8], line: &'a [u8]) -> Option<&'a [u8]>
    ensures { option_copied result ≡ word_behind keyword.now line.now }
{
    let Some(words) = words_of(line) else {
        return None;
    };
    let [first, word] = words.as_slice() else {
        return None;
    };
    if !is_word(first, keyword) {
        return None;
    }
    Some(*word)
}

/// Line 1, which is the title of the text.
pub(crate) fn read_title(title: &[u8], line: Option<&[u8]>) -> Result<(), BadText>
    ensures { Answers (λ x. x) result (read_line 1 (exact_line title.now) (option_copied line.entry)) }
{
    match line {
        Some(line) if is_word(line, title) => Ok(()),
        _ => Err(BadText::BadLine { number: 1 }),
    }
}

/// A line of a keyword and a number from `low` to `high`.
pub(crate) fn read_number(
    number: u32,
    keyword: &[u8],
    low: u16,
    high: u16,
    line: Option<&[u8]>,
) -> Result<u16, BadText>
    ensures read { Answers (λ n. n) result
        (read_line number (keyword_line keyword.now (number_in low high)) (option_copied line.entry)) }
    ensures within { IfOk result (λ n. (low ≤ n) × (n ≤ high)) }
{
    let Some(line) = line else {
        return Err(BadText::BadLine { number });
    };
    let Some(word) = word_behind(keyword, line) else {
        return Err(BadText::BadLine { number });
    };
    let Some(value) = number_in(u64::from(low), u64::from(high), word) else {
        return Err(BadText::BadLine { number });
    };
    Ok(value as u16)
}

/// A line of a keyword and 64 hexadecimal digits of either case.
pub(crate) fn read_key(number: u32, keyword: &[u8], line: Option<&[u8]>) -> Result<Key, BadText>
    ensures { Answers (λ x. x) result
        (read_line number (keyword_line keyword.now digest_of) (option_copied line.entry)) }
{
    let Some(line) = line else {
        return Err(BadText::BadLine { number });
    };
    let Some(word) = word_behind(keyword, line) else {
        return Err(BadText::BadLine { number });
    };
    let Some(key) = digest_of(word) else {
        return Err(BadText::BadLine { number });
    };
    Ok(key)
}
