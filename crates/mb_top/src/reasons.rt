//! Why words are no command, where they would be one with another number.

ghost use Rattle.std.specs.Prelude.{◌≡◌, [], ◌∷◌, is_none, is_some, IsSome, None};
ghost use Rattle.mb_sched.specs.Words.{number_in};
ghost use Rattle.mb_top.specs.Commands.{command_of, soak_of, node_of, kept_node_of, with_path_of, asked};

use crate::command::{LAST_HOST, MAX_BUDGET, MAX_DRAWN, command_in};
use mb_sched::{is_word, number_in};

/// What the words of a command may be, by their names in the usage line.
const EVENTS: &str = "EVENTS is 1 to 1,000,000";

const HOST: &str = "ID is the number of a host";

const SEED: &str = "SEED is 0 to 18,446,744,073,709,551,615";

const DRAWN: &str = "N is 1 to 100,000";

const TURNS: &str = "TURNS is 1 to 1,000,000";

const JUDGED: &str = "H is 0 to 6";

/// What a word may be, where it is no number from `low` to `high`.
fn beyond(low: u64, high: u64, word: &[u8], text: &'static str) -> Option<&'static str>
    ensures { is_some result ≡ is_none (number_in low high word.now) }
{
    match number_in(low, high, word) {
        Some(_) => None,
        None => Some(text),
    }
}

fn in_two_words(name: &[u8], number: &[u8]) -> Option<&'static str>
    ensures { IsSome result → command_of (name.now ∷ number.now ∷ []) ≡ None }
{
    if is_word(name, b"cluster") {
        beyond(1, MAX_BUDGET, number, TURNS)
    } else if is_word(name, b"audit") {
        beyond(0, LAST_HOST, number, JUDGED)
    } else {
        None
    }
}

fn in_soak(seed: &[u8], events: &[u8]) -> Option<&'static str>
    ensures { IsSome result → soak_of seed.now events.now ≡ None }
{
    match beyond(0, u64::MAX, seed, SEED) {
        Some(text) => Some(text),
        None => beyond(1, MAX_DRAWN, events, DRAWN),
    }
}

fn in_node(host: &[u8], events: &[u8]) -> Option<&'static str>
    ensures alone { IsSome result → node_of host.now events.now ≡ None }
    ensures kept { IsSome result → kept_node_of host.now events.now ≡ None }
{
    match beyond(0, u64::MAX, host, HOST) {
        Some(text) => Some(text),
        None => beyond(1, MAX_BUDGET, events, EVENTS),
    }
}

fn in_three_words(name: &[u8], first: &[u8], second: &[u8]) -> Option<&'static str>
    ensures { IsSome result → command_of (name.now ∷ first.now ∷ second.now ∷ []) ≡ None }
{
    if is_word(name, b"soak") {
        in_soak(first, second)
    } else if is_word(name, b"node") {
        in_node(first, second)
    } else if is_word(name, b"journal") {
        beyond(0, u64::MAX, first, HOST)
    } else {
        None
    }
}

/// Four words, of which the last, the path of a journal, may be any.
fn in_four_words(name: &[u8], host: &[u8], events: &[u8]) -> Option<&'static str>
    ensures { IsSome result → with_path_of name.now host.now events.now ≡ None }
{
    if is_word(name, b"node") {
        in_node(host, events)
    } else {
        None
    }
}

/// Why words are no command, where they would be one with another number: what the first number that is none, or stands beyond its limits, may be.
pub fn beyond_limits(words: &[String]) -> Option<&'static str>
    ensures { IsSome result → asked words.now ≡ None }
{
    match words {
        [name, number] => in_two_words(name.as_bytes(), number.as_bytes()),
        [name, first, second] => {
            in_three_words(name.as_bytes(), first.as_bytes(), second.as_bytes())
        }
        [name, host, events, _] => {
            in_four_words(name.as_bytes(), host.as_bytes(), events.as_bytes())
        }
        _ => None,
    }
}

/// Whether the words are a command.
pub fn is_command(words: &[String]) -> bool
    ensures { result ≡ is_some (asked words.now) }
{
    command_in(words).is_some()
}
