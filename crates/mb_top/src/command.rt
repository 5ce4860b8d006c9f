//! What the words of a command ask for.

ghost use Rattle.std.specs.Prelude.{◌≡◌, ◌-◌, [], ◌∷◌, length, map, slice_get, string_bytes, IfSome};
ghost use Rattle.mb_top.specs.Commands.{command_of, soak_of, node_of, kept_node_of, journal_of, cluster_of, audit_of, with_path_of, IsWithin};

use mb_base::Shape;
use mb_sched::{is_word, number_in};

/// The most events that are drawn.
pub(crate) const MAX_DRAWN: u64 = 100_000;

/// The most receives of a node, and the most turns of a client program.
pub(crate) const MAX_BUDGET: u64 = 1_000_000;

/// The greatest number that a host of any system has.
pub(crate) const LAST_HOST: u64 = 2 * Shape::MAX_F as u64;

/// What the words ask for.
#[derive(Clone, Copy, PartialEq, Eq)]
pub enum Command {
    /// A schedule is run and reported on.
    Replay,
    /// So many events are drawn from a seed and run.
    Soak { seed: u64, events: u64 },
    /// A host serves, for at most so many receives.
    Node { host: u64, events: u64 },
    /// A host serves with a journal, for at most so many receives. Its path is the last word.
    KeptNode { host: u64, events: u64 },
    /// The journal of a host is made. Its path is the last word.
    Journal { host: u64 },
    /// What a host recorded is run again.
    Retrace,
    /// A client program asks hosts that it starts, with at most so many receives for each operation.
    Cluster { turns: u64 },
    /// What the host of a record was given is held against a host.
    Audit { host: u64 },
    /// The history that a record proves is told.
    Learn,
}

fn one_word(name: &[u8]) -> Option<Command>
    ensures command { result ≡ command_of (name.now ∷ []) }
    ensures within { IfSome result IsWithin }
{
    if is_word(name, b"replay") {
        Some(Command::Replay)
    } else if is_word(name, b"retrace") {
        Some(Command::Retrace)
    } else if is_word(name, b"learn") {
        Some(Command::Learn)
    } else {
        None
    }
}

fn cluster_of(turns: &[u8]) -> Option<Command>
    ensures command { result ≡ cluster_of turns.now }
    ensures within { IfSome result IsWithin }
{
    let turns = number_in(1, MAX_BUDGET, turns)?;
    Some(Command::Cluster { turns })
}

fn audit_of(host: &[u8]) -> Option<Command>
    ensures command { result ≡ audit_of host.now }
    ensures within { IfSome result IsWithin }
{
    let host = number_in(0, LAST_HOST, host)?;
    Some(Command::Audit { host })
}

fn two_words(name: &[u8], number: &[u8]) -> Option<Command>
    ensures command { result ≡ command_of (name.now ∷ number.now ∷ []) }
    ensures within { IfSome result IsWithin }
{
    if is_word(name, b"cluster") {
        cluster_of(number)
    } else if is_word(name, b"audit") {
        audit_of(number)
    } else {
        None
    }
}

fn soak_of(seed: &[u8], events: &[u8]) -> Option<Command>
    ensures command { result ≡ soak_of seed.now events.now }
    ensures within { IfSome result IsWithin }
{
    let seed = number_in(0, u64::MAX, seed)?;
    let events = number_in(1, MAX_DRAWN, events)?;
    Some(Command::Soak { seed, events })
}

fn node_of(host: &[u8], events: &[u8]) -> Option<Command>
    ensures command { result ≡ node_of host.now events.now }
    ensures within { IfSome result IsWithin }
{
    let host = number_in(0, u64::MAX, host)?;
    let events = number_in(1, MAX_BUDGET, events)?;
    Some(Command::Node { host, events })
}

fn kept_node_of(host: &[u8], events: &[u8]) -> Option<Command>
    ensures command { result ≡ kept_node_of host.now events.now }
    ensures within { IfSome result IsWithin }
{
    let host = number_in(0, u64::MAX, host)?;
    let events = number_in(1, MAX_BUDGET, events)?;
    Some(Command::KeptNode { host, events })
}

fn journal_of(host: &[u8]) -> Option<Command>
    ensures command { result ≡ journal_of host.now }
    ensures within { IfSome result IsWithin }
{
    let host = number_in(0, u64::MAX, host)?;
    Some(Command::Journal { host })
}

fn three_words(name: &[u8], first: &[u8], second: &[u8]) -> Option<Command>
    ensures command { result ≡ command_of (name.now ∷ first.now ∷ second.now ∷ []) }
    ensures within { IfSome result IsWithin }
{
    if is_word(name, b"soak") {
        soak_of(first, second)
    } else if is_word(name, b"node") {
        node_of(first, second)
    } else if is_word(name, b"journal") {
        journal_of(first)
    } else {
        None
    }
}

/// Four words, of which the last, the path of a journal, may be any.
fn four_words(name: &[u8], host: &[u8], events: &[u8]) -> Option<Command>
    ensures command { result ≡ with_path_of name.now host.now events.now }
    ensures within { IfSome result IsWithin }
{
    if is_word(name, b"node") {
        kept_node_of(host, events)
    } else {
        None
    }
}

/// What the words ask for. The program's own name isn't among them.
pub(crate) fn command_in(words: &[String]) -> Option<Command>
    ensures command { result ≡ command_of (map string_bytes words.now) }
    ensures within { IfSome result IsWithin }
{
    match words {
        [name] => one_word(name.as_bytes()),
        [name, number] => two_words(name.as_bytes(), number.as_bytes()),
        [name, first, second] => {
            three_words(name.as_bytes(), first.as_bytes(), second.as_bytes())
        }
        [name, host, events, _] => {
            four_words(name.as_bytes(), host.as_bytes(), events.as_bytes())
        }
        _ => None,
    }
}

/// The path of a journal: the last word.
pub(crate) fn path_in(words: &[String]) -> &str
    ensures { IfSome (slice_get words.now (length words.now - 1)) (λ word. result.now ≡ string_bytes word) }
{
    match words.last() {
        Some(path) => path.as_str(),
        None => "",
    }
}
