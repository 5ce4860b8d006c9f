//! The header of a schedule: its first six lines.

ghost use Rattle.std.specs.Prelude.{◌≡◌, ◌≤◌, ◌∷◌, drop, IfSome, IfOk, length, map};
ghost use Rattle.std.specs.Option.{option_copied as copied};
ghost use Rattle.std.specs.List.{list_any, count_by, range_with_len};
ghost use Rattle.mb_base.specs.Shapes.{max_faults, host_count, client_count};
ghost use Rattle.mb_sched.specs.Words.{words, words_behind, all_of, name_in};
ghost use Rattle.mb_sched.specs.Lines.{lines, is_ended, read_line, Answers};
ghost use Rattle.mb_sched.specs.Headers.{is_host_name, is_before, rise, are_faulty, is_host_of, is_client_of, marks_of, faulty_line, header_by, header_of, header_contents};

use crate::bad_text::BadText;
use crate::lines::Lines;
use crate::text_lines::{read_key, read_number, read_title};
use crate::words::{cut, is_word, name_in};
use mb_base::{Client, Host, Items, Key, NoMemory, Shape};
use mb_schedule::Name;
use std::alloc::Global;

/// A mark for each host, and one for each client.
#[derive(Drop)]
pub(crate) struct Marks {
    pub(crate) hosts: Items<bool>,
    pub(crate) clients: Items<bool>,
}

/// What a header says, and who is faulty by it.
#[derive(Drop)]
pub(crate) struct Header {
    pub(crate) shape: Shape,
    pub(crate) secret: Key,
    pub(crate) faulty: Marks,
}

/// Reads the header's lines, which come first in a text.
pub(crate) fn read_header(alloc: Global, unread: &mut Lines<'_>) -> Result<Header, BadText>
    ensures read { Answers header_contents result (header_of (lines unread.old.rest.now)) }
    ensures left { lines unread.new.rest.now ≡ drop 6 (lines unread.old.rest.now) }
    ensures ended { is_ended unread.new.rest.now ≡ is_ended unread.old.rest.now }
    ensures shorter { length unread.new.rest.now ≤ length unread.old.rest.now }
{
    let title = unread.next_line();
    let f = unread.next_line();
    let k = unread.next_line();
    let clients = unread.next_line();
    let secret = unread.next_line();
    let faulty = unread.next_line();
    header_by(alloc, title, f, k, clients, secret, faulty)
}

/// Reads the six lines, each of which may be missing. Each is read only once those before it are right.
#[tactic(auto, unfolding(crate::specs::Headers::header_by))]
fn header_by(
    alloc: Global,
    title: Option<&[u8]>,
    f: Option<&[u8]>,
    k: Option<&[u8]>,
    clients: Option<&[u8]>,
    secret: Option<&[u8]>,
    faulty: Option<&[u8]>,
) -> Result<Header, BadText>
    ensures { Answers header_contents result (header_by (copied title.entry) (copied f.entry) (copied k.entry) (copied clients.entry) (copied secret.entry) (copied faulty.entry)) }
{
    read_title(b"minbft schedule 2", title)?;
    let f = read_number(2, b"f", 1, u16::from(Shape::MAX_F), f)?;
    let k = read_number(3, b"k", u16::from(Shape::MIN_K), u16::from(Shape::MAX_K), k)?;
    let clients = read_number(4, b"clients", 1, u16::from(Shape::MAX_CLIENTS), clients)?;
    let secret = read_key(5, b"secret", secret)?;
    let Ok(shape) = Shape::new(f as u8, k as u8, clients as u8) else {
        unreachable!()
    };
    let faulty = read_faulty(alloc, shape, faulty)?;
    Ok(Header {
        shape,
        secret,
        faulty,
    })
}

/// Line 6: `faulty` and the names of whom is faulty.
fn read_faulty(alloc: Global, shape: Shape, line: Option<&[u8]>) -> Result<Marks, BadText>
    ensures { Answers (λ marks. marks) result
        (read_line 6 (faulty_line (max_faults shape) (client_count shape)) (copied line.entry)) }
{
    let Some(line) = line else {
        return Err(BadText::BadLine { number: 6 });
    };
    match faulty_line(alloc, shape, line)? {
        Some(marks) => Ok(marks),
        None => Err(BadText::BadLine { number: 6 }),
    }
}

fn faulty_line(alloc: Global, shape: Shape, line: &[u8]) -> Result<Option<Marks>, NoMemory>
    ensures { IfOk result (λ marks. marks
        ≡ faulty_line (max_faults shape) (client_count shape) line.now) }
{
    let (first, behind) = first_word(line);
    if !is_word(first, b"faulty") {
        return Ok(None);
    }
    let Some(names) = names_behind(alloc, shape, behind)? else {
        return Ok(None);
    };
    if !are_faulty(shape, names.as_slice()) {
        return Ok(None);
    }
    Ok(Some(marks_of(alloc, shape, names.as_slice())?))
}

/// The first word of a line, and what stands behind it if there is more.
fn first_word(line: &[u8]) -> (&[u8], Option<&[u8]>)
    ensures { words line.now ≡ result.0.now ∷ words_behind (copied result.1) }
{
    cut(line, b' ')
}

/// The names that the words behind a line's first one are. None where one of them is no name.
fn names_behind(
    alloc: Global,
    shape: Shape,
    behind: Option<&[u8]>,
) -> Result<Option<Items<Name>>, NoMemory>
    ensures { IfOk result (λ names. names ≡ all_of
        (name_in (host_count shape) (client_count shape)) (words_behind (copied behind.entry))) }
{
    let mut names = Items::new(alloc);
    let mut rest = behind;
    while let Some(text) = rest {
        let (word, more) = cut(text, b' ');
        let Some(name) = name_in(shape, word) else {
            return Ok(None);
        };
        names.push(name)?;
        rest = more;
    }
    Ok(Some(names))
}

/// Whether these are hosts and then clients, each rising, with at most f hosts.
#[tactic(auto, unfolding(crate::specs::Headers::are_faulty))]
fn are_faulty(shape: Shape, names: &[Name]) -> bool
    ensures { result ≡ are_faulty (max_faults shape) names.now }
{
    rise(names) && hosts_among(names) <= usize::from(shape.f())
}

fn hosts_among(names: &[Name]) -> usize
    ensures { result ≡ count_by is_host_name names.now }
{
    names.iter().filter(|name| is_host_name(**name)).count()
}

fn is_host_name(name: Name) -> bool
    ensures { result ≡ is_host_name name }
{
    match name {
        Name::Host(_) => true,
        Name::Client(_) => false,
    }
}

/// Whether each stands before the next.
fn rise(names: &[Name]) -> bool
    ensures { result ≡ rise names.now }
{
    match names {
        [] => true,
        [first, more @ ..] => match more {
            [] => true,
            [second, ..] => is_before(*first, *second) && rise(more),
        },
    }
}

/// Hosts stand before clients, and smaller numbers before greater ones.
fn is_before(first: Name, second: Name) -> bool
    ensures { result ≡ is_before first second }
{
    match (first, second) {
        (Name::Host(first), Name::Host(second)) => first < second,
        (Name::Host(_), Name::Client(_)) => true,
        (Name::Client(_), Name::Host(_)) => false,
        (Name::Client(first), Name::Client(second)) => first < second,
    }
}

/// True for each host and each client that has its name among these.
fn marks_of(alloc: Global, shape: Shape, names: &[Name]) -> Result<Marks, NoMemory>
    ensures { IfOk result (λ marks. marks ≡ marks_of (host_count shape) (client_count shape) names.now) }
{
    let hosts = marked_hosts(alloc, shape.n(), names)?;
    let clients = marked_clients(alloc, shape.clients(), names)?;
    Ok(Marks { hosts, clients })
}

fn marked_hosts(alloc: Global, count: u8, names: &[Name]) -> Result<Items<bool>, NoMemory>
    ensures { IfOk result (λ marks. marks
        ≡ map (λ h. list_any (is_host_of h) names.now) (range_with_len 0 count)) }
{
    let mut marks = Items::new(alloc);
    for host in 0..count {
        marks.push(names_host(names, host))?;
    }
    Ok(marks)
}

fn marked_clients(alloc: Global, count: u8, names: &[Name]) -> Result<Items<bool>, NoMemory>
    ensures { IfOk result (λ marks. marks
        ≡ map (λ c. list_any (is_client_of c) names.now) (range_with_len 0 count)) }
{
    let mut marks = Items::new(alloc);
    for client in 0..count {
        marks.push(names_client(names, client))?;
    }
    Ok(marks)
}

fn names_host(names: &[Name], host: Host) -> bool
    ensures { result ≡ list_any (is_host_of host) names.now }
{
    names.iter().any(|name| is_host_of(host, *name))
}

fn names_client(names: &[Name], client: Client) -> bool
    ensures { result ≡ list_any (is_client_of client) names.now }
{
    names.iter().any(|name| is_client_of(client, *name))
}

fn is_host_of(number: Host, name: Name) -> bool
    ensures { result ≡ is_host_of number name }
{
    match name {
        Name::Host(host) => host == number,
        Name::Client(_) => false,
    }
}

fn is_client_of(number: Client, name: Name) -> bool
    ensures { result ≡ is_client_of number name }
{
    match name {
        Name::Host(_) => false,
        Name::Client(client) => client == number,
    }
}
