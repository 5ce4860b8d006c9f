//! The lines that configs and records begin with.

ghost use Rattle.std.specs.Prelude.{◌≡◌, ◌≤◌, ◌++◌, drop, length, OnOk, IfOk, string_bytes};
ghost use Rattle.std.specs.Option.{option_copied as copied};
ghost use Rattle.mb_sched.specs.Lines.{lines, is_ended, Answers};
ghost use Rattle.mb_sched.specs.Settings.{settings_by, settings_of, settings_contents, settings_text};

use crate::bad_text::BadText;
use crate::lines::Lines;
use crate::text_lines::{read_key, read_number, read_title};
use mb_base::{Key, NoMemory, Shape};
use std::alloc::Global;
use std::fmt::Write;

/// The lowest port that a config may name.
const MIN_PORT: u16 = 1024;

/// The highest port that a config may name.
const MAX_PORT: u16 = 60_000;

/// What the lines `f`, `k`, `clients`, `secret` and `port` say.
#[derive(Clone, Copy)]
pub(crate) struct Settings {
    pub(crate) shape: Shape,
    pub(crate) secret: Key,
    pub(crate) port: u16,
}

/// Reads the title and the lines of settings, which come first in a text.
pub(crate) fn read_settings(title: &[u8], unread: &mut Lines<'_>) -> Result<Settings, BadText>
    ensures read { Answers settings_contents result (settings_of title.now (lines unread.old.rest.now)) }
    ensures left { lines unread.new.rest.now ≡ drop 6 (lines unread.old.rest.now) }
    ensures ended { is_ended unread.new.rest.now ≡ is_ended unread.old.rest.now }
    ensures shorter { length unread.new.rest.now ≤ length unread.old.rest.now }
{
    let first = unread.next_line();
    let f = unread.next_line();
    let k = unread.next_line();
    let clients = unread.next_line();
    let secret = unread.next_line();
    let port = unread.next_line();
    settings_by(title, first, f, k, clients, secret, port)
}

/// Reads the six lines, each of which may be missing. Each is read only once those before it are right.
#[tactic(auto, unfolding(crate::specs::Settings::settings_by))]
fn settings_by(
    title: &[u8],
    first: Option<&[u8]>,
    f: Option<&[u8]>,
    k: Option<&[u8]>,
    clients: Option<&[u8]>,
    secret: Option<&[u8]>,
    port: Option<&[u8]>,
) -> Result<Settings, BadText>
    ensures { Answers settings_contents result (settings_by title.now (copied first.entry) (copied f.entry) (copied k.entry) (copied clients.entry) (copied secret.entry) (copied port.entry)) }
{
    read_title(title, first)?;
    let f = read_number(2, b"f", 1, u16::from(Shape::MAX_F), f)?;
    let k = read_number(3, b"k", u16::from(Shape::MIN_K), u16::from(Shape::MAX_K), k)?;
    let clients = read_number(4, b"clients", 1, u16::from(Shape::MAX_CLIENTS), clients)?;
    let secret = read_key(5, b"secret", secret)?;
    let port = read_number(6, b"port", MIN_PORT, MAX_PORT, port)?;
    let Ok(shape) = Shape::new(f as u8, k as u8, clients as u8) else {
        unreachable!()
    };
    Ok(Settings {
        shape,
        secret,
        port,
    })
}

/// The lines behind the title.
pub(crate) fn print_settings(
    alloc: Global,
    out: &mut String,
    shape: Shape,
    secret: &Key,
    port: u16,
) -> Result<(), NoMemory>
    ensures { OnOk result (string_bytes out.new
        ≡ string_bytes out.old ++ settings_text shape secret.now port) }
{
    let secret = hex::encode(alloc, secret.as_slice())?;
    writeln!(out, "f {}", shape.f())?;
    writeln!(out, "k {}", shape.k())?;
    writeln!(out, "clients {}", shape.clients())?;
    writeln!(out, "secret {secret}")?;
    writeln!(out, "port {port}")?;
    Ok(())
}
