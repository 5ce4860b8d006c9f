//! Configs: the settings of a system, and the operations that its client program asks for.

ghost use Rattle.std.specs.Prelude.{◌≡◌, ◌≤◌, ◌++◌, length, IfOk, OnOk, string_bytes};
ghost use Rattle.std.specs.List.{flat_map};
ghost use Rattle.mb_sched.specs.Lines.{lines, is_ended, Answers};
ghost use Rattle.mb_sched.specs.TextLines.{all_lines, ReadsText};
ghost use Rattle.mb_sched.specs.declared.configs.Config.{Config};
ghost use Rattle.mb_base.specs.Shapes.{Bytes};
ghost use Rattle.mb_sched.specs.Spellings.{SpellsConfig};
ghost use Rattle.mb_sched.specs.Configs.{ConfigContents, max_config, op_line, config_of, config_contents, op_text, config_text, ConfigFits};

use crate::bad_text::BadText;
use crate::lines::Lines;
use crate::printing::hex_word;
use crate::settings::{print_settings, read_settings};
use crate::text_lines::word_behind;
use crate::words::operation_of;
use mb_base::{Items, Key, NoMemory, Shape};
use std::alloc::Global;
use std::fmt::Write;

/// The most bytes that the text of a config may have.
pub const MAX_CONFIG: usize = 16_777_216;

/// The number of the first operation's line. Lines count from 1.
const FIRST_OP_LINE: u32 = 7;

/// What a cluster runs: its system, and the operations that its client program asks for, in order.
#[derive(PartialEq, Drop)]
pub struct Config {
    pub shape: Shape,
    pub secret: Key,
    /// The UDP port of host 0, 1,024 to 60,000.
    pub port: u16,
    /// Each has at most 1,024 bytes.
    pub ops: Items<Items<u8>>,
}

/// Reads the config of a text. Each line ends with LF, its words are parted by one space, and numbers
/// are decimal without sign or leading zeros:
///
/// ```text
/// minbft config 2
/// f F                   1 to 3
/// k K                   4 to 32
/// clients C             1 to 64
/// secret DIGITS         64 hexadecimal digits of either case
/// port P                1024 to 60000
/// op HEX                for each operation: at most 1,024 bytes in lower-case hexadecimal, or `-` for none
/// ```
///
/// `TooLong` comes exactly where the text has more than `MAX_CONFIG` bytes, before any other answer.
/// Else `BadLine` comes exactly where some line is bad, with the number of the first, unless memory runs out before. One of the first
/// six lines that is missing is bad, and so is a last line without LF. `NoMemory` comes where memory
/// runs out, and nowhere else.
pub fn parse_config(alloc: Global, text: &[u8]) -> Result<Config, BadText>
    ensures { ReadsText max_config config_contents config_of result text.now }
{
    if text.len() > MAX_CONFIG {
        return Err(BadText::TooLong);
    }
    read_config(alloc, text)
}

#[tactic(auto, unfolding(crate::specs::Configs::config_of))]
fn read_config(alloc: Global, text: &[u8]) -> Result<Config, BadText>
    requires { length text.now ≤ max_config }
    ensures { Answers config_contents result (config_of text.now) }
{
    let mut lines = Lines::over(text);
    let settings = read_settings(b"minbft config 2", &mut lines)?;
    let ops = read_ops(alloc, lines)?;
    let secret = settings.secret;
    Ok(Config {
        shape: settings.shape,
        secret,
        port: settings.port,
        ops,
    })
}

/// Reads the operations, whose lines come behind the settings.
fn read_ops(alloc: Global, mut unread: Lines<'_>) -> Result<Items<Items<u8>>, BadText>
    requires { length unread.rest.now ≤ max_config }
    ensures { Answers (λ ops. ops) result
        (all_lines op_line (is_ended unread.entry.rest.now) 7 (lines unread.entry.rest.now)) }
{
    let mut ops = Items::new(alloc);
    let mut number = FIRST_OP_LINE;
    while let Some(line) = unread.next_line() {
        let Some(op) = op_line(alloc, line)? else {
            return Err(BadText::BadLine { number });
        };
        ops.push(op)?;
        number += 1;
    }
    if !unread.is_empty() {
        return Err(BadText::BadLine { number });
    }
    Ok(ops)
}

/// `op HEX`
fn op_line(alloc: Global, line: &[u8]) -> Result<Option<Items<u8>>, NoMemory>
    ensures { IfOk result (λ op. op ≡ op_line line.now) }
{
    match word_behind(b"op", line) {
        Some(word) => operation_of(alloc, word),
        None => Ok(None),
    }
}

/// The text of a config, as `parse_config` reads it, with the secret in lower case. `NoMemory` comes
/// where memory runs out, and nowhere else.
#[tactic(auto, unfolding(crate::specs::Configs::config_text))]
pub fn print_config(alloc: Global, config: &Config) -> Result<Vec<u8>, NoMemory>
    ensures { IfOk result (λ text. text.items ≡ config_text config.now) }
{
    let mut out = String::new(alloc);
    writeln!(out, "minbft config 2")?;
    print_settings(alloc, &mut out, config.shape, &config.secret, config.port)?;
    print_ops(alloc, &mut out, config.ops.as_slice())?;
    Ok(out.into_bytes())
}

fn print_ops(alloc: Global, out: &mut String, ops: &[Items<u8>]) -> Result<(), NoMemory>
    ensures { OnOk result (string_bytes out.new ≡ string_bytes out.old ++ flat_map op_text ops.now) }
{
    for op in ops {
        print_op(alloc, out, op.as_slice())?;
    }
    Ok(())
}

fn print_op(alloc: Global, out: &mut String, op: &[u8]) -> Result<(), NoMemory>
    ensures { OnOk result (string_bytes out.new ≡ string_bytes out.old ++ op_text op.now) }
{
    let op = hex_word(alloc, op)?;
    writeln!(out, "op {op}")?;
    Ok(())
}

/// A config that keeps the limits is read again from the text that it is printed as.
pub fn printed_configs_are_read()
    ensures { (c : Config) → ConfigFits c → config_of (config_text c) ≡ Ok (config_contents c) }
{}

/// A text is read as a config exactly where it spells it.
pub fn configs_are_their_spellings()
    ensures spelled { (text : Bytes) (c : ConfigContents) → config_of text ≡ Ok c → SpellsConfig text c }
    ensures read { (text : Bytes) (c : ConfigContents) → SpellsConfig text c → config_of text ≡ Ok c }
{}
