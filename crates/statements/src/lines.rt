//! In which lines a process does something.

ghost use Rattle.std.specs.Prelude.{◌≡◌, ◌++◌, flat_map, map, if◌then◌else◌, option_map, IfOk, OnOk};
ghost use Rattle.std.specs.List.{filter};
ghost use Rattle.statements.specs.PlainStatementTokens.{plain_statement_token};
ghost use Rattle.statements.specs.StatementLines.{sought_byte, is_sought, is_spelled, last_byte, line_of_byte, lines_of_tokens};

use crate::part::{StatementPart, is_part};
use crate::statement_token::StatementToken;
use locations::location_of_byte;
use std::alloc::{AllocError, Global};

/// What is looked for: what is done, by which process, counted from 0, and to which register, by its name, where that matters.
#[derive(Clone, Copy)]
pub struct SoughtPart<'a> {
    pub part: StatementPart,
    pub process: u32,
    pub name: Option<&'a str>,
}

/// The lines of the first and of the last of some tokens, counted from 1.
#[derive(Clone, Copy)]
pub struct LineRange {
    pub first: usize,
    pub last: usize,
}

/// The line of a byte, counted from 1.
pub fn line_of_byte(source: &[u8], byte: usize) -> usize
    ensures { result ≡ line_of_byte source.now byte }
{
    location_of_byte(source, byte).line
}

/// Whether a token is spelled with a name, or with any where none is given.
fn is_spelled(token: &StatementToken<'_>, name: Option<&str>) -> bool
    ensures { result ≡ is_spelled (option_map (λ name. name.now) name.entry) token.now.text.now }
{
    match name {
        Some(name) => token.text.as_bytes() == name.as_bytes(),
        None => true,
    }
}

/// Whether a token does what is looked for.
fn is_sought(token: &StatementToken<'_>, sought: &SoughtPart<'_>) -> bool
    ensures { result ≡ is_sought sought.now.part sought.now.process (option_map (λ name. name.now) sought.now.name) (plain_statement_token token.now) }
{
    is_part(token.part, sought.part)
        && token.process == sought.process as usize + 1
        && is_spelled(token, sought.name)
}

/// The first byte of a token, if it does what is looked for, and else this byte.
fn byte_if_sought(token: &StatementToken<'_>, sought: &SoughtPart<'_>, byte: usize) -> usize
    ensures { result ≡ (if is_sought sought.now.part sought.now.process (option_map (λ name. name.now) sought.now.name) (plain_statement_token token.now) then token.now.byte else byte) }
{
    if is_sought(token, sought) {
        token.byte
    } else {
        byte
    }
}

/// The first byte of the last token that does what is looked for, and this byte where none does.
fn last_byte(tokens: &[StatementToken<'_>], sought: &SoughtPart<'_>, byte: usize) -> usize
    ensures { result ≡ last_byte byte (filter (is_sought sought.now.part sought.now.process (option_map (λ name. name.now) sought.now.name)) (map plain_statement_token tokens.now)) }
{
    let mut left = tokens;
    let mut last = byte;
    while let [token, rest @ ..] = left {
        last = byte_if_sought(token, sought, last);
        left = rest;
    }
    last
}

/// The lines of the first and the last token of a source that does what is looked for, if one does.
pub fn lines_of(
    source: &[u8],
    tokens: &[StatementToken<'_>],
    sought: &SoughtPart<'_>,
) -> Option<LineRange>
    ensures { result ≡ lines_of_tokens source.now (filter (is_sought sought.now.part sought.now.process (option_map (λ name. name.now) sought.now.name)) (map plain_statement_token tokens.now)) }
{
    let mut left = tokens;
    while let [token, rest @ ..] = left {
        if is_sought(token, sought) {
            let last = last_byte(rest, sought, token.byte);
            return Some(LineRange {
                first: line_of_byte(source, token.byte),
                last: line_of_byte(source, last),
            });
        }
        left = rest;
    }
    None
}

/// Adds the first byte of a token to others, if it does what is looked for. Fails where memory is refused.
fn push_if_sought(
    bytes: &mut Vec<usize>,
    token: &StatementToken<'_>,
    sought: &SoughtPart<'_>,
) -> Result<(), AllocError>
    ensures { OnOk result (bytes.new.items ≡ bytes.old.items ++ sought_byte sought.now.part sought.now.process (option_map (λ name. name.now) sought.now.name) (plain_statement_token token.now)) }
{
    if !is_sought(token, sought) {
        return Ok(());
    }
    bytes.push(token.byte)?;
    Ok(())
}

/// The first bytes of the tokens that do what is looked for, in their order. Fails where memory is refused.
pub fn sought_bytes(
    alloc: Global,
    tokens: &[StatementToken<'_>],
    sought: &SoughtPart<'_>,
) -> Result<Vec<usize>, AllocError>
    ensures { IfOk result (λ bytes. bytes.items ≡ flat_map (λ t. sought_byte sought.now.part sought.now.process (option_map (λ name. name.now) sought.now.name) (plain_statement_token t)) tokens.now) }
{
    let mut bytes = Vec::new(alloc);
    for place in 0..tokens.len() {
        push_if_sought(&mut bytes, &tokens[place], sought)?;
    }
    Ok(bytes)
}
