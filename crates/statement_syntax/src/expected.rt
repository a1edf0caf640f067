//! What has to come next. Where it doesn't, or memory is refused, the reader stops: no token comes next any more, and what is
//! read from there on stands in no tree that is answered.

use expression_syntax::faults::{ExpectedToken, SyntaxRead, SyntaxStop};
use expression_syntax::reader::Reader;
use expression_syntax::reading::{read_expression, read_parenthesized};
use expression_syntax::refusals::Refused;
use expression_syntax::texts::TokenSource;
use lexemes::token::{Keyword, Sign};
use std::alloc::AllocError;
use syntax_tree::expressions::VerilogExpression;

/// Stops at the next token, where the text goes on with something else.
pub fn stop_expecting(source: &TokenSource<'_>, reader: &mut Reader, expected: ExpectedToken) {
    reader.stop(source, SyntaxStop::Expected(expected));
}

/// Stops where a step of the reader failed.
pub fn or_stop(step: SyntaxRead<()>, source: &TokenSource<'_>, reader: &mut Reader) {
    if let Err(why) = step {
        reader.stop(source, why);
    }
}

/// The expression that was read, or one that is refused, where reading stops.
pub fn expression_or_stop(
    read: SyntaxRead<VerilogExpression>,
    source: &TokenSource<'_>,
    reader: &mut Reader,
) -> VerilogExpression {
    match read {
        Ok(found) => found,
        Err(why) => {
            reader.stop(source, why);
            VerilogExpression::Refused {
                token: reader.place(),
            }
        }
    }
}

/// Reads an expression.
pub fn parse_expression(source: &TokenSource<'_>, reader: &mut Reader) -> VerilogExpression {
    expression_or_stop(read_expression(source, reader), source, reader)
}

/// Reads an expression, or min:typ:max, in parentheses.
pub fn parse_parenthesized(source: &TokenSource<'_>, reader: &mut Reader) -> VerilogExpression {
    expression_or_stop(read_parenthesized(source, reader), source, reader)
}

/// Takes this sign, which has to come next.
pub fn take_sign(source: &TokenSource<'_>, reader: &mut Reader, sign: Sign) {
    if !reader.accept(source, sign) {
        stop_expecting(source, reader, ExpectedToken::Sign(sign));
    }
}

/// Takes this word, which has to come next.
pub fn take_word(source: &TokenSource<'_>, reader: &mut Reader, word: Keyword) {
    if !reader.accept_word(source, word) {
        stop_expecting(source, reader, ExpectedToken::Keyword(word));
    }
}

/// Takes a bracket that opens, which has to come next.
pub fn open_bracket(source: &TokenSource<'_>, reader: &mut Reader, bracket: Sign) {
    take_sign(source, reader, bracket);
    or_stop(reader.open(), source, reader);
}

/// Takes a bracket that closes, which has to come next.
pub fn close_bracket(source: &TokenSource<'_>, reader: &mut Reader, bracket: Sign) {
    take_sign(source, reader, bracket);
    reader.close();
}

/// Takes `;`, behind which operators count anew.
pub fn parse_semicolon(source: &TokenSource<'_>, reader: &mut Reader) {
    take_sign(source, reader, Sign::Semicolon);
    reader.end_statement();
}

/// Refuses the construct at a token, unless reading stopped before.
pub fn refuse(source: &TokenSource<'_>, reader: &mut Reader, token: usize, construct: Refused) {
    if reader.stopped().is_none() && reader.refuse(token, construct).is_err() {
        reader.stop(source, SyntaxStop::Memory);
    }
}

/// Refuses the construct that comes next.
pub fn refuse_next(source: &TokenSource<'_>, reader: &mut Reader, construct: Refused) {
    refuse(source, reader, reader.place(), construct);
}

/// Adds one more, unless memory is refused.
#[inline(never)]
pub fn add<T: Drop>(found: &mut Vec<T>, one: T, source: &TokenSource<'_>, reader: &mut Reader) {
    if found.push(one).is_err() {
        reader.stop(source, SyntaxStop::Memory);
    }
}

/// A value in a box, and none where memory is refused.
pub fn boxed<T: Drop>(one: T, source: &TokenSource<'_>, reader: &mut Reader) -> Option<Box<T>> {
    match Box::new(source.alloc, one) {
        Ok(made) => Some(made),
        Err(_) => {
            reader.stop(source, SyntaxStop::Memory);
            None
        }
    }
}

/// The bytes that were copied, and none where memory was refused.
pub fn bytes_or_stop(
    copied: Result<Vec<u8>, AllocError>,
    source: &TokenSource<'_>,
    reader: &mut Reader,
) -> Vec<u8> {
    match copied {
        Ok(bytes) => bytes,
        Err(_) => {
            reader.stop(source, SyntaxStop::Memory);
            Vec::new(source.alloc)
        }
    }
}
