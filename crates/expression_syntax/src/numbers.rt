//! Numbers and strings.

ghost use Rattle.std.specs.Prelude.{◌≡◌, true, IfOk};
ghost use Rattle.syntax_tree.specs.Expressions.{plain_expression_of};
ghost use Rattle.expression_syntax.specs.declared.operators.PrimaryForm.TheVariants as primary;
ghost use Rattle.expression_syntax.specs.Attributes.{tokens_of};
ghost use Rattle.expression_syntax.specs.ExpressionGrammar.{IsPrimary, IsNode};
ghost use Rattle.expression_syntax.specs.Operators.{primary_form};
ghost use Rattle.expression_syntax.specs.Places.{kind_at, base_at, behind};

use crate::faults::SyntaxRead;
use crate::nodes::{number_of, real_of, refused_of, text_of};
use crate::reader::Reader;
use crate::refusals::Refused;
use crate::spelling::string_text;
use crate::texts::{TokenSource, token_bytes, token_copy};
use numerals::number::{NumberReading, based_number, plain_number, sized_number};
use syntax_tree::expressions::VerilogExpression;

/// The node of a number. One that no vector holds is refused.
fn number_node(
    source: &TokenSource<'_>,
    reader: &mut Reader,
    token: usize,
    reading: NumberReading,
) -> SyntaxRead<Box<VerilogExpression>>
    ensures same { reader.new.place ≡ reader.old.place }
    ensures node { IfOk result (λ e. IsNode token reading (plain_expression_of e.value)) }
{
    match reading {
        NumberReading::Value(number) => Ok(number_of(source.alloc, token, &number)?),
        NumberReading::Wide => {
            reader.refuse(token, Refused::WideNumber)?;
            Ok(refused_of(source.alloc, token)?)
        }
        NumberReading::Malformed => {
            reader.refuse(token, Refused::MalformedNumber)?;
            Ok(refused_of(source.alloc, token)?)
        }
    }
}

/// Reads what stands behind a size.
fn parse_sized(
    source: &TokenSource<'_>,
    reader: &mut Reader,
    size: usize,
) -> SyntaxRead<Box<VerilogExpression>>
    requires number { primary_form (kind_at (tokens_of source.now) size) ≡ primary.Number }
    requires follows { reader.old.place ≡ behind (tokens_of source.now) size }
    requires base { base_at (tokens_of source.now) reader.old.place ≡ true }
    ensures { IfOk result (λ e. IsPrimary source.now (plain_expression_of e.value) size reader.new.place) }
{
    let base = reader.take(source);
    let digits = reader.expect_digits(source)?;
    let reading = sized_number(
        source.alloc,
        token_bytes(source, size),
        token_bytes(source, base),
        token_bytes(source, digits),
    )?;
    number_node(source, reader, size, reading)
}

/// Reads a number that begins with digits: a size, or all of it.
pub fn parse_number(
    source: &TokenSource<'_>,
    reader: &mut Reader,
) -> SyntaxRead<Box<VerilogExpression>>
    requires { primary_form (kind_at (tokens_of source.now) reader.old.place) ≡ primary.Number }
    ensures { IfOk result (λ e. IsPrimary source.now (plain_expression_of e.value) reader.old.place reader.new.place) }
{
    let first = reader.take(source);
    if reader.sees_base(source) {
        return parse_sized(source, reader, first);
    }
    let reading = plain_number(token_bytes(source, first));
    number_node(source, reader, first, reading)
}

/// Reads a number that begins with its base.
pub fn parse_based(
    source: &TokenSource<'_>,
    reader: &mut Reader,
) -> SyntaxRead<Box<VerilogExpression>>
    ensures { IfOk result (λ e. IsPrimary source.now (plain_expression_of e.value) reader.old.place reader.new.place) }
{
    let base = reader.expect_base(source)?;
    let digits = reader.expect_digits(source)?;
    let reading = based_number(
        source.alloc,
        token_bytes(source, base),
        token_bytes(source, digits),
    )?;
    number_node(source, reader, base, reading)
}

/// Reads a real number.
pub fn parse_real(
    source: &TokenSource<'_>,
    reader: &mut Reader,
) -> SyntaxRead<Box<VerilogExpression>>
    requires { primary_form (kind_at (tokens_of source.now) reader.old.place) ≡ primary.Real }
    ensures { IfOk result (λ e. IsPrimary source.now (plain_expression_of e.value) reader.old.place reader.new.place) }
{
    let token = reader.take(source);
    let text = token_copy(source, token)?;
    Ok(real_of(source.alloc, token, text)?)
}

/// Reads a string.
pub fn parse_text(
    source: &TokenSource<'_>,
    reader: &mut Reader,
) -> SyntaxRead<Box<VerilogExpression>>
    requires { primary_form (kind_at (tokens_of source.now) reader.old.place) ≡ primary.Text }
    ensures { IfOk result (λ e. IsPrimary source.now (plain_expression_of e.value) reader.old.place reader.new.place) }
{
    let token = reader.take(source);
    let bytes = string_text(source.alloc, token_bytes(source, token))?;
    Ok(text_of(source.alloc, token, bytes)?)
}
