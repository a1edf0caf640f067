//! The nodes of expressions and statements that stand for calls, with what each is.

ghost use Rattle.std.specs.Prelude.{◌≡◌, Some, None, Ok, IfOk};
ghost use Rattle.syntax_tree.specs.Expressions as source;
ghost use Rattle.syntax_tree.specs.Expressions.{plain_expression_of};
ghost use Rattle.statement_parts.specs.Statements as plain;
ghost use Rattle.statement_parts.specs.Statements.{name_in, plain_of, plain_all_of, plain_branches_of};
ghost use Rattle.call_nodes.specs.Nodes as spec;

use logic4::bits::Bits;
use scopes::scope::copied;
use std::alloc::{AllocError, Global};
use syntax_tree::expressions::{
    Identifier, VerilogBinaryOperator, VerilogExpression, VerilogUnaryOperator,
};
use syntax_tree::statements::{AssignmentForm, BlockForm, ConditionalBranch, VerilogStatement};

/// A node, unless memory is refused.
pub type MadeNode<T> = Result<T, AllocError>;

/// A name.
pub fn name_node(alloc: Global, token: usize, name: &[u8]) -> MadeNode<VerilogExpression>
    ensures { IfOk result (λ made. plain_expression_of made ≡ source.Name token name.now) }
{
    let name = copied(alloc, name)?;
    Ok(VerilogExpression::Name { token, name })
}

/// A member of a scope (12.5).
pub fn member_of(
    alloc: Global,
    token: usize,
    scope: VerilogExpression,
    name: &[u8],
) -> MadeNode<VerilogExpression>
    ensures { IfOk result (λ made. plain_expression_of made ≡ source.Member token (plain_expression_of scope) name.now) }
{
    let scope = Box::new(alloc, scope)?;
    let name = copied(alloc, name)?;
    Ok(VerilogExpression::Member { token, scope, name })
}

/// A member of the scope of a name.
pub fn member_node(
    alloc: Global,
    token: usize,
    scope: &[u8],
    name: &[u8],
) -> MadeNode<VerilogExpression>
    ensures { IfOk result (λ made. plain_expression_of made ≡ source.Member token (source.Name token scope.now) name.now) }
{
    let scope = name_node(alloc, token, scope)?;
    member_of(alloc, token, scope, name)
}

/// A number of one digit.
pub fn digit_node(alloc: Global, token: usize, value: u64) -> MadeNode<VerilogExpression>
    ensures { IfOk result (λ made. plain_expression_of made ≡ spec.single_digit token value) }
{
    let digits = Box::new(alloc, Bits::from_u64(1, value))?;
    Ok(VerilogExpression::Number {
        token,
        sized: true,
        signed: false,
        cut: false,
        digits,
    })
}

/// The number `'bx`, which is as wide as what it is given to.
pub fn unknown_node(alloc: Global, token: usize) -> MadeNode<VerilogExpression>
    ensures { IfOk result (λ made. plain_expression_of made ≡ spec.unknown_number token) }
{
    let digits = Box::new(alloc, Bits::unknown(32))?;
    Ok(VerilogExpression::Number {
        token,
        sized: false,
        signed: false,
        cut: false,
        digits,
    })
}

/// That a condition isn't known to be one thing: `!c !== digit`.
pub fn unless_node(
    alloc: Global,
    token: usize,
    condition: VerilogExpression,
    digit: u64,
) -> MadeNode<VerilogExpression>
    ensures { IfOk result (λ made. plain_expression_of made ≡ spec.denied_unless token (plain_expression_of condition) digit) }
{
    let operand = Box::new(alloc, condition)?;
    let negated = VerilogExpression::Unary {
        token,
        operator: VerilogUnaryOperator::LogicalNot,
        operand,
    };
    let left = Box::new(alloc, negated)?;
    let right = digit_node(alloc, token, digit)?;
    let right = Box::new(alloc, right)?;
    Ok(VerilogExpression::Binary {
        token,
        operator: VerilogBinaryOperator::CaseNotEqual,
        left,
        right,
    })
}

/// An assignment without a delay (9.2.1).
pub fn assignment_node(
    token: usize,
    target: VerilogExpression,
    value: VerilogExpression,
) -> VerilogStatement
    ensures { plain_of result ≡ spec.given_to token (plain_expression_of target) (plain_expression_of value) }
{
    VerilogStatement::Assignment {
        token,
        form: AssignmentForm::Blocking,
        target,
        timing: None,
        value,
    }
}

/// A block of statements.
pub fn block_node(
    alloc: Global,
    token: usize,
    name: Option<Identifier>,
    body: Vec<VerilogStatement>,
) -> VerilogStatement
    ensures { plain_of result ≡ spec.statements_block token (name_in name) (plain_all_of body.items) }
{
    VerilogStatement::Block {
        token,
        form: BlockForm::Sequential,
        name,
        items: Vec::new(alloc),
        body,
    }
}

/// A block of statements, under a name.
pub fn named_block_node(
    alloc: Global,
    token: usize,
    name: &[u8],
    body: Vec<VerilogStatement>,
) -> MadeNode<VerilogStatement>
    ensures { IfOk result (λ made. plain_of made ≡ spec.statements_block token (Some name.now) (plain_all_of body.items)) }
{
    let name = copied(alloc, name)?;
    Ok(block_node(alloc, token, Some(Identifier { token, name }), body))
}

/// Something that is kept while something else is made, with that. Fails where that did.
fn beside<T: Drop, U>(kept: T, made: MadeNode<U>) -> MadeNode<(T, U)>
    ensures { IfOk result (λ both. (both.0 ≡ kept) × (made ≡ Ok both.1)) }
{
    match made {
        Ok(other) => Ok((kept, other)),
        Err(refused) => Err(refused),
    }
}

/// One branch of an `if`.
fn one_branch(
    alloc: Global,
    condition: VerilogExpression,
    body: VerilogStatement,
) -> MadeNode<Vec<ConditionalBranch>>
    ensures { IfOk result (λ made. plain_branches_of made.items ≡ plain.Branch (plain_expression_of condition) (plain_of body) plain.NoBranch) }
{
    let mut branches = Vec::new(alloc);
    branches.push(ConditionalBranch { condition, body })?;
    Ok(branches)
}

/// A statement that is done where a condition holds (9.4).
pub fn choice_node(
    alloc: Global,
    token: usize,
    condition: VerilogExpression,
    body: VerilogStatement,
) -> MadeNode<VerilogStatement>
    ensures { IfOk result (λ made. plain_of made ≡ spec.one_choice token (plain_expression_of condition) (plain_of body) None) }
{
    let branches = one_branch(alloc, condition, body)?;
    Ok(VerilogStatement::If {
        token,
        branches,
        otherwise: None,
    })
}

/// A statement that is done where a condition holds, and another one where it doesn't (9.4).
pub fn alternative_node(
    alloc: Global,
    token: usize,
    condition: VerilogExpression,
    body: VerilogStatement,
    otherwise: VerilogStatement,
) -> MadeNode<VerilogStatement>
    ensures { IfOk result (λ made. plain_of made ≡ spec.one_choice token (plain_expression_of condition) (plain_of body) (Some (plain_of otherwise))) }
{
    let (kept, branches) = beside(otherwise, one_branch(alloc, condition, body))?;
    let last = Box::new(alloc, kept)?;
    Ok(VerilogStatement::If {
        token,
        branches,
        otherwise: Some(last),
    })
}
