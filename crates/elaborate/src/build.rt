//! The nodes of a design's tree, with what each stands for.
ghost use Rattle.std.specs.Prelude.{◌≡◌, map, unwrap_or, IfOk, OnOk};
ghost use Rattle.design.specs.DesignTrees.{expression_of, expressions_of, statement_of, statements_of};
ghost use Rattle.model.specs.SourceTrees.{piece_of};
ghost use Rattle.model.specs.Design as model;
ghost use Rattle.model.specs.Elaboration.{alone, assignment, followed_by};
ghost use Rattle.model.specs.Syntax as syntax;
ghost use Rattle.elaborate.specs.Small.{IsShortDelay};

use design::tree::{Expression, Piece, Statement};
use design::{RegId, Trigger};
use model::tree::Task;
use std::alloc::{AllocError, Global};

/// What a builder gives, unless memory is refused.
pub type Built<T> = Result<T, AllocError>;

/// A concatenation of a part and of those behind it.
pub fn concat_of(first: Expression, others: Vec<Expression>) -> Built<Expression>
    ensures { IfOk result
        (λ made. expression_of made ≡ syntax.Concat (syntax.Also (expression_of first) (expressions_of others.items))) }
{
    let mut parts = others;
    parts.insert(0, first)?;
    Ok(Expression::Concat(parts))
}

/// A blocking assignment, with the delay inside it where there is one.
pub fn assign_of(register: RegId, wait: Option<u64>, value: Expression) -> Statement
    requires { IsShortDelay wait }
    ensures { statement_of result ≡ assignment register wait (expression_of value) }
{
    match wait {
        Some(wait) => Statement::AssignAfter(register, wait as u32, value),
        None => Statement::Assign(register, value),
    }
}

/// How long a nonblocking assignment waits.
pub fn wait_of(wait: Option<u64>) -> u32
    requires { IsShortDelay wait }
    ensures { result ≡ unwrap_or wait 0 }
{
    match wait {
        Some(wait) => wait as u32,
        None => 0,
    }
}

pub fn assign_later_of(register: RegId, wait: u32, value: Expression) -> Statement
    ensures { statement_of result ≡ model.AssignLater register wait (expression_of value) }
{
    Statement::AssignLater(register, wait, value)
}

pub fn now_of(register: RegId) -> Statement
    ensures { statement_of result ≡ model.Now register }
{
    Statement::Now(register)
}

pub fn delay_of(wait: u32, body: Vec<Statement>) -> Statement
    ensures { statement_of result ≡ model.Delay wait (statements_of body.items) }
{
    Statement::Delay(wait, body)
}

pub fn await_of(triggers: Vec<Trigger>, body: Vec<Statement>) -> Statement
    ensures { statement_of result ≡ model.Await triggers.items (statements_of body.items) }
{
    Statement::Await(triggers, body)
}

pub fn if_of(test: Expression, body: Vec<Statement>, otherwise: Vec<Statement>) -> Statement
    ensures { statement_of result ≡ model.If (expression_of test) (statements_of body.items) (statements_of otherwise.items) }
{
    Statement::If(test, body, otherwise)
}

pub fn while_of(test: Expression, body: Vec<Statement>) -> Statement
    ensures { statement_of result ≡ model.While (expression_of test) (statements_of body.items) }
{
    Statement::While(test, body)
}

pub fn print_of(task: Task, format: Vec<Piece>, arguments: Vec<Expression>) -> Statement
    ensures { statement_of result ≡ model.Print task (map piece_of format.items) (expressions_of arguments.items) }
{
    Statement::Print(task, format, arguments)
}

/// One statement more.
#[tactic(auto, using(crate::proofs::Bodies::one_more))]
pub fn push(into: &mut Vec<Statement>, s: Statement) -> Built<()>
    ensures { OnOk result (statements_of into.new.items ≡ followed_by (statements_of into.old.items) (alone (statement_of s))) }
{
    into.push(s)?;
    Ok(())
}
