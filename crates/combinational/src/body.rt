//! What the statements of a body do with a register: whether they may read it and write it, and whether they write it for certain.
ghost use Rattle.std.specs.Prelude.{◌≡◌, ◌||◌, ◌++◌, ℕ, List, []};
ghost use Rattle.model.specs.Turns.{contains};
ghost use Rattle.design.specs.DesignTrees.{statement_of, statements_of};
ghost use Rattle.phases.specs.Combinational.{is_plain_one, is_plain as plain, reads_one, reads as all_reads, written_one, written, settled_one, settled};

use crate::expression::reads;
use design::RegId;
use design::tree::Statement;

/// Whether statements are blocking assignments without a delay, `if`, and empty ones alone.
#[cycle(plain)]
pub(crate) fn is_plain(statements: &[Statement]) -> bool
    ensures { result ≡ plain (statements_of statements.now) }
{
    for statement in statements {
        if !is_plain_statement(statement) {
            return false;
        }
    }
    true
}

// Whether a statement is a blocking assignment without a delay, an empty one, or an `if` around such ones alone.
#[cycle(plain)]
fn is_plain_statement(statement: &Statement) -> bool
    ensures { result ≡ is_plain_one (statement_of statement.now) }
{
    match statement {
        Statement::Empty => true,
        Statement::Assign(_, _) => true,
        Statement::If(_, body, otherwise) => is_plain(body) && is_plain(otherwise),
        Statement::AssignAfter(_, _, _) => false,
        Statement::AssignLater(_, _, _) => false,
        Statement::Now(_) => false,
        Statement::Delay(_, _) => false,
        Statement::Await(_, _) => false,
        Statement::While(_, _) => false,
        Statement::Print(_, _, _) => false,
        Statement::Finish => false,
    }
}

/// What becomes of a register on the ways through statements, and through what stands behind them.
#[derive(Clone, Copy)]
pub(crate) struct DataFlow {
    /// On some way it is read before it is written.
    pub(crate) may_read: bool,
    /// On some way it is written.
    pub(crate) may_write: bool,
    /// On every way it is written.
    pub(crate) must_write: bool,
}

/// What plain statements do with a register, and then others behind them.
pub(crate) fn data_flow(statements: &[Statement], others: &[Statement], register: RegId) -> DataFlow
    ensures read { result.may_read ≡ contains (all_reads (statements_of statements.now) (all_reads (statements_of others.now) [])) register }
    ensures written { result.may_write ≡ contains (written (statements_of statements.now) ++ written (statements_of others.now)) register }
    ensures settled { result.must_write ≡ contains (settled (statements_of statements.now) ++ settled (statements_of others.now)) register }
{
    let none = DataFlow {
        may_read: false,
        may_write: false,
        must_write: false,
    };
    let behind = flow_before(others, register, none);
    flow_before(statements, register, behind)
}

// What statements do with a register, where they are plain, and what stands behind them.
#[cycle(flow)]
fn flow_before(statements: &[Statement], register: RegId, behind: DataFlow) -> DataFlow
    ensures read { (registers : List ℕ) → contains registers register ≡ behind.may_read → contains (all_reads (statements_of statements.now) registers) register ≡ result.may_read }
    ensures written { (contains (written (statements_of statements.now)) register || behind.may_write) ≡ result.may_write }
    ensures settled { (contains (settled (statements_of statements.now)) register || behind.must_write) ≡ result.must_write }
{
    let mut flow = behind;
    for at in (0..statements.len()).rev() {
        flow = flow_before_one(&statements[at], register, flow);
    }
    flow
}

// What a statement does with a register, where it is plain, and what stands behind it.
#[cycle(flow)]
fn flow_before_one(statement: &Statement, register: RegId, behind: DataFlow) -> DataFlow
    ensures read { (registers : List ℕ) → contains registers register ≡ behind.may_read → contains (reads_one (statement_of statement.now) registers) register ≡ result.may_read }
    ensures written { (contains (written_one (statement_of statement.now)) register || behind.may_write) ≡ result.may_write }
    ensures settled { (contains (settled_one (statement_of statement.now)) register || behind.must_write) ≡ result.must_write }
{
    match statement {
        Statement::Assign(own, value) => {
            let same = *own == register;
            DataFlow {
                may_read: reads(value, register) | (!same & behind.may_read),
                may_write: same | behind.may_write,
                must_write: same | behind.must_write,
            }
        }
        Statement::If(condition, body, otherwise) => {
            let first = flow_before(body, register, behind);
            let second = flow_before(otherwise, register, behind);
            DataFlow {
                may_read: reads(condition, register) | first.may_read | second.may_read,
                may_write: first.may_write | second.may_write,
                must_write: first.must_write & second.must_write,
            }
        }
        Statement::Empty
        | Statement::AssignAfter(_, _, _)
        | Statement::AssignLater(_, _, _)
        | Statement::Now(_)
        | Statement::Delay(_, _)
        | Statement::Await(_, _)
        | Statement::While(_, _)
        | Statement::Print(_, _, _)
        | Statement::Finish => behind,
    }
}
