//! The values and the lines of statements.
ghost use Rattle.std.specs.Prelude.{◌≡◌, ◌<◌, ◌≤◌, ◌+◌, ◌∷◌, [], length, map, drop, OnOk, IfOk, List};
ghost use Rattle.model.specs.Syntax as syntax;
ghost use Rattle.model.specs.Elaboration.{argument_count};
ghost use Rattle.design.specs.Sound.{AreWidths, IsSoundExpression, AreSoundExpressions, how_many};
ghost use Rattle.design.specs.DesignTrees.{expression_of, expressions_of};
ghost use Rattle.model.specs.SourceTrees.{piece_of};
ghost use Rattle.design.specs.Generate.{own_code, assigned_code};
ghost use Rattle.design.specs.Emit.{with_ops, with_shown, with_line_code, span_behind};
ghost use Rattle.design.specs.Emitter.{emitted_of};

use crate::code::{LinePiece, Span};
use crate::control::RegId;
use crate::emitter::Emitter;
use crate::expressions::{emit_assigned, emit_own};
use crate::tree::{Expression, Piece};
use std::alloc::AllocError;

impl Emitter {
    /// The steps of a condition or of an argument, and where they stand.
    pub fn own(&mut self, widths: &[u32], expression: &Expression) -> Result<Span, AllocError>
        requires sound { IsSoundExpression widths.now (expression_of expression.now) }
        requires widths { AreWidths widths.now }
        ensures ops { IfOk result (λ s. emitted_of self.new ≡ with_ops (emitted_of self.old) (own_code widths.now (expression_of expression.now))) }
        ensures span { IfOk result (λ s. s ≡ span_behind self.old.ops.items (own_code widths.now (expression_of expression.now))) }
        ensures nodes { IfOk result (λ s. length self.new.nodes.items ≡ length self.old.nodes.items) }
    {
        let from = self.ops.len();
        emit_own(&mut self.ops, widths, expression)?;
        let to = self.ops.len();
        Ok(Span { from, to })
    }

    /// The steps of the right side of an assignment, and where they stand.
    pub fn assigned(
        &mut self,
        widths: &[u32],
        register: RegId,
        expression: &Expression,
    ) -> Result<Span, AllocError>
        requires declared { register < length widths.now }
        requires sound { IsSoundExpression widths.now (expression_of expression.now) }
        requires widths { AreWidths widths.now }
        ensures ops { IfOk result (λ s. emitted_of self.new ≡ with_ops (emitted_of self.old) (assigned_code widths.now register (expression_of expression.now))) }
        ensures span { IfOk result (λ s. s ≡ span_behind self.old.ops.items (assigned_code widths.now register (expression_of expression.now))) }
        ensures nodes { IfOk result (λ s. length self.new.nodes.items ≡ length self.old.nodes.items) }
    {
        let from = self.ops.len();
        emit_assigned(&mut self.ops, widths, register, expression)?;
        let to = self.ops.len();
        Ok(Span { from, to })
    }

    // One more piece of a line.
    fn show(&mut self, shown: LinePiece) -> Result<(), AllocError>
        ensures shown { OnOk result (emitted_of self.new ≡ with_shown (emitted_of self.old) shown) }
        ensures nodes { OnOk result (length self.new.nodes.items ≡ length self.old.nodes.items) }
    {
        self.shown.push(shown)?;
        Ok(())
    }

    // One piece of a line, and how many arguments are shown after it.
    fn piece(
        &mut self,
        widths: &[u32],
        piece: Piece,
        arguments: &[Expression],
        next: usize,
    ) -> Result<usize, AllocError>
        requires given { next + argument_count (piece_of piece ∷ []) ≤ length arguments.now }
        requires sound { AreSoundExpressions widths.now (expressions_of arguments.now) }
        requires widths { AreWidths widths.now }
        ensures used { IfOk result (λ n. n ≡ next + argument_count (piece_of piece ∷ [])) }
        ensures line { IfOk result (λ n. (ps : List syntax.Piece) → with_line_code widths.now (emitted_of self.new) ps (expressions_of (drop n arguments.now)) ≡ with_line_code widths.now (emitted_of self.old) (piece_of piece ∷ ps) (expressions_of (drop next arguments.now))) }
        ensures nodes { IfOk result (λ s. length self.new.nodes.items ≡ length self.old.nodes.items) }
    {
        match piece {
            Piece::Byte(byte) => {
                self.show(LinePiece::Byte(byte))?;
                Ok(next)
            }
            Piece::Argument(conversion) => {
                let value = self.own(widths, &arguments[next])?;
                self.show(LinePiece::Value { conversion, value })?;
                Ok(next + 1)
            }
        }
    }

    /// The pieces of a line, and where they stand.
    pub fn line(
        &mut self,
        widths: &[u32],
        format: &[Piece],
        arguments: &[Expression],
    ) -> Result<Span, AllocError>
        requires count { argument_count (map piece_of format.now) ≡ how_many (expressions_of arguments.now) }
        requires sound { AreSoundExpressions widths.now (expressions_of arguments.now) }
        requires widths { AreWidths widths.now }
        ensures line { IfOk result (λ s. emitted_of self.new ≡ with_line_code widths.now (emitted_of self.old) (map piece_of format.now) (expressions_of arguments.now)) }
        ensures span { IfOk result (λ s. s ≡ record { from = length self.old.shown.items; to = length self.new.shown.items }) }
        ensures nodes { IfOk result (λ s. length self.new.nodes.items ≡ length self.old.nodes.items) }
    {
        let from = self.shown.len();
        let mut next = 0;
        for piece in format {
            next = self.piece(widths, *piece, arguments, next)?;
        }
        let to = self.shown.len();
        Ok(Span { from, to })
    }
}
