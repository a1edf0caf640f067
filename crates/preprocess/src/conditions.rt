//! Conditions (19.4).

ghost use Rattle.std.specs.Prelude.{◌≡◌, true, IfOk, IfErr};
ghost use Rattle.preprocess.specs.Places.{stands, fault_stands};

use crate::directives::Directive;
use crate::fault::{Fault, TextFaultKind};
use crate::preprocessor::Preprocessor;
use crate::work::{Condition, PendingPiece};
use lexemes::token::FileSpan;
use source_texts::texts::text_of;

/// Whether a directive belongs to a condition.
pub(crate) fn is_condition(directive: Directive) -> bool {
    match directive {
        Directive::IfDefined
        | Directive::IfNotDefined
        | Directive::ElseIfDefined
        | Directive::Else
        | Directive::EndIf => true,
        _ => false,
    }
}

/// The fault of a directive that belongs to no condition.
fn unbalanced(place: FileSpan) -> Fault
    ensures { result ≡ Fault.At TextFaultKind.UnbalancedCondition place }
{
    Fault::At(TextFaultKind::UnbalancedCondition, place)
}

impl Preprocessor {
    /// Reads a directive of a condition.
    pub(crate) fn read_condition(
        &mut self,
        directive: Directive,
        piece: PendingPiece,
    ) -> Result<(), Fault>
        requires { stands self.old.work.files.items piece.lexeme.span ≡ true }
        ensures files { self.new.work.files.items ≡ self.old.work.files.items }
        ensures fault { IfErr result (λ fault. fault_stands self.new.work.files.items fault ≡ true) }
    {
        let place = piece.lexeme.span;
        match directive {
            Directive::IfDefined => self.open_condition(place, true),
            Directive::IfNotDefined => self.open_condition(place, false),
            Directive::ElseIfDefined => self.read_else_if(place),
            Directive::Else => self.begin_branch(place, true, true),
            _ => self.read_end_if(place),
        }
    }

    /// Takes the name of a macro, and answers whether it is defined.
    fn is_defined_after(&mut self, directive: FileSpan) -> Result<bool, Fault>
        requires { stands self.old.work.files.items directive ≡ true }
        ensures files { self.new.work.files.items ≡ self.old.work.files.items }
        ensures fault { IfErr result (λ fault. fault_stands self.new.work.files.items fault ≡ true) }
    {
        let name = self.name_after(directive)?;
        let text = text_of(&self.work.files, name.lexeme.span);
        Ok(self.macro_of(text).is_some())
    }

    /// Opens a condition, whose first branch is read where a macro is defined, or where it isn't.
    fn open_condition(&mut self, place: FileSpan, wanted: bool) -> Result<(), Fault>
        requires { stands self.old.work.files.items place ≡ true }
        ensures files { self.new.work.files.items ≡ self.old.work.files.items }
        ensures fault { IfErr result (λ fault. fault_stands self.new.work.files.items fault ≡ true) }
    {
        let outer = self.work.is_active();
        let active = outer && self.is_defined_after(place)? == wanted;
        let condition = Condition {
            place,
            file: self.work.file(),
            active,
            settled: active || !outer,
            has_else: false,
        };
        self.work.push_condition(condition)?;
        Ok(())
    }

    /// Takes out the innermost condition, which is to be of the file that is being read.
    fn innermost(&mut self, place: FileSpan) -> Result<Condition, Fault>
        requires { stands self.old.work.files.items place ≡ true }
        ensures stands { IfOk result (λ condition. stands self.new.work.files.items condition.place ≡ true) }
        ensures files { self.new.work.files.items ≡ self.old.work.files.items }
        ensures fault { IfErr result (λ fault. fault_stands self.new.work.files.items fault ≡ true) }
    {
        let file = self.work.file();
        match self.work.pop_condition() {
            Some(condition) if condition.file == file => Ok(condition),
            _ => Err(unbalanced(place)),
        }
    }

    /// Begins a further branch, which is read where a macro is defined and no branch before was read.
    fn read_else_if(&mut self, place: FileSpan) -> Result<(), Fault>
        requires { stands self.old.work.files.items place ≡ true }
        ensures files { self.new.work.files.items ≡ self.old.work.files.items }
        ensures fault { IfErr result (λ fault. fault_stands self.new.work.files.items fault ≡ true) }
    {
        let defined = self.is_defined_after(place)?;
        self.begin_branch(place, defined, false)
    }

    /// Begins a further branch or the last one, which is read where it is wanted and no branch before was read.
    fn begin_branch(&mut self, place: FileSpan, wanted: bool, is_last: bool) -> Result<(), Fault>
        requires { stands self.old.work.files.items place ≡ true }
        ensures files { self.new.work.files.items ≡ self.old.work.files.items }
        ensures fault { IfErr result (λ fault. fault_stands self.new.work.files.items fault ≡ true) }
    {
        let condition = self.innermost(place)?;
        if condition.has_else {
            return Err(unbalanced(place));
        }
        let active = !condition.settled && wanted;
        self.work.push_condition(Condition {
            active,
            settled: condition.settled || active,
            has_else: is_last,
            ..condition
        })?;
        Ok(())
    }

    /// Ends the innermost condition.
    fn read_end_if(&mut self, place: FileSpan) -> Result<(), Fault>
        requires { stands self.old.work.files.items place ≡ true }
        ensures files { self.new.work.files.items ≡ self.old.work.files.items }
        ensures fault { IfErr result (λ fault. fault_stands self.new.work.files.items fault ≡ true) }
    {
        let _ = self.innermost(place)?;
        Ok(())
    }
}
