//! The directives that say something of the modules behind them (19.1, 19.2, 19.6, 19.8, 19.9), and those that set lines (19.7).

ghost use Rattle.std.specs.Prelude.{◌≡◌, true, IfErr};
ghost use Rattle.preprocess.specs.Places.{stands, fault_stands};

use crate::definitions::malformed;
use crate::directives::Directive;
use crate::fault::Fault;
use crate::kinds::{is_mark, is_number};
use crate::preprocessor::Preprocessor;
use crate::work::PendingPiece;
use lexemes::token::{FileSpan, Sign};
use source_texts::settings::{
    LineMark, ModuleSetting, SettingChange, TimeUnit, drive, line_number, nettype, time_of,
};
use source_texts::texts::text_of;

impl Preprocessor {
    /// Reads a directive that says something of the modules behind it.
    pub(crate) fn read_setting(
        &mut self,
        directive: Directive,
        place: FileSpan,
    ) -> Result<(), Fault>
        requires { stands self.old.work.files.items place ≡ true }
        ensures files { self.new.work.files.items ≡ self.old.work.files.items }
        ensures fault { IfErr result (λ fault. fault_stands self.new.work.files.items fault ≡ true) }
    {
        let setting = self.setting_of(directive, place)?;
        let tokens_before = self.work.tokens.len();
        self.settings.push(SettingChange {
            setting,
            place,
            tokens_before,
        })?;
        Ok(())
    }

    /// What such a directive says.
    fn setting_of(&mut self, directive: Directive, place: FileSpan) -> Result<ModuleSetting, Fault>
        requires { stands self.old.work.files.items place ≡ true }
        ensures files { self.new.work.files.items ≡ self.old.work.files.items }
        ensures fault { IfErr result (λ fault. fault_stands self.new.work.files.items fault ≡ true) }
    {
        match directive {
            Directive::Timescale => self.read_timescale(place),
            Directive::DefaultNettype => self.read_nettype(place),
            Directive::UnconnectedDrive => self.read_drive(place),
            Directive::NoUnconnectedDrive => Ok(ModuleSetting::UnconnectedDrive(None)),
            Directive::CellDefine => Ok(ModuleSetting::Cell(true)),
            Directive::EndCellDefine => Ok(ModuleSetting::Cell(false)),
            _ => Ok(ModuleSetting::Reset),
        }
    }

    /// Takes the word behind a `` `default_nettype``.
    fn read_nettype(&mut self, directive: FileSpan) -> Result<ModuleSetting, Fault>
        requires { stands self.old.work.files.items directive ≡ true }
        ensures files { self.new.work.files.items ≡ self.old.work.files.items }
        ensures fault { IfErr result (λ fault. fault_stands self.new.work.files.items fault ≡ true) }
    {
        let Some(piece) = self.work.pop() else {
            return Err(malformed(directive));
        };
        let text = text_of(&self.work.files, piece.lexeme.span);
        nettype(piece.lexeme.kind, text).ok_or(malformed(directive))
    }

    /// Takes the word behind an `` `unconnected_drive``.
    fn read_drive(&mut self, directive: FileSpan) -> Result<ModuleSetting, Fault>
        requires { stands self.old.work.files.items directive ≡ true }
        ensures files { self.new.work.files.items ≡ self.old.work.files.items }
        ensures fault { IfErr result (λ fault. fault_stands self.new.work.files.items fault ≡ true) }
    {
        let Some(piece) = self.work.pop() else {
            return Err(malformed(directive));
        };
        drive(piece.lexeme.kind).ok_or(malformed(directive))
    }

    /// Takes the two amounts of time behind a `` `timescale``. The precision is no longer than the unit.
    fn read_timescale(&mut self, directive: FileSpan) -> Result<ModuleSetting, Fault>
        requires { stands self.old.work.files.items directive ≡ true }
        ensures files { self.new.work.files.items ≡ self.old.work.files.items }
        ensures fault { IfErr result (λ fault. fault_stands self.new.work.files.items fault ≡ true) }
    {
        let unit = self.read_time(directive)?;
        match self.work.pop() {
            Some(piece) if is_mark(piece.lexeme.kind, Sign::Slash) => (),
            _ => return Err(malformed(directive)),
        }
        let precision = self.read_time(directive)?;
        if precision.power > unit.power {
            return Err(malformed(directive));
        }
        Ok(ModuleSetting::Timescale { unit, precision })
    }

    /// Takes an amount of time.
    fn read_time(&mut self, directive: FileSpan) -> Result<TimeUnit, Fault>
        requires { stands self.old.work.files.items directive ≡ true }
        ensures files { self.new.work.files.items ≡ self.old.work.files.items }
        ensures fault { IfErr result (λ fault. fault_stands self.new.work.files.items fault ≡ true) }
    {
        let number = self.number_after(directive)?;
        let unit = self.name_after(directive)?;
        let number = text_of(&self.work.files, number.lexeme.span);
        let unit = text_of(&self.work.files, unit.lexeme.span);
        time_of(number, unit).ok_or(malformed(directive))
    }

    /// Takes a number.
    fn number_after(&mut self, directive: FileSpan) -> Result<PendingPiece, Fault>
        requires { stands self.old.work.files.items directive ≡ true }
        ensures files { self.new.work.files.items ≡ self.old.work.files.items }
        ensures fault { IfErr result (λ fault. fault_stands self.new.work.files.items fault ≡ true) }
    {
        match self.work.pop() {
            Some(piece) if is_number(piece.lexeme.kind) => Ok(piece),
            _ => Err(malformed(directive)),
        }
    }

    /// Reads a `` `line``: the number of the line behind it, the name of the file, and a level of 0, 1 or 2.
    pub(crate) fn read_line(&mut self, directive: FileSpan) -> Result<(), Fault>
        requires { stands self.old.work.files.items directive ≡ true }
        ensures files { self.new.work.files.items ≡ self.old.work.files.items }
        ensures fault { IfErr result (λ fault. fault_stands self.new.work.files.items fault ≡ true) }
    {
        let number = self.number_after(directive)?;
        let name = self.string_after(directive)?;
        let _level = self.number_after(directive)?;
        let digits = text_of(&self.work.files, number.lexeme.span);
        let line = line_number(digits).ok_or(malformed(directive))?;
        self.lines.push(LineMark {
            place: directive,
            line,
            name,
        })?;
        Ok(())
    }
}
