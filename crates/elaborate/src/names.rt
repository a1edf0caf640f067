//! The declared registers, by number and by name.
ghost use Rattle.std.specs.Prelude.{◌≡◌, ℕ, ◌++◌, ◌<◌, ◌≤◌, [], ◌∷◌, None, true, false, map, length, slice_index, slice_index_or, string_bytes, IfOk, IfErr, OnOk};
ghost use Rattle.std.specs.List.{list_any};
ghost use Rattle.std.specs.Str.{bytes_eq};
ghost use Rattle.logic4.specs.Vector.{greatest_width};
ghost use Rattle.model.specs.Elaboration.{is_declared, is_range, number_of, range_of, width_of, widths_of};
ghost use Rattle.model.specs.declared.limits.ModuleLimits.TheVariants.{Whole};
ghost use Rattle.model.specs.ModuleLimits.{most_registers};
ghost use Rattle.design.specs.Compiled.{design_of};
ghost use Rattle.design.specs.Sound.{IsSound};
ghost use Rattle.design.specs.DesignTrees.{tree_design};
ghost use Rattle.elaborate.specs.FirstFindings.{first_finding, undeclared_fault, found_name, IsFirstOf};

use crate::fault::ElabFault;
use crate::finding::Finding;
use design::Design;
use design::tree::Process;
use indexmap::IndexSet;
use logic4::bits::MAX_WIDTH;
use model::limits::ModuleLimits;
use std::alloc::{AllocError, Global};
use std::marker::Model;

/// A register's range, as it stands in its declaration.
pub type Range = Option<(u64, u64)>;

/// The names and the ranges of the declared registers, in the order of their numbers.
#[derive(Drop)]
pub struct RegisterNames {
    names: IndexSet<String>,
    ranges: Vec<Range>,
}

impl Model for RegisterNames {
    ghost use Rattle.std.specs.Prelude.{List, map, string_bytes};
    ghost use Rattle.model.specs.Elaboration.{Declared};
    ghost use Rattle.elaborate.specs.Registers.{with_ranges, AreRegisters};

    ghost Value = { List Declared };

    ghost view = { λ n. with_ranges (map string_bytes n.names.keys) n.ranges.items };

    ghost invariant = { λ n. AreRegisters (map string_bytes n.names.keys) n.ranges.items };
}

impl RegisterNames {
    /// No register.
    pub fn new(alloc: Global) -> RegisterNames
        ensures { result ≡ [] }
    {
        RegisterNames {
            names: IndexSet::new(alloc),
            ranges: Vec::new(alloc),
        }
    }

    /// One register more. Refuses a name that is declared already, a range that isn't allowed and a register too many,
    /// in this order, and fails where memory is refused.
    pub fn declare(
        self,
        alloc: Global,
        limits: ModuleLimits,
        name: &str,
        range: Range,
    ) -> Result<RegisterNames, ElabFault>
        ensures allowed { OnOk result (found_name limits self (name.now, range) ≡ None) }
        ensures added { IfOk result (λ names. names ≡ self ++ (name.now, range) ∷ []) }
        ensures fault { IfErr result (λ f. IsFirstOf f (found_name limits self (name.now, range))) }
    {
        match self.allowed(limits, name, range) {
            Ok(()) => Ok(self.with(alloc, limits, name, range)?),
            Err(finding) => Err(finding.fault(alloc)),
        }
    }

    // Refuses what `declare` refuses, in the same order.
    fn allowed<'a>(
        &self,
        limits: ModuleLimits,
        name: &'a str,
        range: Range,
    ) -> Result<(), Finding<'a>>
        ensures { first_finding result ≡ found_name limits self.now (name.now, range) }
    {
        if self.contains(name) {
            Err(Finding::DeclaredTwice(name))
        } else if !is_allowed(range) {
            Err(Finding::BadRange(name))
        } else if self.count() >= limits.most_registers() {
            Err(Finding::TooManyRegisters)
        } else {
            Ok(())
        }
    }

    // One register more, which may be declared under these limits. Fails where memory is refused.
    fn with(
        self,
        alloc: Global,
        limits: ModuleLimits,
        name: &str,
        range: Range,
    ) -> Result<RegisterNames, AllocError>
        requires { found_name limits self (name.now, range) ≡ None }
        ensures { IfOk result (λ names. names ≡ self ++ (name.now, range) ∷ []) }
    {
        let RegisterNames {
            mut names,
            mut ranges,
        } = self;
        add(alloc, &mut names, &mut ranges, name, range)?;
        Ok(RegisterNames { names, ranges })
    }

    /// Refuses a name that isn't declared.
    pub fn known<'a>(&self, name: &'a str) -> Result<(), Finding<'a>>
        ensures { first_finding result ≡ undeclared_fault self.now name.now }
    {
        if self.contains(name) {
            Ok(())
        } else {
            Err(Finding::Undeclared(name))
        }
    }

    fn contains(&self, name: &str) -> bool
        ensures { result ≡ is_declared self.now name.now }
    {
        self.names.contains(name)
    }

    fn count(&self) -> usize
        ensures value { result ≡ length self.now }
        ensures few { result ≤ most_registers Whole }
    {
        self.ranges.len()
    }

    /// The number of the register with a name, or that of all registers where none has it.
    pub fn number(&self, name: &str) -> u32
        ensures { result ≡ number_of self.now name.now }
    {
        self.place(name) as u32
    }

    /// The width of the register with a name, or 0 where none has it.
    pub fn width(&self, name: &str) -> u32
        ensures value { result ≡ slice_index (widths_of self.now) (number_of self.now name.now) }
        ensures within { result ≤ greatest_width }
    {
        let place = self.place(name);
        if place < self.count() {
            width_in(self.range_at(place))
        } else {
            0
        }
    }

    /// The range of the register with a name, if it has one.
    pub fn range(&self, name: &str) -> Range
        ensures value { result ≡ range_of self.now name.now }
        ensures allowed { is_range result ≡ true }
    {
        self.range_at(self.place(name))
    }

    // The place of the register with a name, or the number of all registers.
    fn place(&self, name: &str) -> usize
        ensures number { result ≡ number_of self.now name.now }
        ensures within { result ≤ most_registers Whole }
    {
        self.names.get_index_of(name).unwrap_or(self.names.len())
    }

    fn range_at(&self, place: usize) -> Range
        ensures value { result ≡ slice_index_or (map (λ d. d.1) self.now) place None }
        ensures allowed { is_range result ≡ true }
    {
        range_in(self.ranges.as_slice(), place)
    }

    /// The design of these registers and processes.
    pub fn design(self, alloc: Global, processes: Vec<Process>) -> Result<Design, AllocError>
        requires { IsSound (tree_design (widths_of self) processes.items) }
        ensures design { IfOk result (λ d. design_of d ≡ tree_design (widths_of self) processes.items) }
        ensures names { IfOk result (λ d. d.names ≡ map (λ d. d.0) self) }
    {
        let RegisterNames { names, ranges } = self;
        let widths = widths(alloc, ranges.as_slice())?;
        Design::new(alloc, names, widths, processes)
    }
}

// One name more, which isn't among these, and its range. Fails where memory is refused.
fn add(
    alloc: Global,
    names: &mut IndexSet<String>,
    ranges: &mut Vec<Range>,
    name: &str,
    range: Range,
) -> Result<(), AllocError>
    requires { list_any (λ k. bytes_eq name.now (string_bytes k)) names.old.keys ≡ false }
    ensures names { OnOk result (map string_bytes names.new.keys ≡ map string_bytes names.old.keys ++ name.now ∷ []) }
    ensures ranges { OnOk result (ranges.new.items ≡ ranges.old.items ++ range ∷ []) }
{
    names.insert(String::from_str(alloc, name)?)?;
    ranges.push(range)?;
    Ok(())
}

fn range_in(ranges: &[Range], place: usize) -> Range
    ensures { result ≡ slice_index_or ranges.now place None }
{
    ranges.get(place).copied().unwrap_or(None)
}

// The widths of registers with these ranges, in their order.
fn widths(alloc: Global, ranges: &[Range]) -> Result<Vec<u32>, AllocError>
    requires { (k : ℕ) → is_range (slice_index_or ranges.now k None) ≡ true }
    ensures { IfOk result (λ v. v.items ≡ map width_of ranges.now) }
{
    let mut widths = Vec::new(alloc);
    for place in 0..ranges.len() {
        widths.push(width_in(range_in(ranges, place)))?;
    }
    Ok(widths)
}

// Whether a register may have this range: it ends at 0 and makes it no wider than the greatest width, or there is none.
fn is_allowed(range: Range) -> bool
    ensures { result ≡ is_range range }
{
    match range {
        Some((high, low)) => low == 0 && high < u64::from(MAX_WIDTH),
        None => true,
    }
}

// The width of a register with this range, one digit where there is none.
fn width_in(range: Range) -> u32
    requires { is_range range ≡ true }
    ensures value { result ≡ width_of range }
    ensures within { result ≤ greatest_width }
{
    match range {
        Some((high, _)) => high as u32 + 1,
        None => 1,
    }
}
