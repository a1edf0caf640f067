//! Whether a function or a task writes each of its variables before it reads it, at each call.

use std::alloc::{AllocError, Global};
use syntax_tree::declarations::{BlockItem, Direction, PortDeclaration};
use syntax_tree::expressions::VerilogExpression;
use syntax_tree::statements::{
    AssignmentForm, CaseItem, ConditionalBranch, VariableAssignment, VerilogStatement,
};

/// The variables of a function or a task, those that are surely written, and whether one may be read before that.
#[derive(Drop)]
struct WrittenCourse<'t> {
    alloc: Global,
    variables: Vec<&'t [u8]>,
    written: Vec<&'t [u8]>,
    keeps: bool,
}

/// Whether a name is among some.
fn has(names: &[&[u8]], name: &[u8]) -> bool {
    for found in names {
        if *found == name {
            return true;
        }
    }
    false
}

/// Those of some names that others have too. Fails where memory is refused.
fn common<'t>(
    alloc: Global,
    names: &[&'t [u8]],
    others: &[&'t [u8]],
) -> Result<Vec<&'t [u8]>, AllocError> {
    let mut found = Vec::new(alloc);
    for name in names {
        if has(others, *name) {
            found.push(*name)?;
        }
    }
    Ok(found)
}

impl<'t> WrittenCourse<'t> {
    /// Adds a variable. Of two with one name nothing is told.
    fn declare(&mut self, name: &'t [u8]) -> Result<(), AllocError> {
        if has(self.variables.as_slice(), name) {
            self.keeps = true;
        }
        self.variables.push(name)?;
        Ok(())
    }

    /// Adds what is declared.
    fn declare_items(&mut self, items: &'t [BlockItem]) -> Result<(), AllocError> {
        for item in items {
            if let BlockItem::Variable(source) = item {
                for declarator in &source.declarators {
                    self.declare(declarator.identifier.name.as_slice())?;
                }
            }
        }
        Ok(())
    }

    /// Adds what a function returns, and arguments, of which the inputs are written.
    fn declare_all(
        &mut self,
        returned: Option<&'t [u8]>,
        arguments: &'t [PortDeclaration],
    ) -> Result<(), AllocError> {
        if let Some(name) = returned {
            self.declare(name)?;
        }
        for argument in arguments {
            for declarator in &argument.declarators {
                let name = declarator.identifier.name.as_slice();
                self.declare(name)?;
                if argument.direction != Direction::Output {
                    self.write_name(name)?;
                }
            }
        }
        Ok(())
    }

    /// That what a function returns is read, and all arguments.
    fn read_results(&mut self, returned: Option<&[u8]>, arguments: &[PortDeclaration]) {
        if let Some(name) = returned {
            self.read_name(name);
        }
        for argument in arguments {
            for declarator in &argument.declarators {
                self.read_name(declarator.identifier.name.as_slice());
            }
        }
    }

    /// That a name is read.
    fn read_name(&mut self, name: &[u8]) {
        if has(self.variables.as_slice(), name) && !has(self.written.as_slice(), name) {
            self.keeps = true;
        }
    }

    /// That a name is written.
    fn write_name(&mut self, name: &'t [u8]) -> Result<(), AllocError> {
        if has(self.written.as_slice(), name) {
            return Ok(());
        }
        self.written.push(name)?;
        Ok(())
    }

    /// Takes back what is written behind so many names, and answers it.
    fn taken(&mut self, start: usize) -> Result<Vec<&'t [u8]>, AllocError> {
        let mut found = Vec::new(self.alloc);
        let all = self.written.as_slice();
        let start = start.min(all.len());
        found.extend_from_slice(all.split_at(start).1)?;
        self.written.truncate(start);
        Ok(found)
    }

    /// Takes back what is written behind so many names, and keeps, of what others before it wrote, what is written here too.
    fn meet(
        &mut self,
        start: usize,
        first: bool,
        all: &mut Vec<&'t [u8]>,
    ) -> Result<(), AllocError> {
        let here = self.taken(start)?;
        if first {
            return all.extend_from_slice(here.as_slice());
        }
        *all = common(self.alloc, all.as_slice(), here.as_slice())?;
        Ok(())
    }

    /// That an expression is read.
    #[cycle(reading)]
    fn read(&mut self, e: &VerilogExpression) {
        match e {
            VerilogExpression::Name { name, .. } => self.read_name(name.as_slice()),
            VerilogExpression::Index { base, index, .. } => {
                self.read(base);
                self.read(index);
            }
            VerilogExpression::Part {
                base,
                first,
                second,
                ..
            } => {
                self.read(base);
                self.read(first);
                self.read(second);
            }
            VerilogExpression::Call { arguments, .. } => self.read_all(arguments.as_slice()),
            VerilogExpression::SystemCall { arguments, .. } => self.read_all(arguments.as_slice()),
            VerilogExpression::Concatenation { parts, .. } => self.read_all(parts.as_slice()),
            VerilogExpression::Replication { count, parts, .. } => {
                self.read(count);
                self.read_all(parts.as_slice());
            }
            VerilogExpression::Unary { operand, .. } => self.read(operand),
            VerilogExpression::Binary { left, right, .. } => {
                self.read(left);
                self.read(right);
            }
            VerilogExpression::Conditional {
                condition,
                first,
                second,
                ..
            } => {
                self.read(condition);
                self.read(first);
                self.read(second);
            }
            _ => {}
        }
    }

    /// That expressions are read.
    #[cycle(reading)]
    fn read_all(&mut self, all: &[VerilogExpression]) {
        for e in all {
            self.read(e);
        }
    }

    /// That a target is written. Of one that isn't a variable by its name what it names is read: the rest of it stays.
    fn write(&mut self, target: &'t VerilogExpression) -> Result<(), AllocError> {
        match target {
            VerilogExpression::Name { name, .. } => self.write_name(name.as_slice()),
            _ => {
                self.read(target);
                Ok(())
            }
        }
    }

    /// That a value is read and a target written.
    fn assign(&mut self, source: &'t VariableAssignment) -> Result<(), AllocError> {
        self.read(&source.value);
        self.write(&source.target)
    }

    /// Goes through a statement without statements in it.
    fn go_simple(&mut self, s: &'t VerilogStatement) -> Result<(), AllocError> {
        match s {
            VerilogStatement::Assignment {
                form,
                target,
                timing,
                value,
                ..
            } => {
                self.read(value);
                if timing.is_some() || *form != AssignmentForm::Blocking {
                    self.keeps = true;
                }
                self.write(target)
            }
            VerilogStatement::SystemTaskCall { arguments, .. } => {
                for argument in arguments {
                    if let Some(e) = argument {
                        self.read(e);
                    }
                }
                Ok(())
            }
            VerilogStatement::Empty { .. } => Ok(()),
            _ => {
                self.keeps = true;
                Ok(())
            }
        }
    }

    /// Goes through a statement that may be left out.
    #[cycle(course)]
    fn go_perhaps(&mut self, s: &'t VerilogStatement) -> Result<(), AllocError> {
        let start = self.written.len();
        self.go(s)?;
        self.written.truncate(start);
        Ok(())
    }

    /// Goes through a statement.
    #[cycle(course)]
    fn go(&mut self, s: &'t VerilogStatement) -> Result<(), AllocError> {
        match s {
            VerilogStatement::Block { items, body, .. } => {
                self.declare_items(items.as_slice())?;
                for inner in body {
                    self.go(inner)?;
                }
                Ok(())
            }
            VerilogStatement::If {
                branches,
                otherwise,
                ..
            } => {
                let start = self.written.len();
                let mut all = Vec::new(self.alloc);
                self.go_branches(start, branches.as_slice(), &mut all)?;
                match otherwise {
                    Some(last) => {
                        self.go(last)?;
                        self.meet(start, branches.is_empty(), &mut all)?;
                        self.written.extend_from_slice(all.as_slice())
                    }
                    None => Ok(()),
                }
            }
            VerilogStatement::Case {
                selector,
                items,
                ..
            } => {
                self.read(selector);
                self.go_items(items.as_slice())
            }
            VerilogStatement::For {
                start,
                condition,
                step,
                body,
                ..
            } => {
                self.assign(start)?;
                self.read(condition);
                let before = self.written.len();
                self.go(body)?;
                self.assign(step)?;
                self.written.truncate(before);
                Ok(())
            }
            VerilogStatement::Repeat { count, body, .. } => {
                self.read(count);
                self.go_perhaps(body)
            }
            VerilogStatement::While {
                condition,
                body,
                ..
            } => {
                self.read(condition);
                self.go_perhaps(body)
            }
            VerilogStatement::Forever { body, .. } => self.go_perhaps(body),
            _ => self.go_simple(s),
        }
    }

    /// Goes through the branches of an `if`, and adds to some names what all of them write.
    #[cycle(course)]
    fn go_branches(
        &mut self,
        start: usize,
        branches: &'t [ConditionalBranch],
        all: &mut Vec<&'t [u8]>,
    ) -> Result<(), AllocError> {
        for (number, branch) in branches.iter().enumerate() {
            self.read(&branch.condition);
            self.go(&branch.body)?;
            self.meet(start, number == 0, all)?;
        }
        Ok(())
    }

    /// Goes through the items of a `case`: what all write is written behind it, where one of them is the default.
    #[cycle(course)]
    fn go_items(&mut self, items: &'t [CaseItem]) -> Result<(), AllocError> {
        for item in items {
            self.read_all(item.labels.as_slice());
        }
        let start = self.written.len();
        let mut all = Vec::new(self.alloc);
        for (number, item) in items.iter().enumerate() {
            self.go(&item.body)?;
            self.meet(start, number == 0, &mut all)?;
        }
        if has_default(items) {
            self.written.extend_from_slice(all.as_slice())?;
        }
        Ok(())
    }
}

/// Whether one of the items of a `case` is the default.
fn has_default(items: &[CaseItem]) -> bool {
    for item in items {
        if item.labels.is_empty() {
            return true;
        }
    }
    false
}

/// Whether a function or a task may keep a value from one call to the next: one of its variables may be read before it is written, by
/// what it declares and by its body; its outputs, and what a function returns, are read behind it. Fails where memory is refused.
pub fn keeps_values<'t>(
    alloc: Global,
    returned: Option<&'t [u8]>,
    arguments: &'t [PortDeclaration],
    items: &'t [BlockItem],
    body: &'t VerilogStatement,
) -> Result<bool, AllocError> {
    let mut course = WrittenCourse {
        alloc,
        variables: Vec::new(alloc),
        written: Vec::new(alloc),
        keeps: false,
    };
    course.declare_all(returned, arguments)?;
    course.declare_items(items)?;
    course.go(body)?;
    course.read_results(returned, arguments);
    Ok(course.keeps)
}
