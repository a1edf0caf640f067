//! Generate constructs (12.4).

ghost use Rattle.std.specs.Prelude.{◌≡◌, string_bytes, IfOk};
ghost use Rattle.design_scopes.specs.Blocks as spec;
ghost use Rattle.design_scopes.specs.Blocks.{IsBlockName, IsFreeName};

use crate::faults::{DesignMade, Wrong, refuse};
use crate::places::{ScopePlace, Turn};
use crate::scoped::{Label, ScopedDesign};
use crate::variables::range_of_width;
use logic4::bits::Bits;
use logic4::digit::Truth;
use logic4::size::Size;
use scopes::finding::find;
use scopes::scope::{Entity, Reach, copied};
use shaped_trees::constants::{Constant, integer};
use shaped_trees::evaluation::evaluate;
use shaped_trees::shape::Shape;
use sizing::environment::{Environment, Object, ObjectValue};
use sizing::faults::ExpressionFaultKind;
use sizing::lowering::{lower, typed_expression};
use std::alloc::{AllocError, Global};
use syntax_tree::expressions::{Identifier, VerilogExpression};
use syntax_tree::modules::{GenerateBlock, GenerateLoop};

/// How many zeros may stand before the number in the name of a block without one.
const MAX_ZEROS: usize = 16;

/// The size and the sign of the variable of a generate loop (12.4.1).
pub fn loop_shape() -> Shape {
    Shape {
        width: Size::new(32),
        signed: true,
    }
}

/// Whether a constant is true (9.4).
pub fn holds(value: Constant) -> bool {
    match value.digits.truth() {
        Truth::True => true,
        Truth::False => false,
        Truth::Unknown => false,
    }
}

/// The size and the sign of an expression at a place.
fn shape_at<E: Environment>(alloc: Global, place: &E, e: &VerilogExpression) -> DesignMade<Shape> {
    Ok(typed_expression(alloc, place, e)?.shape())
}

/// A size and a sign joined with those of labels.
fn joined_labels<E: Environment>(
    alloc: Global,
    place: &E,
    around: Shape,
    labels: &[VerilogExpression],
) -> DesignMade<Shape> {
    let mut shape = around;
    for label in labels {
        let own = shape_at(alloc, place, label)?;
        shape = shape.joined(own);
    }
    Ok(shape)
}

/// The size and the sign at which a `case` compares its selector with the labels of its items: those of all of them together (9.5).
fn case_shape<E: Environment>(
    alloc: Global,
    place: &E,
    selector: &VerilogExpression,
    items: &[&[VerilogExpression]],
) -> DesignMade<Shape> {
    let mut shape = shape_at(alloc, place, selector)?;
    for labels in items {
        let wider = joined_labels(alloc, place, shape, labels)?;
        shape = wider;
    }
    Ok(shape)
}

/// The digits of a constant expression at a place, at a size and a sign. What names a variable is refused at a token.
fn digits_at<E: Environment>(
    alloc: Global,
    place: &E,
    token: usize,
    e: &VerilogExpression,
    shape: &Shape,
) -> DesignMade<Bits> {
    let tree = lower(alloc, place, e, Some(*shape))?;
    match evaluate(&tree, shape.width) {
        Some(digits) => Ok(digits),
        None => refuse(token, Wrong::Expression(ExpressionFaultKind::NotConstant)),
    }
}

/// Whether one of the labels has the selector's digits, at the size and the sign of all of them.
fn is_chosen<E: Environment>(
    alloc: Global,
    place: &E,
    token: usize,
    selector: (&Bits, &Shape),
    labels: &[VerilogExpression],
) -> DesignMade<bool> {
    let (sought, shape) = selector;
    for label in labels {
        let digits = digits_at(alloc, place, token, label, shape)?;
        if digits == *sought {
            return Ok(true);
        }
    }
    Ok(false)
}

/// The place of the item that a `case` at a token chooses by constants: of the first of which a label is the selector, digit for digit
/// at the size and the sign of all of them, or else of the default, which has no label (9.5, 12.4.2).
pub fn chosen_labels<E: Environment>(
    alloc: Global,
    place: &E,
    token: usize,
    selector: &VerilogExpression,
    items: &[&[VerilogExpression]],
) -> DesignMade<Option<usize>> {
    let shape = case_shape(alloc, place, selector, items)?;
    let sought = digits_at(alloc, place, token, selector, &shape)?;
    for (number, labels) in items.iter().enumerate() {
        if is_chosen(alloc, place, token, (&sought, &shape), labels)? {
            return Ok(Some(number));
        }
    }
    Ok(items.iter().position(|labels| labels.is_empty()))
}

/// The variable of a generate loop with a value, as an object.
pub fn loop_object(value: Constant) -> Object {
    Object {
        signed: true,
        range: range_of_width(32),
        value: ObjectValue::Constant(value.digits),
    }
}

/// The variable that an assignment of a generate loop's head names.
fn loop_label(target: &VerilogExpression, token: usize) -> DesignMade<Label<'_>> {
    match target {
        VerilogExpression::Name { token, name } => Ok(Label {
            token: *token,
            name: name.as_slice(),
        }),
        _ => refuse(token, Wrong::LoopVariable),
    }
}

/// Whether a name stands for the variable of generate loops.
fn is_loop_variable(found: Option<Entity>) -> bool {
    match found {
        Some(Entity::LoopVariable) => true,
        _ => false,
    }
}

/// The name of a generate block without one, by the number of its construct, with zeros before it. Fails where memory is refused.
fn numbered_block(alloc: Global, zeros: &str, number: usize) -> Result<String, AllocError>
    ensures { IfOk result (λ made. string_bytes made ≡ spec.numbered_block zeros.now number) }
{
    format!(in alloc; "genblk{zeros}{number}")
}

/// Whether a conditional construct in a block, at this token, stands there without `begin` and `end`: the block makes no scope of
/// its own then (12.4.2).
pub fn is_direct(block: &GenerateBlock, token: usize) -> bool {
    block.name.is_none() && block.token == token
}

impl ScopedDesign {
    /// The place of a scope in the head of a generate loop, where the variable has a value.
    pub fn place_in_loop<'p>(
        &'p self,
        scope: usize,
        name: &'p [u8],
        object: &'p Object,
    ) -> ScopePlace<'p> {
        ScopePlace {
            tree: &self.tree,
            objects: self.objects.as_slice(),
            scope,
            turn: Some(Turn { name, object }),
            calls: self.calls.as_slice(),
        }
    }

    /// The variable of a generate loop, which has to be declared as one.
    pub fn loop_variable<'t>(
        &self,
        scope: usize,
        source: &'t GenerateLoop,
    ) -> DesignMade<Label<'t>> {
        let label = loop_label(&source.start.target, source.start.token)?;
        let next = loop_label(&source.step.target, source.step.token)?;
        let found = find(&self.tree, Reach::Instance, scope, label.name);
        if !is_loop_variable(found) || next.name != label.name {
            return refuse(label.token, Wrong::LoopVariable);
        }
        Ok(label)
    }

    /// The indices of the blocks of a generate loop.
    fn loop_indices(&self, values: &[Constant], token: usize) -> DesignMade<Vec<i64>> {
        let mut found = Vec::new(self.alloc);
        for value in values {
            let Some(index) = integer(*value) else {
                return refuse(token, Wrong::LoopVariable);
            };
            found.push(index)?;
        }
        Ok(found)
    }

    /// The name of a generate block without one: `genblk` and the number of its construct, with as many zeros before it as are wanted so
    /// that its scope doesn't declare the name already (12.4.3).
    fn free_name(&self, scope: usize, token: usize, number: usize) -> DesignMade<Vec<u8>>
        ensures { IfOk result (λ made. IsFreeName self.now.tree.scopes.items scope number made.items) }
    {
        let mut zeros = String::new(self.alloc);
        for _zero in 0..MAX_ZEROS {
            let text = numbered_block(self.alloc, zeros.as_str(), number)?;
            if self.tree.declared(scope, text.as_bytes()).is_none() {
                return Ok(copied(self.alloc, text.as_bytes())?);
            }
            zeros.push_str("0")?;
        }
        refuse(token, Wrong::DeclaredTwice)
    }

    /// The name of a generate block: its own, or that of one without a name (12.4.3).
    fn block_name(
        &self,
        scope: usize,
        token: usize,
        name: &Option<Identifier>,
        number: usize,
    ) -> DesignMade<Vec<u8>>
        ensures { IfOk result (λ made. IsBlockName self.now.tree.scopes.items scope name.now number made.items) }
    {
        match name {
            Some(identifier) => Ok(copied(self.alloc, identifier.name.as_slice())?),
            None => self.free_name(scope, token, number),
        }
    }

    /// Gives the variable of a generate loop its value in each of its blocks.
    fn declare_turns(
        &mut self,
        first: usize,
        label: Label<'_>,
        values: &[Constant],
    ) -> DesignMade<()> {
        let mut scope = first;
        for value in values {
            self.declare_constant(scope, label, loop_object(*value))?;
            scope = scope.saturating_add(1);
        }
        Ok(())
    }

    /// Opens the scope of a generate block.
    pub fn open_generate_block(
        &mut self,
        scope: usize,
        block: &GenerateBlock,
        number: usize,
    ) -> DesignMade<usize> {
        let name = self.block_name(scope, block.token, &block.name, number)?;
        let label = Label {
            token: block.token,
            name: name.as_slice(),
        };
        self.open(scope, label, None)
    }

    /// Opens the scopes of the blocks of a loop generate construct, one for each turn, in which its variable has the turn's value
    /// (12.4.1), and answers the number of the first.
    pub fn open_turns(
        &mut self,
        scope: usize,
        source: &GenerateLoop,
        number: usize,
        variable: Label<'_>,
        values: &[Constant],
    ) -> DesignMade<usize> {
        let indices = self.loop_indices(values, variable.token)?;
        let body = &source.body;
        let name = self.block_name(scope, body.token, &body.name, number)?;
        let label = Label {
            token: body.token,
            name: name.as_slice(),
        };
        let first = self.open_several(scope, label, None, indices.as_slice())?;
        self.declare_turns(first, variable, values)?;
        Ok(first)
    }
}
