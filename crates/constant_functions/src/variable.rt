//! A variable of a call.

ghost use Rattle.std.specs.Prelude.{◌≡◌, false, length, IfOk};
ghost use Rattle.sizing.specs.Names.{object_width, variable_width};
ghost use Rattle.sizing.specs.declared.environment.ObjectValue.TheVariants as worth;

use crate::wrong::refuse_call;
use design_scopes::call_values::CallValue;
use design_scopes::faults::{ConstantCallWrong, DesignMade, Wrong, refuse};
use design_scopes::variables::VariableType;
use logic4::bits::Bits;
use logic4::size::Size;
use shaped_trees::shape::Shape;
use sizing::environment::{Object, ObjectValue};

/// A variable of a call, or a constant that the function declares, with its value. A variable has as many digits as its range says.
#[derive(Drop)]
pub(crate) struct LocalVariable<'t> {
    pub(crate) name: &'t [u8],
    /// The token of the block that declares it, or that of the function.
    pub(crate) block: usize,
    /// Whether the statement that is done stands in that block.
    pub(crate) is_seen: bool,
    pub(crate) is_constant: bool,
    pub(crate) object: Object,
    pub(crate) ghost fits: { is_constant ≡ false → object_width object ≡ variable_width object.range },
}

/// The size and the sign of variables of a type. A range that is too wide is refused before.
pub(crate) fn shape_of(token: usize, found: VariableType) -> DesignMade<Shape>
    ensures { IfOk result (λ shape. shape ≡ record { width = variable_width found.range; signed = found.signed }) }
{
    let width = match found.range {
        Some(range) => range.width(),
        None => Some(Size::new(1)),
    };
    match width {
        Some(width) => Ok(Shape {
            width,
            signed: found.signed,
        }),
        None => refuse(token, Wrong::Wide),
    }
}

/// The object of a variable of a type, with its digits.
pub(crate) fn variable_of(found: VariableType, digits: Bits) -> Object
    ensures { result ≡ record { signed = found.signed; range = found.range; value = worth.Constant digits } }
{
    Object {
        signed: found.signed,
        range: found.range,
        value: ObjectValue::Constant(digits),
    }
}

impl LocalVariable<'_> {
    /// Its size and sign, as those of what it is given. Refuses a constant.
    pub(crate) fn shape(&self, token: usize) -> DesignMade<Shape>
        ensures { IfOk result (λ shape. shape ≡ record { width = variable_width self.now.object.range; signed = self.now.object.signed }) }
    {
        if self.is_constant {
            return refuse_call(token, ConstantCallWrong::Target);
        }
        let signed = self.object.signed;
        let range = self.object.range;
        shape_of(token, VariableType { signed, range })
    }

    /// Gives it a value.
    pub(crate) fn give(&mut self, digits: Bits)
        requires { length digits ≡ variable_width self.old.object.range }
    {
        self.object.value = ObjectValue::Constant(digits);
    }

    /// What a call at a token gives, whose function's own variable it is. Refuses a constant.
    pub(crate) fn into_value(self, token: usize) -> DesignMade<CallValue>
        ensures { IfOk result (λ value. (value.token ≡ token) × (value.object ≡ self.entry.object)) }
    {
        if self.is_constant {
            return refuse_call(token, ConstantCallWrong::Target);
        }
        let LocalVariable { object, .. } = self;
        Ok(CallValue { token, object })
    }
}
