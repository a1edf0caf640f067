//! From the modules of a text to the scopes of a design.

ghost use Rattle.std.specs.Prelude.{◌≡◌, ◌≢◌, AllPairs, IfOk, OnOk};
ghost use Rattle.design_scopes.specs.Flat.{variable_names};

use crate::instances::has_parameter;
use crate::modules::{ModuleTable, top_modules};
use crate::parameters::{Given, Parameters};
use constant_functions::calls::ConstantFunctions;
use design_scopes::faults::{DesignFault, DesignMade, Wrong, refuse};
use design_scopes::generates::is_direct;
use design_scopes::scoped::{Label, ScopedDesign, label_of};
use shaped_trees::constants::Constant;
use std::alloc::{AllocError, Global};
use syntax_tree::declarations::VerilogRange;
use syntax_tree::modules::{
    GenerateBlock, GenerateCase, GenerateIf, GenerateLoop, ModuleDeclaration, ModuleInstance,
    ModuleInstantiation, ModuleItem,
};

/// How deep modules and generate constructs may stand in each other.
const ROOM: usize = 1024;

/// A value that is given to a parameter of the top modules from outside of the text.
#[derive(Clone, Copy)]
pub struct TopParameter<'n> {
    pub name: &'n [u8],
    pub value: Constant,
}

/// A design under way.
#[derive(Drop)]
pub struct Elaboration<'t> {
    pub modules: ModuleTable<'t>,
    pub design: ScopedDesign,
    pub parameters: Parameters,
    pub functions: ConstantFunctions<'t>,
}

impl<'t> Elaboration<'t> {
    /// A design without any module. Fails where memory is refused.
    fn new(alloc: Global, modules: &'t [ModuleDeclaration]) -> Result<Elaboration<'t>, AllocError> {
        Ok(Elaboration {
            modules: ModuleTable::new(alloc, modules)?,
            design: ScopedDesign::new(alloc)?,
            parameters: Parameters::new(alloc),
            functions: ConstantFunctions::new(alloc, modules)?,
        })
    }

    /// Gives a parameter of a top module a value from outside, where the module has one of that name.
    fn give_top_parameter(
        &mut self,
        scope: usize,
        module: &ModuleDeclaration,
        given: &TopParameter<'_>,
    ) -> DesignMade<()> {
        if !has_parameter(module, given.name) {
            return Ok(());
        }
        let token = module.identifier.token;
        let label = Label {
            token,
            name: given.name,
        };
        let full = self.design.full_name_in(scope, label)?;
        let value = given.value;
        self.parameters.give(full, Given { token, value })?;
        Ok(())
    }

    /// Opens the scope of a top module, gives its parameters the values from outside, and goes through it.
    fn elaborate_top(
        &mut self,
        module: &'t ModuleDeclaration,
        given: &[TopParameter<'_>],
    ) -> DesignMade<()> {
        let label = label_of(&module.identifier);
        let scope = self.design.open(0, label, Some(label.name))?;
        for parameter in given {
            self.give_top_parameter(scope, module, parameter)?;
        }
        self.elaborate_module(scope, module, ROOM)
    }

    /// Goes through the top modules of these numbers, and refuses what is wrong with the design then.
    fn elaborate_tops(
        &mut self,
        modules: &'t [ModuleDeclaration],
        tops: &[usize],
        given: &[TopParameter<'_>],
    ) -> DesignMade<()>
        ensures { OnOk result (AllPairs (λ a b. a ≢ b) (variable_names self.new.design.objects.items)) }
    {
        for number in tops {
            if let Some(module) = modules.get(*number) {
                self.elaborate_top(module, given)?;
            }
        }
        self.parameters.all_known()?;
        self.design.refuse_same_names()
    }

    /// The design, where it is made without a fault.
    fn finished(self, made: DesignMade<()>) -> DesignMade<ScopedDesign>
        ensures { IfOk result (λ design. (made ≡ Ok tt) × (design ≡ self.entry.design)) }
    {
        let Elaboration {
            modules,
            design,
            functions,
            parameters,
        } = self;
        drop(modules);
        drop(functions);
        drop(parameters);
        match made {
            Ok(()) => Ok(design),
            Err(fault) => {
                drop(design);
                Err(fault)
            }
        }
    }

    /// Declares what an item declares, and gives the parameters that it names their values.
    fn declare_item(&mut self, scope: usize, item: &ModuleItem) -> DesignMade<()> {
        match item {
            ModuleItem::Parameter(source) => self.declare_parameters(scope, source),
            ModuleItem::Variable(source) => self.declare_variables(scope, source),
            ModuleItem::Event(source) => self.design.declare_events(scope, source),
            ModuleItem::Genvar(source) => self.design.declare_genvars(scope, source),
            ModuleItem::Function(source) => self.open_function(scope, source),
            ModuleItem::Task(source) => self.open_task(scope, source),
            ModuleItem::Process(source) => {
                self.design.add_process(scope, source.token)?;
                self.open_blocks(scope, &source.body)
            }
            ModuleItem::ParameterOverride(source) => {
                self.override_parameters(scope, source.as_slice())
            }
            _ => Ok(()),
        }
    }

    /// Declares what the items of a module, or of a generate block, declare, and then goes through the scopes in them, in the
    /// order of the text. Generate constructs have numbers in their scope, from 1 (12.4.3).
    #[cycle(elaborated)]
    fn elaborate_items(
        &mut self,
        scope: usize,
        items: &'t [ModuleItem],
        room: usize,
    ) -> DesignMade<()> {
        for item in items {
            self.declare_item(scope, item)?;
        }
        let mut number = 0_usize;
        for item in items {
            if is_construct(item) {
                number = number.saturating_add(1);
            }
            self.elaborate_item(scope, item, number, room)?;
        }
        Ok(())
    }

    /// Goes through the scopes in an item.
    #[cycle(elaborated)]
    fn elaborate_item(
        &mut self,
        scope: usize,
        item: &'t ModuleItem,
        number: usize,
        room: usize,
    ) -> DesignMade<()> {
        match item {
            ModuleItem::Instance(source) => self.elaborate_instances(scope, source, room),
            ModuleItem::GenerateLoop(source) => self.elaborate_loop(scope, source, number, room),
            ModuleItem::GenerateIf(source) => self.elaborate_if(scope, source, number, room),
            ModuleItem::GenerateCase(source) => self.elaborate_case(scope, source, number, room),
            ModuleItem::GenerateBlock(source) => self.elaborate_block(scope, source, number, room),
            _ => Ok(()),
        }
    }

    /// Goes through a module in its scope: the parameters in its head, and its items.
    #[cycle(elaborated)]
    fn elaborate_module(
        &mut self,
        scope: usize,
        module: &'t ModuleDeclaration,
        room: usize,
    ) -> DesignMade<()> {
        if room == 0 {
            return refuse(module.token, Wrong::Deep);
        }
        for source in &module.parameters {
            self.declare_parameters(scope, source)?;
        }
        self.elaborate_items(scope, module.items.as_slice(), room - 1)
    }

    /// Opens the scopes of an array of instances, and answers the number of the first, and how many they are (7.1.5).
    fn open_array(
        &mut self,
        scope: usize,
        label: Label<'_>,
        instance_of: Option<&[u8]>,
        range: &VerilogRange,
    ) -> DesignMade<(usize, usize)> {
        let indices = self.indices(scope, range)?;
        let first = self
            .design
            .open_several(scope, label, instance_of, indices.as_slice())?;
        Ok((first, indices.len()))
    }

    /// Opens the scope of an instance, or those of an array of instances, and goes through them.
    #[cycle(elaborated)]
    fn elaborate_instance(
        &mut self,
        scope: usize,
        source: &ModuleInstantiation,
        instance: &ModuleInstance,
        module: &'t ModuleDeclaration,
        room: usize,
    ) -> DesignMade<()> {
        let label = label_of(&instance.identifier);
        let connections = source.parameters.as_slice();
        let instance_of = Some(module.identifier.name.as_slice());
        let Some(range) = &instance.range else {
            let inner = self.design.open(scope, label, instance_of)?;
            self.give_parameters(scope, inner, module, connections)?;
            return self.elaborate_module(inner, module, room);
        };
        let (first, count) = self.open_array(scope, label, instance_of, range)?;
        let mut inner = first;
        for _instance in 0..count {
            self.give_parameters(scope, inner, module, connections)?;
            self.elaborate_module(inner, module, room)?;
            inner = inner.saturating_add(1);
        }
        Ok(())
    }

    /// Goes through the instances of one module.
    #[cycle(elaborated)]
    fn elaborate_instances(
        &mut self,
        scope: usize,
        source: &'t ModuleInstantiation,
        room: usize,
    ) -> DesignMade<()> {
        let Some(module) = self.modules.find(source.module.name.as_slice()) else {
            return refuse(source.module.token, Wrong::UnknownModule);
        };
        for instance in &source.instances {
            self.elaborate_instance(scope, source, instance, module, room)?;
        }
        Ok(())
    }

    /// Goes through the blocks of a loop generate construct (12.4.1).
    #[cycle(elaborated)]
    fn elaborate_loop(
        &mut self,
        scope: usize,
        source: &'t GenerateLoop,
        number: usize,
        room: usize,
    ) -> DesignMade<()> {
        if room == 0 {
            return refuse(source.token, Wrong::Deep);
        }
        let variable = self.design.loop_variable(scope, source)?;
        let values = self.loop_values(scope, source, variable.name)?;
        let mut inner = self
            .design
            .open_turns(scope, source, number, variable, values.as_slice())?;
        for _turn in 0..values.len() {
            self.elaborate_items(inner, source.body.items.as_slice(), room - 1)?;
            inner = inner.saturating_add(1);
        }
        Ok(())
    }

    /// Opens the scope of a generate block, and goes through it.
    #[cycle(elaborated)]
    fn elaborate_block(
        &mut self,
        scope: usize,
        block: &'t GenerateBlock,
        number: usize,
        room: usize,
    ) -> DesignMade<()> {
        if room == 0 {
            return refuse(block.token, Wrong::Deep);
        }
        let inner = self.design.open_generate_block(scope, block, number)?;
        self.elaborate_items(inner, block.items.as_slice(), room - 1)
    }

    /// Goes through the block that a conditional construct chooses, or through the construct that it is.
    #[cycle(elaborated)]
    fn elaborate_chosen(
        &mut self,
        scope: usize,
        block: &'t GenerateBlock,
        number: usize,
        room: usize,
    ) -> DesignMade<()> {
        if room == 0 {
            return refuse(block.token, Wrong::Deep);
        }
        let [item] = block.items.as_slice() else {
            return self.elaborate_block(scope, block, number, room);
        };
        match item {
            ModuleItem::GenerateIf(inner) if is_direct(block, inner.token) => {
                self.elaborate_if(scope, inner, number, room - 1)
            }
            ModuleItem::GenerateCase(inner) if is_direct(block, inner.token) => {
                self.elaborate_case(scope, inner, number, room - 1)
            }
            _ => self.elaborate_block(scope, block, number, room),
        }
    }

    /// Goes through the block that an if generate construct chooses (12.4.2).
    #[cycle(elaborated)]
    fn elaborate_if(
        &mut self,
        scope: usize,
        source: &'t GenerateIf,
        number: usize,
        room: usize,
    ) -> DesignMade<()> {
        for branch in &source.branches {
            if self.condition_holds(scope, source.token, &branch.condition)? {
                return self.elaborate_chosen(scope, &branch.body, number, room);
            }
        }
        match &source.otherwise {
            Some(block) => self.elaborate_chosen(scope, block, number, room),
            None => Ok(()),
        }
    }

    /// Goes through the block that a case generate construct chooses (12.4.2).
    #[cycle(elaborated)]
    fn elaborate_case(
        &mut self,
        scope: usize,
        source: &'t GenerateCase,
        number: usize,
        room: usize,
    ) -> DesignMade<()> {
        let Some(place) = self.chosen_item(scope, source)? else {
            return Ok(());
        };
        match source.items.get(place) {
            Some(item) => self.elaborate_chosen(scope, &item.body, number, room),
            None => Ok(()),
        }
    }
}

/// Whether an item is a generate construct, which has a number in its scope (12.4.3).
fn is_construct(item: &ModuleItem) -> bool {
    match item {
        ModuleItem::GenerateLoop(_) => true,
        ModuleItem::GenerateIf(_) => true,
        ModuleItem::GenerateCase(_) => true,
        ModuleItem::GenerateBlock(_) => true,
        _ => false,
    }
}

/// Refuses a value from outside for a parameter that no top module has.
fn refuse_unknown(
    modules: &[ModuleDeclaration],
    tops: &[usize],
    given: &[TopParameter<'_>],
) -> DesignMade<()> {
    for parameter in given {
        let mut known = false;
        for number in tops {
            if let Some(module) = modules.get(*number) {
                known = known || has_parameter(module, parameter.name);
            }
        }
        if !known {
            return Err(DesignFault::UnknownTopParameter);
        }
    }
    Ok(())
}

/// The scopes of the design that the modules of these numbers make as top modules.
fn elaborate_from(
    alloc: Global,
    modules: &[ModuleDeclaration],
    tops: &[usize],
    given: &[TopParameter<'_>],
) -> DesignMade<ScopedDesign>
    ensures { IfOk result (λ design. AllPairs (λ a b. a ≢ b) (variable_names design.objects.items)) }
{
    if tops.is_empty() {
        return Err(DesignFault::NoTopModule);
    }
    refuse_unknown(modules, tops, given)?;
    let mut state = Elaboration::new(alloc, modules)?;
    let made = state.elaborate_tops(modules, tops, given);
    state.finished(made)
}

/// The scopes of the design that modules make, in the order of the text: those of the top modules, which are all that no module
/// uses, or the one that is asked for, each with those that stand in it behind it.
///
/// # Errors
///
/// What is wrong first, at its token; `Memory` where memory is refused.
pub fn elaborate(
    alloc: Global,
    modules: &[ModuleDeclaration],
    top: Option<&[u8]>,
    given: &[TopParameter<'_>],
) -> DesignMade<ScopedDesign>
    ensures { IfOk result (λ design. AllPairs (λ a b. a ≢ b) (variable_names design.objects.items)) }
{
    let tops = top_modules(alloc, modules, top)?;
    elaborate_from(alloc, modules, tops.as_slice(), given)
}
