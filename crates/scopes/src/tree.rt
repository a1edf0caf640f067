//! The scopes of a design.

ghost use Rattle.std.specs.Prelude.{◌≡◌, ℕ, ◌<◌, [], ◌∷◌, ◌++◌, Some, None, map, take, drop, length, slice_get, string_bytes, option_copied, position, IfOk, IfErr, IfSome, OnOk, MatchResult};
ghost use Rattle.scopes.specs.Scopes as spec;
ghost use Rattle.scopes.specs.Names as rules;
ghost use Rattle.scopes.specs.Faults.{IsDeclareFault, IsDepthFault, IsScopeFault};
ghost use Rattle.scopes.specs.Trees.{Declares, ScopesGrow, Opens, OpensSeveral, indexed as bracketed, opened};

use crate::fault::ScopeFault;
use crate::names::full_name;
use crate::scope::{Entity, NameScope, Reach, copied_name};
use indexmap::IndexMap;
use std::alloc::{AllocError, Global};

/// The most scopes that stand around one.
pub const MAX_DEPTH: u32 = 64;

/// The most scopes of a design.
pub const MAX_SCOPES: usize = 65_536;

/// The scopes of a design by their numbers, each behind the one around it. The first is the design itself, which declares the
/// top modules.
#[derive(Drop)]
pub struct ScopeTree {
    pub scopes: Vec<NameScope>,
    ghost outer_first: { (k outer : ℕ) → (spec.head_at scopes.items k).around ≡ Some outer → outer < k },
}

/// The scope that is the design itself.
fn design(alloc: Global) -> NameScope
    ensures head { spec.scope_head result ≡ spec.no_head }
    ensures names { spec.scope_names result ≡ [] }
{
    NameScope {
        around: None,
        instance_of: None,
        index: None,
        depth: 0,
        path: String::new(alloc),
        names: IndexMap::new(alloc),
    }
}

impl ScopeTree {
    /// The design, without any module. Fails where memory is refused.
    pub fn new(alloc: Global) -> Result<ScopeTree, AllocError>
        ensures heads { IfOk result (λ tree. map spec.scope_head tree.scopes.items ≡ spec.no_head ∷ []) }
        ensures names { IfOk result (λ tree. map spec.scope_names tree.scopes.items ≡ [] ∷ []) }
    {
        let mut scopes = Vec::new(alloc);
        scopes.push(design(alloc))?;
        Ok(ScopeTree { scopes })
    }

    /// The scope with a number, if there is one.
    pub fn scope(&self, number: usize) -> Option<&NameScope>
        ensures { option_copied result ≡ slice_get self.now.scopes.items number }
    {
        self.scopes.get(number)
    }

    /// The full name of a scope; that of the design where there is no such scope.
    pub fn path(&self, scope: usize) -> &str
        ensures { result.now ≡ (spec.head_at self.now.scopes.items scope).path }
    {
        match self.scope(scope) {
            Some(found) => found.path.as_str(),
            None => "",
        }
    }

    /// What a scope itself declares under a name.
    pub fn declared(&self, scope: usize, name: &[u8]) -> Option<Entity>
        ensures { result ≡ spec.declared_in self.now.scopes.items scope name.now }
    {
        match self.scope(scope) {
            Some(found) => found.meaning(name),
            None => None,
        }
    }

    /// Whether a scope is an instance of a module of this name.
    pub fn is_instance_of(&self, scope: usize, name: &[u8]) -> bool
        ensures { result ≡ rules.is_instance_of name.now (spec.head_at self.now.scopes.items scope) }
    {
        match self.scope(scope) {
            Some(found) => found.is_instance_of(name),
            None => false,
        }
    }

    /// Where a name is looked for that a scope doesn't declare.
    #[tactic(auto, using(crate::proofs::Lookups::stops_here, crate::proofs::Lookups::passes_here))]
    pub fn outwards(&self, reach: Reach, scope: usize) -> Option<usize>
        ensures value { result ≡ rules.outwards reach (spec.head_at self.now.scopes.items scope) }
        ensures further { (outer : ℕ) → result ≡ Some outer → outer < scope }
    {
        let found = self.scope(scope)?;
        match reach {
            Reach::Instance if found.instance_of.is_some() => None,
            Reach::Instance => found.around,
            Reach::Design => found.around,
        }
    }

    /// Declares a name in a scope. Refuses it where there is no such scope, and where the scope declares it already, and fails
    /// where memory is refused.
    pub fn declare(
        &mut self,
        alloc: Global,
        scope: usize,
        name: &[u8],
        found: Entity,
    ) -> Result<(), ScopeFault>
        ensures declares { OnOk result (Declares self.old.scopes.items self.new.scopes.items scope name.now found) }
        ensures fault { IfErr result (λ fault. IsDeclareFault fault self.old.scopes.items scope name.now) }
        ensures grows { OnOk result (ScopesGrow self.old.scopes.items self.new.scopes.items) }
    {
        if scope >= self.scopes.len() {
            return Err(ScopeFault::NoScope);
        }
        self.scopes[scope].declare(alloc, name, found)
    }

    /// The scopes from one on, at most so many.
    fn elements(&self, first: usize, count: usize) -> &[NameScope]
        ensures { result.now ≡ take count (drop first self.now.scopes.items) }
    {
        let all = self.scopes.as_slice();
        let rest = all.split_at(first.min(all.len())).1;
        rest.split_at(count.min(rest.len())).0
    }

    /// The number of the first scope with an index, of so many from this one on; none without an index.
    pub fn element(&self, first: usize, count: usize, index: Option<i64>) -> Option<usize>
        ensures { result ≡ rules.element self.now.scopes.items first count index }
    {
        match place_of(self.elements(first, count), index) {
            Some(place) => Some(first + place),
            None => None,
        }
    }

    /// A scope in another one, which isn't added yet.
    fn inner(
        &self,
        alloc: Global,
        around: usize,
        name: &[u8],
        instance_of: Option<&[u8]>,
        index: Option<i64>,
    ) -> Result<NameScope, ScopeFault>
        requires { around < length self.now.scopes.items }
        ensures head { IfOk result (λ made. spec.scope_head made ≡ opened (spec.head_at self.now.scopes.items around) around name.now (option_copied instance_of.entry) index) }
        ensures names { IfOk result (λ made. spec.scope_names made ≡ []) }
        ensures fault { IfErr result (λ fault. IsDepthFault fault (spec.head_at self.now.scopes.items around).depth) }
    {
        let outer = &self.scopes[around];
        if outer.depth >= MAX_DEPTH {
            return Err(ScopeFault::Deep);
        }
        let depth = outer.depth + 1;
        let path = full_name(alloc, outer.path.as_str(), text_of(name)?)?;
        let path = indexed(alloc, path, index)?;
        let instance_of = copied_name(alloc, instance_of)?;
        Ok(NameScope {
            around: Some(around),
            instance_of,
            index,
            depth,
            path,
            names: IndexMap::new(alloc),
        })
    }

    /// Opens a scope in another one, which declares its name, and answers its number: that of all scopes before it. Refuses it
    /// where there is no such scope, one too many, one that stands too deep, and a name that is declared there already, and fails
    /// where memory is refused; the scopes aren't used any more then.
    pub fn open(
        &mut self,
        alloc: Global,
        around: usize,
        name: &[u8],
        instance_of: Option<&[u8]>,
    ) -> Result<usize, ScopeFault>
        ensures number { IfOk result (λ number. number ≡ length self.old.scopes.items) }
        ensures grows { OnOk result (ScopesGrow self.old.scopes.items self.new.scopes.items) }
        ensures opens { OnOk result (Opens self.old.scopes.items self.new.scopes.items around name.now (option_copied instance_of.entry)) }
        ensures fault { IfErr result (λ fault. IsScopeFault fault self.old.scopes.items around name.now) }
    {
        let number = self.scopes.len();
        if around >= number {
            return Err(ScopeFault::NoScope);
        }
        if number >= MAX_SCOPES {
            return Err(ScopeFault::ManyScopes);
        }
        let made = self.inner(alloc, around, name, instance_of, None)?;
        self.scopes.push(made)?;
        self.declare(alloc, around, name, Entity::Scope(number))?;
        Ok(number)
    }

    /// Adds a scope in another one for each index.
    fn add_all(
        &mut self,
        alloc: Global,
        around: usize,
        name: &[u8],
        instance_of: Option<&[u8]>,
        indices: &[i64],
    ) -> Result<(), ScopeFault>
        requires { around < length self.old.scopes.items }
        ensures heads { OnOk result (map spec.scope_head self.new.scopes.items ≡ map spec.scope_head self.old.scopes.items ++ map (opened (spec.head_at self.old.scopes.items around) around name.now (option_copied instance_of.entry)) (map Some indices.now)) }
        ensures names { OnOk result ((k : ℕ) → spec.names_at self.new.scopes.items k ≡ spec.names_at self.old.scopes.items k) }
        ensures fault { IfErr result (λ fault. IsDepthFault fault (spec.head_at self.old.scopes.items around).depth) }
    {
        for index in indices {
            let made = self.inner(alloc, around, name, instance_of, Some(*index))?;
            self.scopes.push(made)?;
        }
        Ok(())
    }

    /// Opens several scopes in another one, which declares their name, one for each index, and answers the number of the first:
    /// that of all scopes before it. Refuses them as `open` does.
    pub fn open_several(
        &mut self,
        alloc: Global,
        around: usize,
        name: &[u8],
        instance_of: Option<&[u8]>,
        indices: &[i64],
    ) -> Result<usize, ScopeFault>
        ensures number { IfOk result (λ number. number ≡ length self.old.scopes.items) }
        ensures grows { OnOk result (ScopesGrow self.old.scopes.items self.new.scopes.items) }
        ensures opens { OnOk result (OpensSeveral self.old.scopes.items self.new.scopes.items around name.now (option_copied instance_of.entry) indices.now) }
    {
        let first = self.scopes.len();
        let count = indices.len();
        if around >= first {
            return Err(ScopeFault::NoScope);
        }
        if count >= MAX_SCOPES || first >= MAX_SCOPES - count {
            return Err(ScopeFault::ManyScopes);
        }
        self.add_all(alloc, around, name, instance_of, indices)?;
        self.declare(alloc, around, name, Entity::Scopes { first, count })?;
        Ok(first)
    }
}

/// The full name of one of several scopes, with its index. Fails where memory is refused.
fn indexed(alloc: Global, path: String, index: Option<i64>) -> Result<String, AllocError>
    ensures { IfOk result (λ made. string_bytes made ≡ bracketed (string_bytes path) index) }
{
    let Some(index) = index else {
        return Ok(path);
    };
    let mut made = path;
    made.push_str("[")?;
    made.push_str(index.to_string(alloc)?.as_str())?;
    made.push_str("]")?;
    Ok(made)
}

/// The place of the first scope with an index; none without one.
fn place_of(scopes: &[NameScope], index: Option<i64>) -> Option<usize>
    ensures value { result ≡ position (λ s. rules.has_index index (spec.scope_head s)) scopes.now }
    ensures within { IfSome result (λ place. place < length scopes.now) }
{
    scopes.iter().position(|s| has_index(s, index))
}

/// Whether a scope has this index among several.
fn has_index(scope: &NameScope, index: Option<i64>) -> bool
    ensures { result ≡ rules.has_index index (spec.scope_head scope.now) }
{
    match (index, scope.index) {
        (Some(index), Some(found)) => index == found,
        _ => false,
    }
}

/// The text of a name. Refuses one that is none.
fn text_of(name: &[u8]) -> Result<&str, ScopeFault>
    ensures { MatchResult result (λ text. text.now ≡ name.now) (λ fault. fault ≡ ScopeFault.NoText) }
{
    match str::from_utf8(name) {
        Ok(text) => Ok(text),
        Err(_) => Err(ScopeFault::NoText),
    }
}
