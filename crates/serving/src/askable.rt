//! Which functions may be properties: those that are defined as `int NAME(void)`, and neither print nor begin a relaxed
//! transaction, nor call a function that does. A call of one is then a single step of memory.

ghost use Rattle.std.specs.Prelude.{◌≡◌, ◌≢◌, ◌&&◌, All, IfNone, IfOk, IfSome, None, Some, is_some, map, option_map, true, false};
ghost use Rattle.std.specs.Str.{bytes_eq};
ghost use Rattle.lex.specs.declared.token.Scalar.TheVariants.{Int};
ghost use Rattle.syntax.specs.Names.{definition_of};
ghost use Rattle.syntax.specs.Views.{function_of, item_of, program_of};
ghost use Rattle.safety.specs.Sets.{set_of};
ghost use Rattle.safety.specs.inner.SiteLinks.{no_attribute};
ghost use Rattle.safety.specs.inner.UnsafeLinks.{unsafe_at};
ghost use Rattle.serving.specs.Askable.{IsAskable, TellsIrrevocable};
ghost use Rattle.serving.specs.inner.Askable.{MayBeAsked, definition_in};

use lex::token::Scalar;
use safety::{Construct, FunctionSet, Link, LinkRule, Site, least, links_by};
use std::alloc::{AllocError, Allocator};
use syntax::tree::{Attribute, Function, Item, Unit};

/// Why a function may not be a property.
#[derive(Clone, Copy)]
pub(crate) enum Unaskable {
    Unknown,
    OtherType,
    NoStep,
}

impl Unaskable {
    /// The words that report it.
    pub(crate) fn words(self) -> &'static str {
        match self {
            Unaskable::Unknown => "no function of the file",
            Unaskable::OtherType => "it is not of the form int NAME(void)",
            Unaskable::NoStep => "it prints, or begins a relaxed transaction",
        }
    }
}

/// Irrevocable functions: those that print or begin a relaxed transaction, and those that call one.
#[derive(Drop)]
struct IrrevocableFunctions;

impl LinkRule for IrrevocableFunctions {
    ghost declares = { no_attribute };

    ghost links_at = { unsafe_at };

    fn is_declared(&self, _attributes: &[Attribute]) -> bool {
        false
    }

    fn link<'a>(&self, caller: &'a str, site: Site<'a>) -> Option<Link<'a>> {
        match site.construct {
            Construct::Prints | Construct::Relaxes => Some(Link::member(caller)),
            Construct::Calls(callee) => Some(Link::call(caller, callee)),
            Construct::OpensOuter
            | Construct::Cancels
            | Construct::CancelsOuter
            | Construct::Uses(_) => None,
        }
    }
}

/// The functions that are irrevocable.
fn irrevocable<'a, A: Allocator + Copy>(
    alloc: A,
    unit: &'a Unit<A>,
) -> Result<FunctionSet<'a, A>, AllocError>
    ensures { IfOk result (λ set. TellsIrrevocable (program_of unit.now) (set_of set)) }
{
    let links = links_by(
        alloc,
        unit.key,
        &IrrevocableFunctions,
        unit.items.as_slice(),
    )?;
    let set = least(alloc, unit.key, links.as_slice())?;
    Ok(set)
}

/// Whether a type is `int`.
fn is_int(ty: Scalar) -> bool
    ensures yes { result ≡ true → ty ≡ Int }
    ensures no { result ≡ false → ty ≢ Int }
{
    match ty {
        Scalar::Int => true,
        Scalar::Unsigned => false,
        Scalar::LongLong => false,
    }
}

/// Whether a function returns an `int`.
fn gives_int(value: Option<Scalar>) -> bool
    ensures yes { result ≡ true → value ≡ Some Int }
    ensures no { result ≡ false → value ≢ Some Int }
{
    match value {
        Some(ty) => is_int(ty),
        None => false,
    }
}

/// Why a function of the file may not be a property, if so.
fn why_not<'a, A: Allocator + Copy>(
    f: &'a Function<A>,
    irrevocable: &FunctionSet<'a, A>,
) -> Option<Unaskable>
    ensures none { IfNone result (MayBeAsked (set_of irrevocable.now) (function_of f.now)) }
    ensures some { IfSome result (λ _. MayBeAsked (set_of irrevocable.now) (function_of f.now) → ⊥) }
{
    if !gives_int(f.result) {
        return Some(Unaskable::OtherType);
    }
    if !f.parameters.is_empty() {
        return Some(Unaskable::OtherType);
    }
    if irrevocable.contains(f.name.text.as_str()) {
        return Some(Unaskable::NoStep);
    }
    None
}

/// Whether a function is defined here, by this name.
fn defines<A: Allocator + Copy>(f: &Function<A>, name: &str) -> bool
    ensures { result ≡ (is_some (function_of f.now).body && bytes_eq (function_of f.now).name.text name.now) }
{
    f.body.is_some() && f.name.text.as_str() == name
}

/// The function that an item defines by this name, if it does.
fn defined_in<'a, A: Allocator + Copy>(item: &'a Item<A>, name: &str) -> Option<&'a Function<A>>
    ensures { option_map (λ f. function_of f.now) result ≡ definition_in (item_of item.now) name.now }
{
    match item {
        Item::Function(f) => { if defines(f, name) { Some(f) } else { None } }
        Item::Globals(_) => None,
    }
}

/// Why the function of a name may not be a property, if so.
fn why_not_named<'a, A: Allocator + Copy>(
    unit: &'a Unit<A>,
    irrevocable: &FunctionSet<'a, A>,
    name: &str,
) -> Option<Unaskable>
    requires tells { TellsIrrevocable (program_of unit.now) (set_of irrevocable.now) }
    ensures none { IfNone result (IsAskable (program_of unit.now) name.now) }
    ensures some { IfSome result (λ _. IsAskable (program_of unit.now) name.now → ⊥) }
{
    'items: for item in unit.items.as_slice() {
        if let Some(f) = defined_in(item, name) {
            return why_not(f, irrevocable);
        }
    }
    Some(Unaskable::Unknown)
}

/// The first of these names whose function may not be a property, and why.
pub(crate) fn first_unaskable<'n, A: Allocator + Copy>(
    alloc: A,
    unit: &Unit<A>,
    names: &[&'n str],
) -> Result<Option<(&'n str, Unaskable)>, AllocError>
    ensures none { IfOk result (λ o. IfNone o (All (IsAskable (program_of unit.now)) (map (λ n. n.now) names.now))) }
    ensures some { IfOk result (λ o. IfSome o (λ _.
        All (IsAskable (program_of unit.now)) (map (λ n. n.now) names.now) → ⊥)) }
{
    let set = irrevocable(alloc, unit)?;
    'names: for name in names {
        if let Some(why) = why_not_named(unit, &set, *name) {
            return Ok(Some((*name, why)));
        }
    }
    Ok(None)
}
