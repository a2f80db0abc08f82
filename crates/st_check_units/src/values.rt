//! Initial values (2.4.2).
ghost use Rattle.std.specs.List.{flat_map};
ghost use Rattle.std.specs.Prelude.{◌≡◌};
ghost use Rattle.st_faults.specs.Faults.{offer_all};
ghost use Rattle.st_types.specs.Names.{units_of};
ghost use Rattle.st_check_units.specs.Declarations.{array_literal_faults, constant_faults, element_of, initial_faults, is_composed, item_faults, list_faults_by, literal_faults_by, value_faults};

use st_check_expressions::{check_literal, is_misstated, literal_position};
use st_faults::{FirstFault, Rule};
use st_scopes::Tables;
use st_tree::Boxed;
use st_tree::tree::{ArrayElement, Constant, Initial, Position};
use st_types::{Base, Shape};

/// Offers the fault of a literal for an array.
fn check_array_literal(constant: &Constant, first: &mut FirstFault)
    ensures { first.new ≡ offer_all first.old (array_literal_faults constant.now) }
{
    let rule = if is_misstated(constant) {
        Rule::OutOfRange
    } else {
        Rule::TypeMismatch
    };
    // Typing rests on this rule in its case `literal`: what begins with a literal is one value.
    first.offer(literal_position(constant), rule);
}

/// Offers the faults of a literal for what is made of this.
fn check_constant(base: Base, constant: &Constant, first: &mut FirstFault)
    ensures { first.new ≡ offer_all first.old (constant_faults base constant.now) }
{
    let position = literal_position(constant);
    match base {
        Base::Elementary(elem) => check_literal(constant, position, Some(elem), first),
        Base::Array(_) => check_array_literal(constant, first),
        _ => check_literal(constant, position, None, first),
    }
}

/// Offers the faults of an item of a list, for elements that are made of this.
#[tactic(auto, unfolding(st_faults::specs::Faults::offer_all))]
fn check_item(base: Base, item: &ArrayElement, first: &mut FirstFault)
    ensures { first.new ≡ offer_all first.old (item_faults base item.now) }
{
    match item {
        ArrayElement::Single(constant) => check_constant(base, constant, first),
        ArrayElement::Repeated(_, _, Some(constant)) => {
            check_constant(base, constant.get(), first);
        }
        ArrayElement::Repeated(_, _, None) => {}
    }
}

/// Offers the faults of the items of a list, for elements that are made of this.
#[tactic(auto, unfolding(st_faults::specs::Faults::offer_all))]
fn check_items(base: Base, items: &[ArrayElement], first: &mut FirstFault)
    ensures { first.new ≡ offer_all first.old (flat_map (item_faults base) items.now) }
{
    for item in items {
        check_item(base, item, first);
    }
}

/// What each element of an array is.
pub fn element_of(tables: &Tables<'_>, shape: &Shape<'_>) -> Option<Base>
    ensures { result ≡ element_of (units_of tables.now) shape.now }
{
    if shape.subscripts.is_some() {
        return Some(shape.base);
    }
    let elements = tables.elements(shape.base)?;
    Some(elements.element)
}

/// Offers the faults of a literal for what is made of this, or has such elements.
fn check_literal_value(
    element: Option<Base>,
    base: Base,
    constant: &Constant,
    first: &mut FirstFault,
)
    ensures { first.new ≡ offer_all first.old (literal_faults_by element base constant.now) }
{
    match element {
        None => check_constant(base, constant, first),
        Some(_) => check_array_literal(constant, first),
    }
}

/// Offers the faults of a list for what is made of this, or has such elements.
fn check_list(
    element: Option<Base>,
    base: Base,
    position: Position,
    items: &[ArrayElement],
    first: &mut FirstFault,
)
    ensures { first.new ≡ offer_all first.old (list_faults_by element base position items.now) }
{
    match element {
        Some(element) => check_items(element, items, first),
        None => {
            if base.is_unknown() {
                check_items(base, items, first);
            } else {
                // Typing rests on this rule in its case `list`: what begins with a list is an array.
                first.offer(position, Rule::TypeMismatch);
            }
        }
    }
}

/// Offers the faults of the initial value of what may have one.
fn check_value(tables: &Tables<'_>, shape: &Shape<'_>, initial: &Initial, first: &mut FirstFault)
    ensures { first.new ≡ offer_all first.old (value_faults (units_of tables.now)
        shape.now initial.now) }
{
    let element = element_of(tables, shape);
    match initial {
        Initial::Constant(constant) => check_literal_value(element, shape.base, constant, first),
        Initial::Array(position, items) => {
            check_list(element, shape.base, *position, items.as_slice(), first);
        }
    }
}

/// Whether it is a structure or an instance, which has no initial value.
pub fn is_composed(shape: &Shape<'_>) -> bool
    ensures { result ≡ is_composed shape.now }
{
    if shape.subscripts.is_some() {
        return false;
    }
    matches!(shape.base, Base::Structure(_)) || shape.base.is_instance()
}

/// Offers the faults of an initial value, other than those at the names that are declared.
#[tactic(auto, unfolding(st_faults::specs::Faults::offer_all))]
pub fn check_initial(
    tables: &Tables<'_>,
    shape: &Shape<'_>,
    initial: &Option<Boxed<Initial>>,
    first: &mut FirstFault,
)
    ensures { first.new ≡ offer_all first.old (initial_faults (units_of tables.now)
        shape.now initial.now) }
{
    if let Some(initial) = initial {
        if !is_composed(shape) {
            check_value(tables, shape, initial.get(), first);
        }
    }
}
