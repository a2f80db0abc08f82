//! What is said of what may not be assigned.
ghost use Rattle.std.specs.Prelude.{◌≡◌};
ghost use Rattle.st_types.specs.Scopes.{scope_at};
ghost use Rattle.st_type_messages.specs.Assigned.{counter_cause, is_number, part_cause, purpose_cause, purpose_of};

use crate::cause::Cause;
use crate::rows::tell;
use st_check_expressions::elem_of;
use st_messages::{Draft, Slot};
use st_operators::is_integer;
use st_scopes::Scope;
use st_sites::{Site, reached};
use st_tree::tree::Variable;
use st_types::Purpose;

/// Says why something may not be assigned.
pub fn explain_assigned(draft: &mut Draft, scope: &Scope<'_>, site: Option<Site<'_>>) {
    match site {
        Some(Site::Target(variable)) => {
            let name = variable.name.spelling.as_slice();
            tell(draft, target_cause(scope, variable), &[Slot::Name(name)]);
        }
        Some(Site::Counter(name)) => {
            let name = name.spelling.as_slice();
            tell(draft, counter_cause(scope, name), &[Slot::Name(name)]);
        }
        Some(Site::Association(association)) => {
            let name = association.name.spelling.as_slice();
            if let Some(cause) = purpose_cause(purpose_of(scope, name)) {
                tell(draft, cause, &[Slot::Name(name)]);
            }
        }
        _ => {}
    }
}

/// Why what is for this purpose may not be assigned.
fn purpose_cause(purpose: Option<Purpose>) -> Option<Cause>
    ensures { result ≡ purpose_cause purpose }
{
    match purpose {
        Some(Purpose::Constant) => Some(Cause::Constant),
        Some(Purpose::Input) => Some(Cause::Input),
        _ => None,
    }
}

/// What the variable of this name is for.
fn purpose_of(scope: &Scope<'_>, name: &[u8]) -> Option<Purpose>
    ensures { result ≡ purpose_of (scope_at scope.now) name.now }
{
    match scope.variable(name) {
        Some(symbol) => Some(symbol.purpose),
        None => None,
    }
}

/// Why a variable may not be assigned.
fn target_cause(scope: &Scope<'_>, variable: &Variable) -> Cause {
    let name = variable.name.spelling.as_slice();
    match purpose_cause(purpose_of(scope, name)) {
        Some(cause) => cause,
        None => part_cause(
            variable.parts.is_empty(),
            reached(scope, variable, 0).is_none(),
        ),
    }
}

/// Why a variable that is no constant and no input, or a part of it, may not be assigned.
fn part_cause(is_whole: bool, is_step: bool) -> Cause
    ensures { result ≡ part_cause is_whole is_step }
{
    if is_whole {
        Cause::Counted
    } else if is_step {
        Cause::StepPart
    } else {
        Cause::InstancePart
    }
}

/// Why FOR may not count a variable.
fn counter_cause(scope: &Scope<'_>, name: &[u8]) -> Cause
    ensures { result ≡ counter_cause (scope_at scope.now) name.now }
{
    if let Some(cause) = purpose_cause(purpose_of(scope, name)) {
        return cause;
    }
    if is_number(scope, name) {
        Cause::CountedTwice
    } else {
        Cause::NotCounted
    }
}

/// Whether a name is that of a variable of an integer type.
fn is_number(scope: &Scope<'_>, name: &[u8]) -> bool
    ensures { result ≡ is_number (scope_at scope.now) name.now }
{
    match scope.variable(name) {
        Some(symbol) => match elem_of(&symbol.shape) {
            Some(elem) => is_integer(elem),
            None => false,
        },
        None => false,
    }
}
