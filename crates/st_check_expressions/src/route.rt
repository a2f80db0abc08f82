//! Ways through variables and their parts (2.4.1).
ghost use Rattle.std.specs.Prelude.{◌≡◌, ◌≤◌, None, Some, length, true, false};
ghost use Rattle.st_types.specs.Scopes.{Scope as Names, scope_at};
ghost use Rattle.st_types.specs.Types.{elem_of, is_unknown, plain};
ghost use Rattle.st_check_expressions.specs.Inside.{start_at};
ghost use Rattle.st_check_expressions.specs.Variables.{element_route, entered_by, field_route, lost, select, select_all, shape_elements};
ghost use Rattle.st_check_expressions.specs.Variables as variables;
ghost use Rattle.st_check_expressions.specs.Walk.{known_part, known_parts, known_variable};

use st_scopes::Scope;
use st_tree::tree::{Identifier, Part, Position, Variable};
use st_types::{Base, Elements, Member, Shape, is_same_name};
use st_values::Elem;

/// What a variable, or a part of it, is, and whether the way to it led through an instance or a step.
#[derive(Drop)]
pub struct Route<'a> {
    /// What it is.
    pub shape: Shape<'a>,
    /// Whether the way led through an instance or a step.
    pub through: bool,
}

/// What has no subscripts of its own.
fn plain<'a>(base: Base) -> Shape<'a>
    ensures { result ≡ plain base }
{
    Shape {
        subscripts: None,
        base,
    }
}

/// The way to what can't be known.
fn lost<'a>(through: bool) -> Route<'a>
    ensures { result ≡ lost through }
{
    Route {
        shape: plain(Base::Unknown),
        through,
    }
}

/// The same way.
fn same<'a>(route: &Route<'a>) -> Route<'a>
    ensures { result ≡ route.now }
{
    Route {
        shape: Shape {
            subscripts: route.shape.subscripts,
            base: route.shape.base,
        },
        through: route.through,
    }
}

/// Whether it can't be known.
pub fn is_unknown(base: Base) -> bool
    ensures { result ≡ is_unknown base }
{
    matches!(base, Base::Unknown)
}

/// The elementary type of what is one value.
pub fn elem_of(shape: &Shape<'_>) -> Option<Elem>
    ensures { result ≡ elem_of shape.now }
{
    match (shape.subscripts, shape.base) {
        (None, Base::Elementary(elem)) => Some(elem),
        _ => None,
    }
}

/// The subscripts and elements of an array.
pub fn elements<'a>(scope: &Scope<'a>, shape: &Shape<'a>) -> Option<Elements<'a>>
    ensures { result ≡ shape_elements (scope_at scope.now) shape.now }
{
    match shape.subscripts {
        Some(subscripts) => Some(Elements {
            subscripts,
            element: shape.base,
        }),
        None => scope.elements(shape.base),
    }
}

/// What a name stands for behind a variable. An array has no members.
pub fn member<'a>(scope: &Scope<'a>, shape: &Shape<'a>, name: &Identifier) -> Member<'a>
    ensures { result ≡ variables.member_of (scope_at scope.now) shape.now name.now.spelling }
{
    if shape.subscripts.is_some() {
        return Member {
            symbol: None,
            of_instance: false,
        };
    }
    scope.member(shape.base, name.spelling.as_slice())
}

/// The way into a member.
fn entered<'a>(through: bool, member: Member<'a>) -> Route<'a>
    ensures { result ≡ entered_by through member.entry }
{
    let through = through || member.of_instance;
    match member.symbol {
        Some(symbol) => Route {
            shape: symbol.shape,
            through,
        },
        None => lost(through),
    }
}

/// The way on through `.name`.
fn field<'a>(scope: &Scope<'a>, route: &Route<'a>, name: &Identifier) -> Route<'a>
    ensures { result ≡ field_route (scope_at scope.now) route.now name.now }
{
    if is_unknown(route.shape.base) {
        return same(route);
    }
    entered(route.through, member(scope, &route.shape, name))
}

/// The way on through so many subscripts.
fn element<'a>(scope: &Scope<'a>, route: &Route<'a>, count: usize) -> Route<'a>
    ensures { result ≡ element_route route.now.through count
        (shape_elements (scope_at scope.now) route.now.shape) }
{
    match elements(scope, &route.shape) {
        Some(elements) => {
            if elements.subscripts.len() != count {
                return lost(route.through);
            }
            Route {
                shape: plain(elements.element),
                through: route.through,
            }
        }
        None => lost(route.through),
    }
}

/// The way on through a part.
pub fn select<'a>(scope: &Scope<'a>, route: &Route<'a>, part: &Part) -> Route<'a>
    ensures { result ≡ select (scope_at scope.now)
        route.now (known_part (scope_at scope.now) part.now) }
{
    match part {
        Part::Field(name) => field(scope, route, name),
        Part::Subscripts(_, subscripts) => element(scope, route, subscripts.len()),
    }
}

/// The way on through some parts.
fn select_all<'a>(scope: &Scope<'a>, route: Route<'a>, parts: &[Part]) -> Route<'a>
    ensures { result ≡ select_all (scope_at scope.now)
        route.entry (known_parts (scope_at scope.now) parts.now) }
{
    let mut route = route;
    'parts: for part in parts {
        route = select(scope, &route, part);
    }
    route
}

/// Where the way through a variable begins.
#[derive(Drop)]
pub struct Start<'a> {
    /// What the name is.
    pub route: Route<'a>,
    /// The name that isn't there.
    pub unknown: Option<Position>,
    /// How many parts are taken with the name.
    pub taken: usize,
}

/// A flag or the time of a step, of this type.
fn step_value<'a>(elem: Elem) -> Start<'a>
    ensures { result ≡ variables.start (variables.route (plain (Base.Elementary elem)) true)
        None 1 }
{
    Start {
        route: Route {
            shape: plain(Base::Elementary(elem)),
            through: true,
        },
        unknown: None,
        taken: 1,
    }
}

/// A name that isn't there.
fn unknown<'a>(position: Position, taken: usize) -> Start<'a>
    ensures { result ≡ variables.start (lost false) (Some position) taken }
{
    Start {
        route: lost(false),
        unknown: Some(position),
        taken,
    }
}

/// Where the way begins at the name of a step, which has a flag X and a time T (2.6.2).
fn step_start<'a>(variable: &Variable) -> Start<'a>
    ensures start { (names : Names)
        → result ≡ variables.step_start variable.now.name (known_parts names variable.now.parts) }
    ensures taken { result.taken ≤ length variable.now.parts }
{
    let Some(Part::Field(name)) = variable.parts.as_slice().first() else {
        return unknown(variable.name.position, 0);
    };
    let spelling = name.spelling.as_slice();
    if is_same_name(b"X", spelling) {
        step_value(Elem::Bool)
    } else if is_same_name(b"T", spelling) {
        step_value(Elem::Time)
    } else {
        unknown(name.position, 1)
    }
}

/// Where the way through a variable begins.
pub fn start_of<'a>(scope: &Scope<'a>, variable: &Variable) -> Start<'a>
    ensures start { result ≡ start_at (scope_at scope.now) variable.now }
    ensures taken { result.taken ≤ length variable.now.parts }
{
    let name = &variable.name;
    match scope.variable(name.spelling.as_slice()) {
        Some(symbol) => Start {
            route: Route {
                shape: symbol.shape,
                through: false,
            },
            unknown: None,
            taken: 0,
        },
        None => {
            if scope.is_step(name.spelling.as_slice()) {
                step_start(variable)
            } else {
                unknown(name.position, 0)
            }
        }
    }
}

/// What a variable is, with its parts.
pub fn reach<'a>(scope: &Scope<'a>, variable: &Variable) -> Route<'a>
    ensures { result ≡ (known_variable (scope_at scope.now) variable.now).reached }
{
    let Start { route, taken, .. } = start_of(scope, variable);
    select_all(scope, route, &variable.parts.as_slice()[taken..])
}
