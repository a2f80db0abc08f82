//! The functions of a text, by the numbers of their units and by their names.
ghost use Rattle.std.specs.Prelude.{◌≡◌, ◌<◌, IfOk, List as Items, None, Some, length};
ghost use Rattle.std.specs.List.{slice_get};
ghost use Rattle.std.specs.Option.{option_copied};
ghost use Rattle.st_references.specs.Tables.{AreInitials};
ghost use Rattle.st_meaning.specs.Units.{function_at, functions_in};
ghost use Rattle.st_places.specs.Callables.{AreCallable, AreElementary, AreFunctions, IsCallable, callable_function, unit_spellings};
ghost use Rattle.st_places.specs.Functions.{optional_starts};
ghost use Rattle.st_places.specs.Parts.{optional_small_function};
ghost use Rattle.st_types.specs.Inside.{declared_by, declares_at};
ghost use Rattle.st_types.specs.Names.{Named, unit_at, units_of};
ghost use Rattle.st_types.specs.Names as names;

use crate::function::{Function, Variables};
use st_meaning::Start;
use st_references::Initials;
use st_scopes::Tables;
use st_tree::List;
use st_tree::tree::Function as Section;
use st_types::{NameTable, UnitKind};
use std::alloc::{AllocError, Global};

/// The most variables of a function that has code, its result among them.
const MAX_VARIABLES: usize = 999_999;

/// A unit as what can be called.
#[derive(Drop)]
pub(crate) struct Callable<'a> {
    /// How it is called, where it is a function.
    pub function: Option<Function<'a>>,
    /// How the variables of a function begin, its result first.
    pub starts: List<Start>,
}

/// All units of a text as what can be called.
#[derive(Drop)]
pub(crate) struct Functions<'a> {
    /// The names of all units.
    pub names: NameTable<'a>,
    pub units: Vec<Callable<'a>>,
}

impl<'a> Functions<'a> {
    /// Those of a text.
    pub fn of(
        alloc: Global,
        tables: &Tables<'a>,
        initials: &Initials<'_>,
    ) -> Result<Functions<'a>, AllocError>
        requires { AreInitials (units_of tables.now) initials.now }
        ensures { IfOk result (λ all. AreFunctions (units_of tables.now) all) }
    {
        let names = names_of(alloc, tables)?;
        let units = all_callables(alloc, tables, initials)?;
        Ok(Functions { names, units })
    }

    /// The function that the unit of this number is.
    pub fn at(&self, number: usize) -> Option<&Function<'a>>
        ensures { (text : Items Named) → AreFunctions text self.now
            → option_copied result ≡ function_at text number }
    {
        function_in(&self.units, number)
    }

    /// The function of this name.
    pub fn named(&self, name: &[u8]) -> Option<&Function<'a>>
        ensures { (text : Items Named) → AreFunctions text self.now
            → option_copied result ≡ functions_in text name.now }
    {
        self.at(self.names.find(name)?)
    }

    /// How the variables of the function begin that the unit of this number is.
    pub fn starts(&self, number: usize) -> &[Start]
        ensures { (text : Items Named) → AreFunctions text self.now → AreElementary text
            → result.now ≡ optional_starts text (unit_at text number) }
    {
        match callable_at(&self.units, number) {
            Some(callable) => callable.starts.as_slice(),
            None => &[],
        }
    }

    /// Whether the unit of this number is a function that has at most 999,999 variables.
    pub fn is_small(&self, number: usize) -> bool
        ensures { (text : Items Named) → AreFunctions text self.now → AreElementary text
            → result ≡ optional_small_function text (unit_at text number) }
    {
        let count = self.starts(number).len();
        0 < count && count <= MAX_VARIABLES
    }
}

/// The names of all units.
fn names_of<'a>(alloc: Global, tables: &Tables<'a>) -> Result<NameTable<'a>, AllocError>
    ensures { IfOk result (λ names. names ≡ unit_spellings (units_of tables.now)) }
{
    let mut names = NameTable::new(alloc);
    for unit in tables.units() {
        names.push(unit.name.spelling.as_slice())?;
    }
    Ok(names)
}

/// All units as what can be called.
fn all_callables<'a>(
    alloc: Global,
    tables: &Tables<'a>,
    initials: &Initials<'_>,
) -> Result<Vec<Callable<'a>>, AllocError>
    requires { AreInitials (units_of tables.now) initials.now }
    ensures len { IfOk result (λ units. length units.items ≡ length (units_of tables.now)) }
    ensures each { IfOk result (λ units. AreCallable (units_of tables.now) units.items) }
{
    let mut units = Vec::with_capacity(alloc, tables.len())?;
    'units: for number in 0..tables.len() {
        let kind = tables.unit(number).kind;
        units.push(callable_of(alloc, tables, initials, number, kind)?)?;
    }
    Ok(units)
}

/// The unit of this number, which is of this kind.
fn callable_of<'a>(
    alloc: Global,
    tables: &Tables<'a>,
    initials: &Initials<'_>,
    number: usize,
    kind: UnitKind<'a>,
) -> Result<Callable<'a>, AllocError>
    requires initials { AreInitials (units_of tables.now) initials.now }
    requires number { number < length (units_of tables.now) }
    requires kind { declares_at (units_of tables.now) number ≡ Some (declared_by kind) }
    ensures { IfOk result (λ callable. IsCallable (units_of tables.now) number callable) }
{
    match kind {
        UnitKind::Function(function) => function_of(alloc, tables, initials, number, function),
        UnitKind::Type(_) | UnitKind::Block(_) | UnitKind::Program(_) => Ok(Callable {
            function: None,
            starts: List::new(alloc),
        }),
    }
}

/// The unit of this number, which is this function.
fn function_of<'a>(
    alloc: Global,
    tables: &Tables<'a>,
    initials: &Initials<'_>,
    number: usize,
    function: &Section,
) -> Result<Callable<'a>, AllocError>
    requires initials { AreInitials (units_of tables.now) initials.now }
    requires number { number < length (units_of tables.now) }
    requires kind { declares_at (units_of tables.now) number ≡ Some (names.function function.now) }
    ensures { IfOk result (λ callable. IsCallable (units_of tables.now) number callable) }
{
    let mut all = Variables::new(alloc, function.result)?;
    'names: for declared in tables.declared(number) {
        all.add(tables, initials, declared)?;
    }
    Ok(Callable {
        function: Some(Function {
            number,
            result: function.result,
            names: all.names,
            initials: all.initials,
        }),
        starts: all.starts,
    })
}

/// The unit of this number.
fn callable_at<'t, 'a>(units: &'t [Callable<'a>], number: usize) -> Option<&'t Callable<'a>>
    ensures { option_copied result ≡ slice_get units.now number }
{
    units.get(number)
}

/// The function that the unit of this number is.
fn function_in<'t, 'a>(units: &'t [Callable<'a>], number: usize) -> Option<&'t Function<'a>>
    ensures { option_copied result ≡ callable_function (slice_get units.now number) }
{
    callable_at(units, number)?.function.as_ref()
}
