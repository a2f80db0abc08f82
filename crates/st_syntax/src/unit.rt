//! Units: types, functions, function blocks and programs (2.5).
ghost use Rattle.std.specs.Prelude.{◌≡◌};
ghost use Rattle.st_parser.specs.Grammar.Tokens.{kind};
ghost use Rattle.st_parser.specs.Reader.Parsers.{MayTake, Takes};
ghost use Rattle.st_syntax.specs.Reader.Declarations.{in_brackets};
ghost use Rattle.st_syntax.specs.Reader.Units as spec;

use crate::chart::{begins_element, chart};
use crate::declaration::{begins_declaration, member, typed, variables};
use crate::statement::statements;
use st_parser::{Cursor, MAX_LEVELS, ReadFault, at_least_one, many};
use st_tokens::{Keyword, Kind, Symbol};
use st_tree::List;
use st_tree::tree::{Body, Declaration, DeclaredType, Function, Pou, TypeDeclaration, Unit};
use st_values::Elem;
use std::alloc::Global;

/// Whether the first token begins a unit.
fn begins_unit(ts: &Cursor<'_>) -> bool
    ensures { result ≡ spec.begins_unit (kind ts.now) }
{
    match ts.peek() {
        Some(Kind::Keyword(Keyword::Type | Keyword::Function)) => true,
        Some(Kind::Keyword(Keyword::FunctionBlock | Keyword::Program)) => true,
        _ => false,
    }
}

/// `member { member }`
fn members(alloc: Global, ts: &mut Cursor<'_>) -> Result<List<Declaration>, ReadFault>
    ensures { Takes (spec.members in_brackets ts.old) result ts.old ts.new }
{
    at_least_one(alloc, ts, begins_declaration, member)
}

/// `STRUCT member { member } END_STRUCT ';'`
#[tactic(auto, unfolding(crate::specs::Reader::Units::structure))]
fn structure(alloc: Global, ts: &mut Cursor<'_>) -> Result<DeclaredType, ReadFault>
    ensures { Takes (spec.structure in_brackets ts.old) result ts.old ts.new }
{
    let position = ts.bump();
    let members = members(alloc, ts)?;
    ts.expect_keyword(Keyword::EndStruct)?;
    ts.expect_symbol(Symbol::Semicolon)?;
    Ok(DeclaredType::Structure(position, members))
}

/// `specification [ ':=' initial ] ';' | STRUCT member { member } END_STRUCT ';'`
#[tactic(auto, unfolding(crate::specs::Reader::Units::declared, crate::specs::Reader::Units::derived))]
fn declared(alloc: Global, ts: &mut Cursor<'_>) -> Result<DeclaredType, ReadFault>
    ensures { Takes (spec.declared in_brackets ts.old) result ts.old ts.new }
{
    if ts.at_keyword(Keyword::Struct) {
        return structure(alloc, ts);
    }
    let (specification, initial) = typed(alloc, ts)?;
    Ok(DeclaredType::Derived(specification, initial))
}

/// `word ':' declared`
#[tactic(auto, unfolding(crate::specs::Reader::Units::type_declaration))]
fn type_declaration(alloc: Global, ts: &mut Cursor<'_>) -> Result<TypeDeclaration, ReadFault>
    ensures { Takes (spec.type_declaration in_brackets ts.old) result ts.old ts.new }
{
    let name = ts.identifier_before(alloc, Symbol::Colon)?;
    let declared = declared(alloc, ts)?;
    Ok(TypeDeclaration { name, declared })
}

/// `{ type declaration }`
fn type_declarations(alloc: Global, ts: &mut Cursor<'_>) -> Result<List<TypeDeclaration>, ReadFault>
    ensures { MayTake (spec.type_declarations in_brackets ts.old) result ts.old ts.new }
{
    many(alloc, ts, begins_declaration, type_declaration)
}

/// `TYPE { type declaration } END_TYPE`
#[tactic(auto, unfolding(crate::specs::Reader::Units::types))]
fn types(alloc: Global, ts: &mut Cursor<'_>) -> Result<Unit, ReadFault>
    ensures { Takes (spec.types in_brackets ts.old) result ts.old ts.new }
{
    let position = ts.bump();
    let declarations = type_declarations(alloc, ts)?;
    ts.expect_keyword(Keyword::EndType)?;
    Ok(Unit::Types(position, declarations))
}

/// `elementary type`
#[tactic(auto, unfolding(crate::specs::Reader::Units::elementary))]
fn elementary(ts: &mut Cursor<'_>) -> Result<Elem, ReadFault>
    ensures { Takes (spec.elementary ts.old) result ts.old ts.new }
{
    match ts.peek() {
        Some(Kind::Type(elem)) => {
            let elem = *elem;
            ts.bump();
            Ok(elem)
        }
        _ => Err(ts.unexpected()),
    }
}

/// `FUNCTION word ':' elementary type { variables } { statement } END_FUNCTION`
#[tactic(auto, unfolding(crate::specs::Reader::Units::function))]
fn function(alloc: Global, ts: &mut Cursor<'_>) -> Result<Unit, ReadFault>
    ensures { Takes (spec.function in_brackets ts.old) result ts.old ts.new }
{
    let position = ts.bump();
    let name = ts.identifier_before(alloc, Symbol::Colon)?;
    let elem = elementary(ts)?;
    let variables = variables(alloc, ts)?;
    let statements = statements(alloc, ts, MAX_LEVELS)?;
    ts.expect_keyword(Keyword::EndFunction)?;
    Ok(Unit::Function(Function {
        position,
        name,
        result: elem,
        variables,
        statements,
    }))
}

/// `{ statement } | chart`
#[tactic(auto, unfolding(crate::specs::Reader::Units::body, crate::specs::Reader::Units::chart_body, crate::specs::Reader::Units::plain_body))]
fn body(alloc: Global, ts: &mut Cursor<'_>) -> Result<Body, ReadFault>
    ensures { MayTake (spec.body in_brackets ts.old) result ts.old ts.new }
{
    if begins_element(ts) {
        return Ok(Body::Chart(chart(alloc, ts, MAX_LEVELS)?));
    }
    Ok(Body::Statements(statements(alloc, ts, MAX_LEVELS)?))
}

/// `word { variables } body`, between the first word of a function block or a program and `last`.
#[tactic(auto, unfolding(crate::specs::Reader::Units::pou))]
fn pou(alloc: Global, ts: &mut Cursor<'_>, last: Keyword) -> Result<Pou, ReadFault>
    ensures { Takes (spec.pou in_brackets last ts.old) result ts.old ts.new }
{
    let position = ts.bump();
    let name = ts.identifier(alloc)?;
    let variables = variables(alloc, ts)?;
    let body = body(alloc, ts)?;
    ts.expect_keyword(last)?;
    Ok(Pou {
        position,
        name,
        variables,
        body,
    })
}

/// A unit, by its first token.
#[tactic(auto, unfolding(crate::specs::Reader::Units::unit_of, crate::specs::Reader::Units::function_block, crate::specs::Reader::Units::program))]
fn unit(alloc: Global, ts: &mut Cursor<'_>) -> Result<Unit, ReadFault>
    ensures { Takes (spec.unit_of in_brackets ts.old) result ts.old ts.new }
{
    match ts.peek() {
        Some(Kind::Keyword(Keyword::Type)) => types(alloc, ts),
        Some(Kind::Keyword(Keyword::Function)) => function(alloc, ts),
        Some(Kind::Keyword(Keyword::FunctionBlock)) => {
            Ok(Unit::FunctionBlock(pou(alloc, ts, Keyword::EndFunctionBlock)?))
        }
        Some(Kind::Keyword(Keyword::Program)) => {
            Ok(Unit::Program(pou(alloc, ts, Keyword::EndProgram)?))
        }
        _ => Err(ts.unexpected()),
    }
}

/// `{ unit }`
pub fn units(alloc: Global, ts: &mut Cursor<'_>) -> Result<List<Unit>, ReadFault>
    ensures { MayTake (spec.units in_brackets ts.old) result ts.old ts.new }
{
    many(alloc, ts, begins_unit, unit)
}
