//! Declarations of variables and types (2.3.3, 2.4.3).
ghost use Rattle.std.specs.Prelude.{◌≡◌, ◌≤◌, length, Ok};
ghost use Rattle.st_parser.specs.Grammar.Tokens.{kind, next};
ghost use Rattle.st_parser.specs.Reader.Parsers as parser;
ghost use Rattle.st_parser.specs.Reader.Parsers.{MayTake, Takes, is_word};
ghost use Rattle.st_syntax.specs.Reader.Declarations as spec;
ghost use Rattle.st_syntax.specs.Reader.Declarations.{in_brackets};

use st_parser::constant::{constant, signed_integer};
use st_parser::{Cursor, MAX_LEVELS, ReadFault, boxed, listed, many, single, words};
use st_tokens::{Keyword, Kind, Symbol};
use st_tree::tree::{
    ArrayElement, Constant, Declaration, Initial, Position, Specification, Subrange, TypeName,
    VarBlock, VarKind,
};
use st_tree::{Boxed, List};
use std::alloc::Global;

/// Whether the first token is RETAIN or NON_RETAIN.
fn is_retention(ts: &Cursor<'_>) -> bool
    ensures { result ≡ spec.is_retention (kind ts.now) }
{
    match ts.peek() {
        Some(Kind::Keyword(Keyword::Retain | Keyword::NonRetain)) => true,
        _ => false,
    }
}

/// Whether the first token begins a block of declarations.
fn begins_block(ts: &Cursor<'_>) -> bool
    ensures { result ≡ spec.begins_block (kind ts.now) }
{
    match ts.peek() {
        Some(Kind::Keyword(Keyword::Var | Keyword::VarInput | Keyword::VarOutput)) => true,
        _ => false,
    }
}

/// Whether the first token, a word, begins what is declared by a name.
pub fn begins_declaration(ts: &Cursor<'_>) -> bool
    ensures { result ≡ is_word (kind ts.now) }
{
    ts.at_word()
}

/// Whether a number and `(` come first.
fn is_repeated(ts: &Cursor<'_>) -> bool
    ensures { result ≡ spec.is_repeated (kind ts.now) (kind (next ts.now)) }
{
    match ts.peek() {
        Some(Kind::Number(_)) => ts.before_symbol(Symbol::Open),
        _ => false,
    }
}

/// `elementary type | word`
#[tactic(auto, unfolding(crate::specs::Reader::Declarations::type_name))]
fn type_name(alloc: Global, ts: &mut Cursor<'_>) -> Result<TypeName, ReadFault>
    ensures { Takes (spec.type_name ts.old) result ts.old ts.new }
{
    match ts.peek() {
        Some(Kind::Type(elem)) => {
            let elem = *elem;
            Ok(TypeName::Elementary(ts.bump(), elem))
        }
        _ => Ok(TypeName::Declared(ts.identifier(alloc)?)),
    }
}

/// `integer '..' integer`
#[tactic(auto, unfolding(crate::specs::Reader::Declarations::subrange))]
fn subrange(_alloc: Global, ts: &mut Cursor<'_>) -> Result<Subrange, ReadFault>
    ensures { Takes (spec.subrange ts.old) result ts.old ts.new }
{
    let lower = signed_integer(ts)?;
    ts.expect_symbol(Symbol::Range)?;
    let upper = signed_integer(ts)?;
    Ok(Subrange { lower, upper })
}

/// `subrange { ',' subrange }`
fn subranges(alloc: Global, ts: &mut Cursor<'_>) -> Result<List<Subrange>, ReadFault>
    ensures { Takes (parser.listed spec.subrange ts.old) result ts.old ts.new }
{
    listed(alloc, ts, subrange)
}

/// `ARRAY '[' subrange { ',' subrange } ']' OF type name`
#[tactic(auto, unfolding(crate::specs::Reader::Declarations::array))]
fn array(alloc: Global, ts: &mut Cursor<'_>) -> Result<Specification, ReadFault>
    ensures { Takes (spec.array in_brackets ts.old) result ts.old ts.new }
{
    let position = ts.bump();
    ts.open_level(Symbol::OpenBracket, MAX_LEVELS)?;
    let subscripts = subranges(alloc, ts)?;
    ts.expect_symbol(Symbol::CloseBracket)?;
    ts.expect_keyword(Keyword::Of)?;
    let element = boxed(alloc, type_name(alloc, ts))?;
    Ok(Specification::Array(position, subscripts, element))
}

/// `type name | ARRAY '[' subrange { ',' subrange } ']' OF type name`
#[tactic(auto, unfolding(crate::specs::Reader::Declarations::specification, crate::specs::Reader::Declarations::simple))]
fn specification(alloc: Global, ts: &mut Cursor<'_>) -> Result<Specification, ReadFault>
    ensures { Takes (spec.specification in_brackets ts.old) result ts.old ts.new }
{
    if ts.at_keyword(Keyword::Array) {
        return array(alloc, ts);
    }
    Ok(Specification::Simple(type_name(alloc, ts)?))
}

/// `[ literal ]`
#[tactic(auto, unfolding(crate::specs::Reader::Declarations::repeated_value))]
fn repeated_value(alloc: Global, ts: &mut Cursor<'_>) -> Result<Option<Boxed<Constant>>, ReadFault>
    ensures { MayTake (spec.repeated_value ts.old) result ts.old ts.new }
{
    if ts.at_symbol(Symbol::Close) {
        return Ok(None);
    }
    Ok(Some(boxed(alloc, constant(ts))?))
}

/// `number '(' [ literal ] ')'`
#[tactic(auto, unfolding(crate::specs::Reader::Declarations::repeated))]
fn repeated(alloc: Global, ts: &mut Cursor<'_>) -> Result<ArrayElement, ReadFault>
    ensures { Takes (spec.repeated in_brackets ts.old) result ts.old ts.new }
{
    let position = ts.position();
    let count = ts.number()?;
    ts.open_level(Symbol::Open, MAX_LEVELS - 1)?;
    let value = repeated_value(alloc, ts)?;
    ts.expect_symbol(Symbol::Close)?;
    Ok(ArrayElement::Repeated(position, count, value))
}

/// `literal | number '(' [ literal ] ')'`
#[tactic(auto, unfolding(crate::specs::Reader::Declarations::element, crate::specs::Reader::Declarations::plain_element))]
fn element(alloc: Global, ts: &mut Cursor<'_>) -> Result<ArrayElement, ReadFault>
    ensures { Takes (spec.element in_brackets ts.old) result ts.old ts.new }
{
    if is_repeated(ts) {
        return repeated(alloc, ts);
    }
    Ok(ArrayElement::Single(constant(ts)?))
}

/// `element { ',' element }`
fn elements(alloc: Global, ts: &mut Cursor<'_>) -> Result<List<ArrayElement>, ReadFault>
    ensures { Takes (parser.listed (spec.element in_brackets) ts.old) result ts.old ts.new }
{
    listed(alloc, ts, element)
}

/// `'[' element { ',' element } ']'`
#[tactic(auto, unfolding(crate::specs::Reader::Declarations::initial_array))]
fn initial_array(alloc: Global, ts: &mut Cursor<'_>) -> Result<Initial, ReadFault>
    ensures { Takes (spec.initial_array in_brackets ts.old) result ts.old ts.new }
{
    let position = ts.open_level(Symbol::OpenBracket, MAX_LEVELS)?;
    let elements = elements(alloc, ts)?;
    ts.expect_symbol(Symbol::CloseBracket)?;
    Ok(Initial::Array(position, elements))
}

/// `literal | '[' element { ',' element } ']'`
#[tactic(auto, unfolding(crate::specs::Reader::Declarations::initial, crate::specs::Reader::Declarations::initial_constant))]
fn initial(alloc: Global, ts: &mut Cursor<'_>) -> Result<Initial, ReadFault>
    ensures { Takes (spec.initial in_brackets ts.old) result ts.old ts.new }
{
    if ts.at_symbol(Symbol::OpenBracket) {
        return initial_array(alloc, ts);
    }
    Ok(Initial::Constant(constant(ts)?))
}

/// `[ ':=' initial ] ';'`
#[tactic(auto, unfolding(crate::specs::Reader::Declarations::initialized))]
fn initialized(alloc: Global, ts: &mut Cursor<'_>) -> Result<Option<Boxed<Initial>>, ReadFault>
    ensures { Takes (spec.initialized in_brackets ts.old) result ts.old ts.new }
{
    if ts.at_symbol(Symbol::Assign) {
        ts.bump();
        let value = boxed(alloc, initial(alloc, ts))?;
        ts.expect_symbol(Symbol::Semicolon)?;
        return Ok(Some(value));
    }
    ts.expect_symbol(Symbol::Semicolon)?;
    Ok(None)
}

/// `specification [ ':=' initial ] ';'`
#[tactic(auto, unfolding(crate::specs::Reader::Declarations::typed))]
pub fn typed(
    alloc: Global,
    ts: &mut Cursor<'_>,
) -> Result<(Specification, Option<Boxed<Initial>>), ReadFault>
    ensures { Takes (spec.typed in_brackets ts.old) result ts.old ts.new }
{
    let specification = specification(alloc, ts)?;
    let initial = initialized(alloc, ts)?;
    Ok((specification, initial))
}

/// `word { ',' word } ':' specification [ ':=' initial ] ';'`
#[tactic(auto, unfolding(crate::specs::Reader::Declarations::declaration))]
fn declaration(alloc: Global, ts: &mut Cursor<'_>) -> Result<Declaration, ReadFault>
    ensures { Takes (spec.declaration in_brackets ts.old) result ts.old ts.new }
{
    let names = words(alloc, ts)?;
    ts.expect_symbol(Symbol::Colon)?;
    let (specification, initial) = typed(alloc, ts)?;
    Ok(Declaration {
        names,
        specification,
        initial,
    })
}

/// `word ':' specification [ ':=' initial ] ';'`
#[tactic(auto, unfolding(crate::specs::Reader::Declarations::member))]
pub fn member(alloc: Global, ts: &mut Cursor<'_>) -> Result<Declaration, ReadFault>
    ensures { Takes (spec.member in_brackets ts.old) result ts.old ts.new }
{
    let names = single(alloc, ts.identifier_before(alloc, Symbol::Colon))?;
    let (specification, initial) = typed(alloc, ts)?;
    Ok(Declaration {
        names,
        specification,
        initial,
    })
}

/// `[ CONSTANT | RETAIN | NON_RETAIN ]`
#[tactic(auto, unfolding(crate::specs::Reader::Declarations::internal, crate::specs::Reader::Declarations::retention))]
fn internal(ts: &mut Cursor<'_>) -> VarKind
    ensures read { spec.internal ts.old ≡ Ok (result, ts.new) }
    ensures shorter { length ts.new ≤ length ts.old }
{
    if ts.at_keyword(Keyword::Constant) {
        ts.bump();
        return VarKind::Constant;
    }
    retention(ts, VarKind::Internal)
}

/// `[ RETAIN | NON_RETAIN ]`, which has no effect.
#[tactic(auto, unfolding(crate::specs::Reader::Declarations::retention))]
fn retention(ts: &mut Cursor<'_>, var_kind: VarKind) -> VarKind
    ensures read { spec.retention var_kind ts.old ≡ Ok (result, ts.new) }
    ensures shorter { length ts.new ≤ length ts.old }
{
    if is_retention(ts) {
        ts.bump();
    }
    var_kind
}

/// `{ declaration }`
fn declarations(alloc: Global, ts: &mut Cursor<'_>) -> Result<List<Declaration>, ReadFault>
    ensures { MayTake (spec.declarations in_brackets ts.old) result ts.old ts.new }
{
    many(alloc, ts, begins_declaration, declaration)
}

/// `{ declaration } END_VAR`
fn rest_of_block(
    alloc: Global,
    ts: &mut Cursor<'_>,
    position: Position,
    var_kind: VarKind,
) -> Result<VarBlock, ReadFault>
    ensures { Takes (spec.block_rest in_brackets position var_kind ts.old) result ts.old ts.new }
{
    let declarations = declarations(alloc, ts)?;
    ts.expect_keyword(Keyword::EndVar)?;
    Ok(VarBlock {
        position,
        kind: var_kind,
        declarations,
    })
}

/// `(VAR [ CONSTANT | RETAIN | NON_RETAIN ] | (VAR_INPUT | VAR_OUTPUT) [ RETAIN | NON_RETAIN ]) { declaration } END_VAR`
#[tactic(auto, unfolding(crate::specs::Reader::Declarations::var_block))]
fn var_block(alloc: Global, ts: &mut Cursor<'_>) -> Result<VarBlock, ReadFault>
    ensures { Takes (spec.var_block in_brackets ts.old) result ts.old ts.new }
{
    match ts.peek() {
        Some(Kind::Keyword(Keyword::Var)) => {
            let position = ts.bump();
            let var_kind = internal(ts);
            rest_of_block(alloc, ts, position, var_kind)
        }
        Some(Kind::Keyword(Keyword::VarInput)) => {
            let position = ts.bump();
            let var_kind = retention(ts, VarKind::Input);
            rest_of_block(alloc, ts, position, var_kind)
        }
        Some(Kind::Keyword(Keyword::VarOutput)) => {
            let position = ts.bump();
            let var_kind = retention(ts, VarKind::Output);
            rest_of_block(alloc, ts, position, var_kind)
        }
        _ => Err(ts.unexpected()),
    }
}

/// `{ variables }`
pub fn variables(alloc: Global, ts: &mut Cursor<'_>) -> Result<List<VarBlock>, ReadFault>
    ensures { MayTake (spec.variables in_brackets ts.old) result ts.old ts.new }
{
    many(alloc, ts, begins_block, var_block)
}
