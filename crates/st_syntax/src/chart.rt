//! Elements of sequential function charts (IEC 61131-3:2003, 2.6).
ghost use Rattle.std.specs.Prelude.{◌≡◌, ◌↔◌, ◌<◌, ℕ, [], List as Items, Ok};
ghost use Rattle.st_parser.specs.Grammar.Levels.{IsWithin};
ghost use Rattle.st_parser.specs.Grammar.Tokens.{kind, Tok};
ghost use Rattle.st_parser.specs.Names as names;
ghost use Rattle.st_parser.specs.Reader.Parsers.{MayTake, Takes};
ghost use Rattle.st_syntax.specs.Grammar.Charts.{IsChart, is_priority};
ghost use Rattle.st_syntax.specs.Reader.Charts as spec;

use crate::statement::statements;
use st_parser::expression::expression;
use st_parser::{Cursor, ReadFault, at_least_one, many, single, words};
use st_tokens::{Keyword, Kind, Symbol};
use st_tree::tree::{
    Action, ActionQualifier, Association, ChartElement, Duration, Expression, Identifier, Position,
    Step, Transition,
};
use st_tree::{Boxed, List};
use std::alloc::Global;

/// Whether the first token begins an element of a chart.
pub fn begins_element(ts: &Cursor<'_>) -> bool
    ensures { result ≡ spec.begins_element (kind ts.now) }
{
    match ts.peek() {
        Some(Kind::Keyword(Keyword::InitialStep | Keyword::Step)) => true,
        Some(Kind::Keyword(Keyword::Transition | Keyword::Action)) => true,
        _ => false,
    }
}

/// `duration`
#[tactic(auto, unfolding(crate::specs::Reader::Charts::duration))]
fn duration(ts: &mut Cursor<'_>) -> Result<Duration, ReadFault>
    ensures { Takes (spec.duration ts.old) result ts.old ts.new }
{
    match ts.peek() {
        Some(Kind::Duration(milliseconds)) => {
            let milliseconds = *milliseconds;
            let position = ts.bump();
            Ok(Duration {
                position,
                milliseconds,
            })
        }
        _ => Err(ts.unexpected()),
    }
}

/// `[ ',' duration ]`
#[tactic(auto, unfolding(crate::specs::Reader::Charts::time))]
fn time(ts: &mut Cursor<'_>) -> Result<Option<Duration>, ReadFault>
    ensures { MayTake (spec.time ts.old) result ts.old ts.new }
{
    if ts.at_symbol(Symbol::Comma) {
        ts.bump();
        return Ok(Some(duration(ts)?));
    }
    Ok(None)
}

/// `word [ ',' duration ]`
#[tactic(auto, unfolding(crate::specs::Reader::Charts::qualifier))]
fn qualifier(alloc: Global, ts: &mut Cursor<'_>) -> Result<ActionQualifier, ReadFault>
    ensures { Takes (spec.qualifier ts.old) result ts.old ts.new }
{
    let name = ts.identifier(alloc)?;
    let duration = time(ts)?;
    Ok(ActionQualifier { name, duration })
}

/// `[ qualifier ]`
#[tactic(auto, unfolding(crate::specs::Reader::Charts::qualified))]
fn qualified(alloc: Global, ts: &mut Cursor<'_>) -> Result<Option<ActionQualifier>, ReadFault>
    ensures { MayTake (spec.qualified ts.old) result ts.old ts.new }
{
    if ts.at_symbol(Symbol::Close) {
        return Ok(None);
    }
    Ok(Some(qualifier(alloc, ts)?))
}

/// `'(' [ qualifier ] ')' ';'`
#[tactic(auto, unfolding(crate::specs::Reader::Charts::bracketed))]
fn bracketed(
    alloc: Global,
    ts: &mut Cursor<'_>,
    depth_left: u8,
) -> Result<Option<ActionQualifier>, ReadFault>
    ensures { Takes (spec.bracketed depth_left ts.old) result ts.old ts.new }
{
    ts.open_level(Symbol::Open, depth_left)?;
    let qualifier = qualified(alloc, ts)?;
    ts.expect_symbol(Symbol::Close)?;
    ts.expect_symbol(Symbol::Semicolon)?;
    Ok(qualifier)
}

/// `word '(' [ qualifier ] ')' ';'`
#[tactic(auto, unfolding(crate::specs::Reader::Charts::association))]
fn association(alloc: Global, ts: &mut Cursor<'_>, depth_left: u8) -> Result<Association, ReadFault>
    ensures { Takes (spec.association depth_left ts.old) result ts.old ts.new }
{
    let name = ts.identifier(alloc)?;
    let qualifier = bracketed(alloc, ts, depth_left)?;
    Ok(Association { name, qualifier })
}

/// `{ association }`
fn associations(
    alloc: Global,
    ts: &mut Cursor<'_>,
    depth_left: u8,
) -> Result<List<Association>, ReadFault>
    ensures { MayTake (spec.associations depth_left ts.old) result ts.old ts.new }
{
    many(
        alloc,
        ts,
        |ts: &Cursor<'_>| ts.at_word(),
        |alloc: Global, ts: &mut Cursor<'_>| association(alloc, ts, depth_left),
    )
}

/// `(INITIAL_STEP | STEP) word ':' { association } END_STEP`
#[tactic(auto, unfolding(crate::specs::Reader::Charts::step))]
fn step(
    alloc: Global,
    ts: &mut Cursor<'_>,
    depth_left: u8,
    is_initial: bool,
) -> Result<ChartElement, ReadFault>
    ensures { Takes (spec.step depth_left is_initial ts.old) result ts.old ts.new }
{
    let position = ts.bump();
    let name = ts.identifier_before(alloc, Symbol::Colon)?;
    let associations = associations(alloc, ts, depth_left)?;
    ts.expect_keyword(Keyword::EndStep)?;
    Ok(ChartElement::Step(Step {
        position,
        is_initial,
        name,
        associations,
    }))
}

/// `[ word ]`
#[tactic(auto, unfolding(crate::specs::Reader::Charts::optional_name))]
fn optional_name(alloc: Global, ts: &mut Cursor<'_>) -> Result<Option<Identifier>, ReadFault>
    ensures { MayTake (spec.optional_name ts.old) result ts.old ts.new }
{
    if ts.at_word() {
        return Ok(Some(ts.identifier(alloc)?));
    }
    Ok(None)
}

/// Whether a word is PRIORITY, ignoring case.
fn is_priority(word: &[u8]) -> bool
    ensures { result ≡ is_priority word.now }
{
    word.eq_ignore_ascii_case(b"PRIORITY")
}

/// `PRIORITY`, which isn't reserved
#[tactic(auto, unfolding(crate::specs::Reader::Charts::priority_word))]
fn priority_word(ts: &mut Cursor<'_>) -> Result<Position, ReadFault>
    ensures { Takes (spec.priority_word ts.old) result ts.old ts.new }
{
    if let Some(Kind::Word(word)) = ts.peek() {
        if is_priority(word.bytes()) {
            return Ok(ts.bump());
        }
    }
    Err(ts.unexpected())
}

/// `[ '(' PRIORITY ':=' number ')' ]`
#[tactic(auto, unfolding(crate::specs::Reader::Charts::priority))]
fn priority(ts: &mut Cursor<'_>, depth_left: u8) -> Result<Option<u128>, ReadFault>
    ensures { MayTake (spec.priority depth_left ts.old) result ts.old ts.new }
{
    if ts.at_symbol(Symbol::Open) {
        ts.enter(depth_left)?;
        priority_word(ts)?;
        ts.expect_symbol(Symbol::Assign)?;
        let number = ts.number()?;
        ts.expect_symbol(Symbol::Close)?;
        return Ok(Some(number.get()));
    }
    Ok(None)
}

/// `word | '(' word { ',' word } ')'`
#[tactic(auto, unfolding(crate::specs::Reader::Charts::names))]
fn names(alloc: Global, ts: &mut Cursor<'_>, depth_left: u8) -> Result<List<Identifier>, ReadFault>
    ensures { MayTake (spec.names depth_left ts.old) result ts.old ts.new }
{
    if ts.at_symbol(Symbol::Open) {
        ts.enter(depth_left)?;
        let found = words(alloc, ts)?;
        ts.expect_symbol(Symbol::Close)?;
        return Ok(found);
    }
    single(alloc, ts.identifier(alloc))
}

/// `FROM names TO names`
#[tactic(auto, unfolding(crate::specs::Reader::Charts::connection))]
fn connection(
    alloc: Global,
    ts: &mut Cursor<'_>,
    depth_left: u8,
) -> Result<(List<Identifier>, List<Identifier>), ReadFault>
    ensures { Takes (spec.connection depth_left ts.old) result ts.old ts.new }
{
    ts.expect_keyword(Keyword::From)?;
    let from = names(alloc, ts, depth_left)?;
    ts.expect_keyword(Keyword::To)?;
    let to = names(alloc, ts, depth_left)?;
    Ok((from, to))
}

/// `';' END_TRANSITION`
#[tactic(auto, unfolding(crate::specs::Reader::Charts::end_of_transition))]
fn end_of_transition(ts: &mut Cursor<'_>) -> Result<Position, ReadFault>
    ensures { Takes (spec.end_of_transition ts.old) result ts.old ts.new }
{
    ts.expect_symbol(Symbol::Semicolon)?;
    ts.expect_keyword(Keyword::EndTransition)
}

/// `':=' expression ';' END_TRANSITION`
#[tactic(auto, unfolding(crate::specs::Reader::Charts::condition))]
fn condition(
    alloc: Global,
    ts: &mut Cursor<'_>,
    depth_left: u8,
) -> Result<Boxed<Expression>, ReadFault>
    ensures { Takes (spec.condition depth_left ts.old) result ts.old ts.new }
{
    ts.expect_symbol(Symbol::Assign)?;
    let condition = expression(alloc, ts, depth_left)?;
    end_of_transition(ts)?;
    Ok(condition)
}

/// `TRANSITION [ word ] [ priority ] FROM names TO names ':=' expression ';' END_TRANSITION`
#[tactic(auto, unfolding(crate::specs::Reader::Charts::transition))]
fn transition(alloc: Global, ts: &mut Cursor<'_>, depth_left: u8) -> Result<ChartElement, ReadFault>
    ensures { Takes (spec.transition depth_left ts.old) result ts.old ts.new }
{
    let position = ts.bump();
    let name = optional_name(alloc, ts)?;
    let priority = priority(ts, depth_left)?;
    let (from, to) = connection(alloc, ts, depth_left)?;
    let condition = condition(alloc, ts, depth_left)?;
    Ok(ChartElement::Transition(Transition {
        position,
        name,
        priority,
        from,
        to,
        condition: condition.into_inner(),
    }))
}

/// `ACTION word ':' statements END_ACTION`
#[tactic(auto, unfolding(crate::specs::Reader::Charts::action))]
fn action(alloc: Global, ts: &mut Cursor<'_>, depth_left: u8) -> Result<ChartElement, ReadFault>
    ensures { Takes (spec.action depth_left ts.old) result ts.old ts.new }
{
    let position = ts.bump();
    let name = ts.identifier_before(alloc, Symbol::Colon)?;
    let statements = statements(alloc, ts, depth_left)?;
    ts.expect_keyword(Keyword::EndAction)?;
    Ok(ChartElement::Action(Action {
        position,
        name,
        statements,
    }))
}

/// An element, by its first token.
#[tactic(auto, unfolding(crate::specs::Reader::Charts::element))]
fn element(alloc: Global, ts: &mut Cursor<'_>, depth_left: u8) -> Result<ChartElement, ReadFault>
    ensures { Takes (spec.element depth_left ts.old) result ts.old ts.new }
{
    match ts.peek() {
        Some(Kind::Keyword(Keyword::InitialStep)) => step(alloc, ts, depth_left, true),
        Some(Kind::Keyword(Keyword::Step)) => step(alloc, ts, depth_left, false),
        Some(Kind::Keyword(Keyword::Transition)) => transition(alloc, ts, depth_left),
        Some(Kind::Keyword(Keyword::Action)) => action(alloc, ts, depth_left),
        _ => Err(ts.unexpected()),
    }
}

/// `element { element }`, where `depth_left` more levels may be opened.
pub fn chart(
    alloc: Global,
    ts: &mut Cursor<'_>,
    depth_left: u8,
) -> Result<List<ChartElement>, ReadFault>
    ensures { Takes (spec.chart depth_left ts.old) result ts.old ts.new }
{
    at_least_one(
        alloc,
        ts,
        begins_element,
        |alloc: Global, ts: &mut Cursor<'_>| element(alloc, ts, depth_left),
    )
}

/// What is read as a chart, up to the last token, is what the grammar has, with at most so many open levels.
pub fn chart_is_its_grammar()
    ensures { (depth_left : ℕ) (ts : Items Tok) (xs : Items names.ChartElement) → 0 < depth_left
        → (spec.chart depth_left ts ≡ Ok (xs, [])) ↔ (IsChart ts xs [] × IsWithin depth_left ts) }
{}
