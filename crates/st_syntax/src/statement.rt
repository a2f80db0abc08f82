//! Statements (IEC 61131-3:2003, 3.3.2).
ghost use Rattle.std.specs.Prelude.{◌≡◌, ◌↔◌, ◌<◌, ℕ, [], List as Items, Ok};
ghost use Rattle.st_parser.specs.Grammar.Levels.{IsWithin};
ghost use Rattle.st_parser.specs.Grammar.Tokens.{kind, Tok};
ghost use Rattle.st_parser.specs.Names as names;
ghost use Rattle.st_parser.specs.Reader.Parsers as parser;
ghost use Rattle.st_parser.specs.Reader.Parsers.{MayTake, Takes};
ghost use Rattle.st_syntax.specs.Grammar.Statements.{IsStatements};
ghost use Rattle.st_syntax.specs.Reader.Statements as spec;

use st_parser::constant::constant;
use st_parser::expression::{call, expression, variable};
use st_parser::{Cursor, ReadFault, add, boxed, listed, single};
use st_tokens::{Keyword, Kind, Symbol};
use st_tree::tree::{
    CaseElement, CaseStatement, ConditionalPart, Expression, ForStatement, IfStatement, Label,
    Position, RepeatStatement, Statement, WhileStatement,
};
use st_tree::{Boxed, List};
use std::alloc::Global;

/// Whether the first token begins a label.
fn begins_label(ts: &Cursor<'_>) -> bool
    ensures { result ≡ spec.begins_label (kind ts.now) }
{
    match ts.peek() {
        Some(Kind::Number(_) | Kind::Typed(_, _) | Kind::Duration(_)) => true,
        Some(Kind::Keyword(Keyword::True | Keyword::False)) => true,
        Some(Kind::Symbol(Symbol::Plus | Symbol::Minus)) => true,
        _ => false,
    }
}

/// Whether the first token begins a statement.
fn begins_statement(ts: &Cursor<'_>) -> bool
    ensures { result ≡ spec.begins_statement (kind ts.now) }
{
    match ts.peek() {
        Some(Kind::Word(_)) => true,
        Some(Kind::Symbol(Symbol::Semicolon)) => true,
        Some(Kind::Keyword(Keyword::Return | Keyword::Exit)) => true,
        Some(Kind::Keyword(Keyword::If | Keyword::Case)) => true,
        Some(Kind::Keyword(Keyword::For | Keyword::While | Keyword::Repeat)) => true,
        _ => false,
    }
}

/// `literal [ '..' literal ]`
#[tactic(auto, unfolding(crate::specs::Reader::Statements::label))]
fn label(alloc: Global, ts: &mut Cursor<'_>) -> Result<Label, ReadFault>
    ensures { Takes (spec.label ts.old) result ts.old ts.new }
{
    let first = constant(ts)?;
    if ts.at_symbol(Symbol::Range) {
        ts.bump();
        let last = boxed(alloc, constant(ts))?;
        return Ok(Label::Range(Boxed::new(alloc, first)?, last));
    }
    Ok(Label::Value(first))
}

/// `label { ',' label }`
fn labels(alloc: Global, ts: &mut Cursor<'_>) -> Result<List<Label>, ReadFault>
    ensures { Takes (parser.listed spec.label ts.old) result ts.old ts.new }
{
    listed(alloc, ts, label)
}

/// `RETURN ';'`
#[tactic(auto, unfolding(crate::specs::Reader::Statements::return_statement))]
fn return_statement(ts: &mut Cursor<'_>) -> Result<Statement, ReadFault>
    ensures { Takes (spec.return_statement ts.old) result ts.old ts.new }
{
    let position = ts.bump();
    ts.expect_symbol(Symbol::Semicolon)?;
    Ok(Statement::Return(position))
}

/// `EXIT ';'`
#[tactic(auto, unfolding(crate::specs::Reader::Statements::exit_statement))]
fn exit_statement(ts: &mut Cursor<'_>) -> Result<Statement, ReadFault>
    ensures { Takes (spec.exit_statement ts.old) result ts.old ts.new }
{
    let position = ts.bump();
    ts.expect_symbol(Symbol::Semicolon)?;
    Ok(Statement::Exit(position))
}

/// `':=' expression ';'`
#[tactic(auto, unfolding(crate::specs::Reader::Statements::assigned))]
fn assigned(
    alloc: Global,
    ts: &mut Cursor<'_>,
    depth_left: u8,
) -> Result<Boxed<Expression>, ReadFault>
    ensures { Takes (spec.assigned depth_left ts.old) result ts.old ts.new }
{
    ts.expect_symbol(Symbol::Assign)?;
    let value = expression(alloc, ts, depth_left)?;
    ts.expect_symbol(Symbol::Semicolon)?;
    Ok(value)
}

/// `variable ':=' expression ';'`
#[tactic(auto, unfolding(crate::specs::Reader::Statements::assignment))]
fn assignment(alloc: Global, ts: &mut Cursor<'_>, depth_left: u8) -> Result<Statement, ReadFault>
    ensures { Takes (spec.assignment depth_left ts.old) result ts.old ts.new }
{
    let target = boxed(alloc, variable(alloc, ts, depth_left))?;
    let value = assigned(alloc, ts, depth_left)?;
    Ok(Statement::Assignment(target, value))
}

/// `call ';'`
#[tactic(auto, unfolding(crate::specs::Reader::Statements::invocation))]
fn invocation(alloc: Global, ts: &mut Cursor<'_>, depth_left: u8) -> Result<Statement, ReadFault>
    ensures { Takes (spec.invocation depth_left ts.old) result ts.old ts.new }
{
    let call = boxed(alloc, call(alloc, ts, depth_left))?;
    ts.expect_symbol(Symbol::Semicolon)?;
    Ok(Statement::Call(call))
}

/// `call ';' | variable ':=' expression ';'`
#[tactic(auto, unfolding(crate::specs::Reader::Statements::named))]
fn named(alloc: Global, ts: &mut Cursor<'_>, depth_left: u8) -> Result<Statement, ReadFault>
    ensures { Takes (spec.named depth_left ts.old) result ts.old ts.new }
{
    if ts.before_symbol(Symbol::Open) {
        invocation(alloc, ts, depth_left)
    } else {
        assignment(alloc, ts, depth_left)
    }
}

/// An expression inside one more open level.
fn inner(alloc: Global, ts: &mut Cursor<'_>, depth_left: u8) -> Result<Boxed<Expression>, ReadFault>
    requires { 0 < depth_left }
    ensures { Takes ((spec.deeper_of depth_left).expression ts.old) result ts.old ts.new }
{
    expression(alloc, ts, depth_left - 1)
}

/// `expression` and the keyword after it, inside one more open level
#[tactic(auto, unfolding(crate::specs::Reader::Statements::expression_before))]
fn expression_before(
    alloc: Global,
    ts: &mut Cursor<'_>,
    depth_left: u8,
    keyword: Keyword,
) -> Result<Boxed<Expression>, ReadFault>
    requires { 0 < depth_left }
    ensures { Takes (spec.expression_before (spec.deeper_of depth_left) keyword ts.old)
        result ts.old ts.new }
{
    let found = inner(alloc, ts, depth_left)?;
    ts.expect_keyword(keyword)?;
    Ok(found)
}

/// `[ BY expression ]`
#[tactic(auto, unfolding(crate::specs::Reader::Statements::step))]
fn step(
    alloc: Global,
    ts: &mut Cursor<'_>,
    depth_left: u8,
) -> Result<Option<Boxed<Expression>>, ReadFault>
    requires { 0 < depth_left }
    ensures { MayTake (spec.step (spec.deeper_of depth_left) ts.old) result ts.old ts.new }
{
    if ts.at_keyword(Keyword::By) {
        ts.bump();
        return Ok(Some(inner(alloc, ts, depth_left)?));
    }
    Ok(None)
}

/// The values that a variable of FOR takes.
#[derive(Drop)]
struct ForRange {
    first: Boxed<Expression>,
    last: Boxed<Expression>,
    step: Option<Boxed<Expression>>,
}

/// `[ BY expression ] DO`
#[tactic(auto, unfolding(crate::specs::Reader::Statements::closed_step))]
fn closed_step(
    alloc: Global,
    ts: &mut Cursor<'_>,
    depth_left: u8,
) -> Result<Option<Boxed<Expression>>, ReadFault>
    requires { 0 < depth_left }
    ensures { Takes (spec.closed_step (spec.deeper_of depth_left) ts.old) result ts.old ts.new }
{
    let found = step(alloc, ts, depth_left)?;
    ts.expect_keyword(Keyword::Do)?;
    Ok(found)
}

/// `expression [ BY expression ] DO`
#[tactic(auto, unfolding(crate::specs::Reader::Statements::last_and_step))]
fn last_and_step(
    alloc: Global,
    ts: &mut Cursor<'_>,
    depth_left: u8,
) -> Result<(Boxed<Expression>, Option<Boxed<Expression>>), ReadFault>
    requires { 0 < depth_left }
    ensures { Takes (spec.last_and_step (spec.deeper_of depth_left) ts.old) result ts.old ts.new }
{
    let last = inner(alloc, ts, depth_left)?;
    let step = closed_step(alloc, ts, depth_left)?;
    Ok((last, step))
}

/// `expression TO expression [ BY expression ] DO`
#[tactic(auto, unfolding(crate::specs::Reader::Statements::for_range))]
fn for_range(alloc: Global, ts: &mut Cursor<'_>, depth_left: u8) -> Result<ForRange, ReadFault>
    requires { 0 < depth_left }
    ensures { Takes (spec.for_range (spec.deeper_of depth_left) ts.old) result ts.old ts.new }
{
    let first = expression_before(alloc, ts, depth_left, Keyword::To)?;
    let (last, step) = last_and_step(alloc, ts, depth_left)?;
    Ok(ForRange { first, last, step })
}

/// `word ':=' expression TO expression [ BY expression ] DO`: FOR, without its statements
#[tactic(auto, unfolding(crate::specs::Reader::Statements::for_head))]
fn for_head(
    alloc: Global,
    ts: &mut Cursor<'_>,
    depth_left: u8,
    position: Position,
) -> Result<ForStatement, ReadFault>
    requires { 0 < depth_left }
    ensures { Takes (spec.for_head position (spec.deeper_of depth_left) ts.old)
        result ts.old ts.new }
{
    let variable = ts.identifier_before(alloc, Symbol::Assign)?;
    let range = for_range(alloc, ts, depth_left)?;
    Ok(ForStatement {
        position,
        variable,
        first: range.first,
        last: range.last,
        step: range.step,
        statements: List::new(alloc),
    })
}

/// `expression END_REPEAT ';'`
#[tactic(auto, unfolding(crate::specs::Reader::Statements::until))]
fn until(alloc: Global, ts: &mut Cursor<'_>, depth_left: u8) -> Result<Boxed<Expression>, ReadFault>
    requires { 0 < depth_left }
    ensures { Takes (spec.until (spec.deeper_of depth_left) ts.old) result ts.old ts.new }
{
    let condition = expression_before(alloc, ts, depth_left, Keyword::EndRepeat)?;
    ts.expect_symbol(Symbol::Semicolon)?;
    Ok(condition)
}

/// Statements inside one more open level.
#[cycle(parser)]
fn block(alloc: Global, ts: &mut Cursor<'_>, depth_left: u8) -> Result<List<Statement>, ReadFault>
    requires { 0 < depth_left }
    ensures { MayTake ((spec.deeper_of depth_left).statements ts.old) result ts.old ts.new }
{
    statements(alloc, ts, depth_left - 1)
}

/// `statements`, the keyword that closes their level, and `';'`
#[cycle(parser)]
#[tactic(auto, unfolding(crate::specs::Reader::Statements::closed_block))]
fn closed_block(
    alloc: Global,
    ts: &mut Cursor<'_>,
    depth_left: u8,
    keyword: Keyword,
) -> Result<List<Statement>, ReadFault>
    requires { 0 < depth_left }
    ensures { Takes (spec.closed_block (spec.deeper_of depth_left) keyword ts.old)
        result ts.old ts.new }
{
    let statements = block(alloc, ts, depth_left)?;
    ts.expect_keyword(keyword)?;
    ts.expect_symbol(Symbol::Semicolon)?;
    Ok(statements)
}

/// `expression THEN statements`
#[cycle(parser)]
#[tactic(auto, unfolding(crate::specs::Reader::Statements::conditional))]
fn conditional(
    alloc: Global,
    ts: &mut Cursor<'_>,
    depth_left: u8,
) -> Result<ConditionalPart, ReadFault>
    requires { 0 < depth_left }
    ensures { Takes (spec.conditional (spec.deeper_of depth_left) ts.old) result ts.old ts.new }
{
    let condition = expression_before(alloc, ts, depth_left, Keyword::Then)?;
    let statements = block(alloc, ts, depth_left)?;
    Ok(ConditionalPart {
        condition: condition.into_inner(),
        statements,
    })
}

/// `ELSIF conditional`
#[cycle(parser)]
#[tactic(auto, unfolding(crate::specs::Reader::Statements::elsif))]
fn elsif(alloc: Global, ts: &mut Cursor<'_>, depth_left: u8) -> Result<ConditionalPart, ReadFault>
    requires { 0 < depth_left }
    ensures { Takes (spec.elsif (spec.deeper_of depth_left) ts.old) result ts.old ts.new }
{
    ts.bump();
    conditional(alloc, ts, depth_left)
}

/// `conditional { ELSIF conditional }`
#[cycle(parser)]
#[tactic(auto, unfolding(st_parser::specs::Reader::Parsers::leading))]
fn conditionals(
    alloc: Global,
    ts: &mut Cursor<'_>,
    depth_left: u8,
) -> Result<List<ConditionalPart>, ReadFault>
    requires { 0 < depth_left }
    ensures { Takes (spec.conditionals (spec.deeper_of depth_left) ts.old) result ts.old ts.new }
{
    let mut found = single(alloc, conditional(alloc, ts, depth_left))?;
    'items: while ts.at_keyword(Keyword::Elsif) {
        add(&mut found, elsif(alloc, ts, depth_left))?;
    }
    found.shrink_to_fit();
    Ok(found)
}

/// `[ ELSE statements ]`
#[cycle(parser)]
#[tactic(auto, unfolding(crate::specs::Reader::Statements::otherwise))]
fn otherwise(
    alloc: Global,
    ts: &mut Cursor<'_>,
    depth_left: u8,
) -> Result<List<Statement>, ReadFault>
    requires { 0 < depth_left }
    ensures { MayTake (spec.otherwise (spec.deeper_of depth_left) ts.old) result ts.old ts.new }
{
    if ts.at_keyword(Keyword::Else) {
        ts.bump();
        return block(alloc, ts, depth_left);
    }
    Ok(List::new(alloc))
}

/// `[ ELSE statements ]`, the keyword that closes the level, and `';'`
#[cycle(parser)]
#[tactic(auto, unfolding(crate::specs::Reader::Statements::closed_otherwise))]
fn closed_otherwise(
    alloc: Global,
    ts: &mut Cursor<'_>,
    depth_left: u8,
    keyword: Keyword,
) -> Result<List<Statement>, ReadFault>
    requires { 0 < depth_left }
    ensures { Takes (spec.closed_otherwise (spec.deeper_of depth_left) keyword ts.old)
        result ts.old ts.new }
{
    let statements = otherwise(alloc, ts, depth_left)?;
    ts.expect_keyword(keyword)?;
    ts.expect_symbol(Symbol::Semicolon)?;
    Ok(statements)
}

/// `IF conditional { ELSIF conditional } [ ELSE statements ] END_IF ';'`
#[cycle(parser)]
#[tactic(auto, unfolding(crate::specs::Reader::Statements::if_statement))]
fn if_statement(alloc: Global, ts: &mut Cursor<'_>, depth_left: u8) -> Result<Statement, ReadFault>
    ensures { Takes (spec.if_statement depth_left (spec.deeper_of depth_left) ts.old)
        result ts.old ts.new }
{
    let position = ts.enter(depth_left)?;
    let parts = conditionals(alloc, ts, depth_left)?;
    let otherwise = closed_otherwise(alloc, ts, depth_left, Keyword::EndIf)?;
    let statement = IfStatement {
        position,
        parts,
        otherwise,
    };
    Ok(Statement::If(Boxed::new(alloc, statement)?))
}

/// `label { ',' label } ':' statements`
#[cycle(parser)]
#[tactic(auto, unfolding(crate::specs::Reader::Statements::case))]
fn case(alloc: Global, ts: &mut Cursor<'_>, depth_left: u8) -> Result<CaseElement, ReadFault>
    requires { 0 < depth_left }
    ensures { Takes (spec.case (spec.deeper_of depth_left) ts.old) result ts.old ts.new }
{
    let labels = labels(alloc, ts)?;
    ts.expect_symbol(Symbol::Colon)?;
    let statements = block(alloc, ts, depth_left)?;
    Ok(CaseElement { labels, statements })
}

/// `case { case }`
#[cycle(parser)]
#[tactic(auto, unfolding(st_parser::specs::Reader::Parsers::leading))]
fn cases(alloc: Global, ts: &mut Cursor<'_>, depth_left: u8) -> Result<List<CaseElement>, ReadFault>
    requires { 0 < depth_left }
    ensures { Takes (spec.cases (spec.deeper_of depth_left) ts.old) result ts.old ts.new }
{
    let mut found = single(alloc, case(alloc, ts, depth_left))?;
    'items: while begins_label(ts) {
        add(&mut found, case(alloc, ts, depth_left))?;
    }
    found.shrink_to_fit();
    Ok(found)
}

/// `case { case } [ ELSE statements ] END_CASE ';'`
#[cycle(parser)]
#[tactic(auto, unfolding(crate::specs::Reader::Statements::case_body))]
fn case_body(
    alloc: Global,
    ts: &mut Cursor<'_>,
    depth_left: u8,
) -> Result<(List<CaseElement>, List<Statement>), ReadFault>
    requires { 0 < depth_left }
    ensures { Takes (spec.case_body (spec.deeper_of depth_left) ts.old) result ts.old ts.new }
{
    let cases = cases(alloc, ts, depth_left)?;
    let otherwise = closed_otherwise(alloc, ts, depth_left, Keyword::EndCase)?;
    Ok((cases, otherwise))
}

/// `CASE expression OF case { case } [ ELSE statements ] END_CASE ';'`
#[cycle(parser)]
#[tactic(auto, unfolding(crate::specs::Reader::Statements::case_statement))]
fn case_statement(
    alloc: Global,
    ts: &mut Cursor<'_>,
    depth_left: u8,
) -> Result<Statement, ReadFault>
    ensures { Takes (spec.case_statement depth_left (spec.deeper_of depth_left) ts.old)
        result ts.old ts.new }
{
    let position = ts.enter(depth_left)?;
    let selector = expression_before(alloc, ts, depth_left, Keyword::Of)?;
    let (cases, otherwise) = case_body(alloc, ts, depth_left)?;
    let statement = CaseStatement {
        position,
        selector,
        cases,
        otherwise,
    };
    Ok(Statement::Case(Boxed::new(alloc, statement)?))
}

/// `FOR word ':=' expression TO expression [ BY expression ] DO statements END_FOR ';'`
#[cycle(parser)]
#[tactic(auto, unfolding(crate::specs::Reader::Statements::for_statement))]
fn for_statement(alloc: Global, ts: &mut Cursor<'_>, depth_left: u8) -> Result<Statement, ReadFault>
    ensures { Takes (spec.for_statement depth_left (spec.deeper_of depth_left) ts.old)
        result ts.old ts.new }
{
    let position = ts.enter(depth_left)?;
    let mut statement = for_head(alloc, ts, depth_left, position)?;
    statement.statements = closed_block(alloc, ts, depth_left, Keyword::EndFor)?;
    Ok(Statement::For(Boxed::new(alloc, statement)?))
}

/// `WHILE expression DO statements END_WHILE ';'`
#[cycle(parser)]
#[tactic(auto, unfolding(crate::specs::Reader::Statements::while_statement))]
fn while_statement(
    alloc: Global,
    ts: &mut Cursor<'_>,
    depth_left: u8,
) -> Result<Statement, ReadFault>
    ensures { Takes (spec.while_statement depth_left (spec.deeper_of depth_left) ts.old)
        result ts.old ts.new }
{
    let position = ts.enter(depth_left)?;
    let condition = expression_before(alloc, ts, depth_left, Keyword::Do)?;
    let statements = closed_block(alloc, ts, depth_left, Keyword::EndWhile)?;
    let statement = WhileStatement {
        position,
        condition,
        statements,
    };
    Ok(Statement::While(Boxed::new(alloc, statement)?))
}

/// `REPEAT statements UNTIL expression END_REPEAT ';'`
#[cycle(parser)]
#[tactic(auto, unfolding(crate::specs::Reader::Statements::repeat_statement))]
fn repeat_statement(
    alloc: Global,
    ts: &mut Cursor<'_>,
    depth_left: u8,
) -> Result<Statement, ReadFault>
    ensures { Takes (spec.repeat_statement depth_left (spec.deeper_of depth_left) ts.old)
        result ts.old ts.new }
{
    let position = ts.enter(depth_left)?;
    let statements = block(alloc, ts, depth_left)?;
    ts.expect_keyword(Keyword::Until)?;
    let condition = until(alloc, ts, depth_left)?;
    let statement = RepeatStatement {
        position,
        statements,
        condition,
    };
    Ok(Statement::Repeat(Boxed::new(alloc, statement)?))
}

/// A statement, by its first token.
#[cycle(parser)]
#[tactic(auto, unfolding(crate::specs::Reader::Statements::statement, crate::specs::Reader::Statements::empty))]
fn statement(alloc: Global, ts: &mut Cursor<'_>, depth_left: u8) -> Result<Statement, ReadFault>
    ensures { Takes (spec.statement depth_left (spec.deeper_of depth_left) ts.old)
        result ts.old ts.new }
{
    match ts.peek() {
        Some(Kind::Word(_)) => named(alloc, ts, depth_left),
        Some(Kind::Symbol(Symbol::Semicolon)) => Ok(Statement::Empty(ts.bump())),
        Some(Kind::Keyword(Keyword::Return)) => return_statement(ts),
        Some(Kind::Keyword(Keyword::Exit)) => exit_statement(ts),
        Some(Kind::Keyword(Keyword::If)) => if_statement(alloc, ts, depth_left),
        Some(Kind::Keyword(Keyword::Case)) => case_statement(alloc, ts, depth_left),
        Some(Kind::Keyword(Keyword::For)) => for_statement(alloc, ts, depth_left),
        Some(Kind::Keyword(Keyword::While)) => while_statement(alloc, ts, depth_left),
        Some(Kind::Keyword(Keyword::Repeat)) => repeat_statement(alloc, ts, depth_left),
        _ => Err(ts.unexpected()),
    }
}

/// `{ statement }`, where `depth_left` more levels may be opened.
#[cycle(parser)]
pub fn statements(
    alloc: Global,
    ts: &mut Cursor<'_>,
    depth_left: u8,
) -> Result<List<Statement>, ReadFault>
    ensures { MayTake (spec.statements depth_left ts.old) result ts.old ts.new }
{
    let mut found = List::new(alloc);
    'items: while begins_statement(ts) {
        add(&mut found, statement(alloc, ts, depth_left))?;
    }
    found.shrink_to_fit();
    Ok(found)
}

/// What is read as statements, up to the last token, is what the grammar has, with at most so many open levels.
pub fn statements_are_their_grammar()
    ensures { (depth_left : ℕ) (ts : Items Tok) (xs : Items names.Statement)
        → (spec.statements depth_left ts ≡ Ok (xs, []))
        ↔ (IsStatements ts xs [] × IsWithin depth_left ts) }
{}
