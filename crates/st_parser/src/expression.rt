//! Expressions, and the variables and calls in them. The seven lines of operators are one function.
ghost use Rattle.std.specs.Prelude.{◌≡◌, ◌↔◌, ◌+◌, ◌<◌, ◌≤◌, ℕ, [], false, IfErr, IfOk, IfSome, List as Items, Ok, true};
ghost use Rattle.st_parser.specs.Grammar.Expressions.{IsExpression, precedence_of};
ghost use Rattle.st_parser.specs.Reader.Expressions as spec;
ghost use Rattle.st_parser.specs.Grammar.Levels.{IsWithin};
ghost use Rattle.st_parser.specs.Grammar.Tokens.{kind, next, Tok};
ghost use Rattle.st_parser.specs.Names as names;
ghost use Rattle.st_parser.specs.Reader.Parsers as parser;
ghost use Rattle.st_parser.specs.Reader.Parsers.{MayTake, Takes};

use crate::constant::constant;
use crate::{Cursor, ReadFault, add, boxed, single};
use st_tokens::{Keyword, Kind, Symbol};
use st_tree::tree::{Argument, Call, Expression, Operation, Part, Position, Variable};
use st_tree::{BinOp, Boxed, List};
use std::alloc::Global;

/// The precedence of the operator that binds last, OR.
const LOOSEST: u8 = 7;

/// The operator that the first token is.
fn operator_at(ts: &Cursor<'_>) -> Option<BinOp>
    ensures { result ≡ spec.operator_at (kind ts.now) }
{
    let op = match ts.peek()? {
        Kind::Keyword(Keyword::Or) => BinOp::Or,
        Kind::Keyword(Keyword::Xor) => BinOp::Xor,
        Kind::Keyword(Keyword::And) => BinOp::And,
        Kind::Keyword(Keyword::Mod) => BinOp::Mod,
        Kind::Symbol(Symbol::Ampersand) => BinOp::And,
        Kind::Symbol(Symbol::Equal) => BinOp::Eq,
        Kind::Symbol(Symbol::NotEqual) => BinOp::Ne,
        Kind::Symbol(Symbol::Less) => BinOp::Lt,
        Kind::Symbol(Symbol::Greater) => BinOp::Gt,
        Kind::Symbol(Symbol::LessEqual) => BinOp::Le,
        Kind::Symbol(Symbol::GreaterEqual) => BinOp::Ge,
        Kind::Symbol(Symbol::Plus) => BinOp::Add,
        Kind::Symbol(Symbol::Minus) => BinOp::Sub,
        Kind::Symbol(Symbol::Times) => BinOp::Mul,
        Kind::Symbol(Symbol::Divide) => BinOp::Div,
        _ => return None,
    };
    Some(op)
}

/// The precedence of an operator. Those of a lower number bind their operands first.
fn precedence_of(op: BinOp) -> u8
    ensures { result ≡ precedence_of op }
{
    match op {
        BinOp::Mul | BinOp::Div | BinOp::Mod => 1,
        BinOp::Add | BinOp::Sub => 2,
        BinOp::Lt | BinOp::Gt | BinOp::Le | BinOp::Ge => 3,
        BinOp::Eq | BinOp::Ne => 4,
        BinOp::And => 5,
        BinOp::Xor => 6,
        BinOp::Or => 7,
    }
}

/// Whether the first token is an operator of precedence `precedence` + 1.
fn is_operator(ts: &Cursor<'_>, precedence: u8) -> bool
    requires { precedence < 7 }
    ensures { result ≡ spec.is_operator precedence (kind ts.now) }
{
    match operator_at(ts) {
        Some(op) => precedence_of(op) == precedence + 1,
        None => false,
    }
}

/// The precedence of the operator that the first token is, where it is above `bound` and at most `loosest`.
fn precedence_at(ts: &Cursor<'_>, bound: u8, loosest: u8) -> Option<u8>
    ensures above { IfSome result (λ found. bound < found) }
    ensures within { IfSome result (λ found. found ≤ loosest) }
    ensures operator { IfSome result
        (λ found. spec.has_precedence found (spec.operator_at (kind ts.now)) ≡ true) }
    ensures none { result ≡ None → (r : ℕ) → bound ≤ r → r < loosest
        → spec.is_operator r (kind ts.now) ≡ false }
{
    let precedence = precedence_of(operator_at(ts)?);
    if bound < precedence && precedence <= loosest {
        Some(precedence)
    } else {
        None
    }
}

/// Whether the first token begins a part of a variable.
fn begins_part(ts: &Cursor<'_>) -> bool
    ensures { result ≡ spec.begins_part (kind ts.now) }
{
    matches!(
        ts.peek(),
        Some(Kind::Symbol(Symbol::Dot | Symbol::OpenBracket))
    )
}

/// Whether the second token is a number.
fn is_before_number(ts: &Cursor<'_>) -> bool
    ensures { result ≡ spec.is_number (kind (next ts.now)) }
{
    matches!(ts.peek_second(), Some(Kind::Number(_)))
}

/// `'.' word`
#[tactic(auto, unfolding(crate::specs::Reader::Expressions::field))]
fn field(alloc: Global, ts: &mut Cursor<'_>) -> Result<Part, ReadFault>
    ensures { Takes (spec.field ts.old) result ts.old ts.new }
{
    ts.bump();
    Ok(Part::Field(ts.identifier(alloc)?))
}

/// An expression inside one more open level.
#[cycle(parser)]
fn inside(alloc: Global, ts: &mut Cursor<'_>, depth_left: u8) -> Result<Expression, ReadFault>
    requires { 0 < depth_left }
    ensures { Takes ((spec.inside_of depth_left).expression ts.old) result ts.old ts.new }
{
    binary(alloc, ts, depth_left - 1, LOOSEST)
}

/// An expression inside one more open level, in a box.
#[cycle(parser)]
fn boxed_inside(
    alloc: Global,
    ts: &mut Cursor<'_>,
    depth_left: u8,
) -> Result<Boxed<Expression>, ReadFault>
    requires { 0 < depth_left }
    ensures { Takes ((spec.inside_of depth_left).expression ts.old) result ts.old ts.new }
{
    boxed(alloc, inside(alloc, ts, depth_left))
}

/// A variable inside one more open level, in a box.
#[cycle(parser)]
fn boxed_target(
    alloc: Global,
    ts: &mut Cursor<'_>,
    depth_left: u8,
) -> Result<Boxed<Variable>, ReadFault>
    requires { 0 < depth_left }
    ensures { Takes ((spec.inside_of depth_left).variable ts.old) result ts.old ts.new }
{
    boxed(alloc, variable(alloc, ts, depth_left - 1))
}

/// `expression { ',' expression }`, inside a bracket
#[cycle(parser)]
fn expressions(
    alloc: Global,
    ts: &mut Cursor<'_>,
    depth_left: u8,
) -> Result<List<Expression>, ReadFault>
    requires { 0 < depth_left }
    ensures { Takes (parser.listed (spec.inside_of depth_left).expression ts.old)
        result ts.old ts.new }
{
    let mut found = single(alloc, inside(alloc, ts, depth_left))?;
    'items: while ts.at_symbol(Symbol::Comma) {
        ts.bump();
        add(&mut found, inside(alloc, ts, depth_left))?;
    }
    found.shrink_to_fit();
    Ok(found)
}

/// `'[' expressions ']'`
#[cycle(parser)]
#[tactic(auto, unfolding(crate::specs::Reader::Expressions::subscripts))]
fn subscripts(alloc: Global, ts: &mut Cursor<'_>, depth_left: u8) -> Result<Part, ReadFault>
    ensures { Takes (spec.subscripts depth_left (spec.inside_of depth_left) ts.old)
        result ts.old ts.new }
{
    let position = ts.enter(depth_left)?;
    let subscripts = expressions(alloc, ts, depth_left)?;
    ts.expect_symbol(Symbol::CloseBracket)?;
    Ok(Part::Subscripts(position, subscripts))
}

/// `'.' word | '[' expressions ']'`
#[cycle(parser)]
#[tactic(auto, unfolding(crate::specs::Reader::Expressions::part_of))]
fn part(alloc: Global, ts: &mut Cursor<'_>, depth_left: u8) -> Result<Part, ReadFault>
    ensures { Takes (spec.part_of depth_left (spec.inside_of depth_left) ts.old)
        result ts.old ts.new }
{
    match ts.peek() {
        Some(Kind::Symbol(Symbol::Dot)) => field(alloc, ts),
        _ => subscripts(alloc, ts, depth_left),
    }
}

/// `{ part }`
#[cycle(parser)]
fn parts(alloc: Global, ts: &mut Cursor<'_>, depth_left: u8) -> Result<List<Part>, ReadFault>
    ensures { MayTake (spec.parts depth_left (spec.inside_of depth_left) ts.old)
        result ts.old ts.new }
{
    let mut found = List::new(alloc);
    'items: while begins_part(ts) {
        add(&mut found, part(alloc, ts, depth_left))?;
    }
    found.shrink_to_fit();
    Ok(found)
}

/// `word { part }`. `depth_left` more levels may be opened.
#[cycle(parser)]
#[tactic(auto, unfolding(crate::specs::Reader::Expressions::variable))]
pub fn variable(alloc: Global, ts: &mut Cursor<'_>, depth_left: u8) -> Result<Variable, ReadFault>
    ensures { Takes (spec.variable depth_left (spec.inside_of depth_left) ts.old)
        result ts.old ts.new }
{
    let name = ts.identifier(alloc)?;
    let parts = parts(alloc, ts, depth_left)?;
    Ok(Variable { name, parts })
}

/// `word ':=' expression`
#[cycle(parser)]
#[tactic(auto, unfolding(crate::specs::Reader::Expressions::input))]
fn input(alloc: Global, ts: &mut Cursor<'_>, depth_left: u8) -> Result<Argument, ReadFault>
    requires { 0 < depth_left }
    ensures { Takes (spec.input (spec.inside_of depth_left) ts.old) result ts.old ts.new }
{
    let name = ts.identifier_before(alloc, Symbol::Assign)?;
    let value = boxed_inside(alloc, ts, depth_left)?;
    Ok(Argument::Input(name, value))
}

/// `word '=>' variable`
#[cycle(parser)]
#[tactic(auto, unfolding(crate::specs::Reader::Expressions::output))]
fn output(alloc: Global, ts: &mut Cursor<'_>, depth_left: u8) -> Result<Argument, ReadFault>
    requires { 0 < depth_left }
    ensures { Takes (spec.output (spec.inside_of depth_left) ts.old) result ts.old ts.new }
{
    let name = ts.identifier_before(alloc, Symbol::Output)?;
    let taker = boxed_target(alloc, ts, depth_left)?;
    Ok(Argument::Output(name, taker))
}

/// `expression`, for the parameter at its position
#[cycle(parser)]
#[tactic(auto, unfolding(crate::specs::Reader::Expressions::positional))]
fn positional(alloc: Global, ts: &mut Cursor<'_>, depth_left: u8) -> Result<Argument, ReadFault>
    requires { 0 < depth_left }
    ensures { Takes (spec.positional (spec.inside_of depth_left) ts.old) result ts.old ts.new }
{
    Ok(Argument::Positional(inside(alloc, ts, depth_left)?))
}

/// `expression | word ':=' expression | word '=>' variable`, which the second token tells apart
#[cycle(parser)]
#[tactic(auto, unfolding(crate::specs::Reader::Expressions::argument))]
fn argument(alloc: Global, ts: &mut Cursor<'_>, depth_left: u8) -> Result<Argument, ReadFault>
    requires { 0 < depth_left }
    ensures { Takes (spec.argument (spec.inside_of depth_left) ts.old) result ts.old ts.new }
{
    match ts.peek() {
        Some(Kind::Word(_)) => match ts.peek_second() {
            Some(Kind::Symbol(Symbol::Assign)) => input(alloc, ts, depth_left),
            Some(Kind::Symbol(Symbol::Output)) => output(alloc, ts, depth_left),
            _ => positional(alloc, ts, depth_left),
        },
        _ => positional(alloc, ts, depth_left),
    }
}

/// `argument { ',' argument }`
#[cycle(parser)]
fn argument_list(
    alloc: Global,
    ts: &mut Cursor<'_>,
    depth_left: u8,
) -> Result<List<Argument>, ReadFault>
    requires { 0 < depth_left }
    ensures { Takes (parser.listed (spec.argument (spec.inside_of depth_left)) ts.old)
        result ts.old ts.new }
{
    let mut found = single(alloc, argument(alloc, ts, depth_left))?;
    'items: while ts.at_symbol(Symbol::Comma) {
        ts.bump();
        add(&mut found, argument(alloc, ts, depth_left))?;
    }
    found.shrink_to_fit();
    Ok(found)
}

/// `[ argument { ',' argument } ] ')'`
#[cycle(parser)]
#[tactic(auto, unfolding(crate::specs::Reader::Expressions::arguments))]
fn arguments(
    alloc: Global,
    ts: &mut Cursor<'_>,
    depth_left: u8,
) -> Result<List<Argument>, ReadFault>
    requires { 0 < depth_left }
    ensures { MayTake (spec.arguments (spec.inside_of depth_left) ts.old) result ts.old ts.new }
{
    if ts.at_symbol(Symbol::Close) {
        ts.bump();
        return Ok(List::new(alloc));
    }
    let found = argument_list(alloc, ts, depth_left)?;
    ts.expect_symbol(Symbol::Close)?;
    Ok(found)
}

/// `word '(' [ argument { ',' argument } ] ')'`. `depth_left` more levels may be opened.
#[cycle(parser)]
#[tactic(auto, unfolding(crate::specs::Reader::Expressions::call))]
pub fn call(alloc: Global, ts: &mut Cursor<'_>, depth_left: u8) -> Result<Call, ReadFault>
    ensures { Takes (spec.call depth_left (spec.inside_of depth_left) ts.old) result ts.old ts.new }
{
    let name = ts.identifier(alloc)?;
    ts.enter(depth_left)?;
    let arguments = arguments(alloc, ts, depth_left)?;
    Ok(Call { name, arguments })
}

/// `'(' expression ')'`
#[cycle(parser)]
#[tactic(auto, unfolding(crate::specs::Reader::Expressions::parenthesized))]
fn parenthesized(
    alloc: Global,
    ts: &mut Cursor<'_>,
    depth_left: u8,
) -> Result<Expression, ReadFault>
    ensures { Takes (spec.parenthesized depth_left (spec.inside_of depth_left) ts.old)
        result ts.old ts.new }
{
    let position = ts.enter(depth_left)?;
    let inner = boxed_inside(alloc, ts, depth_left)?;
    ts.expect_symbol(Symbol::Close)?;
    Ok(Expression::Parenthesized(position, inner))
}

/// `call | variable`
#[cycle(parser)]
#[tactic(auto, unfolding(crate::specs::Reader::Expressions::named))]
fn named(alloc: Global, ts: &mut Cursor<'_>, depth_left: u8) -> Result<Expression, ReadFault>
    ensures { Takes (spec.named depth_left (spec.inside_of depth_left) ts.old)
        result ts.old ts.new }
{
    if ts.before_symbol(Symbol::Open) {
        return Ok(Expression::Call(call(alloc, ts, depth_left)?));
    }
    Ok(Expression::Variable(variable(alloc, ts, depth_left)?))
}

/// `literal | variable | call | '(' expression ')'`
#[cycle(parser)]
#[tactic(auto, unfolding(crate::specs::Reader::Expressions::primary))]
fn primary(alloc: Global, ts: &mut Cursor<'_>, depth_left: u8) -> Result<Expression, ReadFault>
    ensures { Takes (spec.primary depth_left (spec.inside_of depth_left) ts.old)
        result ts.old ts.new }
{
    match ts.peek() {
        Some(Kind::Word(_)) => named(alloc, ts, depth_left),
        Some(Kind::Symbol(Symbol::Open)) => parenthesized(alloc, ts, depth_left),
        _ => Ok(Expression::Constant(constant(ts)?)),
    }
}

/// `primary`, in a box
#[cycle(parser)]
fn boxed_primary(
    alloc: Global,
    ts: &mut Cursor<'_>,
    depth_left: u8,
) -> Result<Boxed<Expression>, ReadFault>
    ensures { Takes (spec.primary depth_left (spec.inside_of depth_left) ts.old)
        result ts.old ts.new }
{
    boxed(alloc, primary(alloc, ts, depth_left))
}

/// `[ '-' | NOT ] primary`. A `-` before a number belongs to the number.
#[cycle(parser)]
#[tactic(auto, unfolding(crate::specs::Reader::Expressions::unary, crate::specs::Reader::Expressions::complement, crate::specs::Reader::Expressions::negation))]
fn unary(alloc: Global, ts: &mut Cursor<'_>, depth_left: u8) -> Result<Expression, ReadFault>
    ensures { Takes (spec.unary depth_left (spec.inside_of depth_left) ts.old)
        result ts.old ts.new }
{
    match ts.peek() {
        Some(Kind::Keyword(Keyword::Not)) => {
            let position = ts.bump();
            let operand = boxed_primary(alloc, ts, depth_left)?;
            Ok(Expression::Not(position, operand))
        }
        Some(Kind::Symbol(Symbol::Minus)) => {
            if is_before_number(ts) {
                return primary(alloc, ts, depth_left);
            }
            let position = ts.bump();
            let operand = boxed_primary(alloc, ts, depth_left)?;
            Ok(Expression::Negate(position, operand))
        }
        _ => primary(alloc, ts, depth_left),
    }
}

/// `operator operand`, where the operator has precedence `precedence + 1`
#[cycle(parser)]
#[tactic(auto, unfolding(crate::specs::Reader::Expressions::operation))]
fn operation(
    alloc: Global,
    ts: &mut Cursor<'_>,
    depth_left: u8,
    precedence: u8,
) -> Result<Operation, ReadFault>
    requires { precedence < 7 }
    ensures { Takes (spec.operation (spec.binary depth_left (spec.inside_of depth_left) precedence)
        ts.old) result ts.old ts.new }
{
    let found = operator_at(ts);
    let position = ts.bump();
    match found {
        Some(operator) => {
            let operand = binary(alloc, ts, depth_left, precedence)?;
            Ok(Operation {
                position,
                operator,
                operand,
            })
        }
        None => Err(ts.unexpected()),
    }
}

/// `{ operator operand }`
#[cycle(parser)]
fn operations(
    alloc: Global,
    ts: &mut Cursor<'_>,
    depth_left: u8,
    precedence: u8,
) -> Result<List<Operation>, ReadFault>
    requires { precedence < 7 }
    ensures { MayTake (spec.operations
        (spec.binary depth_left (spec.inside_of depth_left) precedence) precedence ts.old)
        result ts.old ts.new }
{
    let mut found = List::new(alloc);
    'items: while is_operator(ts, precedence) {
        add(&mut found, operation(alloc, ts, depth_left, precedence))?;
    }
    found.shrink_to_fit();
    Ok(found)
}

/// The first operand and the operations after it, or the operand alone where there are none.
fn chain(
    alloc: Global,
    position: Position,
    first: Expression,
    operations: List<Operation>,
) -> Result<Expression, ReadFault>
    ensures ok { IfOk result (λ chain. chain ≡ spec.chain position first operations) }
    ensures err { IfErr result (λ fault. fault ≡ ReadFault.Memory) }
{
    if operations.is_empty() {
        return Ok(first);
    }
    Ok(Expression::Chain(position, Boxed::new(alloc, first)?, operations))
}

/// `operand { operator operand }`, where the operators have this precedence, and the operands the next that binds first.
/// The first operand is read once, and then the operations of each precedence that follow it.
#[cycle(parser)]
fn binary(
    alloc: Global,
    ts: &mut Cursor<'_>,
    depth_left: u8,
    precedence: u8,
) -> Result<Expression, ReadFault>
    requires { precedence ≤ 7 }
    ensures { Takes (spec.binary depth_left (spec.inside_of depth_left) precedence ts.old)
        result ts.old ts.new }
{
    let position = ts.position();
    let mut found = unary(alloc, ts, depth_left)?;
    let mut bound = 0;
    'levels: while let Some(next) = precedence_at(ts, bound, precedence) {
        let operations = operations(alloc, ts, depth_left, next - 1)?;
        found = chain(alloc, position, found, operations)?;
        bound = next;
    }
    Ok(found)
}

/// `expression`, in a box. `depth_left` more levels may be opened.
pub fn expression(
    alloc: Global,
    ts: &mut Cursor<'_>,
    depth_left: u8,
) -> Result<Boxed<Expression>, ReadFault>
    ensures { Takes (spec.expression depth_left ts.old) result ts.old ts.new }
{
    boxed(alloc, binary(alloc, ts, depth_left, LOOSEST))
}

/// What is read as an expression, up to the last token, is what the grammar has, with at most so many open levels.
pub fn expression_is_its_grammar()
    ensures { (depth_left : ℕ) (ts : Items Tok) (x : names.Expression)
        → (spec.expression depth_left ts ≡ Ok (x, []))
        ↔ (IsExpression ts x [] × IsWithin depth_left ts) }
{}
