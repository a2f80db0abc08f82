//! Literals.
ghost use Rattle.st_parser.specs.Reader.Expressions as spec;
ghost use Rattle.st_parser.specs.Reader.Parsers.{Takes};

use crate::{Cursor, ReadFault};
use st_tokens::{Keyword, Kind, Symbol};
use st_tree::tree::{Constant, Duration, SignedInteger};
use st_values::CompactValue;

/// `('+' | '-') number`
#[tactic(auto, unfolding(crate::specs::Reader::Expressions::signed))]
fn signed(ts: &mut Cursor<'_>, is_negative: bool) -> Result<SignedInteger, ReadFault>
    ensures { Takes (spec.signed is_negative ts.old) result ts.old ts.new }
{
    let position = ts.bump();
    let magnitude = ts.number()?;
    Ok(SignedInteger {
        position,
        is_negative,
        magnitude,
    })
}

/// `['+' | '-'] number`
#[tactic(auto, unfolding(crate::specs::Reader::Expressions::signed_integer))]
pub fn signed_integer(ts: &mut Cursor<'_>) -> Result<SignedInteger, ReadFault>
    ensures { Takes (spec.signed_integer ts.old) result ts.old ts.new }
{
    match ts.peek() {
        Some(Kind::Number(magnitude)) => {
            let position = ts.bump();
            Ok(SignedInteger {
                position,
                is_negative: false,
                magnitude: *magnitude,
            })
        }
        Some(Kind::Symbol(Symbol::Plus)) => signed(ts, false),
        Some(Kind::Symbol(Symbol::Minus)) => signed(ts, true),
        _ => Err(ts.unexpected()),
    }
}

/// `signed integer | typed literal | duration | TRUE | FALSE`
#[tactic(auto, unfolding(crate::specs::Reader::Expressions::constant))]
pub fn constant(ts: &mut Cursor<'_>) -> Result<Constant, ReadFault>
    ensures { Takes (spec.constant ts.old) result ts.old ts.new }
{
    match ts.peek() {
        Some(Kind::Typed(elem, bits)) => {
            let value = CompactValue::new(*elem, *bits);
            Ok(Constant::Typed(ts.bump(), value))
        }
        Some(Kind::Duration(milliseconds)) => {
            let position = ts.bump();
            Ok(Constant::Duration(Duration {
                position,
                milliseconds: *milliseconds,
            }))
        }
        Some(Kind::Keyword(Keyword::True)) => Ok(Constant::Bool(ts.bump(), true)),
        Some(Kind::Keyword(Keyword::False)) => Ok(Constant::Bool(ts.bump(), false)),
        _ => Ok(Constant::Integer(signed_integer(ts)?)),
    }
}
