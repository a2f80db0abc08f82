//! Which of some values it is (IEC 61131-3:2003, 2.5.1.5.4, table 27). The values are of any one elementary type.
ghost use Rattle.std.specs.Prelude.{◌≡◌};
ghost use Rattle.st_values.specs.Values.{IsValue};
ghost use Rattle.st_operators.specs.Functions.{greatest_of, least_of, limited_to, selected_of};
ghost use Rattle.st_operators.specs.Operators.{AreAlike};

use st_values::Value;

/// `MIN` of two values. Of more it is taken with one after the other.
pub fn least(a: Value, b: Value) -> Value
    requires { AreAlike a b }
    ensures value { result ≡ least_of a b }
    ensures in_range { IsValue result }
    ensures elem { result.elem ≡ a.elem }
{
    if b.bits < a.bits { b } else { a }
}

/// `MAX` of two values. Of more it is taken with one after the other.
pub fn greatest(a: Value, b: Value) -> Value
    requires { AreAlike a b }
    ensures value { result ≡ greatest_of a b }
    ensures in_range { IsValue result }
    ensures elem { result.elem ≡ a.elem }
{
    if a.bits < b.bits { b } else { a }
}

/// `LIMIT`: the value, or the bound that it passes. Where the lower bound is above the upper, it is the upper.
pub fn limited(low: Value, a: Value, high: Value) -> Value
    requires low { AreAlike a low }
    requires high { AreAlike a high }
    ensures value { result ≡ limited_to low a high }
    ensures in_range { IsValue result }
    ensures elem { result.elem ≡ a.elem }
{
    least(greatest(a, low), high)
}

/// `SEL`: the first value where the BOOL is FALSE, else the second.
pub fn selected(g: Value, a: Value, b: Value) -> Value
    requires { AreAlike a b }
    ensures value { result ≡ selected_of g a b }
    ensures in_range { IsValue result }
    ensures elem { result.elem ≡ a.elem }
{
    if g.bits == 0 { a } else { b }
}
