//! What the values of the elementary types look like.
use crate::message::push_value;
use st_values::{Class, Elem, Value};
use std::alloc::{AllocError, Global};

/// Says what is a value of a type, for people.
pub fn push_values(alloc: Global, message: &mut String, elem: Elem) -> Result<(), AllocError> {
    match elem.class() {
        Class::Boolean => message.push_str("TRUE or FALSE"),
        Class::Duration => message.push_str("a duration, as T#1m30s or T#500ms"),
        Class::Integer | Class::BitString => push_range(alloc, message, elem),
    }
}

/// Says from which number to which the values of a type go.
fn push_range(alloc: Global, message: &mut String, elem: Elem) -> Result<(), AllocError> {
    let limit = elem.limit();
    message.push_str("a number from ")?;
    if elem.is_signed() {
        write!(message, "-{limit}")?;
    } else {
        message.push('0')?;
    }
    message.push_str(" to ")?;
    let bits = limit.saturating_sub(1).cast_signed();
    push_value(alloc, message, Value { elem, bits })
}
