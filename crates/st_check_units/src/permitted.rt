//! What may be declared, and what names are as types.

/// What may be declared at some place.
#[derive(Clone, Copy, Debug, PartialEq, Eq)]
pub enum Permitted {
    /// Nothing at all.
    Nothing,
    /// Values of elementary types.
    Values,
    /// Values, arrays and structures.
    Types,
    /// These, and instances of function blocks.
    Instances,
}

/// What a name is, used as a type.
#[derive(Clone, Copy, Debug, PartialEq, Eq)]
pub enum TypeUse {
    /// There is nothing of this name.
    Missing,
    /// A type.
    Type,
    /// A function block, whose instances can be declared.
    Block,
    /// Something that is no type.
    Other,
}
