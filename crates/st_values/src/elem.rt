//! The elementary types (IEC 61131-3:2003, 2.3.1, table 10).
ghost use Rattle.std.specs.Prelude.{◌≡◌, ◌≤◌, ◌↔◌, IsTrue, Some, slice_get};
ghost use Rattle.st_values.specs.declared.elem.TheConstants.Elem.{ALL};
ghost use Rattle.st_values.specs.Types.{bits_of, class_of, is_same, is_signed, limit_of, name_of, place_of, width_of};

/// An elementary type of the profile.
#[derive(Clone, Copy, Debug, PartialEq, Eq)]
pub enum Elem {
    Bool,
    Sint,
    Int,
    Dint,
    Lint,
    Usint,
    Uint,
    Udint,
    Ulint,
    Byte,
    Word,
    Dword,
    Lword,
    Time,
}

/// How the values of a type are written (2.2).
#[derive(Clone, Copy)]
pub enum Class {
    /// `TRUE` and `FALSE`.
    Boolean,
    /// Decimal numbers with a sign.
    Integer,
    /// Hexadecimal digits.
    BitString,
    /// Durations.
    Duration,
}

/// What the table of types says of one (2.3.1, table 10).
#[derive(Clone, Copy)]
struct Row {
    name: &'static [u8],
    class: Class,
    bits: u32,
    is_signed: bool,
}

impl Elem {
    /// All types, in the order of their places.
    pub const ALL: [Elem; 14] = [
        Elem::Bool,
        Elem::Sint,
        Elem::Int,
        Elem::Dint,
        Elem::Lint,
        Elem::Usint,
        Elem::Uint,
        Elem::Udint,
        Elem::Ulint,
        Elem::Byte,
        Elem::Word,
        Elem::Dword,
        Elem::Lword,
        Elem::Time,
    ];

    /// Its place among all types, from 0.
    pub fn place(self) -> u8
        ensures value { result ≡ place_of self }
        ensures listed { slice_get ALL result ≡ Some self }
    {
        self as u8
    }

    /// Whether it is the same type as another.
    pub fn is(self, other: Elem) -> bool
        ensures value { result ≡ is_same self other }
        ensures same { IsTrue result ↔ (self ≡ other) }
    {
        self.place() == other.place()
    }

    /// Its row in the table of types.
    fn row(self) -> Row
        ensures name { result.name.now ≡ name_of self }
        ensures class { result.class ≡ class_of self }
        ensures bits { result.bits ≡ bits_of self }
        ensures some { 1 ≤ result.bits }
        ensures few { result.bits ≤ 64 }
        ensures is_signed { result.is_signed ≡ is_signed self }
    {
        match self {
            Elem::Bool => Row::new(b"BOOL", Class::Boolean, 1, false),
            Elem::Sint => Row::new(b"SINT", Class::Integer, 8, true),
            Elem::Int => Row::new(b"INT", Class::Integer, 16, true),
            Elem::Dint => Row::new(b"DINT", Class::Integer, 32, true),
            Elem::Lint => Row::new(b"LINT", Class::Integer, 64, true),
            Elem::Usint => Row::new(b"USINT", Class::Integer, 8, false),
            Elem::Uint => Row::new(b"UINT", Class::Integer, 16, false),
            Elem::Udint => Row::new(b"UDINT", Class::Integer, 32, false),
            Elem::Ulint => Row::new(b"ULINT", Class::Integer, 64, false),
            Elem::Byte => Row::new(b"BYTE", Class::BitString, 8, false),
            Elem::Word => Row::new(b"WORD", Class::BitString, 16, false),
            Elem::Dword => Row::new(b"DWORD", Class::BitString, 32, false),
            Elem::Lword => Row::new(b"LWORD", Class::BitString, 64, false),
            Elem::Time => Row::new(b"TIME", Class::Duration, 64, true),
        }
    }

    /// The type's name, in upper case.
    pub fn name(self) -> &'static [u8]
        ensures { result.now ≡ name_of self }
    {
        self.row().name
    }

    /// How its values are written.
    pub fn class(self) -> Class
        ensures { result ≡ class_of self }
    {
        self.row().class
    }

    /// How many bits a value has.
    pub fn bits(self) -> u32
        ensures { result ≡ bits_of self }
    {
        self.row().bits
    }

    /// Whether numbers below zero are values of the type.
    pub fn is_signed(self) -> bool
        ensures { result ≡ is_signed self }
    {
        self.row().is_signed
    }

    /// How many bytes a value takes in memory. BOOL takes one.
    pub fn width(self) -> u32
        ensures { result ≡ width_of self }
    {
        self.row().bits.div_ceil(8)
    }

    /// The least number above the type's range: a signed type has one bit less for the number.
    pub fn limit(self) -> u128
        ensures { result ≡ limit_of self }
    {
        let row = self.row();
        1 << (row.bits - u32::from(row.is_signed))
    }
}

impl Row {
    /// The row with these entries.
    fn new(name: &'static [u8], class: Class, bits: u32, is_signed: bool) -> Row
        ensures name { result.name.now ≡ name.now }
        ensures class { result.class ≡ class }
        ensures bits { result.bits ≡ bits }
        ensures is_signed { result.is_signed ≡ is_signed }
    {
        Row {
            name,
            class,
            bits,
            is_signed,
        }
    }
}
