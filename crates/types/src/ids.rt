// Identifiers, and the type table (ZCL 2.6.2): after types/ids.rs.
ghost use Rattle.std.specs.Prelude.{◌≡◌};
ghost use Rattle.types.specs.Ids.{counted_width, size_of, shape_of, is_analog, is_reportable, is_signed, is_float};
ghost use Rattle.types.specs.Ids.{among as codes_among};

// Three kinds of numbers that no call can take for one another.
#[derive(Clone, Copy, PartialEq, Eq)]
pub struct ClusterId(pub u16);

#[derive(Clone, Copy, PartialEq, Eq)]
pub struct AttributeId(pub u16);

#[derive(Clone, Copy, PartialEq, Eq)]
pub struct CommandId(pub u8);

// The type of a value, by its code. A code that has no constant here is an unknown type.
#[derive(Clone, Copy, PartialEq, Eq)]
pub struct TypeId(pub u8);

// How a type's values are laid out, and so how one finds their end.
#[derive(Clone, Copy, PartialEq, Eq)]
pub enum Shape {
    Fixed(usize),
    Text,
    LongText,
    Series,
    Structure,
    Unknown,
}

// A code from `first` to `last`.
fn among(first: u8, last: u8, code: u8) -> bool
    ensures { result ≡ codes_among first last code }
{
    first <= code && code <= last
}

// The width of a type of a counted family: the low three bits of its code plus one.
fn counted_width(code: u8) -> usize
    ensures { result ≡ counted_width code }
{
    (code % 8) as usize + 1
}

impl TypeId {
    // The codes, as numbers: the type is TypeId(TypeId::NO_DATA). Tried as `TypeId`s, which a pattern takes as well; but an arm of such a match
    // gives the proof no fact under a name that stays, and it did not close.
    pub const NO_DATA: u8 = 0x00;

    pub const DATA8: u8 = 0x08;

    pub const DATA16: u8 = 0x09;

    pub const DATA24: u8 = 0x0a;

    pub const DATA32: u8 = 0x0b;

    pub const DATA40: u8 = 0x0c;

    pub const DATA48: u8 = 0x0d;

    pub const DATA56: u8 = 0x0e;

    pub const DATA64: u8 = 0x0f;

    pub const BOOLEAN: u8 = 0x10;

    pub const BITMAP8: u8 = 0x18;

    pub const BITMAP16: u8 = 0x19;

    pub const BITMAP24: u8 = 0x1a;

    pub const BITMAP32: u8 = 0x1b;

    pub const BITMAP40: u8 = 0x1c;

    pub const BITMAP48: u8 = 0x1d;

    pub const BITMAP56: u8 = 0x1e;

    pub const BITMAP64: u8 = 0x1f;

    pub const UINT8: u8 = 0x20;

    pub const UINT16: u8 = 0x21;

    pub const UINT24: u8 = 0x22;

    pub const UINT32: u8 = 0x23;

    pub const UINT40: u8 = 0x24;

    pub const UINT48: u8 = 0x25;

    pub const UINT56: u8 = 0x26;

    pub const UINT64: u8 = 0x27;

    pub const INT8: u8 = 0x28;

    pub const INT16: u8 = 0x29;

    pub const INT24: u8 = 0x2a;

    pub const INT32: u8 = 0x2b;

    pub const INT40: u8 = 0x2c;

    pub const INT48: u8 = 0x2d;

    pub const INT56: u8 = 0x2e;

    pub const INT64: u8 = 0x2f;

    pub const ENUM8: u8 = 0x30;

    pub const ENUM16: u8 = 0x31;

    pub const SEMI_PRECISION: u8 = 0x38;

    pub const SINGLE_PRECISION: u8 = 0x39;

    pub const DOUBLE_PRECISION: u8 = 0x3a;

    pub const OCTET_STRING: u8 = 0x41;

    pub const CHARACTER_STRING: u8 = 0x42;

    pub const LONG_OCTET_STRING: u8 = 0x43;

    pub const LONG_CHARACTER_STRING: u8 = 0x44;

    pub const ARRAY: u8 = 0x48;

    pub const STRUCTURE: u8 = 0x4c;

    pub const SET: u8 = 0x50;

    pub const BAG: u8 = 0x51;

    pub const TIME_OF_DAY: u8 = 0xe0;

    pub const DATE: u8 = 0xe1;

    pub const UTC_TIME: u8 = 0xe2;

    pub const CLUSTER_ID: u8 = 0xe8;

    pub const ATTRIBUTE_ID: u8 = 0xe9;

    pub const BACNET_OID: u8 = 0xea;

    pub const IEEE_ADDRESS: u8 = 0xf0;

    pub const SECURITY_KEY: u8 = 0xf1;

    // How many bytes every value has; none where values differ in size or the type is unknown. The widths of the four families are counted;
    // boolean and the enumerations come next behind two of them, and have what the count gives there. That leaves so few codes to name
    // that the compiler inlines this; were only the families counted, or every code named, it would make a call of it for each attribute
    // of a store. There are two tests, the commoner types' first, as it would make both of every code were they joined by ||.
    pub fn fixed_size(self) -> Option<usize>
        ensures { result ≡ size_of self.0 }
    {
        let code = self.0;
        if among(TypeId::BITMAP8, TypeId::ENUM16, code) {
            return Some(counted_width(code));
        }
        if among(TypeId::DATA8, TypeId::BOOLEAN, code) {
            return Some(counted_width(code));
        }
        match code {
            TypeId::NO_DATA => Some(0),
            TypeId::SEMI_PRECISION | TypeId::CLUSTER_ID | TypeId::ATTRIBUTE_ID => Some(2),
            TypeId::SINGLE_PRECISION
            | TypeId::TIME_OF_DAY
            | TypeId::DATE
            | TypeId::UTC_TIME
            | TypeId::BACNET_OID => Some(4),
            TypeId::DOUBLE_PRECISION | TypeId::IEEE_ADDRESS => Some(8),
            TypeId::SECURITY_KEY => Some(16),
            _ => None,
        }
    }

    // The shape of every value.
    pub fn shape(self) -> Shape
        ensures { result ≡ shape_of self.0 }
    {
        if let Some(w) = self.fixed_size() {
            return Shape::Fixed(w);
        }
        let code = self.0;
        match code {
            TypeId::OCTET_STRING | TypeId::CHARACTER_STRING => Shape::Text,
            TypeId::LONG_OCTET_STRING | TypeId::LONG_CHARACTER_STRING => Shape::LongText,
            TypeId::ARRAY | TypeId::SET | TypeId::BAG => Shape::Series,
            TypeId::STRUCTURE => Shape::Structure,
            _ => Shape::Unknown,
        }
    }

    // Whether a reporting configuration carries a change: integers, floating point and time types (2.5.7.1.7).
    pub fn is_analog(self) -> bool
        ensures { result ≡ is_analog self.0 }
    {
        if among(TypeId::UINT8, TypeId::UINT64, self.0) {
            return true;
        }
        if self.is_signed() {
            return true;
        }
        if self.is_float() {
            return true;
        }
        among(TypeId::TIME_OF_DAY, TypeId::UTC_TIME, self.0)
    }

    // Array, structure, set and bag cannot be reported (2.5.7.3).
    pub fn is_reportable_type(self) -> bool
        ensures { result ≡ is_reportable self.0 }
    {
        let code = self.0;
        match code {
            TypeId::ARRAY | TypeId::STRUCTURE | TypeId::SET | TypeId::BAG => false,
            _ => true,
        }
    }

    // The Int types, whose numbers carry a sign.
    pub fn is_signed(self) -> bool
        ensures { result ≡ is_signed self.0 }
    {
        among(TypeId::INT8, TypeId::INT64, self.0)
    }

    // Semi, single and double precision.
    pub fn is_float(self) -> bool
        ensures { result ≡ is_float self.0 }
    {
        among(TypeId::SEMI_PRECISION, TypeId::DOUBLE_PRECISION, self.0)
    }
}
