// Kinds of types, descriptions of types and constants (types.rs of the source). The words for kinds and the names of
// type codes are in `texts`.
ghost use Rattle.std.specs.Prelude.{◌≡◌};
ghost use Rattle.records.specs.Types.{kind_of, vt_of};

use crate::answer::Place;
use crate::arraydesc::ArrayDesc;

// The kind of a type: TYPEKIND of OLE Automation.
#[derive(Clone, Copy)]
pub enum TypeKind {
    Enum,
    Record,
    Module,
    Interface,
    Dispatch,
    CoClass,
    Alias,
    Union,
    Unknown(u8),
}

// The kinds 0 to 7.
const KINDS: [TypeKind; 8] = [
    TypeKind::Enum,
    TypeKind::Record,
    TypeKind::Module,
    TypeKind::Interface,
    TypeKind::Dispatch,
    TypeKind::CoClass,
    TypeKind::Alias,
    TypeKind::Union,
];

impl TypeKind {
    // A number that TYPEKIND has not is kept.
    // (No `TryFrom`: no number is refused. By index, as `get` would be no plainer.)
    pub fn from_raw(raw: u8) -> TypeKind
        ensures { result ≡ kind_of raw }
    {
        if raw < 8 {
            KINDS[raw as usize]
        } else {
            TypeKind::Unknown(raw)
        }
    }
}

// What a type field names, one level of it.
#[derive(Clone, Copy)]
pub enum TypeDescription {
    // The VARTYPE code of a base type.
    Base(u16),
    // The type field of what it points to.
    Pointer(i32),
    // The type field of the elements.
    SafeArray(i32),
    // An hreftype.
    UserDefined(i32),
    CArray(ArrayDesc),
}

// A constant, by the code of its type.
// (A case each and no enum within, though R4, R8, Date and Bstr have two: each is told by its VARTYPE code and its value at once.)
#[derive(Clone, Copy)]
pub enum ConstValue {
    Empty,
    Null,
    I2(i16),
    I4(i32),
    R4(f32),
    // The bits of a NaN, here and for R8 and Date: the language makes a float of a bit pattern only
    // where the pattern is no NaN's.
    R4Nan(u32),
    R8(f64),
    R8Nan(u64),
    // A currency, scaled by 10,000.
    Cy(i64),
    Date(f64),
    DateNan(u64),
    // Where the bytes of the text stand.
    Bstr(Place),
    // A text that is stored with the length -1.
    NullBstr,
    Error(i32),
    Bool(bool),
    I1(i8),
    UI1(u8),
    UI2(u16),
    UI4(u32),
    I8(i64),
    UI8(u64),
    Int(i32),
    UInt(u32),
    Void,
    Hresult(i32),
    // Where its 16 bytes stand.
    Decimal(Place),
    Filetime(u64),
    // A code that has no case of its own, and the first four bytes of its value.
    Raw { vt: u16, bits: i32 },
}

impl ConstValue {
    // The VARTYPE code.
    #[tactic(auto, unfolding(crate::specs::Types::vt_of))]
    pub fn vt(self) -> u16
        ensures { result ≡ vt_of self }
    {
        match self {
            ConstValue::Empty => 0,
            ConstValue::Null => 1,
            ConstValue::I2(_) => 2,
            ConstValue::I4(_) => 3,
            ConstValue::R4(_) => 4,
            ConstValue::R4Nan(_) => 4,
            ConstValue::R8(_) => 5,
            ConstValue::R8Nan(_) => 5,
            ConstValue::Cy(_) => 6,
            ConstValue::Date(_) => 7,
            ConstValue::DateNan(_) => 7,
            ConstValue::Bstr(_) => 8,
            ConstValue::NullBstr => 8,
            ConstValue::Error(_) => 10,
            ConstValue::Bool(_) => 11,
            ConstValue::Decimal(_) => 14,
            ConstValue::I1(_) => 16,
            ConstValue::UI1(_) => 17,
            ConstValue::UI2(_) => 18,
            ConstValue::UI4(_) => 19,
            ConstValue::I8(_) => 20,
            ConstValue::UI8(_) => 21,
            ConstValue::Int(_) => 22,
            ConstValue::UInt(_) => 23,
            ConstValue::Void => 24,
            ConstValue::Hresult(_) => 25,
            ConstValue::Filetime(_) => 64,
            ConstValue::Raw { vt, bits: _ } => vt,
        }
    }
}
