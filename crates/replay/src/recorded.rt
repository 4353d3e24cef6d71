// The recorded bytes of a value: a number at its own width with the lowest byte first, or two values one
// behind the other.
use member_records::func::FuncRecord;
use member_records::param::ParameterInfo;
use member_records::var::VarRecord;
use records::answer::Place;
use records::arraydesc::{ArrayDesc, SafeArrayBound};
use records::field::Record;
use records::guid::Guid;
use records::guidentry::GuidEntry;
use records::impfile::ImpFile;
use records::impinfo::ImpInfo;
use records::refrecord::RefRecord;
use records::typeinfo::TypeInfoEntry;
use records::types::TypeKind;
use typelib::descriptors::WordPair;
use typelib::typeinfos::Counts;
use typelib::{TypeInfoIndex, TypeInfoOffset};
use utf8::TextCheck;
use util::Real;

// A value that is recorded.
pub(crate) trait Recorded: Copy {
    // Whether the bytes begin with the value.
    fn begins(self, recorded: &[u8]) -> bool;

    // What stands behind a value; nothing where its bytes do not all stand there.
    fn behind(recorded: &[u8]) -> &[u8];
}

// The bytes from `from` on; none where there are fewer.
pub(crate) fn rest_from(recorded: &[u8], from: usize) -> &[u8] {
    recorded.get(from..).unwrap_or(&[])
}

impl Recorded for u8 {
    fn begins(self, recorded: &[u8]) -> bool {
        recorded.starts_with(&self.to_le_bytes())
    }

    fn behind(recorded: &[u8]) -> &[u8] {
        rest_from(recorded, 1)
    }
}

impl Recorded for i8 {
    fn begins(self, recorded: &[u8]) -> bool {
        recorded.starts_with(&self.to_le_bytes())
    }

    fn behind(recorded: &[u8]) -> &[u8] {
        rest_from(recorded, 1)
    }
}

impl Recorded for u16 {
    fn begins(self, recorded: &[u8]) -> bool {
        recorded.starts_with(&self.to_le_bytes())
    }

    fn behind(recorded: &[u8]) -> &[u8] {
        rest_from(recorded, 2)
    }
}

impl Recorded for i16 {
    fn begins(self, recorded: &[u8]) -> bool {
        recorded.starts_with(&self.to_le_bytes())
    }

    fn behind(recorded: &[u8]) -> &[u8] {
        rest_from(recorded, 2)
    }
}

impl Recorded for u32 {
    fn begins(self, recorded: &[u8]) -> bool {
        recorded.starts_with(&self.to_le_bytes())
    }

    fn behind(recorded: &[u8]) -> &[u8] {
        rest_from(recorded, 4)
    }
}

impl Recorded for i32 {
    fn begins(self, recorded: &[u8]) -> bool {
        recorded.starts_with(&self.to_le_bytes())
    }

    fn behind(recorded: &[u8]) -> &[u8] {
        rest_from(recorded, 4)
    }
}

impl Recorded for u64 {
    fn begins(self, recorded: &[u8]) -> bool {
        recorded.starts_with(&self.to_le_bytes())
    }

    fn behind(recorded: &[u8]) -> &[u8] {
        rest_from(recorded, 8)
    }
}

impl Recorded for i64 {
    fn begins(self, recorded: &[u8]) -> bool {
        recorded.starts_with(&self.to_le_bytes())
    }

    fn behind(recorded: &[u8]) -> &[u8] {
        rest_from(recorded, 8)
    }
}

impl Recorded for usize {
    fn begins(self, recorded: &[u8]) -> bool {
        recorded.starts_with(&self.to_le_bytes())
    }

    fn behind(recorded: &[u8]) -> &[u8] {
        rest_from(recorded, 8)
    }
}

// Floats are the same if they are equal and so are their inverses, which tell one zero from the other.
// None is a NaN: of that the bits are answered. (They are compared as floats: of the bits of a float
// nothing is proved.)
impl Recorded for f32 {
    fn begins(self, recorded: &[u8]) -> bool {
        match util::read_float::<u32>(recorded, 0) {
            Some(Real::Number(x)) => self == x && 1.0 / self == 1.0 / x,
            _ => false,
        }
    }

    fn behind(recorded: &[u8]) -> &[u8] {
        u32::behind(recorded)
    }
}

impl Recorded for f64 {
    fn begins(self, recorded: &[u8]) -> bool {
        match util::read_float::<u64>(recorded, 0) {
            Some(Real::Number(x)) => self == x && 1.0 / self == 1.0 / x,
            _ => false,
        }
    }

    fn behind(recorded: &[u8]) -> &[u8] {
        u64::behind(recorded)
    }
}

// No value, where only that there is one is recorded.
impl Recorded for () {
    fn begins(self, _recorded: &[u8]) -> bool {
        true
    }

    fn behind(recorded: &[u8]) -> &[u8] {
        recorded
    }
}

impl<A: Recorded, B: Recorded> Recorded for (A, B) {
    fn begins(self, recorded: &[u8]) -> bool {
        self.0.begins(recorded) && self.1.begins(A::behind(recorded))
    }

    fn behind(recorded: &[u8]) -> &[u8] {
        B::behind(A::behind(recorded))
    }
}

// What is recorded as a value of another type. (An implementation for each type, written out, as for the numbers above: they share no trait of the library.)
impl Recorded for bool {
    fn begins(self, recorded: &[u8]) -> bool {
        u8::from(self).begins(recorded)
    }

    fn behind(recorded: &[u8]) -> &[u8] {
        u8::behind(recorded)
    }
}

impl Recorded for Place {
    fn begins(self, recorded: &[u8]) -> bool {
        (self.at, self.len).begins(recorded)
    }

    fn behind(recorded: &[u8]) -> &[u8] {
        <(usize, usize)>::behind(recorded)
    }
}

impl Recorded for Guid {
    fn begins(self, recorded: &[u8]) -> bool {
        self.place().begins(recorded)
    }

    fn behind(recorded: &[u8]) -> &[u8] {
        Place::behind(recorded)
    }
}

impl Recorded for GuidEntry {
    fn begins(self, recorded: &[u8]) -> bool {
        self.place().begins(recorded)
    }

    fn behind(recorded: &[u8]) -> &[u8] {
        Place::behind(recorded)
    }
}

impl Recorded for ParameterInfo {
    fn begins(self, recorded: &[u8]) -> bool {
        self.place().begins(recorded)
    }

    fn behind(recorded: &[u8]) -> &[u8] {
        Place::behind(recorded)
    }
}

impl Recorded for RefRecord {
    fn begins(self, recorded: &[u8]) -> bool {
        self.place().begins(recorded)
    }

    fn behind(recorded: &[u8]) -> &[u8] {
        Place::behind(recorded)
    }
}

impl Recorded for ImpInfo {
    fn begins(self, recorded: &[u8]) -> bool {
        self.place().begins(recorded)
    }

    fn behind(recorded: &[u8]) -> &[u8] {
        Place::behind(recorded)
    }
}

impl Recorded for ArrayDesc {
    fn begins(self, recorded: &[u8]) -> bool {
        self.place().begins(recorded)
    }

    fn behind(recorded: &[u8]) -> &[u8] {
        Place::behind(recorded)
    }
}

impl Recorded for ImpFile {
    fn begins(self, recorded: &[u8]) -> bool {
        self.place().begins(recorded)
    }

    fn behind(recorded: &[u8]) -> &[u8] {
        Place::behind(recorded)
    }
}

impl Recorded for TypeInfoEntry {
    fn begins(self, recorded: &[u8]) -> bool {
        self.place().begins(recorded)
    }

    fn behind(recorded: &[u8]) -> &[u8] {
        Place::behind(recorded)
    }
}

impl Recorded for VarRecord {
    fn begins(self, recorded: &[u8]) -> bool {
        self.place().begins(recorded)
    }

    fn behind(recorded: &[u8]) -> &[u8] {
        Place::behind(recorded)
    }
}

impl Recorded for FuncRecord {
    fn begins(self, recorded: &[u8]) -> bool {
        self.place().begins(recorded)
    }

    fn behind(recorded: &[u8]) -> &[u8] {
        Place::behind(recorded)
    }
}

impl Recorded for SafeArrayBound {
    fn begins(self, recorded: &[u8]) -> bool {
        (self.count(), self.lower_bound()).begins(recorded)
    }

    fn behind(recorded: &[u8]) -> &[u8] {
        <(u32, i32)>::behind(recorded)
    }
}

impl Recorded for TextCheck {
    fn begins(self, recorded: &[u8]) -> bool {
        (self.valid, self.looked).begins(recorded)
    }

    fn behind(recorded: &[u8]) -> &[u8] {
        <(bool, usize)>::behind(recorded)
    }
}

impl Recorded for TypeKind {
    fn begins(self, recorded: &[u8]) -> bool {
        kind_number(self).begins(recorded)
    }

    fn behind(recorded: &[u8]) -> &[u8] {
        <(u8, u8)>::behind(recorded)
    }
}

impl Recorded for WordPair {
    fn begins(self, recorded: &[u8]) -> bool {
        (self.first, self.second).begins(recorded)
    }

    fn behind(recorded: &[u8]) -> &[u8] {
        <(u32, u32)>::behind(recorded)
    }
}

impl Recorded for Counts {
    fn begins(self, recorded: &[u8]) -> bool {
        (self.funcs, self.vars).begins(recorded)
    }

    fn behind(recorded: &[u8]) -> &[u8] {
        <(u16, u16)>::behind(recorded)
    }
}

impl Recorded for TypeInfoIndex {
    fn begins(self, recorded: &[u8]) -> bool {
        self.0.begins(recorded)
    }

    fn behind(recorded: &[u8]) -> &[u8] {
        usize::behind(recorded)
    }
}

impl Recorded for TypeInfoOffset {
    fn begins(self, recorded: &[u8]) -> bool {
        self.0.begins(recorded)
    }

    fn behind(recorded: &[u8]) -> &[u8] {
        u32::behind(recorded)
    }
}

// The kind's number, 8 for an unknown one, and then the number that an unknown one holds.
fn kind_number(kind: TypeKind) -> (u8, u8) {
    match kind {
        TypeKind::Enum => (0, 0),
        TypeKind::Record => (1, 0),
        TypeKind::Module => (2, 0),
        TypeKind::Interface => (3, 0),
        TypeKind::Dispatch => (4, 0),
        TypeKind::CoClass => (5, 0),
        TypeKind::Alias => (6, 0),
        TypeKind::Union => (7, 0),
        TypeKind::Unknown(number) => (8, number),
    }
}
