// The row of each kind of value. (Each gives its own: the numbers, their order and the marks before them are what C sees.)
ghost use Rattle.std.specs.Prelude.{◌≡◌, cond};
ghost use Rattle.rows.specs.Values.{bound, constant, description, pair, place, reference, size, text_check};
ghost use Rattle.typelib.specs.Told.{told_hreftype_as};

use crate::row::{LaidWithin, Longs, Row};
use records::answer::{Place, Refusal, Refuses};
use records::arraydesc::SafeArrayBound;
use records::field::Record;
use records::types::{ConstValue, TypeDescription};
use typelib::TypeInfoIndex;
use typelib::descriptors::WordPair;
use typelib::references::ResolvedHreftype;
use utf8::TextCheck;

// A truth, as a reply and a row have it.
pub fn bit(b: bool) -> u8
    ensures { result ≡ cond b 1 0 }
{
    b as u8
}

impl LaidWithin for Place {
    type FileRefusal = Refusal;

    ghost bytes = { place };

    fn row_within(self) -> Row {
        Row::Plain(Longs::Two(self.at as u64, self.len as u64))
    }
}

impl LaidWithin for usize {
    type FileRefusal = Refusal;

    ghost bytes = { size };

    fn row_within(self) -> Row {
        Row::Plain(Longs::One(self as u64))
    }
}

impl LaidWithin for TypeInfoIndex {
    type FileRefusal = Refusal;

    ghost bytes = { λ i. size i.0 };

    fn row_within(self) -> Row {
        self.0.row_within()
    }
}

impl LaidWithin for TextCheck {
    type FileRefusal = Refusal;

    ghost bytes = { text_check };

    fn row_within(self) -> Row {
        Row::Marked(bit(self.valid), Longs::One(self.looked as u64))
    }
}

impl LaidWithin for SafeArrayBound {
    type FileRefusal = Refusal;

    ghost bytes = { bound };

    fn row_within(self) -> Row {
        Row::Words(self.elements, self.lower.cast_unsigned())
    }
}

impl LaidWithin for WordPair {
    type FileRefusal = Refusal;

    ghost bytes = { pair };

    fn row_within(self) -> Row {
        Row::Words(self.first, self.second)
    }
}

impl LaidWithin for ConstValue {
    type FileRefusal = Refusal;

    ghost bytes = { constant };

    fn row_within(self) -> Row {
        Row::Constant(self)
    }
}

impl LaidWithin for TypeDescription {
    type FileRefusal = Refusal;

    ghost bytes = { description };

    fn row_within(self) -> Row {
        match self {
            TypeDescription::Base(code) => Row::Half(1, code),
            TypeDescription::Pointer(x) => Row::Word(2, x.cast_unsigned()),
            TypeDescription::SafeArray(x) => Row::Word(3, x.cast_unsigned()),
            TypeDescription::UserDefined(x) => Row::Word(5, x.cast_unsigned()),
            TypeDescription::CArray(array) => {
                Row::Marked(4, Longs::Two(array.at as u64, array.len as u64))
            }
        }
    }
}

impl<F: Refuses> LaidWithin for ResolvedHreftype<F> {
    type FileRefusal = F;

    ghost bytes = { λ x. reference (told_hreftype_as F.number x) };

    fn row_within(self) -> Row<F> {
        match self {
            ResolvedHreftype::Internal(index) => Row::Marked(1, Longs::One(index.0 as u64)),
            ResolvedHreftype::External(info, file) => Row::Import(info.place(), file),
        }
    }
}
