// Type descriptors and array descriptors, by their offset in a table. What stands outside `impl TypeLib` serves this crate and those
// above it. (A reading of `TypeLib` lends its numbers, and is one call.)
ghost use Rattle.std.specs.Prelude.{◌≡◌, ◌<◌};
ghost use Rattle.std.specs.Int.{w32};
ghost use Rattle.std.proofs.Common.{of_z};
ghost use Rattle.typelib.specs.Descriptors.{type_desc_at, array_desc_at, description_of, type_description};
ghost use Rattle.typelib.specs.Header.{library};
ghost use Rattle.typelib.specs.Tables.{lent};
ghost use Rattle.records.specs.Told.{told};
ghost use Rattle.typelib.specs.Told.{told_array_desc};

use crate::{Numbers, TypeLib, tables};
use records::answer::Refusal;
use records::arraydesc::ArrayDesc;
use records::field::LIMIT;
use records::types::TypeDescription;
use util::NEGATIVE;

// (A table is the number of its segment: see `tables::segment`.)
const TYPE_TABLE: usize = 9;

const ARRAY_TABLE: usize = 10;

// The two words of a type descriptor, each the 32-bit pattern of a signed number.
#[derive(Clone, Copy)]
pub struct WordPair {
    pub first: u32,
    pub second: u32,
}

impl TypeLib {
    // The type descriptor at an offset: its code, and what the code asks for.
    pub fn type_desc(self, s: &[u8], offset: i32) -> Result<WordPair, Refusal>
        ensures { told result ≡ type_desc_at s.now self (of_z w32 offset) }
    {
        type_desc_at(&self.numbers, s, offset.cast_unsigned())
    }

    // The array descriptor at an offset, with its bounds.
    pub fn array_desc(self, s: &[u8], offset: i32) -> Result<ArrayDesc, Refusal>
        ensures { told_array_desc result ≡ array_desc_at s.now self (of_z w32 offset) }
    {
        array_desc_at(&self.numbers, s, offset.cast_unsigned())
    }

    // What a type field names, one level of it.
    pub fn type_description(self, s: &[u8], datatype: i32) -> Result<TypeDescription, Refusal>
        ensures { told result ≡ lent s.now (type_description s.now self (of_z w32 datatype)) }
    {
        type_description_at(&self.numbers, s, datatype.cast_unsigned())
    }
}

// `type_desc` by the 32-bit pattern of its offset, the library's numbers lent.
pub fn type_desc_at(lib: &Numbers, s: &[u8], offset: u32) -> Result<WordPair, Refusal>
    ensures { told result ≡ type_desc_at s.now (library lib.now) offset }
{
    let place = tables::table_place(lib, s, TYPE_TABLE, offset, 8)?;
    let first = util::or_zero(s, place.at);
    let second = util::or_zero(s, place.at + 4);
    Ok(WordPair { first, second })
}

// `array_desc` by the 32-bit pattern of its offset, the library's numbers lent. (Here and in the other files a record is made of a place field by
// field: a conversion for each of the types of records has more lines than it saves.)
pub fn array_desc_at(lib: &Numbers, s: &[u8], offset: u32) -> Result<ArrayDesc, Refusal>
    ensures { told_array_desc result ≡ array_desc_at s.now (library lib.now) offset }
{
    let head = tables::table_place(lib, s, ARRAY_TABLE, offset, 8)?;
    let dimensions = util::or_zero::<u16>(s, head.at + 4) as usize;
    let place = tables::table_place(lib, s, ARRAY_TABLE, offset, 8 + 8 * dimensions)?;
    Ok(ArrayDesc {
        at: place.at,
        len: place.len,
    })
}

#[tactic(auto, unfolding(crate::specs::Tables::lent, crate::specs::Descriptors::type_description))]
fn type_description_at(lib: &Numbers, s: &[u8], field: u32) -> Result<TypeDescription, Refusal>
    ensures { told result ≡ lent s.now (type_description s.now (library lib.now) field) }
{
    if LIMIT < s.len() {
        return Err(Refusal::OverLong);
    }
    if NEGATIVE <= field {
        let code = util::bits(field, 0, 12) as u16;
        return Ok(TypeDescription::Base(code));
    }
    let words = type_desc_at(lib, s, field)?;
    let code = util::bits(words.first, 0, 12);
    description_of(lib, s, code, words.second)
}

// By the code of an entry and its second word.
// (A code is any number of the file: those that mean something have an arm.)
#[tactic(auto, unfolding(crate::specs::Descriptors::description_of))]
fn description_of(
    lib: &Numbers,
    s: &[u8],
    code: u32,
    second: u32,
) -> Result<TypeDescription, Refusal>
    requires { code < 4096 }
    ensures { told result ≡ description_of s.now (library lib.now) code second }
{
    match code {
        26 => Ok(TypeDescription::Pointer(second.cast_signed())),
        27 => Ok(TypeDescription::SafeArray(second.cast_signed())),
        28 => {
            let array = array_desc_at(lib, s, util::bits(second, 0, 16))?;
            Ok(TypeDescription::CArray(array))
        },
        29 => Ok(TypeDescription::UserDefined(second.cast_signed())),
        _ => Ok(TypeDescription::Base(code as u16)),
    }
}
