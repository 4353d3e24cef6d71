// Import files, and what an hreftype refers to. What stands outside `impl TypeLib` serves this crate and those above it.
// (A reading of `TypeLib` lends its numbers, and is one call. Contracts tell a record by its place: the name says of which type it is.)
ghost use Rattle.std.specs.Prelude.{◌≡◌};
ghost use Rattle.std.specs.Int.{w32};
ghost use Rattle.std.proofs.Common.{of_z};
ghost use Rattle.typelib.specs.Header.{library, type_count};
ghost use Rattle.typelib.specs.References.{imp_file_at, index_of, internal_index, href_index, import_at, resolved_at, cleared, href_resolved};
ghost use Rattle.typelib.specs.Told.{told_imp_file, told_index, told_resolved};

use crate::{ImportOffset, Numbers, TypeInfoIndex, TypeInfoOffset, TypeLib, tables};
use records::answer::Refusal;
use records::field::LIMIT;
use records::impfile::ImpFile;
use records::impinfo::ImpInfo;
use util::NEGATIVE;

// (A table is the number of its segment: see `tables::segment`.)
const IMPORT_TABLE: usize = 1;

const IMPORT_FILES: usize = 2;

// A typeinfo of this library; or an import record, and the import file that it names. (`F` is what the file is refused with: a `Refusal` in what a
// reading replies.)
#[derive(Clone, Copy)]
pub enum ResolvedHreftype<F = Refusal> {
    Internal(TypeInfoIndex),
    External(ImpInfo, Result<ImpFile, F>),
}

impl TypeLib {
    pub const DISPATCH_HREF_OFFSET: u32 = 0x0100_0000;

    // The import file at an offset of its table.
    pub fn imp_file(self, s: &[u8], offset: i32) -> Result<ImpFile, Refusal>
        ensures { told_imp_file result ≡ imp_file_at s.now self (of_z w32 offset) }
    {
        imp_file_at(&self.numbers, s, offset.cast_unsigned())
    }

    // The index of the typeinfo that an internal hreftype refers to.
    #[tactic(auto, unfolding(crate::specs::References::href_index))]
    pub fn resolve_hreftype(self, hreftype: i32) -> Result<TypeInfoIndex, Refusal>
        ensures { told_index result ≡ href_index self (of_z w32 hreftype) }
    {
        let href = hreftype.cast_unsigned();
        if NEGATIVE <= href {
            return Err(Refusal::NothingThere);
        }
        if util::bits(href, 0, 2) == 0 {
            return internal_index(&self.numbers, TypeInfoOffset(href));
        }
        Err(Refusal::NothingThere)
    }

    // What an hreftype refers to, in this library or another.
    pub fn resolve_hreftype_full(self, s: &[u8], hreftype: i32) -> Result<ResolvedHreftype, Refusal>
        ensures { told_resolved result ≡ href_resolved s.now self (of_z w32 hreftype) }
    {
        resolve_at(&self.numbers, s, hreftype.cast_unsigned())
    }
}

// The import file at the 32-bit pattern of its offset. (It and an import record are made of a place field by field: a conversion for each of the
// types of records has more lines than it saves.)
pub fn imp_file_at(lib: &Numbers, s: &[u8], offset: u32) -> Result<ImpFile, Refusal>
    ensures { told_imp_file result ≡ imp_file_at s.now (library lib.now) offset }
{
    let head = tables::table_place(lib, s, IMPORT_FILES, offset, 14)?;
    let name = (util::or_zero::<u16>(s, head.at + 12) / 4) as usize;
    let place = tables::table_place(lib, s, IMPORT_FILES, offset, (name + 14 + 3) / 4 * 4)?;
    Ok(ImpFile {
        at: place.at,
        len: place.len,
    })
}

// The index of the typeinfo at a byte offset: typeinfos stand every 100 bytes.
pub fn index_of(offset: TypeInfoOffset) -> TypeInfoIndex
    ensures { result.0 ≡ index_of offset.0 }
{
    TypeInfoIndex((offset.0 / 100) as usize)
}

// The same of a typeinfo that the library has.
#[tactic(auto, unfolding(crate::specs::References::internal_index))]
fn internal_index(lib: &Numbers, offset: TypeInfoOffset) -> Result<TypeInfoIndex, Refusal>
    ensures { told_index result ≡ internal_index (type_count (library lib.now)) offset.0 }
{
    let index = index_of(offset);
    if index.0 < tables::count(lib) as usize {
        return Ok(index);
    }
    Err(Refusal::NothingThere)
}

// What the 32-bit pattern of an hreftype refers to.
#[tactic(auto, unfolding(crate::specs::Tables::lent))]
pub fn resolve_at(lib: &Numbers, s: &[u8], href: u32) -> Result<ResolvedHreftype, Refusal>
    ensures { told_resolved result ≡ href_resolved s.now (library lib.now) href }
{
    if LIMIT < s.len() {
        return Err(Refusal::OverLong);
    }
    if NEGATIVE <= href {
        return Err(Refusal::NothingThere);
    }
    resolve_cleared(lib, s, without_dispatch(href))
}

// The same of one that is not negative and has its dispatch bit cleared.
#[tactic(auto, unfolding(crate::specs::References::resolved_at))]
fn resolve_cleared(lib: &Numbers, s: &[u8], href: u32) -> Result<ResolvedHreftype, Refusal>
    ensures { told_resolved result ≡ resolved_at s.now (library lib.now) href }
{
    let low = util::bits(href, 0, 2);
    if low == 0 {
        let index = internal_index(lib, TypeInfoOffset(href))?;
        return Ok(ResolvedHreftype::Internal(index));
    }
    import_at(lib, s, ImportOffset(href - low))
}

fn import_at(lib: &Numbers, s: &[u8], offset: ImportOffset) -> Result<ResolvedHreftype, Refusal>
    ensures { told_resolved result ≡ import_at s.now (library lib.now) offset.0 }
{
    let place = tables::table_place(lib, s, IMPORT_TABLE, offset.0, 12)?;
    let info = ImpInfo {
        at: place.at,
        len: place.len,
    };
    let file = imp_file_at(lib, s, util::or_zero::<u32>(s, place.at + 4));
    Ok(ResolvedHreftype::External(info, file))
}

// The reference with the bit of a dispatch interface cleared. (A bit of a number: `flag` is for a record's.)
pub fn without_dispatch(href: u32) -> u32
    ensures { result ≡ cleared href }
{
    if util::bits(href, 24, 1) == 1 {
        href - TypeLib::DISPATCH_HREF_OFFSET
    } else {
        href
    }
}
