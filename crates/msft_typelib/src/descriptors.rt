// Descriptions of types, references and constants.
ghost use Rattle.describe.specs.References.{misplaced_offset};
ghost use Rattle.replies.specs.Call.{laid, outcome, reply};
ghost use Rattle.msft_typelib.specs.Rows.{array_desc_row, constant_row, href_index_row, href_row, imp_file_row, type_desc_row, type_description_row};
ghost use Rattle.std.specs.Prelude.{◌≡◌};
ghost use Rattle.std.specs.Int.{w32};
ghost use Rattle.std.proofs.Common.{of_z};

use replies::reply;
use sheet_trees::references;
use typelib::TypeLib;

// The type descriptor at an offset: its code, and what the code asks for.
#[unsafe(no_mangle)]
pub extern "C" fn msft_type_desc(s: &[u8], offset: i32, out: &mut [u8]) -> i64
    ensures { outcome result out.new ≡ laid (type_desc_row s.now (of_z w32 offset)) out.old }
{
    reply::lay(
        rows::of_within(TypeLib::parse(s).and_then(|lib| lib.type_desc(s, offset))),
        out,
    )
}

// The array descriptor at an offset, with its bounds.
#[unsafe(no_mangle)]
pub extern "C" fn msft_array_desc(s: &[u8], offset: i32, out: &mut [u8]) -> i64
    ensures { outcome result out.new ≡ laid (array_desc_row s.now (of_z w32 offset)) out.old }
{
    reply::lay(
        rows::of_record(TypeLib::parse(s).and_then(|lib| lib.array_desc(s, offset))),
        out,
    )
}

// What a type field names, one level of it.
#[unsafe(no_mangle)]
pub extern "C" fn msft_type_description(s: &[u8], datatype: i32, out: &mut [u8]) -> i64
    ensures { outcome result out.new ≡ laid (type_description_row s.now (of_z w32 datatype)) out.old }
{
    reply::lay(
        rows::of_within(TypeLib::parse(s).and_then(|lib| lib.type_description(s, datatype))),
        out,
    )
}

// The import file at an offset of its table.
#[unsafe(no_mangle)]
pub extern "C" fn msft_imp_file(s: &[u8], offset: i32, out: &mut [u8]) -> i64
    ensures { outcome result out.new ≡ laid (imp_file_row s.now (of_z w32 offset)) out.old }
{
    reply::lay(
        rows::of_record(TypeLib::parse(s).and_then(|lib| lib.imp_file(s, offset))),
        out,
    )
}

// The index of the typeinfo that an internal hreftype refers to.
#[unsafe(no_mangle)]
pub extern "C" fn msft_resolve_hreftype(s: &[u8], hreftype: i32, out: &mut [u8]) -> i64
    ensures { outcome result out.new ≡ laid (href_index_row s.now (of_z w32 hreftype)) out.old }
{
    reply::lay(
        rows::of_within(TypeLib::parse(s).and_then(|lib| lib.resolve_hreftype(hreftype))),
        out,
    )
}

// What an hreftype refers to, in this library or another.
#[unsafe(no_mangle)]
pub extern "C" fn msft_resolve_hreftype_full(s: &[u8], hreftype: i32, out: &mut [u8]) -> i64
    ensures { outcome result out.new ≡ laid (href_row s.now (of_z w32 hreftype)) out.old }
{
    reply::lay(
        rows::of_within(TypeLib::parse(s).and_then(|lib| lib.resolve_hreftype_full(s, hreftype))),
        out,
    )
}

// The offset of a reference that hits no typeinfo. It takes no library.
#[unsafe(no_mangle)]
pub extern "C" fn msft_misplaced_offset(hreftype: i32) -> i64
    ensures { result ≡ reply (misplaced_offset (of_z w32 hreftype)) }
{
    reply::of_told(references::misplaced_offset(hreftype))
}

// The constant that a record's word gives: inline where the word is negative, else at that offset
// of the table.
#[unsafe(no_mangle)]
pub extern "C" fn msft_const_value(s: &[u8], word: i32, out: &mut [u8]) -> i64
    ensures { outcome result out.new ≡ laid (constant_row s.now (of_z w32 word)) out.old }
{
    reply::lay(
        rows::of_within(TypeLib::parse(s).and_then(|lib| constants::const_value(lib, s, word))),
        out,
    )
}
