// Cursors: each goes in as its numbers, and comes back as bytes.
ghost use Rattle.replies.specs.At.{chain_at, func_at, funcs_at, guids_at, imp_files_at, imports_at, names_at, params_at, typeinfo_at, typeinfos_at, vars_at};
ghost use Rattle.replies.specs.Call.{laid, outcome};
ghost use Rattle.rows.specs.Values.{chain_step, cursor, entry_step, func_numbers, guid_numbers, import_numbers, param_numbers, size, step, var_numbers};
ghost use Rattle.records.specs.Answer.{map};
ghost use Rattle.impltypes.specs.Chain.{impl_type_step, walk_of};
ghost use Rattle.cursors.specs.Cursors.{funcs_of, params_of, vars_of};
ghost use Rattle.table_cursors.specs.Cursors.{guid_step, import_step, name_step};
ghost use Rattle.msft_typelib.specs.Rows.{func_step_row, guids_row, imp_file_step_row, imp_files_row, impl_types_row, imports_row, names_row, param_step_row, typeinfo_step_row, typeinfos_row, types_left_row, var_step_row};
ghost use Rattle.std.specs.Prelude.{◌≡◌};

use cursors::iterators;
use cursors::iterators::{FuncCursor, ParamCursor, VarCursor};
use impltypes::ImplTypeCursor;
use member_records::func::FuncRecord;
use records::answer::Place;
use records::typeinfo::TypeInfoEntry;
use replies::reply;
use table_cursors::iterators::{
    GuidCursor, ImpFileCursor, ImportCursor, NameCursor, TypeInfoCursor,
};
use typelib::{TypeInfoIndex, TypeLib};

// The function records of a typeinfo.
#[unsafe(no_mangle)]
pub extern "C" fn msft_funcs(s: &[u8], at: usize, len: usize, out: &mut [u8]) -> i64
    ensures { outcome result out.new ≡ laid (map (cursor func_numbers) (funcs_of s.now (typeinfo_at at len))) out.old }
{
    reply::lay(
        rows::of_cursor(iterators::funcs(s, TypeInfoEntry { at, len })),
        out,
    )
}

// The variable records of a typeinfo, behind its function records.
#[unsafe(no_mangle)]
pub extern "C" fn msft_vars(s: &[u8], at: usize, len: usize, out: &mut [u8]) -> i64
    ensures { outcome result out.new ≡ laid (map (cursor var_numbers) (vars_of s.now (typeinfo_at at len))) out.old }
{
    reply::lay(
        rows::of_cursor(iterators::vars(s, TypeInfoEntry { at, len })),
        out,
    )
}

// The parameters of a function, at the end of its record.
#[unsafe(no_mangle)]
pub extern "C" fn msft_params(s: &[u8], at: usize, len: usize, out: &mut [u8]) -> i64
    ensures { outcome result out.new ≡ laid (map (cursor param_numbers) (params_of s.now (func_at at len))) out.old }
{
    reply::lay(
        rows::of_cursor(iterators::params(s, FuncRecord { at, len })),
        out,
    )
}

// The entries of the GUID table.
#[unsafe(no_mangle)]
pub extern "C" fn msft_guids(s: &[u8], out: &mut [u8]) -> i64
    ensures { outcome result out.new ≡ laid (guids_row s.now) out.old }
{
    reply::lay(
        rows::of_cursor(TypeLib::parse(s).and_then(|lib| table_cursors::iterators::guids(lib, s))),
        out,
    )
}

// The import records.
#[unsafe(no_mangle)]
pub extern "C" fn msft_imports(s: &[u8], out: &mut [u8]) -> i64
    ensures { outcome result out.new ≡ laid (imports_row s.now) out.old }
{
    reply::lay(
        rows::of_cursor(TypeLib::parse(s).and_then(|lib| table_cursors::iterators::imports(
            lib, s,
        ))),
        out,
    )
}

// The import files.
#[unsafe(no_mangle)]
pub extern "C" fn msft_imp_files(s: &[u8], out: &mut [u8]) -> i64
    ensures { outcome result out.new ≡ laid (imp_files_row s.now) out.old }
{
    reply::lay(
        rows::of_cursor(TypeLib::parse(s).and_then(|lib| table_cursors::iterators::imp_files(
            lib, s,
        ))),
        out,
    )
}

// The entries of the name table.
#[unsafe(no_mangle)]
pub extern "C" fn msft_names(s: &[u8], out: &mut [u8]) -> i64
    ensures { outcome result out.new ≡ laid (names_row s.now) out.old }
{
    reply::lay(
        rows::of_cursor(TypeLib::parse(s).and_then(|lib| table_cursors::iterators::names(lib, s))),
        out,
    )
}

// The cursor over the types that `ti` implements, at the first.
#[unsafe(no_mangle)]
pub extern "C" fn msft_impl_types(s: &[u8], at: usize, len: usize, out: &mut [u8]) -> i64
    ensures { outcome result out.new ≡ laid (impl_types_row s.now (typeinfo_at at len)) out.old }
{
    reply::lay(
        rows::of_within(TypeLib::parse(s).and_then(|lib| impltypes::impl_types(
            lib,
            s,
            TypeInfoEntry { at, len },
        ))),
        out,
    )
}

#[unsafe(no_mangle)]
pub extern "C" fn msft_func_step(
    s: &[u8],
    pos: usize,
    end: usize,
    remaining: usize,
    yielded: u64,
    out: &mut [u8],
) -> i64
    ensures { outcome result out.new ≡ laid (func_step_row s.now (funcs_at pos end remaining yielded)) out.old }
{
    reply::lay(
        rows::steps::of_step(FuncCursor {
            pos,
            end,
            remaining,
            yielded,
        }
        .step(s)),
        out,
    )
}

#[unsafe(no_mangle)]
pub extern "C" fn msft_var_step(
    s: &[u8],
    pos: usize,
    end: usize,
    remaining: usize,
    yielded: u64,
    out: &mut [u8],
) -> i64
    ensures { outcome result out.new ≡ laid (var_step_row s.now (vars_at pos end remaining yielded)) out.old }
{
    reply::lay(
        rows::steps::of_step(VarCursor {
            pos,
            end,
            remaining,
            yielded,
        }
        .step(s)),
        out,
    )
}

#[unsafe(no_mangle)]
pub extern "C" fn msft_param_step(
    s: &[u8],
    pos: usize,
    end: usize,
    remaining: usize,
    yielded: u64,
    out: &mut [u8],
) -> i64
    ensures { outcome result out.new ≡ laid (param_step_row s.now (params_at pos end remaining yielded)) out.old }
{
    reply::lay(
        rows::steps::of_step(ParamCursor {
            pos,
            end,
            remaining,
            yielded,
        }
        .step(s)),
        out,
    )
}

#[unsafe(no_mangle)]
pub extern "C" fn msft_guid_step(
    s: &[u8],
    pos: usize,
    end: usize,
    yielded: u64,
    out: &mut [u8],
) -> i64
    ensures { outcome result out.new ≡ laid (step guid_numbers (guid_step s.now (guids_at pos end yielded))) out.old }
{
    reply::lay(
        rows::steps::of_step(GuidCursor { pos, end, yielded }.step(s)),
        out,
    )
}

#[unsafe(no_mangle)]
pub extern "C" fn msft_import_step(
    s: &[u8],
    pos: usize,
    end: usize,
    yielded: u64,
    out: &mut [u8],
) -> i64
    ensures { outcome result out.new ≡ laid (step import_numbers (import_step s.now (imports_at pos end yielded))) out.old }
{
    reply::lay(
        rows::steps::of_step(ImportCursor { pos, end, yielded }.step(s)),
        out,
    )
}

#[unsafe(no_mangle)]
pub extern "C" fn msft_imp_file_step(
    s: &[u8],
    pos: usize,
    end: usize,
    yielded: u64,
    out: &mut [u8],
) -> i64
    ensures { outcome result out.new ≡ laid (imp_file_step_row s.now (imp_files_at pos end yielded)) out.old }
{
    reply::lay(
        rows::steps::of_step(ImpFileCursor { pos, end, yielded }.step(s)),
        out,
    )
}

#[unsafe(no_mangle)]
pub extern "C" fn msft_name_step(
    s: &[u8],
    pos: usize,
    end: usize,
    start: usize,
    yielded: u64,
    out: &mut [u8],
) -> i64
    ensures { outcome result out.new ≡ laid (entry_step (name_step s.now (names_at pos end start yielded))) out.old }
{
    reply::lay(
        rows::steps::of_name_step(NameCursor {
            pos,
            end,
            start,
            yielded,
        }
        .step(s)),
        out,
    )
}

#[unsafe(no_mangle)]
pub extern "C" fn msft_typeinfo_step(s: &[u8], index: usize, out: &mut [u8]) -> i64
    ensures { outcome result out.new ≡ laid (typeinfo_step_row s.now (typeinfos_at index)) out.old }
{
    reply::lay(
        TypeLib::parse(s).and_then(|lib| rows::steps::of_step(typeinfos_from(index).step(s, lib))),
        out,
    )
}

#[unsafe(no_mangle)]
pub extern "C" fn msft_impl_type_step(
    s: &[u8],
    at: usize,
    len: usize,
    next: u32,
    yielded: u64,
    out: &mut [u8],
) -> i64
    ensures { outcome result out.new ≡ laid (chain_step (impl_type_step s.now (chain_at at len next yielded))) out.old }
{
    reply::lay(
        rows::steps::of_impl_type_step(ImplTypeCursor {
            table: Place { at, len },
            next,
            yielded,
        }
        .step(s)),
        out,
    )
}

#[unsafe(no_mangle)]
pub extern "C" fn msft_walk(
    s: &[u8],
    at: usize,
    len: usize,
    next: u32,
    yielded: u64,
    out: &mut [u8],
) -> i64
    ensures { outcome result out.new ≡ laid (map size (walk_of s.now (chain_at at len next yielded))) out.old }
{
    reply::lay(
        rows::of_within(ImplTypeCursor {
            table: Place { at, len },
            next,
            yielded,
        }
        .walk(s)),
        out,
    )
}

// The typeinfos of the library, from the first.
#[unsafe(no_mangle)]
pub extern "C" fn msft_typeinfos(s: &[u8], out: &mut [u8]) -> i64
    ensures { outcome result out.new ≡ laid (typeinfos_row s.now) out.old }
{
    reply::lay(
        rows::of_cursor(TypeLib::parse(s).and_then(|_| table_cursors::iterators::typeinfos(s))),
        out,
    )
}

// How many typeinfos are left. (Of the other cursors that is the number `remaining`.)
#[unsafe(no_mangle)]
pub extern "C" fn msft_typeinfo_size_hint(s: &[u8], index: usize, out: &mut [u8]) -> i64
    ensures { outcome result out.new ≡ laid (types_left_row s.now index) out.old }
{
    reply::lay(
        rows::of_within(TypeLib::parse(s).map(|lib| typeinfos_from(index).size_hint(lib))),
        out,
    )
}

// The cursor over typeinfos at an index.
fn typeinfos_from(index: usize) -> TypeInfoCursor
    ensures { result ≡ typeinfos_at index }
{
    let index = TypeInfoIndex(index);
    TypeInfoCursor { index }
}
