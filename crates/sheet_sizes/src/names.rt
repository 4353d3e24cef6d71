// Names, identifiers and GUIDs that may be missing: one byte for nothing, or one more than the value has.
ghost use Rattle.records.specs.Told.{told};
ghost use Rattle.sheet_trees.specs.Names.{Near};
ghost use Rattle.sheet_sizes.specs.Counts.{Measured};
ghost use Rattle.sheet_trees.specs.Emitted.{guid_emitted, memid_emitted, name_by_emitted, name_emitted};
ghost use Rattle.typelib.specs.Header.{library};

use records::answer::Refusal;
use sheet_trees::names::Names;
use typelib::Numbers;

// The GUID at an offset.
pub(crate) fn after_guid(s: &[u8], lib: &Numbers, offset: u32, to: usize) -> usize
    ensures { Measured (guid_emitted s.now (library lib.now) offset) to result }
{
    match typelib::names::guid_at(lib, &*s, offset) {
        Ok(_) => crate::ahead(to, 17),
        Err(_) => crate::ahead(to, 1),
    }
}

// The name at an offset, behind its length in one byte.
pub(crate) fn after_name(s: &[u8], lib: &Numbers, names: Names, offset: u32, to: usize) -> usize
    requires { Near s.now (library lib.now) names }
    ensures { Measured (name_emitted s.now (library lib.now) offset) to result }
{
    match sheet_trees::names::name_at(&*s, lib, names, offset) {
        Ok(p) => crate::ahead(to, 2 + p.len),
        Err(_) => crate::ahead(to, 1),
    }
}

// A member's name: missing where its offset is.
pub(crate) fn after_name_by(
    s: &[u8],
    lib: &Numbers,
    names: Names,
    offset: Result<i32, Refusal>,
    to: usize,
) -> usize
    requires { Near s.now (library lib.now) names }
    ensures { Measured (name_by_emitted s.now (library lib.now) (told offset)) to result }
{
    let Ok(x) = offset else {
        return crate::ahead(to, 1);
    };
    after_name(&*s, lib, names, x.cast_unsigned(), to)
}

// A member's identifier.
pub(crate) fn after_memid(memid: Result<i32, Refusal>, to: usize) -> usize
    ensures { Measured (memid_emitted (told memid)) to result }
{
    match memid {
        Ok(_) => crate::ahead(to, 5),
        Err(_) => crate::ahead(to, 1),
    }
}
