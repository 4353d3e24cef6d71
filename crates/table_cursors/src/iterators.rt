// Cursors over the tables of a library: iterators.rs of the source.
//
// A cursor goes in by value and comes back. One step replies as one `next` of the source, kept to its table as document 02 says: the
// record, its number from 0 and the next cursor, or a refusal and the same cursor. NothingThere is the end. The number of a typeinfo is
// its index: a typeinfo that is refused is counted, and the cursor goes on behind it.
ghost use Rattle.std.specs.Prelude.{◌≡◌, ◌+◌, ◌-◌, ◌^◌, ◌≤◌, ◌<◌, length};
ghost use Rattle.std.specs.Result.{IfOk};
ghost use Rattle.records.specs.Answer.{value};
ghost use Rattle.records.specs.Told.{told};
ghost use Rattle.table_cursors.specs.Cursors.{guid_step, import_step, imp_file_entry, imp_file_step, guids_of, imports_of, imp_files_of, typeinfos_of, typeinfo_step, entry_text, over_names, name_entry_from, name_entry, name_step, names_in, names_of};
ghost use Rattle.typelib.specs.Header.{library, type_count};
ghost use Rattle.typelib.specs.Tables.{lent, segment_of, table_of};
ghost use Rattle.table_cursors.specs.Told.{told_guid_step, told_import_step, told_imp_file_step, told_type_info_step, told_name_step};

use cursors::iterators;
use cursors::iterators::Step;
use records::answer;
use records::answer::{Place, Refusal};
use records::guidentry::GuidEntry;
use records::impfile::ImpFile;
use records::impinfo::ImpInfo;
use records::name::NameEntry;
use records::typeinfo::TypeInfoEntry;
use typelib::{Numbers, TypeInfoIndex, TypeLib, tables};

// (Types told apart, as those of `cursors` are: C builds each from its numbers, and contracts name the fields.)
#[derive(Clone, Copy)]
pub struct GuidCursor {
    pub pos: usize,
    pub end: usize,
    pub yielded: u64,
}

#[derive(Clone, Copy)]
pub struct ImportCursor {
    pub pos: usize,
    pub end: usize,
    pub yielded: u64,
}

#[derive(Clone, Copy)]
pub struct ImpFileCursor {
    pub pos: usize,
    pub end: usize,
    pub yielded: u64,
}

// Over the name table from `start`, whose entries are counted from there.
#[derive(Clone, Copy)]
pub struct NameCursor {
    pub pos: usize,
    pub end: usize,
    pub start: usize,
    pub yielded: u64,
}

#[derive(Clone, Copy)]
pub struct TypeInfoCursor {
    pub index: TypeInfoIndex,
}

// The typeinfos of the library.
#[tactic(auto, unfolding(typelib::specs::Tables::lent))]
pub fn typeinfos(s: &[u8]) -> Result<TypeInfoCursor, Refusal>
    ensures { told result ≡ typeinfos_of s.now }
{
    iterators::is_lent(s)?;
    Ok(TypeInfoCursor {
        index: TypeInfoIndex(0),
    })
}

// The entries of the GUID table.
// (This and the next two are readings of the source, which C calls by their names: they differ in the table and the type, and share `lent_table`.)
#[tactic(auto, unfolding(typelib::specs::Tables::lent))]
pub fn guids(lib: TypeLib, s: &[u8]) -> Result<GuidCursor, Refusal>
    ensures { told result ≡ guids_of s.now lib }
{
    let table = lent_table(&lib.numbers, s, 5)?;
    Ok(GuidCursor {
        pos: table.at,
        end: table.at + table.len,
        yielded: 0,
    })
}

// The import records.
#[tactic(auto, unfolding(typelib::specs::Tables::lent))]
pub fn imports(lib: TypeLib, s: &[u8]) -> Result<ImportCursor, Refusal>
    ensures { told result ≡ imports_of s.now lib }
{
    let table = lent_table(&lib.numbers, s, 1)?;
    Ok(ImportCursor {
        pos: table.at,
        end: table.at + table.len,
        yielded: 0,
    })
}

// The import files.
#[tactic(auto, unfolding(typelib::specs::Tables::lent))]
pub fn imp_files(lib: TypeLib, s: &[u8]) -> Result<ImpFileCursor, Refusal>
    ensures { told result ≡ imp_files_of s.now lib }
{
    let table = lent_table(&lib.numbers, s, 2)?;
    Ok(ImpFileCursor {
        pos: table.at,
        end: table.at + table.len,
        yielded: 0,
    })
}

// The entries of the name table.
#[tactic(auto, unfolding(typelib::specs::Tables::lent))]
pub fn names(lib: TypeLib, s: &[u8]) -> Result<NameCursor, Refusal>
    ensures { told result ≡ names_of s.now lib }
{
    iterators::is_lent(s)?;
    Ok(names_in(&lib.numbers))
}

// The same where the length of the bytes was looked at.
// (A table is the number of its segment, of which a caller of `tables::segment` may give any.)
pub(crate) fn names_in(lib: &Numbers) -> NameCursor
    ensures { result ≡ names_in (library lib.now) }
{
    let table = tables::table(lib, 7);
    NameCursor {
        pos: table.at,
        end: table.at + table.len,
        start: table.at,
        yielded: 0,
    }
}

// Where segment `index` lies, if the bytes are few enough to be read.
#[tactic(auto, unfolding(typelib::specs::Tables::lent))]
fn lent_table(lib: &Numbers, s: &[u8], index: usize) -> Result<Place, Refusal>
    ensures { (told result ≡ lent s.now (value (table_of (segment_of (library lib.now) index)))) × IfOk result (λ p. p.at + p.len < 2 ^ 32) }
{
    iterators::is_lent(s)?;
    Ok(tables::table(lib, index))
}

// The steps differ in the types that they make, as those of `cursors` do. (A refusal goes out with its cursor, so that `?` cannot hand it on.
// A record is made of a place field by field: a conversion for each of the types of records has more lines than it saves.)
impl GuidCursor {
    pub fn step(self, s: &[u8]) -> Step<GuidEntry, GuidCursor>
        ensures { told_guid_step result ≡ guid_step s.now self }
    {
        match iterators::fixed_at(s, self.pos, self.end, GuidEntry::SIZE) {
            Ok(place) => Step::Record(
                GuidEntry {
                    at: place.at,
                    len: place.len,
                },
                self.yielded,
                GuidCursor {
                    pos: self.pos + GuidEntry::SIZE,
                    yielded: iterators::number_behind(self.yielded),
                    ..self
                },
            ),
            Err(refusal) => Step::Refused(refusal, self),
        }
    }
}

impl ImportCursor {
    pub fn step(self, s: &[u8]) -> Step<ImpInfo, ImportCursor>
        ensures { told_import_step result ≡ import_step s.now self }
    {
        match iterators::fixed_at(s, self.pos, self.end, ImpInfo::SIZE) {
            Ok(place) => Step::Record(
                ImpInfo {
                    at: place.at,
                    len: place.len,
                },
                self.yielded,
                ImportCursor {
                    pos: self.pos + ImpInfo::SIZE,
                    yielded: iterators::number_behind(self.yielded),
                    ..self
                },
            ),
            Err(refusal) => Step::Refused(refusal, self),
        }
    }
}

impl ImpFileCursor {
    pub fn step(self, s: &[u8]) -> Step<ImpFile, ImpFileCursor>
        ensures { told_imp_file_step result ≡ imp_file_step s.now self }
    {
        match imp_file_entry(s, self.pos, self.end) {
            Ok(place) => Step::Record(
                ImpFile {
                    at: place.at,
                    len: place.len,
                },
                self.yielded,
                ImpFileCursor {
                    pos: self.pos + place.len,
                    yielded: iterators::number_behind(self.yielded),
                    ..self
                },
            ),
            Err(refusal) => Step::Refused(refusal, self),
        }
    }
}

impl NameCursor {
    pub fn step(self, s: &[u8]) -> Step<NameEntry, NameCursor>
        ensures { told_name_step result ≡ name_step s.now self }
    {
        match name_entry(s, self) {
            Ok(entry) => {
                let text = entry.text;
                Step::Record(
                    entry,
                    self.yielded,
                    NameCursor {
                        pos: text.at + (text.len + 3) / 4 * 4,
                        yielded: iterators::number_behind(self.yielded),
                        ..self
                    },
                )
            }
            Err(refusal) => Step::Refused(refusal, self),
        }
    }
}

impl TypeInfoCursor {
    #[tactic(auto, unfolding(typelib::specs::Tables::lent, crate::specs::Cursors::typeinfo_next))]
    pub fn step(self, s: &[u8], lib: TypeLib) -> Step<TypeInfoEntry, TypeInfoCursor>
        ensures { told_type_info_step result ≡ typeinfo_step s.now lib self }
    {
        let index = self.index;
        if let Err(refusal) = iterators::is_lent(s) {
            return Step::Refused(refusal, self);
        }
        if lib.count() as usize <= index.0 {
            return Step::Refused(Refusal::NothingThere, self);
        }
        let next = TypeInfoCursor {
            index: TypeInfoIndex(index.0 + 1),
        };
        match lib.typeinfo(s, index) {
            Ok(ti) => Step::Record(ti, index.0 as u64, next),
            Err(refusal) => Step::Refused(refusal, next),
        }
    }

    // How many typeinfos are left.
    pub fn size_hint(self, lib: TypeLib) -> usize
        ensures { result ≡ type_count lib - self.index.0 }
    {
        (lib.count() as usize).saturating_sub(self.index.0)
    }
}

#[tactic(auto, unfolding(typelib::specs::Tables::lent, crate::specs::Cursors::imp_file_entry, cursors::specs::Cursors::fixed_at))]
fn imp_file_entry(s: &[u8], pos: usize, end: usize) -> Result<Place, Refusal>
    ensures { told result ≡ lent s.now (imp_file_entry s.now pos end) }
{
    iterators::fixed_at(s, pos, end, ImpFile::HEADER_SIZE)?;
    let name = (util::or_zero::<u16>(s, pos + 12) / 4) as usize;
    iterators::fixed_at(s, pos, end, (name + 14 + 3) / 4 * 4)
}

// The entry of the name table at the cursor.
#[tactic(auto, unfolding(typelib::specs::Tables::lent, crate::specs::Cursors::name_entry, cursors::specs::Cursors::fixed_at))]
fn name_entry(s: &[u8], c: NameCursor) -> Result<NameEntry, Refusal>
    ensures { told result ≡ lent s.now (name_entry s.now (over_names.stands c)) }
{
    iterators::is_lent(s)?;
    if c.pos < c.start {
        return Err(Refusal::NothingThere);
    }
    iterators::fixed_at(s, c.pos, c.end, 12)?;
    let len = util::or_zero::<u8>(s, c.pos + 8) as usize;
    let text = answer::text(s, entry_text(s, c.pos, c.end, len))?;
    Ok(name_entry_from(s, c, text))
}

// Where the text of `len` bytes behind the intro at `pos` lies: the entry ends with it. (`len` is its length, and not that of the lent bytes.)
#[tactic(auto, unfolding(typelib::specs::Tables::lent, cursors::specs::Cursors::fixed_at))]
fn entry_text(s: &[u8], pos: usize, end: usize, len: usize) -> Result<Place, Refusal>
    requires { len < 256 }
    ensures { told result ≡ lent s.now (entry_text s.now pos end len) }
{
    iterators::fixed_at(s, pos, end, 12 + len)?;
    Ok(Place { at: pos + 12, len })
}

fn name_entry_from(s: &[u8], c: NameCursor, text: Place) -> NameEntry
    requires { (c.pos + 12 ≤ length s.now) × (c.start ≤ c.pos) }
    ensures { result ≡ name_entry_from s.now (over_names.stands c) text }
{
    let pos = c.pos;
    NameEntry {
        offset: pos - c.start,
        text,
        hreftype: util::or_zero::<u32>(s, pos).cast_signed(),
        next_hash: util::or_zero::<u32>(s, pos + 4).cast_signed(),
        flags: util::or_zero::<u8>(s, pos + 9),
        hashcode: util::or_zero::<u16>(s, pos + 10),
    }
}
