// What is asked, by its number in the files and its name. (The numbers are the recorded files' own, so they stay bytes until they are looked up.)

// The methods of a kind of record, or the check of a text; or a reading of a library.
#[derive(Clone, Copy)]
pub enum Asked {
    Of(Kind),
    Parse,
    Header(Header),
    Table(Table),
    Word(Word),
    Member(Member),
    Cursor(Cursor),
    Sheet,
}

#[derive(Clone, Copy)]
pub enum Kind {
    Guid,
    GuidEntry,
    Param,
    RefRecord,
    ImpInfo,
    ArrayDesc,
    ImpFile,
    TypeInfo,
    Var,
    Func,
    VtName,
    TypeKind,
    Name,
    TextCheck,
}

#[derive(Clone, Copy)]
pub enum Header {
    FormatVersion,
    LibGuidOffset,
    Lcid,
    Lcid2,
    Varflags,
    Syskind,
    HasHelpDll,
    Version,
    VersionMajor,
    VersionMinor,
    Flags,
    TypeinfoCount,
    HelpstringOffset,
    Helpstringcontext,
    Helpcontext,
    Nametablecount,
    Nametablechars,
    NameOffset,
    HelpfileOffset,
    CustomDataOffset,
    Dispatchpos,
    Nimpinfos,
}

#[derive(Clone, Copy)]
pub enum Table {
    Segment,
    SegmentData,
    Place,
    GuidHashData,
    NameHashData,
    LibName,
    LibGuid,
    LibHelpstring,
}

#[derive(Clone, Copy)]
pub enum Word {
    NameBytes,
    Name,
    String,
    Guid,
    TypeDesc,
    ArrayDesc,
    TypeDescription,
    ConstValue,
    ImpFile,
    ResolveHreftype,
    ResolveHreftypeFull,
    TablePlace,
}

#[derive(Clone, Copy)]
pub enum Member {
    TypeinfoOffset,
    Typeinfo,
    MemberName,
    DeclaredCounts,
    FuncMemid,
    VarMemid,
    FuncNameOffset,
    VarNameOffset,
    FuncName,
    VarName,
}

#[derive(Clone, Copy)]
pub enum Cursor {
    Typeinfos,
    Funcs,
    Vars,
    Params,
    Guids,
    Names,
    Imports,
    ImpFiles,
    ImplTypes,
    Walk,
}

// The number of the first reading of a library, and the number behind the last one's.
pub const FIRST_READING: u8 = 14;

pub const END: u8 = 78;

// All of them, each at its number. (A table: the numbers go from 0 on without a gap, and each has a name to print.)
const ASKED: [(&str, Asked); 78] = [
    ("guid", Asked::Of(Kind::Guid)),
    ("guidentry", Asked::Of(Kind::GuidEntry)),
    ("param", Asked::Of(Kind::Param)),
    ("refrecord", Asked::Of(Kind::RefRecord)),
    ("impinfo", Asked::Of(Kind::ImpInfo)),
    ("arraydesc", Asked::Of(Kind::ArrayDesc)),
    ("impfile", Asked::Of(Kind::ImpFile)),
    ("typeinfo", Asked::Of(Kind::TypeInfo)),
    ("var", Asked::Of(Kind::Var)),
    ("func", Asked::Of(Kind::Func)),
    ("vt_name", Asked::Of(Kind::VtName)),
    ("typekind", Asked::Of(Kind::TypeKind)),
    ("name", Asked::Of(Kind::Name)),
    ("textcheck", Asked::Of(Kind::TextCheck)),
    ("parse", Asked::Parse),
    ("format_version", Asked::Header(Header::FormatVersion)),
    ("lib_guid_offset", Asked::Header(Header::LibGuidOffset)),
    ("lcid", Asked::Header(Header::Lcid)),
    ("lcid2", Asked::Header(Header::Lcid2)),
    ("varflags", Asked::Header(Header::Varflags)),
    ("syskind", Asked::Header(Header::Syskind)),
    ("has_help_dll", Asked::Header(Header::HasHelpDll)),
    ("version", Asked::Header(Header::Version)),
    ("version_major", Asked::Header(Header::VersionMajor)),
    ("version_minor", Asked::Header(Header::VersionMinor)),
    ("flags", Asked::Header(Header::Flags)),
    ("typeinfo_count", Asked::Header(Header::TypeinfoCount)),
    ("helpstring_offset", Asked::Header(Header::HelpstringOffset)),
    (
        "helpstringcontext",
        Asked::Header(Header::Helpstringcontext),
    ),
    ("helpcontext", Asked::Header(Header::Helpcontext)),
    ("nametablecount", Asked::Header(Header::Nametablecount)),
    ("nametablechars", Asked::Header(Header::Nametablechars)),
    ("name_offset", Asked::Header(Header::NameOffset)),
    ("helpfile_offset", Asked::Header(Header::HelpfileOffset)),
    (
        "custom_data_offset",
        Asked::Header(Header::CustomDataOffset),
    ),
    ("dispatchpos", Asked::Header(Header::Dispatchpos)),
    ("nimpinfos", Asked::Header(Header::Nimpinfos)),
    ("segment", Asked::Table(Table::Segment)),
    ("segment_data", Asked::Table(Table::SegmentData)),
    ("table", Asked::Table(Table::Place)),
    ("guid_hash_data", Asked::Table(Table::GuidHashData)),
    ("name_hash_data", Asked::Table(Table::NameHashData)),
    ("lib_name", Asked::Table(Table::LibName)),
    ("lib_guid", Asked::Table(Table::LibGuid)),
    ("lib_helpstring", Asked::Table(Table::LibHelpstring)),
    ("name_bytes", Asked::Word(Word::NameBytes)),
    ("name", Asked::Word(Word::Name)),
    ("string", Asked::Word(Word::String)),
    ("guid", Asked::Word(Word::Guid)),
    ("type_desc", Asked::Word(Word::TypeDesc)),
    ("array_desc", Asked::Word(Word::ArrayDesc)),
    ("type_description", Asked::Word(Word::TypeDescription)),
    ("const_value", Asked::Word(Word::ConstValue)),
    ("imp_file", Asked::Word(Word::ImpFile)),
    ("resolve_hreftype", Asked::Word(Word::ResolveHreftype)),
    (
        "resolve_hreftype_full",
        Asked::Word(Word::ResolveHreftypeFull),
    ),
    ("table_place", Asked::Word(Word::TablePlace)),
    ("typeinfo_offset", Asked::Member(Member::TypeinfoOffset)),
    ("typeinfo", Asked::Member(Member::Typeinfo)),
    ("member_name", Asked::Member(Member::MemberName)),
    ("declared_counts", Asked::Member(Member::DeclaredCounts)),
    ("func_memid", Asked::Member(Member::FuncMemid)),
    ("var_memid", Asked::Member(Member::VarMemid)),
    ("func_name_offset", Asked::Member(Member::FuncNameOffset)),
    ("var_name_offset", Asked::Member(Member::VarNameOffset)),
    ("func_name", Asked::Member(Member::FuncName)),
    ("var_name", Asked::Member(Member::VarName)),
    ("typeinfos", Asked::Cursor(Cursor::Typeinfos)),
    ("funcs", Asked::Cursor(Cursor::Funcs)),
    ("vars", Asked::Cursor(Cursor::Vars)),
    ("params", Asked::Cursor(Cursor::Params)),
    ("guids", Asked::Cursor(Cursor::Guids)),
    ("names", Asked::Cursor(Cursor::Names)),
    ("imports", Asked::Cursor(Cursor::Imports)),
    ("imp_files", Asked::Cursor(Cursor::ImpFiles)),
    ("impl_types", Asked::Cursor(Cursor::ImplTypes)),
    ("walk", Asked::Cursor(Cursor::Walk)),
    ("sheet", Asked::Sheet),
];

// What the number asks; nothing where it has no name.
pub(crate) fn of_number(number: u8) -> Option<Asked> {
    let (_, asked) = ASKED.get(usize::from(number))?;
    Some(*asked)
}

// Its name, empty where it has none. (The arms are no longer than a closure that takes the pair apart.)
pub(crate) fn name(number: u8) -> &'static str {
    match ASKED.get(usize::from(number)) {
        Some((name, _)) => name,
        None => "",
    }
}
