// The readings of a library's header.
use crate::answers::Answers;
use crate::asked::Header;
use typelib::TypeLib;

pub(crate) fn replay(answers: &mut Answers, lib: TypeLib, reading: Header) {
    let lent = answers.lent;
    match reading {
        Header::FormatVersion => answers.same(lib.format_version(lent)),
        Header::LibGuidOffset => answers.same(lib.lib_guid_offset(lent)),
        Header::Lcid => answers.same(lib.lcid(lent)),
        Header::Lcid2 => answers.same(lib.lcid2(lent)),
        Header::Varflags => answers.same(lib.varflags(lent)),
        Header::Syskind => answers.same(lib.syskind(lent)),
        Header::HasHelpDll => answers.same(lib.has_help_dll(lent)),
        Header::Version => answers.same(lib.version(lent)),
        Header::VersionMajor => answers.same(lib.version_major(lent)),
        Header::VersionMinor => answers.same(lib.version_minor(lent)),
        Header::Flags => answers.same(lib.flags(lent)),
        Header::TypeinfoCount => answers.same(Ok(lib.typeinfo_count())),
        Header::HelpstringOffset => answers.same(lib.helpstring_offset(lent)),
        Header::Helpstringcontext => answers.same(lib.helpstringcontext(lent)),
        Header::Helpcontext => answers.same(lib.helpcontext(lent)),
        Header::Nametablecount => answers.same(lib.nametablecount(lent)),
        Header::Nametablechars => answers.same(lib.nametablechars(lent)),
        Header::NameOffset => answers.same(lib.name_offset(lent)),
        Header::HelpfileOffset => answers.same(lib.helpfile_offset(lent)),
        Header::CustomDataOffset => answers.same(lib.custom_data_offset(lent)),
        Header::Dispatchpos => answers.same(lib.dispatchpos(lent)),
        Header::Nimpinfos => answers.same(lib.nimpinfos(lent)),
    }
}
