// The readings of typeinfos and of their members.
use crate::answers::Answers;
use crate::asked::Member;
use crate::entry::Item;
use records::typeinfo::TypeInfoEntry;
use table_cursors::members::member_name;
use typelib::{TypeInfoIndex, TypeLib, tables, typeinfos};

// A question's numbers are a typeinfo's index and a member's, or a typeinfo's place and length and a
// member's index.
pub(crate) fn replay(answers: &mut Answers, lib: TypeLib, reading: Member, item: &Item) {
    let lent = answers.lent;
    let first = item.first as usize;
    let second = item.second as usize;
    let index = TypeInfoIndex(first);
    match reading {
        Member::TypeinfoOffset => {
            // The offset, and the same where the library's numbers are lent.
            answers.same(lib.typeinfo_offset(lent, index));
            answers.same(tables::offset_word(&lib.numbers, lent, index));
        }
        Member::Typeinfo => answers.same(lib.typeinfo(lent, index)),
        Member::MemberName => answers.same(member_name(lib, lent, index, second)),
        _ => {
            let record = TypeInfoEntry {
                at: first,
                len: second,
            };
            of_record(answers, lib, reading, record, item.third as usize);
        }
    }
}

fn of_record(
    answers: &mut Answers,
    lib: TypeLib,
    reading: Member,
    record: TypeInfoEntry,
    index: usize,
) {
    let lent = answers.lent;
    match reading {
        Member::DeclaredCounts => answers.same(typeinfos::declared_counts(lent, record)),
        Member::FuncMemid => answers.same(lib.func_memid(lent, record, index)),
        Member::VarMemid => answers.same(lib.var_memid(lent, record, index)),
        Member::FuncNameOffset => answers.same(lib.func_name_offset(lent, record, index)),
        Member::VarNameOffset => answers.same(lib.var_name_offset(lent, record, index)),
        Member::FuncName => answers.same(lib.func_name(lent, record, index)),
        Member::VarName => answers.same(lib.var_name(lent, record, index)),
        Member::TypeinfoOffset | Member::Typeinfo | Member::MemberName => {}
    }
}
