// Answers of the readings of descriptors and references against their recorded bytes.
use crate::answers::Answers;
use records::answer::Refusal;
use records::types::TypeDescription;
use typelib::references::ResolvedHreftype;

// A description is its case's code in the sheet, and what the case holds.
pub(crate) fn same_description(answers: &mut Answers, answer: Result<TypeDescription, Refusal>) {
    match answer {
        Ok(TypeDescription::Base(code)) => answers.same(Ok((1u8, code))),
        Ok(TypeDescription::Pointer(to)) => answers.same(Ok((2u8, to))),
        Ok(TypeDescription::SafeArray(of)) => answers.same(Ok((3u8, of))),
        Ok(TypeDescription::CArray(array)) => {
            answers.same(Ok(4u8));
            answers.same(Ok(array));
        }
        Ok(TypeDescription::UserDefined(hreftype)) => answers.same(Ok((5u8, hreftype))),
        Err(refusal) => answers.same::<(u8, u32)>(Err(refusal)),
    }
}

// A resolved reference is 1 and a typeinfo's index; or 2, an import record, and the answer of its
// import file.
pub(crate) fn same_resolved(answers: &mut Answers, answer: Result<ResolvedHreftype, Refusal>) {
    match answer {
        Ok(ResolvedHreftype::Internal(index)) => answers.same(Ok((1u8, index))),
        Ok(ResolvedHreftype::External(info, file)) => {
            answers.same(Ok(2u8));
            answers.same(Ok(info));
            answers.same(file);
        }
        Err(refusal) => answers.same::<(u8, usize)>(Err(refusal)),
    }
}
