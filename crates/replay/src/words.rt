// The readings of a word: an offset in a table, a type field, a constant or a reference. Some are
// there twice: for a signed number beside the library, and for its 32-bit pattern beside the library's numbers.
// (An arm for each: each has another reply.)
use crate::answers::Answers;
use crate::asked::Word;
use crate::constant::same_constant;
use crate::descriptors::{same_description, same_resolved};
use crate::entry::Item;
use crate::tables;
use typelib::{TypeLib, descriptors, names, references};

pub(crate) fn replay(answers: &mut Answers, lib: TypeLib, reading: Word, item: &Item) {
    let lent = answers.lent;
    let word = item.first.cast_signed();
    match reading {
        Word::Name => answers.same(lib.name(lent, word)),
        Word::String => answers.same(lib.string(lent, word)),
        Word::TypeDescription => same_description(answers, lib.type_description(lent, word)),
        Word::ResolveHreftype => answers.same(lib.resolve_hreftype(word)),
        Word::ResolveHreftypeFull => {
            same_resolved(answers, lib.resolve_hreftype_full(lent, word));
        }
        Word::TablePlace => tables::place(answers, lib, item),
        Word::NameBytes
        | Word::Guid
        | Word::TypeDesc
        | Word::ArrayDesc
        | Word::ConstValue
        | Word::ImpFile => twice(answers, lib, reading, item.first),
    }
}

fn twice(answers: &mut Answers, lib: TypeLib, reading: Word, bits: u32) {
    let lent = answers.lent;
    let numbers = &lib.numbers;
    let word = bits.cast_signed();
    match reading {
        Word::NameBytes => {
            answers.same(lib.name_bytes(lent, word));
            answers.same(names::name_at(numbers, lent, bits));
        }
        Word::Guid => {
            answers.same(lib.guid(lent, word));
            answers.same(names::guid_at(numbers, lent, bits));
        }
        Word::TypeDesc => {
            answers.same(lib.type_desc(lent, word));
            answers.same(descriptors::type_desc_at(numbers, lent, bits));
        }
        Word::ArrayDesc => {
            answers.same(lib.array_desc(lent, word));
            answers.same(descriptors::array_desc_at(numbers, lent, bits));
        }
        Word::ConstValue => {
            same_constant(answers, constants::const_value(lib, lent, word));
            same_constant(answers, constants::const_at(numbers, lent, bits));
        }
        Word::ImpFile => {
            answers.same(lib.imp_file(lent, word));
            answers.same(references::imp_file_at(numbers, lent, bits));
        }
        _ => {}
    }
}
