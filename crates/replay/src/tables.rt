// The readings of a library's segments, and of what the library itself has in its tables.
use crate::answers::Answers;
use crate::asked::Table;
use crate::entry::Item;
use records::answer::{Place, Refusal};
use typelib::{TypeLib, tables};

// `index` is a segment's, for the readings that take one.
pub(crate) fn replay(answers: &mut Answers, lib: TypeLib, reading: Table, index: usize) {
    let lent = answers.lent;
    match reading {
        Table::Segment => answers.same(lib.segment(index)),
        Table::SegmentData => answers.same(lib.segment_data(lent, index)),
        Table::Place => answers.same(Ok(tables::table(&lib.numbers, index))),
        Table::GuidHashData => answers.same(lib.guid_hash_data(lent)),
        Table::NameHashData => answers.same(lib.name_hash_data(lent)),
        Table::LibName => answers.same(lib.lib_name(lent)),
        Table::LibGuid => answers.same(lib.lib_guid(lent)),
        Table::LibHelpstring => answers.same(lib.lib_helpstring(lent)),
    }
}

// Where some bytes of a table lie, by `table_place` and by `place_in` behind it. The question's numbers are the segment,
// how many bytes, and their offset.
pub(crate) fn place(answers: &mut Answers, lib: TypeLib, item: &Item) {
    let lent = answers.lent;
    let segment = item.first as usize;
    let size = item.second as usize;
    let offset = item.third;
    answers.same(tables::table_place(&lib.numbers, lent, segment, offset, size));
    answers.same(place_in(lent, lib, segment, size, offset));
}

// (They are a question's numbers as they stand: no table need have that segment, and no bytes that size.)
fn place_in(
    lent: &[u8],
    lib: TypeLib,
    segment: usize,
    size: usize,
    offset: u32,
) -> Result<Place, Refusal> {
    tables::place_in(lent, lib.segment(segment)?, offset, size)
}
