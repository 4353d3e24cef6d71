// The readings of a library and its sheet.
use crate::answers::Answers;
use crate::asked::Asked;
use crate::entry::Item;
use crate::{cursor, header, members, sheets, tables, words};
use typelib::TypeLib;

// Compares all answers to a question about the library in its own bytes, beside the lent bytes, which
// mostly are the same. Of one that is refused nothing but that and the sheet can be asked; what is left
// uncompared counts as a difference at the end.
pub(crate) fn replay(answers: &mut Answers, own: &[u8], asked: Asked, item: &Item) {
    match asked {
        Asked::Sheet => sheets::replay(answers, item.first as usize),
        Asked::Parse => answers.same(TypeLib::parse(own).map(|_| ())),
        _ => {
            if let Ok(lib) = TypeLib::parse(own) {
                replay_parsed(answers, lib, asked, item);
            }
        }
    }
}

// (An arm for each: each group of readings takes other things of the item.)
fn replay_parsed(answers: &mut Answers, lib: TypeLib, asked: Asked, item: &Item) {
    match asked {
        Asked::Header(reading) => header::replay(answers, lib, reading),
        Asked::Table(reading) => tables::replay(answers, lib, reading, item.first as usize),
        Asked::Word(reading) => words::replay(answers, lib, reading, item),
        Asked::Member(reading) => members::replay(answers, lib, reading, item),
        Asked::Cursor(reading) => cursor::replay(answers, lib, reading, item),
        Asked::Of(_) | Asked::Parse | Asked::Sheet => {}
    }
}
