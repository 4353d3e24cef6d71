// A caller's own type as a row: it says its bytes and its row, and names nothing that refuses a file.
ghost use Rattle.std.specs.Prelude.{◌++◌};
ghost use Rattle.description.specs.Format.{le_bytes};

use crate::of;
use crate::row::{Laid, Longs, Row};
use records::answer::{Place, Refusal};
use records::impinfo::ImpInfo;
use typelib::references::ResolvedHreftype;

#[derive(Clone, Copy)]
struct Version {
    major: u32,
    minor: u32,
}

impl Laid for Version {
    ghost bytes = { λ v. le_bytes 4 v.major ++ le_bytes 4 v.minor };

    fn row(self) -> Row {
        Row::Words(self.major, self.minor)
    }
}

#[test]
fn an_answer_is_laid_as_its_row(rt: HostRuntime) {
    let version = Version {
        major: 2,
        minor: 40,
    };
    assert!(rt; matches!(of(Ok(version)), Ok(Row::Words(2, 40))));
    assert!(rt; matches!(version.row(), Row::Words(2, 40)));
    let place = Place { at: 84, len: 100 };
    assert!(rt; matches!(of(Ok(place)), Ok(Row::Plain(Longs::Two(84, 100)))));
    assert!(rt; matches!(place.row(), Row::Plain(Longs::Two(84, 100))));
    let info = ImpInfo { at: 600, len: 12 };
    let unnamed = ResolvedHreftype::External(info, Err(Refusal::NothingThere));
    assert!(rt;
        matches!(
            of(Ok(unnamed)),
            Ok(Row::Import(Place { at: 600, len: 12 }, Err(Refusal::NothingThere)))
        )
    );
    assert!(rt; matches!(of::<Version>(Err(Refusal::Circle)), Err(Refusal::Circle)));
}
