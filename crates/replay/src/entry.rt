// The form of a recorded file: a count of 4 bytes, and that many items.
//
// An item lends bytes, or asks a question about those lent last. It lends by the byte 255, the count
// of the bytes (4) and these; by the byte 253 in the same way, where the Rust was kept to its tables for an answer
// about the library in them; by the byte 254 in the same way, and then the library that is asked stays the one
// in the bytes lent by 255 or 253 last. A question is the number of what is asked (1), three numbers (4 each),
// the count of the answers' bytes (2) and these. All numbers have their lowest byte first.
// (An item keeps the byte that says what it is: it is the file's own number, and is looked up in `asked` where it is replayed or printed.)
ghost use Rattle.std.specs.Iterator.{at_most};

use util::LittleEndian;

// Where the first item starts, behind the count.
const FIRST: usize = 4;

// The kind of an item that lends bytes, of one that lends other bytes for the same library, and of one that
// lends a library in which the Rust was kept to its tables.
pub const LENT: u8 = 255;

pub const BESIDE: u8 = 254;

pub const KEPT: u8 = 253;

#[derive(Clone, Copy)]
pub struct Item<'a> {
    // What is asked, or LENT, BESIDE or KEPT.
    pub kind: u8,
    // The question's numbers.
    pub first: u32,
    pub second: u32,
    pub third: u32,
    // The recorded bytes of all answers, or the lent bytes.
    pub bytes: &'a [u8],
}

// The bytes that questions are about, and those that their library is parsed from.
#[derive(Clone, Copy)]
pub struct Lent<'a> {
    pub bytes: &'a [u8],
    pub own: &'a [u8],
}

impl<'a> Lent<'a> {
    pub(crate) const NOTHING: Lent<'static> = Lent {
        bytes: &[],
        own: &[],
    };

    // What is lent behind an item.
    pub(crate) fn behind(self, item: &Item<'a>) -> Lent<'a> {
        let bytes = item.bytes;
        match item.kind {
            LENT | KEPT => Lent { bytes, own: bytes },
            BESIDE => Lent {
                bytes,
                own: self.own,
            },
            _ => self,
        }
    }
}

// The first item of the bytes, and what is behind it; none where it is malformed.
fn read(s: &[u8]) -> Option<(Item<'_>, &[u8])> {
    let kind = *s.first()?;
    if KEPT <= kind {
        read_lent(s, kind)
    } else {
        read_question(s, kind)
    }
}

fn read_lent(s: &[u8], kind: u8) -> Option<(Item<'_>, &[u8])> {
    let size = u32::read_le(s, 1)?;
    let (bytes, rest) = s.get(5..)?.split_at_checked(size as usize)?;
    let item = Item {
        kind,
        first: 0,
        second: 0,
        third: 0,
        bytes,
    };
    Some((item, rest))
}

fn read_question(s: &[u8], kind: u8) -> Option<(Item<'_>, &[u8])> {
    let size = u16::read_le(s, 13)?;
    let (bytes, rest) = s.get(15..)?.split_at_checked(usize::from(size))?;
    let item = Item {
        kind,
        first: u32::read_le(s, 1)?,
        second: u32::read_le(s, 5)?,
        third: u32::read_le(s, 9)?,
        bytes,
    };
    Some((item, rest))
}

// The items of a file that are left. (Each is read as it is come to, so that nothing is allocated, however many there are; and
// they are copied to each that goes over them.)
#[derive(Clone, Copy)]
pub struct Items<'a> {
    left: u32,
    rest: &'a [u8],
}

impl<'a> Items<'a> {
    // The items of the file. It is malformed, and there are none, where it does not hold as many as it says, holds a
    // byte behind them, or asks what is not from `first` on and before `end`.
    pub(crate) fn of(s: &'a [u8], first: u8, end: u8) -> Option<Items<'a>> {
        let items = Items {
            left: util::or_zero::<u32>(s, 0),
            rest: s.get(FIRST..)?,
        };
        let mut behind = items;
        for _ in 0..items.left {
            if !is_of(behind.next()?.kind, first, end) {
                return None;
            }
        }
        if behind.rest.is_empty() {
            Some(items)
        } else {
            None
        }
    }
}

impl<'a> Iterator for Items<'a> {
    type Item = Item<'a>;

    ghost remaining = { λ s. at_most s.left };

    fn next(&mut self) -> Option<Item<'a>> {
        let left = self.left.checked_sub(1)?;
        let (item, rest) = read(self.rest)?;
        self.left = left;
        self.rest = rest;
        Some(item)
    }
}

fn is_of(kind: u8, first: u8, end: u8) -> bool {
    KEPT <= kind || first <= kind && kind < end
}
