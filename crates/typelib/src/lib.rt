// A type library and its tables: typelib.rs of the source.
//
// A library is its fifteen segment pairs, the count of its typeinfos and the start of their offset table, by value,
// beside the lent bytes. Beside other bytes it is read by its own numbers, with the same checks. Every public reading
// takes it so. Below the entries its numbers are lent, as a reference to a plain array: nothing of it is copied there.
// (A reading is named as in the source, and C calls it by that name: so there are many, and most are one call. A table is the number of its segment,
// of which a caller of `segment` may give any, as in the source.)

#![tactic(auto)]

pub mod descriptors;
mod header;
pub mod names;
pub mod references;
pub mod tables;
pub mod typeinfos;

ghost use Rattle.std.specs.Prelude.{◌≡◌, ◌+◌, ◌≤◌, length};
ghost use Rattle.records.specs.Told.{told};
ghost use Rattle.typelib.specs.Header.{table_at, type_count, table_start, pairs_at, numbers_with, parse_of};
ghost use Rattle.typelib.specs.Tables.{segment_of};

use records::answer::{Place, Refusal};
use records::field::LIMIT;
use util::NEGATIVE;

// 2k and 2k + 1 are the offset and the length of segment k, each the 32-bit pattern of a signed number; 30 is the count of
// typeinfos, 31 where their offsets start. (A plain array: the proof covers a reference to one, and not to a struct.)
pub type Numbers = [u32; 32];

#[derive(Clone, Copy)]
pub struct TypeLib {
    pub numbers: Numbers,
}

// The three kinds of number that the source tells apart in its comments: a typeinfo's byte offset in segment 0 (the 32-bit
// pattern of a signed number), its index, and a byte offset in the import segment.
#[derive(Clone, Copy)]
pub struct TypeInfoOffset(pub u32);

#[derive(Clone, Copy)]
pub struct TypeInfoIndex(pub usize);

#[derive(Clone, Copy)]
pub struct ImportOffset(pub u32);

// Where the offset table starts. (Not by `flag` of `Record`: it would test again what `parse` has tested, and reply a `Result`.)
fn table_at(s: &[u8]) -> u32
    requires { 84 ≤ length s.now }
    ensures { (result ≡ table_at s.now) × (result ≤ 88) }
{
    if util::bits(util::or_zero::<u32>(s, 0x14), 8, 1) == 1 {
        88
    } else {
        84
    }
}

// The pairs of the directory at `at`, the count and the table start. (Each word is read from a part of just its four bytes: then the
// compiler makes a plain load of it.)
fn numbers_at(s: &[u8], at: usize, count: u32, table: u32) -> Numbers
    requires { at + 240 ≤ length s.now }
    ensures { result ≡ numbers_with (pairs_at s.now at) count table }
{
    let mut numbers = [0u32; 32];
    for i in 0..30 {
        let from = at + 16 * (i / 2) + 4 * (i % 2);
        let word = &s[from..from + 4];
        numbers[i] = util::or_zero(word, 0);
    }
    numbers[30] = count;
    numbers[31] = table;
    numbers
}

impl TypeLib {
    pub const HEADER_SIZE: usize = 0x54;

    pub const MAGIC: u32 = 0x5446_534D;

    // The library in `s`, or refusal 1 to 5.
    #[tactic(auto, unfolding(crate::specs::Header::parse_of))]
    pub fn parse(s: &[u8]) -> Result<TypeLib, Refusal>
        ensures { told result ≡ parse_of s.now }
    {
        let size = s.len();
        if LIMIT < size {
            return Err(Refusal::OverLong);
        }
        if size < Self::HEADER_SIZE {
            return Err(Refusal::ShortHeader);
        }
        if util::or_zero::<u32>(s, 0x00) != Self::MAGIC {
            return Err(Refusal::WrongMagic);
        }
        let count = util::or_zero::<u32>(s, 0x20);
        if NEGATIVE <= count {
            return Err(Refusal::BadCount);
        }
        let table = table_at(s);
        let at = table as usize + 4 * (count as usize);
        if size < at + 240 {
            return Err(Refusal::ShortDirectory);
        }
        Ok(TypeLib {
            numbers: numbers_at(s, at, count, table),
        })
    }

    // Where segment `index` lies; 9 where it is missing.
    pub fn segment(self, index: usize) -> Result<Place, Refusal>
        ensures { told result ≡ segment_of self index }
    {
        tables::segment(&self.numbers, index)
    }

    // How many typeinfos it has.
    pub fn count(self) -> u32
        ensures { result ≡ type_count self }
    {
        tables::count(&self.numbers)
    }

    // Where the offsets of its typeinfos start.
    pub fn table_start(self) -> u32
        ensures { result ≡ table_start self }
    {
        tables::table_start(&self.numbers)
    }
}
