// Emitters: each stores bytes at a place of the output and replies the place behind them.
//
// A refusal stays in the place and passes through, with the output as it was, so that a row of emitters is a straight line.
// Bytes that have no room in the output are only counted: over an output of no bytes an emitter measures. Nothing that stands before
// its place changes, whatever happens. Behind the place that it replies it may store too: the next emitter goes over that.
// A place and a refusal are one number, since an enum is slow to hand on. The library, its numbers, the output and the place go
// in apart: a struct of them is handed on by way of memory, which made a sheet slower. Contracts tell the place, and the output before and after.

#![tactic(auto)]

ghost use Rattle.std.specs.Prelude.{◌≡◌, ◌∷◌, [], ◌+◌, ◌≤◌, ◌<◌, max, length, take, drop};
ghost use Rattle.std.specs.Bool.{MatchBool};
ghost use Rattle.std.proofs.lemmas.List.Edits.{sets};
ghost use Rattle.util.specs.Read.{read, or_zero};
ghost use Rattle.records.specs.Answer.{value, refused};
ghost use Rattle.records.specs.Told.{refusal_number};
ghost use Rattle.records.specs.declared.answer.Refusal.{Refusal};
ghost use Rattle.records.specs.Record.{part_of};
ghost use Rattle.description.specs.Format.{le_bytes};
ghost use Rattle.emit.specs.Emit.{Emitted, Overwritten, Refused, TriedShort, put, past, short, Emits};

use records::answer;
use records::answer::{Place, Refusal};

// No place is past this, one more than the most bytes that a sheet has. A number past it is a refusal: 0 is the next, and so on.
pub const PAST: usize = 16_777_217;

// A part of at most so many bytes is short.
const SHORT: usize = 32;

// Where an emitter ends whose bytes would end past it. (One call of the library, under a name that says what it is for.)
fn stopped(at: usize) -> usize
    ensures { result ≡ max at past }
{
    at.max(PAST)
}

// The refusal, unless there is one already. (A number and no `Refusal`: whatever byte a caller has is put.)
pub fn put_refusal(to: usize, number: u8) -> usize
    ensures { (o : _) → Emitted (refused number) (put to) o (put result) o }
{
    if to <= PAST {
        PAST + 1 + usize::from(number)
    } else {
        to
    }
}

// The refusal that a number past all places is. (Nothing else makes a refusal of a number, so that it stands here.)
#[tactic(auto, unfolding(crate::specs::Emit::put))]
pub fn refusal(to: usize) -> Refusal
    ensures { (e : Refusal) → put to ≡ Refused (refusal_number e) → result ≡ e }
{
    match to.saturating_sub(PAST + 1) % 256 {
        1 => Refusal::OverLong,
        2 => Refusal::ShortHeader,
        3 => Refusal::WrongMagic,
        4 => Refusal::BadCount,
        5 => Refusal::ShortDirectory,
        6 => Refusal::NoSuchTypeInfo,
        7 => Refusal::NoTypeInfoTable,
        8 => Refusal::ShortTypeInfo,
        10 => Refusal::Circle,
        11 => Refusal::TooDeep,
        12 => Refusal::NoSpace,
        13 => Refusal::TooManyTypes,
        _ => Refusal::NothingThere,
    }
}

pub fn put_u8(out: &mut [u8], to: usize, b: u8) -> usize
    ensures { Emits (value (b ∷ [])) to out.old result out.new }
{
    if to >= PAST {
        return to;
    }
    if to < out.len() {
        out[to] = b;
    }
    to + 1
}

// The lowest `width` bytes of `v`, the lowest first, where there is room for them at `at`. (By division, as `le_bytes` is defined: `to_le_bytes`
// gives all eight, and not as many as are asked for.)
fn store_le(out: &mut [u8], at: usize, v: u64, width: usize)
    requires { at + width ≤ length out.old }
    ensures { out.new ≡ sets out.old at (le_bytes width v) }
{
    let mut rest = v;
    for place in at..at + width {
        out[place] = (rest % 256) as u8;
        rest /= 256;
    }
}

// The lowest `width` bytes of `v`, the lowest first.
pub fn put_le(out: &mut [u8], to: usize, v: u64, width: usize) -> usize
    ensures { Emits (value (le_bytes width v)) to out.old result out.new }
{
    if !has_room(PAST, to, width) {
        return stopped(to);
    }
    if to + width <= out.len() {
        store_le(out, to, v, width);
    }
    to + width
}

// (By name and not by type, here and below: the width is what the sheet says.)
pub fn put_u16(out: &mut [u8], to: usize, v: u16) -> usize
    ensures { Emits (value (le_bytes 2 v)) to out.old result out.new }
{
    put_le(out, to, u64::from(v), 2)
}

pub fn put_u32(out: &mut [u8], to: usize, v: u32) -> usize
    ensures { Emits (value (le_bytes 4 v)) to out.old result out.new }
{
    put_le(out, to, u64::from(v), 4)
}

// The bytes, where there is room for them at `at`. (By a loop, of which the compiler makes moves of many bytes: the library's `copy_from_slice`
// calls `memmove`, which a C program that takes the archive would have to have.)
fn store(bytes: &[u8], out: &mut [u8], at: usize)
    requires { at + length bytes.now ≤ length out.old }
    ensures { out.new ≡ sets out.old at bytes.now }
{
    for (i, byte) in bytes.iter().enumerate() {
        out[at + i] = *byte;
    }
}

pub fn put_bytes(bytes: &[u8], out: &mut [u8], to: usize) -> usize
    ensures { Emits (value bytes.now) to out.old result out.new }
{
    let count = bytes.len();
    if !has_room(PAST, to, count) {
        return stopped(to);
    }
    if to + count <= out.len() {
        store(bytes, out, to);
    }
    to + count
}

// Whether `count` bytes from `at` on end by `end`.
fn has_room(end: usize, at: usize, count: usize) -> bool
    ensures { MatchBool result (at + count ≤ end) (end < at + count) }
{
    count <= end && at <= end - count
}

// As many bytes of the library at `at` as the longest short part has. (All are read before one is stored, so that the compiler makes two
// moves of them: it cannot know that the library and the output do not overlap.)
fn store_short(s: &[u8], at: usize, out: &mut [u8], to: usize)
    requires { (at + short ≤ length s.now) × (to + short ≤ length out.old) }
    ensures { out.new ≡ sets out.old to (take short (drop at s.now)) }
{
    let bytes: [u8; SHORT] = s[at..at + SHORT].try_into().unwrap();
    store(&bytes, out, to);
}

// The bytes at a place of the library; none where it is not wholly inside. (Most are names, and short. How many bytes a short one has
// is not looked at: as many as the longest has are stored, and the next emitter goes over those that are too many.)
pub fn put_part(s: &[u8], place: Place, out: &mut [u8], to: usize) -> usize
    ensures { Emits (value (part_of s.now (value place))) to out.old result out.new }
{
    let at = place.at;
    if place.len <= SHORT
        && to <= PAST - SHORT
        && has_room(s.len(), at, SHORT)
        && has_room(out.len(), to, SHORT)
    {
        store_short(&*s, at, out, to);
        return to + place.len;
    }
    put_bytes(answer::part(s, Ok::<_, Refusal>(place)), out, to)
}

// The byte 1, the length in one byte and the bytes at a place of the library; 0, and nothing done, where they are not short, or there
// is no room for more than they are. (Most names go this way: it is one row of tests and moves. The 1 and the length are stored by one move.)
pub fn put_short_counted(s: &[u8], place: Place, out: &mut [u8], to: usize) -> usize
    ensures { TriedShort s.now place to out.old result out.new }
{
    let at = place.at;
    if place.len <= SHORT
        && to <= PAST - 2 - SHORT
        && has_room(s.len(), at, SHORT)
        && has_room(out.len(), to, 2 + SHORT)
    {
        store_le(out, to, 1 + 256 * (place.len as u64), 2);
        store_short(&*s, at, out, to + 2);
        return to + 2 + place.len;
    }
    0
}

// The lowest `width` bytes of `v` go over what stands at `at`, where there is room for them; nothing is stored at a refusal.
pub fn overwrite(out: &mut [u8], at: usize, v: u64, width: usize)
    ensures { Overwritten (le_bytes width v) (put at) out.old out.new }
{
    if at <= PAST && has_room(out.len(), at, width) {
        store_le(out, at, v, width);
    }
}

// The two bytes at `offset` of the record at `at`, or 0 where the library ends before them. (The sum
// is made only where it cannot wrap, so that `get` does not serve: its range would be that sum.)
// (`word_at` is the same at another width, and no function of both: `LittleEndian` says nothing of a place behind the end, where the sum could wrap.)
#[tactic(auto, using(crate::specs::Laws::past_end))]
pub fn half_at(s: &[u8], at: usize, offset: u32) -> u16
    ensures { result ≡ or_zero (read 2 s.now (at + offset)) }
{
    let len = s.len();
    if at <= len {
        if offset as usize + 2 <= len - at {
            return util::or_zero::<u16>(s, at + offset as usize);
        }
    }
    0
}

// The four bytes at `offset` of the record at `at`, or 0 where the library ends before them.
#[tactic(auto, using(crate::specs::Laws::past_end))]
pub fn word_at(s: &[u8], at: usize, offset: u32) -> u32
    ensures { result ≡ or_zero (read 4 s.now (at + offset)) }
{
    let len = s.len();
    if at <= len {
        if offset as usize + 4 <= len - at {
            return util::or_zero::<u32>(s, at + offset as usize);
        }
    }
    0
}

pub fn copy_u32(s: &[u8], at: usize, offset: u32, out: &mut [u8], to: usize) -> usize
    ensures { Emits (value (le_bytes 4 (or_zero (read 4 s.now (at + offset))))) to out.old result out.new }
{
    put_u32(out, to, word_at(s, at, offset))
}
