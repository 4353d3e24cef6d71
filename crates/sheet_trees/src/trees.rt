// Trees.
ghost use Rattle.std.specs.Prelude.{[], ◌∷◌, ◌+◌, Some, None};
ghost use Rattle.records.specs.Answer.{value};
ghost use Rattle.description.specs.Format.{le_bytes};
ghost use Rattle.sheet_trees.specs.Parts.{array_bytes, dimensions_bytes, inline_bytes};
ghost use Rattle.emit.specs.Emit.{Emits};
ghost use Rattle.sheet_trees.specs.Emitted.{ArrayPut, DescriptorPut, FieldPut, HeadPut, nested_emitted, tree_emitted, user_bytes};
ghost use Rattle.typelib.specs.Header.{library};

use crate::references;
use records::answer::Refusal;
use records::arraydesc::ArrayDesc;
use records::field::LIMIT;
use typelib::{Numbers, descriptors};
use util::NEGATIVE;

// The most descriptions that a tree nests. (`sheet_sizes`, which measures, has it for itself: one line, which a public name would not make plainer.)
const LEVELS: usize = 32;

// Where a description ends, and the type field under it, if there is one.
#[derive(Clone, Copy)]
pub struct Level {
    pub to: usize,
    pub inner: Option<u32>,
}

// The tree of a type field. (Most are negative, and need nothing but their own number.)
pub fn put_tree(s: &[u8], lib: &Numbers, field: u32, out: &mut [u8], to: usize) -> usize
    ensures { Emits (tree_emitted s.now (library lib.now) field) to out.old result out.new }
{
    if NEGATIVE <= field {
        put_inline(&*s, field, out, to)
    } else {
        put_nested(&*s, lib, field, LEVELS, out, to)
    }
}

// The same, of at most `levels` descriptions; refusal 11 where there are more. (By recursion, as a tree is read by the rule of the project.)
fn put_nested(
    s: &[u8],
    lib: &Numbers,
    field: u32,
    levels: usize,
    out: &mut [u8],
    to: usize,
) -> usize
    ensures { Emits (nested_emitted s.now (library lib.now) levels field) to out.old result out.new }
{
    if levels == 0 {
        return emit::put_refusal(to, Refusal::TooDeep.number());
    }
    let level = put_level(&*s, lib, field, out, to);
    match level.inner {
        Some(below) => put_nested(&*s, lib, below, levels - 1, out, level.to),
        None => level.to,
    }
}

// The base type that the low 12 bits of a negative field are.
fn put_inline(s: &[u8], field: u32, out: &mut [u8], to: usize) -> usize
    ensures { Emits (value (inline_bytes s.now field)) to out.old result out.new }
{
    if LIMIT < s.len() {
        emit::put_u8(out, to, 0)
    } else {
        put_base(util::bits(field, 0, 12) as u16, out, to)
    }
}

// One description of a tree. (It goes by the words of the descriptor: an enum of what they mean is slow to hand on.)
fn put_level(s: &[u8], lib: &Numbers, field: u32, out: &mut [u8], to: usize) -> Level
    ensures { FieldPut s.now (library lib.now) field to out.old result out.new }
{
    if LIMIT < s.len() {
        return put_nothing(out, to);
    }
    if NEGATIVE <= field {
        return put_leaf(util::bits(field, 0, 12) as u16, out, to);
    }
    match descriptors::type_desc_at(lib, &*s, field) {
        Ok(words) => {
            // most are pointers, and need no call
            if util::bits(words.first, 0, 12) == 26 {
                return put_over(2, words.second, out, to);
            }
            put_descriptor(&*s, lib, words.first, words.second, out, to)
        }
        Err(_) => put_nothing(out, to),
    }
}

// The description that the two words of a type descriptor are.
// (A code is any number of the file: those that mean something have an arm.)
pub fn put_descriptor(
    s: &[u8],
    lib: &Numbers,
    first: u32,
    second: u32,
    out: &mut [u8],
    to: usize,
) -> Level
    ensures { DescriptorPut s.now (library lib.now) first second to out.old result out.new }
{
    let code = util::bits(first, 0, 12);
    match code {
        26 => put_over(2, second, out, to),
        27 => put_over(3, second, out, to),
        28 => put_array_at(&*s, lib, util::bits(second, 0, 16), out, to),
        29 => put_user(&*s, lib, second, out, to),
        _ => put_leaf(code as u16, out, to),
    }
}

// A pointer or a safe array, by its code byte: the tree of `below` stands under it. (The byte is put as it is, and so is a code of the file below.)
fn put_over(mark: u8, below: u32, out: &mut [u8], to: usize) -> Level
    ensures { HeadPut (mark ∷ []) (Some below) to out.old result out.new }
{
    Level {
        to: emit::put_u8(out, to, mark),
        inner: Some(below),
    }
}

fn put_nothing(out: &mut [u8], to: usize) -> Level
    ensures { HeadPut (0 ∷ []) None to out.old result out.new }
{
    Level {
        to: emit::put_u8(out, to, 0),
        inner: None,
    }
}

fn put_leaf(vt: u16, out: &mut [u8], to: usize) -> Level
    ensures { HeadPut (1 ∷ le_bytes 2 vt) None to out.old result out.new }
{
    Level {
        to: put_base(vt, out, to),
        inner: None,
    }
}

fn put_base(vt: u16, out: &mut [u8], to: usize) -> usize
    ensures { Emits (value (1 ∷ le_bytes 2 vt)) to out.old result out.new }
{
    emit::put_le(out, to, 1 + 256 * (vt as u64), 3)
}

// A reference. (The test of `put_reference` stands here again, so that `put_elsewhere` has two callers.)
fn put_user(s: &[u8], lib: &Numbers, href: u32, out: &mut [u8], to: usize) -> Level
    ensures { HeadPut (user_bytes s.now (library lib.now) href) None to out.old result out.new }
{
    let t = emit::put_u8(out, to, 5);
    let end = if util::bits(href, 0, 2) == 0 {
        references::put_in_this_file(&*s, lib, href, out, t)
    } else {
        references::put_elsewhere(&*s, lib, href, out, t)
    };
    Level {
        to: end,
        inner: None,
    }
}

// A C array, by the offset of its descriptor.
fn put_array_at(s: &[u8], lib: &Numbers, offset: u32, out: &mut [u8], to: usize) -> Level
    ensures { ArrayPut s.now (library lib.now) offset to out.old result out.new }
{
    match descriptors::array_desc_at(lib, &*s, offset) {
        Ok(desc) => Level {
            to: put_array(&*s, desc, out, to),
            inner: Some(emit::word_at(&*s, desc.at, 0x00)),
        },
        Err(_) => put_nothing(out, to),
    }
}

// A C array's descriptor: the count of its dimensions, and each.
fn put_array(s: &[u8], desc: ArrayDesc, out: &mut [u8], to: usize) -> usize
    ensures { Emits (value (array_bytes s.now desc.at)) to out.old result out.new }
{
    let count = emit::half_at(&*s, desc.at, 0x04);
    let t = emit::put_u8(out, to, 4);
    let t = emit::put_u16(out, t, count);
    put_dimensions(&*s, desc.at, count, out, t)
}

// The dimensions of the array descriptor at `at`, eight bytes each, behind its eight bytes. (They end at the last place: arrays may share
// their dimensions, and then there may be far more of them than bytes.)
fn put_dimensions(s: &[u8], at: usize, count: u16, out: &mut [u8], to: usize) -> usize
    ensures { Emits (value (dimensions_bytes s.now (at + 8) count)) to out.old result out.new }
{
    let mut t = to;
    for k in 0..count as u32 {
        if emit::PAST <= t {
            return t;
        }
        let offset = 8 + 8 * k;
        t = emit::copy_u32(&*s, at, offset, out, t);
        t = emit::copy_u32(&*s, at, offset + 4, out, t);
    }
    t
}
