// What a type is based on: the interface under it, the interfaces that it implements, or the type that it names.
// (What an emitter takes stands apart: a struct of more than two numbers is handed on by way of memory, which made sheets slower.)

#![tactic(auto)]

ghost use Rattle.std.specs.Prelude.{◌≡◌};
ghost use Rattle.records.specs.Answer.{value};
ghost use Rattle.impltypes.specs.Chain.{walk_of};
ghost use Rattle.sheet_bases.specs.Bases.{base_emitted, chain_emitted, links_bytes, impl_type_emitted, impl_types_emitted};
ghost use Rattle.emit.specs.Emit.{Emits};
ghost use Rattle.typelib.specs.Header.{library};

use cursors::iterators::Step;
use impltypes::ImplTypeCursor;
use records::refrecord::RefRecord;
use records::typeinfo::TypeInfoEntry;
use sheet_trees::{references, trees};
use typelib::Numbers;

// The base of a type of that kind. (The kind is the number that the type's head emits, whatever it is: those with a base have an arm.)
pub fn put_base(
    s: &[u8],
    lib: &Numbers,
    ti: TypeInfoEntry,
    kind: u32,
    out: &mut [u8],
    to: usize,
) -> usize
    ensures { Emits (base_emitted s.now (library lib.now) ti kind) to out.old result out.new }
{
    match kind {
        3 | 4 => references::put_reference(&*s, lib, emit::word_at(&*s, ti.at, 0x54), out, to),
        5 => put_chain(&*s, lib, ti, out, to),
        6 => trees::put_tree(&*s, lib, emit::word_at(&*s, ti.at, 0x54), out, to),
        _ => to,
    }
}

// The chain of implemented types: how many the full walk takes, and each; 10 where it comes round.
// (`put_type_of` has this form alone: what is read and what is emitted are others, and closures for both would be longer.)
fn put_chain(s: &[u8], lib: &Numbers, ti: TypeInfoEntry, out: &mut [u8], to: usize) -> usize
    ensures { Emits (impl_types_emitted s.now (library lib.now) ti) to out.old result out.new }
{
    match impltypes::impl_types_at(lib, &*s, ti) {
        Ok(cursor) => put_walked(&*s, lib, cursor, out, to),
        Err(refusal) => emit::put_refusal(to, refusal.number()),
    }
}

fn put_walked(s: &[u8], lib: &Numbers, cursor: ImplTypeCursor, out: &mut [u8], to: usize) -> usize
    ensures { Emits (chain_emitted s.now (library lib.now) cursor) to out.old result out.new }
{
    let count = match cursor.walk(&*s) {
        Ok(count) => count,
        Err(refusal) => return emit::put_refusal(to, refusal.number()),
    };
    let t = emit::put_le(out, to, count as u64, 4);
    put_links(&*s, lib, cursor, count, out, t)
}

// The `count` records that the walk took.
fn put_links(
    s: &[u8],
    lib: &Numbers,
    cursor: ImplTypeCursor,
    count: usize,
    out: &mut [u8],
    to: usize,
) -> usize
    requires { value count ≡ walk_of s.now cursor }
    ensures { Emits (value (links_bytes s.now (library lib.now) cursor count 0)) to out.old result out.new }
{
    let mut t = to;
    let mut c = cursor;
    for _ in 0..count {
        let Step::Record(link, _, next) = c.step(&*s) else {
            return t;
        };
        t = put_link(&*s, lib, link, out, t);
        c = next;
    }
    t
}

// A record of the chain: a reference, and its flags.
fn put_link(s: &[u8], lib: &Numbers, link: RefRecord, out: &mut [u8], to: usize) -> usize
    ensures { Emits (impl_type_emitted s.now (library lib.now) link) to out.old result out.new }
{
    let href = emit::word_at(&*s, link.at, 0x00);
    let t = references::put_reference(&*s, lib, href, out, to);
    emit::copy_u32(&*s, link.at, 0x04, out, t)
}
