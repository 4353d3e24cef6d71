// What a type is based on.
ghost use Rattle.sheet_bases.specs.Bases.{impl_type_emitted};
ghost use Rattle.sheet_sizes.specs.Counted.{base_counted, chain_counted, impl_types_counted, reference_counted};
ghost use Rattle.sheet_sizes.specs.Counts.{Ending, Measured};
ghost use Rattle.typelib.specs.Header.{library};

use crate::{Ends, trees};
use cursors::iterators::Step;
use impltypes::ImplTypeCursor;
use records::answer::Refusal;
use records::field::LIMIT;
use records::refrecord::RefRecord;
use records::typeinfo::TypeInfoEntry;
use sheet_trees::references;
use typelib::Numbers;

// The base of a type of that kind. (A kind is any number of the file: those with a base have an arm.)
pub(crate) fn after_base(s: &[u8], lib: &Numbers, ti: TypeInfoEntry, kind: u32, from: Ends) -> Ends
    ensures { Ending (base_counted s.now (library lib.now) ti kind) from result }
{
    match kind {
        3 | 4 => after_parent(&*s, lib, emit::word_at(s, ti.at, 0x54), from),
        5 => after_chain(&*s, lib, ti, from),
        6 => trees::after_tree(&*s, lib, emit::word_at(s, ti.at, 0x54), from),
        _ => from,
    }
}

// The interface under a type. (A reference is measured by its emitter, over an output with no room.)
fn after_parent(s: &[u8], lib: &Numbers, href: u32, from: Ends) -> Ends
    ensures { Ending (reference_counted s.now (library lib.now) href) from result }
{
    let mut none = [0u8; 0];
    Ends {
        to: references::put_reference(&*s, lib, href, &mut none, from.to),
        references: crate::ahead(from.references, 1),
    }
}

// The chain of implemented types: its count, and each.
fn after_chain(s: &[u8], lib: &Numbers, ti: TypeInfoEntry, from: Ends) -> Ends
    ensures { Ending (impl_types_counted s.now (library lib.now) ti) from result }
{
    match impltypes::impl_types_at(lib, &*s, ti) {
        Ok(cursor) => after_links(&*s, lib, cursor, from),
        Err(refusal) => Ends {
            to: emit::put_refusal(from.to, refusal.number()),
            references: from.references,
        },
    }
}

// The chain from a cursor on; refusal 10 where it comes round. It is not walked first: its records are counted on the way, a reference each.
// (There is room for no more than length - 15 records at different offsets.)
// (A `loop`: a `for` of a turn too many replies the same and is proved too, but a circle said a record too late must be refused.)
fn after_links(s: &[u8], lib: &Numbers, cursor: ImplTypeCursor, from: Ends) -> Ends
    ensures { Ending (chain_counted s.now (library lib.now) cursor) from result }
{
    if LIMIT < s.len() {
        return Ends {
            to: emit::put_refusal(from.to, Refusal::OverLong.number()),
            references: from.references,
        };
    }
    let mut t = crate::ahead(from.to, 4);
    let mut c = cursor;
    let mut n: usize = 0;
    loop {
        let Step::Record(link, _, next) = c.step(&*s) else {
            return Ends {
                to: t,
                references: crate::ahead(from.references, n),
            };
        };
        if s.len() - 15 <= n {
            return Ends {
                to: emit::put_refusal(from.to, Refusal::Circle.number()),
                references: from.references,
            };
        }
        t = after_link(&*s, lib, link, t);
        c = next;
        n += 1;
    }
}

// A record of the chain: a reference, and its flags.
fn after_link(s: &[u8], lib: &Numbers, link: RefRecord, to: usize) -> usize
    ensures { Measured (impl_type_emitted s.now (library lib.now) link) to result }
{
    let href = emit::word_at(s, link.at, 0x00);
    let mut none = [0u8; 0];
    let t = references::put_reference(&*s, lib, href, &mut none, to);
    crate::ahead(t, 4)
}
