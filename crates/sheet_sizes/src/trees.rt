// Trees.
ghost use Rattle.std.specs.Prelude.{◌≡◌, ◌≤◌, None};
ghost use Rattle.emit.specs.Emit.{advance, past};
ghost use Rattle.sheet_sizes.specs.Counted.{tree_counted};
ghost use Rattle.sheet_sizes.specs.Counts.{Ending};
ghost use Rattle.sheet_sizes.specs.Trees.{DescriptorCounted, FieldCounted, NestedCounted, UserCounted, Under};
ghost use Rattle.typelib.specs.Header.{library};

use crate::Ends;
use records::answer::Refusal;
use records::field::LIMIT;
use sheet_trees::trees::Level;
use sheet_trees::{references, trees};
use typelib::{Numbers, descriptors};
use util::NEGATIVE;

// The most descriptions that a tree nests.
const LEVELS: usize = 32;

// Below `after_tree` a tree's end and whether it has a reference are one number, since a struct is replied by way of memory: the place,
// and this much more behind a reference. (A tree has at most one, its last description.)
const REFERENCE: usize = 0x1_0000_0000;

// Refusal 11, as a place. (A place and a refusal are one number, as in `emit`; a constant has no call of `put_refusal`.)
const TOO_DEEP: usize = 16_777_229;

// The tree of a type field. (Most are negative, and need nothing but their own number.)
pub(crate) fn after_tree(s: &[u8], lib: &Numbers, field: u32, from: Ends) -> Ends
    ensures { Ending (tree_counted s.now (library lib.now) field) from result }
{
    if emit::PAST < from.to {
        return from;
    }
    if field < NEGATIVE {
        let end = after_nested(&*s, lib, field, LEVELS, from.to);
        return Ends {
            to: end % REFERENCE,
            references: crate::ahead(from.references, end / REFERENCE),
        };
    }
    if LIMIT < s.len() {
        return Ends {
            to: crate::ahead(from.to, 1),
            references: from.references,
        };
    }
    Ends {
        to: crate::ahead(from.to, 3),
        references: from.references,
    }
}

// The same, of at most `levels` descriptions; refusal 11 where there are more. (Two pointers are passed at once: a call is dear beside what
// a description asks for.)
fn after_nested(s: &[u8], lib: &Numbers, field: u32, levels: usize, to: usize) -> usize
    requires { to ≤ past }
    ensures { NestedCounted s.now (library lib.now) levels field to result }
{
    if levels == 0 {
        return TOO_DEEP;
    }
    if 2 <= levels {
        if let Some(below) = under_two(&*s, lib, field) {
            return after_nested(&*s, lib, below, levels - 2, crate::ahead(to, 2));
        }
    }
    let level = after_level(&*s, lib, field, to);
    match level.inner {
        Some(below) => after_nested(&*s, lib, below, levels - 1, level.to),
        None => level.to,
    }
}

// The type field under a pointer or a safe array to another.
fn under_two(s: &[u8], lib: &Numbers, field: u32) -> Option<u32>
    ensures { Under s.now (library lib.now) 2 field result }
{
    under_one(&*s, lib, under_one(&*s, lib, field)?)
}

// The type field under a pointer or a safe array.
fn under_one(s: &[u8], lib: &Numbers, field: u32) -> Option<u32>
    ensures { Under s.now (library lib.now) 1 field result }
{
    if LIMIT < s.len() {
        return None;
    }
    if NEGATIVE <= field {
        return None;
    }
    let Ok(words) = descriptors::type_desc_at(lib, &*s, field) else {
        return None;
    };
    match util::bits(words.first, 0, 12) {
        26 | 27 => Some(words.second),
        _ => None,
    }
}

// One description of a tree.
fn after_level(s: &[u8], lib: &Numbers, field: u32, to: usize) -> Level
    requires { to ≤ past }
    ensures { FieldCounted s.now (library lib.now) field to result }
{
    if LIMIT < s.len() {
        return leaf(to, 1);
    }
    if NEGATIVE <= field {
        return leaf(to, 3);
    }
    match descriptors::type_desc_at(lib, &*s, field) {
        Ok(words) => after_descriptor(&*s, lib, words.first, words.second, to),
        Err(_) => leaf(to, 1),
    }
}

// The description that the two words of a type descriptor are: by its emitter, over an output with no room, unless it is a
// pointer or a safe array, as most are. (A code is any number of the file: those that mean something have an arm.)
fn after_descriptor(s: &[u8], lib: &Numbers, first: u32, second: u32, to: usize) -> Level
    requires { to ≤ past }
    ensures { DescriptorCounted s.now (library lib.now) first second to result }
{
    match util::bits(first, 0, 12) {
        26 | 27 => Level {
            to: crate::ahead(to, 1),
            inner: Some(second),
        },
        29 => Level {
            to: after_user(&*s, lib, second, to) + REFERENCE,
            inner: None,
        },
        _ => {
            let mut none = [0u8; 0];
            trees::put_descriptor(&*s, lib, first, second, &mut none, to)
        }
    }
}

// A reference, behind its code byte.
fn after_user(s: &[u8], lib: &Numbers, href: u32, to: usize) -> usize
    requires { to ≤ past }
    ensures { UserCounted s.now (library lib.now) href to result }
{
    let mut none = [0u8; 0];
    references::put_reference(&*s, lib, href, &mut none, crate::ahead(to, 1))
}

// A description of `n` bytes with nothing under it.
fn leaf(to: usize, n: usize) -> Level
    ensures { (result.to ≡ advance to n) × (result.inner ≡ None) }
{
    Level {
        to: crate::ahead(to, n),
        inner: None,
    }
}
