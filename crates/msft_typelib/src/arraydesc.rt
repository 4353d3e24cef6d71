// A C array's descriptor, by its place.
ghost use Rattle.replies.specs.Call.{bits32, laid, outcome, reply};
ghost use Rattle.rows.specs.Values.{bound};
ghost use Rattle.records.specs.Answer.{map};
ghost use Rattle.records.specs.Counted.{bound_of};
ghost use Rattle.records.specs.Layout.{array_desc};
ghost use Rattle.records.specs.Record.{field, signed32};
ghost use Rattle.msft_typelib.specs.Rows.{array_desc_size_row};
ghost use Rattle.std.specs.Prelude.{◌≡◌};

use records::arraydesc::ArrayDesc;
use replies::reply;

// The type field of the elements.
#[unsafe(no_mangle)]
pub extern "C" fn msft_arraydesc_element_type(s: &[u8], at: usize, len: usize) -> i64
    ensures { result ≡ reply (bits32 (signed32 (field array_desc "element type" s.now at len))) }
{
    reply::of_told(ArrayDesc { at, len }.element_type(s))
}

// The number of dimensions.
#[unsafe(no_mangle)]
pub extern "C" fn msft_arraydesc_num_dims(s: &[u8], at: usize, len: usize) -> i64
    ensures { result ≡ reply (field array_desc "dimensions" s.now at len) }
{
    reply::of_told(ArrayDesc { at, len }.num_dims(s))
}

#[unsafe(no_mangle)]
pub extern "C" fn msft_arraydesc_flags(s: &[u8], at: usize, len: usize) -> i64
    ensures { result ≡ reply (field array_desc "flags" s.now at len) }
{
    reply::of_told(ArrayDesc { at, len }.flags(s))
}

// The bounds of dimension `index`, counted from 0.
#[unsafe(no_mangle)]
pub extern "C" fn msft_arraydesc_bound(
    s: &[u8],
    at: usize,
    len: usize,
    index: usize,
    out: &mut [u8],
) -> i64
    ensures { outcome result out.new ≡ laid (map bound (bound_of index s.now at len)) out.old }
{
    reply::lay(rows::of_within(ArrayDesc { at, len }.bound(s, index)), out)
}

// The descriptor's length with its bounds, by its count of dimensions.
#[unsafe(no_mangle)]
pub extern "C" fn msft_arraydesc_size(s: &[u8], at: usize, len: usize, out: &mut [u8]) -> i64
    ensures { outcome result out.new ≡ laid (array_desc_size_row s.now at len) out.old }
{
    reply::lay(rows::of_within(ArrayDesc { at, len }.size(s)), out)
}
