// The bytes of a row, laid into an output.
// (The output and the place in it stand apart, as in the emitters of a sheet: as a struct they are handed on by way of memory, which is slower.)

#![tactic(auto)]

ghost use Rattle.std.specs.Prelude.{◌∷◌, [], ◌++◌, ◌≡◌};
ghost use Rattle.records.specs.Answer.{value};
ghost use Rattle.records.specs.Told.{told, told_as};
ghost use Rattle.typelib.specs.Told.{told_imp_file_as};
ghost use Rattle.typelib.specs.References.{external};
ghost use Rattle.sheet_constants.specs.Told.{told_content, told_shape};
ghost use Rattle.rows.specs.Told.{bytes_of_as, numbers_of, told_row_within};
ghost use Rattle.rows.specs.Values.{eights, five_words, place, opt_place, reference, span, content_bytes, constant, name_entry, name_numbers};
ghost use Rattle.emit.specs.Emit.{Emits};

use records::answer::{Place, Refusal, Refuses};
use records::field::Record;
use records::impfile::ImpFile;
use records::name::NameEntry;
use records::types::ConstValue;
use rows::row::{Longs, Row};
use sheet_constants::{Content, Shape};
use table_cursors::iterators::NameCursor;

fn put_longs(out: &mut [u8], to: usize, l: Longs) -> usize
    ensures { Emits (value (eights (numbers_of l))) to out.old result out.new }
{
    match l {
        Longs::One(a) => emit::put_le(out, to, a, 8),
        Longs::Two(a, b) => put_two(out, to, a, b),
        Longs::Three(a, b, c) => {
            let t = emit::put_le(out, to, a, 8);
            put_two(out, t, b, c)
        }
        Longs::Four(a, b, c, d) => {
            let t = put_two(out, to, a, b);
            put_two(out, t, c, d)
        }
        Longs::Five(a, b, c, d, e) => {
            let t = emit::put_le(out, to, a, 8);
            let t = put_two(out, t, b, c);
            put_two(out, t, d, e)
        }
    }
}

fn put_two(out: &mut [u8], to: usize, a: u64, b: u64) -> usize
    ensures { Emits (value (eights (a ∷ b ∷ []))) to out.old result out.new }
{
    let t = emit::put_le(out, to, a, 8);
    emit::put_le(out, t, b, 8)
}

fn put_place(out: &mut [u8], to: usize, p: Place) -> usize
    ensures { Emits (value (place p)) to out.old result out.new }
{
    put_two(out, to, p.at as u64, p.len as u64)
}

// 0, or 1 and the place.
fn put_opt_place<E: Refuses>(out: &mut [u8], to: usize, a: Result<Place, E>) -> usize
    ensures { Emits (value (opt_place (told_as E.number a))) to out.old result out.new }
{
    match a {
        Ok(p) => {
            let t = emit::put_u8(out, to, 1);
            put_place(out, t, p)
        }
        Err(_) => emit::put_u8(out, to, 0),
    }
}

// The record of an import, and the file that it names.
fn put_import<F: Refuses>(out: &mut [u8], to: usize, info: Place, file: Result<ImpFile, F>) -> usize
    ensures { Emits (value (reference (external info (told_imp_file_as F.number file)))) to out.old result out.new }
{
    let t = emit::put_u8(out, to, 2);
    let t = put_place(out, t, info);
    put_opt_place(out, t, file_place(file))
}

// (One line, as `rows::of` is: a closure for the method would be no shorter.)
fn file_place<F: Refuses>(file: Result<ImpFile, F>) -> Result<Place, F>
    ensures { told_as F.number result ≡ told_imp_file_as F.number file }
{
    Ok(file?.place())
}

// The place where there is one.
fn put_span(out: &mut [u8], to: usize, a: Result<Place, Refusal>) -> usize
    ensures { Emits (value (span (told a))) to out.old result out.new }
{
    match a {
        Ok(p) => put_place(out, to, p),
        Err(_) => to,
    }
}

// A constant's value, by the shape that its code has.
fn put_content(out: &mut [u8], to: usize, shape: Shape, content: Content) -> usize
    ensures { Emits (value (content_bytes (told_shape shape) (told_content content))) to out.old result out.new }
{
    match shape {
        Shape::Empty => to,
        Shape::Number(width) => emit::put_le(out, to, sheet_constants::number_in(content), width),
        Shape::Bit => emit::put_le(out, to, sheet_constants::number_in(content), 1),
        Shape::Octets(_) => put_span(out, to, sheet_constants::place_in(content)),
        Shape::Text => put_opt_place(out, to, sheet_constants::place_in(content)),
    }
}

fn put_constant(out: &mut [u8], to: usize, v: ConstValue) -> usize
    ensures { Emits (value (constant v)) to out.old result out.new }
{
    let code = v.vt();
    let t = emit::put_u16(out, to, code);
    put_content(
        out,
        t,
        sheet_constants::shape_of(code),
        sheet_constants::content_of(v),
    )
}

fn put_entry(out: &mut [u8], to: usize, e: NameEntry) -> usize
    ensures { Emits (value (name_entry e)) to out.old result out.new }
{
    let text = e.text;
    let t = put_longs(
        out,
        to,
        Longs::Three(e.offset as u64, text.at as u64, text.len as u64),
    );
    let t = emit::put_u32(out, t, e.hreftype.cast_unsigned());
    let t = emit::put_u32(out, t, e.next_hash.cast_unsigned());
    let t = emit::put_le(out, t, e.flags as u64, 1);
    emit::put_u16(out, t, e.hashcode)
}

// A record's place, its number, and the numbers of the cursor behind it.
fn put_step(out: &mut [u8], to: usize, record: Place, number: u64, next: Longs) -> usize
    ensures { Emits (value (eights (record.at ∷ record.len ∷ number ∷ numbers_of next))) to out.old result out.new }
{
    let t = put_longs(
        out,
        to,
        Longs::Three(record.at as u64, record.len as u64, number),
    );
    put_longs(out, t, next)
}

// The entry, its number, and the cursor behind it.
fn put_name_step(out: &mut [u8], to: usize, e: NameEntry, number: u64, c: NameCursor) -> usize
    ensures { Emits (value (name_entry e ++ eights (number ∷ name_numbers c))) to out.old result out.new }
{
    let t = put_entry(out, to, e);
    put_longs(
        out,
        t,
        Longs::Five(
            number,
            c.pos as u64,
            c.end as u64,
            c.start as u64,
            c.yielded,
        ),
    )
}

// Five words.
fn put_figures(out: &mut [u8], to: usize, a: u32, b: u32, c: u32, d: u32, e: u32) -> usize
    ensures { Emits (value (five_words a b c d e)) to out.old result out.new }
{
    let t = emit::put_u32(out, to, a);
    let t = emit::put_u32(out, t, b);
    let t = emit::put_u32(out, t, c);
    let t = emit::put_u32(out, t, d);
    emit::put_u32(out, t, e)
}

// The bytes of a row, or its refusal. (`E` refuses the row, `F` the file in it.)
pub fn put_row<F: Refuses, E: Refuses>(
    out: &mut [u8],
    to: usize,
    answer: Result<Row<F>, E>,
) -> usize
    ensures { Emits (told_row_within F.number E.number answer) to out.old result out.new }
{
    match answer {
        Ok(row) => put_values(out, to, row),
        Err(refusal) => emit::put_refusal(to, refusal.number_of()),
    }
}

// The bytes of a row that is there. (Each variant has its own bytes, as in `put_longs` and `put_content`: rows that hold closures would need the heap.)
fn put_values<F: Refuses>(out: &mut [u8], to: usize, row: Row<F>) -> usize
    ensures { Emits (value (bytes_of_as F.number row)) to out.old result out.new }
{
    match row {
        Row::Plain(l) => put_longs(out, to, l),
        Row::Words(a, b) => {
            let t = emit::put_u32(out, to, a);
            emit::put_u32(out, t, b)
        }
        Row::Step(record, number, next) => put_step(out, to, record, number, next),
        Row::Chain(l, next, yielded) => {
            let t = put_longs(out, to, l);
            let t = emit::put_u32(out, t, next);
            emit::put_le(out, t, yielded, 8)
        }
        Row::Marked(m, l) => {
            let t = emit::put_u8(out, to, m);
            put_longs(out, t, l)
        }
        Row::Half(m, a) => {
            let t = emit::put_u8(out, to, m);
            emit::put_u16(out, t, a)
        }
        Row::Word(m, a) => {
            let t = emit::put_u8(out, to, m);
            emit::put_u32(out, t, a)
        }
        Row::Import(p, file) => put_import(out, to, p, file),
        Row::Constant(v) => put_constant(out, to, v),
        Row::Entry(e, number, c) => put_name_step(out, to, e, number, c),
        Row::Figures(a, b, c, d, e) => put_figures(out, to, a, b, c, d, e),
    }
}
