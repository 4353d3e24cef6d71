// The methods of each kind of record, in the order in which their answers are recorded; and the check of a text.
// (A row of calls for each kind: each calls other methods with other replies, and what they share is `same`. The answers are lent to be
// changed, so they stand apart from the record and its index.)
use crate::answers::Answers;
use crate::asked::Kind;
use crate::entry::Item;
use member_records::func::FuncRecord;
use member_records::param::ParameterInfo;
use member_records::var::VarRecord;
use records::answer::Place;
use records::arraydesc::ArrayDesc;
use records::guid::Guid;
use records::guidentry::GuidEntry;
use records::impfile::ImpFile;
use records::impinfo::ImpInfo;
use records::name::NameEntry;
use records::refrecord::RefRecord;
use records::textcheck;
use records::typeinfo::TypeInfoEntry;
use records::types::TypeKind;
use texts::types;

// Longer than any text that a method writes. (A method takes an output and replies how much of it is the text.)
const TEXT_ROOM: usize = 64;

// Compares all answers to a question about a record or a text: its numbers are the place and the length,
// and an index for the methods that take one, or the number itself for a conversion from a number.
// What is left uncompared, of a number that is too large, counts as a difference at the end.
// (An arm for each kind: each record is a type of its own.)
pub(crate) fn replay(answers: &mut Answers, kind: Kind, item: &Item) {
    let at = item.first as usize;
    let len = item.second as usize;
    let number = item.third;
    let index = number as usize;
    match kind {
        Kind::Guid => guid(answers, Guid { at, len }),
        Kind::GuidEntry => guidentry(answers, GuidEntry { at, len }),
        Kind::Param => param(answers, ParameterInfo { at, len }),
        Kind::RefRecord => refrecord(answers, RefRecord { at, len }),
        Kind::ImpInfo => impinfo(answers, ImpInfo { at, len }),
        Kind::ArrayDesc => arraydesc(answers, ArrayDesc { at, len }, index),
        Kind::ImpFile => impfile(answers, ImpFile { at, len }),
        Kind::TypeInfo => typeinfo(answers, TypeInfoEntry { at, len }),
        Kind::Var => var(answers, VarRecord { at, len }),
        Kind::Func => func(answers, FuncRecord { at, len }, index),
        Kind::VtName => vt_name(answers, number),
        Kind::TypeKind => typekind(answers, number),
        Kind::Name => name(answers, Place { at, len }, number),
        Kind::TextCheck => answers.same(textcheck::text_check(answers.lent, at, len)),
    }
}

fn guid(answers: &mut Answers, record: Guid) {
    let lent = answers.lent;
    answers.same(record.as_bytes(lent));
    answers.same(record.data1(lent));
    answers.same(record.data2(lent));
    answers.same(record.data3(lent));
    answers.same(record.data4(lent));
    guid_text(answers, record);
}

fn guid_text(answers: &mut Answers, record: Guid) {
    let mut text = [0u8; TEXT_ROOM];
    let answer = texts::guid::text(record, answers.lent, &mut text);
    answers.same_text(&text, answer);
}

fn guidentry(answers: &mut Answers, record: GuidEntry) {
    let lent = answers.lent;
    answers.same(record.guid(lent));
    answers.same(record.hreftype(lent));
    answers.same(record.next_hash(lent));
}

fn param(answers: &mut Answers, record: ParameterInfo) {
    let lent = answers.lent;
    answers.same(record.datatype(lent));
    answers.same(record.name_offset(lent));
    answers.same(record.flags(lent));
    answers.same(record.is_in(lent));
    answers.same(record.is_out(lent));
    answers.same(record.is_retval(lent));
    answers.same(record.is_optional(lent));
}

fn refrecord(answers: &mut Answers, record: RefRecord) {
    let lent = answers.lent;
    answers.same(record.reftype(lent));
    answers.same(record.flags(lent));
    answers.same(record.onext(lent));
    answers.same(record.is_default(lent));
    answers.same(record.is_source(lent));
    answers.same(record.is_restricted(lent));
}

fn impinfo(answers: &mut Answers, record: ImpInfo) {
    let lent = answers.lent;
    answers.same(record.flags(lent));
    answers.same(record.imp_file_offset(lent));
    answers.same(record.guid_offset(lent));
}

fn arraydesc(answers: &mut Answers, record: ArrayDesc, index: usize) {
    let lent = answers.lent;
    answers.same(record.element_type(lent));
    answers.same(record.num_dims(lent));
    answers.same(record.flags(lent));
    answers.same(record.bound(lent, index));
    answers.same(record.size(lent));
}

fn impfile(answers: &mut Answers, record: ImpFile) {
    let lent = answers.lent;
    answers.same(record.guid_offset(lent));
    answers.same(record.lcid(lent));
    answers.same(record.major_version(lent));
    answers.same(record.minor_version(lent));
    answers.same(record.size_field(lent));
    answers.same(record.filename(lent));
    answers.same(record.filename_bytes(lent));
    answers.same(record.entry_size(lent));
}

// (A long row of calls is slow to prove, so it stands in parts here and below.)
fn typeinfo(answers: &mut Answers, record: TypeInfoEntry) {
    typeinfo_members(answers, record);
    typeinfo_names(answers, record);
    typeinfo_rest(answers, record);
}

fn typeinfo_members(answers: &mut Answers, record: TypeInfoEntry) {
    let lent = answers.lent;
    answers.same(record.as_bytes(lent));
    answers.same(record.typekind(lent));
    answers.same(record.typekind_raw(lent));
    answers.same(record.memoffset(lent));
    answers.same(record.res2(lent));
    answers.same(record.celement(lent));
    answers.same(record.func_count(lent));
    answers.same(record.var_count(lent));
}

fn typeinfo_names(answers: &mut Answers, record: TypeInfoEntry) {
    let lent = answers.lent;
    answers.same(record.guid_offset(lent));
    answers.same(record.flags(lent));
    answers.same(record.name_offset(lent));
    answers.same(record.version(lent));
    answers.same(record.docstring_offset(lent));
    answers.same(record.cimpltypes(lent));
    answers.same(record.cb_size_vft(lent));
    answers.same(record.size(lent));
}

fn typeinfo_rest(answers: &mut Answers, record: TypeInfoEntry) {
    let lent = answers.lent;
    answers.same(record.datatype1(lent));
    answers.same(record.datatype2(lent));
    answers.same(record.helpstringcontext(lent));
    answers.same(record.helpcontext(lent));
    answers.same(record.cust_data_offset(lent));
    answers.same(record.res3(lent));
    answers.same(record.res18(lent));
    answers.same(record.res19(lent));
}

fn var(answers: &mut Answers, record: VarRecord) {
    answers.same(VarRecord::from_raw(answers.lent, record.at, record.len));
    var_fixed(answers, record);
    var_attributes(answers, record);
}

fn var_fixed(answers: &mut Answers, record: VarRecord) {
    let lent = answers.lent;
    answers.same(record.as_bytes(lent));
    answers.same(record.info(lent));
    answers.same(record.record_size(lent));
    answers.same(record.datatype(lent));
    answers.same(record.flags(lent));
    answers.same(record.varkind(lent));
    answers.same(record.vardesc_size(lent));
    answers.same(record.offs_value(lent));
}

fn var_attributes(answers: &mut Answers, record: VarRecord) {
    let lent = answers.lent;
    answers.same(record.help_context(lent));
    answers.same(record.help_string_offset(lent));
    answers.same(record.res9(lent));
    answers.same(record.cust_data_offset(lent));
    answers.same(record.helpstringcontext(lent));
}

fn func(answers: &mut Answers, record: FuncRecord, index: usize) {
    func_fixed(answers, record);
    func_kinds(answers, record);
    func_flags(answers, record, index);
    func_attributes(answers, record, index);
}

fn func_fixed(answers: &mut Answers, record: FuncRecord) {
    let lent = answers.lent;
    answers.same(record.as_bytes(lent));
    answers.same(record.info(lent));
    answers.same(record.record_size(lent));
    answers.same(record.datatype(lent));
    answers.same(record.flags(lent));
    answers.same(record.vtable_offset(lent));
    answers.same(record.funcdesc_size(lent));
}

fn func_kinds(answers: &mut Answers, record: FuncRecord) {
    let lent = answers.lent;
    answers.same(record.fkccic(lent));
    answers.same(record.func_kind(lent));
    answers.same(record.invoke_kind(lent));
    answers.same(record.callconv(lent));
    answers.same(record.nrargs(lent));
    answers.same(record.nroargs(lent));
}

fn func_flags(answers: &mut Answers, record: FuncRecord, index: usize) {
    let lent = answers.lent;
    answers.same(record.has_default_values(lent));
    answers.same(record.default_value_offset(lent, index));
    answers.same(record.has_cust_data(lent));
    answers.same(record.has_arg_cust_data(lent));
}

fn func_attributes(answers: &mut Answers, record: FuncRecord, index: usize) {
    let lent = answers.lent;
    answers.same(record.help_context(lent));
    answers.same(record.help_string_offset(lent));
    answers.same(record.oentry(lent));
    answers.same(record.res9(lent));
    answers.same(record.res_a(lent));
    answers.same(record.helpstringcontext(lent));
    answers.same(record.cust_data_offset(lent));
    answers.same(record.arg_cust_data_offset(lent, index));
}

// The name of a type's code, which has 16 bits. (The question's number has 32, here and below, and may be no code.)
fn vt_name(answers: &mut Answers, code: u32) {
    if let Ok(code) = u16::try_from(code) {
        let mut text = [0u8; TEXT_ROOM];
        let answer = types::vt_name(code, &mut text);
        answers.same_text(&text, answer);
    }
}

// The kind of a raw number, which has 8 bits, and the kind's word.
fn typekind(answers: &mut Answers, raw: u32) {
    if let Ok(raw) = u8::try_from(raw) {
        let kind = TypeKind::from_raw(raw);
        answers.same(Ok(kind));
        let mut text = [0u8; TEXT_ROOM];
        let answer = types::word(kind, &mut text);
        answers.same_text(&text, answer);
    }
}

// A name entry with that text, whose numbers are made from one. The reference holds none whose text is
// not UTF-8 or not inside the lent bytes; of such a one only the name is asked for.
// (The difference and the remainder say as plainly as `!` and a cast alone which numbers these are.)
fn name(answers: &mut Answers, text: Place, number: u32) {
    let entry = NameEntry {
        offset: number as usize,
        text,
        hreftype: number.cast_signed(),
        next_hash: (0xffff_ffff - number).cast_signed(),
        flags: (number % 0x100) as u8,
        hashcode: (number / 0x1_0000) as u16,
    };
    name_entry(answers, entry);
}

// The name, and the numbers of an entry that has one.
pub(crate) fn name_entry(answers: &mut Answers, entry: NameEntry) {
    let name = entry.name(answers.lent);
    answers.same(name);
    if name.is_ok() {
        answers.same(Ok(entry.offset()));
        answers.same(Ok(entry.hreftype()));
        answers.same(Ok(entry.next_hash()));
        answers.same(Ok(entry.name_flags()));
        answers.same(Ok(entry.hashcode()));
    }
}
