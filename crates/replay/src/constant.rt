// A constant against its recorded bytes: the code of its type in two bytes, and the value at its own
// width. Of a text a byte says whether it is one and not null, and its place is an answer of its own,
// as is a decimal's. (The code goes beside the value, as it is recorded before each.)
use crate::answers::Answers;
use records::answer::Refusal;
use records::types::ConstValue;

pub(crate) fn same_constant(answers: &mut Answers, answer: Result<ConstValue, Refusal>) {
    match answer {
        Ok(value) => same_value(answers, value.vt(), value),
        Err(refusal) => answers.same::<(u16, u32)>(Err(refusal)),
    }
}

fn same_value(answers: &mut Answers, vt: u16, value: ConstValue) {
    match value {
        ConstValue::R4(x) => answers.same(Ok((vt, x))),
        ConstValue::R8(x) => answers.same(Ok((vt, x))),
        ConstValue::Date(x) => answers.same(Ok((vt, x))),
        ConstValue::R4Nan(bits) => answers.same(Ok((vt, bits))),
        ConstValue::R8Nan(bits) => answers.same(Ok((vt, bits))),
        ConstValue::DateNan(bits) => answers.same(Ok((vt, bits))),
        ConstValue::Cy(x) => answers.same(Ok((vt, x))),
        ConstValue::I8(x) => answers.same(Ok((vt, x))),
        ConstValue::UI8(x) => answers.same(Ok((vt, x))),
        ConstValue::Filetime(x) => answers.same(Ok((vt, x))),
        ConstValue::Bstr(place) => {
            answers.same(Ok((vt, true)));
            answers.same(Ok(place));
        }
        ConstValue::NullBstr => answers.same(Ok((vt, false))),
        ConstValue::Decimal(place) => {
            answers.same(Ok(vt));
            answers.same(Ok(place));
        }
        _ => same_word(answers, vt, value),
    }
}

// Constants of at most four bytes that are no floats.
fn same_word(answers: &mut Answers, vt: u16, value: ConstValue) {
    match value {
        ConstValue::I1(x) => answers.same(Ok((vt, x))),
        ConstValue::UI1(x) => answers.same(Ok((vt, x))),
        ConstValue::Bool(x) => answers.same(Ok((vt, x))),
        ConstValue::I2(x) => answers.same(Ok((vt, x))),
        ConstValue::UI2(x) => answers.same(Ok((vt, x))),
        ConstValue::I4(x) => answers.same(Ok((vt, x))),
        ConstValue::Error(x) => answers.same(Ok((vt, x))),
        ConstValue::Int(x) => answers.same(Ok((vt, x))),
        ConstValue::Hresult(x) => answers.same(Ok((vt, x))),
        ConstValue::UI4(x) => answers.same(Ok((vt, x))),
        ConstValue::UInt(x) => answers.same(Ok((vt, x))),
        ConstValue::Raw { vt: _, bits } => answers.same(Ok((vt, bits))),
        // Empty, Null and Void hold nothing.
        _ => answers.same(Ok(vt)),
    }
}
