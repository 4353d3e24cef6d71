// A caller's own type as a reply: it says what is replied of its answers, which a `Refusal` refuses.
ghost use Rattle.std.specs.Prelude.{refl};
ghost use Rattle.records.specs.Answer.{map};
ghost use Rattle.records.specs.Told.{told};

use crate::reply::{Reply, of};
use records::answer::Refusal;
use records::types::TypeKind;

#[derive(Clone, Copy)]
struct Percent(u8);

impl Reply for Percent {
    ghost answer = { λ a. map (λ p. p.0) (told a) };

    ghost refuses = { λ _. refl };

    fn number(self) -> u32 {
        self.0 as u32
    }
}

#[test]
fn an_answer_is_replied(rt: HostRuntime) {
    assert_eq!(rt; of(Ok(Percent(40))), 40);
    assert_eq!(rt; Percent(40).number(), 40);
    assert_eq!(rt; of::<Percent>(Err(Refusal::Circle)), -10);
    // (A signed number by its bits, a truth as 1: include/msft_typelib.h. TKIND_DISPATCH is 4 in Microsoft's TYPEKIND.)
    assert_eq!(rt; of(Ok(-1i16)), 65_535);
    assert_eq!(rt; (-1i16).number(), 65_535);
    assert_eq!(rt; of(Ok(true)), 1);
    assert_eq!(rt; of(Ok(TypeKind::Dispatch)), 4);
    assert_eq!(rt; of::<u32>(Err(Refusal::TooManyTypes)), -13);
}
