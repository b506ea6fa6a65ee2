// The ranges of a receiver's fields, for number 6.
ghost use Rattle.std.specs.Prelude.{◌≡◌, ℕ, ◌<◌, ◌≤◌, true, eqb, drop, get_or};
ghost use Rattle.std.specs.List.{list_all};
ghost use Rattle.wire.specs.Bits.{num, wire};
ghost use Rattle.receiver.specs.Receiver.{fields_fit, in_range};
ghost use Rattle.receiver.specs.Inner.{Good, control_of};

use crate::Receiver;
use crate::scanning::Control;

// The most bits of content that a receiver keeps: more than 144, with a flag's zero and five ones.
const CONTENT_MOST: u8 = 152;

// Up to five ones of a run stand in the content.
#[tactic(auto, unfolding(crate::specs::Receiver::fields_fit))]
fn fields_fit(c: Control) -> bool
    ensures value { result ≡ fields_fit c.mode c.ones c.lead c.count }
    ensures room { result ≡ true → c.count ≤ 152 }
{
    if c.mode > 1 || c.ones > 7 || c.lead > 1 || c.count > CONTENT_MOST {
        return false;
    }
    if c.mode == 0 {
        c.count == 0 && c.lead == 0
    } else {
        c.ones <= 6 && c.lead + c.ones.min(5) <= c.count
    }
}

fn all_zero(s: &[u8]) -> bool
    ensures { result ≡ list_all (λ x. eqb x 0) s.now }
{
    s.iter().all(|x| *x == 0)
}

// Whether no bit at count or above is set.
#[tactic(auto, using(crate::proofs::Content::clear))]
fn clear_from(bytes: &[u8; 20], count: u8) -> bool
    requires { count ≤ 152 }
    ensures value { result ≡ eqb (num (drop count (wire bytes.now))) 0 }
    ensures bytes { (i : ℕ) → get_or bytes.now i 0 < 256 }
{
    let k = (count / 8) as usize;
    bytes[k] >> (count % 8) == 0 && all_zero(&bytes[k + 1..])
}

#[tactic(auto, unfolding(crate::specs::Receiver::in_range))]
pub(crate) fn in_range(rx: Receiver) -> bool
    ensures value { result ≡ in_range rx }
    ensures good { result ≡ true → Good (control_of rx) rx.bytes }
{
    let c = Control::from(rx);
    fields_fit(c) && clear_from(&rx.bytes, c.count)
}
