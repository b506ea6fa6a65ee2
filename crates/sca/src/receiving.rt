// A receiver as bytes: mode, ones, lead, count, then the content's 20 bytes.
ghost use Rattle.std.specs.Prelude.{◌≡◌};
ghost use Rattle.sca.specs.Link.{receiver_of, receiver_bytes};

use receiver::Receiver;

const HEAD: usize = 4;

const CONTENT: usize = 20;

const BYTES: usize = HEAD + CONTENT;

// Kept: two functions and no From, since neither type is of this crate, and crate receiver knows nothing of how C spells one.

// The receiver that bytes spell.
#[tactic(auto, unfolding(parts::specs::Parts::part))]
pub(crate) fn spelled_by(s: &[u8; BYTES]) -> Receiver
    ensures { result ≡ receiver_of s.now }
{
    let mut bytes = [0; CONTENT];
    bytes.copy_from_slice(&s[HEAD..]);
    Receiver {
        mode: s[0],
        ones: s[1],
        lead: s[2],
        count: s[3],
        bytes,
    }
}

// The bytes that spell a receiver.
pub(crate) fn bytes_of(rx: Receiver) -> [u8; BYTES]
    ensures { result ≡ receiver_bytes rx }
{
    let mut s = [0; BYTES];
    s[..HEAD].copy_from_slice(&[rx.mode, rx.ones, rx.lead, rx.count]);
    s[HEAD..].copy_from_slice(&rx.bytes);
    s
}
