// A group is the registers that are held at 0 while CRB, CRC or CRD disables their channel, and goes by what switches them; all others are the
// core's. A request may change the core, and the registers of one group or of none.
ghost use Rattle.std.specs.Prelude.{◌≡◌};
ghost use Rattle.channels.specs.Groups.{span_of, by_does, group_for};

use crate::rows;
use commands::channel;
use commands::channel::Channel;
use commands::command::{Control, Does};
use commands::request::Request;

// So many bytes among the registers, from a place on.
#[derive(Clone, Copy)]
pub struct Span {
    pub first: usize,
    pub many: usize,
}

// The bytes of the core but for the ID, which stands behind them.
pub const CORE_SIZE: usize = 11;

// The most bytes of a group.
pub const SPAN_MOST: usize = 168;

// The bytes of a group. Where there is none, their place is behind the core, where the first group starts.
pub fn span_of(group: Option<Control>) -> Span
    ensures { result ≡ span_of group }
{
    match group {
        None => Span { first: 15, many: 0 },
        Some(Control::B) => Span {
            first: 15,
            many: 160,
        },
        Some(Control::C) => Span {
            first: 175,
            many: 168,
        },
        Some(Control::D) => Span {
            first: 343,
            many: 63,
        },
    }
}

fn by_does(group: Option<Control>, does: Does) -> Option<Control>
    ensures { result ≡ by_does group does }
{
    match does {
        Does::Switch(control) => Some(control),
        _ => group,
    }
}

// The group that a request may change, whatever its answer is. Only the controller's commands switch, so that only they are looked up.
#[tactic(auto, using(crate::proofs::Cases::others_group), unfolding(crate::specs::Groups::group_for))]
pub fn group_for(q: Request) -> Option<Control>
    ensures { result ≡ group_for q }
{
    let which = channel::channel_of(q.ch)?;
    let own = rows::row_of(which).group;
    match which {
        Channel::Controller => by_does(own, channel::command_of(Some(which), q.cmd)?.does),
        _ => own,
    }
}
