// An advance over a transport that stands in the caller's memory, for a caller that has it by
// value: it is lent to `advance_in_place`, and handed back as that leaves it.
#![tactic(auto)]

ghost use Rattle.std.specs.Prelude.{◌≡◌};
ghost use Rattle.transport.specs.Advances.{advance_answer};
ghost use Rattle.transport.specs.Readings.{read_advanced};

use transport::{Handed, Moves, Transport};

pub fn in_place(mut t: Transport, frames: u64) -> Handed<Moves>
    ensures { read_advanced result ≡ advance_answer t frames }
{
    let answer = transport::advance_in_place(&mut t, frames);
    Handed {
        transport: t,
        answer,
    }
}
