// What a step looks up in a room, before it changes anything.
ghost use Rattle.std.specs.Prelude.{false, ◌≡◌};
ghost use Rattle.room.specs.Broken.{broken};
ghost use Rattle.step.specs.Looked.{LookedUp};

use numbers::two_at;
use reading::Reading;
use room::layout::{ORDER, ROWS, SLOTS};
use row::order::{rank_of, stands_at};

// How many readings are present, the place of its own among them, and whether it stands there.
#[derive(Clone, Copy)]
pub struct Looked {
    pub count: usize,
    pub place: usize,
    pub present: bool,
}

// Looks a reading up in a room that is not broken.
pub fn look_up(room: &[u8], w: Reading) -> Looked
    requires { broken room.now ≡ false }
    ensures { LookedUp room.now w result.count result.place result.present }
{
    let order = &room[ORDER..SLOTS];
    let slots = &room[SLOTS..ROWS];
    let count = two_at(room, 4);
    let place = rank_of(order, slots, count, w);
    let present = stands_at(order, slots, count, place, w);
    Looked {
        count,
        place,
        present,
    }
}
