// Whether the tables of rules and conditions are those of the stored book.
ghost use Rattle.std.specs.Prelude.{true, false, ◌↔◌, ◌≡◌};
ghost use Rattle.room.specs.Broken.{broken};
ghost use Rattle.checking.specs.Checked.{Indexed};

use crate::compare::{same_bytes, same_twos};
use book::reader::{BookSize, find_places};
use numbers::two_at;
use room::layout::{BOOK, CONDITION_PLACES, ENDS, RULE_CONDITIONS, RULE_PLACES};

// Whether the stored book is accepted, and the tables are those of its rules.
#[tactic(auto, using(crate::proofs::IndexLaws::room_large, crate::proofs::IndexLaws::book_within))]
pub fn index_agrees(room: &[u8]) -> bool
    requires { broken room.now ≡ false }
    ensures { (result ≡ true) ↔ Indexed room.now }
{
    let end = BOOK + two_at(room, 8);
    let Ok(found) = find_places(&room[BOOK..end]) else {
        return false;
    };
    let BookSize { rules, conditions } = found.size;
    let places = &found.places;
    rules == two_at(room, 10)
        && conditions == two_at(room, 12)
        && same_twos(&room[RULE_PLACES..RULE_CONDITIONS], &places.rules, rules)
        && same_bytes(&room[RULE_CONDITIONS..ENDS], &places.counts, rules)
        && same_twos(
            &room[CONDITION_PLACES..RULE_PLACES],
            &places.conditions,
            conditions,
        )
}
