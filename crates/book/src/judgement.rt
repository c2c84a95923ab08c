// Refusals 4, 7, 5 and 6, in this order, of a record that was taken apart: by what the records before it have left.
ghost use Rattle.std.specs.Prelude.{◌≡◌};
ghost use Rattle.book.specs.Judgement.{test_fits, printable, wording_of, unfinished, rule_judged, condition_judged, test_judged, end_judged, judged};

use crate::record::{Record, Test};
use crate::refusal::{Cause, MOST_CONDITIONS, MOST_RULES, MOST_TESTS};

// What of the records before decides about the next one: how many rules, the last one's number, how many conditions that rule has,
// how many tests the last of these; and the conditions of all rules.
#[derive(Clone, Copy, Debug, PartialEq, Eq)]
pub struct Standing {
    pub rules: usize,
    pub last: u16,
    pub conditions: usize,
    pub tests: usize,
    pub total: usize,
}

// Whether each byte is 32 to 126.
fn all_printable(text: &[u8]) -> bool
    ensures { result ≡ printable text.now }
{
    text.iter().all(|b| 32 <= *b && *b <= 126)
}

// The wording in a rule's body: the 24 bytes after the number, or an empty part where they are not all there.
#[tactic(auto, unfolding(crate::specs::Judgement::wording_of))]
pub fn wording_of<'a>(body: &'a [u8]) -> &'a [u8]
    ensures { result.now ≡ wording_of body.now }
{
    body.get(2..26).unwrap_or(&[])
}

// Whether a test's numbers are in range in condition `own` of its rule.
#[tactic(auto, unfolding(crate::specs::Judgement::test_fits))]
pub fn test_fits(t: Test, own: usize) -> bool
    ensures { result ≡ test_fits t own }
{
    match t {
        Test::Constant {
            place,
            relation,
            ..
        } => place <= 2 && relation <= 5,
        Test::Position {
            place,
            relation,
            condition,
            other,
        } => place <= 2 && relation <= 5 && (condition as usize) <= own && other <= 2,
        Test::Gap {
            place,
            condition,
            other,
            low,
            high,
        } => place <= 2 && (condition as usize) <= own && other <= 2 && low <= high,
    }
}

// Whether there is a rule in hand and it has no condition yet.
#[tactic(auto, unfolding(crate::specs::Judgement::unfinished))]
fn is_unfinished(s: Standing) -> bool
    ensures { result ≡ unfinished s }
{
    s.rules != 0 && s.conditions == 0
}

#[tactic(auto, unfolding(crate::specs::Judgement::rule_judged))]
fn judge_rule(s: Standing, number: u16, body: &[u8]) -> Result<(), Cause>
    ensures { result ≡ rule_judged s number body.now }
{
    if is_unfinished(s) {
        return Err(Cause::Misplaced);
    }
    if MOST_RULES <= s.rules {
        return Err(Cause::TooMany);
    }
    if number <= s.last {
        return Err(Cause::NumberNotAbove);
    }
    if all_printable(wording_of(body)) {
        return Ok(());
    }
    Err(Cause::BadBody)
}

#[tactic(auto, unfolding(crate::specs::Judgement::condition_judged))]
fn judge_condition(s: Standing) -> Result<(), Cause>
    ensures { result ≡ condition_judged s }
{
    if s.rules == 0 {
        return Err(Cause::Misplaced);
    }
    if MOST_CONDITIONS <= s.conditions {
        return Err(Cause::TooMany);
    }
    Ok(())
}

#[tactic(auto, unfolding(crate::specs::Judgement::test_judged))]
fn judge_test(s: Standing, t: Test) -> Result<(), Cause>
    ensures { result ≡ test_judged s t }
{
    if s.conditions == 0 {
        return Err(Cause::Misplaced);
    }
    if MOST_TESTS <= s.tests {
        return Err(Cause::TooMany);
    }
    if test_fits(t, s.conditions - 1) {
        return Ok(());
    }
    Err(Cause::BadBody)
}

#[tactic(auto, unfolding(crate::specs::Judgement::end_judged))]
fn judge_end(s: Standing) -> Result<(), Cause>
    ensures { result ≡ end_judged s }
{
    if is_unfinished(s) {
        return Err(Cause::Misplaced);
    }
    Ok(())
}

// Why a record is refused, tried for 4, 7, 5 and 6, if it is; `body` is the part of the book after its kind.
#[tactic(auto, unfolding(crate::specs::Judgement::judged))]
pub fn judge(s: Standing, r: Record, body: &[u8]) -> Result<(), Cause>
    ensures { result ≡ judged s r body.now }
{
    match r {
        Record::Rule { number } => judge_rule(s, number, body),
        Record::Condition => judge_condition(s),
        Record::Test(t) => judge_test(s, t),
        Record::End => judge_end(s),
    }
}
