// docs/RULES.md, "What can be seen", "Marks and zones" and "Passing": the refusals of the operations over a list of heights, for each
// engine, direction or stretch that shares them.
#![tactic(auto)]

ghost use Rattle.std.specs.Prelude.{◌≡◌};
ghost use Rattle.verdicts.specs.Verdicts.{look_verdict, sight_verdict, profile_verdict, marks_verdict, passing_verdict};

use terms::{Refusal, Verdict};

// A look along a road: the heights of the eye and of the object in h-units, and the farthest distance in metres.
#[derive(Clone, Copy, Debug, PartialEq, Eq)]
pub struct Look {
    pub eye: u32,
    pub object: u32,
    pub farthest: u32,
}

impl Look {
    // Refusals 17 and 21.
    #[tactic(auto, unfolding(crate::specs::Verdicts::look_verdict))]
    fn verdict(self) -> Verdict
        ensures { result ≡ look_verdict self.eye self.object self.farthest }
    {
        if terms::eye_or_object_outside(self.eye, self.object) {
            return Err(Refusal::HeightOutside);
        }
        if terms::outside(1, terms::GREATEST_FARTHEST, self.farthest) {
            return Err(Refusal::FarthestOutside);
        }
        Ok(())
    }
}

// Sight from one station, over as many heights.
#[tactic(auto, unfolding(crate::specs::Verdicts::sight_verdict))]
pub fn sight_verdict(heights: usize, station: u32, look: Look) -> Verdict
    ensures { result ≡ sight_verdict heights station look.eye look.object look.farthest }
{
    if terms::list_outside(heights) {
        return Err(Refusal::ListOutside);
    }
    if heights <= station as usize {
        return Err(Refusal::NoStation);
    }
    look.verdict()
}

// The sight profile, but for the room in its list.
#[tactic(auto, unfolding(crate::specs::Verdicts::profile_verdict))]
pub fn profile_verdict(heights: usize, look: Look) -> Verdict
    ensures { result ≡ profile_verdict heights look.eye look.object look.farthest }
{
    if terms::list_outside(heights) {
        return Err(Refusal::ListOutside);
    }
    look.verdict()
}

// Marks, but for the room in their list.
#[tactic(auto, unfolding(crate::specs::Verdicts::marks_verdict))]
pub fn marks_verdict(speed: u32, purpose: u32, grade: i32, heights: usize) -> Verdict
    ensures { result ≡ marks_verdict speed purpose grade heights }
{
    if terms::outside(terms::LEAST_SPEED, terms::GREATEST_SPEED, speed) {
        return Err(Refusal::SpeedOutside);
    }
    if terms::outside(terms::FIRST_DECISION, terms::LAST_PURPOSE, purpose) {
        return Err(Refusal::WrongPurpose);
    }
    if terms::grade_outside(grade) {
        return Err(Refusal::GradeOutside);
    }
    if terms::list_outside(heights) {
        return Err(Refusal::ListOutside);
    }
    Ok(())
}

// Passing marks, but for the room in their list.
#[tactic(auto, unfolding(crate::specs::Verdicts::passing_verdict))]
pub fn passing_verdict(heights: usize, distance: u32) -> Verdict
    ensures { result ≡ passing_verdict heights distance }
{
    if terms::list_outside(heights) {
        return Err(Refusal::ListOutside);
    }
    if terms::outside(1, terms::GREATEST_FARTHEST, distance) {
        return Err(Refusal::FarthestOutside);
    }
    Ok(())
}
