ghost use Rattle.std.specs.Prelude.{◌≡◌, MatchResult};
ghost use Rattle.network.specs.Refusals.{told};
ghost use Rattle.network.specs.Sentences.{first_true};
ghost use Rattle.network.specs.Checks.{element_of, wrong_length, wrong_points, wrong_persons, measure_sentences, element_sentences, case_sentences};
ghost use Rattle.network.specs.Lawful.{LawfulElement, LawfulDraft, LawfulCase};

use super::*;

/// What is wrong with case data first; the place counts its items from 1.
pub fn check_case(data: CaseData) -> Result<(), Refusal>
    ensures answered { told result ≡ first_true (case_sentences «data») tt }
    ensures lawful { MatchResult result (λ _. LawfulCase «data») (λ _. LawfulCase «data» → ⊥) }
{
    if !(1..=4).contains(&data.case_number) {
        return Err(Refusal::CaseDataOutOfRange(1));
    }
    if !(1..=2).contains(&data.ship_kind) {
        return Err(Refusal::CaseDataOutOfRange(2));
    }
    if !(1..=20).contains(&data.zones) {
        return Err(Refusal::CaseDataOutOfRange(3));
    }
    if data.embarkation > 7200 {
        return Err(Refusal::CaseDataOutOfRange(4));
    }
    Ok(())
}

/// The element that a draft describes, or what is wrong with it, by the number that it has or would get.
pub fn check_element(draft: Draft, number: u32) -> Result<Element, Refusal>
    ensures answered { told result ≡ first_true (element_sentences draft number) (element_of draft) }
    ensures lawful { MatchResult result LawfulElement (λ _. LawfulDraft draft → ⊥) }
{
    let kind = Kind::try_from(draft.kind).map_err(|_| Refusal::UnknownKind(number))?;
    let element = Element {
        kind,
        from: draft.from,
        to: draft.to,
        width: draft.width,
        length: draft.length,
        persons: draft.persons,
    };
    element.checked(number)
}

impl Element {
    // The element itself, or what is wrong with its measures first.
    fn checked(self, number: u32) -> Result<Element, Refusal>
        ensures answered { told result ≡ first_true (measure_sentences self number) self }
    {
        if !(500..=10_000).contains(&self.width) {
            return Err(Refusal::WidthOutOfRange(number));
        }
        if self.has_wrong_length() {
            return Err(Refusal::LengthOutOfRange(number));
        }
        if self.has_wrong_points() {
            return Err(Refusal::WrongPoints(number));
        }
        if self.has_wrong_persons() {
            return Err(Refusal::WrongPersons(number));
        }
        Ok(self)
    }

    fn has_wrong_length(self) -> bool
        ensures { result ≡ wrong_length self.kind self.length }
    {
        match self.kind {
            Kind::Door => self.length != 0,
            _ => !(100..=100_000).contains(&self.length),
        }
    }

    fn has_wrong_points(self) -> bool
        ensures { result ≡ wrong_points self.from self.to }
    {
        self.from > 64 || self.to > 64 || self.from != 0 && self.to != 0 && self.to <= self.from
    }

    fn has_wrong_persons(self) -> bool
        ensures { result ≡ wrong_persons self.kind self.from self.persons }
    {
        let is_stair = matches!(self.kind, Kind::StairDown | Kind::StairUp);
        self.persons > 8000 || self.persons != 0 && (is_stair || self.from != 0)
    }
}
