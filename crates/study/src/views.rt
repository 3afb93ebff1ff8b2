// What a study holds, for its callers to read.
ghost use Rattle.std.specs.Prelude.{◌≡◌, ◌-◌, ◌<◌, [], ◌∷◌, length, IfOk};
ghost use Rattle.network.specs.Elements.{numbered};
ghost use Rattle.network.specs.Refusals.{told};
ghost use Rattle.network.specs.Sentences.{first_true};
ghost use Rattle.network.specs.Tables.{listed};
ghost use Rattle.ledger.specs.Ledger.{number_sentence};
ghost use Rattle.ledger.specs.Reach.{LawfulLedger};
ghost use Rattle.study.specs.Studies.{ledger_of};

use super::*;

impl Study {
    /// The stage; and whatever it is, the study keeps what every study keeps.
    pub fn stage(&self) -> Stage
        ensures value { result ≡ (ledger_of self.now).stage }
        ensures lawful { ∥ LawfulLedger (ledger_of self.now) ∥₁ }
    {
        self.stage
    }

    pub fn case_data(&self) -> Option<CaseData>
        ensures { result ≡ (ledger_of self.now).case }
    {
        self.case
    }

    pub fn count(&self) -> usize
        ensures { result ≡ length (ledger_of self.now).elements }
    {
        self.elements.count()
    }

    /// The elements in order of number.
    pub fn elements(&self) -> &[Element]
        ensures { result.now ≡ (ledger_of self.now).elements }
    {
        self.elements.elements()
    }

    /// The element with this number, from 1.
    pub fn element(&self, number: u32) -> Option<Element>
        ensures { result ≡ numbered (ledger_of self.now).elements number }
    {
        let index = self.index_of(number).ok()?;
        Some(self.elements()[index])
    }

    // Where the element with this number lies.
    pub(crate) fn index_of(&self, number: u32) -> Result<usize, Refusal>
        ensures answered { told result ≡ first_true (number_sentence (listed self.now.elements) number ∷ []) (number - 1) }
        ensures there { IfOk result (λ i. i < length (listed self.now.elements)) }
    {
        let numbers = 1..=self.elements.count();
        if !numbers.contains(&(number as usize)) {
            return Err(Refusal::NoSuchElement(number));
        }
        Ok(number as usize - 1)
    }
}
