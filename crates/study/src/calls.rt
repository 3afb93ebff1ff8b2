ghost use Rattle.std.specs.Prelude.{◌≡◌, []};
ghost use Rattle.ledger.specs.Ledger.{new_ledger, setting, entering, altering, striking, closing, reopening};
ghost use Rattle.ledger.specs.Runs.{Run};
ghost use Rattle.study.specs.Studies.{ledger_of, told_done, FollowsLedger};

use super::*;
use network::{check_case, check_element};

// Each call matches on the stage in place, as a rule of the project asks (docs/DECISIONS.md, Studies).
impl Study {
    /// An open study without a case and without elements.
    pub fn new() -> Study
        ensures empty { ledger_of result ≡ new_ledger }
        ensures run { Run [] (ledger_of result) }
    {
        Study {
            stage: Stage::Open,
            case: None,
            elements: ElementTable::new(),
        }
    }

    /// Stores the case data, in place of any there were.
    pub fn set(&mut self, data: CaseData) -> Result<(), Refusal>
        ensures { FollowsLedger self.old (setting «data») (told_done result) self.new }
    {
        match self.stage {
            Stage::Closed => Err(Refusal::WrongStage),
            Stage::Open => {
                check_case(data)?;
                self.case = Some(data);
                Ok(())
            }
        }
    }

    /// Appends an element, which gets the next number.
    pub fn enter(&mut self, draft: Draft) -> Result<(), Refusal>
        ensures { FollowsLedger self.old (entering draft) (told_done result) self.new }
    {
        match self.stage {
            Stage::Closed => Err(Refusal::WrongStage),
            Stage::Open => {
                let count = self.elements.count();
                if count >= 128 {
                    return Err(Refusal::TableFull);
                }
                let element = check_element(draft, count as u32 + 1)?;
                self.elements.push(element);
                Ok(())
            }
        }
    }

    /// Replaces the element with this number.
    pub fn alter(&mut self, number: u32, draft: Draft) -> Result<(), Refusal>
        ensures { FollowsLedger self.old (altering number draft) (told_done result) self.new }
    {
        match self.stage {
            Stage::Closed => Err(Refusal::WrongStage),
            Stage::Open => {
                let replaced = self.index_of(number)?;
                let element = check_element(draft, number)?;
                self.elements.replace(replaced, element);
                Ok(())
            }
        }
    }

    /// Removes the element with this number; later ones move down by one.
    pub fn strike(&mut self, number: u32) -> Result<(), Refusal>
        ensures { FollowsLedger self.old (striking number) (told_done result) self.new }
    {
        match self.stage {
            Stage::Closed => Err(Refusal::WrongStage),
            Stage::Open => {
                let removed = self.index_of(number)?;
                self.elements.remove(removed);
                Ok(())
            }
        }
    }

    /// Settles the study, if it can be assessed.
    pub fn close(&mut self) -> Result<(), Refusal>
        ensures { FollowsLedger self.old closing (told_done result) self.new }
    {
        match self.stage {
            Stage::Closed => Err(Refusal::WrongStage),
            Stage::Open => {
                if self.case.is_none() {
                    return Err(Refusal::CaseNotSet);
                }
                if !(1..=8000).contains(&self.elements.aboard()) {
                    return Err(Refusal::AboardOutOfRange);
                }
                self.elements.check_points()?;
                self.stage = Stage::Closed;
                Ok(())
            }
        }
    }

    /// Makes a closed study alterable again.
    pub fn reopen(&mut self) -> Result<(), Refusal>
        ensures { FollowsLedger self.old reopening (told_done result) self.new }
    {
        match self.stage {
            Stage::Open => Err(Refusal::WrongStage),
            Stage::Closed => {
                self.stage = Stage::Open;
                Ok(()) // whatever the study holds
            }
        }
    }
}
