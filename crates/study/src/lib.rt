#![tactic(auto)]

ghost use Rattle.network.specs.Tables.{listed};
ghost use Rattle.ledger.specs.Ledger.{ledger_with};
ghost use Rattle.ledger.specs.Reach.{LawfulLedger};

mod assessing;
mod calls;
mod performing;
mod views;

use ledger::Stage;
use network::{CaseData, Draft, Element, ElementTable, Refusal};
use verdicts::Finding;

/// A call on a study, with its arguments. Elements are numbered from 1.
#[derive(Clone, Copy, Debug)]
pub enum Call<'a, B> {
    Set(CaseData),
    Enter(Draft),
    Alter(u32, Draft),
    Strike(u32),
    Close,
    Reopen,
    Assess(&'a B),
}

/// The study of one ship: its case data, its elements, and whether both are settled.
#[derive(Drop)]
pub struct Study {
    // the stage beside the case data, and no enum of stages that holds it: an open study may have case data too
    stage: Stage,
    case: Option<CaseData>,
    elements: ElementTable,
    ghost lawful: { ∥ LawfulLedger (ledger_with stage case (listed elements)) ∥₁ },
}
