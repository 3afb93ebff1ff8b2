ghost use Rattle.std.specs.Prelude.{◌≡◌, length};
ghost use Rattle.ledger.specs.Ledger.{written};
ghost use Rattle.ledger.specs.Reach.{EveryRunIsLawful};
ghost use Rattle.ledger.specs.Sound.{EveryRunIsSound};
ghost use Rattle.study.specs.Studies.{ledger_of, request_of, told_outcome, wrote, FollowsLedger};

use super::*;
use sheet::Line;
use walking::RuleBook;

#[tactic(auto, using(ledger::proofs::Reaches::every_run_is_lawful, ledger::proofs::Soundness::every_run_is_sound), unfolding(ledger::specs::Ledger::written))]
impl Study {
    /// Carries out a call; what it does depends on the stage. An assessment gives its finding, any other call none.
    pub fn perform<B: RuleBook>(
        &mut self,
        call: Call<'_, B>,
        worksheet: &mut [Line],
    ) -> Result<Option<Finding>, Refusal>
        ensures follows { FollowsLedger self.old (request_of B.WalkingTables.meaning B.RuleBook.rules (length worksheet.old) call.entry) (told_outcome result) self.new }
        ensures worksheet { worksheet.new ≡ wrote (written (ledger_of self.old) (request_of B.WalkingTables.meaning B.RuleBook.rules (length worksheet.old) call.entry)) worksheet.old }
        ensures reachable { EveryRunIsLawful }
        ensures sound { EveryRunIsSound }
    {
        // a match on both together, though each call asks the stage itself: a rule of the
        // project (docs/DECISIONS.md, Studies)
        match (self.stage, call) {
            (Stage::Open, Call::Set(data)) => self.set(data).map(|()| None),
            (Stage::Open, Call::Enter(draft)) => self.enter(draft).map(|()| None),
            (Stage::Open, Call::Alter(number, draft)) => self.alter(number, draft).map(|()| None),
            (Stage::Open, Call::Strike(number)) => self.strike(number).map(|()| None),
            (Stage::Open, Call::Close) => self.close().map(|()| None),
            (Stage::Closed, Call::Reopen) => self.reopen().map(|()| None),
            (Stage::Closed, Call::Assess(book)) => self.assess(book, worksheet).map(Some),
            (Stage::Open, Call::Reopen | Call::Assess(_)) => Err(Refusal::WrongStage),
            (
                Stage::Closed,
                Call::Set(_) | Call::Enter(_) | Call::Alter(_, _) | Call::Strike(_) | Call::Close,
            ) => Err(Refusal::WrongStage),
        }
    }
}
