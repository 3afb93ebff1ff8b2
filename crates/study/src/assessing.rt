ghost use Rattle.std.specs.Prelude.{◌≡◌, length};
ghost use Rattle.ledger.specs.Ledger.{written};
ghost use Rattle.study.specs.Studies.{ledger_of, told_found, wrote, asked, FollowsLedger};

use super::*;
use network::ReadyNetwork;
use routes::find_ends;
use sheet::Line;
use verdicts::judge;
use walking::RuleBook;
use worksheet::Filling;

impl Study {
    /// The finding of a closed study by a rule book, with its worksheet in the first lines; the study is not altered.
    pub fn assess<B: RuleBook>(&self, book: &B, worksheet: &mut [Line]) -> Result<Finding, Refusal>
        ensures follows { FollowsLedger self.now (asked (B.WalkingTables.meaning book.now) (B.RuleBook.rules book.now) (length worksheet.old)) (told_found result) self.now }
        ensures worksheet { worksheet.new ≡ wrote (written (ledger_of self.now) (asked (B.WalkingTables.meaning book.now) (B.RuleBook.rules book.now) (length worksheet.old))) worksheet.old }
    {
        let Stage::Closed = self.stage else {
            return Err(Refusal::WrongStage);
        };
        let Some(case_data) = self.case else {
            return Err(Refusal::CaseNotSet);
        };
        let elements = self.elements.elements();
        if worksheet.len() < elements.len() {
            return Err(Refusal::WorksheetTooShort);
        }
        let network = ReadyNetwork { elements };
        Filling {
            tables: book,
            network,
        }
        .work_out(worksheet)?;
        let ends = find_ends(elements, worksheet);
        Ok(Finding {
            verdict: judge(book, case_data, ends.time),
            time: ends.time,
            governing: ends.governing,
        })
    }
}
