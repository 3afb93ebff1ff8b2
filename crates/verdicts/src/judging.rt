ghost use Rattle.std.specs.Prelude.{◌≡◌, ◌+◌, ◌*◌, ◌≤◌};
ghost use Rattle.verdicts.specs.Verdicts.{verdict, launching as launching_of, score as score_of, bar as bar_of};

use super::Verdict;
use exact::Ends;
use network::CaseData;
use walking::RuleBook;

// A rule book, and the case data that it judges a time by.
#[derive(Drop)]
struct Judging<'a, B> {
    book: &'a B,
    case_data: CaseData,
}

impl<'a, B: RuleBook> Judging<'a, B> {
    fn launching(&self) -> u32
        ensures { result ≡ launching_of self.now.case_data }
    {
        if self.case_data.embarkation == 0 {
            1800
        } else {
            self.case_data.embarkation
        }
    }

    // In 128 bits, so that it fits for every time of 64.
    fn score(&self, time: u64) -> u128
        ensures { result ≡ score_of (B.RuleBook.rules self.now.book.now) self.now.case_data time }
    {
        let response = self.book.response(self.case_data.case_number) as u128;
        let factor = self.book.factor(self.case_data.case_number) as u128;
        let launch = self.launching() as u128;
        150 * response * 1_000_000 + 80 * launch * 1_000_000 + 15 * factor * time as u128
    }

    fn bar(&self) -> u128
        ensures { result ≡ bar_of (B.RuleBook.rules self.now.book.now) self.now.case_data }
    {
        let data = self.case_data;
        let limit = self.book.limit(data.ship_kind, data.zones);
        7_200_000_000 * limit as u128
    }

    fn verdict(&self, time: Ends) -> Verdict
        ensures { result ≡ verdict (B.RuleBook.rules self.now.book.now) self.now.case_data time.lower time.upper }
    {
        let bar = self.bar();
        if self.launching() > 1800 || self.score(time.lower) > bar {
            Verdict::Exceeds
        } else if self.score(time.upper) <= bar {
            Verdict::Meets
        } else {
            Verdict::Undecided
        }
    }
}

/// The verdict on a time, by both its ends in microseconds.
pub fn judge<B: RuleBook>(book: &B, case_data: CaseData, time: Ends) -> Verdict
    ensures { result ≡ verdict (B.RuleBook.rules book.now) case_data time.lower time.upper }
{
    Judging { book, case_data }.verdict(time)
}
