ghost use Rattle.std.specs.Prelude.{◌≡◌, ◌≤◌, ◌++◌, length, drop, replicate};
ghost use Rattle.network.specs.Refusals.{told};
ghost use Rattle.network.specs.Sentences.{first_true};
ghost use Rattle.sheet.specs.Lines.{no_line};
ghost use Rattle.worksheet.specs.Thin.{line_thin, first_thin_line, number_or_none, thin_sentences, worked_out};

use super::Filling;
use network::Refusal;
use sheet::Line;
use walking::WalkingTables;

// Whether persons pass at a flow that is too thin to work with.
fn is_thin(line: &Line) -> bool
    ensures { result ≡ line_thin line.now }
{
    line.persons > 0 && line.flow.lower < 10_000_000
}

/// The number of the first element with a thin flow, from 1.
pub fn first_thin(sheet: &[Line]) -> Option<u32>
    requires { length sheet.now ≤ 128 }
    ensures { result ≡ number_or_none (first_thin_line sheet.now 0) }
{
    sheet.iter().position(is_thin).map(|index| index as u32 + 1)
}

/// Sets the first lines to zeros.
// The count beside the sheet, and no shorter sheet: the promise says that lines beyond are not touched.
pub fn clear_lines(count: usize, sheet: &mut [Line])
    requires { count ≤ length sheet.old }
    ensures { sheet.new ≡ replicate count no_line ++ drop count sheet.old }
{
    sheet[0..count].fill(Line::default());
}

impl<T: WalkingTables> Filling<'_, '_, T> {
    /// The worksheet of the network, unless a flow is thin: then the first such element refuses it, and the lines of
    /// the elements are zeros.
    pub fn work_out(&self, sheet: &mut [Line]) -> Result<(), Refusal>
        requires { length self.now.network.elements.now ≤ length sheet.old }
        ensures answered { told result ≡ first_true (thin_sentences (T.WalkingTables.meaning self.now.tables.now) self.now.network.elements.now) tt }
        ensures written { sheet.new ≡ worked_out (T.WalkingTables.meaning self.now.tables.now) self.now.network.elements.now ++ drop (length self.now.network.elements.now) sheet.old }
    {
        let count = self.network.elements.len();
        self.fill(sheet);
        match first_thin(&sheet[0..count]) {
            Some(number) => {
                clear_lines(count, sheet);
                Err(Refusal::FlowTooThin(number))
            }
            None => Ok(()),
        }
    }
}
