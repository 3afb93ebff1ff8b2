ghost use Rattle.std.specs.Prelude.{◌≡◌};
ghost use Rattle.flows.specs.Points.{SmallLines, arrivals_at as arrivals_of};

use super::Arrivals;
use exact::Ends;
use network::Element;
use sheet::Line;

/// The flows and the persons of all elements that lead to a point.
pub fn arrivals_at(elements: &[Element], sheet: &[Line], point: u8) -> Arrivals
    requires { SmallLines elements.now sheet.now }
    ensures { result ≡ arrivals_of elements.now sheet.now point }
{
    let mut lower = 0;
    let mut upper = 0;
    let mut persons = 0;
    // a loop over two slices, as a rule of the project asks here: the lines are lent apart from the elements
    for (element, line) in elements.iter().zip(sheet) {
        if element.to == point {
            lower += line.flow.lower;
            upper += line.flow.upper;
            persons += line.persons;
        }
    }
    Arrivals {
        flow: Ends { lower, upper },
        persons,
    }
}
