ghost use Rattle.std.specs.Prelude.{◌≡◌, ◌&&◌, length, if◌then◌else◌, Some, None, nat_eq};
ghost use Rattle.layout.specs.Numbers.{number_at, zeros_at};
ghost use Rattle.layout.specs.Records.{opening_in, element_in, lower_in, upper_in};
ghost use Rattle.layout.specs.Records.{decode as decode_of};

use layout::{Opening, Record};
use network::{CaseData, Draft};
use verdicts::Verdict;

/// What the bytes of a record say; none where they are not sixteen or break the layout.
// A function and no `TryFrom`: that could stand only in the crate of `Record`, whose laws each edit here would prove
// again.
#[tactic(auto, unfolding(layout::specs::Records::decode))]
pub fn decode(bytes: &[u8]) -> Option<Record>
    ensures { result ≡ decode_of bytes.now }
{
    match bytes {
        [1, case_number, ship_kind, zones, rest @ ..] => {
            decode_opening(*case_number, *ship_kind, *zones, rest)
        }
        [2, kind, from, to, rest @ ..] => decode_element(*kind, *from, *to, rest),
        [3, verdict, 0, 0, rest @ ..] => decode_lower(*verdict, rest),
        [4, governing, 0, 0, rest @ ..] => decode_upper(*governing, rest),
        _ => None,
    }
}

fn decode_opening(case_number: u8, ship_kind: u8, zones: u8, rest: &[u8]) -> Option<Record>
    ensures { result ≡ opening_in case_number ship_kind zones rest.now }
{
    let [e0, e1, e2, e3, n0, n1, n2, n3, 0, 0, c0, c1] = rest else {
        return None;
    };
    let count = u16::from_be_bytes([*c0, *c1]);
    if !(1..=128).contains(&count) {
        return None;
    }
    let case_data = CaseData {
        case_number,
        ship_kind,
        zones,
        embarkation: u32::from_be_bytes([*e0, *e1, *e2, *e3]),
    };
    Some(Record::Opening(Opening {
        case_data,
        number: u32::from_be_bytes([*n0, *n1, *n2, *n3]),
        count,
    }))
}

fn decode_element(kind: u8, from: u8, to: u8, rest: &[u8]) -> Option<Record>
    ensures { result ≡ element_in kind from to rest.now }
{
    let [w0, w1, w2, w3, l0, l1, l2, l3, p0, p1, p2, p3] = rest else {
        return None;
    };
    Some(Record::Element(Draft {
        kind,
        from,
        to,
        width: u32::from_be_bytes([*w0, *w1, *w2, *w3]),
        length: u32::from_be_bytes([*l0, *l1, *l2, *l3]),
        persons: u32::from_be_bytes([*p0, *p1, *p2, *p3]),
    }))
}

// The time in the last eight of twelve bytes; none unless the first four are 0.
fn decode_time(rest: &[u8]) -> Option<u64>
    ensures { result ≡ (if nat_eq (length rest.now) 12 && zeros_at 0 4 rest.now then Some (number_at 4 8 rest.now) else None) }
{
    let [0, 0, 0, 0, t0, t1, t2, t3, t4, t5, t6, t7] = rest else {
        return None;
    };
    Some(u64::from_be_bytes([*t0, *t1, *t2, *t3, *t4, *t5, *t6, *t7]))
}

fn decode_lower(verdict: u8, rest: &[u8]) -> Option<Record>
    ensures { result ≡ lower_in verdict 0 0 rest.now }
{
    let verdict = Verdict::try_from(verdict).ok()?;
    Some(Record::Lower(verdict, decode_time(rest)?))
}

fn decode_upper(governing: u8, rest: &[u8]) -> Option<Record>
    ensures { result ≡ upper_in governing 0 0 rest.now }
{
    Some(Record::Upper(governing, decode_time(rest)?))
}
