ghost use Rattle.std.specs.Prelude.{◌≡◌, ◌∷◌};
ghost use Rattle.layout.specs.Numbers.{bytes_of};
ghost use Rattle.layout.specs.declared.Record.TheVariants.{Opening as OpeningRecord, Element as ElementRecord};
ghost use Rattle.layout.specs.Records.{encode as encode_of};

use layout::{Opening, Record};
use network::Draft;

/// The sixteen bytes of a record.
// A function and no `From`: that could stand only in the crate of `Record`, whose laws each edit here would prove again.
#[tactic(auto, unfolding(layout::specs::Records::encode))]
pub fn encode(record: Record) -> [u8; 16]
    ensures { result ≡ encode_of «record» }
{
    match record {
        Record::Opening(opening) => encode_opening(opening),
        Record::Element(draft) => encode_element(draft),
        Record::Lower(verdict, lower) => encode_end(3, verdict.into(), lower),
        Record::Upper(governing, upper) => encode_end(4, governing, upper),
    }
}

#[tactic(auto, unfolding(layout::specs::Records::encode))]
fn encode_opening(opening: Opening) -> [u8; 16]
    ensures { result ≡ encode_of (OpeningRecord opening) }
{
    let data = opening.case_data;
    let [e0, e1, e2, e3] = data.embarkation.to_be_bytes();
    let [n0, n1, n2, n3] = opening.number.to_be_bytes();
    let [c0, c1] = opening.count.to_be_bytes();
    [
        1,
        data.case_number,
        data.ship_kind,
        data.zones,
        e0,
        e1,
        e2,
        e3,
        n0,
        n1,
        n2,
        n3,
        0,
        0,
        c0,
        c1,
    ]
}

#[tactic(auto, unfolding(layout::specs::Records::encode))]
fn encode_element(draft: Draft) -> [u8; 16]
    ensures { result ≡ encode_of (ElementRecord draft) }
{
    let [w0, w1, w2, w3] = draft.width.to_be_bytes();
    let [l0, l1, l2, l3] = draft.length.to_be_bytes();
    let [p0, p1, p2, p3] = draft.persons.to_be_bytes();
    [
        2, draft.kind, draft.from, draft.to, w0, w1, w2, w3, l0, l1, l2, l3, p0, p1, p2, p3,
    ]
}

// One end of a finding: a tag, the byte beside it, and a time. The tag is a number, as it is the first byte.
#[tactic(auto, using(crate::proofs::BigEndian::eight_bytes))]
fn encode_end(tag: u8, byte: u8, time: u64) -> [u8; 16]
    ensures { result ≡ tag ∷ byte ∷ 0 ∷ 0 ∷ (0 ∷ 0 ∷ 0 ∷ 0 ∷ bytes_of 8 time) }
{
    let [t0, t1, t2, t3, t4, t5, t6, t7] = time.to_be_bytes();
    [tag, byte, 0, 0, 0, 0, 0, 0, t0, t1, t2, t3, t4, t5, t6, t7]
}
