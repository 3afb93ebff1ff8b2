#![tactic(auto)]

// The two main vertical zones that the circular works through as an example, as elements in order of entry.
use network::Draft;

// kind, from, to, width and length in millimetres, persons
macro_rules! draft {
    ($kind:literal, $from:literal, $to:literal, $width:literal, $length:literal, $persons:literal) => {
        Draft {
            kind: $kind,
            from: $from,
            to: $to,
            width: $width,
            length: $length,
            persons: $persons,
        }
    };
}

/// The first zone, a night case with 449 persons on seven decks; everyone goes to the assembly deck 8.
pub const FIRST_ZONE: [Draft; 45] = [
    // Deck 5, corridor 1
    draft!(1, 0, 1, 900, 13_000, 11),
    // Deck 5, corridor 2
    draft!(1, 0, 1, 900, 20_000, 12),
    // Deck 5, corridor 3
    draft!(1, 0, 2, 900, 9_500, 8),
    // Deck 5, corridor 4
    draft!(1, 0, 1, 900, 20_000, 11),
    // Deck 5, door 1
    draft!(2, 1, 3, 900, 0, 0),
    // Deck 5, door 2
    draft!(2, 2, 3, 900, 0, 0),
    // Deck 5, stair A
    draft!(4, 3, 6, 1_350, 4_670, 0),
    // Deck 6, corridor 1
    draft!(1, 0, 4, 900, 13_000, 11),
    // Deck 6, corridor 2
    draft!(1, 0, 4, 900, 20_000, 12),
    // Deck 6, corridor 3
    draft!(1, 0, 5, 900, 9_500, 8),
    // Deck 6, corridor 4
    draft!(1, 0, 4, 900, 20_000, 11),
    // Deck 6, door 1
    draft!(2, 4, 6, 900, 0, 0),
    // Deck 6, door 2
    draft!(2, 5, 6, 900, 0, 0),
    // Deck 6, stair A
    draft!(4, 6, 10, 1_350, 4_670, 0),
    // Deck 6, corridor 5
    draft!(1, 0, 7, 900, 13_000, 11),
    // Deck 6, corridor 6
    draft!(1, 0, 8, 900, 20_000, 12),
    // Deck 6, door 3
    draft!(2, 7, 9, 900, 0, 0),
    // Deck 6, door 4
    draft!(2, 8, 9, 900, 0, 0),
    // Deck 6, stair B
    draft!(4, 9, 11, 1_350, 4_670, 0),
    // Deck 7, corridor 1
    draft!(1, 0, 12, 900, 6_000, 4),
    // Deck 7, corridor 2
    draft!(1, 0, 11, 900, 9_000, 4),
    // Deck 7, corridor 3
    draft!(1, 0, 10, 900, 15_000, 6),
    // Deck 7, corridor 4
    draft!(1, 0, 12, 900, 6_000, 4),
    // Deck 7, corridor 5
    draft!(1, 0, 11, 900, 14_000, 6),
    // Deck 7, corridor 6
    draft!(1, 0, 10, 900, 15_000, 2),
    // Deck 7, corridor 7
    draft!(1, 11, 12, 2_400, 11_000, 0),
    // Deck 7, corridor 8
    draft!(1, 10, 11, 2_400, 9_000, 0),
    // Deck 7, stair C
    draft!(4, 12, 22, 1_400, 4_670, 0),
    // Deck 11, corridor 1
    draft!(1, 0, 13, 900, 36_000, 55),
    // Deck 11, corridor 2
    draft!(1, 0, 14, 900, 36_000, 55),
    // Deck 11, door 1
    draft!(2, 13, 15, 900, 0, 0),
    // Deck 11, door 2
    draft!(2, 14, 15, 900, 0, 0),
    // Deck 11, stair C
    draft!(3, 15, 18, 2_800, 4_670, 0),
    // Deck 10, corridor 1
    draft!(1, 0, 16, 900, 36_000, 48),
    // Deck 10, corridor 2
    draft!(1, 0, 17, 900, 36_000, 48),
    // Deck 10, door 1
    draft!(2, 16, 18, 900, 0, 0),
    // Deck 10, door 2
    draft!(2, 17, 18, 900, 0, 0),
    // Deck 10, stair C
    draft!(3, 18, 21, 2_800, 4_670, 0),
    // Deck 9, corridor 1
    draft!(1, 0, 19, 900, 36_000, 55),
    // Deck 9, corridor 2
    draft!(1, 0, 20, 900, 36_000, 55),
    // Deck 9, door 1
    draft!(2, 19, 21, 900, 0, 0),
    // Deck 9, door 2
    draft!(2, 20, 21, 900, 0, 0),
    // Deck 9, stair C
    draft!(3, 21, 22, 2_800, 4_670, 0),
    // Deck 8, path 1
    draft!(1, 22, 0, 2_000, 9_500, 0),
    // Deck 8, path 2
    draft!(1, 22, 0, 2_500, 7_500, 0),
];

/// The second zone, a day case with 1,138 persons on three decks; deck 8 is the assembly deck.
pub const SECOND_ZONE: [Draft; 21] = [
    // Deck 6, door A
    draft!(2, 0, 1, 1_000, 0, 100),
    // Deck 6, door B
    draft!(2, 0, 2, 1_000, 0, 100),
    // Deck 6, door C PS
    draft!(2, 0, 3, 1_350, 0, 134),
    // Deck 6, door C SB
    draft!(2, 0, 3, 1_350, 0, 135),
    // Deck 6, stair A
    draft!(4, 1, 4, 1_400, 4_670, 0),
    // Deck 6, stair B
    draft!(4, 2, 5, 1_400, 4_670, 0),
    // Deck 6, stair C
    draft!(4, 3, 6, 3_200, 4_670, 0),
    // Deck 7, door A
    draft!(2, 0, 4, 1_700, 0, 170),
    // Deck 7, door B
    draft!(2, 0, 5, 1_700, 0, 170),
    // Deck 7, door C PS
    draft!(2, 0, 6, 900, 0, 65),
    // Deck 7, door C SB
    draft!(2, 0, 6, 900, 0, 64),
    // Deck 7, stair A
    draft!(4, 4, 7, 2_050, 4_670, 0),
    // Deck 7, stair B
    draft!(4, 5, 8, 2_050, 4_670, 0),
    // Deck 7, stair C
    draft!(4, 6, 10, 3_200, 4_670, 0),
    // Deck 9, door C PS
    draft!(2, 0, 9, 1_000, 0, 100),
    // Deck 9, door C SB
    draft!(2, 0, 9, 1_000, 0, 100),
    // Deck 9, stair C
    draft!(3, 9, 10, 3_200, 4_670, 0),
    // Deck 8, door A
    draft!(2, 7, 0, 2_050, 0, 0),
    // Deck 8, door B
    draft!(2, 8, 0, 2_050, 0, 0),
    // Deck 8, path 1
    draft!(1, 10, 0, 2_000, 9_500, 0),
    // Deck 8, path 2
    draft!(1, 10, 0, 2_500, 7_500, 0),
];
