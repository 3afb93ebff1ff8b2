// The rows of the circular's worked example, with the digits that it prints.

// Place of the element in its zone, persons, queue; flow and speed in thousandths; flow duration and travel in milliseconds.
pub type Row = (usize, u32, bool, u64, u64, u64, u64);

// 42 of the 45 elements of the first zone; the rules say why three are left out.
pub const FIRST_ROWS: [Row; 42] = [
    // Deck 5, corridor 1
    (0, 11, false, 770, 1_030, 14_300, 12_600),
    // Deck 5, corridor 2
    (1, 12, false, 650, 1_140, 18_300, 17_600),
    // Deck 5, corridor 3
    (2, 8, false, 770, 1_040, 10_400, 9_200),
    // Deck 5, corridor 4
    (3, 11, false, 630, 1_160, 17_400, 17_300),
    // Deck 5, door 1
    (4, 34, true, 1_170, 0, 29_100, 0),
    // Deck 5, door 2
    (5, 8, false, 770, 0, 10_400, 0),
    // Deck 5, stair A
    (6, 42, true, 1_188, 440, 35_400, 10_600),
    // Deck 6, corridor 1
    (7, 11, false, 770, 1_030, 14_300, 12_600),
    // Deck 6, corridor 2
    (8, 12, false, 650, 1_140, 18_300, 17_600),
    // Deck 6, corridor 3
    (9, 8, false, 770, 1_040, 10_400, 9_200),
    // Deck 6, corridor 4
    (10, 11, false, 630, 1_160, 17_400, 17_300),
    // Deck 6, door 1
    (11, 34, true, 1_170, 0, 29_100, 0),
    // Deck 6, door 2
    (12, 8, false, 770, 0, 10_400, 0),
    // Deck 6, stair A
    (13, 84, true, 1_188, 440, 70_700, 10_600),
    // Deck 6, corridor 5
    (14, 11, false, 770, 1_030, 14_300, 12_600),
    // Deck 6, corridor 6
    (15, 12, false, 650, 1_140, 18_300, 17_600),
    // Deck 6, door 3
    (16, 11, false, 770, 0, 14_300, 0),
    // Deck 6, door 4
    (17, 12, false, 650, 0, 18_300, 0),
    // Deck 6, stair B
    (18, 23, true, 1_188, 440, 19_400, 10_600),
    // Deck 7, corridor 1
    (19, 4, false, 690, 1_110, 5_800, 5_400),
    // Deck 7, corridor 2
    (20, 4, false, 580, 1_200, 6_900, 7_500),
    // Deck 7, corridor 3
    (21, 6, false, 520, 1_200, 11_500, 12_500),
    // Deck 7, corridor 4
    (22, 4, false, 690, 1_110, 5_800, 5_400),
    // Deck 7, corridor 5
    (23, 6, false, 560, 1_200, 10_800, 11_700),
    // Deck 7, corridor 6
    (24, 2, false, 170, 1_200, 11_500, 12_500),
    // Deck 7, corridor 7
    (25, 125, true, 3_120, 670, 40_100, 16_400),
    // Deck 7, stair C
    (27, 133, true, 1_232, 440, 108_000, 10_600),
    // Deck 11, corridor 1
    (28, 55, false, 1_090, 750, 50_700, 48_200),
    // Deck 11, corridor 2
    (29, 55, false, 1_090, 750, 50_700, 48_200),
    // Deck 11, door 1
    (30, 55, false, 1_090, 0, 50_700, 0),
    // Deck 11, door 2
    (31, 55, false, 1_090, 0, 50_700, 0),
    // Deck 11, stair C
    (32, 110, false, 2_170, 810, 50_700, 5_800),
    // Deck 10, corridor 1
    (33, 48, false, 1_000, 830, 48_200, 43_500),
    // Deck 10, corridor 2
    (34, 48, false, 1_000, 830, 48_200, 43_500),
    // Deck 10, door 1
    (35, 48, false, 1_000, 0, 48_200, 0),
    // Deck 10, door 2
    (36, 48, false, 1_000, 0, 48_200, 0),
    // Deck 10, stair C
    (37, 206, true, 3_080, 550, 66_900, 8_500),
    // Deck 9, door 1
    (40, 55, false, 1_090, 0, 50_700, 0),
    // Deck 9, door 2
    (41, 55, false, 1_090, 0, 50_700, 0),
    // Deck 9, stair C
    (42, 316, true, 3_080, 550, 102_600, 8_500),
    // Deck 8, path 1
    (43, 200, false, 1_920, 950, 104_400, 10_000),
    // Deck 8, path 2
    (44, 249, false, 2_400, 950, 103_900, 7_900),
];

// All elements of the second zone.
pub const SECOND_ROWS: [Row; 21] = [
    // Deck 6, door A
    (0, 100, false, 1_300, 0, 76_900, 0),
    // Deck 6, door B
    (1, 100, false, 1_300, 0, 76_900, 0),
    // Deck 6, door C PS
    (2, 134, false, 1_760, 0, 76_400, 0),
    // Deck 6, door C SB
    (3, 135, false, 1_760, 0, 76_900, 0),
    // Deck 6, stair A
    (4, 100, true, 1_230, 440, 81_200, 10_600),
    // Deck 6, stair B
    (5, 100, true, 1_230, 440, 81_200, 10_600),
    // Deck 6, stair C
    (6, 269, true, 2_820, 440, 95_500, 10_600),
    // Deck 7, door A
    (7, 170, false, 2_210, 0, 76_900, 0),
    // Deck 7, door B
    (8, 170, false, 2_210, 0, 76_900, 0),
    // Deck 7, door C PS
    (9, 65, false, 1_170, 0, 55_600, 0),
    // Deck 7, door C SB
    (10, 64, false, 1_170, 0, 54_700, 0),
    // Deck 7, stair A
    (11, 270, true, 1_800, 440, 149_700, 10_600),
    // Deck 7, stair B
    (12, 270, true, 1_800, 440, 149_700, 10_600),
    // Deck 7, stair C
    (13, 398, true, 2_820, 440, 141_300, 10_600),
    // Deck 9, door C PS
    (14, 100, false, 1_300, 0, 76_900, 0),
    // Deck 9, door C SB
    (15, 100, false, 1_300, 0, 76_900, 0),
    // Deck 9, stair C
    (16, 200, false, 2_600, 780, 76_900, 6_000),
    // Deck 8, door A
    (17, 270, false, 1_800, 0, 149_700, 0),
    // Deck 8, door B
    (18, 270, false, 1_800, 0, 149_700, 0),
    // Deck 8, path 1
    (19, 266, false, 2_410, 750, 110_500, 12_700),
    // Deck 8, path 2
    (20, 332, false, 3_010, 750, 110_300, 10_000),
];
