// The step table at the width 48: a named row for each n and dx. Made by tests/tables/generate.py.
use table_numbers::Entry;

// What stands outside the table.
pub const NO_STEP: [Entry; 3] = [
    Entry { re: 0, im: 0 },
    Entry { re: 0, im: 0 },
    Entry { re: 0, im: 0 },
];

pub const STEP_1_MINUS: [Entry; 3] = [
    Entry {
        re: -97551793252584,
        im: -221069929750889,
    },
    Entry {
        re: -195103586505167,
        im: 0,
    },
    Entry {
        re: -97551793252584,
        im: 221069929750889,
    },
];

pub const STEP_1_ZERO: [Entry; 3] = [
    Entry {
        re: 31404662954650,
        im: -130505199945453,
    },
    Entry { re: 0, im: 0 },
    Entry {
        re: 31404662954650,
        im: 130505199945453,
    },
];

pub const STEP_1_PLUS: [Entry; 3] = [
    Entry {
        re: 128956456207234,
        im: -90564729805436,
    },
    Entry {
        re: 114128281861729,
        im: 0,
    },
    Entry {
        re: 128956456207234,
        im: 90564729805436,
    },
];

pub const STEP_2_MINUS: [Entry; 3] = [
    Entry {
        re: -66147130297934,
        im: -90564729805436,
    },
    Entry {
        re: -80975304643438,
        im: 0,
    },
    Entry {
        re: -66147130297934,
        im: 90564729805436,
    },
];

pub const STEP_2_ZERO: [Entry; 3] = [
    Entry {
        re: 8532157006937,
        im: -68955363498242,
    },
    Entry { re: 0, im: 0 },
    Entry {
        re: 8532157006937,
        im: 68955363498242,
    },
];

pub const STEP_2_PLUS: [Entry; 3] = [
    Entry {
        re: 68329150569998,
        im: -55561910611532,
    },
    Entry {
        re: 62809325909300,
        im: 0,
    },
    Entry {
        re: 68329150569998,
        im: 55561910611532,
    },
];

pub const STEP_3_MINUS: [Entry; 3] = [
    Entry {
        re: -34742467343283,
        im: -39940470140018,
    },
    Entry {
        re: -37585745629129,
        im: 0,
    },
    Entry {
        re: -34742467343283,
        im: 39940470140018,
    },
];

pub const STEP_3_ZERO: [Entry; 3] = [
    Entry {
        re: 2182020272064,
        im: -35002819193903,
    },
    Entry { re: 0, im: 0 },
    Entry {
        re: 2182020272064,
        im: 35002819193903,
    },
];

pub const STEP_3_PLUS: [Entry; 3] = [
    Entry {
        re: 34879839231550,
        im: -31147238752788,
    },
    Entry {
        re: 33152977218291,
        im: 0,
    },
    Entry {
        re: 34879839231550,
        im: 31147238752788,
    },
];

pub const STEP_4_MINUS: [Entry; 3] = [
    Entry {
        re: -17541864680939,
        im: -18737272348471,
    },
    Entry {
        re: -18165978734138,
        im: 0,
    },
    Entry {
        re: -17541864680939,
        im: 18737272348471,
    },
];

pub const STEP_4_ZERO: [Entry; 3] = [
    Entry {
        re: 548684860100,
        im: -17569333089919,
    },
    Entry { re: 0, im: 0 },
    Entry {
        re: 548684860100,
        im: 17569333089919,
    },
];

pub const STEP_4_PLUS: [Entry; 3] = [
    Entry {
        re: 17550454353397,
        im: -16538293830523,
    },
    Entry {
        re: 17064314013873,
        im: 0,
    },
    Entry {
        re: 17550454353397,
        im: 16538293830523,
    },
];

pub const STEP_5_MINUS: [Entry; 3] = [
    Entry {
        re: -8790091262693,
        im: -9076690482454,
    },
    Entry {
        re: -8936464118690,
        im: 0,
    },
    Entry {
        re: -8790091262693,
        im: 9076690482454,
    },
];

pub const STEP_5_ZERO: [Entry; 3] = [
    Entry {
        re: 137371888267,
        im: -8793231387230,
    },
    Entry { re: 0, im: 0 },
    Entry {
        re: 137371888267,
        im: 8793231387230,
    },
];

pub const STEP_5_PLUS: [Entry; 3] = [
    Entry {
        re: 8790628132581,
        im: -8526935367615,
    },
    Entry {
        re: 8661451906573,
        im: 0,
    },
    Entry {
        re: 8790628132581,
        im: 8526935367615,
    },
];

pub const STEP_6_MINUS: [Entry; 3] = [
    Entry {
        re: -4397313696365,
        im: -4467481600473,
    },
    Entry {
        re: -4432768410838,
        im: 0,
    },
    Entry {
        re: -4397313696365,
        im: 4467481600473,
    },
];

pub const STEP_6_ZERO: [Entry; 3] = [
    Entry {
        re: 34355544747,
        im: -4397688649582,
    },
    Entry { re: 0, im: 0 },
    Entry {
        re: 34355544747,
        im: 4397688649582,
    },
];

pub const STEP_6_PLUS: [Entry; 3] = [
    Entry {
        re: 4397347250793,
        im: -4330042657924,
    },
    Entry {
        re: 4364040544128,
        im: 0,
    },
    Entry {
        re: 4397347250793,
        im: 4330042657924,
    },
];

pub const STEP_7_MINUS: [Entry; 3] = [
    Entry {
        re: -2198932721938,
        im: -2216292596582,
    },
    Entry {
        re: -2207658193180,
        im: 0,
    },
    Entry {
        re: -2198932721938,
        im: 2216292596582,
    },
];

pub const STEP_7_ZERO: [Entry; 3] = [
    Entry {
        re: 8589672459,
        im: -2198978517948,
    },
    Entry { re: 0, im: 0 },
    Entry {
        re: 8589672459,
        im: 2198978517948,
    },
];

pub const STEP_7_PLUS: [Entry; 3] = [
    Entry {
        re: 2198934819090,
        im: -2181932858384,
    },
    Entry {
        re: 2190477799686,
        im: 0,
    },
    Entry {
        re: 2198934819090,
        im: 2181932858384,
    },
];

pub const STEP_8_MINUS: [Entry; 3] = [
    Entry {
        re: -1099500377225,
        im: -1103817779677,
    },
    Entry {
        re: -1101664720265,
        im: 0,
    },
    Entry {
        re: -1099500377225,
        im: 1103817779677,
    },
];

pub const STEP_8_ZERO: [Entry; 3] = [
    Entry {
        re: 2147467264,
        im: -1099506035422,
    },
    Entry { re: 0, im: 0 },
    Entry {
        re: 2147467264,
        im: 1099506035422,
    },
];

pub const STEP_8_PLUS: [Entry; 3] = [
    Entry {
        re: 1099500508297,
        im: -1095227845087,
    },
    Entry {
        re: 1097369720200,
        im: 0,
    },
    Entry {
        re: 1099500508297,
        im: 1095227845087,
    },
];

pub const STEP_9_MINUS: [Entry; 3] = [
    Entry {
        re: -549754411684,
        im: -550830953807,
    },
    Entry {
        re: -550293384876,
        im: 0,
    },
    Entry {
        re: -549754411684,
        im: 550830953807,
    },
];

pub const STEP_9_ZERO: [Entry; 3] = [
    Entry {
        re: 536869888,
        im: -549755114839,
    },
    Entry { re: 0, im: 0 },
    Entry {
        re: 536869888,
        im: 549755114839,
    },
];

pub const STEP_9_PLUS: [Entry; 3] = [
    Entry {
        re: 549754419876,
        im: -548683470159,
    },
    Entry {
        re: 549219641004,
        im: 0,
    },
    Entry {
        re: 549754419876,
        im: 548683470159,
    },
];

pub const STEP_10_MINUS: [Entry; 3] = [
    Entry {
        re: -274877731925,
        im: -275146517162,
    },
    Entry {
        re: -275012212117,
        im: 0,
    },
    Entry {
        re: -274877731925,
        im: 275146517162,
    },
];

pub const STEP_10_ZERO: [Entry; 3] = [
    Entry {
        re: 134217664,
        im: -274877819563,
    },
    Entry { re: 0, im: 0 },
    Entry {
        re: 134217664,
        im: 274877819563,
    },
];

pub const STEP_10_PLUS: [Entry; 3] = [
    Entry {
        re: 274877732437,
        im: -274609646250,
    },
    Entry {
        re: 274743776533,
        im: 0,
    },
    Entry {
        re: 274877732437,
        im: 274609646250,
    },
];

pub const STEP_11_MINUS: [Entry; 3] = [
    Entry {
        re: -137438931611,
        im: -137506084181,
    },
    Entry {
        re: -137472518831,
        im: 0,
    },
    Entry {
        re: -137438931611,
        im: 137506084181,
    },
];

pub const STEP_11_ZERO: [Entry; 3] = [
    Entry {
        re: 33554428,
        im: -137438942549,
    },
    Entry { re: 0, im: 0 },
    Entry {
        re: 33554428,
        im: 137438942549,
    },
];

pub const STEP_11_PLUS: [Entry; 3] = [
    Entry {
        re: 137438931643,
        im: -137371866453,
    },
    Entry {
        re: 137405409959,
        im: 0,
    },
    Entry {
        re: 137438931643,
        im: 137371866453,
    },
];

pub const STEP_12_MINUS: [Entry; 3] = [
    Entry {
        re: -68719474004,
        im: -68736256683,
    },
    Entry {
        re: -68727866710,
        im: 0,
    },
    Entry {
        re: -68719474004,
        im: 68736256683,
    },
];

pub const STEP_12_ZERO: [Entry; 3] = [
    Entry {
        re: 8388608,
        im: -68719475371,
    },
    Entry { re: 0, im: 0 },
    Entry {
        re: 8388608,
        im: 68719475371,
    },
];

pub const STEP_12_PLUS: [Entry; 3] = [
    Entry {
        re: 68719474006,
        im: -68702702251,
    },
    Entry {
        re: 68711089493,
        im: 0,
    },
    Entry {
        re: 68719474006,
        im: 68702702251,
    },
];

pub const STEP_13_MINUS: [Entry; 3] = [
    Entry {
        re: -34359738027,
        im: -34363933013,
    },
    Entry {
        re: -34361835691,
        im: 0,
    },
    Entry {
        re: -34359738027,
        im: 34363933013,
    },
];

pub const STEP_13_ZERO: [Entry; 3] = [
    Entry {
        re: 2097152,
        im: -34359738197,
    },
    Entry { re: 0, im: 0 },
    Entry {
        re: 2097152,
        im: 34359738197,
    },
];

pub const STEP_13_PLUS: [Entry; 3] = [
    Entry {
        re: 34359738027,
        im: -34355544405,
    },
    Entry {
        re: 34357641387,
        im: 0,
    },
    Entry {
        re: 34359738027,
        im: 34355544405,
    },
];

pub const STEP_14_MINUS: [Entry; 3] = [
    Entry {
        re: -17179869141,
        im: -17180917803,
    },
    Entry {
        re: -17180393493,
        im: 0,
    },
    Entry {
        re: -17179869141,
        im: 17180917803,
    },
];

pub const STEP_14_ZERO: [Entry; 3] = [
    Entry {
        re: 524288,
        im: -17179869163,
    },
    Entry { re: 0, im: 0 },
    Entry {
        re: 524288,
        im: 17179869163,
    },
];

pub const STEP_14_PLUS: [Entry; 3] = [
    Entry {
        re: 17179869141,
        im: -17178820651,
    },
    Entry {
        re: 17179344917,
        im: 0,
    },
    Entry {
        re: 17179869141,
        im: 17178820651,
    },
];

pub const STEP_15_MINUS: [Entry; 3] = [
    Entry {
        re: -8589934587,
        im: -8590196741,
    },
    Entry {
        re: -8590065667,
        im: 0,
    },
    Entry {
        re: -8589934587,
        im: 8590196741,
    },
];

pub const STEP_15_ZERO: [Entry; 3] = [
    Entry {
        re: 131072,
        im: -8589934589,
    },
    Entry { re: 0, im: 0 },
    Entry {
        re: 131072,
        im: 8589934589,
    },
];

pub const STEP_15_PLUS: [Entry; 3] = [
    Entry {
        re: 8589934587,
        im: -8589672453,
    },
    Entry {
        re: 8589803523,
        im: 0,
    },
    Entry {
        re: 8589934587,
        im: 8589672453,
    },
];

pub const STEP_16_MINUS: [Entry; 3] = [
    Entry {
        re: -4294967295,
        im: -4295032833,
    },
    Entry {
        re: -4295000064,
        im: 0,
    },
    Entry {
        re: -4294967295,
        im: 4295032833,
    },
];

pub const STEP_16_ZERO: [Entry; 3] = [
    Entry {
        re: 32768,
        im: -4294967296,
    },
    Entry { re: 0, im: 0 },
    Entry {
        re: 32768,
        im: 4294967296,
    },
];

pub const STEP_16_PLUS: [Entry; 3] = [
    Entry {
        re: 4294967295,
        im: -4294901761,
    },
    Entry {
        re: 4294934528,
        im: 0,
    },
    Entry {
        re: 4294967295,
        im: 4294901761,
    },
];

pub const STEP_17_MINUS: [Entry; 3] = [
    Entry {
        re: -2147483648,
        im: -2147500032,
    },
    Entry {
        re: -2147491840,
        im: 0,
    },
    Entry {
        re: -2147483648,
        im: 2147500032,
    },
];

pub const STEP_17_ZERO: [Entry; 3] = [
    Entry {
        re: 8192,
        im: -2147483648,
    },
    Entry { re: 0, im: 0 },
    Entry {
        re: 8192,
        im: 2147483648,
    },
];

pub const STEP_17_PLUS: [Entry; 3] = [
    Entry {
        re: 2147483648,
        im: -2147467264,
    },
    Entry {
        re: 2147475456,
        im: 0,
    },
    Entry {
        re: 2147483648,
        im: 2147467264,
    },
];

pub const STEP_18_MINUS: [Entry; 3] = [
    Entry {
        re: -1073741824,
        im: -1073745920,
    },
    Entry {
        re: -1073743872,
        im: 0,
    },
    Entry {
        re: -1073741824,
        im: 1073745920,
    },
];

pub const STEP_18_ZERO: [Entry; 3] = [
    Entry {
        re: 2048,
        im: -1073741824,
    },
    Entry { re: 0, im: 0 },
    Entry {
        re: 2048,
        im: 1073741824,
    },
];

pub const STEP_18_PLUS: [Entry; 3] = [
    Entry {
        re: 1073741824,
        im: -1073737728,
    },
    Entry {
        re: 1073739776,
        im: 0,
    },
    Entry {
        re: 1073741824,
        im: 1073737728,
    },
];

pub const STEP_19_MINUS: [Entry; 3] = [
    Entry {
        re: -536870912,
        im: -536871936,
    },
    Entry {
        re: -536871424,
        im: 0,
    },
    Entry {
        re: -536870912,
        im: 536871936,
    },
];

pub const STEP_19_ZERO: [Entry; 3] = [
    Entry {
        re: 512,
        im: -536870912,
    },
    Entry { re: 0, im: 0 },
    Entry {
        re: 512,
        im: 536870912,
    },
];

pub const STEP_19_PLUS: [Entry; 3] = [
    Entry {
        re: 536870912,
        im: -536869888,
    },
    Entry {
        re: 536870400,
        im: 0,
    },
    Entry {
        re: 536870912,
        im: 536869888,
    },
];

pub const STEP_20_MINUS: [Entry; 3] = [
    Entry {
        re: -268435456,
        im: -268435712,
    },
    Entry {
        re: -268435584,
        im: 0,
    },
    Entry {
        re: -268435456,
        im: 268435712,
    },
];

pub const STEP_20_ZERO: [Entry; 3] = [
    Entry {
        re: 128,
        im: -268435456,
    },
    Entry { re: 0, im: 0 },
    Entry {
        re: 128,
        im: 268435456,
    },
];

pub const STEP_20_PLUS: [Entry; 3] = [
    Entry {
        re: 268435456,
        im: -268435200,
    },
    Entry {
        re: 268435328,
        im: 0,
    },
    Entry {
        re: 268435456,
        im: 268435200,
    },
];

pub const STEP_21_MINUS: [Entry; 3] = [
    Entry {
        re: -134217728,
        im: -134217792,
    },
    Entry {
        re: -134217760,
        im: 0,
    },
    Entry {
        re: -134217728,
        im: 134217792,
    },
];

pub const STEP_21_ZERO: [Entry; 3] = [
    Entry {
        re: 32,
        im: -134217728,
    },
    Entry { re: 0, im: 0 },
    Entry {
        re: 32,
        im: 134217728,
    },
];

pub const STEP_21_PLUS: [Entry; 3] = [
    Entry {
        re: 134217728,
        im: -134217664,
    },
    Entry {
        re: 134217696,
        im: 0,
    },
    Entry {
        re: 134217728,
        im: 134217664,
    },
];

pub const STEP_22_MINUS: [Entry; 3] = [
    Entry {
        re: -67108864,
        im: -67108880,
    },
    Entry {
        re: -67108872,
        im: 0,
    },
    Entry {
        re: -67108864,
        im: 67108880,
    },
];

pub const STEP_22_ZERO: [Entry; 3] = [
    Entry {
        re: 8,
        im: -67108864,
    },
    Entry { re: 0, im: 0 },
    Entry {
        re: 8,
        im: 67108864,
    },
];

pub const STEP_22_PLUS: [Entry; 3] = [
    Entry {
        re: 67108864,
        im: -67108848,
    },
    Entry {
        re: 67108856,
        im: 0,
    },
    Entry {
        re: 67108864,
        im: 67108848,
    },
];

pub const STEP_23_MINUS: [Entry; 3] = [
    Entry {
        re: -33554432,
        im: -33554436,
    },
    Entry {
        re: -33554434,
        im: 0,
    },
    Entry {
        re: -33554432,
        im: 33554436,
    },
];

pub const STEP_23_ZERO: [Entry; 3] = [
    Entry {
        re: 2,
        im: -33554432,
    },
    Entry { re: 0, im: 0 },
    Entry {
        re: 2,
        im: 33554432,
    },
];

pub const STEP_23_PLUS: [Entry; 3] = [
    Entry {
        re: 33554432,
        im: -33554428,
    },
    Entry {
        re: 33554430,
        im: 0,
    },
    Entry {
        re: 33554432,
        im: 33554428,
    },
];

pub const STEP_24_MINUS: [Entry; 3] = [
    Entry {
        re: -16777216,
        im: -16777217,
    },
    Entry {
        re: -16777217,
        im: 0,
    },
    Entry {
        re: -16777216,
        im: 16777217,
    },
];

pub const STEP_24_ZERO: [Entry; 3] = [
    Entry {
        re: 0,
        im: -16777216,
    },
    Entry { re: 0, im: 0 },
    Entry {
        re: 0,
        im: 16777216,
    },
];

pub const STEP_24_PLUS: [Entry; 3] = [
    Entry {
        re: 16777216,
        im: -16777215,
    },
    Entry {
        re: 16777216,
        im: 0,
    },
    Entry {
        re: 16777216,
        im: 16777215,
    },
];

pub const STEP_25_MINUS: [Entry; 3] = [
    Entry {
        re: -8388608,
        im: -8388608,
    },
    Entry {
        re: -8388608,
        im: 0,
    },
    Entry {
        re: -8388608,
        im: 8388608,
    },
];

pub const STEP_25_ZERO: [Entry; 3] = [
    Entry {
        re: 0,
        im: -8388608,
    },
    Entry { re: 0, im: 0 },
    Entry { re: 0, im: 8388608 },
];

pub const STEP_25_PLUS: [Entry; 3] = [
    Entry {
        re: 8388608,
        im: -8388608,
    },
    Entry { re: 8388608, im: 0 },
    Entry {
        re: 8388608,
        im: 8388608,
    },
];

pub const STEP_26_MINUS: [Entry; 3] = [
    Entry {
        re: -4194304,
        im: -4194304,
    },
    Entry {
        re: -4194304,
        im: 0,
    },
    Entry {
        re: -4194304,
        im: 4194304,
    },
];

pub const STEP_26_ZERO: [Entry; 3] = [
    Entry {
        re: 0,
        im: -4194304,
    },
    Entry { re: 0, im: 0 },
    Entry { re: 0, im: 4194304 },
];

pub const STEP_26_PLUS: [Entry; 3] = [
    Entry {
        re: 4194304,
        im: -4194304,
    },
    Entry { re: 4194304, im: 0 },
    Entry {
        re: 4194304,
        im: 4194304,
    },
];

pub const STEP_27_MINUS: [Entry; 3] = [
    Entry {
        re: -2097152,
        im: -2097152,
    },
    Entry {
        re: -2097152,
        im: 0,
    },
    Entry {
        re: -2097152,
        im: 2097152,
    },
];

pub const STEP_27_ZERO: [Entry; 3] = [
    Entry {
        re: 0,
        im: -2097152,
    },
    Entry { re: 0, im: 0 },
    Entry { re: 0, im: 2097152 },
];

pub const STEP_27_PLUS: [Entry; 3] = [
    Entry {
        re: 2097152,
        im: -2097152,
    },
    Entry { re: 2097152, im: 0 },
    Entry {
        re: 2097152,
        im: 2097152,
    },
];

pub const STEP_28_MINUS: [Entry; 3] = [
    Entry {
        re: -1048576,
        im: -1048576,
    },
    Entry {
        re: -1048576,
        im: 0,
    },
    Entry {
        re: -1048576,
        im: 1048576,
    },
];

pub const STEP_28_ZERO: [Entry; 3] = [
    Entry {
        re: 0,
        im: -1048576,
    },
    Entry { re: 0, im: 0 },
    Entry { re: 0, im: 1048576 },
];

pub const STEP_28_PLUS: [Entry; 3] = [
    Entry {
        re: 1048576,
        im: -1048576,
    },
    Entry { re: 1048576, im: 0 },
    Entry {
        re: 1048576,
        im: 1048576,
    },
];

pub const STEP_29_MINUS: [Entry; 3] = [
    Entry {
        re: -524288,
        im: -524288,
    },
    Entry { re: -524288, im: 0 },
    Entry {
        re: -524288,
        im: 524288,
    },
];

pub const STEP_29_ZERO: [Entry; 3] = [
    Entry { re: 0, im: -524288 },
    Entry { re: 0, im: 0 },
    Entry { re: 0, im: 524288 },
];

pub const STEP_29_PLUS: [Entry; 3] = [
    Entry {
        re: 524288,
        im: -524288,
    },
    Entry { re: 524288, im: 0 },
    Entry {
        re: 524288,
        im: 524288,
    },
];

pub const STEP_30_MINUS: [Entry; 3] = [
    Entry {
        re: -262144,
        im: -262144,
    },
    Entry { re: -262144, im: 0 },
    Entry {
        re: -262144,
        im: 262144,
    },
];

pub const STEP_30_ZERO: [Entry; 3] = [
    Entry { re: 0, im: -262144 },
    Entry { re: 0, im: 0 },
    Entry { re: 0, im: 262144 },
];

pub const STEP_30_PLUS: [Entry; 3] = [
    Entry {
        re: 262144,
        im: -262144,
    },
    Entry { re: 262144, im: 0 },
    Entry {
        re: 262144,
        im: 262144,
    },
];

pub const STEP_31_MINUS: [Entry; 3] = [
    Entry {
        re: -131072,
        im: -131072,
    },
    Entry { re: -131072, im: 0 },
    Entry {
        re: -131072,
        im: 131072,
    },
];

pub const STEP_31_ZERO: [Entry; 3] = [
    Entry { re: 0, im: -131072 },
    Entry { re: 0, im: 0 },
    Entry { re: 0, im: 131072 },
];

pub const STEP_31_PLUS: [Entry; 3] = [
    Entry {
        re: 131072,
        im: -131072,
    },
    Entry { re: 131072, im: 0 },
    Entry {
        re: 131072,
        im: 131072,
    },
];

pub const STEP_32_MINUS: [Entry; 3] = [
    Entry {
        re: -65536,
        im: -65536,
    },
    Entry { re: -65536, im: 0 },
    Entry {
        re: -65536,
        im: 65536,
    },
];

pub const STEP_32_ZERO: [Entry; 3] = [
    Entry { re: 0, im: -65536 },
    Entry { re: 0, im: 0 },
    Entry { re: 0, im: 65536 },
];

pub const STEP_32_PLUS: [Entry; 3] = [
    Entry {
        re: 65536,
        im: -65536,
    },
    Entry { re: 65536, im: 0 },
    Entry {
        re: 65536,
        im: 65536,
    },
];

pub const STEP_33_MINUS: [Entry; 3] = [
    Entry {
        re: -32768,
        im: -32768,
    },
    Entry { re: -32768, im: 0 },
    Entry {
        re: -32768,
        im: 32768,
    },
];

pub const STEP_33_ZERO: [Entry; 3] = [
    Entry { re: 0, im: -32768 },
    Entry { re: 0, im: 0 },
    Entry { re: 0, im: 32768 },
];

pub const STEP_33_PLUS: [Entry; 3] = [
    Entry {
        re: 32768,
        im: -32768,
    },
    Entry { re: 32768, im: 0 },
    Entry {
        re: 32768,
        im: 32768,
    },
];

pub const STEP_34_MINUS: [Entry; 3] = [
    Entry {
        re: -16384,
        im: -16384,
    },
    Entry { re: -16384, im: 0 },
    Entry {
        re: -16384,
        im: 16384,
    },
];

pub const STEP_34_ZERO: [Entry; 3] = [
    Entry { re: 0, im: -16384 },
    Entry { re: 0, im: 0 },
    Entry { re: 0, im: 16384 },
];

pub const STEP_34_PLUS: [Entry; 3] = [
    Entry {
        re: 16384,
        im: -16384,
    },
    Entry { re: 16384, im: 0 },
    Entry {
        re: 16384,
        im: 16384,
    },
];

pub const STEP_35_MINUS: [Entry; 3] = [
    Entry {
        re: -8192,
        im: -8192,
    },
    Entry { re: -8192, im: 0 },
    Entry {
        re: -8192,
        im: 8192,
    },
];

pub const STEP_35_ZERO: [Entry; 3] = [
    Entry { re: 0, im: -8192 },
    Entry { re: 0, im: 0 },
    Entry { re: 0, im: 8192 },
];

pub const STEP_35_PLUS: [Entry; 3] = [
    Entry {
        re: 8192,
        im: -8192,
    },
    Entry { re: 8192, im: 0 },
    Entry { re: 8192, im: 8192 },
];

pub const STEP_36_MINUS: [Entry; 3] = [
    Entry {
        re: -4096,
        im: -4096,
    },
    Entry { re: -4096, im: 0 },
    Entry {
        re: -4096,
        im: 4096,
    },
];

pub const STEP_36_ZERO: [Entry; 3] = [
    Entry { re: 0, im: -4096 },
    Entry { re: 0, im: 0 },
    Entry { re: 0, im: 4096 },
];

pub const STEP_36_PLUS: [Entry; 3] = [
    Entry {
        re: 4096,
        im: -4096,
    },
    Entry { re: 4096, im: 0 },
    Entry { re: 4096, im: 4096 },
];

pub const STEP_37_MINUS: [Entry; 3] = [
    Entry {
        re: -2048,
        im: -2048,
    },
    Entry { re: -2048, im: 0 },
    Entry {
        re: -2048,
        im: 2048,
    },
];

pub const STEP_37_ZERO: [Entry; 3] = [
    Entry { re: 0, im: -2048 },
    Entry { re: 0, im: 0 },
    Entry { re: 0, im: 2048 },
];

pub const STEP_37_PLUS: [Entry; 3] = [
    Entry {
        re: 2048,
        im: -2048,
    },
    Entry { re: 2048, im: 0 },
    Entry { re: 2048, im: 2048 },
];

pub const STEP_38_MINUS: [Entry; 3] = [
    Entry {
        re: -1024,
        im: -1024,
    },
    Entry { re: -1024, im: 0 },
    Entry {
        re: -1024,
        im: 1024,
    },
];

pub const STEP_38_ZERO: [Entry; 3] = [
    Entry { re: 0, im: -1024 },
    Entry { re: 0, im: 0 },
    Entry { re: 0, im: 1024 },
];

pub const STEP_38_PLUS: [Entry; 3] = [
    Entry {
        re: 1024,
        im: -1024,
    },
    Entry { re: 1024, im: 0 },
    Entry { re: 1024, im: 1024 },
];

pub const STEP_39_MINUS: [Entry; 3] = [
    Entry { re: -512, im: -512 },
    Entry { re: -512, im: 0 },
    Entry { re: -512, im: 512 },
];

pub const STEP_39_ZERO: [Entry; 3] = [
    Entry { re: 0, im: -512 },
    Entry { re: 0, im: 0 },
    Entry { re: 0, im: 512 },
];

pub const STEP_39_PLUS: [Entry; 3] = [
    Entry { re: 512, im: -512 },
    Entry { re: 512, im: 0 },
    Entry { re: 512, im: 512 },
];

pub const STEP_40_MINUS: [Entry; 3] = [
    Entry { re: -256, im: -256 },
    Entry { re: -256, im: 0 },
    Entry { re: -256, im: 256 },
];

pub const STEP_40_ZERO: [Entry; 3] = [
    Entry { re: 0, im: -256 },
    Entry { re: 0, im: 0 },
    Entry { re: 0, im: 256 },
];

pub const STEP_40_PLUS: [Entry; 3] = [
    Entry { re: 256, im: -256 },
    Entry { re: 256, im: 0 },
    Entry { re: 256, im: 256 },
];
