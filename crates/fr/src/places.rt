// The places of the texts of French, table by table. Made by tools/gen_words.py.

pub const UNITS: [u16; 10] = [0, 2722, 1764, 2485, 2806, 4, 3043, 2004, 2244, 284];

pub const TEENS: [u16; 10] = [203, 1844, 1205, 966, 528, 846, 1565, 1928, 2168, 208];

pub const TENS: [u16; 10] = [0, 0, 2405, 1086, 368, 9, 2568, 2008, 2248, 687];

pub const HUNDREDS: [[u16; 10]; 2] = [
    [0, 0, 13169, 13770, 12731, 12969, 13968, 14129, 13369, 13569],
    [0, 0, 7729, 11450, 6571, 7529, 10288, 12529, 7929, 8129],
];

pub const MEGAS: [u16; 34] = [
    0, 1445, 9287, 8928, 9127, 8728, 12368, 8529, 6331, 5772, 6811, 6052, 10450, 10651, 11930,
    12131, 9809, 7290, 8329, 7050, 3690, 3291, 5493, 10014, 5213, 4574, 10894, 4255, 3538, 3139,
    4894, 3935, 11173, 11654,
];

pub const ZERO: u16 = 9725;

pub const MOINS: u16 = 9605;

pub const UNE: u16 = 2723;

pub const ET: u16 = 2762;

pub const QUATRE_VINGT: u16 = 2812;

pub const CENT: u16 = 1684;

pub const PREMIER: u16 = 9447;

pub const IEME: u16 = 1325;
