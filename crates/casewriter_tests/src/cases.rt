// The cases that are played: a case file, and how long the buffer is that its base is written into.

/// The numbers of a case file, two blanks between rows, and how many bytes the buffer has.
pub struct Case {
    pub name: &'static str,
    pub file: &'static str,
    pub room: usize,
}

const ONE: &str = "1 1 3 1 1 1  0 0 0  1 0 0  3 0 3  0 2 0 0  0 4  0 0 1 0 0 0 0 0 0 0 0";

const LOOSE: &str =
    "1 1 3 1 1 1  0 7 8  1 9 65535  3 0 3  0 2 0 255  0 4  0 0 1 0 0 513 6 7 8 9 10";

const FULL: &str = "512 64 5 5 2 4  0 0 0  1 0 0  2 1 2  3 63 5  2 6 3  0 9 300 0  1 63 511 256  \
    2 0 511 0  3 257 258 0  0 0 0 0  0 9  8 3  0 2 1 0 63 0 0 0 0 0 0  \
    9 8 2 1 2 3 4 0 0 0 0  1 1 3 10 11 12 13 14 15 0 0  4 5 4 60 61 62 63 0 1 2 3";

const LEAST: &str = "1 1 1 0 0 0  0 0 0";

const BROKEN: &str = "1 1 3 1 1 1  0 0 0  1 0 0  3 0 3  0 2 0 0  0 4";

const NO_ROLES: &str = "1 0 2 0 0 0  0 0 0  4 0 0";

const MANY: &str = "513 1 1 0 0 0  0 0 0";

const BAD_ENTRY: &str = "1 1 2 0 0 0  0 0 0  4 0 0";

const NAME_TOP: &str = "1 1 1 1 0 0  1 0 0  9 0 0 0";

const BAD_ASSERTION: &str = "2 1 1 2 1 0  0 0 0  2 0 1 0  2 0 2 0  2 0";

const BAD_INCLUSION: &str = "1 1 1 0 3 1  0 0 0  0 1  1 0  2 0  0 0 0 0 0 0 0 0 0 0 0";

const BAD_KEY: &str = "1 1 1 0 0 2  0 0 0  0 1 1 0 0 0 0 0 0 0 0  0 0 5 0 0 0 0 0 0 0 0";

pub static CASES: [Case; 20] = [
    Case {
        name: "one individual, exact room",
        file: ONE,
        room: 64,
    },
    Case {
        name: "one individual, one byte short",
        file: ONE,
        room: 63,
    },
    Case {
        name: "one individual, more room",
        file: ONE,
        room: 70,
    },
    Case {
        name: "one individual, no room",
        file: ONE,
        room: 0,
    },
    Case {
        name: "numbers that no row needs, exact room",
        file: LOOSE,
        room: 64,
    },
    Case {
        name: "numbers that no row needs, one byte short",
        file: LOOSE,
        room: 63,
    },
    Case {
        name: "every kind of row, exact room",
        file: FULL,
        room: 178,
    },
    Case {
        name: "every kind of row, one byte short",
        file: FULL,
        room: 177,
    },
    Case {
        name: "every kind of row, more room",
        file: FULL,
        room: 181,
    },
    Case {
        name: "the least base, exact room",
        file: LEAST,
        room: 18,
    },
    Case {
        name: "the least base, one byte short",
        file: LEAST,
        room: 17,
    },
    Case {
        name: "broken file",
        file: BROKEN,
        room: 64,
    },
    Case {
        name: "broken file, no room",
        file: BROKEN,
        room: 0,
    },
    Case {
        name: "no roles and an entry out of range",
        file: NO_ROLES,
        room: 24,
    },
    Case {
        name: "513 individuals",
        file: MANY,
        room: 18,
    },
    Case {
        name: "entry of another kind",
        file: BAD_ENTRY,
        room: 24,
    },
    Case {
        name: "NAME at entry 0 and an assertion of another kind",
        file: NAME_TOP,
        room: 26,
    },
    Case {
        name: "second assertion out of range, no room",
        file: BAD_ASSERTION,
        room: 0,
    },
    Case {
        name: "third inclusion and a key out of range",
        file: BAD_INCLUSION,
        room: 52,
    },
    Case {
        name: "key of five pairs",
        file: BAD_KEY,
        room: 62,
    },
];
