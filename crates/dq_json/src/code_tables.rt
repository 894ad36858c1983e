//! Character sets with one octet a character (PS3.3 section C.12.1.1.2).
ghost use Rattle.std.specs.Prelude.{◌≡◌, ◌==◌, position};
ghost use Rattle.dq_json.specs.Text.{table_named, high_half, character_in};
ghost use Rattle.dq_json.specs.Spellings.{octet_in};

/// A set whose octets up to 7FH are the default repertoire's.
#[derive(Clone, Copy, Debug, PartialEq, Eq)]
pub enum CodeTable {
    Latin1,
    Latin2,
    Latin3,
    Latin4,
    Latin5,
    Cyrillic,
    Arabic,
    Greek,
    Hebrew,
    Thai,
}

impl CodeTable {
    /// The set of a defined term.
    #[tactic(auto, unfolding(crate::specs::Text::table_named))]
    pub(crate) fn named(term: &[u8]) -> Option<CodeTable>
        ensures { result ≡ table_named term.now }
    {
        if term == b"ISO_IR 100".as_slice() {
            return Some(CodeTable::Latin1);
        }
        if term == b"ISO_IR 101".as_slice() {
            return Some(CodeTable::Latin2);
        }
        if term == b"ISO_IR 109".as_slice() {
            return Some(CodeTable::Latin3);
        }
        if term == b"ISO_IR 110".as_slice() {
            return Some(CodeTable::Latin4);
        }
        if term == b"ISO_IR 148".as_slice() {
            return Some(CodeTable::Latin5);
        }
        if term == b"ISO_IR 144".as_slice() {
            return Some(CodeTable::Cyrillic);
        }
        if term == b"ISO_IR 127".as_slice() {
            return Some(CodeTable::Arabic);
        }
        if term == b"ISO_IR 126".as_slice() {
            return Some(CodeTable::Greek);
        }
        if term == b"ISO_IR 138".as_slice() {
            return Some(CodeTable::Hebrew);
        }
        if term == b"ISO_IR 166".as_slice() {
            return Some(CodeTable::Thai);
        }
        None
    }

    /// Returns the characters that the octets from A0H on stand for.
    #[tactic(auto, unfolding(crate::specs::Text::high_half))]
    fn high_half(self) -> &'static [char; 96]
        ensures { result.now ≡ high_half self }
    {
        match self {
            CodeTable::Latin1 => &LATIN_1,
            CodeTable::Latin2 => &LATIN_2,
            CodeTable::Latin3 => &LATIN_3,
            CodeTable::Latin4 => &LATIN_4,
            CodeTable::Latin5 => &LATIN_5,
            CodeTable::Cyrillic => &CYRILLIC,
            CodeTable::Arabic => &ARABIC,
            CodeTable::Greek => &GREEK,
            CodeTable::Hebrew => &HEBREW,
            CodeTable::Thai => &THAI,
        }
    }

    /// The character of an octet.
    #[tactic(auto, unfolding(crate::specs::Text::character_in))]
    pub(crate) fn character(self, octet: u8) -> char
        ensures { result ≡ character_in self octet }
    {
        if octet < 128 {
            return char::from(octet);
        }
        if octet < 160 {
            return NONE;
        }
        self.high_half()[octet as usize - 160]
    }

    /// The octet of a character.
    #[tactic(auto, unfolding(crate::specs::Spellings::octet_in))]
    pub(crate) fn octet(self, character: char) -> Option<u8>
        ensures { result ≡ octet_in self character }
    {
        if character.is_ascii() {
            return Some(character as u8);
        }
        if character == NONE {
            return None;
        }
        let place = place_of(self.high_half(), character)?;
        Some(place as u8 + 160)
    }
}

fn place_of(characters: &[char], character: char) -> Option<usize>
    ensures { result ≡ position (λ other. other == character) characters.now }
{
    characters.iter().position(|other| *other == character)
}

/// Each set.
pub(crate) static CODE_TABLES: [CodeTable; 10] = [
    CodeTable::Latin1,
    CodeTable::Latin2,
    CodeTable::Latin3,
    CodeTable::Latin4,
    CodeTable::Latin5,
    CodeTable::Cyrillic,
    CodeTable::Arabic,
    CodeTable::Greek,
    CodeTable::Hebrew,
    CodeTable::Thai,
];

/// The character for an octet that has none in its set.
pub(crate) const NONE: char = '\u{fffd}';

/// ISO_IR 100: ISO 8859-1.
static LATIN_1: [char; 96] = [
    '\u{a0}', '\u{a1}', '\u{a2}', '\u{a3}', '\u{a4}', '\u{a5}', '\u{a6}', '\u{a7}', '\u{a8}',
    '\u{a9}', '\u{aa}', '\u{ab}', '\u{ac}', '\u{ad}', '\u{ae}', '\u{af}', '\u{b0}', '\u{b1}',
    '\u{b2}', '\u{b3}', '\u{b4}', '\u{b5}', '\u{b6}', '\u{b7}', '\u{b8}', '\u{b9}', '\u{ba}',
    '\u{bb}', '\u{bc}', '\u{bd}', '\u{be}', '\u{bf}', '\u{c0}', '\u{c1}', '\u{c2}', '\u{c3}',
    '\u{c4}', '\u{c5}', '\u{c6}', '\u{c7}', '\u{c8}', '\u{c9}', '\u{ca}', '\u{cb}', '\u{cc}',
    '\u{cd}', '\u{ce}', '\u{cf}', '\u{d0}', '\u{d1}', '\u{d2}', '\u{d3}', '\u{d4}', '\u{d5}',
    '\u{d6}', '\u{d7}', '\u{d8}', '\u{d9}', '\u{da}', '\u{db}', '\u{dc}', '\u{dd}', '\u{de}',
    '\u{df}', '\u{e0}', '\u{e1}', '\u{e2}', '\u{e3}', '\u{e4}', '\u{e5}', '\u{e6}', '\u{e7}',
    '\u{e8}', '\u{e9}', '\u{ea}', '\u{eb}', '\u{ec}', '\u{ed}', '\u{ee}', '\u{ef}', '\u{f0}',
    '\u{f1}', '\u{f2}', '\u{f3}', '\u{f4}', '\u{f5}', '\u{f6}', '\u{f7}', '\u{f8}', '\u{f9}',
    '\u{fa}', '\u{fb}', '\u{fc}', '\u{fd}', '\u{fe}', '\u{ff}',
];

/// ISO_IR 101: ISO 8859-2.
static LATIN_2: [char; 96] = [
    '\u{a0}', '\u{104}', '\u{2d8}', '\u{141}', '\u{a4}', '\u{13d}', '\u{15a}', '\u{a7}', '\u{a8}',
    '\u{160}', '\u{15e}', '\u{164}', '\u{179}', '\u{ad}', '\u{17d}', '\u{17b}', '\u{b0}',
    '\u{105}', '\u{2db}', '\u{142}', '\u{b4}', '\u{13e}', '\u{15b}', '\u{2c7}', '\u{b8}',
    '\u{161}', '\u{15f}', '\u{165}', '\u{17a}', '\u{2dd}', '\u{17e}', '\u{17c}', '\u{154}',
    '\u{c1}', '\u{c2}', '\u{102}', '\u{c4}', '\u{139}', '\u{106}', '\u{c7}', '\u{10c}', '\u{c9}',
    '\u{118}', '\u{cb}', '\u{11a}', '\u{cd}', '\u{ce}', '\u{10e}', '\u{110}', '\u{143}', '\u{147}',
    '\u{d3}', '\u{d4}', '\u{150}', '\u{d6}', '\u{d7}', '\u{158}', '\u{16e}', '\u{da}', '\u{170}',
    '\u{dc}', '\u{dd}', '\u{162}', '\u{df}', '\u{155}', '\u{e1}', '\u{e2}', '\u{103}', '\u{e4}',
    '\u{13a}', '\u{107}', '\u{e7}', '\u{10d}', '\u{e9}', '\u{119}', '\u{eb}', '\u{11b}', '\u{ed}',
    '\u{ee}', '\u{10f}', '\u{111}', '\u{144}', '\u{148}', '\u{f3}', '\u{f4}', '\u{151}', '\u{f6}',
    '\u{f7}', '\u{159}', '\u{16f}', '\u{fa}', '\u{171}', '\u{fc}', '\u{fd}', '\u{163}', '\u{2d9}',
];

/// ISO_IR 109: ISO 8859-3.
static LATIN_3: [char; 96] = [
    '\u{a0}', '\u{126}', '\u{2d8}', '\u{a3}', '\u{a4}', NONE, '\u{124}', '\u{a7}', '\u{a8}',
    '\u{130}', '\u{15e}', '\u{11e}', '\u{134}', '\u{ad}', NONE, '\u{17b}', '\u{b0}', '\u{127}',
    '\u{b2}', '\u{b3}', '\u{b4}', '\u{b5}', '\u{125}', '\u{b7}', '\u{b8}', '\u{131}', '\u{15f}',
    '\u{11f}', '\u{135}', '\u{bd}', NONE, '\u{17c}', '\u{c0}', '\u{c1}', '\u{c2}', NONE, '\u{c4}',
    '\u{10a}', '\u{108}', '\u{c7}', '\u{c8}', '\u{c9}', '\u{ca}', '\u{cb}', '\u{cc}', '\u{cd}',
    '\u{ce}', '\u{cf}', NONE, '\u{d1}', '\u{d2}', '\u{d3}', '\u{d4}', '\u{120}', '\u{d6}',
    '\u{d7}', '\u{11c}', '\u{d9}', '\u{da}', '\u{db}', '\u{dc}', '\u{16c}', '\u{15c}', '\u{df}',
    '\u{e0}', '\u{e1}', '\u{e2}', NONE, '\u{e4}', '\u{10b}', '\u{109}', '\u{e7}', '\u{e8}',
    '\u{e9}', '\u{ea}', '\u{eb}', '\u{ec}', '\u{ed}', '\u{ee}', '\u{ef}', NONE, '\u{f1}', '\u{f2}',
    '\u{f3}', '\u{f4}', '\u{121}', '\u{f6}', '\u{f7}', '\u{11d}', '\u{f9}', '\u{fa}', '\u{fb}',
    '\u{fc}', '\u{16d}', '\u{15d}', '\u{2d9}',
];

/// ISO_IR 110: ISO 8859-4.
static LATIN_4: [char; 96] = [
    '\u{a0}', '\u{104}', '\u{138}', '\u{156}', '\u{a4}', '\u{128}', '\u{13b}', '\u{a7}', '\u{a8}',
    '\u{160}', '\u{112}', '\u{122}', '\u{166}', '\u{ad}', '\u{17d}', '\u{af}', '\u{b0}', '\u{105}',
    '\u{2db}', '\u{157}', '\u{b4}', '\u{129}', '\u{13c}', '\u{2c7}', '\u{b8}', '\u{161}',
    '\u{113}', '\u{123}', '\u{167}', '\u{14a}', '\u{17e}', '\u{14b}', '\u{100}', '\u{c1}',
    '\u{c2}', '\u{c3}', '\u{c4}', '\u{c5}', '\u{c6}', '\u{12e}', '\u{10c}', '\u{c9}', '\u{118}',
    '\u{cb}', '\u{116}', '\u{cd}', '\u{ce}', '\u{12a}', '\u{110}', '\u{145}', '\u{14c}', '\u{136}',
    '\u{d4}', '\u{d5}', '\u{d6}', '\u{d7}', '\u{d8}', '\u{172}', '\u{da}', '\u{db}', '\u{dc}',
    '\u{168}', '\u{16a}', '\u{df}', '\u{101}', '\u{e1}', '\u{e2}', '\u{e3}', '\u{e4}', '\u{e5}',
    '\u{e6}', '\u{12f}', '\u{10d}', '\u{e9}', '\u{119}', '\u{eb}', '\u{117}', '\u{ed}', '\u{ee}',
    '\u{12b}', '\u{111}', '\u{146}', '\u{14d}', '\u{137}', '\u{f4}', '\u{f5}', '\u{f6}', '\u{f7}',
    '\u{f8}', '\u{173}', '\u{fa}', '\u{fb}', '\u{fc}', '\u{169}', '\u{16b}', '\u{2d9}',
];

/// ISO_IR 144: ISO 8859-5.
static CYRILLIC: [char; 96] = [
    '\u{a0}', '\u{401}', '\u{402}', '\u{403}', '\u{404}', '\u{405}', '\u{406}', '\u{407}',
    '\u{408}', '\u{409}', '\u{40a}', '\u{40b}', '\u{40c}', '\u{ad}', '\u{40e}', '\u{40f}',
    '\u{410}', '\u{411}', '\u{412}', '\u{413}', '\u{414}', '\u{415}', '\u{416}', '\u{417}',
    '\u{418}', '\u{419}', '\u{41a}', '\u{41b}', '\u{41c}', '\u{41d}', '\u{41e}', '\u{41f}',
    '\u{420}', '\u{421}', '\u{422}', '\u{423}', '\u{424}', '\u{425}', '\u{426}', '\u{427}',
    '\u{428}', '\u{429}', '\u{42a}', '\u{42b}', '\u{42c}', '\u{42d}', '\u{42e}', '\u{42f}',
    '\u{430}', '\u{431}', '\u{432}', '\u{433}', '\u{434}', '\u{435}', '\u{436}', '\u{437}',
    '\u{438}', '\u{439}', '\u{43a}', '\u{43b}', '\u{43c}', '\u{43d}', '\u{43e}', '\u{43f}',
    '\u{440}', '\u{441}', '\u{442}', '\u{443}', '\u{444}', '\u{445}', '\u{446}', '\u{447}',
    '\u{448}', '\u{449}', '\u{44a}', '\u{44b}', '\u{44c}', '\u{44d}', '\u{44e}', '\u{44f}',
    '\u{2116}', '\u{451}', '\u{452}', '\u{453}', '\u{454}', '\u{455}', '\u{456}', '\u{457}',
    '\u{458}', '\u{459}', '\u{45a}', '\u{45b}', '\u{45c}', '\u{a7}', '\u{45e}', '\u{45f}',
];

/// ISO_IR 127: ISO 8859-6.
static ARABIC: [char; 96] = [
    '\u{a0}', NONE, NONE, NONE, '\u{a4}', NONE, NONE, NONE, NONE, NONE, NONE, NONE, '\u{60c}',
    '\u{ad}', NONE, NONE, NONE, NONE, NONE, NONE, NONE, NONE, NONE, NONE, NONE, NONE, NONE,
    '\u{61b}', NONE, NONE, NONE, '\u{61f}', NONE, '\u{621}', '\u{622}', '\u{623}', '\u{624}',
    '\u{625}', '\u{626}', '\u{627}', '\u{628}', '\u{629}', '\u{62a}', '\u{62b}', '\u{62c}',
    '\u{62d}', '\u{62e}', '\u{62f}', '\u{630}', '\u{631}', '\u{632}', '\u{633}', '\u{634}',
    '\u{635}', '\u{636}', '\u{637}', '\u{638}', '\u{639}', '\u{63a}', NONE, NONE, NONE, NONE, NONE,
    '\u{640}', '\u{641}', '\u{642}', '\u{643}', '\u{644}', '\u{645}', '\u{646}', '\u{647}',
    '\u{648}', '\u{649}', '\u{64a}', '\u{64b}', '\u{64c}', '\u{64d}', '\u{64e}', '\u{64f}',
    '\u{650}', '\u{651}', '\u{652}', NONE, NONE, NONE, NONE, NONE, NONE, NONE, NONE, NONE, NONE,
    NONE, NONE, NONE,
];

/// ISO_IR 126: ISO 8859-7.
static GREEK: [char; 96] = [
    '\u{a0}', '\u{2018}', '\u{2019}', '\u{a3}', '\u{20ac}', '\u{20af}', '\u{a6}', '\u{a7}',
    '\u{a8}', '\u{a9}', '\u{37a}', '\u{ab}', '\u{ac}', '\u{ad}', NONE, '\u{2015}', '\u{b0}',
    '\u{b1}', '\u{b2}', '\u{b3}', '\u{384}', '\u{385}', '\u{386}', '\u{b7}', '\u{388}', '\u{389}',
    '\u{38a}', '\u{bb}', '\u{38c}', '\u{bd}', '\u{38e}', '\u{38f}', '\u{390}', '\u{391}',
    '\u{392}', '\u{393}', '\u{394}', '\u{395}', '\u{396}', '\u{397}', '\u{398}', '\u{399}',
    '\u{39a}', '\u{39b}', '\u{39c}', '\u{39d}', '\u{39e}', '\u{39f}', '\u{3a0}', '\u{3a1}', NONE,
    '\u{3a3}', '\u{3a4}', '\u{3a5}', '\u{3a6}', '\u{3a7}', '\u{3a8}', '\u{3a9}', '\u{3aa}',
    '\u{3ab}', '\u{3ac}', '\u{3ad}', '\u{3ae}', '\u{3af}', '\u{3b0}', '\u{3b1}', '\u{3b2}',
    '\u{3b3}', '\u{3b4}', '\u{3b5}', '\u{3b6}', '\u{3b7}', '\u{3b8}', '\u{3b9}', '\u{3ba}',
    '\u{3bb}', '\u{3bc}', '\u{3bd}', '\u{3be}', '\u{3bf}', '\u{3c0}', '\u{3c1}', '\u{3c2}',
    '\u{3c3}', '\u{3c4}', '\u{3c5}', '\u{3c6}', '\u{3c7}', '\u{3c8}', '\u{3c9}', '\u{3ca}',
    '\u{3cb}', '\u{3cc}', '\u{3cd}', '\u{3ce}', NONE,
];

/// ISO_IR 138: ISO 8859-8.
static HEBREW: [char; 96] = [
    '\u{a0}', NONE, '\u{a2}', '\u{a3}', '\u{a4}', '\u{a5}', '\u{a6}', '\u{a7}', '\u{a8}', '\u{a9}',
    '\u{d7}', '\u{ab}', '\u{ac}', '\u{ad}', '\u{ae}', '\u{af}', '\u{b0}', '\u{b1}', '\u{b2}',
    '\u{b3}', '\u{b4}', '\u{b5}', '\u{b6}', '\u{b7}', '\u{b8}', '\u{b9}', '\u{f7}', '\u{bb}',
    '\u{bc}', '\u{bd}', '\u{be}', NONE, NONE, NONE, NONE, NONE, NONE, NONE, NONE, NONE, NONE, NONE,
    NONE, NONE, NONE, NONE, NONE, NONE, NONE, NONE, NONE, NONE, NONE, NONE, NONE, NONE, NONE, NONE,
    NONE, NONE, NONE, NONE, NONE, '\u{2017}', '\u{5d0}', '\u{5d1}', '\u{5d2}', '\u{5d3}',
    '\u{5d4}', '\u{5d5}', '\u{5d6}', '\u{5d7}', '\u{5d8}', '\u{5d9}', '\u{5da}', '\u{5db}',
    '\u{5dc}', '\u{5dd}', '\u{5de}', '\u{5df}', '\u{5e0}', '\u{5e1}', '\u{5e2}', '\u{5e3}',
    '\u{5e4}', '\u{5e5}', '\u{5e6}', '\u{5e7}', '\u{5e8}', '\u{5e9}', '\u{5ea}', NONE, NONE,
    '\u{200e}', '\u{200f}', NONE,
];

/// ISO_IR 148: ISO 8859-9.
static LATIN_5: [char; 96] = [
    '\u{a0}', '\u{a1}', '\u{a2}', '\u{a3}', '\u{a4}', '\u{a5}', '\u{a6}', '\u{a7}', '\u{a8}',
    '\u{a9}', '\u{aa}', '\u{ab}', '\u{ac}', '\u{ad}', '\u{ae}', '\u{af}', '\u{b0}', '\u{b1}',
    '\u{b2}', '\u{b3}', '\u{b4}', '\u{b5}', '\u{b6}', '\u{b7}', '\u{b8}', '\u{b9}', '\u{ba}',
    '\u{bb}', '\u{bc}', '\u{bd}', '\u{be}', '\u{bf}', '\u{c0}', '\u{c1}', '\u{c2}', '\u{c3}',
    '\u{c4}', '\u{c5}', '\u{c6}', '\u{c7}', '\u{c8}', '\u{c9}', '\u{ca}', '\u{cb}', '\u{cc}',
    '\u{cd}', '\u{ce}', '\u{cf}', '\u{11e}', '\u{d1}', '\u{d2}', '\u{d3}', '\u{d4}', '\u{d5}',
    '\u{d6}', '\u{d7}', '\u{d8}', '\u{d9}', '\u{da}', '\u{db}', '\u{dc}', '\u{130}', '\u{15e}',
    '\u{df}', '\u{e0}', '\u{e1}', '\u{e2}', '\u{e3}', '\u{e4}', '\u{e5}', '\u{e6}', '\u{e7}',
    '\u{e8}', '\u{e9}', '\u{ea}', '\u{eb}', '\u{ec}', '\u{ed}', '\u{ee}', '\u{ef}', '\u{11f}',
    '\u{f1}', '\u{f2}', '\u{f3}', '\u{f4}', '\u{f5}', '\u{f6}', '\u{f7}', '\u{f8}', '\u{f9}',
    '\u{fa}', '\u{fb}', '\u{fc}', '\u{131}', '\u{15f}', '\u{ff}',
];

/// ISO_IR 166: TIS 620.
static THAI: [char; 96] = [
    NONE, '\u{e01}', '\u{e02}', '\u{e03}', '\u{e04}', '\u{e05}', '\u{e06}', '\u{e07}', '\u{e08}',
    '\u{e09}', '\u{e0a}', '\u{e0b}', '\u{e0c}', '\u{e0d}', '\u{e0e}', '\u{e0f}', '\u{e10}',
    '\u{e11}', '\u{e12}', '\u{e13}', '\u{e14}', '\u{e15}', '\u{e16}', '\u{e17}', '\u{e18}',
    '\u{e19}', '\u{e1a}', '\u{e1b}', '\u{e1c}', '\u{e1d}', '\u{e1e}', '\u{e1f}', '\u{e20}',
    '\u{e21}', '\u{e22}', '\u{e23}', '\u{e24}', '\u{e25}', '\u{e26}', '\u{e27}', '\u{e28}',
    '\u{e29}', '\u{e2a}', '\u{e2b}', '\u{e2c}', '\u{e2d}', '\u{e2e}', '\u{e2f}', '\u{e30}',
    '\u{e31}', '\u{e32}', '\u{e33}', '\u{e34}', '\u{e35}', '\u{e36}', '\u{e37}', '\u{e38}',
    '\u{e39}', '\u{e3a}', NONE, NONE, NONE, NONE, '\u{e3f}', '\u{e40}', '\u{e41}', '\u{e42}',
    '\u{e43}', '\u{e44}', '\u{e45}', '\u{e46}', '\u{e47}', '\u{e48}', '\u{e49}', '\u{e4a}',
    '\u{e4b}', '\u{e4c}', '\u{e4d}', '\u{e4e}', '\u{e4f}', '\u{e50}', '\u{e51}', '\u{e52}',
    '\u{e53}', '\u{e54}', '\u{e55}', '\u{e56}', '\u{e57}', '\u{e58}', '\u{e59}', '\u{e5a}',
    '\u{e5b}', NONE, NONE, NONE, NONE,
];
