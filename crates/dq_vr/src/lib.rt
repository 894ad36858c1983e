//! Tags and value representations of DICOM (PS3.5 sections 6.2 and 7.1, PS3.6).
#![tactic(auto)]

ghost use Rattle.std.specs.Prelude.{◌≡◌, ℕ, ◌+◌, ◌*◌, ◌^◌, ◌<◌, List, [], ◌∷◌, All, Contains, Some};
ghost use Rattle.dq_vr.specs.Dictionary.{Entry, Rises, dictionary, known_vr, vr_in};
ghost use Rattle.dq_vr.specs.declared.Vr.{Vr};
ghost use Rattle.dq_vr.specs.Vr.{is_text, length_form_of, letters_of, vr_with_letters};

pub mod study_root;
pub mod tags;

pub use tags::DICTIONARY;

/// The tag of a data element (PS3.5 section 7.1.1). Tags rise by group, then by element.
#[derive(Clone, Copy, Debug, PartialEq, Eq, PartialOrd, Ord)]
pub struct Tag {
    pub group: u16,
    pub element: u16,
}

impl Tag {
    ghost use Rattle.dq_vr.specs.Tag.{is_below};

    /// Whether the tag stands before another in a data set (PS3.5 section 7.1).
    #[tactic(auto, unfolding(crate::specs::Tag::is_below))]
    pub fn is_below(self, other: Tag) -> bool
        ensures { result ≡ is_below self other }
    {
        self < other
    }
}

/// A value representation (PS3.5 section 6.2), by its two letters.
#[derive(Clone, Copy, Debug, PartialEq, Eq)]
pub enum Vr {
    AE,
    AS,
    AT,
    CS,
    DA,
    DS,
    DT,
    FD,
    FL,
    IS,
    LO,
    LT,
    OB,
    OD,
    OF,
    OL,
    OV,
    OW,
    PN,
    SH,
    SL,
    SQ,
    SS,
    ST,
    SV,
    TM,
    UC,
    UI,
    UL,
    UN,
    UR,
    US,
    UT,
    UV,
}

/// The VR of a known tag.
pub fn lookup(tag: Tag) -> Option<Vr>
    ensures { result ≡ known_vr tag }
{
    vr_in(&DICTIONARY, tag)
}

/// The tag as one number, its group first.
fn number_of(tag: Tag) -> u32
    ensures { result ≡ tag.group * 0x10000 + tag.element }
{
    (u32::from(tag.group) << 16) | u32::from(tag.element)
}

fn vr_in(entries: &[(Tag, Vr)], tag: Tag) -> Option<Vr>
    requires rises { Rises entries.now }
    requires tags { All (λ entry. entry.0.element < 2 ^ 16) entries.now }
    ensures { result ≡ vr_in entries.now tag }
{
    match entries.binary_search_by_key(&number_of(tag), |(tag, _)| number_of(*tag)) {
        Ok(at) => Some(entries[at].1),
        Err(_) => None,
    }
}

/// The tags of the dictionary rise, so that no tag is there twice, and `lookup` answers each
/// entry's VR.
pub fn dictionary_law()
    ensures rises { Rises dictionary }
    ensures told { (entry : Entry) → Contains dictionary entry → known_vr entry.0 ≡ Some entry.1 }
{}

/// How many octets the length of a value takes in an explicit spelling (PS3.5 section 7.1.2).
#[derive(Clone, Copy, Debug, PartialEq, Eq)]
pub enum LengthForm {
    /// Two octets, right after the letters.
    Two,
    /// Four octets, after two reserved ones.
    Four,
}

/// The form of the length in an explicit spelling (PS3.5 section 7.1.2).
#[tactic(auto, unfolding(crate::specs::Vr::length_form_of))]
pub fn length_form(vr: Vr) -> LengthForm
    ensures { result ≡ length_form_of vr }
{
    match vr {
        Vr::OB
        | Vr::OD
        | Vr::OF
        | Vr::OL
        | Vr::OV
        | Vr::OW
        | Vr::SQ
        | Vr::SV
        | Vr::UC
        | Vr::UN
        | Vr::UR
        | Vr::UT
        | Vr::UV => LengthForm::Four,
        _ => LengthForm::Two,
    }
}

impl Vr {
    /// Whether values are character strings that are padded with spaces (PS3.5 section 6.2). UI is
    /// not among them: it is padded with 00H.
    #[tactic(auto, unfolding(crate::specs::Vr::is_text))]
    pub fn is_text(self) -> bool
        ensures { result ≡ is_text self }
    {
        matches!(
            self,
            Vr::AE
                | Vr::AS
                | Vr::CS
                | Vr::DA
                | Vr::DS
                | Vr::DT
                | Vr::IS
                | Vr::LO
                | Vr::LT
                | Vr::PN
                | Vr::SH
                | Vr::ST
                | Vr::TM
                | Vr::UC
                | Vr::UR
                | Vr::UT
        )
    }

    /// The two letters of the VR (PS3.5 section 6.2).
    #[tactic(auto, unfolding(crate::specs::Vr::letters_of))]
    pub fn letters(self) -> [u8; 2]
        ensures { result ≡ letters_of self }
    {
        *match self {
            Vr::AE => b"AE",
            Vr::AS => b"AS",
            Vr::AT => b"AT",
            Vr::CS => b"CS",
            Vr::DA => b"DA",
            Vr::DS => b"DS",
            Vr::DT => b"DT",
            Vr::FD => b"FD",
            Vr::FL => b"FL",
            Vr::IS => b"IS",
            Vr::LO => b"LO",
            Vr::LT => b"LT",
            Vr::OB => b"OB",
            Vr::OD => b"OD",
            Vr::OF => b"OF",
            Vr::OL => b"OL",
            Vr::OV => b"OV",
            Vr::OW => b"OW",
            Vr::PN => b"PN",
            Vr::SH => b"SH",
            Vr::SL => b"SL",
            Vr::SQ => b"SQ",
            Vr::SS => b"SS",
            Vr::ST => b"ST",
            Vr::SV => b"SV",
            Vr::TM => b"TM",
            Vr::UC => b"UC",
            Vr::UI => b"UI",
            Vr::UL => b"UL",
            Vr::UN => b"UN",
            Vr::UR => b"UR",
            Vr::US => b"US",
            Vr::UT => b"UT",
            Vr::UV => b"UV",
        }
    }

    /// The VR with these two letters.
    #[tactic(auto, unfolding(crate::specs::Vr::vr_with_letters, crate::specs::Vr::vr_among, crate::specs::Vr::every_vr, crate::specs::Vr::letters_of))]
    pub fn from_letters(first: u8, second: u8) -> Option<Vr>
        ensures { result ≡ vr_with_letters (first ∷ second ∷ []) }
    {
        match (first, second) {
            (b'A', b'E') => Some(Vr::AE),
            (b'A', b'S') => Some(Vr::AS),
            (b'A', b'T') => Some(Vr::AT),
            (b'C', b'S') => Some(Vr::CS),
            (b'D', b'A') => Some(Vr::DA),
            (b'D', b'S') => Some(Vr::DS),
            (b'D', b'T') => Some(Vr::DT),
            (b'F', b'D') => Some(Vr::FD),
            (b'F', b'L') => Some(Vr::FL),
            (b'I', b'S') => Some(Vr::IS),
            (b'L', b'O') => Some(Vr::LO),
            (b'L', b'T') => Some(Vr::LT),
            (b'O', b'B') => Some(Vr::OB),
            (b'O', b'D') => Some(Vr::OD),
            (b'O', b'F') => Some(Vr::OF),
            (b'O', b'L') => Some(Vr::OL),
            (b'O', b'V') => Some(Vr::OV),
            (b'O', b'W') => Some(Vr::OW),
            (b'P', b'N') => Some(Vr::PN),
            (b'S', b'H') => Some(Vr::SH),
            (b'S', b'L') => Some(Vr::SL),
            (b'S', b'Q') => Some(Vr::SQ),
            (b'S', b'S') => Some(Vr::SS),
            (b'S', b'T') => Some(Vr::ST),
            (b'S', b'V') => Some(Vr::SV),
            (b'T', b'M') => Some(Vr::TM),
            (b'U', b'C') => Some(Vr::UC),
            (b'U', b'I') => Some(Vr::UI),
            (b'U', b'L') => Some(Vr::UL),
            (b'U', b'N') => Some(Vr::UN),
            (b'U', b'R') => Some(Vr::UR),
            (b'U', b'S') => Some(Vr::US),
            (b'U', b'T') => Some(Vr::UT),
            (b'U', b'V') => Some(Vr::UV),
            _ => None,
        }
    }

    /// Each VR is named by its letters, and letters that name a VR are its own.
    pub fn letters_law()
        ensures named { (vr : Vr) → vr_with_letters (letters_of vr) ≡ Some vr }
        ensures own { (vr : Vr) (letters : List ℕ) → vr_with_letters letters ≡ Some vr
            → letters_of vr ≡ letters }
    {}
}
