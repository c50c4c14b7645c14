// The classes of characters, under the grammar's names. A pattern takes no character of a scalar value that is a u32, so it has its number.
ghost use Rattle.std.specs.Prelude.{◌≡◌, ◌||◌};
ghost use Rattle.ntriples.specs.Characters.{letter, digit, pn_chars_base, pn_chars_u, pn_chars, iri_char, string_char, hex, echar};
ghost use Rattle.ntriples.specs.Characters.{tag_char, blank};
ghost use Rattle.ntriples_tokens.specs.Promises.{number_of, raw};

// A to Z, a to z.
pub fn letter(c: u32) -> bool
    ensures { result ≡ letter c }
{
    matches!(c, 65..=90 | 97..=122)
}

// 0 to 9.
pub fn digit(c: u32) -> bool
    ensures { result ≡ digit c }
{
    matches!(c, 48..=57)
}

#[tactic(auto, unfolding(ntriples::specs::Characters::pn_chars_base))]
fn pn_chars_base(c: u32) -> bool
    ensures { result ≡ pn_chars_base c }
{
    letter(c)
        || matches!(c,
            0xC0..=0xD6 | 0xD8..=0xF6 | 0xF8..=0x2FF | 0x370..=0x37D | 0x37F..=0x1FFF
            | 0x200C..=0x200D | 0x2070..=0x218F | 0x2C00..=0x2FEF | 0x3001..=0xD7FF
            | 0xF900..=0xFDCF | 0xFDF0..=0xFFFD | 0x10000..=0xEFFFF)
}

// PN_CHARS_BASE, '_' and ':'.
#[tactic(auto, unfolding(ntriples::specs::Characters::pn_chars_u))]
fn pn_chars_u(c: u32) -> bool
    ensures { result ≡ pn_chars_u c }
{
    matches!(c, 95 | 58) || pn_chars_base(c)
}

// What a label may begin with.
pub fn label_first(c: u32) -> bool
    ensures { result ≡ (pn_chars_u c || digit c) }
{
    digit(c) || pn_chars_u(c)
}

// PN_CHARS_U, '-', a digit, and characters that combine with others.
#[tactic(auto, unfolding(ntriples::specs::Characters::pn_chars))]
pub fn pn_chars(c: u32) -> bool
    ensures { result ≡ pn_chars c }
{
    matches!(c, 45 | 0xB7 | 0x300..=0x36F | 0x203F..=0x2040) || digit(c) || pn_chars_u(c)
}

// None of U+0000 to U+0020 < > " { } | ^ ` \
#[tactic(auto, unfolding(ntriples::specs::Characters::iri_char, ntriples::specs::Characters::one_of))]
fn iri_char(c: u32) -> bool
    ensures { result ≡ iri_char c }
{
    !matches!(c, 0..=32 | 60 | 62 | 34 | 123 | 125 | 124 | 94 | 96 | 92)
}

// None of " \ and the two line ends.
#[tactic(auto, unfolding(ntriples::specs::Characters::string_char, ntriples::specs::Characters::one_of))]
fn string_char(c: u32) -> bool
    ensures { result ≡ string_char c }
{
    !matches!(c, 34 | 92 | 10 | 13)
}

// What may stand unescaped in an IRIREF, or else in a STRING_LITERAL_QUOTE.
pub fn raw(iri: bool, c: u32) -> bool
    ensures { result ≡ raw iri c }
{
    if iri { iri_char(c) } else { string_char(c) }
}

// A hexadecimal digit's value.
#[tactic(auto, unfolding(ntriples::specs::Characters::hex))]
pub fn hex(c: u32) -> Option<u32>
    ensures { number_of result ≡ hex c }
{
    match c {
        48..=57 => Some(c - 48), // 0 to 9
        65..=70 => Some(c - 55), // A to F
        97..=102 => Some(c - 87), // a to f
        _ => None,
    }
}

// The character that ECHAR's letter stands for.
#[tactic(auto, unfolding(ntriples::specs::Characters::echar, ntriples::specs::Characters::one_of))]
pub fn echar(c: u32) -> Option<u32>
    ensures { number_of result ≡ echar c }
{
    match c {
        116 => Some(9), // t
        98 => Some(8), // b
        110 => Some(10), // n
        114 => Some(13), // r
        102 => Some(12), // f
        34 | 39 | 92 => Some(c), // " ' \
        _ => None,
    }
}

// What a language tag is made of.
pub fn tag_char(c: u32) -> bool
    ensures { result ≡ tag_char c }
{
    letter(c) || digit(c) || c == '-' as u32
}

// A space or a tab.
pub fn blank(c: u32) -> bool
    ensures { result ≡ blank c }
{
    matches!(c, 32 | 9)
}
