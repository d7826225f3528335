//! Letters of either case.
ghost use Rattle.std.specs.Prelude.{◌≡◌};
ghost use Rattle.std.specs.Str.{bytes_eq};
ghost use Rattle.tis_words.specs.Letters.{capital, capitals};

/// A small letter as its capital, and any other byte as it is.
pub fn capital_of(byte: u8) -> u8
    ensures { result ≡ capital byte }
{
    if b'a' <= byte && byte <= b'z' {
        byte - 32
    } else {
        byte
    }
}

/// Whether a word is this text of capitals, where small letters count as their capitals.
pub fn is_in_either_case(word: &[u8], text: &[u8]) -> bool
    ensures { result ≡ bytes_eq (capitals word.now) text.now }
{
    match word {
        [] => text.is_empty(),
        [first, others @ ..] => match text {
            [] => false,
            [wanted, behind @ ..] => {
                let here = capital_of(*first) == *wanted;
                let rest = is_in_either_case(others, behind);
                here && rest
            }
        },
    }
}
