//! Lines and fields of a text, where they stand.

ghost use Rattle.std.specs.Prelude.{◌≡◌, ◌≢◌, ◌<◌, [], ◌∷◌, length, is_some, MatchOption, None};
ghost use Rattle.std.specs.Option.{option_copied};
ghost use Rattle.maps_text.specs.Lines.{lines_of, fields_of, entry_as, entry_in};
ghost use Rattle.maps_text.specs.Steps.{cut, FindsEntry};

use crate::digits::are_digits;

/// The fields of a line as they are written: a name, and the digits of a key and of a value.
#[derive(Clone, Copy)]
pub(crate) struct Fields<'a> {
    pub name: &'a [u8],
    pub key: &'a [u8],
    pub value: &'a [u8],
}

/// The part before the first separator, and what follows that, if it is there.
fn cut(text: &[u8], separator: u8) -> (&[u8], Option<&[u8]>)
    ensures part { result.0.now ≡ (cut separator text.now).0 }
    ensures rest { option_copied result.1 ≡ (cut separator text.now).1 }
{
    for (i, byte) in text.iter().enumerate() {
        if *byte == separator {
            return (&text[..i], Some(&text[i + 1..]));
        }
    }
    (text, None)
}

/// The first line of a text that is not empty, and what follows its line feed.
pub(crate) fn first_line(text: &[u8]) -> (&[u8], &[u8])
    requires { text.now ≢ [] }
    ensures lines { lines_of text.now ≡ result.0.now ∷ lines_of result.1.now }
    ensures shorter { length result.1.now < length text.now }
{
    let (line, rest) = cut(text, b'\n');
    match rest {
        Some(rest) => (line, rest),
        None => (line, &[]),
    }
}

/// The three fields of a line that is an entry.
pub(crate) fn entry_fields(line: &[u8]) -> Option<Fields<'_>>
    ensures { MatchOption result (entry_in line.now ≡ None) (FindsEntry line.now) }
{
    let fields = three_fields(line)?;
    if is_entry(&fields) {
        Some(fields)
    } else {
        None
    }
}

fn three_fields(line: &[u8]) -> Option<Fields<'_>>
    ensures { MatchOption result (entry_in line.now ≡ None) (λ f. fields_of line.now ≡ f.name.now ∷ (f.key.now ∷ (f.value.now ∷ []))) }
{
    let (name, rest) = cut(line, b' ');
    let rest = rest?;
    let (key, later) = cut(rest, b' ');
    let later = later?;
    let (value, end) = cut(later, b' ');
    match end {
        None => Some(Fields { name, key, value }),
        Some(_) => None,
    }
}

/// Whether no field is empty, and key and value are digits.
fn is_entry(fields: &Fields) -> bool
    ensures { result ≡ is_some (entry_as (fields.now.name.now ∷ (fields.now.key.now ∷ (fields.now.value.now ∷ [])))) }
{
    if fields.name.is_empty() || fields.key.is_empty() || fields.value.is_empty() {
        return false;
    }
    are_digits(fields.key) && are_digits(fields.value)
}
