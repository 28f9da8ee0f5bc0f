//! Fields of a line, which are separated by one space each.

ghost use Rattle.std.specs.Prelude.{◌≡◌, ◌∷◌};
ghost use Rattle.world_model.specs.Scripts.{fields_of, no_field, one_field, two_fields, three_fields};
ghost use Rattle.guest_script.specs.Views.{seen, fields_left};

use crate::text_lines::behind;
use memchr::memchr;
use world_model::LineKind;

/// The first field of a text, and what follows its space, where it has one. Two spaces make an empty field.
/// O(length of the field).
#[tactic(auto, using(crate::proofs::FieldLemmas::first_field, crate::proofs::FieldLemmas::only_field))]
pub fn cut_field(text: &[u8]) -> (&[u8], Option<&[u8]>)
    ensures { fields_of text.now ≡ result.0.now ∷ fields_left result.1 }
{
    match memchr(b' ', text) {
        Some(end) => (&text[..end], Some(behind(text, end))),
        None => (text, None),
    }
}

/// No field.
#[tactic(auto, using(crate::proofs::FieldLemmas::no_field_of_some))]
pub fn no_field(rest: Option<&[u8]>) -> Result<(), LineKind>
    ensures { seen (λ _. tt) result ≡ no_field (fields_left rest.entry) }
{
    match rest {
        None => Ok(()),
        Some(_) => Err(LineKind::Fields),
    }
}

/// Exactly one field.
#[tactic(auto, using(crate::proofs::FieldLemmas::one_field_of_more))]
pub fn one_field(rest: Option<&[u8]>) -> Result<&[u8], LineKind>
    ensures { seen (λ field. field.now) result ≡ one_field (fields_left rest.entry) }
{
    let text = rest.ok_or(LineKind::Fields)?;
    let (field, rest) = cut_field(text);
    match rest {
        None => Ok(field),
        Some(_) => Err(LineKind::Fields),
    }
}

/// Exactly two fields.
#[tactic(auto, using(crate::proofs::FieldLemmas::two_fields_by_one))]
pub fn two_fields(rest: Option<&[u8]>) -> Result<(&[u8], &[u8]), LineKind>
    ensures { seen (λ both. (both.0.now, both.1.now)) result ≡ two_fields (fields_left rest.entry) }
{
    let text = rest.ok_or(LineKind::Fields)?;
    let (first, rest) = cut_field(text);
    let second = one_field(rest)?;
    Ok((first, second))
}

/// Exactly three fields.
#[tactic(auto, using(crate::proofs::FieldLemmas::three_fields_by_two))]
pub fn three_fields(rest: Option<&[u8]>) -> Result<(&[u8], &[u8], &[u8]), LineKind>
    ensures { seen (λ all. (all.0.now, all.1.now, all.2.now)) result ≡ three_fields (fields_left rest.entry) }
{
    let text = rest.ok_or(LineKind::Fields)?;
    let (first, rest) = cut_field(text);
    let (second, third) = two_fields(rest)?;
    Ok((first, second, third))
}
