ghost use Rattle.std.specs.Prelude.{◌≡◌, ◌∷◌, [], IfOk, replicate, vec_len};
ghost use Rattle.query_gen.specs.Parts.{part_size};
ghost use Rattle.par_screen.specs.Eighths.{AreMadeFor, AreNew};

use language::{Language, Memory};
use query_gen::{Place, Query};
use std::alloc::Global;

/// A place for one part.
fn place_for(alloc: Global, lang: &Language) -> Result<Place, Memory>
    ensures size { IfOk result (λ p. vec_len p.marks ≡ part_size lang.now) }
    ensures marks { IfOk result (λ p. p.marks.items ≡ replicate (part_size lang.now) 0) }
    ensures answer { IfOk result (λ p. p.answer ≡ Query.AllImplied) }
{
    Place::new(alloc, lang)
}

/// Places for two parts. Few at a time are made beside a refusal, since each that is made is
/// dropped by it.
fn two_places(alloc: Global, lang: &Language) -> Result<(Place, Place), Memory>
    ensures made { IfOk result (λ two. AreMadeFor lang.now (two.0 ∷ two.1 ∷ [])) }
    ensures new { IfOk result (λ two. AreNew lang.now (two.0 ∷ two.1 ∷ [])) }
{
    let first = place_for(alloc, lang)?;
    let second = place_for(alloc, lang)?;
    Ok((first, second))
}

/// Places for four parts.
fn four_places(alloc: Global, lang: &Language) -> Result<(Place, Place, Place, Place), Memory>
    ensures made { IfOk result
        (λ four. AreMadeFor lang.now (four.0 ∷ four.1 ∷ four.2 ∷ four.3 ∷ [])) }
    ensures new { IfOk result (λ four. AreNew lang.now (four.0 ∷ four.1 ∷ four.2 ∷ four.3 ∷ [])) }
{
    let (first, second) = two_places(alloc, lang)?;
    let (third, fourth) = two_places(alloc, lang)?;
    Ok((first, second, third, fourth))
}

/// Places for the eight parts of a language's candidates. `Memory` where there is none for them.
pub fn places_for(alloc: Global, lang: &Language) -> Result<[Place; 8], Memory>
    ensures made { IfOk result (AreMadeFor lang.now) }
    ensures new { IfOk result (AreNew lang.now) }
{
    let (first, second, third, fourth) = four_places(alloc, lang)?;
    let (fifth, sixth, seventh, eighth) = four_places(alloc, lang)?;
    Ok([first, second, third, fourth, fifth, sixth, seventh, eighth])
}
