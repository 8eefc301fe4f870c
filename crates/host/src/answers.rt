// An answer as a kind and five words, and so where a held buffer lies. The kinds are numbers of the C interface (`makvluria.h`).
ghost use Rattle.std.specs.Prelude.{◌≡◌};
ghost use Rattle.definition.specs.Located.{lent_by};
ghost use Rattle.types.specs.Meaning.{kind_of, given_of, refusal_of};
ghost use Rattle.layer.specs.Fetching.{handed};
ghost use Rattle.layer.specs.Asking.{located_of};
ghost use Rattle.host.specs.Answers.{answer_words, place_words, located_words};

use layer::{Buffer, Place};
use types::{Answer, Kind, Refusal};

// The kind and the values of an answer to every step but a fetch.
pub(crate) fn words_of(answer: Result<Answer, Refusal>) -> [u32; 6]
    ensures { result ≡ answer_words (given_of answer) }
{
    match answer {
        Err(refusal) => [0, u32::from(refusal), 0, 0, 0, 0],
        Ok(Answer::Registers(r0, r1, r2, r3)) => [1, r0, r1, r2, r3, 0],
        Ok(Answer::Delivered(pointer, r0, r1, r2, r3)) => [2, pointer, r0, r1, r2, r3],
        Ok(Answer::Waiting) => [3, 0, 0, 0, 0, 0],
        Ok(Answer::Nothing) => [4, 0, 0, 0, 0, 0],
        Ok(Answer::Taken) => [5, 0, 0, 0, 0, 0],
        Ok(Answer::Deposited) => [6, 0, 0, 0, 0, 0],
        Ok(Answer::Latched) => [7, 0, 0, 0, 0, 0],
        Ok(Answer::Started) => [8, 0, 0, 0, 0, 0],
        Ok(Answer::Exited(code)) => [9, code, 0, 0, 0, 0],
        Ok(Answer::Restarted(code)) => [10, code, 0, 0, 0, 0],
    }
}

// The words of a fetch: its number, and where its part lies; where it is refused, that is the empty part at the start of the memory image.
pub(crate) fn words_fetched(fetched: Result<Place, Refusal>) -> [u32; 6]
    ensures { result ≡ place_words (refusal_of fetched) (handed fetched) }
{
    match fetched {
        Ok(part) => [11, 0, part.image as u32, part.place, part.length, 0],
        Err(refusal) => [11, u32::from(refusal), 0, 0, 0, 0],
    }
}

// The kind of slot that a class lends buffers in; for a class that lends none, one that holds none, and no Option, as the
// definition's `lent_by` has it.
pub(crate) fn lent_by(class: u8) -> Kind
    ensures { kind_of result ≡ lent_by class }
{
    match class {
        3 => Kind::ReadWrite,
        4 => Kind::ReadOnly,
        _ => Kind::Subscribe,
    }
}

// The words of a held buffer: its area, its address and its size.
pub(crate) fn words_located(located: Result<Buffer, Refusal>) -> [u32; 6]
    ensures { result ≡ located_words (located_of located) }
{
    match located {
        Err(refusal) => [0, u32::from(refusal), 0, 0, 0, 0],
        Ok(Buffer { area, pair }) => [12, area as u32, pair.0, pair.1, 0, 0],
    }
}
