// How far a run over a trace has come, as a kind, a place and a number of bytes.
// Kinds are numbers here and a call is answered by a `bool`, for C (`makvluria.h`).
ghost use Rattle.std.specs.Prelude.{◌≡◌};
ghost use Rattle.host.specs.Runs.{progress_words};

use layer::Progress;

pub(crate) fn words_of(progress: Progress) -> [u64; 3]
    ensures { result ≡ progress_words progress }
{
    match progress {
        Progress::Ended(written) => [0, 0, written as u64],
        Progress::Paused(place, written) => [1, place as u64, written as u64],
    }
}
