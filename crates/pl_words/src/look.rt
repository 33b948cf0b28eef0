//! The step that all three words have: a seat looks, and leaves the word as it is.

ghost use Rattle.pl_words.specs.AdmissionRule as admission;
ghost use Rattle.pl_words.specs.PromiseRule as promise;
ghost use Rattle.pl_words.specs.WatermarkRule as watermark;

use crate::admission_steps::AdmissionNotes;
use crate::promise_steps::PromiseNotes;
use crate::watermark_steps::WatermarkNotes;
use atomic_table::Play;

/// A seat looks at a word.
pub(crate) struct Look;

impl Play<(), AdmissionNotes> for Look {
    ghost then = { admission.Looked };
}

impl Play<(), WatermarkNotes> for Look {
    ghost then = { watermark.Looked };
}

impl Play<(), PromiseNotes> for Look {
    ghost then = { promise.Looked };
}
