ghost use Rattle.std.specs.Prelude.{◌≡◌, IsOkAnd};
ghost use Rattle.mutations.specs.ChildTexts.{IsLengthWithin, OfDrawnRecords};
ghost use Rattle.mutations.specs.DivideErrors.{birth_words};
ghost use Rattle.mutations.specs.BirthRecord.{child_of};
ghost use Rattle.mutations.specs.RecordForm.{HasRecordForm};

use crate::dividing::BIRTH_WORDS;

/// The limit of the code is the written one.
pub fn limits()
    ensures birth { BIRTH_WORDS ≡ birth_words }
{}

/// The record that words give applies, and the child's length is within the limits.
pub fn drawn_records_apply()
    ensures { OfDrawnRecords (λ limits parent drawn.
        IsOkAnd (child_of parent drawn) (IsLengthWithin limits)) }
{
    instruction_set::laws::one_index();
}

/// The record that words give has the form that a log asks for.
pub fn drawn_records_have_form()
    ensures { OfDrawnRecords (λ limits parent drawn. HasRecordForm drawn) }
{
    instruction_set::laws::one_index();
}
